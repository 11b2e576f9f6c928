//! Polynomials over the field of 256 elements with the leading coefficient 1. Coefficients begin with that of the
//! lowest power.

ghost use Rattle.std.specs.Prelude.{◌≡◌, ◌+◌, ◌<◌, ◌≤◌, ◌++◌, [], ◌∷◌, length};
ghost use Rattle.qr_field.specs.Polynomial.{plus, scaled, zeros};
ghost use Rattle.qr_mending.specs.Steps.Polynomial.{all_of, IsMonic};

use crate::sums::exponent_sum;
use qr_field::{exponent_of, power_of};

// `terms` has the coefficients up to index `degree`. Its later items are not used.
#[derive(Clone, Copy)]
pub(crate) struct Polynomial {
    pub(crate) degree: usize,
    pub(crate) terms: [u8; 16],
}

impl Polynomial {
    pub(crate) fn one() -> Polynomial
        ensures degree { result.degree ≡ 0 }
        ensures monic { IsMonic result }
        ensures terms { all_of result ≡ 1 ∷ [] }
    {
        let mut terms = [0; 16];
        terms[0] = 1;
        Polynomial { degree: 0, terms }
    }

    pub(crate) fn coefficients(&self) -> &[u8]
        requires { self.now.degree < 16 }
        ensures value { result.now ≡ all_of self.now }
        ensures count { length result.now ≡ self.now.degree + 1 }
        ensures terms { self.now.degree < length self.now.terms }
    {
        &self.terms[..self.degree + 1]
    }

    // Adds the product of `other`, `factor` and x^`shift`. The degree and the leading coefficient do not change, since
    // this product has a lower degree. Elements of the field are multiplied by adding their logarithms.
    #[tactic(auto, using(crate::proofs::Named::add_facts))]
    pub(crate) fn add(&mut self, factor: u8, other: &Polynomial, shift: usize)
        requires some { 1 ≤ factor }
        requires lower { other.now.degree + shift < self.old.degree }
        requires fits { self.old.degree < 16 }
        ensures degree { self.new.degree ≡ self.old.degree }
        ensures monic { IsMonic self.old → IsMonic self.new }
        ensures sum { all_of self.new ≡ plus (scaled factor (zeros shift ++ all_of other.now)) (all_of self.old) }
    {
        let exponent = exponent_of(factor);
        for j in 0..other.degree + 1 {
            if other.terms[j] == 0 {
                continue;
            }
            let sum = exponent_sum(exponent, exponent_of(other.terms[j]));
            self.terms[shift + j] ^= power_of(sum);
        }
    }

    // The product with x^`count`.
    #[tactic(auto, using(crate::proofs::Named::shift_facts))]
    pub(crate) fn shifted(&self, count: usize) -> Polynomial
        requires { self.now.degree + count < 16 }
        ensures degree { result.degree ≡ self.now.degree + count }
        ensures monic { IsMonic self.now → IsMonic result }
        ensures terms { all_of result ≡ zeros count ++ all_of self.now }
    {
        let mut terms = [0; 16];
        for k in 0..self.degree + 1 {
            terms[count + k] = self.terms[k];
        }
        Polynomial {
            degree: self.degree + count,
            terms,
        }
    }
}
