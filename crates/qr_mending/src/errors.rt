//! Removes the errors of a damaged block. The error of a codeword is its difference from the right one. The location of
//! a codeword is the number of codewords after it in the block, and its error is the coefficient of x^location in the
//! error polynomial. `syndromes` lists the values of this polynomial at 2^0, 2^1 and so on. The locator is a polynomial
//! with the root 2^location for each misread or erased codeword.
//!
//! The codewords are tried one by one, from the first of the block on, until the locator has at most one root left. A
//! codeword is tried by testing whether the locator is 0 at 2^location. This is Chien's search, with one difference:
//! instead of computing each value of the locator from the terms of the value before, the code computes sixteen values
//! at once, from a table (`sums.rt`). When 2^location is found to be a root, the locator is divided by x + 2^location.
//! The divided locator still has a root for each error that is yet to be found. Now each of its coefficients is
//! multiplied by the syndrome at the same index, and these products are added up. The errors that are yet to be found
//! contribute 0 to this sum. So the sum is the error at this location, multiplied by the value of the divided locator
//! at 2^location. This is a form of Forney's formula. Last, the error that was found is taken out of the syndromes.

ghost use Rattle.std.specs.Prelude.{◌≡◌, ◌≢◌, ℕ, ◌+◌, ◌*◌, ◌<◌, ◌≤◌, List, ◌∷◌, length, bit_xor, slice_index};
ghost use Rattle.std.specs.List.{All};
ghost use Rattle.arrayvec.specs.ArrayVec.{array_vec_len};
ghost use Rattle.qr_field.specs.Galois.{product};
ghost use Rattle.qr_field.specs.Polynomial.{IsByte, plus, power};
ghost use Rattle.qr_mending.specs.Steps.Sums.{eval};
ghost use Rattle.qr_mending.specs.Steps.Roots.{quotient, HasLeadingOne};
ghost use Rattle.qr_mending.specs.Steps.Errors.{AreErrors, AreLeft, IsRemoval};

use crate::sums::{add_multiples, dot, sixteen_values};
use arrayvec::ArrayVec;
use qr_field::{div, exponent_of, mul, power_of};

// Divides a polynomial by x + `root` by Horner's rule, and returns the value of the quotient at `root`. `terms` lists
// the coefficients of the polynomial, that of the lowest power first. They are replaced by the coefficients of the
// quotient. The quotient has one coefficient less, so the last of `terms` becomes 0. In each turn `carried` is the
// coefficient of the quotient that the turn writes. What it is after the last turn is the remainder of the division,
// which is not returned.
#[tactic(auto, using(crate::proofs::Named::division_facts))]
fn divide(terms: &mut [u8], root: u8) -> u8
    ensures quotient { terms.new ≡ quotient root terms.old }
    ensures value { result ≡ eval root (quotient root terms.old) }
    ensures bytes { All IsByte terms.old }
{
    let mut carried = 0;
    let mut quotient_at_root = 0;
    for j in (0..terms.len()).rev() {
        let next = terms[j] ^ mul(root, carried);
        terms[j] = carried;
        quotient_at_root = carried ^ mul(root, quotient_at_root);
        carried = next;
    }
    quotient_at_root
}

// Divides `locator` by x + `root` until `root` is no longer a root of `locator`. Returns the value that `locator` then
// has at `root`.
fn divide_out(locator: &mut ArrayVec<u8, 31>, root: u8) -> u8
    requires leading { HasLeadingOne locator.old.items }
    requires root { eval root locator.old.items ≡ 0 }
    ensures leading { HasLeadingOne locator.new.items }
    ensures shorter { array_vec_len locator.new < array_vec_len locator.old }
    ensures some { 1 ≤ result }
    ensures value { result ≡ eval root locator.new.items }
    ensures others { (y : ℕ) → IsByte y → y ≢ root → eval y locator.old.items ≡ 0 → eval y locator.new.items ≡ 0 }
{
    let mut value_at_root = 0;
    while value_at_root == 0 {
        value_at_root = divide(locator.as_mut_slice(), root);
        locator.pop();
    }
    value_at_root
}

// Takes the error of the codeword at `location` out of the syndromes.
#[tactic(auto, using(crate::proofs::Named::no_error_facts))]
fn remove(syndromes: &mut [u8], error: u8, location: u8)
    requires { location < 255 }
    ensures long { length syndromes.new ≡ length syndromes.old }
    ensures each { (k : ℕ) → k < length syndromes.old → slice_index syndromes.new k ≡
        bit_xor (slice_index syndromes.old k) (product error (power (k * location))) }
{
    if error != 0 {
        add_multiples(syndromes, error, location);
    }
}

// The search for the errors of a block. It tries the codewords one by one. `locator` and `syndromes` belong to the
// errors of those codewords that it has still to try. The values of the locator are computed for sixteen locations at
// once, and `values` has them for the locations from `first` on. After a division of the locator they need not be
// computed again: at the locations that are still to be tried, the divided locator is 0 exactly where the locator was
// 0.
#[derive(Drop)]
pub(crate) struct Removal {
    locator: ArrayVec<u8, 31>,
    syndromes: ArrayVec<u8, 30>,
    first: u8,
    values: [u8; 16],
}

impl Removal {
    // Computes the locator's values for `location` and for up to fifteen locations below it, if they are not there yet.
    fn prepare(&mut self, location: u8)
        requires { IsRemoval (location + 1) self.old }
        ensures removal { IsRemoval (location + 1) self.new }
        ensures left { (errors : List ℕ) → AreLeft (location + 1) errors self.old → AreLeft (location + 1) errors self.new }
        ensures first { self.new.first ≤ location }
    {
        if location < self.first {
            self.first = location.saturating_sub(15);
            self.values = sixteen_values(self.locator.as_slice(), self.first);
        }
    }

    // Returns the error of the codeword at `location`, where the locator has a root. Divides the locator by the factor
    // with this root, and removes from the syndromes what this error adds to them.
    fn error_at_root(&mut self, location: u8) -> u8
        requires small { location < 255 }
        requires root { eval (power location) self.old.locator.items ≡ 0 }
        requires removal { IsRemoval (location + 1) self.old }
        ensures removal { IsRemoval location self.new }
        ensures error { (c : ℕ) (errors : List ℕ) → AreLeft (location + 1) (c ∷ errors) self.old → result ≡ c }
        ensures left { (c : ℕ) (errors : List ℕ) → AreLeft (location + 1) (c ∷ errors) self.old →
            AreLeft location errors self.new }
    {
        let root = power_of(location);
        let value_at_root = divide_out(&mut self.locator, root);
        let error = div(
            dot(self.locator.as_slice(), self.syndromes.as_slice()),
            value_at_root,
        );
        self.syndromes.truncate(self.locator.len() - 1);
        remove(self.syndromes.as_mut_slice(), error, location);
        error
    }

    // Tries the next codeword, that at `location`, and returns its error. The error is 0 if the locator has no root
    // there.
    fn next_error(&mut self, location: u8) -> u8
        requires small { location < 255 }
        requires removal { IsRemoval (location + 1) self.old }
        ensures removal { IsRemoval location self.new }
        ensures error { (c : ℕ) (errors : List ℕ) → AreLeft (location + 1) (c ∷ errors) self.old → result ≡ c }
        ensures left { (c : ℕ) (errors : List ℕ) → AreLeft (location + 1) (c ∷ errors) self.old →
            AreLeft location errors self.new }
    {
        self.prepare(location);
        if self.values[usize::from(location - self.first)] != 0 {
            return 0;
        }
        self.error_at_root(location)
    }

    // Removes the last error from the codewords that were not tried yet. If the locator is 1, no error is left. If it
    // is x + r, at most one error is left: its location is the logarithm of r, and its value is the first syndrome.
    fn finish(&self, codewords: &mut [u8])
        requires removal { IsRemoval (length codewords.old) self.now }
        requires few { array_vec_len self.now.locator ≤ 2 }
        ensures long { length codewords.new ≡ length codewords.old }
        ensures sum { (errors : List ℕ) → AreLeft (length codewords.old) errors self.now →
            codewords.new ≡ plus codewords.old errors }
    {
        if self.locator.len() < 2 || self.locator[0] == 0 {
            return;
        }
        let location = usize::from(exponent_of(self.locator[0]));
        if location < codewords.len() {
            let k = codewords.len() - 1 - location;
            codewords[k] ^= self.syndromes[0];
        }
    }
}

// Returns the codewords without their errors. Adding an error to its codeword removes the error, since equal elements
// of the field add up to 0. The search ends as soon as the locator has at most one root left. When the search starts,
// no value of the locator has been computed yet. So `removal.first` is above all locations, and the first call of
// `next_error` computes values.
//
// The lists have room for what is copied into them, so `try_extend_from_slice` cannot fail. `removal` is made here,
// because if a function made it and returned it, the stack would have it twice.
pub(crate) fn without_errors(locator: &[u8], syndromes: &[u8], damaged: &[u8]) -> ArrayVec<u8, 255>
    requires leading { HasLeadingOne locator.now }
    requires most { length syndromes.now ≤ 30 }
    requires long { length locator.now ≤ length syndromes.now + 1 }
    requires fits { length damaged.now ≤ 255 }
    ensures long { length result.items ≡ length damaged.now }
    ensures sum { (errors : List ℕ) → AreErrors (length damaged.now) locator.now syndromes.now errors →
        result.items ≡ plus damaged.now errors }
{
    let mut removal = Removal {
        locator: ArrayVec::new(),
        syndromes: ArrayVec::new(),
        first: u8::MAX,
        values: [0; 16],
    };
    let _ = removal.locator.try_extend_from_slice(locator);
    let _ = removal.syndromes.try_extend_from_slice(syndromes);
    let mut codewords = ArrayVec::new();
    let _ = codewords.try_extend_from_slice(damaged);
    for k in 0..damaged.len() {
        if removal.locator.len() <= 2 {
            removal.finish(&mut codewords[k..]);
            return codewords;
        }
        let location = (damaged.len() - 1 - k) as u8;
        codewords[k] ^= removal.next_error(location);
    }
    codewords
}
