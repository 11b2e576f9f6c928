//! Finds the error locator polynomial of a damaged block by the algorithm of Berlekamp and Massey. The polynomial has a
//! root for each misread codeword.
//!
//! Its coefficients solve equations, which the syndromes yield. For equation i the coefficient of x^k is multiplied by
//! the syndrome at index i + k, for each k, and these products are added up. The polynomial solves the equation if this
//! sum, the discrepancy, is 0.
//!
//! The syndromes are taken in one by one. With each syndrome one more equation can be tested: the one in which this
//! syndrome is multiplied by the leading coefficient. If the polynomial does not solve this equation, a multiple of an
//! earlier polynomial is added to the polynomial, whose degree may then rise. The degree is never higher than the
//! number of misread codewords.

ghost use Rattle.std.specs.Prelude.{◌≡◌, ℕ, ◌+◌, ◌*◌, ◌<◌, ◌≤◌, List, false, length};
ghost use Rattle.std.specs.Bool.{OnTrue, OnFalse};
ghost use Rattle.arrayvec.specs.ArrayVec.{array_vec_len};
ghost use Rattle.qr_mending.specs.Steps.Sums.{HasValues};
ghost use Rattle.qr_mending.specs.Steps.Polynomial.{all_of, IsMonic, IsSearch, IsProgress};
ghost use Rattle.qr_mending.specs.Steps.Errors.{AreFewErrors, AreFewErrorsOf, IsLocated};

use crate::polynomial::Polynomial;
use crate::sums::{dot, push_syndromes};
use arrayvec::ArrayVec;
use qr_field::div;

// `best` solves all equations for which enough syndromes were taken in. `earlier` is what `best` was before its degree
// last rose. `earlier_discrepancy` is the sum that `earlier` has for the first equation that it does not solve.
#[derive(Drop)]
pub(crate) struct Search {
    pub(crate) best: Polynomial,
    earlier: Polynomial,
    earlier_discrepancy: u8,
}

impl Search {
    // The search before the first syndrome is taken in.
    #[tactic(auto, using(crate::proofs::Named::search_facts))]
    fn new() -> Search
        ensures search { (syndromes : List ℕ) → IsSearch 0 syndromes result }
        ensures degree { result.best.degree ≡ 0 }
    {
        let one = Polynomial::one();
        Search {
            best: one,
            earlier: one,
            earlier_discrepancy: 1,
        }
    }

    // Takes in syndrome `i`. If the degree would rise above `t`, returns false and changes nothing; then more than `t`
    // codewords are misread.
    //
    // The new equation has the index `i - degree`. The first equation that `earlier` does not solve has the index
    // `degree - 1`. If a polynomial is multiplied by x^s, its sum for equation j becomes the one that it had for
    // equation j + s. So one of the two polynomials is multiplied by a power of x that brings both discrepancies to the
    // same equation. There a multiple of one discrepancy cancels the other. If the equation that `earlier` does not
    // solve is the new one or a later one, `earlier` is multiplied. Otherwise `best` is multiplied, and its degree
    // rises.
    fn take_in(&mut self, syndromes: &[u8], i: usize, t: usize) -> bool
        requires search { IsSearch i syndromes.now self.old }
        requires degree { self.old.best.degree ≤ t }
        requires small { t ≤ 15 }
        requires within { i < length syndromes.now }
        ensures search { OnTrue result (IsSearch (i + 1) syndromes.now self.new) }
        ensures degree { OnTrue result (self.new.best.degree ≤ t) }
        ensures beyond { OnFalse result ((errors : List ℕ) → AreFewErrors t syndromes.now errors → ⊥) }
        ensures same { OnFalse result (self.new ≡ self.old) }
    {
        let degree = self.best.degree;
        let discrepancy = dot(self.best.coefficients(), &syndromes[i - degree..]);
        if discrepancy == 0 {
            return true;
        }
        let factor = div(discrepancy, self.earlier_discrepancy);
        if 2 * degree > i {
            self.best.add(factor, &self.earlier, 2 * degree - i - 1);
            return true;
        }
        if i + 1 - degree > t {
            return false;
        }
        let mut raised = self.best.shifted(i + 1 - 2 * degree);
        raised.add(factor, &self.earlier, 0);
        self.earlier = self.best;
        self.best = raised;
        self.earlier_discrepancy = discrepancy;
        true
    }
}

// Returns the error locator polynomial. If more than `t` codewords are misread, the result may be another polynomial.
pub(crate) fn locator(syndromes: &[u8], t: usize) -> Polynomial
    requires small { t ≤ 15 }
    requires long { 2 * t ≤ length syndromes.now }
    ensures degree { result.degree ≤ t }
    ensures monic { IsMonic result }
    ensures located { (errors : List ℕ) → AreFewErrors t syndromes.now errors → IsLocated (all_of result) errors }
{
    let mut search = Search::new();
    for i in 0..2 * t {
        if !search.take_in(syndromes, i, t) {
            return search.best;
        }
    }
    search.best
}

// The first syndromes of a block, and the state of the search when `taken` of them have been taken in.
#[derive(Drop)]
pub(crate) struct Progress {
    pub(crate) syndromes: ArrayVec<u8, 30>,
    pub(crate) taken: usize,
    pub(crate) search: Search,
}

impl Progress {
    pub(crate) fn new() -> Progress
        ensures { (t : ℕ) (remainder : List ℕ) → IsProgress t remainder result }
    {
        Progress {
            syndromes: ArrayVec::new(),
            taken: 0,
            search: Search::new(),
        }
    }

    // Computes further syndromes if `search` has taken in all syndromes that were computed so far.
    fn prepare(&mut self, remainder: &[u8])
        requires few { length remainder.now ≤ 30 }
        requires left { self.old.taken < length remainder.now }
        requires within { self.old.taken ≤ array_vec_len self.old.syndromes }
        requires values { HasValues self.old.syndromes.items remainder.now }
        ensures next { self.new.taken < array_vec_len self.new.syndromes }
        ensures taken { self.new.taken ≡ self.old.taken }
        ensures progress { (t : ℕ) → IsProgress t remainder.now self.old → IsProgress t remainder.now self.new }
    {
        if self.taken == self.syndromes.len() {
            push_syndromes(&mut self.syndromes, remainder);
        }
    }

    // Takes in further syndromes, until `2 * t` of them were taken in. If `early` is true, the function stops as soon
    // as the number of equations that `best` solves is its degree plus 2, since `best` then seldom changes any more. If
    // the degree would rise above `t`, returns false; then more than `t` codewords are misread.
    pub(crate) fn advance(&mut self, remainder: &[u8], t: usize, early: bool) -> bool
        requires progress { IsProgress t remainder.now self.old }
        requires small { t ≤ 15 }
        requires long { 2 * t ≤ length remainder.now }
        requires few { length remainder.now ≤ 30 }
        ensures progress { OnTrue result (IsProgress t remainder.now self.new) }
        ensures all { OnTrue result (early ≡ false → self.new.taken ≡ 2 * t) }
        ensures beyond { OnFalse result ((errors : List ℕ) → AreFewErrorsOf t remainder.now errors → ⊥) }
    {
        for i in self.taken..2 * t {
            self.prepare(remainder);
            if !self.search.take_in(self.syndromes.as_slice(), i, t) {
                return false;
            }
            self.taken = i + 1;
            if early && i + 1 == 2 * self.search.best.degree + 2 {
                return true;
            }
        }
        true
    }
}
