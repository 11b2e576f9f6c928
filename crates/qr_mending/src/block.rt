//! Mends damaged blocks (ISO/IEC 18004:2015, 7.5.1 and Annex B). The codewords of a block are the coefficients of a
//! polynomial, that of the highest power first. If the block is undamaged, the generator polynomial divides this
//! polynomial. Codewords are called a block of the code if the generator polynomial divides their polynomial. The
//! syndromes of a damaged block are the values of its polynomial at 2^0, 2^1 and so on, as many as there are error
//! correction codewords. If the polynomial of a damaged block is divided by the generator polynomial, the remainder has
//! the same syndromes and fewer coefficients. So the syndromes are computed from the remainder, and only as many of
//! them as are needed.
//!
//! A candidate for the mended block is computed from the syndromes. It is taken only if it is a block of the code, and
//! differs in few enough codewords from what was read.
//!
//! A block has at most 255 codewords, since the field has 255 different powers of 2. At most 30 codewords of a block
//! are error correction codewords (Table 9), so at most 15 misread codewords can be corrected.

ghost use Rattle.std.specs.Prelude.{◌≡◌, ℕ, ◌*◌, ◌≤◌, List, length, IfSome, IfNone};
ghost use Rattle.std.specs.Bool.{Decides, OnTrue, OnFalse};
ghost use Rattle.arrayvec.specs.ArrayVec.{array_vec_len};
ghost use Rattle.qr_field.specs.{Distance.{differences}, Polynomial.{plus}};
ghost use Rattle.qr_mending.specs.Block.{IsBlock, IsMended};
ghost use Rattle.qr_mending.specs.Steps.Sums.{HasSameValues};

use crate::errors::without_errors;
use crate::locator::Progress;
use arrayvec::ArrayVec;
use qr_field::Divisor;

// The loop runs from the last index to the first, because the definition `differences` is recursive, and computes its
// value for two lists from that for their tails.
fn count_differences(xs: &[u8], ys: &[u8]) -> usize
    requires { length xs.now ≡ length ys.now }
    ensures { result ≡ differences xs.now ys.now }
{
    let mut count = 0;
    for k in (0..xs.len()).rev() {
        if xs[k] != ys[k] {
            count += 1;
        }
    }
    count
}

// Returns whether the codewords are a block of the code: whether the last of them are the error correction codewords
// that belong to the codewords before them.
pub(crate) fn is_block(divisor: &Divisor, codewords: &[u8]) -> bool
    requires { divisor.now ≤ length codewords.now }
    ensures { Decides result (IsBlock divisor.now codewords.now) }
{
    let start = codewords.len() - divisor.count();
    let correction = divisor.correction(&codewords[..start]);
    correction.as_slice() == &codewords[start..]
}

// Adds two polynomials, given by their coefficients. In the field, the sum of two elements is their exclusive or.
#[tactic(auto, using(crate::proofs::Named::sum_facts))]
fn sum(xs: &[u8], ys: &[u8]) -> ArrayVec<u8, 30>
    requires long { length xs.now ≡ length ys.now }
    requires fits { length xs.now ≤ 30 }
    ensures sum { result.items ≡ plus xs.now ys.now }
    ensures count { array_vec_len result ≡ length xs.now }
{
    let mut sum = ArrayVec::new();
    for k in 0..xs.len() {
        sum.push(xs[k] ^ ys[k]);
    }
    sum
}

// Divides the polynomial of the codewords by the generator polynomial, and returns the remainder. Returns `None` if the
// remainder is 0, that is, if the codewords are a block of the code.
pub(crate) fn remainder(divisor: &Divisor, codewords: &[u8]) -> Option<ArrayVec<u8, 30>>
    requires { divisor.now ≤ length codewords.now }
    ensures block { IfNone result (IsBlock divisor.now codewords.now) }
    ensures count { IfSome result (λ r. array_vec_len r ≡ divisor.now) }
    ensures same { IfSome result (λ r. HasSameValues r.items codewords.now) }
{
    let start = codewords.len() - divisor.count();
    let correction = divisor.correction(&codewords[..start]);
    if correction.as_slice() == &codewords[start..] {
        return None;
    }
    Some(sum(&codewords[start..], correction.as_slice()))
}

fn is_mended(divisor: &Divisor, t: usize, damaged: &[u8], mended: &[u8]) -> bool
    requires least { divisor.now ≤ length damaged.now }
    requires long { length mended.now ≡ length damaged.now }
    ensures yes { OnTrue result (IsMended divisor.now t damaged.now mended.now) }
    ensures no { OnFalse result (IsMended divisor.now t damaged.now mended.now → ⊥) }
{
    count_differences(damaged, mended) <= t && is_block(divisor, mended)
}

// Mends codewords that are no block of the code. Most damaged blocks have few misread codewords, and the first
// syndromes suffice to find these. So a first candidate is computed as soon as the locator, whose roots say which
// codewords are misread, seems to be found. If this candidate is refused, the search for the locator goes on with the
// syndromes that are left, and a second candidate is computed.
fn mended_block(
    divisor: &Divisor,
    t: usize,
    remainder: &[u8],
    damaged: &[u8],
) -> Option<ArrayVec<u8, 255>>
    requires half { 2 * t ≤ divisor.now }
    requires least { divisor.now ≤ length damaged.now }
    requires most { length damaged.now ≤ 255 }
    requires few { divisor.now ≤ 30 }
    requires count { length remainder.now ≡ divisor.now }
    requires same { HasSameValues remainder.now damaged.now }
    ensures mended { IfSome result (λ block. IsMended divisor.now t damaged.now block.items) }
    ensures refused { IfNone result ((mended : List ℕ) → IsMended divisor.now t damaged.now mended → ⊥) }
{
    let mut progress = Progress::new();
    if !progress.advance(remainder, t, true) {
        return None;
    }
    let early = without_errors(
        progress.search.best.coefficients(),
        progress.syndromes.as_slice(),
        damaged,
    );
    if is_mended(divisor, t, damaged, early.as_slice()) {
        return Some(early);
    }
    if progress.taken == 2 * t {
        return None;
    }
    if !progress.advance(remainder, t, false) {
        return None;
    }
    let block = without_errors(
        progress.search.best.coefficients(),
        progress.syndromes.as_slice(),
        damaged,
    );
    if !is_mended(divisor, t, damaged, block.as_slice()) {
        return None;
    }
    Some(block)
}

/// Mends a damaged block of at most 255 codewords: replaces `codewords` by the block that differs from them in at most
/// `t` codewords, and returns the number of those that differ. Returns `None` and changes nothing if there is no such
/// block (ISO/IEC 18004:2015, 7.5.1 and Annex B). `divisor` determines the number of error correction codewords, which
/// must be at least twice `t`.
#[tactic(auto, using(crate::proofs::Named::block_facts))]
pub fn mend(divisor: &Divisor, t: usize, codewords: &mut [u8]) -> Option<usize>
    requires half { 2 * t ≤ divisor.now }
    requires least { divisor.now ≤ length codewords.old }
    requires most { length codewords.old ≤ 255 }
    ensures mended { IfSome result (λ changed. IsMended divisor.now t codewords.old codewords.new
        × (changed ≡ differences codewords.old codewords.new)) }
    ensures only { IfSome result (λ _. (mended : List ℕ) → IsMended divisor.now t codewords.old mended
        → mended ≡ codewords.new) }
    ensures refused { IfNone result ((mended : List ℕ) → IsMended divisor.now t codewords.old mended → ⊥) }
    ensures same { IfNone result (codewords.new ≡ codewords.old) }
{
    let Some(remainder) = remainder(divisor, codewords) else {
        return Some(0);
    };
    let Some(mended) = mended_block(divisor, t, remainder.as_slice(), codewords) else {
        return None;
    };
    let changed = count_differences(codewords, mended.as_slice());
    codewords.copy_from_slice(mended.as_slice());
    Some(changed)
}
