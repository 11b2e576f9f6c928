//! Mends damaged blocks of which some codewords are erased, that is, known to be unreadable. The errors of the erased
//! codewords are first taken out of the syndromes, so that only the misread codewords are still to be found.
//!
//! The erasure locator is a polynomial with a root for each erased codeword, and the error locator one with a root for
//! each misread codeword. The root of a codeword is 2^location.

ghost use Rattle.std.specs.Prelude.{◌≡◌, ℕ, ◌+◌, ◌/◌, ◌≤◌, List, length, IfSome, IfNone};
ghost use Rattle.std.specs.List.{All, count_by};
ghost use Rattle.arrayvec.specs.ArrayVec.{array_vec_len};
ghost use Rattle.qr_field.specs.Polynomial.{IsByte};
ghost use Rattle.qr_field.specs.Distance.{differences, errors};
ghost use Rattle.qr_mending.specs.Block.{IsMended};
ghost use Rattle.qr_mending.specs.Erasures.{changes_of, erased_errors, read_of, IsMendedWithErasures};
ghost use Rattle.qr_mending.specs.Steps.Sums.{HasValues, HasSameValues};
ghost use Rattle.qr_mending.specs.Steps.Errors.{weighted};

use crate::block::{is_block, mend, remainder};
use crate::errors::without_errors;
use crate::locator::locator;
use crate::roots::{count_erased, with_roots};
use crate::sums::{dot, syndromes};
use arrayvec::ArrayVec;
use qr_field::Divisor;

// The modified syndromes, which are also called Forney's syndromes. They are the syndromes of another error polynomial,
// which is made from the error polynomial of the block: for each m, the coefficient of x^m is multiplied by the value
// of `polynomial` at 2^m. If `polynomial` is the erasure locator, this value is 0 for each erased codeword, so the
// errors of the erased codewords are gone.
#[tactic(auto, using(crate::proofs::Named::erasure_facts))]
fn modified_syndromes(polynomial: &[u8], syndromes: &[u8]) -> ArrayVec<u8, 30>
    requires least { 1 ≤ length polynomial.now }
    requires long { length polynomial.now ≤ length syndromes.now + 1 }
    requires fits { length syndromes.now ≤ 30 }
    ensures count { array_vec_len result + length polynomial.now ≡ length syndromes.now + 1 }
    ensures values { (e : List ℕ) → All IsByte e → HasValues syndromes.now e →
        HasValues result.items (weighted polynomial.now e) }
{
    let mut modified = ArrayVec::new();
    for i in 0..syndromes.len() + 1 - polynomial.len() {
        modified.push(dot(polynomial, &syndromes[i..]));
    }
    modified
}

// Returns the mended block. If `damaged` cannot be mended, returns some list of codewords, which the caller has to
// refuse. The list `both` is the product of the erasure locator and the error locator, so it has a root for each
// codeword that is erased or misread.
//
// The function is not inlined into `mend_with_erasures`. Otherwise its lists would also be on the stack while
// `mend_with_erasures` calls `mend`.
#[inline(never)]
fn candidate(remainder: &[u8], spare: usize, erased: &[bool], damaged: &[u8]) -> ArrayVec<u8, 255>
    requires most { length remainder.now ≤ 30 }
    requires spare { spare ≤ length remainder.now }
    requires same { HasSameValues remainder.now damaged.now }
    requires enough { count_by (λ e. e) erased.now ≤ spare }
    requires fits { length damaged.now ≤ 255 }
    requires marks { length erased.now ≡ length damaged.now }
    ensures long { length result.items ≡ length damaged.now }
    ensures mended { (n : ℕ) (mended : List ℕ) → n ≡ length remainder.now →
        IsMendedWithErasures n spare (read_of damaged.now erased.now) mended → result.items ≡ mended }
{
    let t = (spare - count_erased(erased)) / 2;
    let first = syndromes(remainder);
    let erasure_locator = with_roots(erased, &[1]);
    let modified = modified_syndromes(erasure_locator.as_slice(), first.as_slice());
    let error_locator = locator(modified.as_slice(), t);
    let both = with_roots(erased, error_locator.coefficients());
    without_errors(both.as_slice(), first.as_slice(), damaged)
}

// Counts the codewords that differ from those of the mended block: first those that are not erased, and then those that
// are. The loop runs from the last index to the first, because the definitions `errors` and `erased_errors` are
// recursive, and compute their values for two lists from those for their tails.
#[tactic(auto, using(crate::proofs::Named::erasure_facts))]
fn count_wrong(codewords: &[u8], erased: &[bool], mended: &[u8]) -> (usize, usize)
    requires marks { length erased.now ≡ length codewords.now }
    requires long { length mended.now ≡ length codewords.now }
    ensures most { result.0 ≤ length codewords.now }
    ensures misread { result.0 ≡ errors (read_of codewords.now erased.now) mended.now }
    ensures erased { result.1 ≡ erased_errors (read_of codewords.now erased.now) codewords.now mended.now }
{
    let mut misread = 0;
    let mut erased_wrong = 0;
    for k in (0..codewords.len()).rev() {
        if codewords[k] != mended[k] {
            if erased[k] {
                erased_wrong += 1;
            } else {
                misread += 1;
            }
        }
    }
    (misread, erased_wrong)
}

/// How many codewords of a damaged block were misread and erased.
#[derive(Drop)]
pub struct Changes {
    /// The number of codewords that were not erased, but read with a wrong value.
    pub misread: usize,
    /// The number of codewords that were erased.
    pub erased: usize,
    /// The number of erased codewords whose value, as it was passed, is not that in the mended block.
    pub erased_wrong: usize,
}

// Mends a block of which no codeword is erased, so that up to half of the codewords to spare may be misread.
pub(crate) fn mend_unerased(
    divisor: &Divisor,
    spare: usize,
    codewords: &mut [u8],
) -> Option<Changes>
    requires spare { spare ≤ divisor.now }
    requires least { divisor.now ≤ length codewords.old }
    requires most { length codewords.old ≤ 255 }
    ensures mended { IfSome result (λ changes. IsMended divisor.now (spare / 2) codewords.old codewords.new
        × (changes ≡ record { misread = differences codewords.old codewords.new; erased = 0; erased_wrong = 0 })) }
    ensures only { IfSome result (λ _. (mended : List ℕ) → IsMended divisor.now (spare / 2) codewords.old mended
        → mended ≡ codewords.new) }
    ensures refused { IfNone result ((mended : List ℕ) → IsMended divisor.now (spare / 2) codewords.old mended → ⊥) }
    ensures same { IfNone result (codewords.new ≡ codewords.old) }
{
    let Some(misread) = mend(divisor, spare / 2, codewords) else {
        return None;
    };
    Some(Changes {
        misread,
        erased: 0,
        erased_wrong: 0,
    })
}

/// Mends a damaged block of at most 255 codewords, some of which are erased: known to be unreadable. A codeword is
/// erased if `erased` is true at its index, and its value then has no effect on the mended block. Returns how many
/// codewords were misread and erased (ISO/IEC 18004:2015, 7.5.1 and Annex B).
///
/// An erased codeword uses up one error correction codeword, and a misread one uses up two. If the block needs more
/// than `spare` of them, returns `None` and changes nothing. `divisor` determines the number of error correction
/// codewords of the block. In a symbol, `spare` is the number that `Version::spare` returns.
#[tactic(auto, using(crate::proofs::Named::mend_with_erasures_facts))]
pub fn mend_with_erasures(
    divisor: &Divisor,
    spare: usize,
    erased: &[bool],
    codewords: &mut [u8],
) -> Option<Changes>
    requires spare { spare ≤ divisor.now }
    requires least { divisor.now ≤ length codewords.old }
    requires most { length codewords.old ≤ 255 }
    requires marks { length erased.now ≡ length codewords.old }
    ensures mended { IfSome result (λ changes.
        IsMendedWithErasures divisor.now spare (read_of codewords.old erased.now) codewords.new
        × (changes ≡ changes_of (read_of codewords.old erased.now) codewords.old codewords.new)) }
    ensures only { IfSome result (λ _. (mended : List ℕ)
        → IsMendedWithErasures divisor.now spare (read_of codewords.old erased.now) mended → mended ≡ codewords.new) }
    ensures refused { IfNone result ((mended : List ℕ)
        → IsMendedWithErasures divisor.now spare (read_of codewords.old erased.now) mended → ⊥) }
    ensures same { IfNone result (codewords.new ≡ codewords.old) }
{
    let erasures = count_erased(erased);
    if erasures > spare {
        return None;
    }
    if erasures == 0 {
        return mend_unerased(divisor, spare, codewords);
    }
    let Some(remainder) = remainder(divisor, codewords) else {
        return Some(Changes {
            misread: 0,
            erased: erasures,
            erased_wrong: 0,
        });
    };
    let mended = candidate(remainder.as_slice(), spare, erased, codewords);
    let (misread, erased_wrong) = count_wrong(codewords, erased, mended.as_slice());
    if erasures + 2 * misread > spare || !is_block(divisor, mended.as_slice()) {
        return None;
    }
    codewords.copy_from_slice(mended.as_slice());
    Some(Changes {
        misread,
        erased: erasures,
        erased_wrong,
    })
}
