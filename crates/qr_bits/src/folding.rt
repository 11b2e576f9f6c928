//! Folding: small letters become capitals, because alphanumeric mode has no small letters.

ghost use Rattle.std.specs.Prelude.{◌≡◌, length, vec_len, IfOk};
ghost use Rattle.qr_bits.specs.Folding.{folded, folded_around_pairs};

use crate::best_modes::begins_with_pair;
use crate::modes::Rule;
use std::alloc::{AllocError, Global};

/// Returns `input` with capitals in the place of the letters `a` to `z`, so the number of bytes stays the same. Under
/// `Rule::WithKanji` kanji pairs stay as they are. They are searched for from the first byte on, so the second byte of
/// a pair never begins another pair. Under `Rule::BytesOnly` all bytes stay as they are.
///
/// # Errors
///
/// Returns an error if memory is refused.
#[tactic(auto, using(crate::proofs::lemmas::folding::capitals))]
pub fn fold(alloc: Global, input: &[u8], rule: Rule) -> Result<Vec<u8>, AllocError>
    ensures bytes { IfOk result (λ v. v.items ≡ folded rule input.now) }
    ensures len { IfOk result (λ v. vec_len v ≡ length input.now) }
{
    match rule {
        Rule::Auto => input.to_ascii_uppercase(alloc),
        Rule::BytesOnly => Vec::from_slice(alloc, input),
        Rule::WithKanji => fold_around_pairs(alloc, input),
    }
}

fn fold_around_pairs(alloc: Global, input: &[u8]) -> Result<Vec<u8>, AllocError>
    ensures bytes { IfOk result (λ v. v.items ≡ folded_around_pairs input.now) }
    ensures len { IfOk result (λ v. vec_len v ≡ length input.now) }
{
    let mut folded = Vec::with_capacity(alloc, input.len())?;
    let mut rest = input;
    while !rest.is_empty() {
        if begins_with_pair(Rule::WithKanji, rest) {
            let (pair, after) = rest.split_at(2);
            folded.extend_from_slice(pair)?;
            rest = after;
        } else {
            folded.push(rest[0].to_ascii_uppercase())?;
            rest = &rest[1..];
        }
    }
    Ok(folded)
}
