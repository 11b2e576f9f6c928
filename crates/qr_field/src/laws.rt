//! Laws of products, generator polynomials and error correction codewords (ISO/IEC 18004:2015, 7.5.2, Annex A). The
//! functions do nothing, and their contracts are the laws. A function whose name ends in `compute` or `computes` has
//! examples that the standard prints, or that were worked out by hand.

ghost use Rattle.std.specs.Prelude.{◌≡◌, ◌<◌, ◌≤◌, ℕ, ◌-◌, List, [], ◌∷◌, ◌++◌, All, map, length, slice_index, Some, None};
ghost use Rattle.qr_field.specs.Galois.{IsProduct, product};
ghost use Rattle.qr_field.specs.Polynomial.{IsByte, zeros, power, generator_of, IsCorrection, HasCorrection};
ghost use Rattle.qr_field.specs.Distance.{differences, erasures, errors, BlocksLieApart, ErasuresAreUnambiguous};
ghost use Rattle.qr_field.specs.Laws.{lengths_in_use, printed_exponents, worked_data, worked_correction};

use crate::galois::{LOGARITHMS, POWERS};

/// Two elements have exactly one product.
pub fn product_is_one()
    ensures named { (a b : ℕ) → IsByte a → IsByte b → IsProduct a b (product a b) }
    ensures only { (a b p q : ℕ) → IsProduct a b p → IsProduct a b q → p ≡ q }
{}

/// For each n from 1 on, data codewords have exactly one list of n error correction codewords.
pub fn correction_is_one()
    ensures some { (d : List ℕ) (n : ℕ) → 1 ≤ n → All IsByte d → HasCorrection d n }
    ensures only { (d e f : List ℕ) (n : ℕ) → IsCorrection d n e → IsCorrection d n f → e ≡ f }
{}

/// Entry i of `POWERS` is 2 to the power i in the field, and entry a - 1 of `LOGARITHMS` is the logarithm of a.
pub fn tables_are_powers()
    ensures power_count { length POWERS ≡ 255 }
    ensures powers { (i : ℕ) → i < 255 → slice_index POWERS i ≡ power i }
    ensures logarithm_count { length LOGARITHMS ≡ 255 }
    ensures exponents { (a : ℕ) → 1 ≤ a → IsByte a → slice_index LOGARITHMS (a - 1) < 255 }
    ensures logarithms { (a : ℕ) → 1 ≤ a → IsByte a → power (slice_index LOGARITHMS (a - 1)) ≡ a }
{}

/// Two products as examples. The first product of polynomials needs nine bits, so it is reduced by the prime modulus
/// polynomial. The second product has a factor 0.
#[tactic(auto, unfolding(crate::specs::Galois::remainder_of, crate::specs::Galois::carryless, crate::specs::Galois::product))]
pub fn products_compute()
    ensures reduced { product 0x80 2 ≡ 0x1D }
    ensures zero { product 0 0xFF ≡ 0 }
{}

/// `generator_of` yields the generator polynomial of degree 7, whose coefficients are given here as bytes. It also
/// yields all those that Annex A prints for QR Code, with powers of 2 as coefficients.
pub fn generators_compute()
    ensures seven { generator_of 7 ≡ 1 ∷ 0x7F ∷ 0x7A ∷ 0x9A ∷ 0xA4 ∷ 0x0B ∷ 0x44 ∷ 0x75 ∷ [] }
    ensures printed { map generator_of lengths_in_use ≡ map (map power) printed_exponents }
{}

/// An example of error correction codewords: those of the input `01234567` at version 1 and level M.
pub fn correction_computes()
    ensures { IsCorrection worked_data 10 worked_correction }
{}

/// Two blocks with different data codewords differ in more codewords than each of them has error correction codewords,
/// if they have at most 255 codewords each, equally many data codewords and equally many error correction codewords.
pub fn blocks_lie_apart()
    ensures { BlocksLieApart }
{}

/// Suppose that a block has at most 255 codewords, that the number of its data codewords is known, that k codewords
/// were not read, and that at most t were misread. If the block has at least k + 2t error correction codewords, then
/// what was read determines its data codewords.
pub fn erasures_are_unambiguous()
    ensures { ErasuresAreUnambiguous }
{}

/// Suppose that every codeword of a block was read. Then none is erased, and the number of misread codewords is the
/// number of codewords in which the block that was read differs from the undamaged block. So `erasures_are_unambiguous`
/// also speaks of blocks that were read whole.
#[tactic(auto, using(crate::proofs::Named::damage))]
pub fn damage_is_unambiguous()
    ensures read { (xs : List ℕ) → erasures (map (λ x. Some x) xs) ≡ 0 }
    ensures misread { (xs ys : List ℕ) → errors (map (λ x. Some x) xs) ys ≡ differences xs ys }
{}

/// One example each of how erasures, misread codewords and differences are counted. If one of the two lists that are
/// compared is longer, each of its further codewords counts as misread, or as a difference.
pub fn damage_computes()
    ensures erasures { erasures (None ∷ Some 7 ∷ None ∷ []) ≡ 2 }
    ensures errors { errors (Some 7 ∷ None ∷ Some 9 ∷ Some 4 ∷ []) (7 ∷ 8 ∷ 8 ∷ []) ≡ 2 }
    ensures differences { differences (7 ∷ 8 ∷ []) (7 ∷ 9 ∷ 1 ∷ []) ≡ 2 }
{}

/// Blocks of more than 255 codewords may differ in fewer codewords than `blocks_lie_apart` says. The two blocks here
/// have 256 codewords each, two of them for error correction, and differ in only two codewords.
pub fn longer_blocks_lie_nearer()
    ensures one { IsCorrection (1 ∷ zeros 253) 2 (0 ∷ 1 ∷ []) }
    ensures other { IsCorrection (zeros 254) 2 (zeros 2) }
    ensures near { differences ((1 ∷ zeros 253) ++ 0 ∷ 1 ∷ []) (zeros 254 ++ zeros 2) ≡ 2 }
{}
