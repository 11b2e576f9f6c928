//! Laws of mending. The contract of each function is the law. Where a function has code, the law is about what this
//! code returns. The theorems that the README claims are in `qr_theorems`. The laws here are called by code, refuse
//! wrong definitions, or say how definitions of this crate belong together.
//!
//! `format.rt` says what a copy of the format information costs, and when a level and a mask are near to it. A codeword
//! is erased if it is known to be unreadable, and misread if it was read with a wrong value.

ghost use Rattle.std.specs.Prelude.{◌≡◌, ◌≢◌, ◌↔◌, ◌⊎◌, Err, ℕ, ◌+◌, ◌*◌, ◌/◌, ◌<◌, ◌≤◌, ◌==◌, ◌&&◌, false, List, [], ◌∷◌, map, length, replicate, Option, None, Some};
ghost use Rattle.std.specs.List.{All};
ghost use Rattle.qr_layout.specs.declared.level.Level.{Level};
ghost use Rattle.qr_layout.specs.Format.{format_word_of};
ghost use Rattle.qr_bits.specs.declared.modes.Rule.{Rule};
ghost use Rattle.qr_bits.specs.Parsing.{Content};
ghost use Rattle.qr_matrix.specs.Grid.{Grid, IsSquare, light, square};
ghost use Rattle.qr_symbol.specs.declared.fault.ReadFault.{ReadFault};
ghost use Rattle.qr_symbol.specs.Interleaving.{blocks_in};
ghost use Rattle.qr_symbol.specs.Reading.{IsReading};
ghost use Rattle.qr_matrix.specs.BitRow.{has_bit};
ghost use Rattle.qr_symbol.specs.Symbol.{grid_of};
ghost use Rattle.qr_mending.specs.Block.{IsBlock, IsMended};
ghost use Rattle.qr_mending.specs.declared.erasures.Changes.{Changes};
ghost use Rattle.qr_mending.specs.Erasures.{changes_of, read_of, IsMendedWithErasures};
ghost use Rattle.qr_mending.specs.declared.format.FormatCopy.{FormatCopy};
ghost use Rattle.qr_mending.specs.Format.{bit_differences, copy_cost, copy_place, format_cost, IsNearFormat};
ghost use Rattle.qr_layout.specs.Blocks.{correctable_of, spare_of};
ghost use Rattle.qr_mending.specs.Message.{no_changes, IsMendedIn};
ghost use Rattle.qr_mending.specs.Mending.{wrong_format_least, wrong_format_modules, HasWrongModules, IsMendedReading, IsUnmended};
ghost use Rattle.qr_mending.specs.Series.{IsUnmendedSeries};

use crate::mending::{Mended, mend_symbol, mend_symbol_with_unknown};
use crate::series::mend_series;
use qr_bits::Rule;
use qr_layout::{Level, Version};
use qr_matrix::Matrix;
use qr_symbol::ReadFault;
use std::alloc::Global;

/// A damaged block of at most 255 codewords is mended to at most one block. This holds if mending corrects at most half
/// as many misread codewords as the block has error correction codewords.
pub fn mended_blocks_are_one()
    ensures { (n t : ℕ) (damaged b c : List ℕ) → length damaged ≤ 255 → 2 * t ≤ n
        → IsMended n t damaged b → IsMended n t damaged c → b ≡ c }
{}

/// A damaged block of at most 255 codewords, some of them erased, is mended to at most one block. This holds if mending
/// uses up no more error correction codewords than the block has: one for each erased codeword, and two for each
/// misread one.
pub fn blocks_mended_with_erasures_are_one()
    ensures { (n spare : ℕ) (read : List (Option ℕ)) (b c : List ℕ) → length read ≤ 255 → spare ≤ n
        → IsMendedWithErasures n spare read b → IsMendedWithErasures n spare read c → b ≡ c }
{}

/// If no codeword is erased, mending that uses up at most `spare` error correction codewords has the same results as
/// mending that corrects at most `spare` / 2 misread codewords. The quotient is rounded down.
pub fn blocks_without_erasures_are_mended_alike()
    ensures { (n spare k : ℕ) (damaged mended : List ℕ)
        → IsMendedWithErasures n spare (read_of damaged (replicate k false)) mended ↔ IsMended n (spare / 2) damaged mended }
{}

/// Take a block of at most 255 codewords, and count fewer of its last codewords as error correction codewords, but at
/// least one. Then it is still a block, since the generator polynomial of the lower degree divides that of the higher
/// degree. For example, a symbol of version 1 has one block at every level. Its codewords at level H are also a block
/// of level L, so only the format information says which level is meant.
#[tactic(auto, using(crate::proofs::Named::law_facts))]
pub fn blocks_are_those_of_weaker_levels()
    ensures { (n m : ℕ) (block : List ℕ) → 1 ≤ n → n ≤ m → length block ≤ 255 → IsBlock m block → IsBlock n block }
{}

/// The format information of two different pairs of level and mask differs in at least seven of 15 bits, and for some
/// pairs in just seven. Take what both copies together cost with one pair, and what they cost with another. Whatever
/// the copies show, these two costs add up to at least 28: if one is at most 13, the other is at least 15.
pub fn format_words_lie_apart()
    ensures words { (l k : Level) (m n : ℕ) → m < 8 → n < 8 → ((l ≡ k) × (m ≡ n) → ⊥)
        → 7 ≤ bit_differences 15 (has_bit (format_word_of l m)) (has_bit (format_word_of k n)) }
    ensures least { bit_differences 15 (has_bit (format_word_of Level.L 0)) (has_bit (format_word_of Level.L 1)) ≡ 7 }
    ensures costs { (unknown g : Grid) (l k : Level) (m n : ℕ) → m < 8 → n < 8 → ((l ≡ k) × (m ≡ n) → ⊥)
        → 28 ≤ format_cost unknown g l m + format_cost unknown g k n }
{}

/// At most one pair of level and mask is near to a copy of the format information; a pair is near if the copy costs at
/// most 6 with it. So the two copies together have at most two near pairs, and mending tries no others.
#[tactic(auto, using(crate::proofs::Named::law_facts))]
pub fn near_format_is_one()
    ensures one { (unknown : Grid) (copy : FormatCopy) (g : Grid) (l k : Level) (m n : ℕ) → IsNearFormat unknown copy g l m
        → IsNearFormat unknown copy g k n → (l ≡ k) × (m ≡ n) }
    ensures two { (unknown g : Grid) (a b c : FormatCopy) (l k j : Level) (m n i : ℕ) → IsNearFormat unknown a g l m
        → IsNearFormat unknown b g k n → IsNearFormat unknown c g j i
        → ((l ≡ k) × (m ≡ n)) ⊎ (((l ≡ j) × (m ≡ i)) ⊎ ((k ≡ j) × (n ≡ i))) }
{}

/// In the cost of a copy, a module that was not read counts once, and a misread one twice. In the number of wrong
/// modules each of them counts once. `format_cost` and `wrong_format_modules` add up the numbers of both copies. The
/// example in the clause `costs` is a light square of 21 rows that is compared with the format information of level M
/// and mask 0. One module of its first copy was not read. A level and a mask are near to a copy at a cost of 6, and not
/// at 7.
pub fn format_costs_compute()
    ensures near { (unknown g : Grid) (copy : FormatCopy) (l : Level) (mask : ℕ) → mask < 8
        → copy_cost unknown copy g l mask ≡ 6 → IsNearFormat unknown copy g l mask }
    ensures far { (unknown g : Grid) (copy : FormatCopy) (l : Level) (mask : ℕ)
        → copy_cost unknown copy g l mask ≡ 7 → IsNearFormat unknown copy g l mask → ⊥ }
    ensures costs { (unknown : Grid) → unknown ≡ square 21 (λ r c. r == 8 && c == 1)
        → (copy_cost unknown FormatCopy.First (light 21) Level.M 0 ≡ 11)
        × (copy_cost unknown FormatCopy.Second (light 21) Level.M 0 ≡ 10)
        × (format_cost unknown (light 21) Level.M 0 ≡ 21)
        × (wrong_format_modules unknown (light 21) Level.M 0 ≡ 11)
        × (wrong_format_least unknown (light 21) Level.M 0 ≡ 5) }
    ensures places { map (copy_place FormatCopy.Second 21) (0 ∷ 7 ∷ 8 ∷ 14 ∷ [])
        ≡ record { row = 8; col = 20 } ∷ record { row = 8; col = 13 } ∷ record { row = 14; col = 8 }
        ∷ record { row = 20; col = 8 } ∷ [] }
{}

/// Four codewords of a block are compared with the mended block. The first and the third are erased, and one of these has
/// another value than it should have. Of the other two, one is misread.
pub fn changes_compute()
    ensures { changes_of (None ∷ Some 5 ∷ None ∷ Some 7 ∷ []) (1 ∷ 5 ∷ 3 ∷ 7 ∷ []) (1 ∷ 6 ∷ 4 ∷ 7 ∷ [])
        ≡ record { misread = 1; erased = 2; erased_wrong = 1 } }
{}

/// With a given version and level, the codewords of a damaged symbol are mended to at most one message. For each block,
/// the counts of its misread and erased codewords have at most one possible value.
pub fn mended_messages_are_one(version: Version, level: Level)
    ensures { (unknown : Grid) (cw m n : List ℕ) (x y : List Changes) → IsMendedIn unknown version level cw m x
        → IsMendedIn unknown version level cw n y
        → (m ≡ n) × (x ≡ y) }
{}

/// Reading a damaged symbol has at most one result, whether or not all modules of the symbol were read. The result is a
/// version, a level, a mask, a content, and for each block the counts of its misread and erased codewords.
pub fn mended_readings_are_one()
    ensures { (unknown : Grid) (g : Grid) (v w : ℕ) (l k : Level) (m n : ℕ) (p q : Content) (x y : List Changes)
        → IsMendedReading unknown g v l m p x → IsMendedReading unknown g w k n q y
        → (v ≡ w) × (l ≡ k) × (m ≡ n) × (p ≡ q) × (x ≡ y) }
{}

/// The number of wrong modules of a damaged symbol has at most one possible value.
pub fn wrong_modules_are_one()
    ensures { (unknown : Grid) (g : Grid) (v w : ℕ) (l k : Level) (m n : ℕ) (x y : List Changes) (a b : ℕ)
        → HasWrongModules unknown g v l m x a → HasWrongModules unknown g w k n y b → a ≡ b }
{}

/// If every module was read, the number of wrong modules is 0 exactly if the square is the undamaged symbol.
pub fn sound_squares_are_symbols()
    ensures { (g : Grid) (v : ℕ) (l : Level) (mask : ℕ) (changed : List Changes) (wrong : ℕ)
        → IsSquare g.side g → (w : HasWrongModules (light g.side) g v l mask changed wrong)
        → (wrong ≡ 0) ↔ (g ≡ grid_of v l mask w.differs.codewords) }
{}

/// A square that can be read without mending is mended to the same content, and no codeword changes.
pub fn readings_are_mended_readings()
    ensures { (g : Grid) (p : Content) → (h : IsReading g p)
        → IsMendedReading (light g.side) g h.version h.level h.mask p (replicate (blocks_in h.version h.level) no_changes) }
{}

/// Mending counts the misread and the erased codewords of each block, and there is at least one block. In none of them
/// more codewords are misread than `Version::correctable` returns, which is from 2 to 15 for every version and level.
/// The number of erased codewords, plus twice that of misread ones, is at most `Version::spare`, which is at most 30.
pub fn changes_are_bounded()
    ensures some { (unknown : Grid) (g : Grid) (v : ℕ) (l : Level) (m : ℕ) (p : Content) (x : List Changes)
        → IsMendedReading unknown g v l m p x → 1 ≤ length x }
    ensures few { (unknown : Grid) (g : Grid) (v : ℕ) (l : Level) (m : ℕ) (p : Content) (x : List Changes)
        → IsMendedReading unknown g v l m p x → All (λ c. c.misread ≤ correctable_of v l) x }
    ensures spent { (unknown : Grid) (g : Grid) (v : ℕ) (l : Level) (m : ℕ) (p : Content) (x : List Changes)
        → IsMendedReading unknown g v l m p x → All (λ c. (c.erased + 2 * c.misread ≤ spare_of v l)
        × (c.erased_wrong ≤ c.erased)) x }
    ensures spare { (v : ℕ) (l : Level) → 1 ≤ v → v ≤ 40 → spare_of v l ≤ 30 }
    ensures correctable { (v : ℕ) (l : Level) → 1 ≤ v → v ≤ 40 → (2 ≤ correctable_of v l) × (correctable_of v l ≤ 15) }
{}

/// Whoever has made a symbol that can be mended and read, it contains at most 7,089 bytes and at most 1,970 ECI headers.
pub fn mended_readings_are_short()
    ensures { (unknown : Grid) (g : Grid) (v : ℕ) (l : Level) (m : ℕ) (p : Content) (x : List Changes)
        → IsMendedReading unknown g v l m p x → (length p.bytes ≤ 7089) × (length p.ecis ≤ 1970) }
{}

/// A damaged symbol that can be mended and read is refused only for lack of memory.
pub fn mended_readings_are_not_refused()
    ensures { (unknown : Grid) (g : Grid) (v : ℕ) (l : Level) (m : ℕ) (p : Content) (x : List Changes) (e : ReadFault)
        → IsMendedReading unknown g v l m p x → IsUnmended unknown g e → e ≡ ReadFault.Memory }
{}

/// Apart from lack of memory, there is at most one fault for which a damaged symbol is refused.
#[tactic(auto, using(crate::proofs::Named::law_facts))]
pub fn mending_refusals_are_one()
    ensures { (unknown : Grid) (g : Grid) (e f : ReadFault) → IsUnmended unknown g e
        → IsUnmended unknown g f
        → (e ≡ ReadFault.Memory) ⊎ (f ≡ ReadFault.Memory) ⊎ (e ≡ f) }
{}

/// `IsUnmended` states the reason for each fault. `mend_symbol_with_unknown` returns a fault other than `Memory`
/// exactly if the reason for this fault holds and no allocation is refused.
pub fn mendings_are_refused_exactly(
    alloc: Global,
    damaged: &Matrix,
    unknown: &Matrix,
) -> Result<Mended, ReadFault>
    requires { unknown.now.side ≡ damaged.now.side }
    ensures { (e : ReadFault) → e ≢ ReadFault.Memory
        → (result ≡ Err e) ↔ ((result ≢ Err ReadFault.Memory) × IsUnmended unknown.now damaged.now e) }
{
    mend_symbol_with_unknown(alloc, damaged, unknown)
}

/// `IsUnmendedSeries` states the reason for each fault. `mend_series` returns a fault other than `Memory` exactly if
/// the reason for this fault holds and no allocation is refused.
pub fn series_mendings_are_refused_exactly(
    alloc: Global,
    damaged: &[Matrix],
) -> Result<Vec<u8>, ReadFault>
    ensures { (e : ReadFault) → e ≢ ReadFault.Memory
        → (result ≡ Err e) ↔ ((result ≢ Err ReadFault.Memory) × IsUnmendedSeries damaged.now e) }
{
    mend_series(alloc, damaged)
}
