//! Laws of logos. The contract of each function is the law.

ghost use Rattle.std.specs.Prelude.{◌≡◌, ◌≤◌, ◌+◌, ◌-◌, ◌*◌, ◌%◌, ℕ, List, Option, None};
ghost use Rattle.qr_layout.specs.declared.level.Level.{Level};
ghost use Rattle.qr_layout.specs.Blocks.{correctable_of};
ghost use Rattle.qr_layout.specs.Version.{side_of};
ghost use Rattle.qr_matrix.specs.Grid.{Grid};
ghost use Rattle.qr_bits.specs.Interpretation.{MayWrite};
ghost use Rattle.qr_bits.specs.declared.interpretation.Interpretation.{Interpretation};
ghost use Rattle.qr_bits.specs.declared.modes.Rule.{Rule};
ghost use Rattle.qr_bits.specs.declared.stream.Header.{Header};
ghost use Rattle.qr_symbol.specs.Encoding.{IsSymbolAt};
ghost use Rattle.qr_symbol.specs.Reading.{interpreted_content};
ghost use Rattle.qr_logos.specs.Encoding.{IsLogoSymbol};
ghost use Rattle.qr_logos.specs.Logo.{IsAllowed, IsClear, IsMostCovered, first_of};
ghost use Rattle.qr_logos.specs.Laws.{IsMendedOnlyAs, IsUnderLogo, IsWorn};

use crate::logo::covered;
use qr_layout::{Level, Version};

/// A logo with an odd number of modules on a side is exactly in the middle of the symbol. With an even number it is half
/// a module above the middle and half a module to the left of it: below the logo there is one row more than above it, and
/// to its right one column more than to its left.
pub fn logos_are_in_the_middle()
    ensures odd { (v k : ℕ) → k ≤ side_of v → k % 2 ≡ 1 → first_of v k + k + first_of v k ≡ side_of v }
    ensures even { (v k : ℕ) → k ≤ side_of v → k % 2 ≡ 0 → first_of v k + k + (first_of v k + 1) ≡ side_of v }
{}

/// A logo that is smaller than an allowed one is allowed too.
pub fn smaller_logos_are_allowed(version: Version, level: Level, side: u8) -> u8
    ensures { (share larger : ℕ) → side ≤ larger → IsAllowed version level share larger → IsAllowed version level share side }
{
    covered(version, level, side)
}

/// A symbol with a logo is mended to exactly its content, whatever colours the modules under the logo have, and to no
/// other content. In each block, the logo may cover as many codewords as can be corrected. If it covers fewer, further
/// codewords of the block may be wrong: both numbers together have to be at most `Version::correctable`. In the clause
/// `clear`, no other module is damaged. In the clause `worn`, at most six modules of the format information may be wrong
/// too. The clause `allowed` is about a logo that is allowed with a given share. The rest of the codewords that can be
/// corrected, in percent, is left for other damage.
pub fn logos_leave_symbols_readable()
    ensures clear { (v : ℕ) (l : Level) (rule : Rule) (i : Interpretation) (x : List ℕ) (h : Option Header) (mask : ℕ)
        (symbol square : Grid) (k covered : ℕ) → 1 ≤ v → v ≤ 40 → MayWrite i x → (s : IsSymbolAt v l rule i x h mask symbol)
        → IsClear v k → IsUnderLogo v k square symbol → IsMostCovered v l k covered → covered ≤ correctable_of v l
        → IsMendedOnlyAs square v l mask (interpreted_content i h s.segments x) }
    ensures worn { (v : ℕ) (l : Level) (rule : Rule) (i : Interpretation) (x : List ℕ) (h : Option Header) (mask : ℕ)
        (symbol square : Grid) (k covered more : ℕ) → 1 ≤ v → v ≤ 40 → MayWrite i x → (s : IsSymbolAt v l rule i x h mask symbol)
        → IsWorn v l k more square symbol → IsMostCovered v l k covered → covered + more ≤ correctable_of v l
        → IsMendedOnlyAs square v l mask (interpreted_content i h s.segments x) }
    ensures allowed { (v : ℕ) (l : Level) (rule : Rule) (i : Interpretation) (x : List ℕ) (h : Option Header) (mask : ℕ)
        (symbol square : Grid) (share k more : ℕ) → 1 ≤ v → v ≤ 40 → MayWrite i x → (s : IsSymbolAt v l rule i x h mask symbol)
        → IsAllowed v l share k → IsWorn v l k more square symbol → share ≤ 100 → 100 * more ≤ (100 - share) * correctable_of v l
        → IsMendedOnlyAs square v l mask (interpreted_content i h s.segments x) }
{}

/// A symbol that `encode_with_logo` makes is mended to exactly its input, and to nothing else, whatever colours the modules
/// under the logo have. The codewords that the share leaves may be wrong too, as in `logos_leave_symbols_readable`.
pub fn encoded_logos_leave_symbols_readable()
    ensures { (smallest : ℕ) (lowest : Level) (rule : Rule) (i : Interpretation) (x : List ℕ) (share k v : ℕ) (l : Level) (mask : ℕ)
        (symbol square : Grid) (more : ℕ) → 1 ≤ smallest → MayWrite i x
        → (s : IsLogoSymbol smallest lowest rule i x share k v l mask symbol) → IsWorn v l k more square symbol
        → share ≤ 100 → 100 * more ≤ (100 - share) * correctable_of v l
        → IsMendedOnlyAs square v l mask (interpreted_content i None s.symbol.made.segments x) }
{}

/// Once the least version, the lowest level, the rule, the interpretation, the share and the side of the logo are chosen,
/// an input has at most one symbol with a logo: one version, one level, one mask and one square.
pub fn logo_symbols_are_one()
    ensures { (smallest : ℕ) (lowest : Level) (rule : Rule) (i : Interpretation) (x : List ℕ) (share k v w : ℕ) (l j : Level) (m n : ℕ)
        (g h : Grid) → IsLogoSymbol smallest lowest rule i x share k v l m g → IsLogoSymbol smallest lowest rule i x share k w j n h
        → (v ≡ w) × (l ≡ j) × (m ≡ n) × (g ≡ h) }
{}
