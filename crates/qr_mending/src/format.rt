//! Finds the level and the mask of a damaged symbol by the two copies of its format information (ISO/IEC 18004:2015,
//! 7.9.1 and Annex C). Suppose that the symbol has a certain level and mask. Then a copy costs 1 for each of its
//! modules that was not read, and 2 for each that is misread. The level and the mask are near to the copy if this cost
//! is at most 6.

ghost use Rattle.std.specs.Prelude.{◌≡◌, ℕ, ◌+◌, ◌*◌, ◌<◌, ◌≤◌, MatchOption};
ghost use Rattle.qr_layout.specs.declared.level.Level.{Level};
ghost use Rattle.qr_layout.specs.Version.{side_of};
ghost use Rattle.qr_matrix.specs.{BitRow.{has_bit}, Grid.{Grid}, Sums.{count_below}};
ghost use Rattle.qr_mending.specs.declared.format.FormatCopy.{FormatCopy};
ghost use Rattle.qr_mending.specs.Format.{copy_place, format_cost, misread_bits, unread_bits, IsNearFormat};
ghost use Rattle.qr_mending.specs.Steps.Format.{AreBitsOf};
ghost use Rattle.qr_mending.specs.Mending.{wrong_format_least, wrong_format_modules};

use crate::scan::Scan;
use qr_layout::{
    FORMAT_BITS, Level, Module, Version, format_place, format_word, second_format_place,
};

// The number whose 15 lowest bits are 1 and whose other bits are 0.
const ALL_BITS: u16 = 0x7FFF;

// The highest cost at which a level and a mask are near to a copy: that of three misread modules, or of six that were
// not read.
const COST_MAX: u8 = 6;

/// One of the two copies of the format information.
#[derive(Clone, Copy)]
pub enum FormatCopy {
    /// The copy beside the top left finder pattern.
    First,
    /// The copy beside the top right and the bottom left finder pattern.
    Second,
}

impl FormatCopy {
    fn place(self, version: Version, bit: u8) -> Module
        requires { bit < FORMAT_BITS }
        ensures place { result ≡ copy_place self (side_of version) bit }
        ensures row_in { result.row < side_of version }
        ensures col_in { result.col < side_of version }
    {
        match self {
            FormatCopy::First => format_place(bit),
            FormatCopy::Second => second_format_place(version, bit),
        }
    }
}

// Returns whether bit `i` is 1; bit 0 is the lowest.
#[tactic(auto, unfolding(qr_matrix::specs::BitRow::has_bit))]
fn is_bit_set(word: u16, i: u8) -> bool
    requires { i < 16 }
    ensures { result ≡ has_bit word i }
{
    word >> i & 1 == 1
}

// How many of the 15 lowest bits of `word` are 1.
fn count_bits(word: u16) -> u8
    ensures value { result ≡ count_below FORMAT_BITS (has_bit word) }
    ensures most { result ≤ FORMAT_BITS }
{
    let mut count = 0u8;
    for i in 0..FORMAT_BITS {
        count += u8::from(is_bit_set(word, i));
    }
    count
}

// How many modules of a copy were not read, and how many are misread.
#[derive(Drop)]
struct CopyDamage {
    unread: u8,
    misread: u8,
}

// A copy as two numbers, in which bit i stands for the module that shows bit i of the format information; bit 0 is the
// lowest. In `dark` a bit is 1 if its module is dark, and in `unread` if its module was not read.
#[derive(Clone, Copy)]
pub(crate) struct CopyBits {
    pub(crate) dark: u16,
    pub(crate) unread: u16,
}

impl CopyBits {
    fn read(scan: &Scan, copy: FormatCopy) -> CopyBits
        ensures { AreBitsOf scan.now.unknown.now copy scan.now.matrix.now result }
    {
        let mut dark = 0u16;
        let mut unread = 0u16;
        for i in (0..FORMAT_BITS).rev() {
            let place = copy.place(scan.version, i);
            dark = 2 * dark + u16::from(scan.matrix.dark(place.row, place.col));
            unread = 2 * unread + u16::from(scan.unknown.dark(place.row, place.col));
        }
        CopyBits { dark, unread }
    }

    // Compares the copy with `word`, the format information that it should show, and counts its wrong modules. A module
    // that was not read does not count as misread.
    fn damage(self, word: u16) -> CopyDamage
        ensures unread { (u g : Grid) (copy : FormatCopy) → AreBitsOf u copy g self → result.unread ≡ unread_bits u copy }
        ensures misread { (u g : Grid) (copy : FormatCopy) → AreBitsOf u copy g self
            → result.misread ≡ misread_bits u copy g word }
        ensures few { (result.unread ≤ FORMAT_BITS) × (result.misread ≤ FORMAT_BITS) }
    {
        CopyDamage {
            unread: count_bits(self.unread),
            misread: count_bits((self.dark ^ word) & (ALL_BITS ^ self.unread)),
        }
    }

    // The cost of the copy if `word` is the format information that it should show. The bound 45 is for the prover, and
    // is never reached: it counts each of the 15 modules both as unread and as misread.
    fn cost(self, word: u16) -> u8
        ensures value { (u g : Grid) (copy : FormatCopy) → AreBitsOf u copy g self
            → result ≡ unread_bits u copy + 2 * misread_bits u copy g word }
        ensures most { result ≤ 45 }
    {
        let damage = self.damage(word);
        damage.unread + 2 * damage.misread
    }
}

// How many modules of a copy were not read or are misread. The bound 30 is for the prover, and is never reached: it
// counts each of the 15 modules twice, as unread and as misread.
fn wrong_bits(scan: &Scan, copy: FormatCopy, word: u16) -> u8
    ensures value { result ≡ unread_bits scan.now.unknown.now copy + misread_bits scan.now.unknown.now copy scan.now.matrix.now word }
    ensures most { result ≤ 30 }
{
    let damage = CopyBits::read(scan, copy).damage(word);
    damage.unread + damage.misread
}

// How many modules of the format information were not read or are misread: of the 30 modules of both copies, and of the
// 15 modules of the copy that has fewer of them.
#[derive(Clone, Copy)]
pub(crate) struct WrongFormat {
    pub(crate) both: u8,
    pub(crate) least: u8,
}

pub(crate) fn wrong_format(scan: &Scan, level: Level, mask: u8) -> WrongFormat
    requires mask_in { mask < 8 }
    ensures both { result.both ≡ wrong_format_modules scan.now.unknown.now scan.now.matrix.now level mask }
    ensures least { result.least ≡ wrong_format_least scan.now.unknown.now scan.now.matrix.now level mask }
{
    let word = format_word(level, mask);
    let first = wrong_bits(scan, FormatCopy::First, word);
    let second = wrong_bits(scan, FormatCopy::Second, word);
    WrongFormat {
        both: first + second,
        least: first.min(second),
    }
}

// The sum of the costs of both copies.
pub(crate) fn format_cost(scan: &Scan, level: Level, mask: u8) -> u8
    requires mask_in { mask < 8 }
    ensures { result ≡ format_cost scan.now.unknown.now scan.now.matrix.now level mask }
{
    let word = format_word(level, mask);
    let first = CopyBits::read(scan, FormatCopy::First).cost(word);
    first + CopyBits::read(scan, FormatCopy::Second).cost(word)
}

// Returns the mask with which `level` is near to the copy, if there is one.
fn near_mask_of(bits: CopyBits, level: Level) -> Option<u8>
    ensures { (u g : Grid) (copy : FormatCopy) → AreBitsOf u copy g bits → MatchOption result
        ((mask : ℕ) → IsNearFormat u copy g level mask → ⊥) (λ mask. IsNearFormat u copy g level mask) }
{
    for mask in 0..8 {
        if bits.cost(format_word(level, mask)) <= COST_MAX {
            return Some(mask);
        }
    }
    None
}

// Returns the pair of level and mask that is near to the copy, if there is one. There cannot be two: if two pairs are
// near to a copy, their format information differs in at most six bits, but that of any two pairs differs in at least
// seven.
pub(crate) fn near_format_of(scan: &Scan, copy: FormatCopy) -> Option<(Level, u8)>
    ensures { MatchOption result
        ((l : Level) (mask : ℕ) → IsNearFormat scan.now.unknown.now copy scan.now.matrix.now l mask → ⊥)
        (λ f. IsNearFormat scan.now.unknown.now copy scan.now.matrix.now f.0 f.1) }
{
    let bits = CopyBits::read(scan, copy);
    for level in [Level::L, Level::M, Level::Q, Level::H] {
        if let Some(mask) = near_mask_of(bits, level) {
            return Some((level, mask));
        }
    }
    None
}
