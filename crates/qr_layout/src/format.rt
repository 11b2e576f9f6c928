//! The format information and the version information: their bits, and the modules that contain them (ISO/IEC
//! 18004:2015, 7.9 and 7.10, Annexes C and D). Each symbol has two copies of the format information. From version 7 on
//! it also has two copies of the version information. Bit 0 is the lowest bit of the number that `format_word` or
//! `version_word` returns.
//!
//! The first copy of the format information goes around the top left finder pattern. Bits 0 to 7 are in column 8, from
//! row 0 down to row 8, and bits 8 to 14 in row 8, from column 7 to the left. Bits 0 to 7 leave out row 6, and bits 8
//! to 14 leave out column 6, because the timing patterns are there. Of the second copy, bits 0 to 7 are in row 8, from
//! the last column to the left, and bits 8 to 14 in the last seven rows of column 8, downward.

ghost use Rattle.std.specs.Prelude.{◌≡◌, ◌≢◌, ◌≤◌, ◌<◌, SomeIff};
ghost use Rattle.qr_layout.specs.Version.{side_of};
ghost use Rattle.qr_layout.specs.Format.{format_word_of, version_word_of, first_place, second_place, format_bit_at, version_bit_at};

use crate::level::Level;
use crate::region::{Module, is_in_version_copy};
use crate::version::Version;

/// The number of bits of the format information, and of the modules in each of its two copies.
pub const FORMAT_BITS: u8 = 15;

// The format information for each level and mask: five data bits and ten error correction bits, all combined with
// 101010000010010 by exclusive or (ISO/IEC 18004:2015, Annex C, Table C.1). The index of a word has five bits: the two
// of the level, and then the three of the mask.
static FORMAT_WORDS: [u16; 32] = [
    0x5412, 0x5125, 0x5E7C, 0x5B4B, 0x45F9, 0x40CE, 0x4F97, 0x4AA0, 0x77C4, 0x72F3, 0x7DAA, 0x789D,
    0x662F, 0x6318, 0x6C41, 0x6976, 0x1689, 0x13BE, 0x1CE7, 0x19D0, 0x0762, 0x0255, 0x0D0C, 0x083B,
    0x355F, 0x3068, 0x3F31, 0x3A06, 0x24B4, 0x2183, 0x2EDA, 0x2BED,
];

// The version information for each of the versions 7 to 40: six bits of the version and twelve error correction bits
// (ISO/IEC 18004:2015, Annex D, Table D.1).
static VERSION_WORDS: [u32; 34] = [
    0x07C94, 0x085BC, 0x09A99, 0x0A4D3, 0x0BBF6, 0x0C762, 0x0D847, 0x0E60D, 0x0F928, 0x10B78,
    0x1145D, 0x12A17, 0x13532, 0x149A6, 0x15683, 0x168C9, 0x177EC, 0x18EC4, 0x191E1, 0x1AFAB,
    0x1B08E, 0x1CC1A, 0x1D33F, 0x1ED75, 0x1F250, 0x209D5, 0x216F0, 0x228BA, 0x2379F, 0x24B0B,
    0x2542E, 0x26A64, 0x27541, 0x28C69,
];

/// Returns the 15 bits of the format information for a level and a mask from 0 to 7 (ISO/IEC 18004:2015, 7.9.1).
pub fn format_word(level: Level, mask: u8) -> u16
    requires { mask < 8 }
    ensures { result ≡ format_word_of level mask }
{
    // The standard's two bits of the level, with three zero bits after them for the mask.
    let first = match level {
        Level::L => 8,
        Level::M => 0,
        Level::Q => 24,
        Level::H => 16,
    };
    FORMAT_WORDS[first + usize::from(mask)]
}

/// Returns the place of a bit of the format information in the first copy, which is beside the top left finder pattern.
/// Bits are numbered from 0, the lowest, to 14 (ISO/IEC 18004:2015, 7.9.1).
pub fn format_place(bit: u8) -> Module
    requires { bit < FORMAT_BITS }
    ensures place { result ≡ first_place bit }
    ensures row_in { result.row < 21 }
    ensures col_in { result.col < 21 }
{
    let row = if bit < 6 {
        bit
    } else if bit == 6 {
        7
    } else {
        8
    };
    let col = if bit < 8 {
        8
    } else if bit == 8 {
        7
    } else {
        14 - bit
    };
    Module { row, col }
}

/// Returns the place of a bit of the format information in the second copy, whose halves are beside the top right and
/// the bottom left finder pattern. Bits are numbered from 0, the lowest, to 14 (ISO/IEC 18004:2015, 7.9.1).
pub fn second_format_place(version: Version, bit: u8) -> Module
    requires { bit < FORMAT_BITS }
    ensures place { result ≡ second_place (side_of version) bit }
    ensures row_in { result.row < side_of version }
    ensures col_in { result.col < side_of version }
{
    let side = version.side();
    let row = if bit < 8 { 8 } else { side - FORMAT_BITS + bit };
    let col = if bit < 8 { side - 1 - bit } else { 8 };
    Module { row, col }
}

// The number of the bit of the format information at row `row` of column 8, or `None` if this module contains no such
// bit. A side is at most 177, that of version 40, so the sum of a row and `FORMAT_BITS` fits a byte.
#[tactic(auto, using(crate::proofs::lemmas::format::BitPlaceLemmas::format_in_column_8))]
fn format_bit_in_column_8(side: u8, row: u8) -> Option<u8>
    requires least { 21 ≤ side }
    requires most { side ≤ 177 }
    requires row_in { row < side }
    ensures { result ≡ format_bit_at side row 8 }
{
    if row < 6 {
        Some(row)
    } else if row == 6 {
        None
    } else if row < 9 {
        Some(row - 1)
    } else if row > side - 8 {
        Some(row + FORMAT_BITS - side)
    } else {
        None
    }
}

// The number of the bit of the format information at column `col` of row 8, or `None` if this module contains no such
// bit. Column 8 is left to `format_bit_in_column_8`.
#[tactic(auto, using(crate::proofs::lemmas::format::BitPlaceLemmas::format_in_row_8))]
fn format_bit_in_row_8(side: u8, col: u8) -> Option<u8>
    requires least { 21 ≤ side }
    requires col_in { col < side }
    requires not_both { col ≢ 8 }
    ensures { result ≡ format_bit_at side 8 col }
{
    if col < 6 {
        Some(14 - col)
    } else if col == 6 {
        None
    } else if col == 7 {
        Some(8)
    } else if col >= side - 8 {
        Some(side - 1 - col)
    } else {
        None
    }
}

// The number of the bit of the format information that the module at a place contains, or `None` if the module contains
// no such bit.
#[tactic(auto, using(crate::proofs::lemmas::format::BitPlaceLemmas::format_off))]
pub(crate) fn format_bit(side: u8, row: u8, col: u8) -> Option<u8>
    requires least { 21 ≤ side }
    requires most { side ≤ 177 }
    requires row_in { row < side }
    requires col_in { col < side }
    ensures { result ≡ format_bit_at side row col }
{
    if col == 8 {
        format_bit_in_column_8(side, row)
    } else if row == 8 {
        format_bit_in_row_8(side, col)
    } else {
        None
    }
}

impl Version {
    /// Returns the 18 bits of the version information, or `None` for the versions 1 to 6, which have none (ISO/IEC
    /// 18004:2015, 7.10).
    pub fn version_word(self) -> Option<u32>
        ensures { SomeIff result (7 ≤ self) (version_word_of self) }
    {
        let number = self.number();
        if number < 7 {
            return None;
        }
        Some(VERSION_WORDS[usize::from(number - 7)])
    }
}

// The number of the bit of the version information that the module at a place contains, or `None` if the module
// contains no such bit. Symbols have version information from version 7 on. In the copy beside the top right finder
// pattern, row 0 has bits 0 to 2 from left to right, row 1 bits 3 to 5, and so on to row 5. In the other copy, rows and
// columns are exchanged.
#[tactic(auto, using(crate::proofs::lemmas::format::BitPlaceLemmas::version_at))]
pub(crate) fn version_bit(version: Version, row: u8, col: u8) -> Option<u8>
    requires row_in { row < side_of version }
    requires col_in { col < side_of version }
    ensures { result ≡ version_bit_at version row col }
{
    if version.number() < 7 {
        return None;
    }
    let side = version.side();
    if is_in_version_copy(side, row, col) {
        return Some(3 * row + (col + 11 - side));
    }
    if is_in_version_copy(side, col, row) {
        return Some(3 * col + (row + 11 - side));
    }
    None
}
