//! Reads one symbol (ISO/IEC 18004:2015, 12). The side gives the version, and one copy of the format information gives
//! the level and the mask. Then the mask is undone, the codewords are collected from the region and deinterleaved, and
//! the data codewords are parsed. Errors are not corrected: a symbol is refused if the error correction codewords of
//! some block do not belong to its data codewords.

ghost use Rattle.std.specs.Prelude.{◌≡◌, ℕ, ◌<◌, ◌≤◌, ◌⊎◌, Err, length, IfErr, IfOk, MatchOption, MatchResult};
ghost use Rattle.std.specs.Bool.{Decides};
ghost use Rattle.qr_symbol.specs.declared.fault.ReadFault.{ReadFault};
ghost use Rattle.qr_layout.specs.declared.level.Level.{Level};
ghost use Rattle.qr_layout.specs.Version.{side_of, total_codewords_of};
ghost use Rattle.qr_symbol.specs.Reading.{IsFormat, IsOfVersion, IsRead, IsReading, IsReadUnmasked, IsUnread};
ghost use Rattle.qr_symbol.specs.Steps.Placement.{region_grid};

use crate::collecting::collect_codewords;
use crate::fault::ReadFault;
use crate::interleaving::deinterleave;
use crate::mask::{MASK_COUNT, set_masked};
use crate::patterns::region_of;
use qr_bits::{Parsed, parse};
use qr_layout::{FORMAT_BITS, Level, Size, Version, format_place, format_word};
use qr_matrix::Matrix;
use std::alloc::{AllocError, Global};

// Whether the copy of the format information beside the top left finder pattern is that of this level and mask.
fn has_format(matrix: &Matrix, level: Level, mask: u8) -> bool
    requires side { 21 ≤ matrix.now.side }
    requires mask_in { mask < 8 }
    ensures { Decides result (IsFormat matrix.now level mask) }
{
    let word = u32::from(format_word(level, mask));
    for i in 0..FORMAT_BITS {
        let place = format_place(i);
        if matrix.dark(place.row, place.col) != (word >> i & 1 == 1) {
            return false;
        }
    }
    true
}

// The mask that the format information states, or `None` if it does not state the level `level`.
fn mask_of(matrix: &Matrix, level: Level) -> Option<u8>
    requires { 21 ≤ matrix.now.side }
    ensures { MatchOption result
        ((mask : ℕ) → IsFormat matrix.now level mask → ⊥)
        (λ mask. IsFormat matrix.now level mask) }
{
    for mask in 0..MASK_COUNT {
        if has_format(matrix, level, mask) {
            return Some(mask);
        }
    }
    None
}

// The level and mask of the format information. At most one pair of level and mask matches, so the order in which the
// pairs are tried does not matter.
fn format_of(matrix: &Matrix) -> Option<(Level, u8)>
    requires { 21 ≤ matrix.now.side }
    ensures { MatchOption result
        ((l : Level) (mask : ℕ) → IsFormat matrix.now l mask → ⊥)
        (λ f. IsFormat matrix.now f.0 f.1) }
{
    for level in [Level::L, Level::M, Level::Q, Level::H] {
        if let Some(mask) = mask_of(matrix, level) {
            return Some((level, mask));
        }
    }
    None
}

// Reads the codewords of a square, without undoing a mask. The square is transposed first. Then the columns of a strip
// are rows, and a word of 64 bits has 64 modules of such a row.
fn read_without_mask(
    alloc: Global,
    version: Version,
    matrix: &Matrix,
    region: &Matrix,
) -> Result<Vec<u8>, AllocError>
    requires side { matrix.now.side ≡ side_of version }
    requires region { region.now ≡ region_grid version }
    ensures read { IfOk result (λ cw. IsReadUnmasked version matrix.now cw.items) }
    ensures many { IfOk result (λ cw. length cw.items ≡ total_codewords_of version) }
{
    let mut across = Matrix::new(alloc, version.side())?;
    across.set_transposed(matrix);
    collect_codewords(alloc, version, &across, region)
}

/// Reads the codewords from the region in the order of `qr_layout::walk`, without undoing a mask. A dark module stands
/// for the bit 1, and the remainder bits are ignored (ISO/IEC 18004:2015, 7.7.3).
///
/// # Errors
///
/// Returns an error if an allocation is refused.
pub fn read_unmasked(
    alloc: Global,
    version: Version,
    matrix: &Matrix,
) -> Result<Vec<u8>, AllocError>
    requires { matrix.now.side ≡ side_of version }
    ensures read { IfOk result (λ cw. IsReadUnmasked version matrix.now cw.items) }
    ensures many { IfOk result (λ cw. length cw.items ≡ total_codewords_of version) }
{
    let region = region_of(alloc, version)?;
    read_without_mask(alloc, version, matrix, &region)
}

/// Reads the codewords from the region in the order of `qr_layout::walk`, with the mask undone (ISO/IEC 18004:2015,
/// 7.7.3 and 12). The remainder bits are ignored. A mask above 7 is taken as 7.
///
/// # Errors
///
/// Returns an error if an allocation is refused.
pub fn read_codewords(
    alloc: Global,
    version: Version,
    mask: u8,
    matrix: &Matrix,
) -> Result<Vec<u8>, AllocError>
    requires { matrix.now.side ≡ side_of version }
    ensures read { IfOk result (λ cw. IsRead version mask matrix.now cw.items) }
    ensures many { IfOk result (λ cw. length cw.items ≡ total_codewords_of version) }
{
    let region = region_of(alloc, version)?;
    let mut unmasked = Matrix::new(alloc, version.side())?;
    let mask = mask.min(MASK_COUNT - 1);
    set_masked(&mut unmasked, matrix, &region, mask);
    read_without_mask(alloc, version, &unmasked, &region)
}

// The size of a symbol and its mask, as the number of rows and the format information state them.
pub(crate) fn size_and_mask(matrix: &Matrix) -> Result<(Size, u8), ReadFault>
    ensures size { IfOk result (λ it. IsOfVersion matrix.now it.0.version) }
    ensures format { IfOk result (λ it. IsFormat matrix.now it.0.level it.1) }
    ensures unread { IfErr result (IsUnread matrix.now) }
    ensures fault { IfErr result (λ e. (e ≡ ReadFault.Side) ⊎ (e ≡ ReadFault.Format)) }
{
    let Some(version) = Version::of_side(matrix.side()) else {
        return Err(ReadFault::Side);
    };
    let Some((level, mask)) = format_of(matrix) else {
        return Err(ReadFault::Format);
    };
    Ok((Size { version, level }, mask))
}

// Reads the content of a square of this size whose format information has this mask.
fn read_with(alloc: Global, matrix: &Matrix, size: Size, mask: u8) -> Result<Parsed, ReadFault>
    requires side { matrix.now.side ≡ side_of size.version }
    requires format { IsFormat matrix.now size.level mask }
    ensures { MatchResult result (IsReading matrix.now) (IsUnread matrix.now) }
{
    let codewords = read_codewords(alloc, size.version, mask, matrix)?;
    let message = deinterleave(alloc, size.version, size.level, &codewords)?;
    Ok(parse(alloc, &message, size.version)?)
}

/// Reads a symbol, without correcting errors (ISO/IEC 18004:2015, 12). The number of rows gives the version. Level and
/// mask are read from one copy of the format information, the one beside the top left finder pattern. The other copy,
/// function patterns, the dark module, the version information and the remainder bits are ignored. Segments may have
/// any of the four modes.
///
/// # Errors
///
/// The symbol is refused only for these reasons, checked in this order: `Side` if no version has this number of rows;
/// `Format` if the format information belongs to no level and mask; `Check` if the error correction codewords of some
/// block do not belong to its data codewords; `Segments` if the data codewords cannot be parsed. Returns `Memory` if an
/// allocation is refused, which happens only after `Side` and `Format` are checked.
pub fn read_symbol(alloc: Global, m: &Matrix) -> Result<Parsed, ReadFault>
    ensures read { MatchResult result (IsReading m.now) (IsUnread m.now) }
    ensures side { IsUnread m.now ReadFault.Side → result ≡ Err ReadFault.Side }
    ensures format { IsUnread m.now ReadFault.Format → result ≡ Err ReadFault.Format }
{
    let (size, mask) = size_and_mask(m)?;
    read_with(alloc, m, size, mask)
}
