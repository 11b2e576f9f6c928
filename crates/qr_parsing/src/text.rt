//! Finds the type of drawing that a text can be, and makes the sheets of texts. (`sheet.rt` says what a sheet is.)

ghost use Rattle.std.specs.Prelude.{◌≡◌, ℕ, ◌<◌, ◌≤◌, ◌==◌, ◌⊎◌, List, length, take, IfOk, MatchOption};
ghost use Rattle.std.specs.List.{position_or_len};
ghost use Rattle.qr_parsing.specs.Steps.Sheet.{IsSheetOf, HasNoSheet, kind_in};
ghost use Rattle.qr_parsing.specs.Steps.Text.{cells_in, has_block};

use crate::sheet::{SIDE_MIN, Sheet, WIDTH_MAX};
use qr_drawing::Drawing;
use std::alloc::{AllocError, Global};

// A UTF8 drawing has the first byte of a block character among its first 22 bytes. In such a drawing the filled parts
// of a character are light modules. The module in column 7 of the first row is light: it is in the margin or, without a
// margin, in the separator of the finder pattern. So a block character shows it. The seven characters before it have at
// most three bytes each.
const BLOCK_WITHIN: usize = 22;

// Returns the index of the first byte that is `sign`, or the length if there is none.
pub(crate) fn position_of(bytes: &[u8], sign: u8) -> usize
    ensures { result ≡ position_or_len (λ byte. byte == sign) bytes.now }
{
    for (i, byte) in bytes.iter().enumerate() {
        if *byte == sign {
            return i;
        }
    }
    bytes.len()
}

fn has_block(text: &[u8]) -> bool
    ensures { result ≡ has_block text.now }
{
    let first = text.split_at(BLOCK_WITHIN.min(text.len())).0;
    position_of(first, 0xE2) < first.len()
}

/// Returns the only type of drawing that `text` can be. In the ASCII types two bytes show a module. The module in
/// column 7 of the first row is light, whether it is in the margin or in the square. So the byte with the index 14 says
/// which sign stands for light modules.
pub(crate) fn kind_in(text: &[u8]) -> Drawing
    ensures { result ≡ kind_in text.now }
{
    if text.first().copied().unwrap_or(0) == b'<' {
        return Drawing::Svg;
    }
    if has_block(text) {
        return Drawing::Utf8;
    }
    if text.get(14).copied().unwrap_or(0) == b' ' {
        return Drawing::Ascii;
    }
    Drawing::AsciiInverse
}

/// Returns the sheet of a text of an ASCII type. The bytes of the sheet are the text itself. Returns `None` only if no
/// drawing can be as wide as this text.
pub(crate) fn ascii_sheet(text: &[u8], kind: Drawing) -> Option<Sheet<'_>>
    requires ascii { (kind ≡ Drawing.Ascii) ⊎ (kind ≡ Drawing.AsciiInverse) }
    requires kind { kind ≡ kind_in text.now }
    ensures { MatchOption result (HasNoSheet text.now)
        (λ s. IsSheetOf s.kind s.width s.count s.bytes.now text.now) }
{
    let width = position_of(text, b'\n') / 2;
    if width < SIDE_MIN || width > WIDTH_MAX {
        return None;
    }
    let count = text.len() / (width * (2 * width + 1));
    Some(Sheet {
        kind,
        width,
        count,
        bytes: text,
    })
}

// Writes all bytes of a text but E2 and 96 (hexadecimal) to the beginning of `cells`, and returns the number of bytes
// that it wrote.
fn write_cells(text: &[u8], cells: &mut [u8]) -> usize
    requires { length cells.old ≡ length text.now }
    ensures most { result ≤ length text.now }
    ensures cells { take result cells.new ≡ cells_in text.now }
{
    let mut count = 0;
    for byte in text {
        if *byte != 0xE2 && *byte != 0x96 {
            cells[count] = *byte;
            count += 1;
        }
    }
    count
}

/// Returns a text without the bytes E2 and 96 (hexadecimal), with which each block character begins. In the result each
/// character is one byte.
pub(crate) fn cells_in(alloc: Global, text: &[u8]) -> Result<Vec<u8>, AllocError>
    ensures { IfOk result (λ cells. cells.items ≡ cells_in text.now) }
{
    let mut cells = vec![in alloc; 0u8; text.len()]?;
    let count = write_cells(text, &mut cells);
    cells.truncate(count);
    Ok(cells)
}

/// Returns the sheet of a UTF8 text. The bytes of the sheet are `cells`, which `cells_in` has made from the text.
/// Returns `None` only if no drawing can be as wide as this text.
pub(crate) fn cell_sheet(cells: &[u8]) -> Option<Sheet<'_>>
    ensures { (text : List ℕ) → kind_in text ≡ Drawing.Utf8 → cells.now ≡ cells_in text
        → MatchOption result (HasNoSheet text) (λ s. IsSheetOf s.kind s.width s.count s.bytes.now text) }
{
    let width = position_of(cells, b'\n');
    if width < SIDE_MIN || width > WIDTH_MAX {
        return None;
    }
    let count = cells.len() / (width.div_ceil(2) * (width + 1));
    Some(Sheet {
        kind: Drawing::Utf8,
        width,
        count,
        bytes: cells,
    })
}
