//! Sheets. A text or a document is made into a sheet before its modules are read, so that all types of drawing are then
//! read in the same way. The bytes of a sheet show the modules of all rasters of a drawing, raster after raster and row
//! by row. So the index of the byte that shows a module can be computed. `k` is the index of a raster, and `y` and `x`
//! are a row and a column of it. A raster has at most 687 modules on a side, so rows and columns are below 1,000.

ghost use Rattle.std.specs.Prelude.{◌≡◌, ℕ, ◌<◌, ◌≤◌, ◌+◌, ◌*◌, false, true, length, slice_index_or, map, IfOk};
ghost use Rattle.std.specs.List.{range_with_len};
ghost use Rattle.qr_matrix.specs.Grid.{square};
ghost use Rattle.qr_matrix.specs.Bytes.{byte_of};
ghost use Rattle.qr_parsing.specs.Steps.Sheet.{HasPlaces, index_of, is_dark_byte, is_dark_on, is_sign};
ghost use Rattle.qr_parsing.specs.declared.sheet.TheConstants.{WIDTH_MAX};

use qr_drawing::Drawing;
use qr_matrix::matrix_of_bytes;
use qr_symbol::Matrix;
use std::alloc::{AllocError, Global};

/// The side of the smallest squares that are parsed. Smaller squares have no column 7.
pub(crate) const SIDE_MIN: usize = 8;

/// The greatest number of rasters of a drawing.
pub(crate) const COUNT_MAX: usize = 16;

/// The greatest side of a square: that of a symbol of version 40.
pub(crate) const SIDE_MAX: usize = 177;

/// The greatest margin of a drawing.
pub(crate) const MARGIN_MAX: usize = 255;

/// The greatest width of a raster: that of the greatest squares with the greatest margin on each side.
pub(crate) const WIDTH_MAX: usize = SIDE_MAX + 2 * MARGIN_MAX;

#[derive(Drop)]
pub(crate) struct Sheet<'a> {
    pub(crate) kind: Drawing,
    /// The width of a raster in modules.
    pub(crate) width: usize,
    /// The number of rasters.
    pub(crate) count: usize,
    /// In the ASCII types two bytes show a module, in UTF8 one byte shows two modules, and in SVG one byte shows one
    /// module. In all but SVG a newline ends each line.
    pub(crate) bytes: &'a [u8],
    ghost wide: { width ≤ WIDTH_MAX },
    ghost whole: { HasPlaces kind width count bytes.now },
}

// Returns the index of the byte that shows a module, or of the first of the two bytes that show it in the ASCII types.
#[tactic(auto, using(crate::proofs::Named::index_facts))]
fn index_of(kind: Drawing, width: usize, k: usize, y: usize, x: usize) -> usize
    requires width_in { width < 1000 }
    requires k_in { k < COUNT_MAX }
    requires y_in { y < 1000 }
    requires x_in { x < 1000 }
    ensures { result ≡ index_of kind width k y x }
{
    match kind {
        Drawing::Ascii | Drawing::AsciiInverse => (k * width + y) * (2 * width + 1) + 2 * x,
        Drawing::Utf8 => (k * width.div_ceil(2) + y / 2) * (width + 1) + x,
        Drawing::Svg => (k * width + y) * width + x,
    }
}

// Returns the two bytes that can show a dark module of row `y`. They are equal in all types but UTF8. In UTF8 the
// module of an even row is the upper one of its character.
#[inline(always)]
fn signs_of(kind: Drawing, y: usize) -> (u8, u8)
    ensures { (byte : ℕ) → is_sign result byte ≡ is_dark_byte kind y byte }
{
    match kind {
        Drawing::Ascii => (b'#', b'#'),
        Drawing::AsciiInverse => (b' ', b' '),
        Drawing::Utf8 => (b' ', if y % 2 == 0 { 0x84 } else { 0x80 }),
        Drawing::Svg => (1, 1),
    }
}

#[inline(always)]
fn is_sign(signs: (u8, u8), byte: u8) -> bool
    ensures { result ≡ is_sign signs byte }
{
    byte == signs.0 || byte == signs.1
}

// Says whether the module in row `y` and column `x` of raster `k` is dark. If the sheet ends before this module, it
// counts as light.
#[tactic(auto, unfolding(crate::specs::Steps::Sheet::is_dark_on))]
fn is_dark(sheet: &Sheet, k: usize, y: usize, x: usize) -> bool
    requires k_in { k < COUNT_MAX }
    requires y_in { y < 1000 }
    requires x_in { x < 1000 }
    ensures { result ≡ is_dark_on sheet.now.kind sheet.now.width sheet.now.bytes.now k y x }
{
    let index = index_of(sheet.kind, sheet.width, k, y, x);
    let byte = sheet.bytes.get(index).copied().unwrap_or(0);
    is_sign(signs_of(sheet.kind, y), byte)
}

/// Returns how many light modules come before the first dark one on the diagonal of the first raster, from the top
/// left. This number is the margin if the module at the top left of the square is dark.
pub(crate) fn margin_of(sheet: &Sheet) -> usize
    ensures most { result ≤ sheet.now.width }
    ensures light { (i : ℕ) → i < result
        → is_dark_on sheet.now.kind sheet.now.width sheet.now.bytes.now 0 i i ≡ false }
    ensures dark { result < sheet.now.width
        → is_dark_on sheet.now.kind sheet.now.width sheet.now.bytes.now 0 result result ≡ true }
{
    for i in 0..sheet.width {
        if is_dark(sheet, 0, i, i) {
            return i;
        }
    }
    sheet.width
}

// Writes the modules of a row into `modules`, a byte for each. The byte of `bytes` at the index `first` shows the first
// module, the byte at the index `first + step` the second, and so on. A byte shows a dark module if it is one of the
// two `signs`. This function is inlined at each of its calls, of which there is one for each type of drawing. In each
// call `step` is a constant, so the compiled loop compares many bytes at once.
#[inline(always)]
fn write_by(bytes: &[u8], first: usize, step: usize, signs: (u8, u8), modules: &mut [u8])
    requires step_in { step ≤ 2 }
    requires inside { (i : ℕ) → i < length modules.old → first + step * i < length bytes.now }
    ensures { (i : ℕ) → i < length modules.old → slice_index_or modules.new i 0
        ≡ byte_of (is_sign signs (slice_index_or bytes.now (first + step * i) 0)) }
{
    for i in 0..modules.len() {
        modules[i] = u8::from(is_sign(signs, bytes[first + step * i]));
    }
}

// Writes a row of raster `k` into `modules`, a byte for each module, from the first module after the margin on.
fn write_row(sheet: &Sheet, margin: usize, k: usize, y: usize, modules: &mut [u8])
    requires k_in { k < sheet.now.count }
    requires few { sheet.now.count ≤ COUNT_MAX }
    requires y_in { y < sheet.now.width }
    requires x_in { margin + length modules.old ≤ sheet.now.width }
    ensures { (c : ℕ) → c < length modules.old → slice_index_or modules.new c 0
        ≡ byte_of (is_dark_on sheet.now.kind sheet.now.width sheet.now.bytes.now k y (margin + c)) }
{
    let bytes = sheet.bytes;
    let first = index_of(sheet.kind, sheet.width, k, y, margin);
    // Each call of `signs_of` names the type, and not `sheet.kind`, so that the compiled loops compare with constants.
    match sheet.kind {
        Drawing::Ascii => write_by(bytes, first, 2, signs_of(Drawing::Ascii, y), modules),
        Drawing::AsciiInverse => write_by(
            bytes,
            first,
            2,
            signs_of(Drawing::AsciiInverse, y),
            modules,
        ),
        Drawing::Utf8 => write_by(bytes, first, 1, signs_of(Drawing::Utf8, y), modules),
        Drawing::Svg => write_by(bytes, first, 1, signs_of(Drawing::Svg, y), modules),
    }
}

// Writes the square of raster `k` into `modules`, row by row.
fn write_modules(sheet: &Sheet, margin: usize, side: u8, k: usize, modules: &mut [u8])
    requires most { side ≤ SIDE_MAX }
    requires k_in { k < sheet.now.count }
    requires few { sheet.now.count ≤ COUNT_MAX }
    requires fits { margin + side ≤ sheet.now.width }
    requires room { side * side ≤ length modules.old }
    ensures { (r c : ℕ) → r < side → c < side → slice_index_or modules.new (r * side + c) 0
        ≡ byte_of (is_dark_on sheet.now.kind sheet.now.width sheet.now.bytes.now k (margin + r) (margin + c)) }
{
    let mut start = 0;
    for row in 0..side {
        let y = margin + usize::from(row);
        let end = start + usize::from(side);
        write_row(sheet, margin, k, y, &mut modules[start..end]);
        start = end;
    }
}

fn square_of(
    alloc: Global,
    sheet: &Sheet,
    margin: usize,
    side: u8,
    k: usize,
) -> Result<Matrix, AllocError>
    requires least { 1 ≤ side }
    requires most { side ≤ SIDE_MAX }
    requires k_in { k < sheet.now.count }
    requires few { sheet.now.count ≤ COUNT_MAX }
    requires fits { margin + side ≤ sheet.now.width }
    ensures { IfOk result (λ m. m ≡ square side
        (λ r c. is_dark_on sheet.now.kind sheet.now.width sheet.now.bytes.now k (margin + r) (margin + c))) }
{
    let area = usize::from(side) * usize::from(side);
    let mut modules = vec![in alloc; 0u8; area]?;
    write_modules(sheet, margin, side, k, &mut modules);
    matrix_of_bytes(alloc, &modules, side)
}

pub(crate) fn squares_of(
    alloc: Global,
    sheet: &Sheet,
    margin: usize,
    side: u8,
) -> Result<Vec<Matrix>, AllocError>
    requires least { 1 ≤ side }
    requires most { side ≤ SIDE_MAX }
    requires few { sheet.now.count ≤ COUNT_MAX }
    requires fits { margin + side ≤ sheet.now.width }
    ensures { IfOk result (λ squares. squares.items ≡ map (λ k. square side
        (λ r c. is_dark_on sheet.now.kind sheet.now.width sheet.now.bytes.now k (margin + r) (margin + c)))
        (range_with_len 0 sheet.now.count)) }
{
    let mut squares = Vec::with_capacity(alloc, sheet.count)?;
    for k in 0..sheet.count {
        squares.push(square_of(alloc, sheet, margin, side, k)?)?;
    }
    Ok(squares)
}
