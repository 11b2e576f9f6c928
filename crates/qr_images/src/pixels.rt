//! The pixels of a line, eight at a time. A line shows a row of the raster, which is the square with its margin.

ghost use Rattle.std.specs.Prelude.{◌≡◌, ◌<◌, ◌≤◌, ◌*◌, ◌+◌, ◌-◌, ◌/◌, ◌^◌, ℕ, if◌then◌else◌, length, not};
ghost use Rattle.qr_matrix.specs.Raster.{is_dark_at};
ghost use Rattle.qr_images.specs.Image.{byte_of};
ghost use Rattle.qr_images.specs.Steps.Pixels.{is_dark_in};

use crate::modules::Modules;

/// Where the next pixel is: in column `column` of the raster, of which `left` pixels are left.
#[derive(Clone, Copy)]
pub(crate) struct Place {
    pub(crate) column: u32,
    pub(crate) left: u32,
}

/// Returns the modules of row `row` of the raster that are not in its margin: none above and below the square.
#[inline(always)]
pub(crate) fn cells_of<'a>(square: &'a Modules, margin: u8, row: u32) -> &'a [u8]
    ensures dark { (x : ℕ) → is_dark_in margin result.now x ≡ is_dark_at margin square.now row x }
    ensures few { length result.now ≤ 177 }
{
    let first = u32::from(margin);
    if row < first || row - first >= u32::from(square.side()) {
        return &[];
    }
    square.row((row - first) as u8)
}

/// Returns whether the module in column `column` of a row of the raster is dark, which has the modules `cells` between
/// its margins.
#[inline(always)]
pub(crate) fn is_dark(cells: &[u8], margin: u8, column: u32) -> bool
    requires { length cells.now ≤ 177 }
    ensures { result ≡ is_dark_in margin cells.now column }
{
    // Of a column in the left margin this is a number above 2^31.
    let x = column.wrapping_sub(u32::from(margin)) as usize;
    x < cells.len() && cells[x] != 0
}

// Returns the place `count` pixels on, in the same module or at the beginning of the next one.
#[inline(always)]
fn moved(place: Place, scale: u8, count: u32) -> Place
    requires left { count ≤ place.left }
    requires within { place.left ≤ scale }
    requires some { 1 ≤ scale }
    requires far { place.column ≤ 10000 }
    ensures next { result.column * scale + (scale - result.left) ≡ place.column * scale + (scale - place.left) + count }
    ensures left { 1 ≤ result.left }
    ensures within { result.left ≤ scale }
    ensures far { result.column ≤ place.column + 1 }
{
    if place.left == count {
        return Place {
            column: place.column + 1,
            left: u32::from(scale),
        };
    }
    Place {
        column: place.column,
        left: place.left - count,
    }
}

// Appends `count` bits, which are all 1 or all 0.
#[inline(always)]
fn with_bits(bits: u32, count: u32, bit: bool) -> u32
    requires small { bits < 256 }
    requires few { count ≤ 8 }
    ensures { result ≡ bits * 2 ^ count + (if bit then 2 ^ count - 1 else 0) }
{
    let first = bits << count;
    if bit {
        return first + ((1 << count) - 1);
    }
    first
}

/// Returns the byte of the next eight pixels of a row of the raster, and moves on. The row has the modules `cells` between
/// its margins. After the last column all pixels are white.
#[inline(always)]
pub(crate) fn next_byte(cells: &[u8], margin: u8, scale: u8, place: &mut Place) -> u8
    requires few { length cells.now ≤ 177 }
    requires left { 1 ≤ place.old.left }
    requires within { place.old.left ≤ scale }
    requires far { place.old.column ≤ 1000 }
    ensures value { result ≡ byte_of (λ j. not (is_dark_in margin cells.now
        ((place.old.column * scale + (scale - place.old.left) + j) / scale))) }
    ensures next { place.new.column * scale + (scale - place.new.left)
        ≡ place.old.column * scale + (scale - place.old.left) + 8 }
    ensures left { 1 ≤ place.new.left }
    ensures within { place.new.left ≤ scale }
    ensures far { place.new.column ≤ place.old.column + 8 }
{
    let mut byte: u32 = 0;
    let mut done: u32 = 0;
    let mut at = *place;
    while done < 8 {
        let black = is_dark(cells, margin, at.column);
        let count = at.left.min(8 - done);
        byte = with_bits(byte, count, !black);
        at = moved(at, scale, count);
        done += count;
    }
    *place = at;
    byte as u8
}
