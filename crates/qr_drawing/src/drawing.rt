//! The types of drawing, the values that can be drawn, and rasters. The raster of a symbol is its modules with a light
//! margin around them; a margin is at most 255 modules wide, and a symbol has at most 177 modules on a side. So a
//! raster has fewer than 1,000 rows and columns.

ghost use Rattle.std.specs.Prelude.{◌≡◌, ◌≤◌, ◌<◌, ◌+◌, max, drop, is_err, length, map, OnOk, OnErr};
ghost use Rattle.std.specs.Io.KnownBytes.{Appends};
ghost use Rattle.qr_devices.specs.Device.{AppendsBeginning, IsWrittenWithin, counted, is_write_fault, no_writes};
ghost use Rattle.qr_drawing.specs.Drawing.{HaveOneSide, drawn};
ghost use Rattle.qr_matrix.specs.Raster.{raster_width};

use crate::svg::put_document;
use crate::text::{TextStyle, put_texts};
use qr_devices::{DrawFault, Pen, Sink, WRITE_MAX};
use qr_matrix::{HasSquare, Matrix};

/// How symbols are drawn: as a text or as an SVG document.
#[derive(Clone, Copy, Debug, PartialEq, Eq)]
pub enum Drawing {
    /// Text with two `#` for a dark module, and two spaces for a light one.
    Ascii,
    /// Text with two spaces for a dark module, and two `#` for a light one.
    AsciiInverse,
    /// Text in UTF-8, in which one character, a space or a block character, shows two modules, one above the other.
    Utf8,
    /// A Scalable Vector Graphics document.
    Svg,
}

/// A square of 1 to 177 modules on a side whose modules can be read eight at a time. It need not be a `Matrix`, which is
/// stored in memory of its own.
pub trait Eights {
    ghost use Rattle.std.specs.Prelude.{◌≡◌, ℕ, ◌+◌, ◌<◌, ◌≤◌, ◌%◌};
    ghost use Rattle.qr_matrix.specs.BitRow.{has_bit};
    ghost use Rattle.qr_matrix.specs.Grid.{Grid, colour};

    // The square, as contracts see it.
    ghost seen: { Self → Grid };

    /// Returns the number of modules on a side, from 1 to 177.
    fn side(&self) -> u8
        ensures value { result ≡ (seen self.now).side }
        ensures least { 1 ≤ result }
        ensures most { result ≤ 177 };

    /// Returns the eight modules of row `row` from column `col` on as a number: the leftmost is the lowest bit, and a
    /// set bit is dark. A bit whose column is outside the square may be 0 or 1.
    fn eight(&self, row: u8, col: u8) -> u8
        requires row_in { row < (seen self.now).side }
        requires col_in { col < (seen self.now).side }
        requires whole { col % 8 ≡ 0 }
        ensures { (k : ℕ) → k < 8 → col + k < (seen self.now).side
            → has_bit result k ≡ colour (seen self.now) row (col + k) };
}

impl Eights for Matrix {
    ghost seen = { λ m. m };

    #[inline(always)]
    fn side(&self) -> u8 {
        Matrix::side(self)
    }

    #[inline(always)]
    fn eight(&self, row: u8, col: u8) -> u8 {
        Matrix::eight(self, row, col)
    }
}

/// A square with a light margin around it.
#[derive(Drop)]
pub struct Raster<'a> {
    /// The square.
    pub matrix: &'a Matrix,
    /// The width of the margin on each side in modules.
    pub margin: u8,
}

impl Raster<'_> {
    /// Returns the width of the square with its margin in modules, which is also its height.
    pub fn width(&self) -> u16
        ensures value { result ≡ raster_width self.now.margin self.now.matrix.now }
        ensures most { result < 1000 }
    {
        2 * u16::from(self.margin) + u16::from(self.matrix.side())
    }
}

/// Draws 1 to 16 symbols or other squares, all with the same side, each with a light margin of `margin` modules on all
/// sides (ISO/IEC 18004:2015, 6.3.8). The texts of several squares follow one after the other. An SVG document shows
/// all squares, one below the other.
///
/// The drawing depends only on its type and on the squares with their margins.
///
/// Allocates no memory, and offers `out` at most 1,200 bytes at a time. Interrupted writes (EINTR) are tried again, at
/// most 999 times in all. Does not flush `out`.
///
/// # Errors
///
/// `Write`, only if a write fails or accepts no byte, or if 1,000 writes are interrupted; `out` has then accepted a
/// prefix of the drawing.
pub fn draw<S: HasSquare, W: Sink>(
    symbols: &[S],
    kind: Drawing,
    margin: u8,
    out: &mut W,
) -> Result<(), DrawFault>
    requires some { 0 < length symbols.now }
    requires few { length symbols.now ≤ 16 }
    requires one_side { HaveOneSide (map S.grid symbols.now) }
    ensures ok { OnOk result (Appends (W.device out.old).taken (W.device out.new).taken (drawn kind margin (map S.grid symbols.now))) }
    ensures err { OnErr result (AppendsBeginning (W.device out.old).taken (W.device out.new).taken
        (drawn kind margin (map S.grid symbols.now))) }
    ensures fault { (W.device out.old).counts ≡ no_writes → is_write_fault (W.device out.new).counts ≡ is_err result }
    ensures taken { (W.device out.old).counts ≡ no_writes
        → OnOk result ((W.device out.new).counts.taken ≡ counted (length (drawn kind margin (map S.grid symbols.now)))) }
    ensures most { (W.device out.old).counts ≡ no_writes
        → OnErr result ((W.device out.new).counts.taken ≤ counted (length (drawn kind margin (map S.grid symbols.now)))) }
    ensures within { (W.device out.old).counts ≡ no_writes → IsWrittenWithin (W.device out.new).counts }
    ensures offered { (W.device out.new).counts.offered ≤ max (W.device out.old).counts.offered WRITE_MAX }
    ensures flushes { (W.device out.new).counts.flushes ≡ (W.device out.old).counts.flushes }
    ensures buffer { (W.device out.new).buffer ≡ (W.device out.old).buffer }
    ensures rest { OnOk result ((W.device out.new).rest ≡ drop (length (drawn kind margin (map S.grid symbols.now))) (W.device out.old).rest) }
{
    let mut pen = Pen::new();
    // When the calls of this `match` are done, the pen may still contain the last bytes of the drawing.
    let put = match kind {
        Drawing::Ascii => put_texts(&mut pen, out, TextStyle::Plain, symbols, margin),
        Drawing::AsciiInverse => put_texts(&mut pen, out, TextStyle::Inverse, symbols, margin),
        Drawing::Utf8 => put_texts(&mut pen, out, TextStyle::HalfBlocks, symbols, margin),
        Drawing::Svg => put_document(&mut pen, out, symbols, margin),
    };
    put?;
    pen.reserve(out, WRITE_MAX)
}
