//! One line of the text of a square, for callers that have no room for the whole text. The lines of a text are counted
//! from 0.

ghost use Rattle.std.specs.Prelude.{◌≡◌, ◌≤◌, ◌<◌, ◌+◌, ◌*◌, ◌++◌, ℕ, max, drop, is_err, length, OnOk, OnErr};
ghost use Rattle.std.specs.Io.KnownBytes.{Appends};
ghost use Rattle.qr_devices.specs.Device.{AppendsBeginning, IsWrittenWithin, counted, is_write_fault, no_writes};
ghost use Rattle.qr_drawing.specs.Raster.{raster_width};
ghost use Rattle.qr_drawing.specs.Text.{line_count, line_of};

use crate::drawing::Eights;
use crate::text::{Look, TextStyle, line_count, put_line};
use qr_devices::{DrawFault, Filler, Gauge, Pen, Sink, WRITE_MAX};

fn width<M: Eights>(square: &M, margin: u8) -> u16
    ensures value { result ≡ raster_width margin (M.seen square.now) }
    ensures most { result < 1000 }
{
    2 * u16::from(margin) + u16::from(square.side())
}

/// Returns the number of lines of the text that `draw` writes of a square with `side` rows and this margin.
pub fn text_lines(style: TextStyle, side: u8, margin: u8) -> u16
    ensures { result ≡ line_count style (2 * margin + side) }
{
    line_count(style, 2 * u16::from(margin) + u16::from(side))
}

/// Writes line `line` of the text that `draw` writes of the square with this margin, with the newline at the end of the
/// line (ISO/IEC 18004:2015, 6.3.8).
///
/// Allocates no memory, and offers `out` at most 1,200 bytes at a time. Interrupted writes (EINTR) are tried again, at
/// most 999 times in all. Does not flush `out`.
///
/// # Errors
///
/// `Write`, only if a write fails or accepts no byte, or if 1,000 writes are interrupted; `out` has then accepted a
/// prefix of the line.
pub fn draw_line<M: Eights, W: Sink>(
    square: &M,
    style: TextStyle,
    margin: u8,
    line: u16,
    out: &mut W,
) -> Result<(), DrawFault>
    requires { line < line_count style (raster_width margin (M.seen square.now)) }
    ensures ok { OnOk result (Appends (W.device out.old).taken (W.device out.new).taken (line_of style margin (M.seen square.now) line)) }
    ensures err { OnErr result (AppendsBeginning (W.device out.old).taken (W.device out.new).taken
        (line_of style margin (M.seen square.now) line)) }
    ensures fault { (W.device out.old).counts ≡ no_writes → is_write_fault (W.device out.new).counts ≡ is_err result }
    ensures taken { (W.device out.old).counts ≡ no_writes
        → OnOk result ((W.device out.new).counts.taken ≡ counted (length (line_of style margin (M.seen square.now) line))) }
    ensures most { (W.device out.old).counts ≡ no_writes
        → OnErr result ((W.device out.new).counts.taken ≤ counted (length (line_of style margin (M.seen square.now) line))) }
    ensures within { (W.device out.old).counts ≡ no_writes → IsWrittenWithin (W.device out.new).counts }
    ensures offered { (W.device out.new).counts.offered ≤ max (W.device out.old).counts.offered WRITE_MAX }
    ensures flushes { (W.device out.new).counts.flushes ≡ (W.device out.old).counts.flushes }
    ensures buffer { (W.device out.new).buffer ≡ (W.device out.old).buffer }
    ensures rest { OnOk result ((W.device out.new).rest
        ≡ drop (length (line_of style margin (M.seen square.now) line)) (W.device out.old).rest) }
{
    // The proof needs the bound of the width.
    let _ = width(square, margin);
    let mut pen = Pen::new();
    put_line(&mut pen, out, Look { style, margin }, square, line)?;
    pen.reserve(out, WRITE_MAX)
}

/// Returns a number of bytes in which there is room for each line of the text.
pub fn line_room<M: Eights>(square: &M, style: TextStyle, margin: u8) -> usize
    ensures { (y : ℕ) → length (line_of style margin (M.seen square.now) y) ≤ result }
{
    let most = match style {
        TextStyle::Plain | TextStyle::Inverse => 2,
        TextStyle::HalfBlocks => 3,
    };
    usize::from(width(square, margin)) * most + 1
}

/// Returns the number of bytes of the line that `draw_line` writes.
pub fn line_len<M: Eights>(square: &M, style: TextStyle, margin: u8, line: u16) -> usize
    requires { line < line_count style (raster_width margin (M.seen square.now)) }
    ensures { result ≡ length (line_of style margin (M.seen square.now) line) }
{
    // The proof needs this bound of the length.
    let _ = line_room(square, style, margin);
    let mut gauge = Gauge::new();
    let _ = draw_line(square, style, margin, line, &mut gauge);
    gauge.len() as usize
}

/// Writes the line that `draw_line` writes to the beginning of `text`, which is at least as long, and returns the
/// number of its bytes.
pub fn fill_line<M: Eights>(
    square: &M,
    style: TextStyle,
    margin: u8,
    line: u16,
    text: &mut [u8],
) -> usize
    requires line { line < line_count style (raster_width margin (M.seen square.now)) }
    requires room { length (line_of style margin (M.seen square.now) line) ≤ length text.old }
    ensures text { text.new ≡ line_of style margin (M.seen square.now) line
        ++ drop (length (line_of style margin (M.seen square.now) line)) text.old }
    ensures len { result ≡ length (line_of style margin (M.seen square.now) line) }
{
    let mut filler = Filler::new(text);
    // The line fits, so no write fails.
    let _ = draw_line(square, style, margin, line, &mut filler);
    filler.len()
}
