//! Writes symbols as an Encapsulated PostScript document, one below the other. A line `4 20 7 b` draws a box, where `b`
//! is a command that the document defines.

ghost use Rattle.std.specs.Prelude.{◌≡◌, ◌≤◌, ◌<◌, ◌+◌, ◌*◌, ◌++◌, length, map};
ghost use Rattle.qr_matrix.specs.Raster.{raster_width};
ghost use Rattle.qr_devices.specs.Pen.{Puts};
ghost use Rattle.qr_drawing.specs.Drawing.{HaveOneSide};
ghost use Rattle.qr_documents.specs.Eps.{eps_boxes, eps_comments, eps_document, eps_start};
ghost use Rattle.qr_documents.specs.Steps.Document.{eps_head};
ghost use Rattle.qr_drawing.specs.Svg.{square_at};

use crate::boxes::put_lines;
use crate::measures::{LENGTH_MAX, push_points, push_whole_points};
use qr_devices::{DrawFault, PEN_SIZE, Pen, Piece, Sink, WRITE_MAX};
use qr_drawing::Raster;
use qr_drawing::svg::push_numbered;
use qr_matrix::HasSquare;

// How many bytes of room the pen has to have for all that comes before the first box.
const HEAD_MAX: usize = 400;

// The number of bytes after the last box.
const END: usize = 15;

// Appends the comments.
fn push_comments(text: &mut Piece<PEN_SIZE>, width: u64, height: u64)
    requires wide { width ≤ LENGTH_MAX }
    requires high { height ≤ LENGTH_MAX }
    requires room { length text.old + 240 ≤ WRITE_MAX }
    ensures items { text.new ≡ text.old ++ eps_comments width height }
    ensures len { length text.new ≤ length text.old + 240 }
{
    text.push_all(b"%!PS-Adobe-3.0 EPSF-3.0\n%%BoundingBox: 0 0 ");
    push_whole_points(text, width);
    text.push_all(b" ");
    push_whole_points(text, height);
    text.push_all(b"\n%%HiResBoundingBox: 0 0 ");
    push_points(text, width);
    text.push_all(b" ");
    push_points(text, height);
    text.push_all(b"\n%%LanguageLevel: 2\n%%EndComments\n");
}

// Appends the lines between the comments and the boxes.
fn push_start(text: &mut Piece<PEN_SIZE>, micrometres: u32, width: u16, height: u16)
    requires room { length text.old + 160 ≤ WRITE_MAX }
    requires most { micrometres ≤ 1000000 }
    ensures items { text.new ≡ text.old ++ eps_start micrometres width height }
    ensures len { length text.new ≤ length text.old + 160 }
{
    text.push_all(b"gsave\n");
    push_points(text, u64::from(micrometres));
    push_numbered(text, b" dup scale\n1 setgray 0 0 ", width);
    push_numbered(text, b" ", height);
    text.push_all(b" rectfill\n0 setgray\n/b { 1 rectfill } bind def\n");
}

// Appends all that comes before the first box.
fn push_head(text: &mut Piece<PEN_SIZE>, micrometres: u32, width: u16, height: u16)
    requires wide { width ≤ 16000 }
    requires high { height ≤ 16000 }
    requires most { micrometres ≤ 1000000 }
    requires room { length text.old + HEAD_MAX ≤ WRITE_MAX }
    ensures items { text.new ≡ text.old ++ eps_head micrometres width height }
    ensures len { length text.new ≤ length text.old + HEAD_MAX }
{
    let length = u64::from(micrometres);
    push_comments(text, u64::from(width) * length, u64::from(height) * length);
    push_start(text, micrometres, width, height);
}

// Writes the boxes of all symbols.
fn put_boxes<S: HasSquare, W: Sink>(
    pen: &mut Pen,
    out: &mut W,
    symbols: &[S],
    margin: u8,
    width: u16,
) -> Result<(), DrawFault>
    requires few { length symbols.now ≤ 16 }
    requires one_side { HaveOneSide (map S.grid symbols.now) }
    requires width { width ≡ raster_width margin (square_at (map S.grid symbols.now) 0) }
    requires narrow { width < 1000 }
    ensures { Puts (W.device out.old) (W.device out.new)
        pen.old pen.new (eps_boxes margin (map S.grid symbols.now)) result }
{
    let mut below = width * symbols.len() as u16;
    for symbol in symbols {
        below -= width;
        let raster = Raster {
            matrix: symbol.square(),
            margin,
        };
        put_lines(pen, out, &raster, below, b" b\n")?;
    }
    Ok(())
}

/// Writes the EPS document.
pub(crate) fn put_eps<S: HasSquare, W: Sink>(
    pen: &mut Pen,
    out: &mut W,
    symbols: &[S],
    margin: u8,
    micrometres: u32,
) -> Result<(), DrawFault>
    requires some { 0 < length symbols.now }
    requires few { length symbols.now ≤ 16 }
    requires one_side { HaveOneSide (map S.grid symbols.now) }
    requires most { micrometres ≤ 1000000 }
    ensures { Puts (W.device out.old) (W.device out.new)
        pen.old pen.new (eps_document micrometres margin (map S.grid symbols.now)) result }
{
    let first = Raster {
        matrix: symbols[0].square(),
        margin,
    };
    let width = first.width();
    let height = width * symbols.len() as u16;
    pen.reserve(out, HEAD_MAX)?;
    push_head(&mut pen.piece, micrometres, width, height);
    put_boxes(pen, out, symbols, margin, width)?;
    pen.reserve(out, END)?;
    pen.piece.push_all(b"grestore\n%%EOF\n");
    Ok(())
}
