//! Writes the boxes of EPS and PDF documents, as lines of text. The line of a box around seven modules of which the
//! first is in column 4, with 20 rows below it, is `4 20 7` and then `ending`, the command that draws the box. `below`
//! is the number of rows of the document below a symbol and its margin. At most 16 symbols are drawn, each with fewer
//! than 1,000 rows.

ghost use Rattle.std.specs.Prelude.{◌≡◌, ◌≤◌, ◌<◌, ◌+◌, ◌*◌, ◌++◌, length};
ghost use Rattle.qr_devices.specs.Pen.{Puts};
ghost use Rattle.qr_documents.specs.Boxes.{box_line, row_lines, symbol_lines};

use qr_devices::{DrawFault, PEN_SIZE, Pen, Piece, Sink, WRITE_MAX};
use qr_drawing::Raster;
use qr_drawing::svg::push_number;

// How many bytes of room the pen has to have before a line is appended: three numbers of at most five digits, two
// spaces, and an ending of at most eight bytes.
const LINE_MAX: usize = 25;

// Appends the line of a box.
#[tactic(auto, unfolding(crate::specs::Boxes::box_line, qr_drawing::specs::Svg::numbered))]
fn push_line(text: &mut Piece<PEN_SIZE>, x: u16, up: u16, modules: u16, ending: &[u8])
    requires ending { length ending.now ≤ 8 }
    requires room { length text.old + LINE_MAX ≤ WRITE_MAX }
    ensures items { text.new ≡ text.old ++ box_line ending.now x up modules }
    ensures len { length text.new ≤ length text.old + LINE_MAX }
{
    push_number(text, x);
    text.push(b' ');
    push_number(text, up);
    text.push(b' ');
    push_number(text, modules);
    text.push_all(ending);
}

// A row of the square, below which the document has `up` rows.
#[derive(Clone, Copy)]
struct Row {
    index: u8,
    up: u16,
}

// Writes the lines of a row.
fn put_row_lines<W: Sink>(
    pen: &mut Pen,
    out: &mut W,
    raster: &Raster,
    row: Row,
    ending: &[u8],
) -> Result<(), DrawFault>
    requires row_in { row.index < raster.now.matrix.now.side }
    requires ending { length ending.now ≤ 8 }
    ensures { Puts (W.device out.old) (W.device out.new)
        pen.old pen.new (row_lines ending.now row.up raster.now.margin raster.now.matrix.now (raster.now.margin + row.index)) result }
{
    let left = u16::from(raster.margin);
    for run in raster.matrix.dark_runs(row.index) {
        pen.reserve(out, LINE_MAX)?;
        push_line(
            &mut pen.piece,
            left + u16::from(run.start),
            row.up,
            u16::from(run.end - run.start),
            ending,
        );
    }
    Ok(())
}

/// Writes the lines of a symbol.
pub(crate) fn put_lines<W: Sink>(
    pen: &mut Pen,
    out: &mut W,
    raster: &Raster,
    below: u16,
    ending: &[u8],
) -> Result<(), DrawFault>
    requires below { below ≤ 16 * 1000 }
    requires ending { length ending.now ≤ 8 }
    ensures { Puts (W.device out.old) (W.device out.new)
        pen.old pen.new (symbol_lines ending.now below raster.now.margin raster.now.matrix.now) result }
{
    let side = raster.matrix.side();
    let bottom = below + u16::from(raster.margin);
    for index in 0..side {
        let row = Row {
            index,
            up: bottom + u16::from(side - 1 - index),
        };
        put_row_lines(pen, out, raster, row, ending)?;
    }
    Ok(())
}
