//! Writes the lines of a bitmap, one after the other and not compressed. A line has whole bytes, and the pixels after
//! its last column are white.

ghost use Rattle.std.specs.Prelude.{◌≡◌, ◌≤◌, ◌-◌};
ghost use Rattle.qr_devices.specs.Pen.{Puts};
ghost use Rattle.qr_images.specs.BitmapLines.{toned, toned_line, toned_lines};

use crate::image::ImageSettings;
use crate::lines::width;
use crate::modules::Modules;
use crate::pixels::{Place, cells_of, next_byte};
use qr_devices::{DrawFault, Pen, Sink};

/// The lines of a bitmap from line `first` on. A black pixel is the bit `black`.
#[derive(Clone, Copy)]
pub(crate) struct Lines {
    pub(crate) first: u32,
    pub(crate) count: u32,
    pub(crate) black: bool,
}

// A line that shows row `row` of the raster. A black pixel is the bit `black`.
#[derive(Clone, Copy)]
struct Line {
    row: u32,
    black: bool,
}

// Returns eight pixels, in which white is 1, as a byte in which black is the bit `black`.
fn in_tone(byte: u8, black: bool) -> u8
    ensures { result ≡ toned black (255 - byte) }
{
    if black { 255 - byte } else { byte }
}

fn put_line<W: Sink>(
    pen: &mut Pen,
    out: &mut W,
    square: &Modules,
    settings: &ImageSettings,
    line: Line,
) -> Result<(), DrawFault>
    requires some { 1 ≤ settings.now.scale }
    requires scale { settings.now.scale ≤ 100 }
    requires margin { settings.now.margin ≤ 100 }
    ensures { Puts (W.device out.old) (W.device out.new) pen.old pen.new (toned_line line.black settings.now square.now line.row) result }
{
    let count = width(square, settings).div_ceil(8);
    let cells = cells_of(square, settings.margin, line.row);
    let mut place = Place {
        column: 0,
        left: u32::from(settings.scale),
    };
    for done in 0..count {
        pen.reserve(out, 1)?;
        let byte = next_byte(cells, settings.margin, settings.scale, &mut place);
        pen.piece.push(in_tone(byte, line.black));
    }
    Ok(())
}

/// Writes lines of a bitmap, from the top down.
pub(crate) fn put_lines<W: Sink>(
    pen: &mut Pen,
    out: &mut W,
    square: &Modules,
    settings: &ImageSettings,
    lines: Lines,
) -> Result<(), DrawFault>
    requires some { 1 ≤ settings.now.scale }
    requires scale { settings.now.scale ≤ 100 }
    requires margin { settings.now.margin ≤ 100 }
    requires first { lines.first ≤ 37700 }
    requires count { lines.count ≤ 37700 }
    ensures { Puts (W.device out.old) (W.device out.new) pen.old pen.new (toned_lines lines.black settings.now square.now lines.first lines.count) result }
{
    for y in 0..lines.count {
        let line = Line {
            row: (lines.first + y) / u32::from(settings.scale),
            black: lines.black,
        };
        put_line(pen, out, square, settings, line)?;
    }
    Ok(())
}
