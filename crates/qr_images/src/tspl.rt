//! Writes an image in the language TSPL of label printers, by the command `BITMAP`. In its lines 0 is black.

ghost use Rattle.std.specs.Prelude.{◌≡◌, ◌≤◌};
ghost use Rattle.qr_devices.specs.Pen.{Puts};
ghost use Rattle.qr_images.specs.Printing.{tspl_file, tspl_head};
ghost use Rattle.qr_images.specs.Steps.Stream.{WritesAll};

use crate::bitmap_lines::{Lines, put_lines};
use crate::image::ImageSettings;
use crate::lines::width;
use crate::modules::Modules;
use crate::texts::{push_number, put_text};
use qr_devices::{DrawFault, Pen, Sink, WRITE_MAX};

// Writes what comes before the lines: the place of the image, the number of bytes of a line, and the number of lines.
fn put_tspl_head<W: Sink>(
    pen: &mut Pen,
    out: &mut W,
    settings: &ImageSettings,
    stride: u32,
    count: u32,
) -> Result<(), DrawFault>
    ensures { Puts (W.device out.old) (W.device out.new) pen.old pen.new (tspl_head settings.now.left settings.now.top stride count) result }
{
    pen.reserve(out, 60)?;
    push_number(&mut pen.piece, b"BITMAP ", u32::from(settings.left));
    push_number(&mut pen.piece, b",", u32::from(settings.top));
    push_number(&mut pen.piece, b",", stride);
    push_number(&mut pen.piece, b",", count);
    pen.piece.push_all(b",0,");
    Ok(())
}

/// Writes the command that prints the square.
pub(crate) fn write_tspl<W: Sink>(
    square: &Modules,
    settings: &ImageSettings,
    out: &mut W,
) -> Result<(), DrawFault>
    requires some { 1 ≤ settings.now.scale }
    requires scale { settings.now.scale ≤ 100 }
    requires margin { settings.now.margin ≤ 100 }
    ensures { WritesAll (W.device out.old) (W.device out.new) (tspl_file settings.now square.now) result }
{
    let mut pen = Pen::new();
    let height = width(square, settings);
    put_tspl_head(&mut pen, out, settings, height.div_ceil(8), height)?;
    let lines = Lines {
        first: 0,
        count: height,
        black: false,
    };
    put_lines(&mut pen, out, square, settings, lines)?;
    put_text(&mut pen, out, b"\r\n")?;
    pen.reserve(out, WRITE_MAX)
}
