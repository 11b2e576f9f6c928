//! Writes a raw bitmap of netpbm (P4): its head, and its lines, in which 1 is black.

ghost use Rattle.std.specs.Prelude.{◌≡◌, ◌≤◌, ◌++◌, decimal, length};
ghost use Rattle.qr_devices.specs.Pen.{Puts};
ghost use Rattle.qr_images.specs.Steps.Stream.{WritesAll};
ghost use Rattle.qr_images.specs.Writing.{bitmap_head, pbm_file};

use crate::bitmap_lines::{Lines, put_lines};
use crate::image::ImageSettings;
use crate::lines::width;
use crate::modules::Modules;
use itoa::Buffer;
use qr_devices::{DrawFault, Pen, Sink, WRITE_MAX};

// Writes what comes before the lines.
fn put_bitmap_head<W: Sink>(pen: &mut Pen, out: &mut W, width: u16) -> Result<(), DrawFault>
    ensures { Puts (W.device out.old) (W.device out.new) pen.old pen.new (bitmap_head width) result }
{
    let mut digits = Buffer::new();
    let number = digits.format(width).as_bytes();
    pen.reserve(out, 20)?;
    pen.piece.push_all(b"P4\n");
    pen.piece.push_all(number);
    pen.piece.push_all(b" ");
    pen.piece.push_all(number);
    pen.piece.push_all(b"\n");
    Ok(())
}

/// Writes the PBM file of the square.
pub(crate) fn write_pbm<W: Sink>(
    square: &Modules,
    settings: &ImageSettings,
    out: &mut W,
) -> Result<(), DrawFault>
    requires some { 1 ≤ settings.now.scale }
    requires scale { settings.now.scale ≤ 100 }
    requires margin { settings.now.margin ≤ 100 }
    ensures { WritesAll (W.device out.old) (W.device out.new) (pbm_file settings.now square.now) result }
{
    let mut pen = Pen::new();
    let height = width(square, settings);
    put_bitmap_head(&mut pen, out, height as u16)?;
    let lines = Lines {
        first: 0,
        count: height,
        black: true,
    };
    put_lines(&mut pen, out, square, settings, lines)?;
    pen.reserve(out, WRITE_MAX)
}
