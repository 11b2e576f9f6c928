//! Writes an image in the language ESC/POS of receipt printers, by the command `GS v 0`. A command has at most 255
//! lines, because some printers have no room for more. The lines of one command are a band.

ghost use Rattle.std.specs.Prelude.{◌≡◌, ◌≤◌, ◌+◌, ◌*◌};
ghost use Rattle.qr_devices.specs.Pen.{Puts};
ghost use Rattle.qr_images.specs.Image.{image_width};
ghost use Rattle.qr_images.specs.Printing.{band, band_count, band_head, escpos_file};
ghost use Rattle.qr_images.specs.Steps.Stream.{WritesAll};

use crate::bitmap_lines::{Lines, put_lines};
use crate::image::ImageSettings;
use crate::lines::width;
use crate::modules::Modules;
use qr_devices::{DrawFault, Pen, Sink, WRITE_MAX};

// Writes what comes before the lines of a band. A line has `stride` bytes.
fn put_band_head<W: Sink>(
    pen: &mut Pen,
    out: &mut W,
    stride: u16,
    count: u16,
) -> Result<(), DrawFault>
    ensures { Puts (W.device out.old) (W.device out.new) pen.old pen.new (band_head stride count) result }
{
    pen.reserve(out, 8)?;
    pen.piece.push_all(&[0x1D, 0x76, 0x30, 0]);
    pen.piece.push((stride % 256) as u8);
    pen.piece.push((stride / 256) as u8);
    pen.piece.push((count % 256) as u8);
    pen.piece.push((count / 256) as u8);
    Ok(())
}

// Writes band `k`. It begins with line 255 * `k`.
fn put_band<W: Sink>(
    pen: &mut Pen,
    out: &mut W,
    square: &Modules,
    settings: &ImageSettings,
    k: u32,
) -> Result<(), DrawFault>
    requires some { 1 ≤ settings.now.scale }
    requires scale { settings.now.scale ≤ 100 }
    requires margin { settings.now.margin ≤ 100 }
    requires within { 255 * k ≤ image_width settings.now square.now }
    ensures { Puts (W.device out.old) (W.device out.new)
        pen.old pen.new (band settings.now square.now (255 * k) (band_count settings.now square.now k)) result }
{
    let height = width(square, settings);
    let first = 255 * k;
    let lines = Lines {
        first,
        count: (height - first).min(255),
        black: true,
    };
    put_band_head(pen, out, height.div_ceil(8) as u16, lines.count as u16)?;
    put_lines(pen, out, square, settings, lines)
}

/// Writes the commands that print the square.
pub(crate) fn write_escpos<W: Sink>(
    square: &Modules,
    settings: &ImageSettings,
    out: &mut W,
) -> Result<(), DrawFault>
    requires some { 1 ≤ settings.now.scale }
    requires scale { settings.now.scale ≤ 100 }
    requires margin { settings.now.margin ≤ 100 }
    ensures { WritesAll (W.device out.old) (W.device out.new) (escpos_file settings.now square.now) result }
{
    let mut pen = Pen::new();
    for k in 0..width(square, settings).div_ceil(255) {
        put_band(&mut pen, out, square, settings, k)?;
    }
    pen.reserve(out, WRITE_MAX)
}
