//! Writes an image in the language ZPL of label printers: a label that has one graphic. Its lines are packed as ZPL
//! allows: a row of modules is written once, as runs of hexadecimal digits, and each further line of this row is a
//! colon. A line without a black dot is a comma.

ghost use Rattle.std.specs.Prelude.{◌≡◌, ◌≤◌, ◌+◌, ◌*◌};
ghost use Rattle.qr_devices.specs.Pen.{Puts};
ghost use Rattle.qr_matrix.specs.Raster.{raster_width};
ghost use Rattle.qr_images.specs.Image.{black_line, image_width, line_length};
ghost use Rattle.qr_images.specs.Packing.{digits_of, first_line, has_dark_below, packed_row, packed_rows, runs_from};
ghost use Rattle.qr_images.specs.Printing.{zpl_file, zpl_head};
ghost use Rattle.qr_images.specs.Steps.Stream.{WritesAll};

use crate::image::ImageSettings;
use crate::lines::width;
use crate::modules::Modules;
use crate::pixels::{Place, cells_of, is_dark, next_byte};
use crate::runs::{no_run, put_byte, put_run};
use crate::texts::{push_number, put_text};
use qr_devices::{DrawFault, Pen, Sink, WRITE_MAX};

// Returns the number of columns of the raster, which is also that of its rows.
fn columns(square: &Modules, settings: &ImageSettings) -> u32
    requires { settings.now.margin ≤ 100 }
    ensures value { result ≡ raster_width settings.now.margin square.now }
    ensures most { result ≤ 377 }
{
    2 * u32::from(settings.margin) + u32::from(square.side())
}

// Returns whether a module of row `row` of the raster is dark.
fn has_dark(square: &Modules, settings: &ImageSettings, row: u32) -> bool
    requires { settings.now.margin ≤ 100 }
    ensures { result ≡ has_dark_below (raster_width settings.now.margin square.now) settings.now square.now row }
{
    let cells = cells_of(square, settings.margin, row);
    let mut dark = false;
    for column in 0..columns(square, settings) {
        dark |= is_dark(cells, settings.margin, column);
    }
    dark
}

// Writes a line that shows row `row` of the raster, as runs.
fn put_packed_line<W: Sink>(
    pen: &mut Pen,
    out: &mut W,
    square: &Modules,
    settings: &ImageSettings,
    row: u32,
) -> Result<(), DrawFault>
    requires some { 1 ≤ settings.now.scale }
    requires scale { settings.now.scale ≤ 100 }
    requires margin { settings.now.margin ≤ 100 }
    ensures { Puts (W.device out.old) (W.device out.new) pen.old pen.new (runs_from 0 0 (digits_of (black_line settings.now square.now row))) result }
{
    let count = width(square, settings).div_ceil(8);
    let cells = cells_of(square, settings.margin, row);
    let mut run = no_run();
    let mut place = Place {
        column: 0,
        left: u32::from(settings.scale),
    };
    for done in 0..count {
        let byte = next_byte(cells, settings.margin, settings.scale, &mut place);
        put_byte(pen, out, &mut run, 255 - byte)?;
    }
    put_run(pen, out, run)
}

// Writes the first of the lines that show row `row` of the raster.
fn put_first_line<W: Sink>(
    pen: &mut Pen,
    out: &mut W,
    square: &Modules,
    settings: &ImageSettings,
    row: u32,
) -> Result<(), DrawFault>
    requires some { 1 ≤ settings.now.scale }
    requires scale { settings.now.scale ≤ 100 }
    requires margin { settings.now.margin ≤ 100 }
    ensures { Puts (W.device out.old) (W.device out.new) pen.old pen.new (first_line settings.now square.now row) result }
{
    if has_dark(square, settings, row) {
        return put_packed_line(pen, out, square, settings, row);
    }
    put_text(pen, out, b",")
}

// Writes all lines that show row `row` of the raster.
fn put_packed_row<W: Sink>(
    pen: &mut Pen,
    out: &mut W,
    square: &Modules,
    settings: &ImageSettings,
    row: u32,
) -> Result<(), DrawFault>
    requires some { 1 ≤ settings.now.scale }
    requires scale { settings.now.scale ≤ 100 }
    requires margin { settings.now.margin ≤ 100 }
    ensures { Puts (W.device out.old) (W.device out.new) pen.old pen.new (packed_row settings.now square.now row) result }
{
    put_first_line(pen, out, square, settings, row)?;
    let copies = settings.scale - 1;
    for copy in 0..copies {
        put_text(pen, out, b":")?;
    }
    Ok(())
}

// Writes all lines.
fn put_packed_rows<W: Sink>(
    pen: &mut Pen,
    out: &mut W,
    square: &Modules,
    settings: &ImageSettings,
) -> Result<(), DrawFault>
    requires some { 1 ≤ settings.now.scale }
    requires scale { settings.now.scale ≤ 100 }
    requires margin { settings.now.margin ≤ 100 }
    ensures { Puts (W.device out.old) (W.device out.new) pen.old pen.new (packed_rows settings.now square.now) result }
{
    for row in 0..columns(square, settings) {
        put_packed_row(pen, out, square, settings, row)?;
    }
    Ok(())
}

// Writes what comes before the lines: the place of the image, the number of its bytes twice, and that of a line.
fn put_zpl_head<W: Sink>(
    pen: &mut Pen,
    out: &mut W,
    settings: &ImageSettings,
    total: u32,
    stride: u32,
) -> Result<(), DrawFault>
    ensures { Puts (W.device out.old) (W.device out.new) pen.old pen.new (zpl_head settings.now.left settings.now.top total stride) result }
{
    pen.reserve(out, 80)?;
    push_number(&mut pen.piece, b"^XA\n^FO", u32::from(settings.left));
    push_number(&mut pen.piece, b",", u32::from(settings.top));
    push_number(&mut pen.piece, b"^GFA,", total);
    push_number(&mut pen.piece, b",", total);
    push_number(&mut pen.piece, b",", stride);
    pen.piece.push_all(b",");
    Ok(())
}

// Returns the number of bytes of all lines.
fn bytes_of_lines(square: &Modules, settings: &ImageSettings) -> u32
    requires scale { settings.now.scale ≤ 100 }
    requires margin { settings.now.margin ≤ 100 }
    ensures { result ≡ image_width settings.now square.now * line_length settings.now square.now }
{
    let height = width(square, settings);
    height * height.div_ceil(8)
}

/// Writes the label that shows the square.
pub(crate) fn write_zpl<W: Sink>(
    square: &Modules,
    settings: &ImageSettings,
    out: &mut W,
) -> Result<(), DrawFault>
    requires some { 1 ≤ settings.now.scale }
    requires scale { settings.now.scale ≤ 100 }
    requires margin { settings.now.margin ≤ 100 }
    ensures { WritesAll (W.device out.old) (W.device out.new) (zpl_file settings.now square.now) result }
{
    let mut pen = Pen::new();
    let stride = width(square, settings).div_ceil(8);
    let total = bytes_of_lines(square, settings);
    put_zpl_head(&mut pen, out, settings, total, stride)?;
    put_packed_rows(&mut pen, out, square, settings)?;
    put_text(&mut pen, out, b"^FS\n^XZ\n")?;
    pen.reserve(out, WRITE_MAX)
}
