//! The settings of an image, and the call that writes it.

ghost use Rattle.std.specs.Prelude.{◌≡◌, ◌≤◌, ◌<◌, ◌^◌, max, drop, is_err, length, OnOk, OnErr};
ghost use Rattle.std.specs.Io.KnownBytes.{Appends};
ghost use Rattle.qr_devices.specs.Device.{AppendsBeginning, IsWrittenWithin, counted, is_write_fault, no_writes};
ghost use Rattle.qr_devices.specs.declared.pen.TheConstants.{WRITE_MAX};
ghost use Rattle.qr_images.specs.Writing.{image_file};

use crate::escpos::write_escpos;
use crate::modules::Modules;
use crate::pbm::write_pbm;
use crate::png::write_png;
use crate::tspl::write_tspl;
use crate::zpl::write_zpl;
use qr_devices::{DrawFault, Sink};

/// The format of a file.
#[derive(Clone, Copy, Debug, PartialEq, Eq)]
pub enum Format {
    /// Portable Network Graphics (ISO/IEC 15948), with one bit a pixel: in grey, or with a palette of two colours.
    Png,
    /// A raw bitmap of netpbm (P4). It cannot say how many pixels a metre has.
    Pbm,
    /// The command `GS v 0` of ESC/POS, for receipt printers, in bands of at most 255 lines. It prints the image at the
    /// left end of the paper, and cannot say how many pixels a metre has.
    EscPos,
    /// The command `BITMAP` of TSPL, for label printers. It cannot say how many pixels a metre has.
    Tspl,
    /// A label with one graphic in ZPL, the language of Zebra's label printers. It cannot say how many pixels a metre
    /// has. Zebra's manual names 99,999 as the greatest number of bytes of a graphic. Larger ones are written too.
    Zpl,
}

/// The colours of an image. Each is the number 0xRRGGBBAA: red, green and blue, and how opaque it is, from 0x00 for what
/// is not seen to 0xFF.
#[derive(Clone, Copy, Debug)]
pub struct Colours {
    /// The colour of dark modules.
    pub dark: u32,
    /// The colour of light modules and of the margin.
    pub light: u32,
}

/// How an image is written.
#[derive(Clone, Copy, Debug)]
pub struct ImageSettings {
    /// The format of the file.
    pub format: Format,
    /// The width of a module in pixels, 1 to 100, which is also its height.
    pub scale: u8,
    /// The width of the light margin on each side in modules, 0 to 100.
    pub margin: u8,
    /// The colours, or `None` for black on white. Formats that have no colours leave them out.
    pub colours: Option<Colours>,
    /// How many pixels of the printed image a metre has, below 2^31, or 0 if the file is not to say it. Formats that
    /// cannot say it leave it out.
    pub pixels_a_metre: u32,
    /// How far the image is from the left edge of the label, in the printer's dots, 0 to 32,000. Formats that cannot
    /// say it leave it out.
    pub left: u16,
    /// How far the image is from the upper edge of the label, in the printer's dots, 0 to 32,000. Formats that cannot
    /// say it leave it out.
    pub top: u16,
}

/// Writes the image of a square as a file. Each module is a square of `settings.scale` by `settings.scale` pixels, and
/// around the square is a light margin of `settings.margin` modules (ISO/IEC 18004:2015, 6.3.8).
///
/// The file depends only on the square and the settings, and has fewer than 2^64 bytes.
///
/// Allocates no memory, and offers `out` at most 1,200 bytes at a time. Interrupted writes (EINTR) are tried again, at
/// most 999 times in all. Does not flush `out`.
///
/// # Errors
///
/// `Write`, only if a write fails or accepts no byte, or if 1,000 writes are interrupted; `out` has then accepted a
/// prefix of the file.
pub fn write_image<W: Sink>(
    square: &Modules,
    settings: &ImageSettings,
    out: &mut W,
) -> Result<(), DrawFault>
    requires scale_least { 1 ≤ settings.now.scale }
    requires scale_most { settings.now.scale ≤ 100 }
    requires margin { settings.now.margin ≤ 100 }
    requires size { settings.now.pixels_a_metre < 2 ^ 31 }
    requires left { settings.now.left ≤ 32000 }
    requires top { settings.now.top ≤ 32000 }
    ensures ok { OnOk result (Appends (W.device out.old).taken (W.device out.new).taken (image_file settings.now square.now)) }
    ensures err { OnErr result (AppendsBeginning (W.device out.old).taken (W.device out.new).taken (image_file settings.now square.now)) }
    ensures fault { (W.device out.old).counts ≡ no_writes → is_write_fault (W.device out.new).counts ≡ is_err result }
    ensures taken { (W.device out.old).counts ≡ no_writes
        → OnOk result ((W.device out.new).counts.taken ≡ counted (length (image_file settings.now square.now))) }
    ensures most { (W.device out.old).counts ≡ no_writes
        → OnErr result ((W.device out.new).counts.taken ≤ counted (length (image_file settings.now square.now))) }
    ensures within { (W.device out.old).counts ≡ no_writes → IsWrittenWithin (W.device out.new).counts }
    ensures offered { (W.device out.new).counts.offered ≤ max (W.device out.old).counts.offered WRITE_MAX }
    ensures flushes { (W.device out.new).counts.flushes ≡ (W.device out.old).counts.flushes }
    ensures buffer { (W.device out.new).buffer ≡ (W.device out.old).buffer }
    ensures rest { OnOk result ((W.device out.new).rest ≡ drop (length (image_file settings.now square.now)) (W.device out.old).rest) }
{
    match settings.format {
        Format::Png => write_png(square, settings, out),
        Format::Pbm => write_pbm(square, settings, out),
        Format::EscPos => write_escpos(square, settings, out),
        Format::Tspl => write_tspl(square, settings, out),
        Format::Zpl => write_zpl(square, settings, out),
    }
}
