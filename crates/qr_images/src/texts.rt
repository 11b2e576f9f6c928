//! Texts and numbers, of which commands of printers are made.

ghost use Rattle.std.specs.Prelude.{◌≡◌, ◌≤◌, ◌+◌, ◌++◌, decimal, length};
ghost use Rattle.qr_devices.specs.Pen.{Puts};
ghost use Rattle.qr_devices.specs.declared.pen.TheConstants.{WRITE_MAX};

use itoa::Buffer;
use qr_devices::{DrawFault, PEN_SIZE, Pen, Piece, Sink, WRITE_MAX};

/// Appends a text and a number to the pen's bytes.
pub(crate) fn push_number(piece: &mut Piece<PEN_SIZE>, text: &[u8], number: u32)
    requires { length piece.old + length text.now + 10 ≤ 1200 }
    ensures items { piece.new ≡ piece.old ++ (text.now ++ decimal number) }
    ensures len { length piece.new ≤ length piece.old + length text.now + 10 }
{
    let mut digits = Buffer::new();
    piece.push_all(text);
    piece.push_all(digits.format(number).as_bytes());
}

/// Writes a text.
pub(crate) fn put_text<W: Sink>(pen: &mut Pen, out: &mut W, text: &[u8]) -> Result<(), DrawFault>
    requires { length text.now ≤ WRITE_MAX }
    ensures { Puts (W.device out.old) (W.device out.new) pen.old pen.new text.now result }
{
    pen.reserve(out, text.len())?;
    pen.piece.push_all(text);
    Ok(())
}
