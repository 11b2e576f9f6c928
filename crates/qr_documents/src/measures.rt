//! Appends numbers and lengths to the text of a document for print. A length is given in micrometres.

ghost use Rattle.std.specs.Prelude.{◌≡◌, ◌≤◌, ◌+◌, ◌++◌, ◌%◌, decimal, length};
ghost use Rattle.qr_documents.specs.Measures.{last_digits, millimetres, points, whole_points};

use itoa::Buffer;
use qr_devices::{PEN_SIZE, Piece, WRITE_MAX};

/// The greatest length: that of 16,000 modules of a metre. A document has fewer modules on each side (`drawing.rt` in
/// `qr_drawing` says why a raster has fewer than 1,000).
pub(crate) const LENGTH_MAX: u64 = 16_000_000_000;

/// Appends the decimal digits of a number.
pub(crate) fn push_decimal(text: &mut Piece<PEN_SIZE>, number: u64)
    requires room { length text.old + 20 ≤ WRITE_MAX }
    ensures items { text.new ≡ text.old ++ decimal number }
    ensures len { length text.new ≤ length text.old + 20 }
{
    let mut digits = Buffer::new();
    text.push_all(digits.format(number).as_bytes());
}

fn last_digit(number: u64) -> u8
    ensures { result ≡ 48 + number % 10 }
{
    b'0' + (number % 10) as u8
}

/// Appends the last three digits of a number.
#[tactic(auto, unfolding(crate::specs::Measures::last_digits))]
pub(crate) fn push_last_three<const CAP: usize>(text: &mut Piece<CAP>, number: u64)
    requires room { length text.old + 3 ≤ CAP }
    ensures items { text.new ≡ text.old ++ last_digits 3 number }
    ensures len { length text.new ≡ length text.old + 3 }
{
    let tens = number / 10;
    let hundreds = tens / 10;
    text.push_all(&[last_digit(hundreds), last_digit(tens), last_digit(number)]);
}

fn push_last_six(text: &mut Piece<PEN_SIZE>, number: u64)
    requires room { length text.old + 6 ≤ WRITE_MAX }
    ensures items { text.new ≡ text.old ++ last_digits 6 number }
    ensures len { length text.new ≡ length text.old + 6 }
{
    push_last_three(text, number / 1000);
    push_last_three(text, number);
}

/// Appends the last ten digits of a number.
pub(crate) fn push_last_ten<const CAP: usize>(text: &mut Piece<CAP>, number: u64)
    requires room { length text.old + 10 ≤ CAP }
    ensures items { text.new ≡ text.old ++ last_digits 10 number }
    ensures len { length text.new ≡ length text.old + 10 }
{
    text.push(last_digit(number / 1_000_000_000));
    push_last_three(text, number / 1_000_000);
    push_last_three(text, number / 1000);
    push_last_three(text, number);
}

/// Appends a length in millimetres.
pub(crate) fn push_millimetres(text: &mut Piece<PEN_SIZE>, micrometres: u64)
    requires room { length text.old + 24 ≤ WRITE_MAX }
    ensures items { text.new ≡ text.old ++ millimetres micrometres }
    ensures len { length text.new ≤ length text.old + 24 }
{
    push_decimal(text, micrometres / 1000);
    text.push(b'.');
    push_last_three(text, micrometres);
}

/// Appends a length in points.
pub(crate) fn push_points(text: &mut Piece<PEN_SIZE>, micrometres: u64)
    requires most { micrometres ≤ LENGTH_MAX }
    requires room { length text.old + 27 ≤ WRITE_MAX }
    ensures items { text.new ≡ text.old ++ points micrometres }
    ensures len { length text.new ≤ length text.old + 27 }
{
    let millionths = micrometres * 72_000_000 / 25_400;
    push_decimal(text, millionths / 1_000_000);
    text.push(b'.');
    push_last_six(text, millionths);
}

/// Appends a length in points, rounded up to a whole number.
#[tactic(auto, unfolding(crate::specs::Measures::whole_points))]
pub(crate) fn push_whole_points(text: &mut Piece<PEN_SIZE>, micrometres: u64)
    requires most { micrometres ≤ LENGTH_MAX }
    requires room { length text.old + 20 ≤ WRITE_MAX }
    ensures items { text.new ≡ text.old ++ whole_points micrometres }
    ensures len { length text.new ≤ length text.old + 20 }
{
    push_decimal(text, (micrometres * 72 + 25_399) / 25_400);
}
