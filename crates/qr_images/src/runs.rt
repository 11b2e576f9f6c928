//! Runs of hexadecimal digits, as ZPL packs them: digits that are the same, with a count before them. The letters G to Y
//! are the counts 1 to 19, and g to z are 20 to 400. A letter of each kind makes a count of up to 419.

ghost use Rattle.std.specs.Prelude.{◌≡◌, ◌≤◌, ◌<◌, ◌+◌, ◌/◌, ◌%◌, ◌&&◌, ◌==◌, ◌++◌, ◌∷◌, [], length, nat_lt, true};
ghost use Rattle.qr_devices.specs.Pen.{Puts};
ghost use Rattle.qr_images.specs.Packing.{digit_text, ones_text, run_text, twenties_text};
ghost use Rattle.qr_images.specs.Steps.Runs.{PutsDigits};

use qr_devices::{DrawFault, PEN_SIZE, Pen, Piece, Sink};

/// A run: `count` digits that are `digit`.
#[derive(Clone, Copy)]
pub(crate) struct Run {
    pub(crate) digit: u8,
    pub(crate) count: u16,
    ghost one: { digit < 16 },
    ghost few: { count ≤ 419 },
}

/// Returns a run without a digit.
pub(crate) fn no_run() -> Run
    ensures digit { result.digit ≡ 0 }
    ensures count { result.count ≡ 0 }
{
    Run { digit: 0, count: 0 }
}

// Returns the character of a digit.
fn character(digit: u8) -> u8
    requires { digit < 16 }
    ensures { result ≡ digit_text digit }
{
    if digit < 10 { b'0' + digit } else { 55 + digit }
}

// Appends the letter that stands for the whole twenties of a count, if it has any.
fn push_twenties(piece: &mut Piece<PEN_SIZE>, count: u16)
    requires room { length piece.old + 1 ≤ 1200 }
    requires few { count ≤ 419 }
    ensures items { piece.new ≡ piece.old ++ twenties_text count }
    ensures len { length piece.new ≤ length piece.old + 1 }
{
    if count < 20 {
        return;
    }
    piece.push(102 + (count / 20) as u8);
}

// Appends the letter that stands for the rest of a count, if it is not 0.
fn push_ones(piece: &mut Piece<PEN_SIZE>, count: u16)
    requires room { length piece.old + 1 ≤ 1200 }
    ensures items { piece.new ≡ piece.old ++ ones_text count }
    ensures len { length piece.new ≤ length piece.old + 1 }
{
    if count % 20 == 0 {
        return;
    }
    piece.push(70 + (count % 20) as u8);
}

// Appends a run.
fn push_run(piece: &mut Piece<PEN_SIZE>, run: Run)
    requires { length piece.old + 3 ≤ 1200 }
    ensures items { piece.new ≡ piece.old ++ run_text run.digit run.count }
    ensures len { length piece.new ≤ length piece.old + 3 }
{
    let digit = character(run.digit);
    if run.count == 0 {
        return;
    }
    if run.count == 1 {
        piece.push(digit);
        return;
    }
    if run.count == 2 {
        piece.push_all(&[digit, digit]);
        return;
    }
    push_twenties(piece, run.count);
    push_ones(piece, run.count);
    piece.push(digit);
}

/// Writes a run.
pub(crate) fn put_run<W: Sink>(pen: &mut Pen, out: &mut W, run: Run) -> Result<(), DrawFault>
    ensures { Puts (W.device out.old) (W.device out.new) pen.old pen.new (run_text run.digit run.count) result }
{
    pen.reserve(out, 3)?;
    push_run(&mut pen.piece, run);
    Ok(())
}

// Returns whether the digit belongs to the run.
fn goes_on(run: Run, digit: u8) -> bool
    ensures value { result ≡ (nat_lt run.count 419 && digit == run.digit) }
    ensures room { result ≡ true → run.count < 419 }
{
    run.count < 419 && digit == run.digit
}

// Appends a digit to the run. If it does not belong to the run, the run is written, and a new one begins.
fn put_digit<W: Sink>(pen: &mut Pen, out: &mut W, run: &mut Run, digit: u8) -> Result<(), DrawFault>
    requires { digit < 16 }
    ensures { PutsDigits (W.device out.old) (W.device out.new) pen.old pen.new run.old.digit run.old.count run.new.digit run.new.count (digit ∷ []) result }
{
    let last = *run;
    if goes_on(last, digit) {
        *run = Run {
            digit: last.digit,
            count: last.count + 1,
        };
        return Ok(());
    }
    put_run(pen, out, last)?;
    *run = Run { digit, count: 1 };
    Ok(())
}

/// Appends the two digits of a byte to the run.
pub(crate) fn put_byte<W: Sink>(
    pen: &mut Pen,
    out: &mut W,
    run: &mut Run,
    byte: u8,
) -> Result<(), DrawFault>
    ensures { PutsDigits (W.device out.old) (W.device out.new) pen.old pen.new run.old.digit run.old.count run.new.digit run.new.count (byte / 16 ∷ byte % 16 ∷ []) result }
{
    put_digit(pen, out, run, byte / 16)?;
    put_digit(pen, out, run, byte % 16)
}
