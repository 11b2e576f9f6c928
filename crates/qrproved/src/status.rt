//! The statuses that calls return. Each number means the same in all calls.

ghost use Rattle.std.specs.Prelude.{◌≡◌};
ghost use Rattle.qrproved.specs.Steps.Status.{drawing_status, encode_status, read_status};

use qr_parsing::DrawingFault;
use qr_symbol::{EncodeFault, ReadFault};

/// The whole result is written.
pub(crate) const DONE: u8 = 0;

/// The input is empty.
pub(crate) const EMPTY: u8 = 1;

/// The input fits no allowed version.
pub(crate) const TOO_LONG: u8 = 2;

/// The input takes more than 16 symbols of the version.
pub(crate) const TOO_MANY: u8 = 3;

/// Memory was refused.
pub(crate) const MEMORY: u8 = 4;

/// A number is out of range, or kanji mode is allowed with an ECI that is not the one of Shift JIS (in `qrproved_room`:
/// asked for with such an ECI). In `qrproved_mend`: a module is more than 2.
pub(crate) const SETTINGS: u8 = 5;

/// A buffer is too short.
pub(crate) const ROOM: u8 = 6;

/// No version has this side.
pub(crate) const SIDE: u8 = 7;

/// The format information belongs to no level and mask. In `qrproved_mend`: whatever level and mask are tried, each
/// copy of the format information has more than three misread modules. Two modules that are not known count as one
/// misread module.
pub(crate) const FORMAT: u8 = 8;

/// A block does not match its error correction codewords. In `qrproved_mend`: a block is damaged too much.
pub(crate) const CHECK: u8 = 9;

/// The data codewords cannot be parsed.
pub(crate) const SEGMENTS: u8 = 10;

/// The text is no drawing of squares that begin as symbols do: with a dark module in row 0 and column 0, and a light
/// one in row 0 and column 7.
pub(crate) const NO_DRAWING: u8 = 11;

/// The input is no GS1 data: a separator of fields comes directly before another or before `%`.
pub(crate) const FIELDS: u8 = 12;

/// The input fits, but no symbol of it may have the logo.
pub(crate) const LOGO: u8 = 13;

pub(crate) fn encode_status(fault: EncodeFault) -> u8
    ensures { result ≡ encode_status fault }
{
    match fault {
        EncodeFault::Empty => EMPTY,
        EncodeFault::TooLong => TOO_LONG,
        EncodeFault::TooMany => TOO_MANY,
        EncodeFault::Memory => MEMORY,
    }
}

// The fault `Series` never occurs here. Only `join`, `read_series` and `mend_series`, the functions for whole series,
// return it, and no call uses them.
pub(crate) fn read_status(fault: ReadFault) -> u8
    ensures { result ≡ read_status fault }
{
    match fault {
        ReadFault::Memory => MEMORY,
        ReadFault::Side => SIDE,
        ReadFault::Format => FORMAT,
        ReadFault::Check => CHECK,
        ReadFault::Segments(_) | ReadFault::Series => SEGMENTS,
    }
}

pub(crate) fn drawing_status(fault: DrawingFault) -> u8
    ensures { result ≡ drawing_status fault }
{
    match fault {
        DrawingFault::NotADrawing => NO_DRAWING,
        DrawingFault::Memory => MEMORY,
    }
}
