//! Laws of scanning. The contract of each function is the law. Where a function has code, the law is about what this code
//! returns.

ghost use Rattle.std.specs.Prelude.{IfOk};
ghost use Rattle.qr_scanning.specs.Laws.{FindsInput, SymbolsAreReadable};

use crate::scanning::{Scanned, scan};
use qr_layout::Version;
use qr_mending::laws::{readings_are_mended_readings, sound_squares_are_symbols};
use qr_sampling::Picture;
use std::alloc::{AllocError, Global};

/// A symbol as `encode` of `qr_symbol` makes it counts as a symbol: it is mended, and none of its modules is wrong.
pub fn symbols_are_readable(version: Version)
    ensures { SymbolsAreReadable version }
{
    readings_are_mended_readings();
    sound_squares_are_symbols();
}

/// From the pixels of a picture to the bytes of the input. If the picture is the drawing of a symbol as `encode` of
/// `qr_symbol` makes it, and nothing else, `scan` finds exactly this symbol. Reading the modules that it returns yields the
/// bytes of the input, the interpretation, the segments of fewest bits, and the structured append header, if the symbol has
/// one.
pub fn drawn_symbols_are_read(
    alloc: Global,
    version: Version,
    picture: &Picture,
) -> Result<Vec<Scanned>, AllocError>
    ensures { IfOk result (λ found. FindsInput version picture.now found.items) }
{
    symbols_are_readable(version);
    scan(alloc, picture, 1, false)
}
