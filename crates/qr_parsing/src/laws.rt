//! Laws of parsing. The contract of a function with an empty body is the law. The contract of a function with code says
//! what this code returns.

ghost use Rattle.std.specs.Prelude.{◌≡◌};
ghost use Rattle.qr_parsing.specs.Laws.{DrawingsAreOne, SeriesAreDrawings, SymbolsAreDrawings};

use crate::parsing::DrawingFault;

/// A text is the drawing of at most one type, one margin and one list of squares that `parse_drawing` can return.
pub fn drawings_are_one()
    ensures { DrawingsAreOne }
{}

/// `parse_drawing` accepts each drawing of the symbol or the series of an input, if the margin has at most 255 modules.
/// By `drawings_are_one` it then returns the squares that were drawn.
pub fn drawings_read_back()
    ensures symbol { SymbolsAreDrawings }
    ensures series { SeriesAreDrawings }
{}

/// Returns the number of a fault: 1 for `NotADrawing`, 2 for `Memory`.
pub fn drawing_fault_numbers(fault: DrawingFault) -> u8
    ensures not_a_drawing { fault ≡ DrawingFault.NotADrawing → result ≡ 1 }
    ensures memory { fault ≡ DrawingFault.Memory → result ≡ 2 }
{
    fault as u8
}
