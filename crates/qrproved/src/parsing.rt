//! The call that parses a drawing.

ghost use Rattle.std.specs.Prelude.{◌≡◌, ◌≢◌, ◌<◌, ◌↔◌, ◌⊎◌};
ghost use Rattle.qr_parsing.specs.Parsing.{IsNoDrawing};
ghost use Rattle.qrproved.specs.Drawing.{drawing_of};
ghost use Rattle.qrproved.specs.Parsing.{HasMoreModules, IsGivenDrawing};

use crate::modules::{area, write_squares};
use crate::status::{DONE, MEMORY, NO_DRAWING, ROOM, drawing_status};
use qr_drawing::Drawing;
use qr_parsing::laws::drawings_are_one;
use qr_parsing::parse_drawing;
use std::alloc::Global;

/// The numbers that `qrproved_parse_drawing` returns with the modules of a drawing.
#[repr(C)]
#[derive(Clone, Copy)]
pub struct QrprovedDrawn {
    /// The type, 0 to 3 for ASCII, ASCIIi, UTF8 and SVG.
    pub drawing: u8,
    /// The number of light modules on each side of a square, 0 to 255.
    pub margin: u8,
    /// The number of squares, 1 to 16.
    pub count: u8,
    /// The number of rows and columns of each square, 8 to 177.
    pub side: u8,
}

fn number_of_drawing(drawing: Drawing) -> u8
    ensures small { result < 4 }
    ensures number { drawing_of result ≡ drawing }
{
    match drawing {
        Drawing::Ascii => 0,
        Drawing::AsciiInverse => 1,
        Drawing::Utf8 => 2,
        Drawing::Svg => 3,
    }
}

/// Parses the drawing `text`, and writes the modules of its squares to `modules`, one square after the other and row by
/// row: 1 for a dark module, and 0 for a light one. The call accepts the drawings of 1 to 16 squares with a margin of 0
/// to 255 modules, and no other text. All squares have the same side, which is 8 to 177, and each begins as every
/// symbol does: the module in row 0 and column 0 is dark, and the one in row 0 and column 7 is light. So the call
/// accepts every drawing of symbols that `qrproved_draw` or the command makes. `qrproved_read` finds out whether such a
/// square is a symbol.
///
/// On status 0 the squares are in `modules`, and `drawn` has their number, their side, the type and the margin. `text`
/// is the drawing of these squares with this type and this margin, and of no others.
///
/// # Errors
///
/// The first of these that applies: `NO_DRAWING` (`text` is no such drawing) and `ROOM` (`modules` is too short).
/// `MEMORY` if memory is refused.
#[unsafe(no_mangle)]
pub extern "C" fn qrproved_parse_drawing(
    alloc: Global,
    text: &[u8],
    modules: &mut [u8],
    drawn: &mut QrprovedDrawn,
) -> u8
    ensures done { result ≡ DONE → IsGivenDrawing text.now modules.old modules.new drawn.new }
    ensures unchanged { result ≢ DONE → (modules.new ≡ modules.old) × (drawn.new ≡ drawn.old) }
    ensures no_drawing { (result ≡ NO_DRAWING) ↔ ((result ≢ MEMORY) × IsNoDrawing text.now) }
    ensures room { (result ≡ ROOM) ↔ ((result ≢ MEMORY) × HasMoreModules text.now modules.old) }
    ensures status { (result ≡ DONE) ⊎ (result ≡ MEMORY) ⊎ (result ≡ ROOM) ⊎ (result ≡ NO_DRAWING) }
{
    // A law, which is called for the prover.
    drawings_are_one();
    match parse_drawing(alloc, text) {
        Err(fault) => drawing_status(fault),
        Ok(found) => {
            let count = found.squares.len();
            let side = found.squares[0].side();
            if modules.len() < count * area(side) {
                return ROOM;
            }
            write_squares(&found.squares, side, modules);
            drawn.drawing = number_of_drawing(found.kind);
            drawn.margin = found.margin;
            drawn.count = count as u8;
            drawn.side = side;
            DONE
        }
    }
}
