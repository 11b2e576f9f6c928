//! Parses a drawing in two steps. The first step guesses the type, the margin and the squares of the only drawing that
//! the text can be. The second step draws what was guessed, and compares the result with the text.

ghost use Rattle.std.specs.Prelude.{◌≡◌, ◌<◌, ◌≤◌, ◌⊎◌, ℕ, List, [], length, IfOk, IfErr, MatchOption};
ghost use Rattle.std.specs.Bool.{Decides};
ghost use Rattle.std.specs.List.{All};
ghost use Rattle.std.specs.Vec.{vec_capacity};
ghost use Rattle.qr_matrix.specs.Grid.{IsSquare};
ghost use Rattle.qr_drawing.specs.Drawing.{drawn};
ghost use Rattle.qr_drawing.specs.declared.drawing.Drawing.TheVariants.{Svg, Utf8};
ghost use Rattle.qr_parsing.specs.Parsing.{BeginsAsSymbol, IsDrawingOf, IsNoDrawing};
ghost use Rattle.qr_parsing.specs.Steps.Parsing.{CanBeDrawn, IsGuess};
ghost use Rattle.qr_parsing.specs.Steps.Sheet.{IsSheetOf, kind_in};

use crate::sheet::{COUNT_MAX, MARGIN_MAX, SIDE_MAX, SIDE_MIN, Sheet, margin_of, squares_of};
use crate::svg::{painted_bytes, size_in};
use crate::text::{ascii_sheet, cell_sheet, cells_in, kind_in};
use qr_devices::{Bounded, Counted};
use qr_drawing::{Drawing, draw};
use qr_symbol::Matrix;
use std::alloc::{AllocError, Global};
use thiserror::Error;

/// Why a text is not parsed.
#[derive(Clone, Copy, Debug, Error)]
pub enum DrawingFault {
    /// The text is no drawing of squares of 8 to 177 modules on a side that begin as symbols do: with a dark module in
    /// row 0 and column 0, and a light one in row 0 and column 7.
    #[error("not a drawing of symbols")]
    NotADrawing = 1,
    /// Memory was refused.
    #[error("out of memory")]
    Memory = 2,
}

impl From<AllocError> for DrawingFault {
    ghost use Rattle.std.specs.Prelude.{◌≡◌};
    ghost use Rattle.qr_parsing.specs.declared.parsing.DrawingFault.{DrawingFault};

    ghost from_gives = { λ _ e. e ≡ DrawingFault.Memory };

    fn from(_: AllocError) -> Self {
        DrawingFault::Memory
    }
}

/// What a drawing shows.
#[derive(Drop)]
pub struct Drawn {
    pub kind: Drawing,
    /// The number of light modules on each side of a square.
    pub margin: u8,
    /// The 1 to 16 squares, all with the same side, in the order in which they were drawn.
    pub squares: Vec<Matrix>,
}

// Returns what the sheet shows, if it has 1 to 16 squares of 8 to 177 modules on a side and a margin of at most 255
// modules, and otherwise `None`. In the contract, `text` is a text with this sheet.
fn drawn_of(alloc: Global, sheet: &Sheet) -> Result<Option<Drawn>, AllocError>
    ensures { (text : List ℕ)
        → IsSheetOf sheet.now.kind sheet.now.width sheet.now.count sheet.now.bytes.now text
        → IfOk result (λ found. MatchOption found (IsNoDrawing text) (λ d. IsGuess d.kind d.margin d.squares.items text)) }
{
    let margin = margin_of(sheet);
    if margin > MARGIN_MAX
        || sheet.width < 2 * margin + SIDE_MIN
        || sheet.width - 2 * margin > SIDE_MAX
    {
        return Ok(None);
    }
    if sheet.count == 0 || sheet.count > COUNT_MAX {
        return Ok(None);
    }
    let side = (sheet.width - 2 * margin) as u8;
    let squares = squares_of(alloc, sheet, margin, side)?;
    Ok(Some(Drawn {
        kind: sheet.kind,
        margin: margin as u8,
        squares,
    }))
}

fn guess_ascii(alloc: Global, text: &[u8], kind: Drawing) -> Result<Option<Drawn>, AllocError>
    requires ascii { (kind ≡ Drawing.Ascii) ⊎ (kind ≡ Drawing.AsciiInverse) }
    requires kind { kind ≡ kind_in text.now }
    ensures { IfOk result (λ found. MatchOption found (IsNoDrawing text.now)
        (λ d. IsGuess d.kind d.margin d.squares.items text.now)) }
{
    let Some(sheet) = ascii_sheet(text, kind) else {
        return Ok(None);
    };
    drawn_of(alloc, &sheet)
}

fn guess_half_blocks(alloc: Global, text: &[u8]) -> Result<Option<Drawn>, AllocError>
    requires { kind_in text.now ≡ Utf8 }
    ensures { IfOk result (λ found. MatchOption found (IsNoDrawing text.now)
        (λ d. IsGuess d.kind d.margin d.squares.items text.now)) }
{
    let cells = cells_in(alloc, text)?;
    let Some(sheet) = cell_sheet(&cells) else {
        return Ok(None);
    };
    drawn_of(alloc, &sheet)
}

fn guess_document(alloc: Global, text: &[u8]) -> Result<Option<Drawn>, AllocError>
    requires { kind_in text.now ≡ Svg }
    ensures { IfOk result (λ found. MatchOption found (IsNoDrawing text.now)
        (λ d. IsGuess d.kind d.margin d.squares.items text.now)) }
{
    let Some(size) = size_in(text) else {
        return Ok(None);
    };
    let bytes = painted_bytes(alloc, size.width, size.height, text)?;
    let sheet = Sheet {
        kind: Drawing::Svg,
        width: size.width,
        count: size.count,
        bytes: &bytes,
    };
    drawn_of(alloc, &sheet)
}

// Returns the only drawing that `text` can be, or `None` if it can be none.
fn guess(alloc: Global, text: &[u8]) -> Result<Option<Drawn>, AllocError>
    ensures { IfOk result (λ found. MatchOption found (IsNoDrawing text.now)
        (λ d. IsGuess d.kind d.margin d.squares.items text.now)) }
{
    match kind_in(text) {
        Drawing::Svg => guess_document(alloc, text),
        Drawing::Utf8 => guess_half_blocks(alloc, text),
        Drawing::Ascii => guess_ascii(alloc, text, Drawing::Ascii),
        Drawing::AsciiInverse => guess_ascii(alloc, text, Drawing::AsciiInverse),
    }
}

fn begins_as_symbol(square: &Matrix) -> bool
    requires { IsSquare square.now.side square.now }
    ensures { Decides result (BeginsAsSymbol square.now) }
{
    square.side() >= 8 && square.dark(0, 0) && !square.dark(0, 7)
}

fn all_begin(squares: &[Matrix]) -> bool
    requires { All (λ g. IsSquare g.side g) squares.now }
    ensures { Decides result (All BeginsAsSymbol squares.now) }
{
    for square in squares {
        if !begins_as_symbol(square) {
            return false;
        }
    }
    true
}

// Returns a writer with room for one byte more than `text` has. It needs no more memory than it has from the start.
fn room_beyond(alloc: Global, text: &[u8]) -> Result<Bounded, AllocError>
    ensures empty { IfOk result (λ out. out.bytes.items ≡ []) }
    ensures more { IfOk result (λ out. length text.now < out.most) }
    ensures capacity { IfOk result (λ out. out.most ≤ vec_capacity out.bytes) }
{
    let most = text.len() + 1;
    let bytes = Vec::with_capacity(alloc, most)?;
    Ok(Bounded { bytes, most })
}

// Draws `shown` again, and returns whether this drawing is `text`. A drawing that fills the writer is longer than
// `text`, and the rest of it is not drawn.
fn is_drawn(alloc: Global, shown: &Drawn, text: &[u8]) -> Result<bool, AllocError>
    requires { CanBeDrawn shown.now.squares.items }
    ensures { IfOk result (λ b. Decides b (text.now ≡ drawn shown.now.kind shown.now.margin shown.now.squares.items)) }
{
    let mut out = Counted::new(room_beyond(alloc, text)?);
    let drawing = draw(&shown.squares, shown.kind, shown.margin, &mut out);
    let again = out.into_inner().bytes;
    match drawing {
        Ok(()) => Ok(text == again.as_slice()),
        Err(_) if again.len() > text.len() => Ok(false),
        // This never happens: `draw` fails only where the room ends, and the room is more than `text` has. But the
        // contract of `draw` does not say why it fails.
        Err(_) => Err(AllocError),
    }
}

fn is_drawing_of(alloc: Global, text: &[u8], shown: &Drawn) -> Result<bool, AllocError>
    requires { CanBeDrawn shown.now.squares.items }
    ensures { IfOk result (λ b. Decides b (IsDrawingOf shown.now.kind shown.now.margin shown.now.squares.items text.now)) }
{
    if !all_begin(&shown.squares) {
        return Ok(false);
    }
    // Only for the prover, which then knows that the margin is at most 255.
    let _margin = shown.margin;
    is_drawn(alloc, shown, text)
}

/// Returns what the drawing `text` shows.
///
/// The function accepts the drawings that `qr_drawing::draw` makes, of each type and with a margin of 0 to 255 modules,
/// if they show 1 to 16 squares with the same side, of 8 to 177 modules. As in every symbol, the module at the top left
/// of each square has to be dark, and the one in column 7 of row 0 has to be light (ISO/IEC 18004:2015, 6.3.3, 6.3.4).
/// Such a text is the drawing of only one type, one margin and one list of squares.
///
/// # Errors
///
/// `NotADrawing`, only if `text` is no such drawing. `Memory`, only if memory is refused.
pub fn parse_drawing(alloc: Global, text: &[u8]) -> Result<Drawn, DrawingFault>
    ensures ok { IfOk result (λ d. IsDrawingOf d.kind d.margin d.squares.items text.now) }
    ensures err { IfErr result (λ e. e ≡ DrawingFault.NotADrawing → IsNoDrawing text.now) }
{
    let Some(drawn) = guess(alloc, text)? else {
        return Err(DrawingFault::NotADrawing);
    };
    if is_drawing_of(alloc, text, &drawn)? {
        Ok(drawn)
    } else {
        Err(DrawingFault::NotADrawing)
    }
}
