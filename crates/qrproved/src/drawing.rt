//! The call that draws squares of modules (ISO/IEC 18004:2015, 6.3.8).

ghost use Rattle.std.specs.Prelude.{◌≡◌, ◌≢◌, ◌*◌, ◌<◌, ◌≤◌, ◌↔◌, ◌⊎◌, [], length, IfOk, SomeIff};
ghost use Rattle.qr_drawing.specs.Drawing.{drawn};
ghost use Rattle.qrproved.specs.Drawing.{AreDrawingSettings, HasFewModules, HasNoTextRoom, HoldsText, drawing_of, drawing_of_bytes, squares_of_bytes};

use crate::modules::area;
use crate::settings::between;
use crate::status::{DONE, MEMORY, ROOM, SETTINGS};
use qr_devices::{Bounded, Counted};
use qr_drawing::{Drawing, draw};
use qr_matrix::{Matrix, matrix_of_bytes};
use std::alloc::{AllocError, Global};

// The numbers of a caller, after they were checked.
#[derive(Clone, Copy)]
struct DrawingSettings {
    // The number of rows and columns of each square.
    side: u8,
    count: u8,
    drawing: Drawing,
    // The number of light modules on each side of a square.
    margin: u8,
}

fn drawing_of(number: u32) -> Option<Drawing>
    ensures { SomeIff result (number < 4) (drawing_of number) }
{
    match number {
        0 => Some(Drawing::Ascii),
        1 => Some(Drawing::AsciiInverse),
        2 => Some(Drawing::Utf8),
        3 => Some(Drawing::Svg),
        _ => None,
    }
}

fn drawing_settings_of(side: u32, count: u32, drawing: u32, margin: u32) -> Option<DrawingSettings>
    ensures { SomeIff result (AreDrawingSettings side count drawing margin)
        (record { side = side; count = count; drawing = drawing_of drawing; margin = margin }) }
{
    Some(DrawingSettings {
        side: between(side, 1, 177)?,
        count: between(count, 1, 16)?,
        drawing: drawing_of(drawing)?,
        margin: between(margin, 0, 100)?,
    })
}

pub(crate) fn squares_of(
    alloc: Global,
    modules: &[u8],
    side: u8,
    count: u16,
) -> Result<Vec<Matrix>, AllocError>
    requires least { 1 ≤ side }
    requires most { side ≤ 177 }
    requires room { count * (side * side) ≤ length modules.now }
    ensures { IfOk result (λ squares. squares.items ≡ squares_of_bytes side count modules.now) }
{
    let mut squares = Vec::with_capacity(alloc, usize::from(count))?;
    let mut rest = modules;
    for _ in 0..count {
        squares.push(matrix_of_bytes(alloc, rest, side)?)?;
        rest = rest.split_at(area(side)).1;
    }
    Ok(squares)
}

// Returns a writer that accepts as many bytes as a `Vec` can have. It has the same type as in `parse_drawing`, so that
// the library contains the code of `draw` only once.
pub(crate) fn without_bound(alloc: Global) -> Bounded
    ensures empty { result.bytes.items ≡ [] }
    ensures most { result.most ≡ 18446744073709551615 }
{
    Bounded {
        bytes: Vec::new(alloc),
        most: usize::MAX,
    }
}

// Draws the squares into memory. Each fault of `draw` is then lack of memory, because the writer fails only if its
// `Vec` cannot grow, and otherwise accepts all bytes.
fn drawn(alloc: Global, modules: &[u8], asked: DrawingSettings) -> Result<Vec<u8>, AllocError>
    requires least { 1 ≤ asked.side }
    requires most { asked.side ≤ 177 }
    requires some { 1 ≤ asked.count }
    requires few { asked.count ≤ 16 }
    requires room { asked.count * (asked.side * asked.side) ≤ length modules.now }
    ensures { IfOk result (λ text. text.items
        ≡ drawn asked.drawing asked.margin (squares_of_bytes asked.side asked.count modules.now)) }
{
    let squares = squares_of(alloc, modules, asked.side, u16::from(asked.count))?;
    let mut text = Counted::new(without_bound(alloc));
    match draw(&squares, asked.drawing, asked.margin, &mut text) {
        Ok(()) => Ok(text.into_inner().bytes),
        Err(_) => Err(AllocError),
    }
}

/// Draws `count` squares of modules as the command draws symbols, and writes the drawing to `text` (ISO/IEC 18004:2015,
/// 6.3.8). The squares have `side` rows, and need not be symbols. `modules` begins with their modules, one square after
/// the other and row by row. A module is light if it is 0, and otherwise dark. `drawing` is 0 to 3 for ASCII, ASCIIi,
/// UTF8 and SVG, and `margin` is the number of light modules on each side of a square.
///
/// On status 0 `text` begins with the drawing, and `written` is its length in bytes.
///
/// # Errors
///
/// The first of these that applies: `SETTINGS` (`side` is not 1 to 177, `count` not 1 to 16, `drawing` more than 3 or
/// `margin` more than 100), `ROOM` with `written` 0 (`modules` is too short), and `ROOM` with the drawing's length in
/// `written` (`text` is too short). `MEMORY` if memory is refused. `SETTINGS` and the first `ROOM` are found before
/// memory is requested.
#[unsafe(no_mangle)]
pub extern "C" fn qrproved_draw(
    alloc: Global,
    modules: &[u8],
    side: u32,
    count: u32,
    drawing: u32,
    margin: u32,
    text: &mut [u8],
    written: &mut usize,
) -> u8
    ensures done { result ≡ DONE → (AreDrawingSettings side count drawing margin)
        × (count * (side * side) ≤ length modules.now)
        × HoldsText (drawing_of_bytes side count drawing margin modules.now) text.old text.new written.new }
    ensures unchanged { result ≢ DONE → text.new ≡ text.old }
    ensures settings { (result ≡ SETTINGS) ↔ (AreDrawingSettings side count drawing margin → ⊥) }
    ensures room { (result ≡ ROOM) ↔ ((HasFewModules modules.now side count drawing margin)
        ⊎ ((result ≢ MEMORY) × HasNoTextRoom modules.now side count drawing margin text.old)) }
    ensures few { HasFewModules modules.now side count drawing margin → written.new ≡ 0 }
    ensures needed { result ≡ ROOM → HasNoTextRoom modules.now side count drawing margin text.old
        → written.new ≡ length (drawing_of_bytes side count drawing margin modules.now) }
    ensures written { (result ≡ SETTINGS) ⊎ (result ≡ MEMORY) → written.new ≡ written.old }
    ensures status { (result ≡ DONE) ⊎ (result ≡ MEMORY) ⊎ (result ≡ SETTINGS) ⊎ (result ≡ ROOM) }
{
    let Some(asked) = drawing_settings_of(side, count, drawing, margin) else {
        return SETTINGS;
    };
    if modules.len() < usize::from(asked.count) * area(asked.side) {
        *written = 0;
        return ROOM;
    }
    let Ok(drawing) = drawn(alloc, modules, asked) else {
        return MEMORY;
    };
    let len = drawing.len();
    *written = len;
    if text.len() < len {
        return ROOM;
    }
    text[..len].copy_from_slice(&drawing);
    DONE
}
