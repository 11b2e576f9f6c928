//! The call that writes squares of modules as a PDF document in two colours (ISO/IEC 18004:2015, 6.3.8).

ghost use Rattle.std.specs.Prelude.{◌≡◌, ◌≢◌, ◌*◌, ◌/◌, ◌%◌, ◌==◌, ◌<◌, ◌≤◌, ◌↔◌, ◌⊎◌, if◌then◌else◌, length, None, Some, SomeIff};
ghost use Rattle.qrproved.specs.Drawing.{HoldsText};
ghost use Rattle.qrproved.specs.Pdf.{ArePdfSettings, LacksPdfModules, LacksPdfRoom, pdf_of_bytes, settings_of};

use crate::document::{DocumentNumbers, document};
use crate::modules::area;
use crate::settings::between;
use crate::status::{DONE, MEMORY, ROOM, SETTINGS};
use qr_documents::{Colours, Document, DocumentSettings};
use std::alloc::Global;

// The two colours of a caller, as 0xRRGGBBAA.
#[derive(Clone, Copy)]
struct Pair {
    dark: u32,
    light: u32,
}

// Returns the colours, if the dark one is opaque, and the light one is opaque or not drawn.
fn colours_of(pair: Pair) -> Option<Colours>
    ensures { SomeIff result ((pair.dark % 256 ≡ 255) × ((pair.light % 256 ≡ 0) ⊎ (pair.light % 256 ≡ 255)))
        (record { dark = pair.dark / 256; light = if pair.light % 256 == 0 then None else Some (pair.light / 256) }) }
{
    if pair.dark % 256 != 255 {
        return None;
    }
    let light = match pair.light % 256 {
        0 => None,
        255 => Some(pair.light / 256),
        _ => return None,
    };
    Some(Colours {
        dark: pair.dark / 256,
        light,
    })
}

fn pdf_numbers_of(
    side: u32,
    count: u32,
    margin: u32,
    micrometres: u32,
    pair: Pair,
) -> Option<DocumentNumbers>
    ensures { SomeIff result (ArePdfSettings side count margin micrometres pair.dark pair.light)
        (record { side = side; count = count; settings = settings_of margin micrometres pair.dark pair.light }) }
{
    let side = between(side, 1, 177)?;
    let count = between(count, 1, 16)?;
    let margin = between(margin, 0, 100)?;
    if micrometres < 1 || micrometres > 1_000_000 {
        return None;
    }
    let colours = colours_of(pair)?;
    Some(DocumentNumbers {
        side,
        count,
        settings: DocumentSettings {
            format: Document::Pdf,
            margin,
            micrometres,
            colours: Some(colours),
        },
    })
}

/// Writes `count` squares of modules as a PDF document in two colours to `text` (ISO/IEC 18004:2015, 6.3.8). The squares
/// have `side` rows, and need not be symbols. `modules` begins with their modules, one square after the other and row by
/// row. A module is light if it is 0, and otherwise dark. Each square has a page of its own, with `margin` light modules on
/// each side, and `micrometres` is the width of a module. `dark` and `light` are colours 0xRRGGBBAA: red, green and blue,
/// and 0xFF. If the last byte of `light` is 0x00, light modules and the margin are not drawn.
///
/// On status 0 `text` begins with the document, and `written` is its length in bytes.
///
/// # Errors
///
/// The first of these that applies: `SETTINGS` (`side` is not 1 to 177, `count` not 1 to 16, `margin` more than 100,
/// `micrometres` not 1 to 1,000,000, the last byte of `dark` not 0xFF, or that of `light` neither 0xFF nor 0x00), `ROOM`
/// with `written` 0 (`modules` is too short), and `ROOM` with the document's length in `written` (`text` is too short).
/// `MEMORY` if memory is refused. `SETTINGS` and the first `ROOM` are found before memory is requested.
#[unsafe(no_mangle)]
pub extern "C" fn qrproved_pdf(
    alloc: Global,
    modules: &[u8],
    side: u32,
    count: u32,
    margin: u32,
    micrometres: u32,
    dark: u32,
    light: u32,
    text: &mut [u8],
    written: &mut usize,
) -> u8
    ensures done { result ≡ DONE → (ArePdfSettings side count margin micrometres dark light)
        × (count * (side * side) ≤ length modules.now)
        × HoldsText (pdf_of_bytes side count margin micrometres dark light modules.now) text.old text.new written.new }
    ensures unchanged { result ≢ DONE → text.new ≡ text.old }
    ensures settings { (result ≡ SETTINGS) ↔ (ArePdfSettings side count margin micrometres dark light → ⊥) }
    ensures room { (result ≡ ROOM) ↔ ((LacksPdfModules modules.now side count margin micrometres dark light)
        ⊎ ((result ≢ MEMORY) × LacksPdfRoom modules.now side count margin micrometres dark light text.old)) }
    ensures few { LacksPdfModules modules.now side count margin micrometres dark light → written.new ≡ 0 }
    ensures needed { result ≡ ROOM → LacksPdfRoom modules.now side count margin micrometres dark light text.old
        → written.new ≡ length (pdf_of_bytes side count margin micrometres dark light modules.now) }
    ensures written { (result ≡ SETTINGS) ⊎ (result ≡ MEMORY) → written.new ≡ written.old }
    ensures status { (result ≡ DONE) ⊎ (result ≡ MEMORY) ⊎ (result ≡ SETTINGS) ⊎ (result ≡ ROOM) }
{
    let pair = Pair { dark, light };
    let Some(asked) = pdf_numbers_of(side, count, margin, micrometres, pair) else {
        return SETTINGS;
    };
    if modules.len() < usize::from(asked.count) * area(asked.side) {
        *written = 0;
        return ROOM;
    }
    let Ok(document) = document(alloc, modules, asked) else {
        return MEMORY;
    };
    let len = document.len();
    *written = len;
    if text.len() < len {
        return ROOM;
    }
    text[..len].copy_from_slice(&document);
    DONE
}
