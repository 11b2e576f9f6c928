//! The call that writes squares of modules as a document for print (ISO/IEC 18004:2015, 6.3.8).

ghost use Rattle.std.specs.Prelude.{◌≡◌, ◌≢◌, ◌*◌, ◌<◌, ◌≤◌, ◌↔◌, ◌⊎◌, length, IfOk, SomeIff};
ghost use Rattle.qr_documents.specs.Document.{document};
ghost use Rattle.qrproved.specs.Document.{AreDocumentSettings, LacksDocumentModules, LacksDocumentRoom, document_of_bytes, format_of};
ghost use Rattle.qrproved.specs.Drawing.{HoldsText, squares_of_bytes};

use crate::drawing::{squares_of, without_bound};
use crate::modules::area;
use crate::settings::between;
use crate::status::{DONE, MEMORY, ROOM, SETTINGS};
use qr_devices::Counted;
use qr_documents::{Document, DocumentSettings, write_document};
use std::alloc::{AllocError, Global};

/// The numbers of a caller, after they were checked.
#[derive(Clone, Copy)]
pub(crate) struct DocumentNumbers {
    /// The number of rows and columns of each square.
    pub(crate) side: u8,
    pub(crate) count: u8,
    pub(crate) settings: DocumentSettings,
}

fn format_of(number: u32) -> Option<Document>
    ensures { SomeIff result (number < 3) (format_of number) }
{
    match number {
        0 => Some(Document::Svg),
        1 => Some(Document::Eps),
        2 => Some(Document::Pdf),
        _ => None,
    }
}

fn document_numbers_of(
    side: u32,
    count: u32,
    format: u32,
    margin: u32,
    micrometres: u32,
) -> Option<DocumentNumbers>
    ensures { SomeIff result (AreDocumentSettings side count format margin micrometres)
        (record {
          side = side;
          count = count;
          settings = record { format = format_of format; margin = margin; micrometres = micrometres; colours = None };
        }) }
{
    let side = between(side, 1, 177)?;
    let count = between(count, 1, 16)?;
    let format = format_of(format)?;
    let margin = between(margin, 0, 100)?;
    if micrometres < 1 || micrometres > 1_000_000 {
        return None;
    }
    Some(DocumentNumbers {
        side,
        count,
        settings: DocumentSettings {
            format,
            margin,
            micrometres,
            colours: None,
        },
    })
}

/// Writes the document into memory. Each fault of `write_document` is then lack of memory, because the writer fails only
/// if its `Vec` cannot grow, and otherwise accepts all bytes.
pub(crate) fn document(
    alloc: Global,
    modules: &[u8],
    asked: DocumentNumbers,
) -> Result<Vec<u8>, AllocError>
    requires least { 1 ≤ asked.side }
    requires most { asked.side ≤ 177 }
    requires some { 1 ≤ asked.count }
    requires few { asked.count ≤ 16 }
    requires small { 1 ≤ asked.settings.micrometres }
    requires large { asked.settings.micrometres ≤ 1000000 }
    requires room { asked.count * (asked.side * asked.side) ≤ length modules.now }
    ensures { IfOk result (λ text. text.items
        ≡ document asked.settings (squares_of_bytes asked.side asked.count modules.now)) }
{
    let squares = squares_of(alloc, modules, asked.side, u16::from(asked.count))?;
    let mut text = Counted::new(without_bound(alloc));
    match write_document(&squares, &asked.settings, &mut text) {
        Ok(()) => Ok(text.into_inner().bytes),
        Err(_) => Err(AllocError),
    }
}

/// Writes `count` squares of modules as a document for print to `text` (ISO/IEC 18004:2015, 6.3.8). The squares have
/// `side` rows, and need not be symbols. `modules` begins with their modules, one square after the other and row by
/// row. A module is light if it is 0, and otherwise dark. `format` is 0 to 2 for SVG with a size in millimetres, EPS
/// and PDF, `margin` is the number of light modules on each side of a square, and `micrometres` is the width of a
/// module. In SVG and EPS the squares are one below the other, and in PDF each has a page of its own. The document is
/// black on white.
///
/// On status 0 `text` begins with the document, and `written` is its length in bytes.
///
/// # Errors
///
/// The first of these that applies: `SETTINGS` (`side` is not 1 to 177, `count` not 1 to 16, `format` more than 2,
/// `margin` more than 100 or `micrometres` not 1 to 1,000,000), `ROOM` with `written` 0 (`modules` is too short), and
/// `ROOM` with the document's length in `written` (`text` is too short). `MEMORY` if memory is refused. `SETTINGS` and
/// the first `ROOM` are found before memory is requested.
#[unsafe(no_mangle)]
pub extern "C" fn qrproved_document(
    alloc: Global,
    modules: &[u8],
    side: u32,
    count: u32,
    format: u32,
    margin: u32,
    micrometres: u32,
    text: &mut [u8],
    written: &mut usize,
) -> u8
    ensures done { result ≡ DONE → (AreDocumentSettings side count format margin micrometres)
        × (count * (side * side) ≤ length modules.now)
        × HoldsText (document_of_bytes side count format margin micrometres modules.now) text.old text.new written.new }
    ensures unchanged { result ≢ DONE → text.new ≡ text.old }
    ensures settings { (result ≡ SETTINGS) ↔ (AreDocumentSettings side count format margin micrometres → ⊥) }
    ensures room { (result ≡ ROOM) ↔ ((LacksDocumentModules modules.now side count format margin micrometres)
        ⊎ ((result ≢ MEMORY) × LacksDocumentRoom modules.now side count format margin micrometres text.old)) }
    ensures few { LacksDocumentModules modules.now side count format margin micrometres → written.new ≡ 0 }
    ensures needed { result ≡ ROOM → LacksDocumentRoom modules.now side count format margin micrometres text.old
        → written.new ≡ length (document_of_bytes side count format margin micrometres modules.now) }
    ensures written { (result ≡ SETTINGS) ⊎ (result ≡ MEMORY) → written.new ≡ written.old }
    ensures status { (result ≡ DONE) ⊎ (result ≡ MEMORY) ⊎ (result ≡ SETTINGS) ⊎ (result ≡ ROOM) }
{
    let Some(asked) = document_numbers_of(side, count, format, margin, micrometres) else {
        return SETTINGS;
    };
    if modules.len() < usize::from(asked.count) * area(asked.side) {
        *written = 0;
        return ROOM;
    }
    let Ok(document) = document(alloc, modules, asked) else {
        return MEMORY;
    };
    let len = document.len();
    *written = len;
    if text.len() < len {
        return ROOM;
    }
    text[..len].copy_from_slice(&document);
    DONE
}
