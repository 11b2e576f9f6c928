//! The call that writes squares of modules as labels on sheets of label paper (ISO/IEC 18004:2015, 6.3.8).

ghost use Rattle.std.specs.Prelude.{◌≡◌, ◌≢◌, ◌+◌, ◌-◌, ◌*◌, ◌<◌, ◌≤◌, ◌↔◌, ◌⊎◌, length, true, IfOk, SomeIff};
ghost use Rattle.qr_documents.specs.Sheets.{FitsSheet, IsSheet, sheets_document};
ghost use Rattle.qrproved.specs.Drawing.{HoldsText, squares_of_bytes};
ghost use Rattle.qrproved.specs.Sheets.{AreSheetSettings, LacksSheetModules, LacksSheetRoom, settings_of, sheet_of, sheets_of_bytes};

use crate::drawing::{squares_of, without_bound};
use crate::modules::area;
use crate::settings::between;
use crate::status::{DONE, MEMORY, ROOM, SETTINGS};
use qr_devices::Counted;
use qr_documents::{Sheet, SheetSettings, write_sheets};
use std::alloc::{AllocError, Global};

/// Label paper. All lengths are in micrometres.
#[repr(C)]
#[derive(Clone, Copy)]
pub struct QrprovedSheet {
    /// The width of the paper.
    pub width: u32,
    /// The height of the paper.
    pub height: u32,
    /// How far the first place is from the left edge of the paper.
    pub left: u32,
    /// How far the first place is from the upper edge of the paper.
    pub top: u32,
    /// How far it is from a place to the next one in its row.
    pub across: u32,
    /// How far it is from a place to the next one in its column.
    pub down: u32,
    /// The number of columns of places.
    pub columns: u32,
    /// The number of rows of places.
    pub rows: u32,
    /// How many places of the first sheet stay free.
    pub first: u32,
}

// The numbers of a caller, after they were checked.
#[derive(Clone, Copy)]
struct SheetNumbers {
    // The number of rows and columns of each square.
    side: u8,
    count: u16,
    settings: SheetSettings,
}

// Returns whether labels that are `size` wide fit all `number` places of a row, and none covers another. `all` is the
// width of the paper. For a column these are heights.
fn fits(first: u32, number: u8, step: u32, size: u64, all: u32) -> bool
    requires some { 1 ≤ number }
    requires small { size ≤ 1000000000 }
    ensures { (result ≡ true) ↔ ((first + (number - 1) * step + size ≤ all) × (1 < number → size ≤ step)) }
{
    let last = u64::from(first) + u64::from(number - 1) * u64::from(step);
    last + size <= u64::from(all) && (number == 1 || size <= u64::from(step))
}

fn sheet_of(asked: &QrprovedSheet, size: u64) -> Option<Sheet>
    requires { size ≤ 1000000000 }
    ensures { SomeIff result (IsSheet (sheet_of asked.now) × FitsSheet (sheet_of asked.now) size) (sheet_of asked.now) }
{
    let columns = between(asked.columns, 1, 100)?;
    let rows = between(asked.rows, 1, 100)?;
    if asked.width > 2_000_000
        || asked.height > 2_000_000
        || asked.first >= u32::from(columns) * u32::from(rows)
    {
        return None;
    }
    if !fits(asked.left, columns, asked.across, size, asked.width)
        || !fits(asked.top, rows, asked.down, size, asked.height)
    {
        return None;
    }
    Some(Sheet {
        width: asked.width,
        height: asked.height,
        left: asked.left,
        top: asked.top,
        across: asked.across,
        down: asked.down,
        columns,
        rows,
        first: asked.first as u16,
    })
}

fn sheet_numbers_of(
    side: u32,
    count: u32,
    margin: u32,
    micrometres: u32,
    sheet: &QrprovedSheet,
) -> Option<SheetNumbers>
    ensures { SomeIff result (AreSheetSettings side count margin micrometres sheet.now)
        (record { side = side; count = count; settings = settings_of margin micrometres sheet.now }) }
{
    let side = between(side, 1, 177)?;
    let margin = between(margin, 0, 100)?;
    if count < 1 || count > 10_000 || micrometres < 1 || micrometres > 1_000_000 {
        return None;
    }
    let size = (2 * u64::from(margin) + u64::from(side)) * u64::from(micrometres);
    let sheet = sheet_of(sheet, size)?;
    Some(SheetNumbers {
        side,
        count: count as u16,
        settings: SheetSettings {
            margin,
            micrometres,
            sheet,
        },
    })
}

// Writes the document into memory. Each fault of `write_sheets` is then lack of memory, because the writer fails only if
// its `Vec` cannot grow, and otherwise accepts all bytes.
fn sheets(alloc: Global, modules: &[u8], asked: SheetNumbers) -> Result<Vec<u8>, AllocError>
    requires least { 1 ≤ asked.side }
    requires most { asked.side ≤ 177 }
    requires some { 1 ≤ asked.count }
    requires few { asked.count ≤ 10000 }
    requires small { 1 ≤ asked.settings.micrometres }
    requires large { asked.settings.micrometres ≤ 1000000 }
    requires sheet { IsSheet asked.settings.sheet }
    requires fits { FitsSheet asked.settings.sheet ((2 * asked.settings.margin + asked.side) * asked.settings.micrometres) }
    requires room { asked.count * (asked.side * asked.side) ≤ length modules.now }
    ensures { IfOk result (λ text. text.items
        ≡ sheets_document asked.settings (squares_of_bytes asked.side asked.count modules.now)) }
{
    let squares = squares_of(alloc, modules, asked.side, asked.count)?;
    let mut text = Counted::new(without_bound(alloc));
    match write_sheets(&squares, &asked.settings, &mut text) {
        Ok(()) => Ok(text.into_inner().bytes),
        Err(_) => Err(AllocError),
    }
}

/// Writes `count` squares of modules as labels on sheets of label paper to `text`, as a PDF document in which each page
/// is as large as the paper (ISO/IEC 18004:2015, 6.3.8). The squares have `side` rows, and need not be symbols.
/// `modules` begins with their modules, one square after the other and row by row. A module is light if it is 0, and
/// otherwise dark. `margin` is the number of light modules on each side of a square, and `micrometres` is the width of
/// a module. The first `first` places of the paper stay free. Then each place has the next square, row by row from the
/// upper left, with the upper left corner of its margin in that of the place.
///
/// On status 0 `text` begins with the document, and `written` is its length in bytes.
///
/// # Errors
///
/// The first of these that applies: `SETTINGS` (`side` is not 1 to 177, `count` not 1 to 10,000, `margin` more than 100,
/// `micrometres` not 1 to 1,000,000, the paper wider or higher than 2,000,000 micrometres, `columns` or `rows` not 1 to
/// 100, `first` not less than `columns * rows`, a square with its margin not wholly on the paper in some place, or wider
/// than `across` with more than one column, or higher than `down` with more than one row), `ROOM` with `written` 0
/// (`modules` is too short), and `ROOM` with the document's length in `written` (`text` is too short). `MEMORY` if
/// memory is refused. `SETTINGS` and the first `ROOM` are found before memory is requested.
#[unsafe(no_mangle)]
pub extern "C" fn qrproved_sheets(
    alloc: Global,
    modules: &[u8],
    side: u32,
    count: u32,
    margin: u32,
    micrometres: u32,
    sheet: &QrprovedSheet,
    text: &mut [u8],
    written: &mut usize,
) -> u8
    ensures done { result ≡ DONE → (AreSheetSettings side count margin micrometres sheet.now)
        × (count * (side * side) ≤ length modules.now)
        × HoldsText (sheets_of_bytes side count margin micrometres sheet.now modules.now) text.old text.new written.new }
    ensures unchanged { result ≢ DONE → text.new ≡ text.old }
    ensures settings { (result ≡ SETTINGS) ↔ (AreSheetSettings side count margin micrometres sheet.now → ⊥) }
    ensures room { (result ≡ ROOM) ↔ ((LacksSheetModules modules.now side count margin micrometres sheet.now)
        ⊎ ((result ≢ MEMORY) × LacksSheetRoom modules.now side count margin micrometres sheet.now text.old)) }
    ensures few { LacksSheetModules modules.now side count margin micrometres sheet.now → written.new ≡ 0 }
    ensures needed { result ≡ ROOM → LacksSheetRoom modules.now side count margin micrometres sheet.now text.old
        → written.new ≡ length (sheets_of_bytes side count margin micrometres sheet.now modules.now) }
    ensures written { (result ≡ SETTINGS) ⊎ (result ≡ MEMORY) → written.new ≡ written.old }
    ensures status { (result ≡ DONE) ⊎ (result ≡ MEMORY) ⊎ (result ≡ SETTINGS) ⊎ (result ≡ ROOM) }
{
    let Some(asked) = sheet_numbers_of(side, count, margin, micrometres, sheet) else {
        return SETTINGS;
    };
    if modules.len() < usize::from(asked.count) * area(asked.side) {
        *written = 0;
        return ROOM;
    }
    let Ok(document) = sheets(alloc, modules, asked) else {
        return MEMORY;
    };
    let len = document.len();
    *written = len;
    if text.len() < len {
        return ROOM;
    }
    text[..len].copy_from_slice(&document);
    DONE
}
