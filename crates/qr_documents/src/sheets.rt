//! Writes symbols as labels on sheets of label paper. A sheet has places for labels, in columns and rows, and is a page
//! of a PDF document. A label is a symbol with its light margin. Its upper left corner is that of its place.

ghost use Rattle.std.specs.Prelude.{◌≡◌, ◌≤◌, ◌<◌, ◌+◌, ◌-◌, ◌*◌, ◌/◌, ◌++◌, [], max, drop, is_err, length, map, OnOk, OnErr};
ghost use Rattle.std.specs.Io.KnownBytes.{Appends};
ghost use Rattle.std.specs.List.{All};
ghost use Rattle.qr_devices.specs.Device.{AppendsBeginning, IsWrittenWithin, counted, is_write_fault, no_writes};
ghost use Rattle.qr_devices.specs.Pen.{Puts};
ghost use Rattle.qr_documents.specs.Sheets.{FitsSheet, IsSheet, corner_of, label_size, places_of, sheet_pages, sheets_document};

use crate::measures::push_points;
use crate::pdf::{HasPages, empty, put_pdf, put_square, square_length};
use qr_devices::{DrawFault, PEN_SIZE, Pen, Piece, Sink, WRITE_MAX};
use qr_drawing::Raster;
use qr_matrix::HasSquare;

/// Label paper. All lengths are in micrometres.
#[derive(Clone, Copy, Debug)]
pub struct Sheet {
    /// The width of the paper, at most 2,000,000.
    pub width: u32,
    /// The height of the paper, at most 2,000,000.
    pub height: u32,
    /// How far the first place is from the left edge of the paper.
    pub left: u32,
    /// How far the first place is from the upper edge of the paper.
    pub top: u32,
    /// How far the left edge of a place is from that of the next place in its row.
    pub across: u32,
    /// How far the upper edge of a place is from that of the next place in its column.
    pub down: u32,
    /// The number of columns of places, 1 to 100.
    pub columns: u8,
    /// The number of rows of places, 1 to 100.
    pub rows: u8,
    /// How many places of the first sheet stay free. There are more places than these on a sheet.
    pub first: u16,
}

/// How labels are written.
#[derive(Clone, Copy, Debug)]
pub struct SheetSettings {
    /// The width of the light margin on each side of a symbol in modules.
    pub margin: u8,
    /// The width of a module in micrometres, 1 to 1,000,000, which is also its height.
    pub micrometres: u32,
    /// The paper.
    pub sheet: Sheet,
}

// Returns how far a row or column of places is from the edge of the paper, after `steps` others.
fn offset(first: u32, steps: u16, step: u32) -> u64
    requires { first + steps * step ≤ 2000000 }
    ensures value { result ≡ first + steps * step }
    ensures most { result ≤ 2000000 }
{
    u64::from(first) + u64::from(steps) * u64::from(step)
}

// Returns how far a label is from the lower edge of the paper, if `above` micrometres of the paper are above it.
fn below(height: u32, above: u64, size: u64) -> u64
    requires { above + size ≤ height }
    ensures value { result ≡ height - above - size }
    ensures most { result ≤ 4294967295 }
{
    u64::from(height) - above - size
}

// Appends the lower left corner of a label that is `size` micrometres wide and high.
fn push_corner(text: &mut Piece<PEN_SIZE>, sheet: &Sheet, size: u64, place: u16)
    requires sheet { IsSheet sheet.now }
    requires fits { FitsSheet sheet.now size }
    requires place { place < places_of sheet.now }
    requires room { length text.old + 60 ≤ WRITE_MAX }
    ensures items { text.new ≡ text.old ++ corner_of sheet.now size place }
    ensures len { length text.new ≤ length text.old + 60 }
{
    let columns = u16::from(sheet.columns);
    let x = offset(sheet.left, place % columns, sheet.across);
    let above = offset(sheet.top, place / columns, sheet.down);
    let y = below(sheet.height, above, size);
    push_points(text, x);
    text.push(b' ');
    push_points(text, y);
}

// Returns the number of pages, if `last` is the last place that is not free, of the places of all pages.
fn pages_to(last: usize, places: u16) -> u16
    requires some { 1 ≤ places }
    requires few { last < 20000 }
    ensures value { result ≡ last / places + 1 }
    ensures most { result ≤ 20000 }
{
    (last / usize::from(places) + 1) as u16
}

// Symbols as labels on sheets, which are the pages of a document.
#[derive(Drop)]
struct SheetPages<'a, S: HasSquare> {
    symbols: &'a [S],
    settings: SheetSettings,
    ghost some: { 0 < length symbols.now },
    ghost few: { length symbols.now ≤ 10000 },
    ghost small: { settings.micrometres ≤ 1000000 },
    ghost sheet: { IsSheet settings.sheet },
    ghost fits: { All (λ g. FitsSheet settings.sheet (label_size settings g)) (map S.grid symbols.now) },
}

impl<S: HasSquare> SheetPages<'_, S> {
    ghost use Rattle.std.specs.Prelude.{◌≡◌, ◌≤◌, ◌<◌, [], MatchOption, length, map};
    ghost use Rattle.qr_devices.specs.Pen.{Puts};
    ghost use Rattle.qr_documents.specs.Sheets.{FitsSheet, corner_of, label_commands, label_size, place_commands, places_of, sheet_pages};

    // Returns how many places a sheet has.
    fn places(&self) -> u16
        ensures { result ≡ places_of self.now.settings.sheet }
    {
        u16::from(self.settings.sheet.columns) * u16::from(self.settings.sheet.rows)
    }

    // Returns the symbol in a place of a page, if the place is not free.
    fn symbol_at(&self, page: u16, place: u16) -> Option<Raster<'_>>
        ensures { MatchOption result
            (place_commands self.now.settings (map S.grid self.now.symbols.now) page place ≡ [])
            (λ r. (place_commands self.now.settings (map S.grid self.now.symbols.now) page place ≡ label_commands self.now.settings r.matrix.now place)
            × FitsSheet self.now.settings.sheet (label_size self.now.settings r.matrix.now) × (r.margin ≡ self.now.settings.margin)) }
    {
        let number = usize::from(page) * usize::from(self.places()) + usize::from(place);
        let first = usize::from(self.settings.sheet.first);
        if number < first {
            return None;
        }
        let index = number - first;
        if index >= self.symbols.len() {
            return None;
        }
        let symbol = &self.symbols[index];
        Some(Raster {
            matrix: symbol.square(),
            margin: self.settings.margin,
        })
    }

    // Returns the lower left corner of a label.
    fn corner(&self, raster: &Raster, place: u16) -> Piece<PEN_SIZE>
        requires margin { raster.now.margin ≡ self.now.settings.margin }
        requires fits { FitsSheet self.now.settings.sheet (label_size self.now.settings raster.now.matrix.now) }
        requires place { place < places_of self.now.settings.sheet }
        ensures items { result ≡ corner_of self.now.settings.sheet (label_size self.now.settings raster.now.matrix.now) place }
        ensures len { length result ≤ 60 }
    {
        let size = u64::from(raster.width()) * u64::from(self.settings.micrometres);
        let mut corner = empty();
        push_corner(&mut corner, &self.settings.sheet, size, place);
        corner
    }

    // Returns the length of the commands for a place of a page.
    fn label_length(&self, page: u16, place: u16) -> u64
        requires { place < places_of self.now.settings.sheet }
        ensures value { result ≡ length (place_commands self.now.settings (map S.grid self.now.symbols.now) page place) }
        ensures most { result ≤ 600000 }
    {
        let Some(raster) = self.symbol_at(page, place) else {
            return 0;
        };
        let corner = self.corner(&raster, place);
        square_length(&raster, None, self.settings.micrometres, corner.as_slice()) + 4
    }

    // Writes the commands for a place of a page.
    fn put_label<W: Sink>(
        &self,
        pen: &mut Pen,
        out: &mut W,
        page: u16,
        place: u16,
    ) -> Result<(), DrawFault>
        requires { place < places_of self.now.settings.sheet }
        ensures { Puts (W.device out.old) (W.device out.new)
            pen.old pen.new (place_commands self.now.settings (map S.grid self.now.symbols.now) page place) result }
    {
        let Some(raster) = self.symbol_at(page, place) else {
            return Ok(());
        };
        let corner = self.corner(&raster, place);
        pen.reserve(out, 2)?;
        pen.piece.push_all(b"q ");
        put_square(
            pen,
            out,
            &raster,
            None,
            self.settings.micrometres,
            corner.as_slice(),
        )?;
        pen.reserve(out, 2)?;
        pen.piece.push_all(b"Q\n");
        Ok(())
    }
}

impl<S: HasSquare> HasPages for SheetPages<'_, S> {
    ghost pages = { λ d. sheet_pages d.settings (map S.grid d.symbols.now) };

    fn count(&self) -> u16 {
        let last = usize::from(self.settings.sheet.first) + self.symbols.len() - 1;
        pages_to(last, self.places())
    }

    fn size(&self, _: u16) -> (u64, u64) {
        let sheet = &self.settings.sheet;
        (u64::from(sheet.width), u64::from(sheet.height))
    }

    fn commands_length(&self, page: u16) -> u64 {
        let mut len = 0;
        for place in 0..self.places() {
            len += self.label_length(page, place);
        }
        len
    }

    fn put_commands<W: Sink>(
        &self,
        pen: &mut Pen,
        out: &mut W,
        page: u16,
    ) -> Result<(), DrawFault> {
        for place in 0..self.places() {
            self.put_label(pen, out, page, place)?;
        }
        Ok(())
    }
}

/// Writes 1 to 10,000 symbols or other squares as labels on sheets of label paper: a PDF document, in which each page is
/// as large as the paper. Each square has a light margin of `settings.margin` modules on all sides (ISO/IEC 18004:2015,
/// 6.3.8). A module is `settings.micrometres` micrometres wide and high.
///
/// The first `settings.sheet.first` places stay free. Then each place has the next square, row by row from the upper
/// left, with its upper left corner in that of the place. There are as many pages as the squares need.
///
/// Each label has to be on the paper in each place, also in places that stay free. If the paper has more than one
/// column, a label is at most as wide as it is from a place to the next one, and with more than one row at most as high.
///
/// The document depends only on the settings and on the squares.
///
/// Allocates no memory, and offers `out` at most 1,200 bytes at a time. Interrupted writes (EINTR) are tried again, at
/// most 999 times in all. Does not flush `out`.
///
/// # Errors
///
/// `Write`, only if a write fails or accepts no byte, or if 1,000 writes are interrupted; `out` has then accepted a
/// prefix of the document.
pub fn write_sheets<S: HasSquare, W: Sink>(
    symbols: &[S],
    settings: &SheetSettings,
    out: &mut W,
) -> Result<(), DrawFault>
    requires some { 0 < length symbols.now }
    requires few { length symbols.now ≤ 10000 }
    requires least { 1 ≤ settings.now.micrometres }
    requires most { settings.now.micrometres ≤ 1000000 }
    requires sheet { IsSheet settings.now.sheet }
    requires fits { All (λ g. FitsSheet settings.now.sheet (label_size settings.now g)) (map S.grid symbols.now) }
    ensures ok { OnOk result (Appends (W.device out.old).taken (W.device out.new).taken (sheets_document settings.now (map S.grid symbols.now))) }
    ensures err { OnErr result (AppendsBeginning (W.device out.old).taken (W.device out.new).taken
        (sheets_document settings.now (map S.grid symbols.now))) }
    ensures fault { (W.device out.old).counts ≡ no_writes → is_write_fault (W.device out.new).counts ≡ is_err result }
    ensures taken { (W.device out.old).counts ≡ no_writes
        → OnOk result ((W.device out.new).counts.taken ≡ counted (length (sheets_document settings.now (map S.grid symbols.now)))) }
    ensures most { (W.device out.old).counts ≡ no_writes
        → OnErr result ((W.device out.new).counts.taken ≤ counted (length (sheets_document settings.now (map S.grid symbols.now)))) }
    ensures within { (W.device out.old).counts ≡ no_writes → IsWrittenWithin (W.device out.new).counts }
    ensures offered { (W.device out.new).counts.offered ≤ max (W.device out.old).counts.offered WRITE_MAX }
    ensures flushes { (W.device out.new).counts.flushes ≡ (W.device out.old).counts.flushes }
    ensures buffer { (W.device out.new).buffer ≡ (W.device out.old).buffer }
    ensures rest { OnOk result ((W.device out.new).rest ≡ drop (length (sheets_document settings.now (map S.grid symbols.now))) (W.device out.old).rest) }
{
    let mut pen = Pen::new();
    let pages = SheetPages {
        symbols,
        settings: *settings,
    };
    put_pdf(&mut pen, out, &pages)?;
    pen.reserve(out, WRITE_MAX)
}
