//! Writes PDF documents. A document names the places of its objects and the lengths of the commands of its pages. So
//! these lengths are computed before the commands are written, and the places after all objects were written: each
//! object begins where the one before it ends.
//!
//! A line `4 20 7 1 re` adds a box to the path of a page, and `f` fills this path.

ghost use Rattle.std.specs.Prelude.{◌≡◌, ◌≤◌, ◌<◌, ◌+◌, ◌*◌, ◌++◌, [], IfOk, codes, decimal, length, map};
ghost use Rattle.qr_devices.specs.Pen.{Puts};
ghost use Rattle.qr_documents.specs.Boxes.{row_lines, symbol_lines};
ghost use Rattle.qr_documents.specs.Pdf.{document_of_pages, object, object_content, object_count, object_start, objects_below, page, page_tree, place_line, place_of, square_commands, square_start, stream, stream_start, symbol_pages, table_of, trailer};
ghost use Rattle.qr_drawing.specs.Raster.{texts_below};
ghost use Rattle.qr_drawing.specs.Svg.{numbered, square_at};

use crate::boxes::put_lines;
use crate::colours::{Colours, push_dark_colour, push_light_square};
use crate::measures::{LENGTH_MAX, push_decimal, push_last_ten, push_points};
use itoa::Buffer;
use qr_devices::{DrawFault, PEN_SIZE, Pen, Piece, Sink, WRITE_MAX};
use qr_drawing::Raster;
use qr_drawing::svg::{push_number, push_numbered};
use qr_matrix::HasSquare;

// The number of bytes of the catalog.
const CATALOG: u64 = 29;

/// A value that has the pages of a document. A document has at most 20,000 pages, and the commands of a page have at
/// most 40,000,000,000 bytes.
pub(crate) trait HasPages {
    ghost use Rattle.qr_documents.specs.Pdf.{Pages};

    // The pages, as contracts see them.
    ghost pages: { Self → Pages };

    // Returns the number of pages.
    fn count(&self) -> u16
        ensures value { result ≡ (pages self.now).count }
        ensures some { 1 ≤ result }
        ensures most { result ≤ 20000 };

    // Returns the width and the height of a page in micrometres.
    fn size(&self, page: u16) -> (u64, u64)
        requires { page < (pages self.now).count }
        ensures width { result.0 ≡ (pages self.now).width page }
        ensures height { result.1 ≡ (pages self.now).height page }
        ensures narrow { result.0 ≤ LENGTH_MAX }
        ensures low { result.1 ≤ LENGTH_MAX };

    // Returns the length of the commands of a page.
    fn commands_length(&self, page: u16) -> u64
        requires { page < (pages self.now).count }
        ensures value { result ≡ length ((pages self.now).commands page) }
        ensures most { result ≤ 40000000000 };

    // Writes the commands of a page.
    fn put_commands<W: Sink>(&self, pen: &mut Pen, out: &mut W, page: u16) -> Result<(), DrawFault>
        requires { page < (pages self.now).count }
        ensures { Puts (W.device out.old) (W.device out.new) pen.old pen.new ((pages self.now).commands page) result };
}

// Returns how many decimal digits a number has.
#[tactic(auto, using(crate::proofs::lemmas::pdf::has_one_digit, crate::proofs::lemmas::pdf::has_two_digits, crate::proofs::lemmas::pdf::has_three_digits))]
fn digits(number: u16) -> u32
    requires { number < 1000 }
    ensures value { result ≡ length (decimal number) }
    ensures most { result ≤ 3 }
{
    if number < 10 {
        1
    } else if number < 100 {
        2
    } else {
        3
    }
}

// Returns the length of the lines of row `row` of the square, below which the page has `up` rows.
fn row_length(raster: &Raster, row: u8, up: u16) -> u32
    requires row_in { row < raster.now.matrix.now.side }
    requires small { raster.now.matrix.now.side ≤ 177 }
    requires up { up < 1000 }
    ensures value { result ≡ length (row_lines (codes " 1 re\n") up raster.now.margin raster.now.matrix.now (raster.now.margin + row)) }
    ensures most { result ≤ 177 * 17 }
{
    let left = u16::from(raster.margin);
    let shared = digits(up) + 8;
    let mut len = 0;
    for run in raster.matrix.dark_runs(row) {
        let x = left + u16::from(run.start);
        let modules = u16::from(run.end - run.start);
        len += digits(x) + digits(modules) + shared;
    }
    len
}

// Returns the length of the lines of a symbol.
fn lines_length(raster: &Raster) -> u32
    ensures value { result ≡ length (symbol_lines (codes " 1 re\n") 0 raster.now.margin raster.now.matrix.now) }
    ensures most { result ≤ 177 * (177 * 17) }
{
    let side = raster.matrix.side();
    let bottom = u16::from(raster.margin);
    let mut len = 0;
    for row in 0..side {
        len += row_length(raster, row, bottom + u16::from(side - 1 - row));
    }
    len
}

/// Returns an empty text.
pub(crate) fn empty() -> Piece<PEN_SIZE>
    ensures { result ≡ [] }
{
    Piece {
        bytes: [0; PEN_SIZE],
        len: 0,
    }
}

// Returns how many decimal digits a number has.
fn decimal_length(number: u64) -> u64
    ensures value { result ≡ length (decimal number) }
    ensures most { result ≤ 20 }
{
    let mut digits = Buffer::new();
    digits.format(number).len() as u64
}

// How many bytes of room the pen has to have for the commands before the boxes of a square.
const SQUARE_START_MAX: usize = 200;

// Appends the commands before the boxes of a square.
fn push_square_start(
    text: &mut Piece<PEN_SIZE>,
    colours: Option<Colours>,
    micrometres: u32,
    corner: &[u8],
    width: u16,
)
    requires small { micrometres ≤ 1000000 }
    requires corner { length corner.now ≤ 60 }
    requires room { length text.old + SQUARE_START_MAX ≤ WRITE_MAX }
    ensures items { text.new ≡ text.old ++ square_start colours micrometres corner.now width }
    ensures len { length text.new ≤ length text.old + SQUARE_START_MAX }
{
    push_points(text, u64::from(micrometres));
    text.push_all(b" 0 0 ");
    push_points(text, u64::from(micrometres));
    text.push(b' ');
    text.push_all(corner);
    text.push_all(b" cm\n");
    push_light_square(text, colours, width);
    push_dark_colour(text, colours);
}

/// Returns the length of the commands that draw a square with its margin.
pub(crate) fn square_length(
    raster: &Raster,
    colours: Option<Colours>,
    micrometres: u32,
    corner: &[u8],
) -> u64
    requires small { micrometres ≤ 1000000 }
    requires corner { length corner.now ≤ 60 }
    ensures value { result ≡ length (square_commands colours micrometres corner.now raster.now.margin raster.now.matrix.now) }
    ensures most { result ≤ 533000 }
{
    let mut start = empty();
    push_square_start(&mut start, colours, micrometres, corner, raster.width());
    start.len() as u64 + u64::from(lines_length(raster)) + 2
}

/// Writes the commands that draw a square with its margin.
pub(crate) fn put_square<W: Sink>(
    pen: &mut Pen,
    out: &mut W,
    raster: &Raster,
    colours: Option<Colours>,
    micrometres: u32,
    corner: &[u8],
) -> Result<(), DrawFault>
    requires small { micrometres ≤ 1000000 }
    requires corner { length corner.now ≤ 60 }
    ensures { Puts (W.device out.old) (W.device out.new)
        pen.old pen.new (square_commands colours micrometres corner.now raster.now.margin raster.now.matrix.now) result }
{
    pen.reserve(out, SQUARE_START_MAX)?;
    push_square_start(&mut pen.piece, colours, micrometres, corner, raster.width());
    put_lines(pen, out, raster, 0, b" 1 re\n")?;
    pen.reserve(out, 2)?;
    pen.piece.push_all(b"f\n");
    Ok(())
}

// Writes the numbers of the pages after the first one.
fn put_kids<W: Sink>(pen: &mut Pen, out: &mut W, kids: u16) -> Result<(), DrawFault>
    requires { kids < 20000 }
    ensures { Puts (W.device out.old) (W.device out.new) pen.old pen.new (texts_below kids (λ k. numbered (codes " ") (5 + 2 * k) ++ codes " 0 R")) result }
{
    for page in 0..kids {
        pen.reserve(out, 10)?;
        push_numbered(&mut pen.piece, b" ", 5 + 2 * page);
        pen.piece.push_all(b" 0 R");
    }
    Ok(())
}

// Writes what the page tree contains.
fn put_page_tree<W: Sink>(pen: &mut Pen, out: &mut W, pages: u16) -> Result<(), DrawFault>
    requires some { 1 ≤ pages }
    requires few { pages ≤ 20000 }
    ensures { Puts (W.device out.old) (W.device out.new) pen.old pen.new (page_tree pages) result }
{
    pen.reserve(out, 24)?;
    pen.piece.push_all(b"<</Type/Pages/Kids[3 0 R");
    put_kids(pen, out, pages - 1)?;
    pen.reserve(out, 15)?;
    push_numbered(&mut pen.piece, b"]/Count ", pages);
    pen.piece.push_all(b">>");
    Ok(())
}

// Returns the length of what the page tree contains.
fn page_tree_length(pages: u16) -> u64
    requires some { 1 ≤ pages }
    requires few { pages ≤ 20000 }
    ensures value { result ≡ length (page_tree pages) }
    ensures most { result ≤ 600000 }
{
    let mut kids = 0;
    for page in 0..pages - 1 {
        kids += decimal_length(u64::from(5 + 2 * page)) + 5;
    }
    24 + kids + decimal_length(u64::from(pages)) + 10
}

// Appends what a page contains, by its size in micrometres and the number of the object with its content.
fn push_page(text: &mut Piece<PEN_SIZE>, size: (u64, u64), content: u16)
    requires narrow { size.0 ≤ LENGTH_MAX }
    requires low { size.1 ≤ LENGTH_MAX }
    requires room { length text.old + 150 ≤ WRITE_MAX }
    ensures items { text.new ≡ text.old ++ page size.0 size.1 content }
    ensures len { length text.new ≤ length text.old + 150 }
{
    text.push_all(b"<</Type/Page/Parent 2 0 R/MediaBox[0 0 ");
    push_points(text, size.0);
    text.push(b' ');
    push_points(text, size.1);
    push_numbered(text, b"]/Resources<<>>/Contents ", content);
    text.push_all(b" 0 R>>");
}

// Returns the length of what a page contains.
// It is never inlined, so that the commands of a page are measured without the text in memory.
#[inline(never)]
fn page_length(size: (u64, u64), content: u16) -> u64
    requires narrow { size.0 ≤ LENGTH_MAX }
    requires low { size.1 ≤ LENGTH_MAX }
    ensures value { result ≡ length (page size.0 size.1 content) }
    ensures most { result ≤ 150 }
{
    let mut text = empty();
    push_page(&mut text, size, content);
    text.len() as u64
}

// Appends what comes before a stream of `len` bytes.
fn push_stream_start(text: &mut Piece<PEN_SIZE>, len: u64)
    requires room { length text.old + 50 ≤ WRITE_MAX }
    ensures items { text.new ≡ text.old ++ stream_start len }
    ensures len { length text.new ≤ length text.old + 50 }
{
    text.push_all(b"<</Length ");
    push_decimal(text, len);
    text.push_all(b">>\nstream\n");
}

// Writes the commands of a page as a stream.
fn put_stream<D: HasPages, W: Sink>(
    pen: &mut Pen,
    out: &mut W,
    document: &D,
    page: u16,
) -> Result<(), DrawFault>
    requires { page < (D.pages document.now).count }
    ensures { Puts (W.device out.old) (W.device out.new)
        pen.old pen.new (stream ((D.pages document.now).commands page)) result }
{
    pen.reserve(out, 50)?;
    push_stream_start(&mut pen.piece, document.commands_length(page));
    document.put_commands(pen, out, page)?;
    pen.reserve(out, 9)?;
    pen.piece.push_all(b"endstream");
    Ok(())
}

// Writes what the object with this index contains.
#[tactic(auto, unfolding(crate::specs::Pdf::catalog))]
fn put_content<D: HasPages, W: Sink>(
    pen: &mut Pen,
    out: &mut W,
    document: &D,
    index: u16,
) -> Result<(), DrawFault>
    requires index { index < object_count (D.pages document.now) }
    requires few { index ≤ 40001 }
    ensures { Puts (W.device out.old) (W.device out.new)
        pen.old pen.new (object_content (D.pages document.now) index) result }
{
    if index == 0 {
        pen.reserve(out, CATALOG as usize)?;
        pen.piece.push_all(b"<</Type/Catalog/Pages 2 0 R>>");
        Ok(())
    } else if index == 1 {
        put_page_tree(pen, out, document.count())
    } else if index % 2 == 0 {
        pen.reserve(out, 150)?;
        push_page(&mut pen.piece, document.size((index - 2) / 2), index + 2);
        Ok(())
    } else {
        put_stream(pen, out, document, (index - 2) / 2)
    }
}

// Returns the length of what the object with this index contains.
#[tactic(auto, unfolding(crate::specs::Pdf::catalog))]
fn content_length<D: HasPages>(document: &D, index: u16) -> u64
    requires index { index < object_count (D.pages document.now) }
    requires few { index ≤ 40001 }
    ensures value { result ≡ length (object_content (D.pages document.now) index) }
    ensures most { result ≤ 40000000100 }
{
    if index == 0 {
        CATALOG
    } else if index == 1 {
        page_tree_length(document.count())
    } else if index % 2 == 0 {
        page_length(document.size((index - 2) / 2), index + 2)
    } else {
        let commands = document.commands_length((index - 2) / 2);
        decimal_length(commands) + commands + 29
    }
}

// Writes the object with this index.
fn put_object<D: HasPages, W: Sink>(
    pen: &mut Pen,
    out: &mut W,
    document: &D,
    index: u16,
) -> Result<(), DrawFault>
    requires index { index < object_count (D.pages document.now) }
    requires few { index ≤ 40001 }
    ensures { Puts (W.device out.old) (W.device out.new) pen.old pen.new (object (D.pages document.now) index) result }
{
    pen.reserve(out, 12)?;
    push_number(&mut pen.piece, index + 1);
    pen.piece.push_all(b" 0 obj\n");
    put_content(pen, out, document, index)?;
    pen.reserve(out, 8)?;
    pen.piece.push_all(b"\nendobj\n");
    Ok(())
}

// Returns the length of the object with this index.
fn object_length<D: HasPages>(document: &D, index: u16) -> u64
    requires index { index < object_count (D.pages document.now) }
    requires few { index ≤ 40001 }
    ensures value { result ≡ length (object (D.pages document.now) index) }
    ensures most { result ≤ 40000000200 }
{
    decimal_length(u64::from(index + 1)) + content_length(document, index) + 15
}

// Writes all objects.
fn put_each_object<D: HasPages, W: Sink>(
    pen: &mut Pen,
    out: &mut W,
    document: &D,
    objects: u16,
) -> Result<(), DrawFault>
    requires all { objects ≡ object_count (D.pages document.now) }
    requires few { objects ≤ 40002 }
    ensures { Puts (W.device out.old) (W.device out.new) pen.old pen.new (texts_below objects (object (D.pages document.now))) result }
{
    for index in 0..objects {
        put_object(pen, out, document, index)?;
    }
    Ok(())
}

// Writes the header and all objects.
fn put_objects<D: HasPages, W: Sink>(
    pen: &mut Pen,
    out: &mut W,
    document: &D,
    objects: u16,
) -> Result<(), DrawFault>
    requires all { objects ≡ object_count (D.pages document.now) }
    requires few { objects ≤ 40002 }
    ensures { Puts (W.device out.old) (W.device out.new) pen.old pen.new (objects_below (D.pages document.now) objects) result }
{
    pen.reserve(out, 9)?;
    pen.piece.push_all(b"%PDF-1.4\n");
    put_each_object(pen, out, document, objects)
}

// Appends the line of the table for an object that has `at` bytes of the document before it.
fn push_place(text: &mut Piece<PEN_SIZE>, at: u64)
    requires room { length text.old + 20 ≤ WRITE_MAX }
    ensures items { text.new ≡ text.old ++ place_line at }
    ensures len { length text.new ≤ length text.old + 20 }
{
    push_last_ten(text, at);
    text.push_all(b" 00000 n \n");
}

// Writes the lines of the table for all objects. Returns how many bytes come before the table.
fn put_places<D: HasPages, W: Sink>(
    pen: &mut Pen,
    out: &mut W,
    document: &D,
    objects: u16,
) -> Result<u64, DrawFault>
    requires all { objects ≡ object_count (D.pages document.now) }
    requires few { objects ≤ 40002 }
    ensures writes { Puts (W.device out.old) (W.device out.new) pen.old pen.new (texts_below objects (place_of (D.pages document.now))) result }
    ensures at { IfOk result (λ at. at ≡ length (objects_below (D.pages document.now) objects)) }
{
    let mut at = 9;
    for index in 0..objects {
        pen.reserve(out, 20)?;
        push_place(&mut pen.piece, at);
        at += object_length(document, index);
    }
    Ok(at)
}

// Appends the first lines of the table of the places of `objects` objects.
fn push_table_start(text: &mut Piece<PEN_SIZE>, objects: u16)
    requires few { objects ≤ 40002 }
    requires room { length text.old + 40 ≤ WRITE_MAX }
    ensures items { text.new ≡ text.old ++ table_of objects [] }
    ensures len { length text.new ≤ length text.old + 40 }
{
    push_numbered(text, b"xref\n0 ", objects + 1);
    text.push_all(b"\n0000000000 65535 f \n");
}

// Appends the trailer of a document with `objects` objects, whose table comes after `at` bytes.
fn push_trailer(text: &mut Piece<PEN_SIZE>, objects: u16, at: u64)
    requires few { objects ≤ 40002 }
    requires room { length text.old + 90 ≤ WRITE_MAX }
    ensures items { text.new ≡ text.old ++ trailer objects at }
    ensures len { length text.new ≤ length text.old + 90 }
{
    push_numbered(text, b"trailer\n<</Size ", objects + 1);
    text.push_all(b"/Root 1 0 R>>\nstartxref\n");
    push_decimal(text, at);
    text.push_all(b"\n%%EOF\n");
}

// Writes the table of the places of all objects, and the trailer.
fn put_table<D: HasPages, W: Sink>(
    pen: &mut Pen,
    out: &mut W,
    document: &D,
    objects: u16,
) -> Result<(), DrawFault>
    requires all { objects ≡ object_count (D.pages document.now) }
    requires few { objects ≤ 40002 }
    ensures { Puts (W.device out.old) (W.device out.new) pen.old pen.new (table_of objects (texts_below objects (place_of (D.pages document.now)))
        ++ trailer objects (length (objects_below (D.pages document.now) objects))) result }
{
    pen.reserve(out, 40)?;
    push_table_start(&mut pen.piece, objects);
    let at = put_places(pen, out, document, objects)?;
    pen.reserve(out, 90)?;
    push_trailer(&mut pen.piece, objects, at);
    Ok(())
}

/// Writes the PDF document with these pages.
pub(crate) fn put_pdf<D: HasPages, W: Sink>(
    pen: &mut Pen,
    out: &mut W,
    document: &D,
) -> Result<(), DrawFault>
    ensures { Puts (W.device out.old) (W.device out.new) pen.old pen.new (document_of_pages (D.pages document.now)) result }
{
    let objects = 2 + 2 * document.count();
    put_objects(pen, out, document, objects)?;
    put_table(pen, out, document, objects)
}

/// Squares of which each has a page for itself.
#[derive(Drop)]
pub(crate) struct SymbolPages<'a, S: HasSquare> {
    pub(crate) symbols: &'a [S],
    pub(crate) margin: u8,
    pub(crate) micrometres: u32,
    pub(crate) colours: Option<Colours>,
    ghost some: { 0 < length symbols.now },
    ghost few: { length symbols.now ≤ 16 },
    ghost small: { micrometres ≤ 1000000 },
}

impl<S: HasSquare> SymbolPages<'_, S> {
    fn raster(&self, page: u16) -> Raster<'_>
        requires { page < length self.now.symbols.now }
        ensures margin { result.margin ≡ self.now.margin }
        ensures matrix { result.matrix.now ≡ square_at (map S.grid self.now.symbols.now) page }
    {
        Raster {
            matrix: self.symbols[usize::from(page)].square(),
            margin: self.margin,
        }
    }
}

impl<S: HasSquare> HasPages for SymbolPages<'_, S> {
    ghost pages = { λ d. symbol_pages d.colours d.micrometres d.margin (map S.grid d.symbols.now) };

    fn count(&self) -> u16 {
        self.symbols.len() as u16
    }

    fn size(&self, page: u16) -> (u64, u64) {
        let width = u64::from(self.raster(page).width()) * u64::from(self.micrometres);
        (width, width)
    }

    fn commands_length(&self, page: u16) -> u64 {
        square_length(&self.raster(page), self.colours, self.micrometres, b"0 0")
    }

    fn put_commands<W: Sink>(
        &self,
        pen: &mut Pen,
        out: &mut W,
        page: u16,
    ) -> Result<(), DrawFault> {
        put_square(
            pen,
            out,
            &self.raster(page),
            self.colours,
            self.micrometres,
            b"0 0",
        )
    }
}
