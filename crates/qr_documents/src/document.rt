//! Documents for print: their formats and settings, and the call that writes them. A document says how wide and high it
//! is on paper. The SVG document has the same boxes as the SVG document of `draw`.

ghost use Rattle.std.specs.Prelude.{◌≡◌, ◌≤◌, ◌<◌, ◌+◌, ◌*◌, ◌++◌, max, drop, is_err, length, map, OnOk, OnErr};
ghost use Rattle.std.specs.Io.KnownBytes.{Appends};
ghost use Rattle.qr_devices.specs.Device.{AppendsBeginning, IsWrittenWithin, counted, is_write_fault, no_writes};
ghost use Rattle.qr_devices.specs.Pen.{Puts};
ghost use Rattle.qr_documents.specs.Document.{document, opening_rest, size_in_mm, sized_svg};
ghost use Rattle.qr_drawing.specs.Drawing.{HaveOneSide};
ghost use Rattle.qr_documents.specs.Steps.Document.{sized_head};

use crate::colours::Colours;
use crate::eps::put_eps;
use crate::measures::{LENGTH_MAX, push_millimetres};
use crate::pdf::{SymbolPages, put_pdf};
use qr_devices::{DrawFault, PEN_SIZE, Pen, Piece, Sink, WRITE_MAX};
use qr_drawing::Raster;
use qr_drawing::svg::{TAIL, push_background, push_numbered, push_tail, put_stack};
use qr_matrix::HasSquare;

/// The format of a document for print.
#[derive(Clone, Copy, Debug, PartialEq, Eq)]
pub enum Document {
    /// Scalable Vector Graphics, with a size in millimetres.
    Svg,
    /// Encapsulated PostScript.
    Eps,
    /// PDF 1.4.
    Pdf,
}

/// How a document is written.
#[derive(Clone, Copy, Debug)]
pub struct DocumentSettings {
    /// The format of the document.
    pub format: Document,
    /// The width of the light margin on each side in modules.
    pub margin: u8,
    /// The width of a module in micrometres, 1 to 1,000,000, which is also its height.
    pub micrometres: u32,
    /// The colours of a PDF document. Without them it is black on white, as SVG and EPS documents always are.
    pub colours: Option<Colours>,
}

// How many bytes of room the pen has to have for all that comes before the first box of an SVG document.
const HEAD_MAX: usize = 400;

// Appends the size of a document. `width` and `height` are in modules.
fn push_size(text: &mut Piece<PEN_SIZE>, micrometres: u32, width: u16, height: u16)
    requires room { length text.old + 75 ≤ WRITE_MAX }
    ensures items { text.new ≡ text.old ++ size_in_mm micrometres width height }
    ensures len { length text.new ≤ length text.old + 75 }
{
    let length = u64::from(micrometres);
    text.push_all(b" width=\"");
    push_millimetres(text, u64::from(width) * length);
    text.push_all(b"mm\" height=\"");
    push_millimetres(text, u64::from(height) * length);
    text.push_all(b"mm\"");
}

// Appends the rest of the line that opens an SVG document.
fn push_opening_rest(text: &mut Piece<PEN_SIZE>, width: u16, height: u16)
    requires room { length text.old + 60 ≤ WRITE_MAX }
    ensures items { text.new ≡ text.old ++ opening_rest width height }
    ensures len { length text.new ≤ length text.old + 60 }
{
    push_numbered(text, b" viewBox=\"0 0 ", width);
    push_numbered(text, b" ", height);
    text.push_all(b"\" shape-rendering=\"crispEdges\">\n");
}

// Appends all that comes before the first box of an SVG document.
fn push_sized_head(text: &mut Piece<PEN_SIZE>, micrometres: u32, width: u16, height: u16)
    requires room { length text.old + HEAD_MAX ≤ WRITE_MAX }
    ensures items { text.new ≡ text.old ++ sized_head micrometres width height }
    ensures len { length text.new ≤ length text.old + HEAD_MAX }
{
    text.push_all(b"<?xml version=\"1.0\" encoding=\"UTF-8\"?>\n");
    text.push_all(b"<svg xmlns=\"http://www.w3.org/2000/svg\" version=\"1.1\"");
    push_size(text, micrometres, width, height);
    push_opening_rest(text, width, height);
    push_background(text, width, height);
    text.push_all(b"<path fill=\"#000000\" d=\"");
}

fn put_sized_svg<S: HasSquare, W: Sink>(
    pen: &mut Pen,
    out: &mut W,
    symbols: &[S],
    margin: u8,
    micrometres: u32,
) -> Result<(), DrawFault>
    requires some { 0 < length symbols.now }
    requires few { length symbols.now ≤ 16 }
    requires one_side { HaveOneSide (map S.grid symbols.now) }
    ensures { Puts (W.device out.old) (W.device out.new)
        pen.old pen.new (sized_svg micrometres margin (map S.grid symbols.now)) result }
{
    let first = Raster {
        matrix: symbols[0].square(),
        margin,
    };
    let width = first.width();
    let height = width * symbols.len() as u16;
    pen.reserve(out, HEAD_MAX)?;
    push_sized_head(&mut pen.piece, micrometres, width, height);
    put_stack(pen, out, symbols, margin)?;
    pen.reserve(out, TAIL)?;
    push_tail(&mut pen.piece);
    Ok(())
}

/// Writes a document for print with 1 to 16 symbols or other squares, all with the same side, each with a light margin
/// of `settings.margin` modules on all sides (ISO/IEC 18004:2015, 6.3.8). A module is `settings.micrometres`
/// micrometres wide and high. In SVG and EPS the squares are one below the other. A PDF has a page for each, which is as
/// large as the square with its margin.
///
/// A PDF has the colours of `settings.colours`, and without them it is black on white. SVG and EPS documents are always
/// black on white.
///
/// The document depends only on the settings and on the squares.
///
/// Allocates no memory, and offers `out` at most 1,200 bytes at a time. Interrupted writes (EINTR) are tried again, at
/// most 999 times in all. Does not flush `out`.
///
/// # Errors
///
/// `Write`, only if a write fails or accepts no byte, or if 1,000 writes are interrupted; `out` has then accepted a
/// prefix of the document.
pub fn write_document<S: HasSquare, W: Sink>(
    symbols: &[S],
    settings: &DocumentSettings,
    out: &mut W,
) -> Result<(), DrawFault>
    requires some { 0 < length symbols.now }
    requires few { length symbols.now ≤ 16 }
    requires one_side { HaveOneSide (map S.grid symbols.now) }
    requires least { 1 ≤ settings.now.micrometres }
    requires most { settings.now.micrometres ≤ 1000000 }
    ensures ok { OnOk result (Appends (W.device out.old).taken (W.device out.new).taken (document settings.now (map S.grid symbols.now))) }
    ensures err { OnErr result (AppendsBeginning (W.device out.old).taken (W.device out.new).taken
        (document settings.now (map S.grid symbols.now))) }
    ensures fault { (W.device out.old).counts ≡ no_writes → is_write_fault (W.device out.new).counts ≡ is_err result }
    ensures taken { (W.device out.old).counts ≡ no_writes
        → OnOk result ((W.device out.new).counts.taken ≡ counted (length (document settings.now (map S.grid symbols.now)))) }
    ensures most { (W.device out.old).counts ≡ no_writes
        → OnErr result ((W.device out.new).counts.taken ≤ counted (length (document settings.now (map S.grid symbols.now)))) }
    ensures within { (W.device out.old).counts ≡ no_writes → IsWrittenWithin (W.device out.new).counts }
    ensures offered { (W.device out.new).counts.offered ≤ max (W.device out.old).counts.offered WRITE_MAX }
    ensures flushes { (W.device out.new).counts.flushes ≡ (W.device out.old).counts.flushes }
    ensures buffer { (W.device out.new).buffer ≡ (W.device out.old).buffer }
    ensures rest { OnOk result ((W.device out.new).rest ≡ drop (length (document settings.now (map S.grid symbols.now))) (W.device out.old).rest) }
{
    let mut pen = Pen::new();
    let margin = settings.margin;
    let micrometres = settings.micrometres;
    // When the calls of this `match` are done, the pen may still contain the last bytes of the document.
    let put = match settings.format {
        Document::Svg => put_sized_svg(&mut pen, out, symbols, margin, micrometres),
        Document::Eps => put_eps(&mut pen, out, symbols, margin, micrometres),
        Document::Pdf => {
            let pages = SymbolPages {
                symbols,
                margin,
                micrometres,
                colours: settings.colours,
            };
            put_pdf(&mut pen, out, &pages)
        }
    };
    put?;
    pen.reserve(out, WRITE_MAX)
}
