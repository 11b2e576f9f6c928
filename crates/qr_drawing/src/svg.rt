//! Draws symbols as a Scalable Vector Graphics document with one path, which has a box around each run of dark modules
//! in a row. The box around seven modules in row 5, from column 4 on, is `M4 5h7v1h-7z`: move to column 4 and row 5, go
//! right by seven, down by one and left by seven, and close the path. `top` is the number of rows of the document above
//! a symbol and its margin. At most 16 symbols are drawn, each with fewer than 1,000 rows.

ghost use Rattle.std.specs.Prelude.{◌≡◌, ◌≤◌, ◌<◌, ◌+◌, ◌*◌, ◌++◌, ◌∷◌, [], ℕ, ◌/◌, ◌%◌, codes, decimal, length, map};
ghost use Rattle.qr_drawing.specs.Drawing.{HaveOneSide};
ghost use Rattle.qr_devices.specs.Pen.{Puts};
ghost use Rattle.qr_drawing.specs.Steps.Svg.{head, width_path};
ghost use Rattle.qr_drawing.specs.Svg.{background, box_path, numbered, opening, row_path, stack_path, svg_document, symbol_path, tail};

use crate::drawing::Raster;
use itoa::Buffer;
use qr_devices::{DrawFault, PEN_SIZE, Pen, Piece, Sink, WRITE_MAX};
use qr_matrix::HasSquare;

// How many bytes of room the pen has to have before a box is appended. A box has at most 22 bytes. With another number
// than 32 the writes would have other sizes, and `tests/devices` would fail.
const BOX_MAX: usize = 32;

// How many bytes of room the pen has to have for all that comes before the first box. This is at most 263 bytes: 39 of
// the XML declaration, at most 120 from `push_opening`, at most 80 from `push_background`, and 24 of the beginning of
// the path.
const HEAD_MAX: usize = 300;

/// The number of bytes after the last box.
pub const TAIL: usize = 11;

// `push_digit` and the three functions after it append numbers digit by digit, which takes fewer instructions than the
// crate `itoa` does. They are used for the row of a box, and for its width if the box has ten modules or more. Smaller
// widths come from the table `SHORT_RUNS`. For a column `push_column` takes the last two digits from the table
// `TWO_DIGITS`, and computes the first of three digits, or the only one. `itoa` formats the numbers before the path.

/// Appends a digit.
pub fn push_digit<const CAP: usize>(text: &mut Piece<CAP>, digit: u16)
    requires digit { digit < 10 }
    requires room { length text.old < CAP }
    ensures items { text.new ≡ text.old ++ (48 + digit) ∷ [] }
    ensures len { length text.new ≡ length text.old + 1 }
{
    text.push(b'0' + digit as u8);
}

#[tactic(auto, using(crate::proofs::lemmas::svg::one_digit, crate::proofs::lemmas::svg::more_digits))]
fn push_two<const CAP: usize>(text: &mut Piece<CAP>, number: u16)
    requires number { number < 100 }
    requires room { length text.old + 2 ≤ CAP }
    ensures items { text.new ≡ text.old ++ decimal number }
    ensures len { length text.new ≤ length text.old + 2 }
{
    if number < 10 {
        push_digit(text, number);
    } else {
        push_digit(text, number / 10);
        push_digit(text, number % 10);
    }
}

#[tactic(auto, using(crate::proofs::lemmas::svg::more_digits))]
fn push_three<const CAP: usize>(text: &mut Piece<CAP>, number: u16)
    requires number { number < 1000 }
    requires room { length text.old + 3 ≤ CAP }
    ensures items { text.new ≡ text.old ++ decimal number }
    ensures len { length text.new ≤ length text.old + 3 }
{
    if number < 100 {
        push_two(text, number);
    } else {
        push_two(text, number / 10);
        push_digit(text, number % 10);
    }
}

/// Appends the decimal digits of a number.
#[tactic(auto, using(crate::proofs::lemmas::svg::more_digits))]
pub fn push_number<const CAP: usize>(text: &mut Piece<CAP>, number: u16)
    requires room { length text.old + 5 ≤ CAP }
    ensures items { text.new ≡ text.old ++ decimal number }
    ensures len { length text.new ≤ length text.old + 5 }
{
    if number < 1000 {
        push_three(text, number);
    } else {
        push_three(text, number / 100);
        push_digit(text, number / 10 % 10);
        push_digit(text, number % 10);
    }
}

// The two digits of each number below 100.
static TWO_DIGITS: [[u8; 2]; 100] = [
    *b"00", *b"01", *b"02", *b"03", *b"04", *b"05", *b"06", *b"07", *b"08", *b"09", *b"10", *b"11",
    *b"12", *b"13", *b"14", *b"15", *b"16", *b"17", *b"18", *b"19", *b"20", *b"21", *b"22", *b"23",
    *b"24", *b"25", *b"26", *b"27", *b"28", *b"29", *b"30", *b"31", *b"32", *b"33", *b"34", *b"35",
    *b"36", *b"37", *b"38", *b"39", *b"40", *b"41", *b"42", *b"43", *b"44", *b"45", *b"46", *b"47",
    *b"48", *b"49", *b"50", *b"51", *b"52", *b"53", *b"54", *b"55", *b"56", *b"57", *b"58", *b"59",
    *b"60", *b"61", *b"62", *b"63", *b"64", *b"65", *b"66", *b"67", *b"68", *b"69", *b"70", *b"71",
    *b"72", *b"73", *b"74", *b"75", *b"76", *b"77", *b"78", *b"79", *b"80", *b"81", *b"82", *b"83",
    *b"84", *b"85", *b"86", *b"87", *b"88", *b"89", *b"90", *b"91", *b"92", *b"93", *b"94", *b"95",
    *b"96", *b"97", *b"98", *b"99",
];

fn two_digits(number: u16) -> &'static [u8; 2]
    requires { number < 100 }
    ensures { result.now ≡ (48 + number / 10) ∷ (48 + number % 10) ∷ [] }
{
    &TWO_DIGITS[usize::from(number)]
}

// Appends the beginning of a box: `M` and its column.
fn push_column(text: &mut Piece<PEN_SIZE>, x: u16)
    requires column { x < 1000 }
    requires room { length text.old + 4 ≤ WRITE_MAX }
    ensures items { text.new ≡ text.old ++ numbered (codes "M") x }
    ensures len { length text.new ≤ length text.old + 4 }
{
    if x < 10 {
        text.push_all(&[b'M', b'0' + x as u8]);
    } else if x < 100 {
        let digits = two_digits(x);
        text.push_all(&[b'M', digits[0], digits[1]]);
    } else {
        let digits = two_digits(x % 100);
        text.push_all(&[b'M', b'0' + (x / 100) as u8, digits[0], digits[1]]);
    }
}

// The end of the text of a box, which follows the number of its row: `hNv1h-Nz` for N modules. The index is N, which is
// below ten in almost all boxes.
static SHORT_RUNS: [[u8; 8]; 10] = [
    *b"h0v1h-0z",
    *b"h1v1h-1z",
    *b"h2v1h-2z",
    *b"h3v1h-3z",
    *b"h4v1h-4z",
    *b"h5v1h-5z",
    *b"h6v1h-6z",
    *b"h7v1h-7z",
    *b"h8v1h-8z",
    *b"h9v1h-9z",
];

// Appends what follows the number of the row in the text of a box that is `modules` modules wide.
#[tactic(auto, unfolding(crate::specs::Svg::numbered, crate::specs::Steps::Svg::width_path))]
fn push_width(text: &mut Piece<PEN_SIZE>, modules: u16)
    requires modules { modules < 1000 }
    requires room { length text.old + 12 ≤ WRITE_MAX }
    ensures items { text.new ≡ text.old ++ width_path modules }
    ensures len { length text.new ≤ length text.old + 12 }
{
    if modules < 10 {
        let path = SHORT_RUNS[usize::from(modules)];
        text.push_all(&path);
    } else {
        text.push(b'h');
        push_three(text, modules);
        text.push_all(b"v1h-");
        push_three(text, modules);
        text.push(b'z');
    }
}

// Appends the box around `modules` dark modules, of which the first is in column `x` of the document. `row` is the text
// that `text_of_row` makes of the number of the box's row.
#[inline(always)]
#[tactic(auto, unfolding(crate::specs::Svg::box_path, crate::specs::Svg::numbered, crate::specs::Steps::Svg::width_path))]
fn push_box(text: &mut Piece<PEN_SIZE>, x: u16, row: &Piece<8>, modules: u16)
    requires column { x < 1000 }
    requires modules { modules < 1000 }
    requires room { length text.old + BOX_MAX ≤ WRITE_MAX }
    ensures items { (y : ℕ) → row.now ≡ numbered (codes " ") y → text.new ≡ text.old ++ box_path x y modules }
    ensures len { length text.new ≤ length text.old + BOX_MAX }
{
    push_column(text, x);
    text.push_piece(row);
    push_width(text, modules);
}

// Returns the part of the text of a box that states its row, which is `y`: a space and this number. It is the same in
// all boxes of a row, so it is made once for each row.
#[tactic(auto, unfolding(crate::specs::Svg::numbered))]
fn text_of_row(y: u16) -> Piece<8>
    ensures { result ≡ numbered (codes " ") y }
{
    let mut text = Piece {
        bytes: [0; 8],
        len: 0,
    };
    text.push(b' ');
    push_number(&mut text, y);
    text
}

/// Appends these bytes and then the decimal digits of a number.
#[tactic(auto, unfolding(crate::specs::Svg::numbered))]
pub fn push_numbered(text: &mut Piece<PEN_SIZE>, bytes: &[u8], number: u16)
    requires room { length text.old + length bytes.now + 5 ≤ WRITE_MAX }
    ensures items { text.new ≡ text.old ++ numbered bytes.now number }
    ensures len { length text.new ≤ length text.old + length bytes.now + 5 }
{
    let mut digits = Buffer::new();
    text.push_all(bytes);
    text.push_all(digits.format(number).as_bytes());
}

fn push_opening(text: &mut Piece<PEN_SIZE>, width: u16, height: u16)
    requires room { length text.old + 120 ≤ WRITE_MAX }
    ensures items { text.new ≡ text.old ++ opening width height }
    ensures len { length text.new ≤ length text.old + 120 }
{
    let before_width = b"<svg xmlns=\"http://www.w3.org/2000/svg\" version=\"1.1\" viewBox=\"0 0 ";
    push_numbered(text, before_width, width);
    push_numbered(text, b" ", height);
    text.push_all(b"\" shape-rendering=\"crispEdges\">\n");
}

/// Appends the line that makes a document white which is this wide and high in modules.
#[tactic(auto, unfolding(crate::specs::Svg::background))]
pub fn push_background(text: &mut Piece<PEN_SIZE>, width: u16, height: u16)
    requires room { length text.old + 80 ≤ WRITE_MAX }
    ensures items { text.new ≡ text.old ++ background width height }
    ensures len { length text.new ≤ length text.old + 80 }
{
    push_numbered(text, b"<rect x=\"0\" y=\"0\" width=\"", width);
    push_numbered(text, b"\" height=\"", height);
    text.push_all(b"\" fill=\"#ffffff\"/>\n");
}

// Appends all that comes before the first box.
fn push_head(text: &mut Piece<PEN_SIZE>, width: u16, height: u16)
    requires room { length text.old + HEAD_MAX ≤ WRITE_MAX }
    ensures items { text.new ≡ text.old ++ head width height }
    ensures len { length text.new ≤ length text.old + HEAD_MAX }
{
    text.push_all(b"<?xml version=\"1.0\" encoding=\"UTF-8\"?>\n");
    push_opening(text, width, height);
    push_background(text, width, height);
    text.push_all(b"<path fill=\"#000000\" d=\"");
}

/// Appends all that comes after the last box of a document.
#[tactic(auto, unfolding(crate::specs::Svg::tail, crate::specs::Svg::closing))]
pub fn push_tail(text: &mut Piece<PEN_SIZE>)
    requires room { length text.old + TAIL ≤ WRITE_MAX }
    ensures items { text.new ≡ text.old ++ tail }
    ensures len { length text.new ≤ length text.old + TAIL }
{
    text.push_all(b"\"/>\n</svg>\n");
}

// Writes the boxes of row `row` of the square.
fn put_row<W: Sink>(
    pen: &mut Pen,
    out: &mut W,
    top: u16,
    raster: &Raster,
    row: u8,
) -> Result<(), DrawFault>
    requires row_in { row < raster.now.matrix.now.side }
    requires top { top ≤ 16 * 1000 }
    ensures { Puts (W.device out.old) (W.device out.new)
        pen.old pen.new (row_path top raster.now.margin raster.now.matrix.now (raster.now.margin + row)) result }
{
    let left = u16::from(raster.margin);
    let y = top + left + u16::from(row);
    let row_text = text_of_row(y);
    for run in raster.matrix.dark_runs(row) {
        pen.reserve(out, BOX_MAX)?;
        push_box(
            &mut pen.piece,
            left + u16::from(run.start),
            &row_text,
            u16::from(run.end - run.start),
        );
    }
    Ok(())
}

fn put_symbol<W: Sink>(
    pen: &mut Pen,
    out: &mut W,
    top: u16,
    raster: &Raster,
) -> Result<(), DrawFault>
    requires { top ≤ 16 * 1000 }
    ensures { Puts (W.device out.old) (W.device out.new)
        pen.old pen.new (symbol_path top raster.now.margin raster.now.matrix.now) result }
{
    for row in 0..raster.matrix.side() {
        put_row(pen, out, top, raster, row)?;
    }
    Ok(())
}

/// Writes the boxes of at most 16 symbols or other squares, all with the same side, each with a light margin of `margin`
/// modules on all sides. Each square stands below the one before it. The pen may then still contain the last bytes.
///
/// # Errors
///
/// `Write`, only if a write fails or accepts no byte, or if 1,000 writes are interrupted; `out` has then accepted a
/// prefix of the pen's bytes and the boxes.
pub fn put_stack<S: HasSquare, W: Sink>(
    pen: &mut Pen,
    out: &mut W,
    symbols: &[S],
    margin: u8,
) -> Result<(), DrawFault>
    requires few { length symbols.now ≤ 16 }
    requires one_side { HaveOneSide (map S.grid symbols.now) }
    ensures { Puts (W.device out.old) (W.device out.new)
        pen.old pen.new (stack_path margin (map S.grid symbols.now)) result }
{
    let mut top = 0;
    for symbol in symbols {
        let raster = Raster {
            matrix: symbol.square(),
            margin,
        };
        put_symbol(pen, out, top, &raster)?;
        top += raster.width();
    }
    Ok(())
}

pub(crate) fn put_document<S: HasSquare, W: Sink>(
    pen: &mut Pen,
    out: &mut W,
    symbols: &[S],
    margin: u8,
) -> Result<(), DrawFault>
    requires some { 0 < length symbols.now }
    requires few { length symbols.now ≤ 16 }
    requires one_side { HaveOneSide (map S.grid symbols.now) }
    ensures { Puts (W.device out.old) (W.device out.new)
        pen.old pen.new (svg_document margin (map S.grid symbols.now)) result }
{
    let first = Raster {
        matrix: symbols[0].square(),
        margin,
    };
    let width = first.width();
    let height = width * symbols.len() as u16;
    pen.reserve(out, HEAD_MAX)?;
    push_head(&mut pen.piece, width, height);
    put_stack(pen, out, symbols, margin)?;
    pen.reserve(out, TAIL)?;
    push_tail(&mut pen.piece);
    Ok(())
}
