//! Draws symbols as lines of text. A line consists of cells. In the style `HalfBlocks` a cell is one character, which
//! shows a module `upper` and the module `lower` below it; in the other styles it is two characters, which show only
//! the module `upper`.
//!
//! Most modules are read eight at a time, and most cells are appended four at a time, by one or two copies from a
//! table. In names, `eight` means eight neighbouring modules of a row, `quad` four and `pair` two. These modules are
//! the bits of a number. Bit 0 is the leftmost module, and a bit that is 1 stands for a dark module.
//!
//! A raster has fewer than 1,000 rows (`drawing.rt` says why). So the number of a line, counted from 0, is below 1,000.
//! The first row of modules that a line shows has a number below 2,000.

ghost use Rattle.std.specs.Prelude.{◌≡◌, ◌≤◌, ◌<◌, ◌+◌, ◌-◌, ◌*◌, ◌/◌, ◌%◌, ◌++◌, ◌∷◌, [], false, length, map};
ghost use Rattle.std.specs.List.{flat_map};
ghost use Rattle.qr_drawing.specs.Raster.{texts_below};
ghost use Rattle.qr_drawing.specs.Text.{half_blocks, line_count, line_of, text_drawing};
ghost use Rattle.qr_drawing.specs.Steps.Text.{AreDark, bits_text, cell_room, cell_text, pair_text};
ghost use Rattle.qr_devices.specs.Pen.{Puts};
ghost use Rattle.qr_drawing.specs.declared.text.TextStyle.TheVariants.{HalfBlocks, Plain};

use crate::drawing::{Eights, Raster};
use qr_devices::{DrawFault, PEN_SIZE, Pen, Piece, Sink, WRITE_MAX};
use qr_matrix::HasSquare;

/// How a text shows modules.
#[derive(Clone, Copy)]
pub enum TextStyle {
    /// Two `#` show a dark module, and two spaces a light one.
    Plain,
    /// Two spaces show a dark module, and two `#` a light one.
    Inverse,
    /// One character, a space or a block character, shows two modules, one above the other.
    HalfBlocks,
}

/// How a text shows a square: its style, and the width of its margin in modules.
#[derive(Clone, Copy)]
pub(crate) struct Look {
    pub(crate) style: TextStyle,
    pub(crate) margin: u8,
}

// Appends one character, whose filled parts are light modules.
fn push_half_block(text: &mut Piece<PEN_SIZE>, upper: bool, lower: bool)
    requires room { length text.old + 3 ≤ WRITE_MAX }
    ensures items { text.new ≡ text.old ++ half_blocks upper lower }
    ensures len { length text.new ≤ length text.old + 3 }
{
    let last = match (upper, lower) {
        (true, true) => {
            text.push(b' ');
            return;
        }
        (true, false) => 0x84,
        (false, true) => 0x80,
        (false, false) => 0x88,
    };
    text.push(0xE2);
    text.push(0x96);
    text.push(last);
}

fn push_cell(text: &mut Piece<PEN_SIZE>, style: TextStyle, upper: bool, lower: bool)
    requires room { length text.old + cell_room style ≤ WRITE_MAX }
    ensures { text.new ≡ text.old ++ cell_text style upper lower }
{
    let dark = match style {
        TextStyle::Plain => upper,
        TextStyle::Inverse => !upper,
        TextStyle::HalfBlocks => {
            push_half_block(text, upper, lower);
            return;
        }
    };
    let character = if dark { b'#' } else { b' ' };
    text.push_all(&[character; 2]);
}

// Returns eight modules of row `y` of the raster, from column `col` of the square on. All are light if the first of
// them is not in the square.
#[inline(always)]
#[tactic(auto, using(crate::proofs::lemmas::svg::is_dark_at_above, crate::proofs::lemmas::svg::is_dark_at_below, crate::proofs::lemmas::text::CellLemmas::dark_none))]
fn dark_bits<M: Eights>(square: &M, margin: u8, y: u16, col: u8) -> u8
    requires { col % 8 ≡ 0 }
    ensures { AreDark margin (M.seen square.now) y col result }
{
    let first = u16::from(margin);
    let side = square.side();
    if y < first || y >= first + u16::from(side) || col >= side {
        return 0;
    }
    square.eight((y - first) as u8, col)
}

// The text of four modules in the style `Plain`. The index is the number whose bits are the modules.
static ASCII_QUADS: [[u8; 8]; 16] = [
    *b"        ",
    *b"##      ",
    *b"  ##    ",
    *b"####    ",
    *b"    ##  ",
    *b"##  ##  ",
    *b"  ####  ",
    *b"######  ",
    *b"      ##",
    *b"##    ##",
    *b"  ##  ##",
    *b"####  ##",
    *b"    ####",
    *b"##  ####",
    *b"  ######",
    *b"########",
];

// Two characters in the style `HalfBlocks`, which show two modules and the two below them. In the index, bits 0 and 1
// are the upper modules, and bits 2 and 3 the lower. An entry has the bytes of the two characters, filled up to eight
// bytes with spaces, and a number. The number says how many bytes the two characters have: two, four or six.
static HALF_BLOCK_PAIRS: [([u8; 8], usize); 16] = [
    (*b"\xE2\x96\x88\xE2\x96\x88  ", 6),
    (*b"\xE2\x96\x84\xE2\x96\x88  ", 6),
    (*b"\xE2\x96\x88\xE2\x96\x84  ", 6),
    (*b"\xE2\x96\x84\xE2\x96\x84  ", 6),
    (*b"\xE2\x96\x80\xE2\x96\x88  ", 6),
    (*b" \xE2\x96\x88    ", 4),
    (*b"\xE2\x96\x80\xE2\x96\x84  ", 6),
    (*b" \xE2\x96\x84    ", 4),
    (*b"\xE2\x96\x88\xE2\x96\x80  ", 6),
    (*b"\xE2\x96\x84\xE2\x96\x80  ", 6),
    (*b"\xE2\x96\x88     ", 4),
    (*b"\xE2\x96\x84     ", 4),
    (*b"\xE2\x96\x80\xE2\x96\x80  ", 6),
    (*b" \xE2\x96\x80    ", 4),
    (*b"\xE2\x96\x80     ", 4),
    (*b"        ", 2),
];

// Appends two characters. All eight bytes of the entry are copied, however many bytes the characters have.
#[inline(always)]
fn push_half_block_pair(text: &mut Piece<PEN_SIZE>, pair: u8)
    requires small { pair < 16 }
    requires room { length text.old + 6 ≤ WRITE_MAX }
    ensures { text.new ≡ text.old ++ pair_text pair }
{
    let (bytes, count) = HALF_BLOCK_PAIRS[usize::from(pair)];
    text.push_first(&bytes, count);
}

// Appends four characters. Their upper modules are bits 0 to 3 of `upper`, and their lower modules bits 0 to 3 of
// `lower`.
#[inline(always)]
fn push_half_block_quad(text: &mut Piece<PEN_SIZE>, upper: u8, lower: u8)
    requires room { length text.old + 12 ≤ WRITE_MAX }
    ensures { text.new ≡ text.old ++ bits_text 4 HalfBlocks upper lower }
{
    push_half_block_pair(text, upper % 4 + lower % 4 * 4);
    push_half_block_pair(text, upper / 4 % 4 + lower / 4 % 4 * 4);
}

// Appends four cells, whose modules are bits 0 to 3 of `upper` and `lower`.
#[inline(always)]
fn push_quad(text: &mut Piece<PEN_SIZE>, style: TextStyle, upper: u8, lower: u8)
    requires room { length text.old + 4 * cell_room style ≤ WRITE_MAX }
    ensures { text.new ≡ text.old ++ bits_text 4 style upper lower }
{
    let quad = match style {
        TextStyle::Plain => upper % 16,
        TextStyle::Inverse => 15 - upper % 16,
        TextStyle::HalfBlocks => {
            push_half_block_quad(text, upper, lower);
            return;
        }
    };
    text.push_all(&ASCII_QUADS[usize::from(quad)]);
}

// Appends `count` light cells. The names of the loops' variables are for the prover.
#[inline(always)]
fn push_light(text: &mut Piece<PEN_SIZE>, style: TextStyle, count: u16)
    requires room { length text.old + count * cell_room style ≤ WRITE_MAX }
    ensures items { text.new ≡ text.old ++ texts_below count (λ _. cell_text style false false) }
    ensures len { length text.new ≤ length text.old + count * cell_room style }
{
    for quads in 0..count / 4 {
        push_quad(text, style, 0, 0);
    }
    for cells in 0..count % 4 {
        push_cell(text, style, false, false);
    }
}

// Writes line `y` in three parts, because the pen may have too little room for the whole line at once. The first part
// is the left margin. The second is the columns of the square, eight at a time, and then four if at least four are
// left. The third part is the last columns, of which there are fewer than four, with the right margin and the newline.
// (In a symbol there is one last column.) The label of the loop is for the prover.
#[inline(always)]
pub(crate) fn put_line<M: Eights, W: Sink>(
    pen: &mut Pen,
    out: &mut W,
    look: Look,
    square: &M,
    y: u16,
) -> Result<(), DrawFault>
    requires { y < 1000 }
    ensures { Puts (W.device out.old) (W.device out.new)
        pen.old pen.new (line_of look.style look.margin (M.seen square.now) y) result }
{
    let Look { style, margin } = look;
    // The greatest number of bytes of a cell, and the first row of modules that the line shows.
    let (most, row) = match style {
        TextStyle::Plain | TextStyle::Inverse => (2, y),
        TextStyle::HalfBlocks => (3, 2 * y),
    };
    let margins = u16::from(margin);
    let side = square.side();
    pen.reserve(out, usize::from(margins) * most)?;
    push_light(&mut pen.piece, style, margins);
    pen.reserve(out, usize::from(side) * most)?;
    let text = &mut pen.piece;
    let mut col = 0;
    'eights: while side - col >= 8 {
        let upper = dark_bits(square, margin, row, col);
        let lower = dark_bits(square, margin, row + 1, col);
        push_quad(text, style, upper, lower);
        push_quad(text, style, upper / 16, lower / 16);
        col += 8;
    }
    // The columns that are left, of which there are fewer than eight, are the lowest bits of `upper` and `lower`.
    let mut upper = dark_bits(square, margin, row, col);
    let mut lower = dark_bits(square, margin, row + 1, col);
    let mut left = side - col;
    if left >= 4 {
        push_quad(text, style, upper, lower);
        upper /= 16;
        lower /= 16;
        left -= 4;
    }
    pen.reserve(out, usize::from(u16::from(left) + margins) * most + 1)?;
    let text = &mut pen.piece;
    for done in 0..left {
        push_cell(
            text,
            style,
            (upper >> done) % 2 == 1,
            (lower >> done) % 2 == 1,
        );
    }
    push_light(text, style, margins);
    // Only for the prover: the pen contains at most `WRITE_MAX` bytes, with the newline too.
    prove!(text.len < WRITE_MAX);
    text.push_all(b"\n");
    Ok(())
}

/// Returns the number of lines that show `rows` rows of modules. If the number of rows is odd, the last line of half
/// blocks shows one row, and light modules below it.
#[inline(always)]
pub(crate) fn line_count(style: TextStyle, rows: u16) -> u16
    ensures { result ≡ line_count style rows }
{
    match style {
        TextStyle::Plain | TextStyle::Inverse => rows,
        TextStyle::HalfBlocks => rows.div_ceil(2),
    }
}

/// Writes the texts of all symbols, and nothing between two of them. It is inlined into each of its calls in `draw`,
/// where the style is a constant, so that no loop has to test the style.
#[inline(always)]
pub(crate) fn put_texts<S: HasSquare, W: Sink>(
    pen: &mut Pen,
    out: &mut W,
    style: TextStyle,
    symbols: &[S],
    margin: u8,
) -> Result<(), DrawFault>
    ensures { Puts (W.device out.old) (W.device out.new)
        pen.old pen.new (flat_map (text_drawing style margin) (map S.grid symbols.now)) result }
{
    for symbol in symbols {
        let square = symbol.square();
        let raster = Raster {
            matrix: square,
            margin,
        };
        let lines = line_count(style, raster.width());
        for y in 0..lines {
            put_line(pen, out, Look { style, margin }, square, y)?;
        }
    }
    Ok(())
}
