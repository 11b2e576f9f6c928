//! The call that draws a square of modules line by line (ISO/IEC 18004:2015, 6.3.8).

ghost use Rattle.std.specs.Prelude.{◌≡◌, ◌≢◌, ◌<◌, ◌≤◌, ◌↔◌, ◌⊎◌, length, SomeIff};
ghost use Rattle.qrproved.specs.Bits.{bytes_of_bits};
ghost use Rattle.qrproved.specs.Drawing.{HoldsText};
ghost use Rattle.qrproved.specs.Row.{AreRowSettings, HasFewBits, HasNoRowRoom, row_of_bits, style_of};

use crate::bits::{Bits, bits_len};
use crate::settings::between;
use crate::status::{DONE, ROOM, SETTINGS};
use qr_drawing::{TextStyle, fill_line, line_len, line_room, text_lines};

// The numbers of a caller, after they were checked.
#[derive(Clone, Copy)]
struct RowSettings {
    // The number of rows and columns of the square.
    side: u8,
    style: TextStyle,
    // The number of light modules on each side of the square.
    margin: u8,
    // The number of the line.
    row: u16,
}

fn style_of(number: u32) -> Option<TextStyle>
    ensures { SomeIff result (number < 3) (style_of number) }
{
    match number {
        0 => Some(TextStyle::Plain),
        1 => Some(TextStyle::Inverse),
        2 => Some(TextStyle::HalfBlocks),
        _ => None,
    }
}

fn row_settings_of(side: u32, drawing: u32, margin: u32, row: u32) -> Option<RowSettings>
    ensures { SomeIff result (AreRowSettings side drawing margin row)
        (record { side = side; style = style_of drawing; margin = margin; row = row }) }
{
    let side = between(side, 1, 177)?;
    let style = style_of(drawing)?;
    let margin = between(margin, 0, 100)?;
    if row >= u32::from(text_lines(style, side, margin)) {
        return None;
    }
    Some(RowSettings {
        side,
        style,
        margin,
        row: row as u16,
    })
}

/// Writes one line of the text that `qrproved_draw` writes of one square to `text`, with the line feed at its end
/// (ISO/IEC 18004:2015, 6.3.8). The lines of the text one after the other are the whole text. The square has `side`
/// rows, and need not be a symbol. `bits` begins with its modules as bits, as `qrproved_encode_bits` writes them.
/// `drawing` is 0 to 2 for ASCII, ASCIIi and UTF8, and `margin` is the number of light modules on each side of the
/// square. `row` is the number of the line, counted from 0. In ASCII and ASCIIi the text has `side + 2 * margin` lines,
/// and in UTF8 it has half as many, rounded up.
///
/// On status 0 `text` begins with the line, and `written` is its length in bytes. It is at most `2 * side + 4 * margin +
/// 1` in ASCII and ASCIIi, and `3 * side + 6 * margin + 1` in UTF8.
///
/// # Errors
///
/// The first of these that applies: `SETTINGS` (`side` is not 1 to 177, `drawing` more than 2, `margin` more than 100, or
/// the text has no line `row`), `ROOM` with `written` 0 (`bits` is too short), and `ROOM` with the line's length in
/// `written` (`text` is too short). No memory is requested.
#[unsafe(no_mangle)]
pub extern "C" fn qrproved_draw_row(
    bits: &[u8],
    side: u32,
    drawing: u32,
    margin: u32,
    row: u32,
    text: &mut [u8],
    written: &mut usize,
) -> u8
    ensures done { result ≡ DONE → (AreRowSettings side drawing margin row)
        × (bytes_of_bits side ≤ length bits.now)
        × HoldsText (row_of_bits side drawing margin row bits.now) text.old text.new written.new }
    ensures unchanged { result ≢ DONE → text.new ≡ text.old }
    ensures settings { (result ≡ SETTINGS) ↔ (AreRowSettings side drawing margin row → ⊥) }
    ensures room { (result ≡ ROOM) ↔ ((HasFewBits bits.now side drawing margin row)
        ⊎ HasNoRowRoom bits.now side drawing margin row text.old) }
    ensures few { HasFewBits bits.now side drawing margin row → written.new ≡ 0 }
    ensures needed { HasNoRowRoom bits.now side drawing margin row text.old
        → written.new ≡ length (row_of_bits side drawing margin row bits.now) }
    ensures written { result ≡ SETTINGS → written.new ≡ written.old }
    ensures status { (result ≡ DONE) ⊎ (result ≡ SETTINGS) ⊎ (result ≡ ROOM) }
{
    let Some(asked) = row_settings_of(side, drawing, margin, row) else {
        return SETTINGS;
    };
    if bits.len() < bits_len(asked.side) {
        *written = 0;
        return ROOM;
    }
    let square = Bits::new(bits, asked.side);
    // The bytes of the line are counted only if it may have no room.
    if text.len() < line_room(&square, asked.style, asked.margin) {
        let len = line_len(&square, asked.style, asked.margin, asked.row);
        *written = len;
        if text.len() < len {
            return ROOM;
        }
    }
    *written = fill_line(&square, asked.style, asked.margin, asked.row, text);
    DONE
}
