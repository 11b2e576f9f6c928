//! The colours of PDF documents. A colour is a number 0xRRGGBB, which has eight bits each for red, green and blue. The
//! command `0.200 0.400 0.502 rg` chooses the colour 0x336680 for what is filled after it.

ghost use Rattle.std.specs.Prelude.{◌≡◌, ◌≤◌, ◌+◌, ◌++◌, length};
ghost use Rattle.qr_documents.specs.Colours.{coloured_square, dark_colour, fill_colour, filled_square, light_square, share};

use crate::measures::push_last_three;
use qr_devices::{PEN_SIZE, Piece, WRITE_MAX};
use qr_drawing::svg::{push_digit, push_numbered};

/// The colours of a document. Each is a number 0xRRGGBB, which has eight bits each for red, green and blue; higher bits
/// mean nothing.
#[derive(Clone, Copy, Debug, PartialEq, Eq)]
pub struct Colours {
    /// The colour of the dark modules.
    pub dark: u32,
    /// The colour of the light modules and of the margin. If there is none, they are not drawn, and what is below them
    /// shows through.
    pub light: Option<u32>,
}

// Appends an amount of red, green or blue as a share of 255.
fn push_share(text: &mut Piece<PEN_SIZE>, amount: u8)
    requires room { length text.old + 5 ≤ WRITE_MAX }
    ensures items { text.new ≡ text.old ++ share amount }
    ensures len { length text.new ≡ length text.old + 5 }
{
    let thousandths = (2000 * u32::from(amount) + 255) / 510;
    push_digit(text, (thousandths / 1000) as u16);
    text.push(b'.');
    push_last_three(text, u64::from(thousandths));
}

// Appends the command that chooses a colour for what is filled.
#[tactic(auto, unfolding(crate::specs::Colours::fill_colour))]
fn push_fill_colour(text: &mut Piece<PEN_SIZE>, colour: u32)
    requires room { length text.old + 20 ≤ WRITE_MAX }
    ensures items { text.new ≡ text.old ++ fill_colour colour }
    ensures len { length text.new ≡ length text.old + 20 }
{
    push_share(text, (colour / 65_536 % 256) as u8);
    text.push(b' ');
    push_share(text, (colour / 256 % 256) as u8);
    text.push(b' ');
    push_share(text, (colour % 256) as u8);
    text.push_all(b" rg");
}

// Appends the rest of the commands that fill a whole square, after the command that chooses the colour.
#[tactic(auto, unfolding(crate::specs::Colours::filled_square))]
fn push_filled_square(text: &mut Piece<PEN_SIZE>, width: u16)
    requires room { length text.old + 22 ≤ WRITE_MAX }
    ensures items { text.new ≡ text.old ++ filled_square width }
    ensures len { length text.new ≤ length text.old + 22 }
{
    push_numbered(text, b" 0 0 ", width);
    push_numbered(text, b" ", width);
    text.push_all(b" re f\n");
}

// Appends the commands that fill a square with the light colour, if there is one.
#[tactic(auto, unfolding(crate::specs::Colours::coloured_square))]
fn push_coloured_square(text: &mut Piece<PEN_SIZE>, light: Option<u32>, width: u16)
    requires room { length text.old + 42 ≤ WRITE_MAX }
    ensures items { text.new ≡ text.old ++ coloured_square light width }
    ensures len { length text.new ≤ length text.old + 42 }
{
    if let Some(light) = light {
        push_fill_colour(text, light);
        push_filled_square(text, width);
    }
}

/// Appends the commands that make a square light.
#[tactic(auto, unfolding(crate::specs::Colours::light_square))]
pub(crate) fn push_light_square(text: &mut Piece<PEN_SIZE>, colours: Option<Colours>, width: u16)
    requires room { length text.old + 42 ≤ WRITE_MAX }
    ensures items { text.new ≡ text.old ++ light_square colours width }
    ensures len { length text.new ≤ length text.old + 42 }
{
    match colours {
        Some(colours) => push_coloured_square(text, colours.light, width),
        None => {
            text.push_all(b"1 g");
            push_filled_square(text, width);
        }
    }
}

/// Appends the line that chooses the colour of dark modules.
#[tactic(auto, unfolding(crate::specs::Colours::dark_colour))]
pub(crate) fn push_dark_colour(text: &mut Piece<PEN_SIZE>, colours: Option<Colours>)
    requires room { length text.old + 21 ≤ WRITE_MAX }
    ensures items { text.new ≡ text.old ++ dark_colour colours }
    ensures len { length text.new ≤ length text.old + 21 }
{
    match colours {
        Some(colours) => {
            push_fill_colour(text, colours.dark);
            text.push(b'\n');
        }
        None => text.push_all(b"0 g\n"),
    }
}
