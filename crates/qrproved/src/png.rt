//! The call that writes the image of a square of modules as a PNG file in two colours.

ghost use Rattle.std.specs.Prelude.{◌≡◌, ◌≢◌, ◌*◌, ◌<◌, ◌≤◌, ◌^◌, ◌↔◌, ◌⊎◌, length, SomeIff};
ghost use Rattle.qrproved.specs.Drawing.{HoldsText};
ghost use Rattle.qrproved.specs.Png.{ArePngSettings, LacksPngModules, LacksPngRoom, png_of_bytes, settings_of};

use crate::image::has_put;
use crate::modules::area;
use crate::settings::between;
use crate::status::{DONE, ROOM, SETTINGS};
use qr_images::{Colours, Format, ImageSettings, Modules};

fn png_settings_of(
    scale: u32,
    margin: u32,
    pixels_a_metre: u32,
    colours: Colours,
) -> Option<ImageSettings>
    ensures { SomeIff result ((1 ≤ scale) × (scale ≤ 100) × (margin ≤ 100) × (pixels_a_metre < 2 ^ 31))
        (settings_of scale margin pixels_a_metre colours.dark colours.light) }
{
    if pixels_a_metre >= 0x8000_0000 {
        return None;
    }
    Some(ImageSettings {
        format: Format::Png,
        scale: between(scale, 1, 100)?,
        margin: between(margin, 0, 100)?,
        colours: Some(colours),
        pixels_a_metre,
        left: 0,
        top: 0,
    })
}

/// Writes the image of a square of modules to `image`, as a PNG file in two colours (ISO/IEC 18004:2015, 6.3.8). The square
/// has `side` rows, and need not be a symbol. `modules` begins with its modules, row by row. A module is light if it is 0,
/// and otherwise dark. Each module is `scale` pixels wide and high, and around the square is a light margin of `margin`
/// modules. `pixels_a_metre` is how many pixels of the printed image a metre has, or 0 if the file is not to say it. `dark`
/// and `light` are colours 0xRRGGBBAA: red, green and blue, and how opaque the colour is, from 0x00 to 0xFF.
///
/// On status 0 `image` begins with the file, and `written` is its length in bytes.
///
/// # Errors
///
/// The first of these that applies: `SETTINGS` (`side` is not 1 to 177, `scale` not 1 to 100, `margin` more than 100, or
/// `pixels_a_metre` not below 2^31), `ROOM` with `written` 0 (`modules` is too short), and `ROOM` with the file's length in
/// `written` (`image` is too short). No memory is requested.
#[unsafe(no_mangle)]
pub extern "C" fn qrproved_png(
    modules: &[u8],
    side: u32,
    scale: u32,
    margin: u32,
    pixels_a_metre: u32,
    dark: u32,
    light: u32,
    image: &mut [u8],
    written: &mut usize,
) -> u8
    ensures done { result ≡ DONE → (ArePngSettings side scale margin pixels_a_metre) × (side * side ≤ length modules.now)
        × HoldsText (png_of_bytes side scale margin pixels_a_metre dark light modules.now) image.old image.new written.new }
    ensures unchanged { result ≢ DONE → image.new ≡ image.old }
    ensures settings { (result ≡ SETTINGS) ↔ (ArePngSettings side scale margin pixels_a_metre → ⊥) }
    ensures room { (result ≡ ROOM) ↔ ((LacksPngModules modules.now side scale margin pixels_a_metre)
        ⊎ LacksPngRoom modules.now side scale margin pixels_a_metre dark light image.old) }
    ensures few { LacksPngModules modules.now side scale margin pixels_a_metre → written.new ≡ 0 }
    ensures needed { LacksPngRoom modules.now side scale margin pixels_a_metre dark light image.old
        → written.new ≡ length (png_of_bytes side scale margin pixels_a_metre dark light modules.now) }
    ensures written { result ≡ SETTINGS → written.new ≡ written.old }
    ensures status { (result ≡ DONE) ⊎ (result ≡ SETTINGS) ⊎ (result ≡ ROOM) }
{
    let Some(side) = between(side, 1, 177) else {
        return SETTINGS;
    };
    let colours = Colours { dark, light };
    let Some(settings) = png_settings_of(scale, margin, pixels_a_metre, colours) else {
        return SETTINGS;
    };
    if modules.len() < area(side) {
        *written = 0;
        return ROOM;
    }
    let square = Modules::new(modules, side);
    if has_put(&square, &settings, image, written) {
        DONE
    } else {
        ROOM
    }
}
