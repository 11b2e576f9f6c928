//! The call that writes the image of a square of modules as a file.

ghost use Rattle.std.specs.Prelude.{◌≡◌, ◌≢◌, ◌*◌, ◌<◌, ◌≤◌, ◌^◌, ◌++◌, ◌↔◌, ◌⊎◌, drop, false, length, true, SomeIff};
ghost use Rattle.qr_images.specs.Writing.{image_file};
ghost use Rattle.qrproved.specs.Drawing.{HoldsText};
ghost use Rattle.qrproved.specs.Image.{AreImageSettings, AreSettings, HasFewImageModules, HasNoImageRoom, format_of, image_of_bytes, settings_of};

use crate::modules::area;
use crate::settings::between;
use crate::status::{DONE, ROOM, SETTINGS};
use qr_images::{Format, ImageSettings, Modules, fill_image, image_len, image_room};

fn format_of(number: u32) -> Option<Format>
    ensures { SomeIff result (number < 5) (format_of number) }
{
    match number {
        0 => Some(Format::Png),
        1 => Some(Format::Pbm),
        2 => Some(Format::EscPos),
        3 => Some(Format::Tspl),
        4 => Some(Format::Zpl),
        _ => None,
    }
}

// Where an image begins on a label.
#[derive(Clone, Copy)]
struct Place {
    left: u32,
    top: u32,
}

fn image_settings_of(
    format: u32,
    scale: u32,
    margin: u32,
    pixels_a_metre: u32,
    place: Place,
) -> Option<ImageSettings>
    ensures { SomeIff result (AreSettings format scale margin pixels_a_metre place.left place.top)
        (settings_of format scale margin pixels_a_metre place.left place.top) }
{
    let Place { left, top } = place;
    if pixels_a_metre >= 0x8000_0000 || left > 32000 || top > 32000 {
        return None;
    }
    Some(ImageSettings {
        format: format_of(format)?,
        scale: between(scale, 1, 100)?,
        margin: between(margin, 0, 100)?,
        colours: None,
        pixels_a_metre,
        left: left as u16,
        top: top as u16,
    })
}

// Writes the file to the beginning of a buffer, and returns its length.
// It is never inlined, so that its variables are not in memory while the length is counted.
#[inline(never)]
fn put_image(square: &Modules, settings: &ImageSettings, image: &mut [u8]) -> usize
    requires scale_least { 1 ≤ settings.now.scale }
    requires scale_most { settings.now.scale ≤ 100 }
    requires margin { settings.now.margin ≤ 100 }
    requires size { settings.now.pixels_a_metre < 2 ^ 31 }
    requires left { settings.now.left ≤ 32000 }
    requires top { settings.now.top ≤ 32000 }
    requires room { length (image_file settings.now square.now) ≤ length image.old }
    ensures image { image.new ≡ image_file settings.now square.now ++ drop (length (image_file settings.now square.now)) image.old }
    ensures len { result ≡ length (image_file settings.now square.now) }
{
    fill_image(square, settings, image)
}

/// Writes the file of a square to the beginning of a buffer and its length to `written`, and returns true. If the file has
/// no room, writes only its length, and returns false.
// It is never inlined, since two calls make it.
#[inline(never)]
pub(crate) fn has_put(
    square: &Modules,
    settings: &ImageSettings,
    image: &mut [u8],
    written: &mut usize,
) -> bool
    requires scale_least { 1 ≤ settings.now.scale }
    requires scale_most { settings.now.scale ≤ 100 }
    requires margin { settings.now.margin ≤ 100 }
    requires size { settings.now.pixels_a_metre < 2 ^ 31 }
    requires left { settings.now.left ≤ 32000 }
    requires top { settings.now.top ≤ 32000 }
    ensures put { result ≡ true → HoldsText (image_file settings.now square.now) image.old image.new written.new }
    ensures short { result ≡ false → length image.old < length (image_file settings.now square.now) }
    ensures unchanged { result ≡ false → image.new ≡ image.old }
    ensures needed { result ≡ false → written.new ≡ length (image_file settings.now square.now) }
{
    if image_room(square, settings) <= image.len() as u64 {
        *written = put_image(square, settings, image);
        return true;
    }
    // The file may have no room, so its bytes are counted.
    let len = image_len(square, settings);
    *written = len as usize;
    if (image.len() as u64) < len {
        return false;
    }
    *written = put_image(square, settings, image);
    true
}

/// Writes the image of a square of modules to `image`, as a file (ISO/IEC 18004:2015, 6.3.8). The square has `side`
/// rows, and need not be a symbol. `modules` begins with its modules, row by row. A module is light if it is 0, and
/// otherwise dark. `format` is 0 to 4 for PNG, PBM, ESC/POS, TSPL and ZPL. Each module is `scale` pixels wide and high, and around the
/// square is a light margin of `margin` modules. `pixels_a_metre` is how many pixels of the printed image a metre has,
/// or 0 if the file is not to say it. `left` and `top` are how far the image is from the edges of a label, in dots.
/// Formats that cannot say one of these leave it out.
///
/// On status 0 `image` begins with the file, and `written` is its length in bytes.
///
/// # Errors
///
/// The first of these that applies: `SETTINGS` (`side` is not 1 to 177, `format` more than 4, `scale` not 1 to 100,
/// `margin` more than 100, `pixels_a_metre` not below 2^31, or `left` or `top` more than 32,000), `ROOM` with `written` 0 (`modules` is too short), and
/// `ROOM` with the file's length in `written` (`image` is too short). No memory is requested.
#[unsafe(no_mangle)]
pub extern "C" fn qrproved_image(
    modules: &[u8],
    side: u32,
    format: u32,
    scale: u32,
    margin: u32,
    pixels_a_metre: u32,
    left: u32,
    top: u32,
    image: &mut [u8],
    written: &mut usize,
) -> u8
    ensures done { result ≡ DONE → (AreImageSettings side format scale margin pixels_a_metre left top)
        × (side * side ≤ length modules.now)
        × HoldsText (image_of_bytes side format scale margin pixels_a_metre left top modules.now) image.old image.new written.new }
    ensures unchanged { result ≢ DONE → image.new ≡ image.old }
    ensures settings { (result ≡ SETTINGS) ↔ (AreImageSettings side format scale margin pixels_a_metre left top → ⊥) }
    ensures room { (result ≡ ROOM) ↔ ((HasFewImageModules modules.now side format scale margin pixels_a_metre left top)
        ⊎ HasNoImageRoom modules.now side format scale margin pixels_a_metre left top image.old) }
    ensures few { HasFewImageModules modules.now side format scale margin pixels_a_metre left top → written.new ≡ 0 }
    ensures needed { HasNoImageRoom modules.now side format scale margin pixels_a_metre left top image.old
        → written.new ≡ length (image_of_bytes side format scale margin pixels_a_metre left top modules.now) }
    ensures written { result ≡ SETTINGS → written.new ≡ written.old }
    ensures status { (result ≡ DONE) ⊎ (result ≡ SETTINGS) ⊎ (result ≡ ROOM) }
{
    let Some(side) = between(side, 1, 177) else {
        return SETTINGS;
    };
    let place = Place { left, top };
    let Some(settings) = image_settings_of(format, scale, margin, pixels_a_metre, place) else {
        return SETTINGS;
    };
    if modules.len() < area(side) {
        *written = 0;
        return ROOM;
    }
    let square = Modules::new(modules, side);
    if has_put(&square, &settings, image, written) {
        DONE
    } else {
        ROOM
    }
}
