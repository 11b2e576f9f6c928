//! Writes the image of a square of modules as a PNG file, as a PBM file, or in a language of printers: ESC/POS, TSPL or
//! ZPL. The file is written to a device in pieces, or into a buffer, and no memory is allocated for it.
//!
//! In a PNG file the lines of pixels are compressed as one block of deflate, with codes that are constants. A line has
//! the codes of all its bytes, and lines that are the same follow as copies. No choice depends on the modules. If the
//! scale is even, the codes of four modules at a time are looked up.
//!
//! The files of `src`:
//!
//! - `bitmap_lines`: writes the lines of a bitmap
//! - `buffer`: writes an image into a buffer
//! - `checksums`: CRC-32, and Adler-32 of a line and its copies at once
//! - `chunks`: the chunks of a PNG file
//! - `codes`: the three sets of codes
//! - `copies`: appends codes and copies to the compressed bits
//! - `escpos`: writes an image in ESC/POS, for receipt printers
//! - `image`: the settings of an image, and the call that writes it
//! - `laws`: laws of images
//! - `lines`: appends the lines of an image to the compressed bits
//! - `modules`: the square of which an image is written
//! - `pbm`: writes a PBM file
//! - `pixels`: the pixels of a line, eight at a time
//! - `png`: writes a PNG file
//! - `quads`: the codes of four modules beside each other
//! - `runs`: runs of hexadecimal digits, as ZPL packs them
//! - `stream`: the compressed bits, handed on in parts
//! - `target`: a device that counts the bytes of a file, or writes them into a buffer
//! - `texts`: texts and numbers, of which commands of printers are made
//! - `tspl`: writes an image in TSPL, for label printers
//! - `zpl`: writes an image in ZPL, for label printers
#![tactic(auto)]

mod bitmap_lines;
mod buffer;
mod checksums;
mod chunks;
mod codes;
mod copies;
mod escpos;
mod image;
pub mod laws;
mod lines;
mod modules;
mod pbm;
mod pixels;
mod png;
mod quads;
mod runs;
mod stream;
mod target;
mod texts;
mod tspl;
mod zpl;

pub use buffer::{fill_image, image_len, image_room};
pub use image::{Colours, Format, ImageSettings, write_image};
pub use modules::Modules;
