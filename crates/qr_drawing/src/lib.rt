//! Draws symbols as ASCII text, as UTF-8 text with two modules in each character, or as a Scalable Vector Graphics
//! document. What is drawn is written to a device in pieces, and no memory is allocated for it. `qr_documents` writes
//! documents for print.
//!
//! The files of `src`:
//!
//! - `drawing`: the types of drawing, and rasters
//! - `laws`: laws of drawings
//! - `line`: one line of a text
//! - `svg`: draws an SVG document; some of its functions are public because `qr_documents` calls them too
//! - `text`: draws lines of text
#![tactic(auto)]

mod drawing;
pub mod laws;
mod line;
pub mod svg;
mod text;

pub use drawing::{Drawing, Eights, Raster, draw};
pub use line::{draw_line, fill_line, line_len, line_room, text_lines};
pub use qr_devices::{DrawFault, WRITE_MAX, write_text};
pub use qr_matrix::HasSquare;
pub use text::TextStyle;
