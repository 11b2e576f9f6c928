//! This crate parses drawings: it finds the type, the margin and the squares of a text or an SVG document. It accepts
//! exactly the drawings that `qr_drawing` makes of squares of 8 to 177 modules on a side that begin as symbols do: the
//! module at the top left is dark, and the one in column 7 of row 0 is light.
//!
//! The parse assumes that the text is a drawing, and reads each module at the place where a drawing would have it. Then
//! it draws the result again, and compares this drawing with the text. So no other check of the text is needed: if the
//! text is no drawing, the drawing of whatever was read from it differs from the text. The parse draws at most one byte
//! more than the text has.
//!
//! The files of `src`:
//!
//! - `laws`: laws of parsing
//! - `parsing`: guesses the drawing that a text can be, draws it, and compares
//! - `sheet`: the list of bytes from which the modules of any drawing are read
//! - `svg`: the sheet of an SVG document
//! - `text`: the type of a text, and its sheet
#![tactic(auto)]

pub mod laws;
mod parsing;
mod sheet;
mod svg;
mod text;

pub use parsing::{DrawingFault, Drawn, parse_drawing};
