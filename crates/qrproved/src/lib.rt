//! A library for C, and for each language that can call C functions. In the comments of this crate a call is one of the
//! library's functions, which `include/qrproved.h` declares. The calls encode an input as a symbol, also for a logo, or
//! as a series, draw symbols under other masks, read symbols, mend damaged ones, draw squares of modules, write them as
//! documents for print, as labels or as images, parse drawings, find symbols in pictures, and say how much fits a
//! symbol. A call writes modules, bytes, ECI headers, texts and files to buffers of the caller, and numbers to a struct
//! or a variable of the caller. It keeps no memory, so there is nothing to free.
//!
//! The contracts of the calls hold if the caller fulfils the conditions under 'What the caller owes' in
//! `docs/LIBRARY.md`. If a buffer is longer than the result, the bytes after the result stay as they are. On each
//! status but 0 the buffers, structs and variables of the caller are unchanged. There are two exceptions: if a buffer is
//! too short, each call that writes a text or a file still sets `written`,
//! and with the status `LOGO` `qrproved_encode_logo` sets `largest`.
//!
//! If a call cannot do what it is asked for, it returns the status of the first cause that applies, in the order in
//! which its comment lists the causes. If memory is refused, it returns `MEMORY`. The comment also names the causes
//! that are found before memory is requested. These are reported even if memory would be refused.
//!
//! The files of `src`:
//!
//! - `bits`: squares of modules as bits of a buffer
//! - `document`: the call that writes documents for print
//! - `drawing`: the call that draws squares of modules
//! - `encoding`: the calls that encode an input as one symbol
//! - `finding`: the call that finds symbols in a picture
//! - `image`: the call that writes the image of a square as a file
//! - `interpretation`: ECI headers and FNC1, as numbers for C
//! - `laws`: laws about the calls and their numbers
//! - `logo`: the call that encodes an input as a symbol that may have a logo
//! - `masking`: the call that draws a symbol once more under another mask
//! - `mending`: the call that reads a damaged symbol and measures its damage
//! - `modules`: squares of modules as bytes of a buffer
//! - `parsing`: the call that parses a drawing
//! - `pdf`: the call that writes a PDF document in two colours
//! - `png`: the call that writes the image of a square as a PNG file in two colours
//! - `reading`: the call that reads a symbol without error correction
//! - `room`: the call that says how much fits a symbol
//! - `row`: the call that draws one line of a text
//! - `series`: the call that encodes an input as a series
//! - `settings`: which numbers of a caller are allowed, and what they mean
//! - `sheets`: the call that writes labels on sheets of paper
//! - `status`: the statuses that calls return
//! - `version`: the version of the library
#![tactic(auto)]

mod bits;
mod document;
mod drawing;
mod encoding;
mod finding;
mod image;
mod interpretation;
pub mod laws;
mod logo;
mod masking;
mod mending;
mod modules;
mod parsing;
mod pdf;
mod png;
mod reading;
mod room;
mod row;
mod series;
mod settings;
mod sheets;
mod status;
mod version;

pub use document::qrproved_document;
pub use drawing::qrproved_draw;
pub use encoding::{QrprovedSymbol, qrproved_encode, qrproved_encode_bits};
pub use finding::{QrprovedFound, qrproved_find};
pub use image::qrproved_image;
pub use interpretation::QrprovedEci;
pub use logo::qrproved_encode_logo;
pub use masking::qrproved_set_mask;
pub use mending::{QrprovedMended, qrproved_mend};
pub use parsing::{QrprovedDrawn, qrproved_parse_drawing};
pub use reading::{QrprovedContent, qrproved_read};
pub use room::qrproved_room;
pub use row::qrproved_draw_row;
pub use series::{QrprovedSeries, qrproved_encode_series};
pub use sheets::{QrprovedSheet, qrproved_sheets};
pub use version::qrproved_version;
