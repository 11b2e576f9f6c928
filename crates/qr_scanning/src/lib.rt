//! This crate finds the symbols of a grey picture, and reads whether each is one. A clean picture, as programs draw it, is
//! tried first, by `qr_pictures`. If it is no clean picture of a symbol, `qr_finding` offers squares, and each is mended.
//!
//! A square counts as a symbol if it can be mended and at most one of its modules in five is wrong or not known. Without
//! this limit, squares of noise with modules that are not known are now and then mended to some text. In a picture that is
//! not clean, at most one module in ten may be wrong if the timing patterns do not show that the square has the right
//! side: three finder patterns may be of several symbols. And if modules of a block are not known, three of the codewords that
//! correct it are left as a check: without one, such a block is mended to any text.
//!
//! The files of `src`:
//!
//! - `clean`: the symbol of a clean picture
//! - `laws`: laws of scanning
//! - `reading`: whether a square is a symbol; defined in `Reading`
//! - `scanning`: the symbols of any picture; defined in `Scanning`
//! - `search`: the next square that may be a symbol
#![tactic(auto)]

mod clean;
pub mod laws;
mod reading;
mod scanning;
mod search;

pub use scanning::{Scanned, scan};
