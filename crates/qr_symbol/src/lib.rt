//! Encodes an input as one symbol or as a series of symbols, and reads symbols back.
//!
//! The following code writes the modules of a symbol as text, with `#` for each dark one:
//!
//! ```text
//! let (first, interpretation) = (Version::FIRST, Interpretation::Default);
//! let symbol = encode(alloc, input, Level::M, first, Rule::Auto, interpretation)?;
//! for row in 0..symbol.matrix.side() {
//!     for col in 0..symbol.matrix.side() {
//!         text.push(if symbol.matrix.dark(row, col) { b'#' } else { b' ' })?;
//!     }
//!     text.push(b'\n')?;
//! }
//! ```
//!
//! The crate `example_label` has such a function with its contract. To be scanned, a symbol needs a quiet zone: a light
//! margin of four modules on each side.
//!
//! In this crate the message is the data codewords of a symbol, and the final sequence is all its codewords,
//! interleaved. The region is all modules outside the function patterns, the dark module, the format information and
//! the version information. A plain symbol is one without a structured append header.
//!
//! The files of `src`:
//!
//! - `canvas`: draws symbols on a canvas that all symbols of a series share
//! - `collecting`: collects the codewords from the strips
//! - `encoding`: encodes an input as one symbol
//! - `fault`: the faults of encoding and of reading
//! - `interleaving`: blocks, their error correction codewords, and the final sequence
//! - `joining`: reads the symbols of a series, and joins their bytes
//! - `laws`: laws of masks, interleaving, reading and series
//! - `mask`: what a mask inverts (Table 10), and the choice of the mask (`Choice`)
//! - `patterns`: the colours of function patterns, format information and version information
//! - `placement`: draws the codewords into the strips
//! - `reading`: reads one symbol, without error correction
//! - `redrawing`: draws a symbol once more under another mask
//! - `series`: encodes an input as a series
//! - `spans`: the rows of a strip that are drawn or read at once
//! - `symbol`: makes the symbol of given codewords under a given mask
//! - `version_choice`: the least version, and the highest level, that an input fits
//! - `words`: moves bits within words, and collects bits into codewords
#![tactic(auto)]

mod canvas;
mod collecting;
mod encoding;
mod fault;
mod interleaving;
mod joining;
pub mod laws;
mod mask;
mod patterns;
mod placement;
mod reading;
mod redrawing;
mod series;
mod spans;
mod symbol;
mod version_choice;
mod words;

pub use encoding::{Asked, encode, encode_as};
pub use fault::{EncodeFault, ReadFault};
pub use interleaving::{BlockSizes, deinterleave, interleave};
pub use joining::{join, read_series};
pub use mask::build;
pub use qr_bits::{INPUT_MAX, Interpretation, Rule, Writing, may_write};
pub use qr_layout::{Level, Size, Version};
pub use qr_matrix::{Matrix, penalty};
pub use reading::{read_codewords, read_symbol, read_unmasked};
pub use redrawing::with_mask;
pub use series::encode_series;
pub use symbol::{Symbol, build_masked, draw_symbol};
