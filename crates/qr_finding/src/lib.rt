//! This crate finds symbols in grey pictures: turned, tilted, mirrored, light on dark, in shadow, blurred or small. It offers
//! one square after the other that may be a symbol. The caller tries to mend a square, and says whether it was a symbol. A
//! square is offered in several ways, of which each may be the one that can be read.
//!
//! For any picture the search ends. The modules of a square and its corners are what the definitions of `qr_sampling` give
//! for the picture (`IsOffer` in `specs/Offers`). No definition says which squares are found.
//!
//! A search makes up to six passes, until one of them finds a symbol: the picture as it is, smoothed, at half and at a quarter
//! of its size, with finer thresholds, and once more with all that was left out in the first pass. A pass has four steps:
//!
//! 1. Each block of eight by eight pixels gets a threshold, and each pixel is dark or light.
//! 2. Rows are scanned for finder patterns, and the best are kept.
//! 3. Three patterns that may be the corners of a symbol are a triple. The likeliest triples are tried first. If none of the
//!    first pass is a symbol, a third pattern is looked for where two may be those of a symbol.
//! 4. From the sizes of the modules and the timing patterns comes the side of the symbol, and from the alignment pattern at
//!    the lower right its fourth corner. Then its modules are sampled. After all triples were tried so, those for which it was in
//!    vain are tried again: then the corners are moved while the patterns that every symbol has fit better.
//!
//! Nothing is allocated: the caller gives the work memory. A sum that does not fit 64 bits stops at their end, which no
//! picture reaches.
//!
//! The files of `src`:
//!
//! - `blocks`: thresholds, and dark pixels
//! - `climb`: moves the corners of a square
//! - `completing`: finder patterns that are not seen
//! - `finder`: the search, its passes, and what it offers; defined in `Offers`
//! - `fit`: how well the patterns that every symbol has fit a square
//! - `look`: whether a square looks like a symbol
//! - `number`: whole numbers that stop at the ends of 64 bits
//! - `patterns`: finder patterns
//! - `quad`: a square in perspective, and its map
//! - `ranking`: the order of the finder patterns
//! - `runs`: the runs of light and dark pixels across a finder pattern
//! - `sides`: the number of modules on a side
//! - `smaller`: smoother and smaller pictures
//! - `tables`: bytes of a table
//! - `triples`: three finder patterns that may be the corners of a symbol
//! - `view`: the dark pixels of a picture
#![tactic(auto)]

mod blocks;
mod climb;
mod completing;
mod finder;
mod fit;
mod look;
mod number;
mod patterns;
mod quad;
mod ranking;
mod runs;
mod sides;
mod smaller;
mod tables;
mod triples;
mod view;

pub use finder::{Finder, Found, Work};
pub use patterns::Pattern;
pub use quad::Quad;
pub use triples::Triple;
