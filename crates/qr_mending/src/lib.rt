//! Reads damaged symbols, and corrects their errors (ISO/IEC 18004:2015, 7.5.1, 7.9.1 and 12, Annexes B and C). A
//! codeword is misread if it was read with a wrong value, and erased if it is known to be unreadable. A block is mended
//! if no more of its codewords are misread or erased than the standard allows. The level and the mask are found by the
//! two copies of the format information, and are taken only if all blocks can be mended with them.
//!
//! The files of `src`:
//!
//! - `block`: mends a block
//! - `erasures`: mends a block of which some codewords are erased
//! - `errors`: removes the errors of the codewords at known locations
//! - `format`: the level and the mask, by both copies of the format information
//! - `laws`: laws of mending
//! - `locator`: the error locator, by the algorithm of Berlekamp and Massey; defined in `Steps/Polynomial`
//! - `mending`: mends and reads a symbol, and measures its damage
//! - `message`: mends the data codewords of a symbol, block by block
//! - `polynomial`: polynomials over the field with the leading coefficient 1
//! - `roots`: polynomials with a root for each erased codeword
//! - `scan`: what was read of a square of modules
//! - `series`: mends the symbols of a series, and joins their bytes
//! - `sums`: syndromes, and values of the locator, sixteen at a time
#![tactic(auto)]

mod block;
mod erasures;
mod errors;
mod format;
pub mod laws;
mod locator;
mod mending;
mod message;
mod polynomial;
mod roots;
mod scan;
mod series;
mod sums;

pub use block::mend;
pub use erasures::{Changes, mend_with_erasures};
pub use format::FormatCopy;
pub use mending::{Mended, mend_symbol, mend_symbol_with_unknown};
pub use series::mend_series;
