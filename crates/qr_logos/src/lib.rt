//! Logos: how large a square in the middle of a symbol may be covered, so that the symbol can still be read whatever
//! colours the covered modules get. Each codeword with a covered module counts as misread.
//!
//! The files of `src`:
//!
//! - `encoding`: encodes an input as a symbol that may have a logo
//! - `fault`: the faults of encoding with a logo
//! - `laws`: laws of logos
//! - `logo`: how many codewords of a block a logo covers, and the largest logo that is allowed
#![tactic(auto)]

mod encoding;
mod fault;
pub mod laws;
mod logo;

pub use encoding::{Logo, encode_with_logo};
pub use fault::LogoFault;
pub use logo::{covered, largest_clear, largest_logo};
