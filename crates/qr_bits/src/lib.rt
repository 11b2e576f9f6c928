//! This crate makes the data codewords of an input, and parses data codewords. An input is cut into segments, each of
//! which is written in one mode. The data codewords of a symbol contain these segments as bits. Parsing finds the
//! segments again, and the bytes that they stand for.
//!
//! The files of `src`:
//!
//! - `best_modes`: the best mode of each byte, by dynamic programming
//! - `bits`: writes bits into codewords, and reads them
//! - `fault`: the faults of this crate
//! - `folding`: capitals in place of small letters
//! - `interpretation`: ECI headers, FNC1, and how GS1 data are written
//! - `laws`: laws of segments, bits and parsing
//! - `longest_prefix`: the longest part of a series; its definitions are in `Segmentation`
//! - `lower_bound`: a lower bound on the bits of an input; its definitions are in `Segmentation`
//! - `modes`: the modes, with their indicators, counts and characters (Tables 2, 3 and 5)
//! - `padding`: the data codewords: the bit stream, a terminator and padding
//! - `parsing`: what data codewords mean, and what `%` stands for
//! - `room`: how many characters of one mode fit a symbol
//! - `run_state`: the nine states, and what a byte adds to the bits in each
//! - `segmentation`: the segments of fewest bits
//! - `stream`: the bit stream, with a structured append header (`Header`)
//! - `writing`: a rule and an interpretation together
#![tactic(auto)]

mod best_modes;
mod bits;
mod fault;
mod folding;
mod interpretation;
pub mod laws;
mod longest_prefix;
mod lower_bound;
mod modes;
mod padding;
mod parsing;
mod room;
mod run_state;
mod segmentation;
mod stream;
mod writing;

pub use fault::{BitFault, ParseFault};
pub use folding::fold;
pub use interpretation::{
    Designator, EciChange, Fnc1, Interpretation, Item, interpretation_bits, may_allow_kanji,
    may_write,
};
pub use longest_prefix::{longest_fit, longest_part};
pub use lower_bound::least_bits;
pub use modes::{INPUT_MAX, Mode, Rule};
pub use padding::codewords;
pub use parsing::{Parsed, parse};
pub use room::most_characters;
pub use segmentation::{Segment, Segmented, bit_len, covers, segments};
pub use stream::{Header, parity};
pub use writing::Writing;
