//! The modules of a symbol as a square of bit rows, the same modules as bytes, the penalty of a square, and the number
//! of modules in which two squares differ.
//!
//! The files of `src`:
//!
//! - `bit_row`: a row of modules in words of 64 bits
//! - `bytes`: the modules of a square as bytes
//! - `dark_runs`: the dark runs of a row
//! - `difference`: the number of modules in which two squares differ
//! - `has_square`: values that have a square of modules
//! - `laws`: laws of the penalty, of differences and of bytes
//! - `matrix`: the square, stored and transposed; its definitions are in `Grid`
//! - `matrix_pair`: two squares on which one operation works at once
//! - `penalties`: the penalty of a square (Table 11); its definitions are in `Penalty`
//! - `rows`: the operations by which the penalty is computed, such as the addition of rows column by column
//! - `runs`: points for runs, and for squares of two by two modules
//! - `windows`: points for windows that look like a finder pattern
#![tactic(auto)]

mod bit_row;
mod bytes;
mod dark_runs;
mod difference;
mod has_square;
pub mod laws;
mod matrix;
mod matrix_pair;
mod penalties;
mod rows;
mod runs;
mod windows;

pub use bit_row::BitRow;
pub use bytes::{matrices_of_bytes, matrix_of_bytes, write_square};
pub use dark_runs::{DarkRuns, Run};
pub use difference::differences;
pub use has_square::HasSquare;
pub use matrix::Matrix;
pub use matrix_pair::MatrixPair;
pub use penalties::penalty;
