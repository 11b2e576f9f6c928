//! Tests of what no call of the library and no line of the command shows of `qr_symbol` and the crates above it. 1-M stands for
//! version 1 and level M.
//!
//! The files of `src`:
//!
//! - `documents`: documents for print
//! - `faults`: the texts of faults
//! - `images`: images
//! - `joining`: the symbols of a series, joined
//! - `mended_blocks`: damaged blocks
//! - `pictures`: clean pictures
//! - `symbols`: symbols that are made of codewords
#![tactic(auto)]

#[cfg(test)]
mod documents;
#[cfg(test)]
mod faults;
#[cfg(test)]
mod images;
#[cfg(test)]
mod joining;
#[cfg(test)]
mod mended_blocks;
#[cfg(test)]
mod pictures;
#[cfg(test)]
mod symbols;
