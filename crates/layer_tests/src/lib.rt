//! Tests of the public functions of `qr_layout`, `qr_field`, `qr_matrix`, `qr_bits` and `qr_devices`, which stand below
//! `qr_symbol`. 1-M stands for version 1 and level M.
//!
//! The files of `src`:
//!
//! - `checks`: the macros `check!` and `check_eq!`
//! - `codewords`: data codewords, made and parsed
//! - `devices`: readers and writers of the standard library as devices
//! - `field`: the field, and error correction codewords
//! - `gs1`: GS1 data and ECIs
//! - `layout`: versions, blocks, format and version information, roles
//! - `matrix`: the square of modules
//! - `penalty`: the penalty of squares
//! - `room`: how many characters fit a symbol
//! - `segments`: segments, prefixes and folding
//! - `walk`: the order in which codewords fill the region
#![tactic(auto)]

#[cfg(test)]
mod checks;
#[cfg(test)]
mod codewords;
#[cfg(test)]
mod devices;
#[cfg(test)]
mod field;
#[cfg(test)]
mod gs1;
#[cfg(test)]
mod layout;
#[cfg(test)]
mod matrix;
#[cfg(test)]
mod penalty;
#[cfg(test)]
mod room;
#[cfg(test)]
mod segments;
#[cfg(test)]
mod walk;
