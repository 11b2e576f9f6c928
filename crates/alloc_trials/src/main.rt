//! A program that calls the public functions that allocate memory, each in a trial of its own, and prints a line with
//! the result of each trial. Its argument is the name of a trial. Without an argument it runs all of them.
//! `tests/refused_growths` runs each trial many times, and each time refuses a different request for memory.
//!
//! A trial makes the arguments first, then calls the function, and then checks that the arguments are unchanged. 1-M
//! stands for version 1 and level M.
//!
//! The files of `src`:
//!
//! - `answer`: what a trial can end with
//! - `bits`: trials of `qr_bits`
//! - `command`: trials of `qrencode_cli`
//! - `drawings`: trials of `parse_drawing`
//! - `interpreted`: trials with an ECI or with GS1 data
//! - `symbols`: trials of `qr_symbol`, `qr_mending` and `qr_matrix`
#![tactic(auto)]

mod answer;
mod bits;
mod command;
mod drawings;
mod interpreted;
mod symbols;

use crate::answer::Answer;
use std::alloc::{AllocError, Global};
use std::env;
use std::process::ExitCode;

// The names of the trials. The trials of a crate come after those of the crates that it uses, and the trials with an ECI
// or with GS1 data come last.
static NAMES: [&str; 44] = [
    "Matrix::new",
    "matrix_of_bytes",
    "matrices_of_bytes",
    "segments",
    "longest_fit",
    "fold",
    "codewords",
    "parse",
    "interleave",
    "deinterleave",
    "BlockSizes::gather",
    "build_masked",
    "draw_symbol",
    "build",
    "encode",
    "encode_series",
    "read_codewords",
    "read_unmasked",
    "read_symbol",
    "join",
    "read_series",
    "mend_symbol",
    "mend_symbol_with_unknown",
    "mend_series",
    "label",
    "Trial::reader",
    "Trial::writer",
    "parse_drawing of ASCII",
    "parse_drawing of UTF8",
    "parse_drawing of SVG",
    "options",
    "run_series",
    "run_flush",
    "run_empty",
    "run_words",
    "run_kanji",
    "segments of GS1 data",
    "codewords of GS1 data",
    "parse of GS1 data with an ECI",
    "Parsed::segments of GS1 data with an ECI",
    "encode of GS1 data",
    "encode_series of GS1 data",
    "encode_as with boost and an ECI",
    "read_symbol of GS1 data with an ECI",
];

// Runs a trial. Returns an error if memory for the arguments of the call is refused.
fn trial(alloc: Global, name: &str) -> Result<Answer, AllocError> {
    match name {
        "Matrix::new" => Ok(symbols::matrix(alloc)),
        "matrix_of_bytes" => Ok(symbols::matrix_read(alloc)),
        "matrices_of_bytes" => Ok(symbols::matrices_read(alloc)),
        "segments" => bits::segmented(alloc),
        "longest_fit" => bits::longest(alloc),
        "fold" => bits::folded(alloc),
        "codewords" => bits::encoded(alloc),
        "parse" => bits::parsed(alloc),
        "interleave" => symbols::interleaved(alloc),
        "deinterleave" => symbols::deinterleaved(alloc),
        "BlockSizes::gather" => symbols::gathered(alloc),
        "build_masked" => symbols::built_masked(alloc),
        "draw_symbol" => symbols::drawn(alloc),
        "build" => symbols::built(alloc),
        "encode" => symbols::encoded(alloc),
        "encode_series" => symbols::encoded_series(alloc),
        "read_codewords" => symbols::codewords_read(alloc),
        "read_unmasked" => symbols::masked_codewords_read(alloc),
        "read_symbol" => symbols::read(alloc),
        "join" => symbols::joined(alloc),
        "read_series" => symbols::read_whole_series(alloc),
        "mend_symbol" => symbols::mended(alloc),
        "mend_symbol_with_unknown" => symbols::mended_with_unknown(alloc),
        "mend_series" => symbols::mended_series(alloc),
        "label" => symbols::labelled(alloc),
        "Trial::reader" => command::reader(alloc),
        "Trial::writer" => Ok(command::writer(alloc)),
        "parse_drawing of ASCII" => drawings::ascii(alloc),
        "parse_drawing of UTF8" => drawings::utf8(alloc),
        "parse_drawing of SVG" => drawings::svg(alloc),
        "options" => command::settings(alloc),
        "run_series" => command::run_of_a_series(alloc),
        "run_flush" => command::run_with_a_failing_flush(alloc),
        "run_empty" => command::run_of_no_byte(alloc),
        "run_words" => command::run_of_refused_words(alloc),
        "run_kanji" => command::run_with_kanji(alloc),
        _ => interpreted_trial(alloc, name),
    }
}

// Runs a trial with an ECI or with GS1 data.
fn interpreted_trial(alloc: Global, name: &str) -> Result<Answer, AllocError> {
    match name {
        "segments of GS1 data" => interpreted::segmented(alloc),
        "codewords of GS1 data" => interpreted::written(alloc),
        "parse of GS1 data with an ECI" => interpreted::parsed(alloc),
        "Parsed::segments of GS1 data with an ECI" => interpreted::segments_parsed(alloc),
        "encode of GS1 data" => interpreted::encoded(alloc),
        "encode_series of GS1 data" => interpreted::encoded_series(alloc),
        "encode_as with boost and an ECI" => interpreted::boosted(alloc),
        "read_symbol of GS1 data with an ECI" => interpreted::read(alloc),
        _ => Ok(Answer::Other),
    }
}

// Runs a trial, and prints the line with its result. Says whether the line could be printed.
fn tell(rt: &HostRuntime, name: &str) -> bool {
    let text = match trial(rt.alloc(), name) {
        Ok(answer) => answer.text(),
        Err(_) => "not prepared",
    };
    println!(rt; "{name}: {text}").is_ok()
}

fn main(rt: HostRuntime) -> ExitCode {
    let words: Vec<String> = match env::args(&rt) {
        Ok(args) => match args.collect(rt.alloc()) {
            Ok(words) => words,
            Err(_) => return ExitCode::from(1),
        },
        Err(_) => return ExitCode::from(1),
    };
    let told = match words.get(1) {
        Some(name) => tell(&rt, name.as_str()),
        None => NAMES.iter().all(|name| tell(&rt, name)),
    };
    ExitCode::from(if told { 0 } else { 1 })
}
