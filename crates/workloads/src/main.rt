//! A program that does the jobs that users wait for, on inputs that it makes from a seed. Its arguments are the name of
//! a job, how many inputs the job takes, and the seed. With the name `all` it does each job with this number of inputs.
//! It prints a line for each job, with a digest of all results of the job. `bench/run` measures how long the program
//! takes. Where a result can never be too large for its type, `saturating_add` and `saturating_mul` stand for `+` and
//! `*`, because the prover does not know that the result fits.
//!
//! The files of `src`:
//!
//! - `checking`: the jobs that read and mend symbols
//! - `digest`: a number that depends on all results of a job
//! - `images`: the job of programs that write images
//! - `library`: the job of programs that call the library
//! - `printing`: the jobs of the command
//! - `random`: numbers that depend only on a seed
//! - `texts`: the inputs of the jobs
#![tactic(auto)]

mod checking;
mod digest;
mod images;
mod library;
mod printing;
mod random;
mod texts;

use crate::digest::Digest;
use std::alloc::{AllocError, Global};
use std::env;
use std::process::ExitCode;

static NAMES: [&str; 8] = [
    "labels",
    "large",
    "series",
    "awkward",
    "proofread",
    "mend",
    "library",
    "images",
];

// Does a job. Returns `None` if no job has this name.
fn job(
    alloc: Global,
    name: &str,
    count: u64,
    seed: u64,
    digest: &mut Digest,
) -> Option<Result<(), AllocError>> {
    match name {
        "labels" => Some(printing::labels(alloc, count, seed, digest)),
        "large" => Some(printing::large(alloc, count, seed, digest)),
        "series" => Some(printing::series(alloc, count, seed, digest)),
        "awkward" => Some(printing::awkward(alloc, count, seed, digest)),
        "proofread" => Some(checking::proofread(alloc, count, seed, digest)),
        "mend" => Some(checking::mend(alloc, count, seed, digest)),
        "library" => Some(library::library(alloc, count, seed, digest)),
        "images" => Some(images::images(alloc, count, seed, digest)),
        _ => None,
    }
}

// Does a job and prints its line. Says whether both succeeded.
fn tell(rt: &HostRuntime, name: &str, count: u64, seed: u64) -> bool {
    let mut digest = Digest::NONE;
    match job(rt.alloc(), name, count, seed, &mut digest) {
        Some(Ok(())) => {
            let value = digest.value();
            println!(rt; "{name} {count} {seed}: {value:016x}").is_ok()
        }
        Some(Err(_)) => false,
        None => false,
    }
}

fn tell_all(rt: &HostRuntime, words: &[String]) -> bool {
    let [_, name, count, seed] = words else {
        return false;
    };
    let (Ok(count), Ok(seed)) = (count.parse::<u64>(), seed.parse::<u64>()) else {
        return false;
    };
    if name.as_str() == "all" {
        return NAMES.iter().all(|each| tell(rt, each, count, seed));
    }
    tell(rt, name.as_str(), count, seed)
}

fn main(rt: HostRuntime) -> ExitCode {
    let words: Vec<String> = match env::args(&rt) {
        Ok(args) => match args.collect(rt.alloc()) {
            Ok(words) => words,
            Err(_) => return ExitCode::from(1),
        },
        Err(_) => return ExitCode::from(1),
    };
    ExitCode::from(if tell_all(&rt, words.as_slice()) {
        0
    } else {
        1
    })
}
