//! Trials of `qrencode_cli`, with devices in memory.

use crate::answer::Answer;
use qrencode_cli::{Faults, Trial, UsageFault, options, run};
use std::alloc::{AllocError, Global};

// The line on standard error if memory is refused.
static OUT_OF_MEMORY: &str = "qrencode: out of memory\n";

pub fn reader(alloc: Global) -> Result<Answer, AllocError> {
    let bytes = Vec::from_slice(alloc, b"ABC")?;
    let answer = match Trial::reader(alloc, &bytes, Faults::NONE) {
        Ok(device) => Answer::of(device.bytes() == b"ABC".as_slice()),
        Err(_) => Answer::Memory("AllocError, arguments unchanged"),
    };
    Ok(answer.given(bytes.as_slice() == b"ABC".as_slice()))
}

pub fn writer(alloc: Global) -> Answer {
    match Trial::writer(alloc, 100, Faults::NONE) {
        Ok(device) => Answer::of(device.bytes().is_empty()),
        Err(_) => Answer::Memory("AllocError, arguments unchanged"),
    }
}

// Returns the program's name, and then `words`.
fn line(alloc: Global, words: &[&str]) -> Result<Vec<String>, AllocError> {
    let mut list = Vec::new(alloc);
    list.push(String::from_str(alloc, "qrencode")?)?;
    for word in words {
        list.push(String::from_str(alloc, word)?)?;
    }
    Ok(list)
}

// Says whether the arguments after the program's name are still `words`.
fn are(list: &[String], words: &[&str]) -> bool {
    list.iter()
        .skip(1)
        .map(|word| word.as_str())
        .eq(words.iter().copied())
}

pub fn settings(alloc: Global) -> Result<Answer, AllocError> {
    let words = ["-S", "-8", "-v", "1", "-t", "SVG", "ABCDEFGH"];
    let list = line(alloc, &words)?;
    let answer = match &options(alloc, &list) {
        Ok(settings) => Answer::of(settings.structured && settings.margin == 4),
        Err(UsageFault::Memory) => Answer::Memory("UsageFault::Memory, arguments unchanged"),
        Err(_) => Answer::Other,
    };
    Ok(answer.given(are(&list, &words)))
}

// What a run does if no memory is refused.
#[derive(Clone, Copy)]
struct Wanted {
    status: u8,
    // How the bytes on standard output begin.
    prefix: &'static str,
    // A part of the bytes on standard error.
    part: &'static str,
    // How often standard output is flushed.
    flushes: u64,
}

// Runs the command. `faults` are those of standard output.
fn ran(
    alloc: Global,
    words: &[&str],
    input: &[u8],
    faults: Faults,
    wanted: Wanted,
) -> Result<Answer, AllocError> {
    let list = line(alloc, words)?;
    let mut input = Trial::reader(alloc, input, Faults::NONE)?;
    let mut out = Trial::writer(alloc, 10_000, faults)?;
    let mut err = Trial::writer(alloc, 4000, Faults::NONE)?;
    let ended = run(alloc, &list, &mut input, &mut out, &mut err);
    let answer = if err.bytes() == OUT_OF_MEMORY.as_bytes() {
        if ended == 1 && out.bytes().is_empty() {
            Answer::Memory("out of memory, status 1, nothing drawn, arguments unchanged")
        } else {
            Answer::Other
        }
    } else {
        let message = str::from_utf8(err.bytes()).unwrap_or("");
        let writes = out.writes();
        Answer::of(
            ended == wanted.status
                && out.bytes().starts_with(wanted.prefix.as_bytes())
                && message.contains(wanted.part)
                && writes.flushes == wanted.flushes
                && writes.settled == (ended == 0),
        )
    };
    Ok(answer.given(are(&list, words)))
}

pub fn run_of_a_series(alloc: Global) -> Result<Answer, AllocError> {
    let words = ["-S", "-8", "-v", "1", "-l", "H", "-t", "SVG"];
    let wanted = Wanted {
        status: 0,
        prefix: "<?xml",
        part: "",
        flushes: 1,
    };
    ran(alloc, &words, b"ABCDEFGH", Faults::NONE, wanted)
}

// The drawing is written, and then the flush fails.
pub fn run_with_a_failing_flush(alloc: Global) -> Result<Answer, AllocError> {
    let words = ["-8", "-v", "1", "-m", "0", "-t", "ASCII"];
    let faults = Faults {
        flush_fails: true,
        ..Faults::NONE
    };
    let wanted = Wanted {
        status: 1,
        prefix: "##############",
        part: "qrencode: write error\n",
        flushes: 1,
    };
    ran(alloc, &words, b"A", faults, wanted)
}

pub fn run_of_no_byte(alloc: Global) -> Result<Answer, AllocError> {
    let words = ["-t", "ASCII", ""];
    let wanted = Wanted {
        status: 1,
        prefix: "",
        part: "qrencode: input is empty\n",
        flushes: 0,
    };
    ran(alloc, &words, b"", Faults::NONE, wanted)
}

pub fn run_of_refused_words(alloc: Global) -> Result<Answer, AllocError> {
    let words = ["-v", "41", "-t", "ASCII"];
    let wanted = Wanted {
        status: 1,
        prefix: "",
        part: "0..=40",
        flushes: 0,
    };
    ran(alloc, &words, b"A", Faults::NONE, wanted)
}

pub fn run_with_kanji(alloc: Global) -> Result<Answer, AllocError> {
    let words = ["-k", "-i", "-m", "0", "-t", "ASCII"];
    let wanted = Wanted {
        status: 0,
        prefix: "##############",
        part: "",
        flushes: 1,
    };
    ran(
        alloc,
        &words,
        &[0x93, 0x5F, 0xE4, 0xAA, b'a'],
        Faults::NONE,
        wanted,
    )
}
