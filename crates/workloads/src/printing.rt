//! The jobs of the command: labels, large symbols, series, and awkward inputs, such as kanji pairs between letters or
//! an input with one byte too many for a version. For each input `qrencode_cli::run` is called with devices in memory.

ghost use Rattle.std.specs.Prelude.{◌<◌};

use crate::digest::Digest;
use crate::random::Random;
use crate::texts::Text;
use qrencode_cli::{Faults, Trial, run};
use std::alloc::{AllocError, Global};

static LEVELS: [&str; 4] = ["L", "M", "Q", "H"];

static TYPES: [&str; 4] = ["SVG", "UTF8", "ASCII", "ASCIIi"];

static NUMBERS: [&str; 11] = ["0", "1", "2", "3", "4", "5", "6", "7", "8", "9", "10"];

// The most bytes that versions 19 and 40 hold in byte mode, at the levels L, M, Q and H.
static BYTES: [(usize, usize); 4] = [(792, 2953), (624, 2331), (442, 1663), (338, 1273)];

// The most digits that versions 19 and 40 hold, at the same levels.
static DIGITS: [(usize, usize); 4] = [(1903, 7089), (1500, 5596), (1063, 3993), (813, 3057)];

// One byte more than version 9 or version 26 holds in byte mode, at the levels L, M, Q and H.
static TOO_MANY: [(usize, usize); 4] = [(231, 1368), (181, 1060), (131, 752), (99, 594)];

const LABEL_ROOM: usize = 120_000;

const SYMBOL_ROOM: usize = 400_000;

const SERIES_ROOM: usize = 4_000_000;

// Returns the command's name, and then `words`.
fn arguments(alloc: Global, words: &[&str]) -> Result<Vec<String>, AllocError> {
    let mut list = Vec::with_capacity(alloc, words.len() + 1)?;
    list.push(String::from_str(alloc, "qrencode")?)?;
    for word in words {
        list.push(String::from_str(alloc, word)?)?;
    }
    Ok(list)
}

// Runs the command once, and adds its status and all that it wrote to the digest.
fn add_run(
    alloc: Global,
    words: &[&str],
    text: &Text,
    room: usize,
    digest: &mut Digest,
) -> Result<(), AllocError> {
    let list = arguments(alloc, words)?;
    let mut input = Trial::reader(alloc, text.bytes(), Faults::NONE)?;
    let mut out = Trial::writer(alloc, room, Faults::NONE)?;
    let mut err = Trial::writer(alloc, 4000, Faults::NONE)?;
    let status = run(alloc, &list, &mut input, &mut out, &mut err);
    digest.add(u64::from(status));
    digest.add_bytes(out.bytes());
    digest.add_bytes(err.bytes());
    Ok(())
}

/// Draws labels of versions 1 to 13, most of them as SVG. They contain links, serial numbers, trade item numbers,
/// passwords of networks, and contacts. Their level is M or Q, by lot.
pub fn labels(alloc: Global, count: u64, seed: u64, digest: &mut Digest) -> Result<(), AllocError> {
    let mut random = Random::new(seed);
    for turn in 0..count {
        let mut text = Text::new(alloc);
        match turn % 8 {
            0 | 3 | 6 => text.put_link(&mut random)?,
            1 | 4 => text.put_serial(&mut random)?,
            2 => text.put_gtin(&mut random)?,
            5 => text.put_network(&mut random)?,
            _ => text.put_contact(&mut random)?,
        }
        let level = if random.below(2) == 0 { "M" } else { "Q" };
        let kind = if turn % 5 == 4 { "UTF8" } else { "SVG" };
        add_run(alloc, &["-l", level, "-t", kind], &text, LABEL_ROOM, digest)?;
    }
    Ok(())
}

// Makes a text so long that it takes a version from 18 to 40. `kind` is 0 for words, 1 for JSON records, 2 for Base64,
// 3 for digits, and 4 for runs of digits, of capitals and of small letters.
fn large_text(
    alloc: Global,
    random: &mut Random,
    kind: usize,
    level: usize,
) -> Result<Text, AllocError> {
    let mut text = Text::new(alloc);
    let (least, most) = if kind == 3 {
        DIGITS[level % 4]
    } else {
        BYTES[level % 4]
    };
    let count = random.between(least, most);
    match kind {
        0 => text.put_prose(random, count)?,
        1 => text.put_records(random, count)?,
        2 => text.put_base64(random, count)?,
        3 => text.put_digits(random, count)?,
        _ => text.put_runs(random, count)?,
    }
    text.cut(count);
    Ok(text)
}

/// Draws symbols of versions 18 to 40, at all levels, in all types of drawing, with margins from 0 to 10.
pub fn large(alloc: Global, count: u64, seed: u64, digest: &mut Digest) -> Result<(), AllocError> {
    let mut random = Random::new(seed);
    for turn in 0..count {
        let level = (turn % 4) as usize;
        let text = large_text(alloc, &mut random, (turn % 5) as usize, level)?;
        let kind = TYPES[random.below(4)];
        let margin = NUMBERS[random.below(11)];
        let words = ["-l", LEVELS[level], "-t", kind, "-m", margin];
        add_run(alloc, &words, &text, SYMBOL_ROOM, digest)?;
    }
    Ok(())
}

// Makes the text of one series: JSON records of 1 to 44 kB or runs of 1 to 30 kB for version 40, words of 500 to 1,600
// bytes for versions 5 to 10, or kanji pairs in Shift JIS for version 7 or 40.
fn series_text(alloc: Global, kind: u64, random: &mut Random) -> Result<Text, AllocError> {
    let mut text = Text::new(alloc);
    let (least, most) = match kind {
        0 => (1000, 44_000),
        1 => (1000, 20_000),
        2 => (200, 700),
        3 => (1000, 30_000),
        _ => (500, 1600),
    };
    let count = random.between(least, most);
    match kind {
        0 => text.put_records(random, count)?,
        1 | 2 => text.put_pairs(random, count)?,
        3 => text.put_runs(random, count)?,
        _ => text.put_prose(random, count)?,
    }
    Ok(text)
}

// Draws one text as a series.
fn add_series(
    alloc: Global,
    kind: u64,
    version: &str,
    text: &Text,
    digest: &mut Digest,
) -> Result<(), AllocError> {
    match kind {
        0 => {
            let words = ["-S", "-v", version, "-t", "UTF8"];
            add_run(alloc, &words, text, SERIES_ROOM, digest)
        }
        1 => {
            let words = ["-S", "-k", "-v", version, "-t", "ASCII"];
            add_run(alloc, &words, text, SERIES_ROOM, digest)
        }
        2 => {
            let words = ["-S", "-k", "-i", "-v", version, "-t", "UTF8"];
            add_run(alloc, &words, text, SERIES_ROOM, digest)
        }
        3 => {
            let words = ["-S", "-v", version, "-l", "M", "-t", "SVG"];
            add_run(alloc, &words, text, SERIES_ROOM, digest)
        }
        _ => {
            let words = ["-S", "-v", version, "-t", "SVG"];
            add_run(alloc, &words, text, SERIES_ROOM, digest)
        }
    }
}

/// Draws series: files of 1 to 44 kB in version 40, shorter ones in versions 5 to 10, and Japanese texts.
pub fn series(alloc: Global, count: u64, seed: u64, digest: &mut Digest) -> Result<(), AllocError> {
    let mut random = Random::new(seed);
    for turn in 0..count {
        let kind = turn % 8;
        let text = series_text(alloc, kind, &mut random)?;
        let version = match kind {
            0 | 1 | 3 => "40",
            2 => "7",
            _ => NUMBERS[5 + random.below(6)],
        };
        add_series(alloc, kind, version, &text, digest)?;
    }
    Ok(())
}

// Makes a text of one of five kinds: JSON records of 60,000 bytes or more, a few runs, many runs, kanji pairs, or
// Base64 that is one byte too long for version 9 or 26. Each run of digits, of capitals or of small letters is so short
// that a segment of its own saves few bits or none.
fn awkward_text(
    alloc: Global,
    turn: u64,
    random: &mut Random,
    level: usize,
) -> Result<Text, AllocError>
    requires { level < 4 }
{
    let mut text = Text::new(alloc);
    match turn % 16 {
        0 => {
            let count = random.between(60_000, 113_425);
            text.put_records(random, count)?;
        }
        1..=4 => {
            let count = random.between(20, 200);
            text.put_runs(random, count)?;
        }
        5..=8 => {
            let (least, most) = BYTES[level];
            let count = random.between(least, most);
            text.put_runs(random, count)?;
            text.cut(count);
        }
        9..=11 => {
            let (_, most) = BYTES[level];
            text.put_pairs(random, most / 2)?;
        }
        _ => {
            let (low, high) = TOO_MANY[level];
            let count = if turn % 2 == 0 { low } else { high };
            text.put_base64(random, count)?;
        }
    }
    Ok(text)
}

fn add_awkward(
    alloc: Global,
    turn: u64,
    level: &str,
    text: &Text,
    digest: &mut Digest,
) -> Result<(), AllocError> {
    match turn % 16 {
        0 => {
            let words = ["-S", "-v", "20", "-l", level, "-t", "UTF8"];
            add_run(alloc, &words, text, SYMBOL_ROOM, digest)
        }
        1..=4 => {
            let words = ["-S", "-v", "1", "-l", level, "-t", "UTF8"];
            add_run(alloc, &words, text, SYMBOL_ROOM, digest)
        }
        9..=11 => {
            let words = ["-k", "-l", level, "-t", "UTF8"];
            add_run(alloc, &words, text, SYMBOL_ROOM, digest)
        }
        _ => {
            let words = ["-l", level, "-t", "UTF8"];
            add_run(alloc, &words, text, SYMBOL_ROOM, digest)
        }
    }
}

/// Takes awkward inputs. Some consist of runs for which a segment of their own saves few bits or none; some of these
/// are drawn as series of version 1. Some have kanji pairs that begin after an odd number of bytes. Some have one byte
/// more than version 9 or 26 holds, and some would take more than 16 symbols.
pub fn awkward(
    alloc: Global,
    count: u64,
    seed: u64,
    digest: &mut Digest,
) -> Result<(), AllocError> {
    let mut random = Random::new(seed);
    for turn in 0..count {
        let level = random.below(4);
        let text = awkward_text(alloc, turn, &mut random, level)?;
        add_awkward(alloc, turn, LEVELS[level], &text, digest)?;
    }
    Ok(())
}
