//! Trials of `qr_symbol`, `qr_mending` and `qr_matrix`. They take `HELLO WORLD` at version 1 and level M (1-M), and the
//! series of `ABCDEFGH` at 1-H in byte mode.

use crate::answer::Answer;
use crate::bits::{DATA, HELLO_WORLD};
use example_label::label;
use qr_bits::{Interpretation, Rule};
use qr_layout::{Level, Version};
use qr_matrix::{matrices_of_bytes, matrix_of_bytes};
use qr_mending::{mend_series, mend_symbol, mend_symbol_with_unknown};
use qr_symbol::{
    BlockSizes, EncodeFault, Matrix, ReadFault, Symbol, build, build_masked, deinterleave,
    draw_symbol, encode, encode_series, interleave, join, read_codewords, read_series, read_symbol,
    read_unmasked,
};
use std::alloc::{AllocError, Global};

// The data codewords of `HELLO WORLD` at 1-M, then its error correction codewords.
static SENT: [u8; 26] = [
    0x20, 0x5B, 0x0B, 0x78, 0xD1, 0x72, 0xDC, 0x4D, 0x43, 0x40, 0xEC, 0x11, 0xEC, 0x11, 0xEC, 0x11,
    0xC4, 0x23, 0x27, 0x77, 0xEB, 0xD7, 0xE7, 0xE2, 0x5D, 0x17,
];

// A square of two rows. The first row has a dark module and a light one, and the second has one that is not known and a
// dark one.
static BYTES: [u8; 4] = [1, 0, 2, 1];

static LETTERS: [u8; 8] = *b"ABCDEFGH";

const ENCODE_OUT: Answer = Answer::Memory("EncodeFault::Memory, arguments unchanged");

const READ_OUT: Answer = Answer::Memory("ReadFault::Memory, arguments unchanged");

const ALLOC_OUT: Answer = Answer::Memory("AllocError, arguments unchanged");

/// Says whether the squares have the same modules.
pub fn are_equal(a: &Matrix, b: &Matrix) -> bool {
    let side = a.side();
    if b.side() != side {
        return false;
    }
    for row in 0..side {
        for col in 0..side {
            if a.dark(row, col) != b.dark(row, col) {
                return false;
            }
        }
    }
    true
}

// Says whether the symbols of two series have the same modules.
fn are_equal_series(a: &[Symbol], b: &[Symbol]) -> bool {
    a.len() == b.len()
        && a.iter()
            .zip(b)
            .all(|(x, y)| are_equal(&x.matrix, &y.matrix))
}

fn hello(alloc: Global) -> Result<Symbol, AllocError> {
    encode(
        alloc,
        &HELLO_WORLD,
        Level::M,
        Version::FIRST,
        Rule::Auto,
        Interpretation::Default,
    )
    .map_err(|_| AllocError)
}

pub fn matrix(alloc: Global) -> Answer {
    match Matrix::new(alloc, 21) {
        Ok(matrix) => Answer::of(matrix.side() == 21),
        Err(_) => ALLOC_OUT,
    }
}

pub fn matrix_read(alloc: Global) -> Answer {
    match matrix_of_bytes(alloc, &BYTES, 2) {
        Ok(matrix) => Answer::of(matrix.dark(0, 0) && !matrix.dark(0, 1)),
        Err(_) => ALLOC_OUT,
    }
}

pub fn matrices_read(alloc: Global) -> Answer {
    match matrices_of_bytes(alloc, &BYTES, 2) {
        Ok((dark, unknown)) => Answer::of(dark.dark(1, 0) && unknown.dark(1, 0)),
        Err(_) => ALLOC_OUT,
    }
}

pub fn interleaved(alloc: Global) -> Result<Answer, AllocError> {
    let message = Vec::from_slice(alloc, &DATA)?;
    let version = Version::FIRST;
    if message.len() != usize::from(version.data_codewords(Level::M)) {
        return Ok(Answer::Other);
    }
    let answer = match interleave(alloc, version, Level::M, &message) {
        Ok(sent) => Answer::of(sent.as_slice() == SENT.as_slice()),
        Err(_) => ALLOC_OUT,
    };
    Ok(answer.given(message.as_slice() == DATA.as_slice()))
}

pub fn deinterleaved(alloc: Global) -> Result<Answer, AllocError> {
    let sent = Vec::from_slice(alloc, &SENT)?;
    let version = Version::FIRST;
    if sent.len() != usize::from(version.total_codewords()) {
        return Ok(Answer::Other);
    }
    let answer = match deinterleave(alloc, version, Level::M, &sent) {
        Ok(message) => Answer::of(message.as_slice() == DATA.as_slice()),
        Err(ReadFault::Memory) => READ_OUT,
        Err(_) => Answer::Other,
    };
    Ok(answer.given(sent.as_slice() == SENT.as_slice()))
}

// Three blocks of 8, 8 and 9 codewords. Interleaved, they are the first 25 codewords of `SENT`.
static GATHERED: [u8; 25] = [
    0x20, 0x78, 0xDC, 0x40, 0xEC, 0x11, 0x27, 0xD7, 0x5B, 0xD1, 0x4D, 0xEC, 0x11, 0xC4, 0x77, 0xE7,
    0x0B, 0x72, 0x43, 0x11, 0xEC, 0x23, 0xEB, 0xE2, 0x5D,
];

pub fn gathered(alloc: Global) -> Result<Answer, AllocError> {
    let sent = Vec::from_slice(alloc, &SENT)?;
    if sent.len() != 26 {
        return Ok(Answer::Other);
    }
    let sizes = BlockSizes {
        short: 2,
        short_len: 8,
        long: 1,
    };
    let answer = match sizes.gather(alloc, &sent) {
        Ok(codewords) => Answer::of(codewords.as_slice() == GATHERED.as_slice()),
        Err(_) => ALLOC_OUT,
    };
    Ok(answer.given(sent.as_slice() == SENT.as_slice()))
}

pub fn built_masked(alloc: Global) -> Result<Answer, AllocError> {
    let sent = Vec::from_slice(alloc, &SENT)?;
    let version = Version::FIRST;
    if sent.len() != usize::from(version.total_codewords()) {
        return Ok(Answer::Other);
    }
    let answer = match build_masked(alloc, version, Level::M, &sent, 0) {
        Ok(symbol) => Answer::of(symbol.matrix.side() == 21 && symbol.mask == 0),
        Err(EncodeFault::Memory) => ENCODE_OUT,
        Err(_) => Answer::Other,
    };
    Ok(answer.given(sent.as_slice() == SENT.as_slice()))
}

pub fn drawn(alloc: Global) -> Result<Answer, AllocError> {
    let sent = Vec::from_slice(alloc, &SENT)?;
    let version = Version::FIRST;
    if sent.len() != usize::from(version.total_codewords()) {
        return Ok(Answer::Other);
    }
    let answer = match draw_symbol(alloc, version, Level::M, &sent, 0) {
        Ok(matrix) => Answer::of(matrix.side() == 21),
        Err(_) => ALLOC_OUT,
    };
    Ok(answer.given(sent.as_slice() == SENT.as_slice()))
}

pub fn built(alloc: Global) -> Result<Answer, AllocError> {
    let sent = Vec::from_slice(alloc, &SENT)?;
    let version = Version::FIRST;
    if sent.len() != usize::from(version.total_codewords()) {
        return Ok(Answer::Other);
    }
    let answer = match build(alloc, version, Level::M, &sent) {
        Ok(symbol) => Answer::of(symbol.matrix.side() == 21),
        Err(EncodeFault::Memory) => ENCODE_OUT,
        Err(_) => Answer::Other,
    };
    Ok(answer.given(sent.as_slice() == SENT.as_slice()))
}

pub fn encoded(alloc: Global) -> Result<Answer, AllocError> {
    let input = Vec::from_slice(alloc, &HELLO_WORLD)?;
    let answer = match encode(
        alloc,
        &input,
        Level::M,
        Version::FIRST,
        Rule::Auto,
        Interpretation::Default,
    ) {
        Ok(symbol) => Answer::of(symbol.version.number() == 1),
        Err(EncodeFault::Memory) => ENCODE_OUT,
        Err(_) => Answer::Other,
    };
    Ok(answer.given(input.as_slice() == HELLO_WORLD.as_slice()))
}

pub fn encoded_series(alloc: Global) -> Result<Answer, AllocError> {
    let input = Vec::from_slice(alloc, &LETTERS)?;
    let answer = match encode_series(
        alloc,
        &input,
        Version::FIRST,
        Level::H,
        Rule::BytesOnly,
        Interpretation::Default,
    ) {
        Ok(symbols) => Answer::of(symbols.len() == 2),
        Err(EncodeFault::Memory) => ENCODE_OUT,
        Err(_) => Answer::Other,
    };
    Ok(answer.given(input.as_slice() == LETTERS.as_slice()))
}

pub fn read(alloc: Global) -> Result<Answer, AllocError> {
    let (symbol, same) = (hello(alloc)?, hello(alloc)?);
    let answer = match read_symbol(alloc, &symbol.matrix) {
        Ok(parsed) => Answer::of(parsed.bytes.as_slice() == HELLO_WORLD.as_slice()),
        Err(ReadFault::Memory) => READ_OUT,
        Err(_) => Answer::Other,
    };
    Ok(answer.given(are_equal(&symbol.matrix, &same.matrix)))
}

pub fn codewords_read(alloc: Global) -> Result<Answer, AllocError> {
    let (symbol, same) = (hello(alloc)?, hello(alloc)?);
    let version = Version::FIRST;
    if symbol.matrix.side() != version.side() {
        return Ok(Answer::Other);
    }
    let answer = match read_codewords(alloc, version, symbol.mask, &symbol.matrix) {
        Ok(codewords) => Answer::of(codewords.as_slice() == SENT.as_slice()),
        Err(_) => ALLOC_OUT,
    };
    Ok(answer.given(are_equal(&symbol.matrix, &same.matrix)))
}

pub fn masked_codewords_read(alloc: Global) -> Result<Answer, AllocError> {
    let (symbol, same) = (hello(alloc)?, hello(alloc)?);
    let version = Version::FIRST;
    if symbol.matrix.side() != version.side() {
        return Ok(Answer::Other);
    }
    let answer = match read_unmasked(alloc, version, &symbol.matrix) {
        Ok(codewords) => Answer::of(codewords.len() == 26),
        Err(_) => ALLOC_OUT,
    };
    Ok(answer.given(are_equal(&symbol.matrix, &same.matrix)))
}

pub fn mended(alloc: Global) -> Result<Answer, AllocError> {
    let (symbol, same) = (hello(alloc)?, hello(alloc)?);
    let answer = match mend_symbol(alloc, &symbol.matrix) {
        Ok(mended) => Answer::of(
            mended.parsed.bytes.as_slice() == HELLO_WORLD.as_slice() && mended.wrong_modules == 0,
        ),
        Err(ReadFault::Memory) => READ_OUT,
        Err(_) => Answer::Other,
    };
    Ok(answer.given(are_equal(&symbol.matrix, &same.matrix)))
}

pub fn mended_with_unknown(alloc: Global) -> Result<Answer, AllocError> {
    let (symbol, same) = (hello(alloc)?, hello(alloc)?);
    let mut unknown = Matrix::new(alloc, symbol.matrix.side())?;
    unknown.set(0, 0, true);
    let answer = match mend_symbol_with_unknown(alloc, &symbol.matrix, &unknown) {
        Ok(mended) => Answer::of(
            mended.parsed.bytes.as_slice() == HELLO_WORLD.as_slice() && mended.wrong_modules == 1,
        ),
        Err(ReadFault::Memory) => READ_OUT,
        Err(_) => Answer::Other,
    };
    Ok(answer.given(are_equal(&symbol.matrix, &same.matrix)))
}

pub fn mended_series(alloc: Global) -> Result<Answer, AllocError> {
    let squares = [hello(alloc)?.matrix];
    let same = hello(alloc)?;
    let answer = match mend_series(alloc, &squares) {
        Ok(bytes) => Answer::of(bytes.as_slice() == HELLO_WORLD.as_slice()),
        Err(ReadFault::Memory) => READ_OUT,
        Err(_) => Answer::Other,
    };
    Ok(answer.given(are_equal(&squares[0], &same.matrix)))
}

// Makes the series of `ABCDEFGH`. Five letters are in the first symbol, and three in the second.
fn series(alloc: Global) -> Result<Vec<Symbol>, AllocError> {
    encode_series(
        alloc,
        &LETTERS,
        Version::FIRST,
        Level::H,
        Rule::BytesOnly,
        Interpretation::Default,
    )
    .map_err(|_| AllocError)
}

pub fn read_whole_series(alloc: Global) -> Result<Answer, AllocError> {
    let (symbols, same) = (series(alloc)?, series(alloc)?);
    let answer = match read_series(alloc, &symbols) {
        Ok(bytes) => Answer::of(bytes.as_slice() == LETTERS.as_slice()),
        Err(ReadFault::Memory) => READ_OUT,
        Err(_) => Answer::Other,
    };
    Ok(answer.given(are_equal_series(&symbols, &same)))
}

pub fn joined(alloc: Global) -> Result<Answer, AllocError> {
    let mut contents = Vec::new(alloc);
    for symbol in series(alloc)?.iter() {
        contents.push(read_symbol(alloc, &symbol.matrix).map_err(|_| AllocError)?)?;
    }
    let answer = match join(alloc, &contents) {
        Ok(bytes) => Answer::of(bytes.as_slice() == LETTERS.as_slice()),
        Err(ReadFault::Memory) => READ_OUT,
        Err(_) => Answer::Other,
    };
    let is_same = contents.len() == 2
        && contents[0].bytes.as_slice() == b"ABCDE".as_slice()
        && contents[1].bytes.as_slice() == b"FGH".as_slice();
    Ok(answer.given(is_same))
}

// A label has 21 lines of modules, and then a line with the words. The first line begins with the top row of a finder
// pattern.
pub fn labelled(alloc: Global) -> Result<Answer, AllocError> {
    let words = Vec::from_slice(alloc, &LETTERS)?;
    let answer = match label(alloc, &words, Level::L, Version::FIRST) {
        Ok(text) => Answer::of(
            text.starts_with(b"#######") && text.get(21 * 22..) == Some(&b"ABCDEFGH\n"[..]),
        ),
        Err(EncodeFault::Memory) => ENCODE_OUT,
        Err(_) => Answer::Other,
    };
    Ok(answer.given(words.as_slice() == LETTERS.as_slice()))
}
