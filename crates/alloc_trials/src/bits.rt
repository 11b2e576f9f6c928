//! Trials of `qr_bits`. Most of them take `HELLO WORLD`, which is one segment, at version 1 and level M (1-M).

use crate::answer::Answer;
use qr_bits::{
    BitFault, Interpretation, Mode, ParseFault, Rule, Segment, Segmented, codewords, covers, fold,
    longest_fit, parse, segments,
};
use qr_layout::{Level, Version};
use std::alloc::{AllocError, Global};
use std::borrow::CowSlice;

pub static HELLO_WORLD: [u8; 11] = *b"HELLO WORLD";

pub static SEGMENT: Segment = Segment {
    mode: Mode::Alphanumeric,
    len: 11,
};

/// The data codewords of `HELLO WORLD` at 1-M.
pub static DATA: [u8; 16] = [
    0x20, 0x5B, 0x0B, 0x78, 0xD1, 0x72, 0xDC, 0x4D, 0x43, 0x40, 0xEC, 0x11, 0xEC, 0x11, 0xEC, 0x11,
];

// A kanji pair and a small letter.
static PAIR_AND_LETTER: [u8; 3] = [0x93, 0x61, 0x61];

const BITS_OUT: Answer = Answer::Memory("BitFault::Memory, arguments unchanged");

pub fn segmented(alloc: Global) -> Result<Answer, AllocError> {
    let input = Vec::from_slice(alloc, &HELLO_WORLD)?;
    let answer = match segments(
        alloc,
        &input,
        Version::FIRST,
        Rule::Auto,
        Interpretation::Default,
    ) {
        Ok(found) => Answer::of(found.segments.as_slice() == [SEGMENT].as_slice()),
        Err(BitFault::Memory) => BITS_OUT,
        Err(BitFault::TooLong) => Answer::Other,
    };
    Ok(answer.given(input.as_slice() == HELLO_WORLD.as_slice()))
}

pub fn longest(alloc: Global) -> Result<Answer, AllocError> {
    let input = Vec::from_slice(alloc, &HELLO_WORLD)?;
    let answer = match longest_fit(
        alloc,
        &input,
        Version::FIRST,
        Level::M,
        Rule::Auto,
        Interpretation::Default,
    ) {
        Ok(len) => Answer::of(len == 11),
        Err(BitFault::Memory) => BITS_OUT,
        Err(BitFault::TooLong) => Answer::Other,
    };
    Ok(answer.given(input.as_slice() == HELLO_WORLD.as_slice()))
}

pub fn folded(alloc: Global) -> Result<Answer, AllocError> {
    let input = Vec::from_array(alloc, PAIR_AND_LETTER)?;
    let answer = match fold(alloc, &input, Rule::WithKanji) {
        Ok(folded) => Answer::of(folded.as_slice() == [0x93, 0x61, 0x41].as_slice()),
        Err(_) => Answer::Memory("AllocError, arguments unchanged"),
    };
    Ok(answer.given(input.as_slice() == PAIR_AND_LETTER.as_slice()))
}

pub fn encoded(alloc: Global) -> Result<Answer, AllocError> {
    let input = Vec::from_slice(alloc, &HELLO_WORLD)?;
    let segments = Vec::from_slice(alloc, &[SEGMENT])?;
    if !covers(&input, &segments) {
        return Ok(Answer::Other);
    }
    let segmented = Segmented {
        segments,
        characters: CowSlice::Borrowed(&input),
    };
    let answer = match codewords(
        alloc,
        &segmented,
        None,
        Interpretation::Default,
        Version::FIRST,
        Level::M,
    ) {
        Ok(data) => Answer::of(data.as_slice() == DATA.as_slice()),
        Err(BitFault::Memory) => BITS_OUT,
        Err(BitFault::TooLong) => Answer::Other,
    };
    let is_same = input.as_slice() == HELLO_WORLD.as_slice();
    Ok(answer.given(is_same && segmented.segments.as_slice() == [SEGMENT].as_slice()))
}

pub fn parsed(alloc: Global) -> Result<Answer, AllocError> {
    let data = Vec::from_slice(alloc, &DATA)?;
    let answer = match parse(alloc, &data, Version::FIRST) {
        Ok(parsed) => Answer::of(parsed.bytes.as_slice() == HELLO_WORLD.as_slice()),
        Err(ParseFault::Memory) => Answer::Memory("ParseFault::Memory, arguments unchanged"),
        Err(_) => Answer::Other,
    };
    Ok(answer.given(data.as_slice() == DATA.as_slice()))
}
