//! Trials with an ECI or with GS1 data, at version 1. In them lists grow that stay empty in the other trials: the
//! characters that are written for GS1 data, the bytes that are read after FNC1, and the ECI headers.

use crate::answer::Answer;
use crate::bits::HELLO_WORLD;
use crate::symbols::are_equal;
use qr_bits::{
    BitFault, EciChange, Fnc1, Interpretation, Mode, ParseFault, Parsed, Rule, Segment, Segmented,
    Writing, codewords, covers, may_write, parse, segments,
};
use qr_layout::{Level, Size, Version};
use qr_symbol::{
    Asked, EncodeFault, ReadFault, Symbol, build, encode, encode_as, encode_series, interleave,
    read_symbol,
};
use std::alloc::{AllocError, Global};
use std::borrow::CowSlice;

// GS1 data of two fields, and the characters that are written for them.
static FIELDS: [u8; 20] = *b"01040123456789\x1D10A%B";

static CHARACTERS: [u8; 21] = *b"01040123456789%10A%%B";

static SEGMENTS: [Segment; 2] = [
    Segment {
        mode: Mode::Numeric,
        len: 14,
    },
    Segment {
        mode: Mode::Alphanumeric,
        len: 7,
    },
];

// The data codewords of `FIELDS` at level M.
static DATA: [u8; 16] = [
    0x51, 0x03, 0x80, 0xA6, 0x44, 0xEA, 0x8D, 0xEC, 0x90, 0x1F, 0x57, 0x80, 0xAD, 0xA8, 0x58, 0x00,
];

// Data codewords of level M: FNC1 in first position, the characters `A%B%%C`, ECI 26, and `%%` in byte mode.
// `PARSED_SEGMENTS` has their segments, and `READ` has the bytes that they stand for.
static MARKED: [u8; 16] = [
    0x52, 0x03, 0x1E, 0x84, 0x2B, 0xAE, 0x9C, 0x69, 0x00, 0x89, 0x49, 0x40, 0xEC, 0x11, 0xEC, 0x11,
];

static PARSED_SEGMENTS: [Segment; 2] = [
    Segment {
        mode: Mode::Alphanumeric,
        len: 6,
    },
    Segment {
        mode: Mode::Byte,
        len: 2,
    },
];

static READ: [u8; 7] = *b"A\x1DB%C%%";

const ECI_26: EciChange = EciChange {
    number: 26,
    begin: 5,
};

const BITS_OUT: Answer = Answer::Memory("BitFault::Memory, arguments unchanged");

const ENCODE_OUT: Answer = Answer::Memory("EncodeFault::Memory, arguments unchanged");

pub fn segmented(alloc: Global) -> Result<Answer, AllocError> {
    let input = Vec::from_slice(alloc, &FIELDS)?;
    if !may_write(&input, Interpretation::Gs1) {
        return Ok(Answer::Other);
    }
    let answer = match segments(
        alloc,
        &input,
        Version::FIRST,
        Rule::Auto,
        Interpretation::Gs1,
    ) {
        Ok(found) => Answer::of(
            found.segments.as_slice() == SEGMENTS.as_slice()
                && found.characters.as_slice() == CHARACTERS.as_slice(),
        ),
        Err(BitFault::Memory) => BITS_OUT,
        Err(BitFault::TooLong) => Answer::Other,
    };
    Ok(answer.given(input.as_slice() == FIELDS.as_slice()))
}

pub fn written(alloc: Global) -> Result<Answer, AllocError> {
    let characters = Vec::from_slice(alloc, &CHARACTERS)?;
    let segments = Vec::from_slice(alloc, &SEGMENTS)?;
    if !covers(&characters, &segments) {
        return Ok(Answer::Other);
    }
    let segmented = Segmented {
        segments,
        characters: CowSlice::Borrowed(&characters),
    };
    let answer = match codewords(
        alloc,
        &segmented,
        None,
        Interpretation::Gs1,
        Version::FIRST,
        Level::M,
    ) {
        Ok(data) => Answer::of(data.as_slice() == DATA.as_slice()),
        Err(BitFault::Memory) => BITS_OUT,
        Err(BitFault::TooLong) => Answer::Other,
    };
    let is_same = characters.as_slice() == CHARACTERS.as_slice();
    Ok(answer.given(is_same && segmented.segments.as_slice() == SEGMENTS.as_slice()))
}

pub fn encoded(alloc: Global) -> Result<Answer, AllocError> {
    let input = Vec::from_slice(alloc, &FIELDS)?;
    if !may_write(&input, Interpretation::Gs1) {
        return Ok(Answer::Other);
    }
    let answer = match encode(
        alloc,
        &input,
        Level::M,
        Version::FIRST,
        Rule::Auto,
        Interpretation::Gs1,
    ) {
        Ok(symbol) => Answer::of(symbol.version.number() == 1),
        Err(EncodeFault::Memory) => ENCODE_OUT,
        Err(_) => Answer::Other,
    };
    Ok(answer.given(input.as_slice() == FIELDS.as_slice()))
}

// The ECI header takes 12 bits, and the segment 74. Level Q has room for 104 bits, and level H for 72.
pub fn boosted(alloc: Global) -> Result<Answer, AllocError> {
    let input = Vec::from_slice(alloc, &HELLO_WORLD)?;
    let asked = Asked {
        least: Size {
            version: Version::FIRST,
            level: Level::L,
        },
        boost: true,
    };
    let writing = Writing {
        rule: Rule::Auto,
        interpretation: Interpretation::Eci(26),
    };
    let answer = match encode_as(alloc, &input, asked, writing) {
        Ok(symbol) => Answer::of(symbol.version.number() == 1 && symbol.level == Level::Q),
        Err(EncodeFault::Memory) => ENCODE_OUT,
        Err(_) => Answer::Other,
    };
    Ok(answer.given(input.as_slice() == HELLO_WORLD.as_slice()))
}

// Besides the structured append header and FNC1, a symbol of level H has room for 48 bits. The first one has ten digits
// (48 bits), the second `6789`, the separator and `1` (46 bits), and the third `0A%B` (41 bits).
pub fn encoded_series(alloc: Global) -> Result<Answer, AllocError> {
    let input = Vec::from_slice(alloc, &FIELDS)?;
    if !may_write(&input, Interpretation::Gs1) {
        return Ok(Answer::Other);
    }
    let answer = match encode_series(
        alloc,
        &input,
        Version::FIRST,
        Level::H,
        Rule::Auto,
        Interpretation::Gs1,
    ) {
        Ok(symbols) => Answer::of(symbols.len() == 3),
        Err(EncodeFault::Memory) => ENCODE_OUT,
        Err(_) => Answer::Other,
    };
    Ok(answer.given(input.as_slice() == FIELDS.as_slice()))
}

fn is_read(parsed: &Parsed) -> bool {
    parsed.bytes.as_slice() == READ.as_slice()
        && parsed.ecis.as_slice() == [ECI_26].as_slice()
        && parsed.fnc1() == Some(Fnc1::First)
}

pub fn parsed(alloc: Global) -> Result<Answer, AllocError> {
    let data = Vec::from_slice(alloc, &MARKED)?;
    let answer = match parse(alloc, &data, Version::FIRST) {
        Ok(parsed) => Answer::of(is_read(&parsed)),
        Err(ParseFault::Memory) => Answer::Memory("ParseFault::Memory, arguments unchanged"),
        Err(_) => Answer::Other,
    };
    Ok(answer.given(data.as_slice() == MARKED.as_slice()))
}

pub fn segments_parsed(alloc: Global) -> Result<Answer, AllocError> {
    let data = Vec::from_slice(alloc, &MARKED)?;
    let parsed = match parse(alloc, &data, Version::FIRST) {
        Ok(parsed) => parsed,
        Err(_) => return Err(AllocError),
    };
    let answer = match parsed.segments(alloc) {
        Ok(segments) => Answer::of(segments.as_slice() == PARSED_SEGMENTS.as_slice()),
        Err(_) => Answer::Memory("AllocError, arguments unchanged"),
    };
    Ok(answer.given(is_read(&parsed)))
}

// The symbol with the data codewords `MARKED`, or nothing if a list of codewords has not the length that it should.
fn marked(alloc: Global) -> Result<Option<Symbol>, AllocError> {
    let message = Vec::from_slice(alloc, &MARKED)?;
    let version = Version::FIRST;
    if message.len() != usize::from(version.data_codewords(Level::M)) {
        return Ok(None);
    }
    let sent = interleave(alloc, version, Level::M, &message)?;
    if sent.len() != usize::from(version.total_codewords()) {
        return Ok(None);
    }
    match build(alloc, version, Level::M, &sent) {
        Ok(symbol) => Ok(Some(symbol)),
        Err(_) => Err(AllocError),
    }
}

pub fn read(alloc: Global) -> Result<Answer, AllocError> {
    let Some(symbol) = marked(alloc)? else {
        return Ok(Answer::Other);
    };
    let Some(same) = marked(alloc)? else {
        return Ok(Answer::Other);
    };
    let answer = match read_symbol(alloc, &symbol.matrix) {
        Ok(parsed) => Answer::of(is_read(&parsed)),
        Err(ReadFault::Memory) => Answer::Memory("ReadFault::Memory, arguments unchanged"),
        Err(_) => Answer::Other,
    };
    Ok(answer.given(are_equal(&symbol.matrix, &same.matrix)))
}
