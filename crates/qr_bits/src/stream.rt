//! How the bit stream of a symbol is written: a structured append header if there is one, the ECI header or FNC1 of the
//! interpretation, and then the segments (ISO/IEC 18004:2015, 7.4.1 to 7.4.6, 7.4.8, 8.1). In contracts `writer.old`
//! and `writer.new` are the bits that the writer has before and after the call.
//!
//! Each symbol of a series begins with a structured append header. The header says which symbol of the series this is,
//! and how many symbols there are. It also has the parity data of the whole input (ISO/IEC 18004:2015, 8).

ghost use Rattle.std.specs.Prelude.{All, IsTrue, OnOk, length, ◌++◌, ◌+◌, ◌-◌, ◌<◌, ◌^◌, ◌≡◌, ◌≤◌};
ghost use Rattle.std.specs.List.{list_all};
ghost use Rattle.std.specs.Option.{ForSome};
ghost use Rattle.qr_bits.specs.Modes.{characters, in_twos, is_alphanumeric, is_digit, is_kanji_pair, suits};
ghost use Rattle.qr_bits.specs.Segmentation.{Covers};
ghost use Rattle.qr_bits.specs.Header.{header_stream, parity_of};
ghost use Rattle.qr_bits.specs.Interpretation.{InterpretationFits, designator, interpretation_stream};
ghost use Rattle.qr_bits.specs.Stream.{character_bits, digit_bits, kanji_bits, segment_stream, segments_stream};

use crate::bits::BitWriter;
use crate::interpretation::Interpretation;
use crate::modes::{
    ALPHANUMERIC, BYTE, ECI, FNC1_FIRST, KANJI, Mode, NUMERIC, STRUCTURED_APPEND, character_value,
    count_width, kanji_value,
};
use crate::parsing::ECI_LIMIT;
use crate::segmentation::Segment;
use qr_layout::Version;
use std::alloc::AllocError;

// The number of bits of a header. The mode indicator, `position` and `last` have 4 bits each, and `parity` has 8 bits
// (ISO/IEC 18004:2015, 8.1 to 8.3).
pub(crate) const HEADER_BITS: u64 = 20;

/// The structured append header of a symbol (ISO/IEC 18004:2015, 8.1).
#[derive(Clone, Copy, Debug, PartialEq, Eq)]
pub struct Header {
    /// The index of the symbol in its series, from 0 to 15 (ISO/IEC 18004:2015, 8.2).
    pub position: u8,
    /// The number of symbols in the series less 1, from 0 to 15 (ISO/IEC 18004:2015, 8.2).
    pub last: u8,
    /// The parity data of the whole input of the series, as `parity` returns them (ISO/IEC 18004:2015, 8.3).
    pub parity: u8,
}

/// Returns the parity data of a series that contains `input`: the exclusive or of all its bytes, which is 0 if there
/// are none (ISO/IEC 18004:2015, 8.3).
pub fn parity(input: &[u8]) -> u8
    ensures { result ≡ parity_of input.now }
{
    input.iter().fold(0, |parity, byte| parity ^ *byte)
}

// Writes what comes before the segments: the header if there is one, and the ECI header or FNC1 of the interpretation.
// The contract also says that the parity is a byte; this is for the prover.
#[tactic(auto, unfolding(crate::specs::Header::header_stream, crate::specs::Interpretation::interpretation_stream))]
pub(crate) fn put_start(
    writer: &mut BitWriter,
    header: Option<Header>,
    interpretation: Interpretation,
) -> Result<(), AllocError>
    requires { InterpretationFits interpretation }
    ensures { OnOk result ((writer.new ≡ writer.old ++ (header_stream header ++ interpretation_stream interpretation))
        × ForSome header (λ h. h.parity < 256)) }
{
    if let Some(header) = header {
        writer.put(4, STRUCTURED_APPEND)?;
        writer.put(4, u16::from(header.position))?;
        writer.put(4, u16::from(header.last))?;
        writer.put(8, u16::from(header.parity))?;
    }
    match interpretation {
        Interpretation::Default => Ok(()),
        Interpretation::Eci(number) => {
            writer.put(4, ECI)?;
            put_designator(writer, number)
        }
        Interpretation::Gs1 => writer.put(4, FNC1_FIRST),
    }
}

// Writes the number of an ECI in as few codewords as possible. The first bits of the first codeword say how many
// codewords there are: 0 for one, 10 for two, and 110 for three (ISO/IEC 18004:2015, 7.4.2, Table 4).
#[tactic(auto, unfolding(crate::specs::Interpretation::designator))]
fn put_designator(writer: &mut BitWriter, number: u32) -> Result<(), AllocError>
    requires { number < ECI_LIMIT }
    ensures { OnOk result (writer.new ≡ writer.old ++ designator number) }
{
    if number < 128 {
        return writer.put(8, number as u16);
    }
    if number < 16384 {
        writer.put(8, 128 + (number / 256) as u16)?;
        return writer.put(8, (number % 256) as u16);
    }
    writer.put(8, 192 + (number / 65536) as u16)?;
    writer.put(16, (number % 65536) as u16)
}

// Writes the segments. Each of them takes the next bytes of `input`. The bound on the length of `input` excludes
// nothing, because no symbol has room for 2^16 bytes. The contract also says that the input consists of bytes; this is
// for the prover.
pub(crate) fn put_segments(
    writer: &mut BitWriter,
    input: &[u8],
    segs: &[Segment],
    version: Version,
) -> Result<(), AllocError>
    requires short { length input.now < 2 ^ 16 }
    requires covered { Covers input.now segs.now }
    ensures { OnOk result ((writer.new ≡ writer.old ++ segments_stream version input.now segs.now)
        × All (λ b. b < 256) input.now) }
{
    let mut rest = input;
    for segment in segs {
        let (part, after) = rest.split_at(segment.len);
        put_segment(writer, version, segment.mode, part)?;
        rest = after;
    }
    Ok(())
}

// Writes a segment: its two indicators, and then its data (ISO/IEC 18004:2015, 7.4.1).
#[tactic(auto, unfolding(crate::specs::Stream::segment_stream, crate::specs::Stream::payload))]
fn put_segment(
    writer: &mut BitWriter,
    version: Version,
    mode: Mode,
    bytes: &[u8],
) -> Result<(), AllocError>
    requires short { length bytes.now < 2 ^ 16 }
    requires suited { IsTrue (suits mode bytes.now) }
    ensures { OnOk result (writer.new ≡ writer.old ++ segment_stream version mode bytes.now) }
{
    // In kanji mode two bytes count as one character.
    let (indicator, count) = match mode {
        Mode::Numeric => (NUMERIC, bytes.len()),
        Mode::Alphanumeric => (ALPHANUMERIC, bytes.len()),
        Mode::Byte => (BYTE, bytes.len()),
        Mode::Kanji => (KANJI, bytes.len() / 2),
    };
    writer.put(4, indicator)?;
    writer.put(count_width(version, mode), count as u16)?;
    match mode {
        Mode::Numeric => put_digits(writer, bytes),
        Mode::Alphanumeric => put_characters(writer, bytes),
        Mode::Byte => writer.put_bytes(bytes),
        Mode::Kanji => put_kanji(writer, bytes),
    }
}

// Writes each group of three digits in ten bits. Two digits at the end take seven bits, and one digit takes four bits
// (ISO/IEC 18004:2015, 7.4.3).
#[tactic(auto, unfolding(crate::specs::Stream::digit_bits))]
fn put_digits(writer: &mut BitWriter, digits: &[u8]) -> Result<(), AllocError>
    requires { IsTrue (list_all is_digit digits.now) }
    ensures { OnOk result (writer.new ≡ writer.old ++ digit_bits digits.now) }
{
    let mut rest = digits;
    while let [a, b, c, after @ ..] = rest {
        let hundreds = 100 * digit_value(*a);
        writer.put(10, hundreds + 10 * digit_value(*b) + digit_value(*c))?;
        rest = after;
    }
    match rest {
        [a, b] => writer.put(7, 10 * digit_value(*a) + digit_value(*b)),
        [a] => writer.put(4, digit_value(*a)),
        _ => Ok(()),
    }
}

fn digit_value(digit: u8) -> u16
    requires { IsTrue (is_digit digit) }
    ensures value { result ≡ digit - 48 }
    ensures most { result ≤ 9 }
{
    u16::from(digit - b'0')
}

// Writes each pair of characters in eleven bits. A single character at the end takes six bits (ISO/IEC 18004:2015,
// 7.4.4).
#[tactic(auto, unfolding(crate::specs::Stream::character_bits))]
fn put_characters(writer: &mut BitWriter, characters: &[u8]) -> Result<(), AllocError>
    requires { IsTrue (list_all is_alphanumeric characters.now) }
    ensures { OnOk result (writer.new ≡ writer.old ++ character_bits characters.now) }
{
    let mut rest = characters;
    while let [a, b, after @ ..] = rest {
        writer.put(11, 45 * character_value(*a) + character_value(*b))?;
        rest = after;
    }
    match rest {
        [a] => writer.put(6, character_value(*a)),
        _ => Ok(()),
    }
}

// Writes each kanji pair in thirteen bits (ISO/IEC 18004:2015, 7.4.6).
#[tactic(auto, unfolding(crate::specs::Stream::kanji_bits))]
fn put_kanji(writer: &mut BitWriter, bytes: &[u8]) -> Result<(), AllocError>
    requires { IsTrue (in_twos is_kanji_pair bytes.now) }
    ensures { OnOk result (writer.new ≡ writer.old ++ kanji_bits bytes.now) }
{
    let mut rest = bytes;
    while let [high, low, after @ ..] = rest {
        writer.put(13, kanji_value(*high, *low))?;
        rest = after;
    }
    Ok(())
}
