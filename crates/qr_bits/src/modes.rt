//! The four modes in which bytes are written: their indicators, the bytes that each mode can write, and the bits that
//! these bytes take (ISO/IEC 18004:2015, 7.3, 7.4.1 to 7.4.6). A segment begins with two indicators, and its data
//! follow. The mode indicator has four bits. The character count indicator says how many characters follow, and its
//! width depends on the mode and the version.

ghost use Rattle.std.specs.Prelude.{IsTrue, ◌<◌, ◌==◌, ◌^◌, ◌≡◌, ◌≤◌};
ghost use Rattle.qr_bits.specs.Modes.{character_value, characters, count_width, in_twos, is_alphanumeric, is_digit, is_kanji_pair, kanji_value, byte_count, may_use, payload_bits, suits};
ghost use Rattle.std.specs.List.{list_all, position};
ghost use Rattle.qr_bits.specs.Parsing.{character, mode_of};

use crate::fault::ParseFault;
use qr_layout::Version;

/// The greatest length of an input, in bytes. A series has at most 16 symbols, each with at most 7,089 bytes, and this
/// length is one byte more than 16 times 7,089. So an input of this length fits no series, and no further byte need be
/// read.
pub const INPUT_MAX: usize = 113_425;

/// How the bytes of a segment are written (ISO/IEC 18004:2015, 7.3.3 to 7.3.6).
#[derive(Clone, Copy, Debug, PartialEq, Eq)]
pub enum Mode {
    /// Digits, of which three take ten bits.
    Numeric,
    /// Digits, capital letters, space and `$%*+-./:`, of which two take eleven bits.
    Alphanumeric,
    /// Any bytes, of which each takes eight bits.
    Byte,
    /// Characters of Shift JIS, of which each takes thirteen bits. Each is a pair of bytes: from 8140 to 9FFC or from
    /// E040 to EBBF, with a second byte from 40 to FC (all hexadecimal).
    Kanji,
}

/// Which modes the segments of an input may have.
#[derive(Clone, Copy, Debug, PartialEq, Eq)]
pub enum Rule {
    /// All modes but kanji mode.
    Auto,
    /// Byte mode alone.
    BytesOnly,
    /// All four modes.
    WithKanji,
}

// The mode indicators (ISO/IEC 18004:2015, 7.4.1, Table 2). The standard also counts structured append, ECI and FNC1 as
// modes, so each of them has a mode indicator. The terminator stands where the next mode indicator would be.
pub(crate) const TERMINATOR: u16 = 0b0000;

pub(crate) const NUMERIC: u16 = 0b0001;

pub(crate) const ALPHANUMERIC: u16 = 0b0010;

pub(crate) const STRUCTURED_APPEND: u16 = 0b0011;

pub(crate) const BYTE: u16 = 0b0100;

pub(crate) const KANJI: u16 = 0b1000;

pub(crate) const ECI: u16 = 0b0111;

pub(crate) const FNC1_FIRST: u16 = 0b0101;

pub(crate) const FNC1_SECOND: u16 = 0b1001;

#[tactic(auto, unfolding(crate::specs::Parsing::mode_of))]
pub(crate) fn mode_of(indicator: u16) -> Result<Mode, ParseFault>
    ensures { result ≡ mode_of indicator }
{
    match indicator {
        NUMERIC => Ok(Mode::Numeric),
        ALPHANUMERIC => Ok(Mode::Alphanumeric),
        BYTE => Ok(Mode::Byte),
        KANJI => Ok(Mode::Kanji),
        _ => Err(ParseFault::BadMode),
    }
}

// How many bits a character count indicator has (ISO/IEC 18004:2015, 7.4.1, Table 3).
pub(crate) fn count_width(version: Version, mode: Mode) -> u8
    ensures value { result ≡ count_width version mode }
    ensures most { result ≤ 16 }
{
    let (small, medium, large) = match mode {
        Mode::Numeric => (10, 12, 14),
        Mode::Alphanumeric => (9, 11, 13),
        Mode::Byte => (8, 16, 16),
        Mode::Kanji => (8, 10, 12),
    };
    match version.number() {
        1..=9 => small,
        10..=26 => medium,
        _ => large,
    }
}

// The number of bytes of a segment with `count` characters. The bound on `count` is that of the number in a character
// count indicator, which has at most 16 bits.
pub(crate) fn byte_count(mode: Mode, count: usize) -> usize
    requires { count < 2 ^ 16 }
    ensures { result ≡ byte_count mode count }
{
    match mode {
        Mode::Kanji => 2 * count,
        _ => count,
    }
}

// How many bits the data of `len` bytes take, without the indicators (ISO/IEC 18004:2015, 7.4.3 to 7.4.6). If `len` is
// odd in kanji mode, the last byte counts as a whole pair. The bound on `len` is loose: callers have at most 2 *
// INPUT_MAX bytes, which is less than 2^20.
pub(crate) fn payload_bits(mode: Mode, len: usize) -> usize
    requires { len < 2 ^ 20 }
    ensures { result ≡ payload_bits mode len }
{
    match mode {
        Mode::Numeric => {
            let left_over = match len % 3 {
                0 => 0,
                1 => 4,
                _ => 7,
            };
            10 * (len / 3) + left_over
        }
        Mode::Alphanumeric => 11 * (len / 2) + 6 * (len % 2),
        Mode::Byte => 8 * len,
        Mode::Kanji => 13 * ((len + 1) / 2),
    }
}

// The characters of alphanumeric mode. The index of a character is its value (ISO/IEC 18004:2015, 7.4.4, Table 5).
pub(crate) const CHARACTERS: [u8; 45] = *b"0123456789ABCDEFGHIJKLMNOPQRSTUVWXYZ $%*+-./:";

pub(crate) fn is_digit(byte: u8) -> bool
    ensures { result ≡ is_digit byte }
{
    byte.is_ascii_digit()
}

#[tactic(auto, unfolding(crate::specs::Modes::is_alphanumeric, crate::specs::Modes::characters), using(crate::proofs::lemmas::modes::past_z))]
pub(crate) fn is_alphanumeric(byte: u8) -> bool
    ensures { result ≡ is_alphanumeric byte }
{
    // No character of alphanumeric mode is greater than `Z`, so small letters need no search.
    if byte > b'Z' {
        return false;
    }
    CHARACTERS.iter().any(|character| *character == byte)
}

#[tactic(auto, unfolding(crate::specs::Modes::is_kanji_pair))]
pub(crate) fn is_kanji_pair(high: u8, low: u8) -> bool
    ensures { result ≡ is_kanji_pair high low }
{
    // No ASCII character begins a pair, so most texts need only this test.
    if high < 0x81 {
        return false;
    }
    let pair = 256 * u16::from(high) + u16::from(low);
    (0x8140 <= pair && pair <= 0x9FFC || 0xE040 <= pair && pair <= 0xEBBF)
        && (0x40 <= low && low <= 0xFC)
}

pub(crate) fn character_value(character: u8) -> u16
    requires { IsTrue (is_alphanumeric character) }
    ensures value { result ≡ character_value character }
    ensures most { result ≤ 44 }
{
    index_of(character).unwrap() as u16
}

#[tactic(auto, unfolding(crate::specs::Modes::characters))]
fn index_of(character: u8) -> Option<usize>
    ensures { result ≡ position (λ c. c == character) characters }
{
    CHARACTERS.iter().position(|other| *other == character)
}

// `kanji_value` subtracts a number from a kanji pair, and multiplies the high byte of the difference by this factor.
// `kanji_pair` in `parsing.rt` undoes this (ISO/IEC 18004:2015, 7.4.6).
pub(crate) const KANJI_FACTOR: u16 = 0xC0;

// The number of 13 bits that is written for a kanji pair (ISO/IEC 18004:2015, 7.4.6). First 8140 is subtracted from a
// pair of the first range, and C140 from a pair of the second range. This closes the gap between the two ranges, and
// leaves a low byte of at most BC. So it is enough to multiply the high byte by C0, and not by 100: different pairs
// still have different numbers. (8140, C140, BC, C0 and 100 are hexadecimal.)
#[tactic(auto, unfolding(crate::specs::Modes::kanji_value), using(crate::proofs::lemmas::modes::least_pair))]
pub(crate) fn kanji_value(high: u8, low: u8) -> u16
    requires { IsTrue (is_kanji_pair high low) }
    ensures { result ≡ kanji_value high low }
{
    let pair = 256 * u16::from(high) + u16::from(low);
    let rest = if pair <= 0x9FFC {
        pair - 0x8140
    } else {
        pair - 0xC140
    };
    KANJI_FACTOR * (rest / 256) + rest % 256
}

pub(crate) fn may_use(rule: Rule, mode: Mode) -> bool
    ensures { result ≡ may_use rule mode }
{
    match mode {
        Mode::Numeric => !matches!(rule, Rule::BytesOnly),
        Mode::Alphanumeric => !matches!(rule, Rule::BytesOnly),
        Mode::Byte => true,
        Mode::Kanji => matches!(rule, Rule::WithKanji),
    }
}

pub(crate) fn suits(mode: Mode, bytes: &[u8]) -> bool
    ensures { result ≡ suits mode bytes.now }
{
    match mode {
        Mode::Numeric => are_digits(bytes),
        Mode::Alphanumeric => are_alphanumeric(bytes),
        Mode::Byte => true,
        Mode::Kanji => are_kanji_pairs(bytes),
    }
}

fn are_digits(bytes: &[u8]) -> bool
    ensures { result ≡ list_all is_digit bytes.now }
{
    bytes.iter().all(|byte| is_digit(*byte))
}

fn are_alphanumeric(bytes: &[u8]) -> bool
    ensures { result ≡ list_all is_alphanumeric bytes.now }
{
    bytes.iter().all(|byte| is_alphanumeric(*byte))
}

fn are_kanji_pairs(bytes: &[u8]) -> bool
    ensures { result ≡ in_twos is_kanji_pair bytes.now }
{
    let mut rest = bytes;
    while let [high, low, after @ ..] = rest {
        if !is_kanji_pair(*high, *low) {
            return false;
        }
        rest = after;
    }
    rest.is_empty()
}
