//! How data codewords are parsed: as an optional structured append header, and then segments, ECI headers and FNC1,
//! which are called items (ISO/IEC 18004:2015, 7.4.1 to 7.4.9, 8, 12). First the header and all items are read, and the
//! characters of all segments are appended to one list, `out`. Then `interpreted` returns the bytes that these
//! characters stand for.

ghost use Rattle.std.specs.Prelude.{Err, IfOk, List, MatchResult, length, take, true, ℕ, ◌%◌, ◌*◌, ◌++◌, ◌+◌, ◌<◌, ◌^◌, ◌≡◌, ◌≤◌};
ghost use Rattle.qr_bits.specs.Modes.{byte_count, payload_bits};
ghost use Rattle.qr_bits.specs.Bits.{bits_of};
ghost use Rattle.qr_bits.specs.Parsing.{IsResultOf, bytes_of, character, characters_of, digits_of, first_header, header_at, application_at, designator_at, item_at, items_of, kanji_pair, leading_number, pairs_of, parse, segment_at, values_of};
ghost use Rattle.qr_bits.specs.Interpretation.{fnc1_of, is_application_indicator, may_follow, segments_among};
ghost use Rattle.qr_bits.specs.Steps.Parsing.{IsFaultOf, IsReadOf, segment_of};

use crate::bits::BitReader;
use crate::fault::ParseFault;
use crate::interpretation::{
    Designator, EciChange, Fnc1, Item, fnc1_of, interpreted, segments_among,
};
use crate::modes::{
    CHARACTERS, ECI, FNC1_FIRST, FNC1_SECOND, KANJI_FACTOR, Mode, byte_count, count_width, mode_of,
    payload_bits,
};
use crate::segmentation::Segment;
use crate::stream::Header;
use qr_layout::Version;
use std::alloc::{AllocError, Global};
use std::marker::Model;

// Limits of the numbers that are written for three digits, two digits, one digit, two characters, and one character.
// Each number is below its limit (ISO/IEC 18004:2015, 7.4.3, 7.4.4).
const THREE_DIGITS_LIMIT: u16 = 1000;

const TWO_DIGITS_LIMIT: u16 = 100;

const ONE_DIGIT_LIMIT: u16 = 10;

const TWO_CHARACTERS_LIMIT: u16 = 2025;

const ONE_CHARACTER_LIMIT: u16 = 45;

// The greatest remainder that the value of a kanji pair leaves when it is divided by `KANJI_FACTOR` (ISO/IEC
// 18004:2015, 7.4.6).
const LOW_MAX: u16 = 0xBC;

// The number in an ECI designator has at most six digits, so it is below this limit (ISO/IEC 18004:2015, 7.4.2).
pub(crate) const ECI_LIMIT: u32 = 1_000_000;

/// What data codewords contain.
#[derive(Debug, Drop)]
pub struct Parsed {
    pub header: Option<Header>,
    /// The segments, ECI headers and FNC1, in the order in which they are written.
    pub items: Vec<Item>,
    /// The ECI headers, each with the number of elements of `bytes` that come before it.
    pub ecis: Vec<EciChange>,
    /// The bytes that the characters of the segments stand for. They are these characters, except that in alphanumeric
    /// mode after FNC1 `%%` stands for `%`, and any other `%` for the byte 1D (hexadecimal), which separates fields
    /// (ISO/IEC 18004:2015, 7.4.8.2).
    pub bytes: Vec<u8>,
}

impl Model for Parsed {
    ghost use Rattle.qr_bits.specs.Parsing.{Content};

    ghost Value = { Content };

    ghost view = { λ p. record {
      header = p.header;
      items = p.items.items;
      ecis = p.ecis.items;
      bytes = p.bytes.items;
    } };
}

impl Parsed {
    /// Returns the segments, in the order in which they are written. These are the items that are neither ECI headers
    /// nor FNC1.
    ///
    /// # Errors
    ///
    /// Returns `AllocError` if memory is refused.
    pub fn segments(&self, alloc: Global) -> Result<Vec<Segment>, AllocError>
        ensures { IfOk result (λ s. s.items ≡ segments_among self.now.items) }
    {
        segments_among(alloc, &self.items)
    }

    /// Returns FNC1, in first or second position, if it is among the items (ISO/IEC 18004:2015, 7.4.8).
    pub fn fnc1(&self) -> Option<Fnc1>
        ensures { result ≡ fnc1_of self.now.items }
    {
        fnc1_of(&self.items)
    }
}

/// Parses data codewords up to a terminator, or to where fewer than four bits are left (ISO/IEC 18004:2015, 7.4.9). All
/// later bits may have any values. Segments may be empty, and need not take the fewest bits. There may be at most 3,706
/// codewords, as many as the largest symbol has in all.
///
/// # Errors
///
/// Returns the fault of the first header or item that has one. `BadMode` stands for a mode indicator that is not
/// defined or not allowed in its place: a structured append header after the beginning, or FNC1 after a segment or
/// another FNC1. `Cut` stands for an end within a header, an application indicator, a character count indicator or
/// data. `BadValue` stands for a number that is too large for its digits or characters, a value that no kanji pair has,
/// or an ECI designator or application indicator that is not defined. If the data of a segment are cut, the fault is
/// `Cut` even if a value among them is wrong. Returns `Memory` if memory is refused.
#[tactic(auto, unfolding(crate::specs::Parsing::parse))]
pub fn parse(alloc: Global, codewords: &[u8], v: Version) -> Result<Parsed, ParseFault>
    requires { length codewords.now ≤ 3706 }
    ensures { IsResultOf result (parse v (bits_of codewords.now)) }
{
    let mut reader = BitReader::new(codewords);
    let header = first_header(&mut reader)?;
    let (items, characters) = items(alloc, reader, v)?;
    let meaning = interpreted(alloc, &items, characters)?;
    Ok(Parsed {
        header,
        items,
        ecis: meaning.ecis,
        bytes: meaning.bytes,
    })
}

// Reads the structured append header, if its mode indicator comes next (ISO/IEC 18004:2015, 8.1).
#[tactic(auto, unfolding(crate::specs::Parsing::first_header), using(crate::proofs::lemmas::parsing::ParsingLemmas::begun))]
fn first_header(reader: &mut BitReader) -> Result<Option<Header>, ParseFault>
    ensures { MatchResult result (λ h. first_header reader.old ≡ Ok (h, reader.new)) (λ e. first_header reader.old ≡ Err e) }
{
    if !reader.begins_header() {
        return Ok(None);
    }
    reader.take(4);
    let header = header(reader)?;
    Ok(Some(header))
}

// Reads a header whose mode indicator was already read (ISO/IEC 18004:2015, 8.1 to 8.3).
#[tactic(auto, unfolding(crate::specs::Parsing::header_at))]
fn header(reader: &mut BitReader) -> Result<Header, ParseFault>
    ensures { MatchResult result (λ h. header_at reader.old ≡ Ok (h, reader.new)) (λ e. header_at reader.old ≡ Err e) }
{
    if reader.len() < 16 {
        return Err(ParseFault::Cut);
    }
    Ok(Header {
        position: reader.take(4) as u8,
        last: reader.take(4) as u8,
        parity: reader.take(8) as u8,
    })
}

// Reads all items, and returns them with the characters of all segments. The variable `may` says whether FNC1 may come
// next.
#[tactic(auto, using(crate::proofs::lemmas::parsing::ParsingLemmas::not_ended))]
fn items(
    alloc: Global,
    mut reader: BitReader,
    version: Version,
) -> Result<(Vec<Item>, Vec<u8>), ParseFault>
    ensures { MatchResult result (λ r. items_of version true reader.entry ≡ Ok (r.0.items, r.1.items))
        (λ e. IsFaultOf e (items_of version true reader.entry)) }
{
    let mut items = Vec::new(alloc);
    let mut characters = Vec::new(alloc);
    let mut may = true;
    while !reader.ends() {
        let next = item(&mut reader, version, may, &mut characters)?;
        may = may_follow(may, next);
        items.push(next)?;
    }
    Ok((items, characters))
}

// Whether FNC1 may come after `item`. `may` says whether FNC1 could have come in the place of `item`. Only ECI headers
// may come before FNC1 (ISO/IEC 18004:2015, 7.4.8.2).
fn may_follow(may: bool, item: Item) -> bool
    ensures { result ≡ may_follow may item }
{
    match item {
        Item::Eci(_) => may,
        _ => false,
    }
}

// Reads an item. If it is a segment, its characters are appended to `out`. `may` says whether the item may be FNC1.
#[tactic(auto, unfolding(crate::specs::Parsing::item_at))]
fn item(
    reader: &mut BitReader,
    version: Version,
    may: bool,
    out: &mut Vec<u8>,
) -> Result<Item, ParseFault>
    requires { 4 ≤ length reader.old }
    ensures { MatchResult result
        (λ i. (xs : List ℕ) × (item_at version may reader.old ≡ Ok (i, xs, reader.new)) × (out.new.items ≡ out.old.items ++ xs))
        (λ e. IsFaultOf e (item_at version may reader.old)) }
{
    let indicator = reader.indicator();
    if indicator == ECI {
        reader.take(4);
        return Ok(Item::Eci(designator(reader)?));
    }
    if may && indicator == FNC1_FIRST {
        reader.take(4);
        return Ok(Item::Fnc1First);
    }
    if may && indicator == FNC1_SECOND {
        reader.take(4);
        return Ok(Item::Fnc1Second(application(reader)?));
    }
    Ok(Item::Data(segment(reader, version, out)?))
}

// Reads the next `width` bits as a number.
#[tactic(auto, unfolding(crate::specs::Parsing::leading_number))]
fn number(reader: &mut BitReader, width: usize) -> Result<u16, ParseFault>
    requires { width ≤ 16 }
    ensures read { MatchResult result (λ n. leading_number width reader.old ≡ Ok (n, reader.new)) (λ e. leading_number width reader.old ≡ Err e) }
    ensures small { IfOk result (λ n. n < 2 ^ width) }
{
    if reader.len() < width {
        return Err(ParseFault::Cut);
    }
    Ok(reader.take(width))
}

// Reads the designator of an ECI header whose mode indicator was already read. The number of the ECI has 7 bits after
// the bit 0, 14 bits after the bits 10, or 21 bits after the bits 110 (ISO/IEC 18004:2015, 7.4.2, Table 4).
#[tactic(auto, unfolding(crate::specs::Parsing::designator_at))]
fn designator(reader: &mut BitReader) -> Result<Designator, ParseFault>
    ensures { MatchResult result (λ d. designator_at reader.old ≡ Ok (d, reader.new)) (λ e. designator_at reader.old ≡ Err e) }
{
    let first = number(reader, 8)?;
    if first < 128 {
        return Ok(Designator {
            number: u32::from(first),
            codewords: 1,
        });
    }
    if first < 192 {
        let low = number(reader, 8)?;
        return Ok(Designator {
            number: u32::from(256 * (first - 128) + low),
            codewords: 2,
        });
    }
    if first >= 224 {
        return Err(ParseFault::BadValue);
    }
    let low = number(reader, 16)?;
    let number = 65536 * u32::from(first - 192) + u32::from(low);
    if number >= ECI_LIMIT {
        return Err(ParseFault::BadValue);
    }
    Ok(Designator {
        number,
        codewords: 3,
    })
}

// Reads the application indicator of FNC1 in second position, after its mode indicator (ISO/IEC 18004:2015, 7.4.8.3).
#[tactic(auto, unfolding(crate::specs::Parsing::application_at))]
fn application(reader: &mut BitReader) -> Result<u8, ParseFault>
    ensures { MatchResult result (λ a. application_at reader.old ≡ Ok (a, reader.new)) (λ e. application_at reader.old ≡ Err e) }
{
    let indicator = number(reader, 8)?;
    if !is_application_indicator(indicator) {
        return Err(ParseFault::BadValue);
    }
    Ok(indicator as u8)
}

// Whether the number is below 100, or is the ASCII code of a letter plus 100 (ISO/IEC 18004:2015, 7.4.8.3).
fn is_application_indicator(number: u16) -> bool
    ensures { result ≡ is_application_indicator number }
{
    number < 100 || 165 <= number && number <= 190 || 197 <= number && number <= 222
}

// Reads a segment, and appends its characters to `out`.
fn segment(
    reader: &mut BitReader,
    version: Version,
    out: &mut Vec<u8>,
) -> Result<Segment, ParseFault>
    requires { 4 ≤ length reader.old }
    ensures { MatchResult result
        (λ s. (xs : List ℕ) × (segment_at version reader.old ≡ Ok (s, xs, reader.new)) × (out.new.items ≡ out.old.items ++ xs))
        (λ e. IsFaultOf e (segment_at version reader.old)) }
{
    let (mode, count) = segment_head(reader, version)?;
    let count = usize::from(count);
    values(reader, mode, count, out)?;
    let len = byte_count(mode, count);
    Ok(Segment { mode, len })
}

// Reads the two indicators of a segment, and checks that its data are complete.
#[tactic(auto, unfolding(crate::specs::Parsing::segment_at, crate::specs::Parsing::leading_number, crate::specs::Parsing::payload_at))]
fn segment_head(reader: &mut BitReader, version: Version) -> Result<(Mode, u16), ParseFault>
    requires { 4 ≤ length reader.old }
    ensures { MatchResult result
        (λ h. (segment_at version reader.old ≡ segment_of h.0 h.1 reader.new) × (payload_bits h.0 (byte_count h.0 h.1) ≤ length reader.new))
        (λ e. segment_at version reader.old ≡ Err e) }
{
    let mode = mode_of(reader.take(4))?;
    let width = usize::from(count_width(version, mode));
    if reader.len() < width {
        return Err(ParseFault::Cut);
    }
    let count = reader.take(width);
    let len = byte_count(mode, usize::from(count));
    if reader.len() < payload_bits(mode, len) {
        return Err(ParseFault::Cut);
    }
    Ok((mode, count))
}

// Reads the data of a segment of `count` characters. `segment_head` has checked that the data are complete, but a value
// among them may be too large.
#[tactic(auto, unfolding(crate::specs::Parsing::values_of))]
fn values(
    reader: &mut BitReader,
    mode: Mode,
    count: usize,
    out: &mut Vec<u8>,
) -> Result<(), ParseFault>
    requires { payload_bits mode (byte_count mode count) ≤ length reader.old }
    ensures { IsReadOf result (values_of mode count reader.old) (payload_bits mode (byte_count mode count))
        out.old.items out.new.items reader.old reader.new }
{
    match mode {
        Mode::Numeric => digits(reader, count, out),
        Mode::Alphanumeric => characters(reader, count, out),
        Mode::Byte => bytes(reader, count, out),
        Mode::Kanji => kanji(reader, count, out),
    }
}

fn digits(reader: &mut BitReader, count: usize, out: &mut Vec<u8>) -> Result<(), ParseFault>
    requires { payload_bits Mode.Numeric count ≤ length reader.old }
    ensures { IsReadOf result (digits_of count reader.old) (payload_bits Mode.Numeric count)
        out.old.items out.new.items reader.old reader.new }
{
    let mut left = count;
    while left >= 3 {
        let group = reader.take(10);
        if group >= THREE_DIGITS_LIMIT {
            return Err(ParseFault::BadValue);
        }
        out.extend_from_slice(&[digit(group / 100), digit(group / 10), digit(group)])?;
        left -= 3;
    }
    last_digits(reader, left, out)
}

// Reads the digits after the last group of three: two in seven bits, one in four bits, or none (ISO/IEC 18004:2015,
// 7.4.3).
#[tactic(auto, unfolding(crate::specs::Parsing::digits_of))]
fn last_digits(reader: &mut BitReader, left: usize, out: &mut Vec<u8>) -> Result<(), ParseFault>
    requires few { left < 3 }
    requires there { payload_bits Mode.Numeric left ≤ length reader.old }
    ensures { IsReadOf result (digits_of left reader.old) (payload_bits Mode.Numeric left)
        out.old.items out.new.items reader.old reader.new }
{
    match left {
        2 => {
            let group = reader.take(7);
            if group >= TWO_DIGITS_LIMIT {
                return Err(ParseFault::BadValue);
            }
            out.extend_from_slice(&[digit(group / 10), digit(group)])?;
        }
        1 => {
            let group = reader.take(4);
            if group >= ONE_DIGIT_LIMIT {
                return Err(ParseFault::BadValue);
            }
            out.push(digit(group))?;
        }
        _ => {}
    }
    Ok(())
}

// The last decimal digit of the number, in ASCII.
fn digit(number: u16) -> u8
    ensures { result ≡ 48 + number % 10 }
{
    b'0' + (number % 10) as u8
}

#[tactic(auto, unfolding(crate::specs::Parsing::characters_of), using(crate::proofs::Named::reading_groups))]
fn characters(reader: &mut BitReader, count: usize, out: &mut Vec<u8>) -> Result<(), ParseFault>
    requires { payload_bits Mode.Alphanumeric count ≤ length reader.old }
    ensures { IsReadOf result (characters_of count reader.old) (payload_bits Mode.Alphanumeric count)
        out.old.items out.new.items reader.old reader.new }
{
    let mut left = count;
    while left >= 2 {
        let pair = reader.take(11);
        if pair >= TWO_CHARACTERS_LIMIT {
            return Err(ParseFault::BadValue);
        }
        out.extend_from_slice(&[character(pair / 45), character(pair % 45)])?;
        left -= 2;
    }
    if left == 1 {
        let single = reader.take(6);
        if single >= ONE_CHARACTER_LIMIT {
            return Err(ParseFault::BadValue);
        }
        out.push(character(single))?;
    }
    Ok(())
}

#[tactic(auto, unfolding(crate::specs::Modes::characters, crate::specs::Parsing::character))]
fn character(value: u16) -> u8
    requires { value < 45 }
    ensures { result ≡ character value }
{
    CHARACTERS[usize::from(value)]
}

#[tactic(auto, unfolding(crate::specs::Parsing::bytes_of))]
fn bytes(reader: &mut BitReader, count: usize, out: &mut Vec<u8>) -> Result<(), ParseFault>
    requires { payload_bits Mode.Byte count ≤ length reader.old }
    ensures { IsReadOf result (Ok (bytes_of count reader.old)) (payload_bits Mode.Byte count)
        out.old.items out.new.items reader.old reader.new }
{
    Ok(reader.take_bytes(count, out)?)
}

#[tactic(auto, unfolding(crate::specs::Parsing::pairs_of), using(crate::proofs::Named::reading_groups))]
fn kanji(reader: &mut BitReader, count: usize, out: &mut Vec<u8>) -> Result<(), ParseFault>
    requires { 13 * count ≤ length reader.old }
    ensures { IsReadOf result (pairs_of count reader.old) (13 * count)
        out.old.items out.new.items reader.old reader.new }
{
    let mut left = count;
    while left > 0 {
        let value = reader.take(13);
        if value % KANJI_FACTOR > LOW_MAX {
            return Err(ParseFault::BadValue);
        }
        let pair = kanji_pair(value);
        out.extend_from_slice(&[(pair / 256) as u8, (pair % 256) as u8])?;
        left -= 1;
    }
    Ok(())
}

// The kanji pair that has this value, as a number whose high byte is the first byte of the pair (ISO/IEC 18004:2015,
// 7.4.6).
#[tactic(auto, unfolding(crate::specs::Parsing::kanji_pair))]
fn kanji_pair(value: u16) -> u16
    requires { value < 8192 }
    ensures { result ≡ kanji_pair value }
{
    let high = value / KANJI_FACTOR;
    let rest = 256 * high + value % KANJI_FACTOR;
    // In the first range of pairs, `rest` is at most 9FFC - 8140, which is 1EBC. In the second range it is at least
    // E040 - C140, which is 1F00 (all hexadecimal).
    if high <= 0x1E {
        rest + 0x8140
    } else {
        rest + 0xC140
    }
}
