//! How a symbol says what its bytes mean: by ECI headers, and by FNC1 in first or second position (ISO/IEC 18004:2015,
//! 7.4.2, 7.4.8). ECI headers, FNC1 and segments are the items of a symbol.
//!
//! Segments contain characters, and these stand for the bytes of the symbol. The characters are the bytes themselves,
//! with one exception: in alphanumeric mode after FNC1, `%%` stands for `%`, and any other `%` for the byte 1D
//! (hexadecimal), which separates fields.

ghost use Rattle.std.specs.Prelude.{IfOk, IsTrue, ◌↔◌, List, OnOk, false, true, if◌then◌else◌, [], ◌∷◌, take, drop, length, ◌==◌, ◌≡◌, ◌≤◌, ◌++◌};
ghost use Rattle.qr_bits.specs.declared.interpretation.Item.{Item};
ghost use Rattle.qr_bits.specs.Steps.RunState.{is_gs1};
ghost use Rattle.qr_bits.specs.Steps.Segmentation.{is_itself};
ghost use Rattle.qr_bits.specs.Interpretation.{are_fields, eci_changes, fnc1_of, interpretation_bits, MayAllowKanji, MayWrite, meant, meant_bytes, percent, segments_among, separated, separator};

use crate::modes::Mode;
use crate::segmentation::Segment;
use std::alloc::{AllocError, Global};

/// How the bytes of a symbol are to be interpreted.
#[derive(Clone, Copy, Debug)]
pub enum Interpretation {
    /// The symbol does not say how its bytes are to be interpreted.
    Default,
    /// All bytes have the ECI (extended channel interpretation) of this number, which is from 0 to 999,999. The number
    /// of UTF-8 is 26 (ISO/IEC 18004:2015, 7.4.2).
    Eci(u32),
    /// The bytes are GS1 data, in which the byte 1D (hexadecimal) separates fields (ISO/IEC 18004:2015, 7.4.8.2).
    Gs1,
}

/// Returns the number of bits of the ECI header or FNC1 by which a symbol states this interpretation. It is 0 for
/// `Default`, for which a symbol has neither (ISO/IEC 18004:2015, 7.4.2, 7.4.8.2).
pub fn interpretation_bits(interpretation: Interpretation) -> u64
    ensures value { result ≡ interpretation_bits interpretation }
    ensures most { result ≤ 28 }
{
    match interpretation {
        Interpretation::Default => 0,
        Interpretation::Eci(number) => {
            if number < 128 {
                12
            } else if number < 16384 {
                20
            } else {
                28
            }
        }
        Interpretation::Gs1 => 4,
    }
}

pub(crate) fn is_gs1(interpretation: Interpretation) -> bool
    ensures { result ≡ is_gs1 interpretation }
{
    matches!(interpretation, Interpretation::Gs1)
}

/// Returns whether `input` can be written with this interpretation (ISO/IEC 18004:2015, 7.4.8.2). GS1 data cannot be
/// written if a byte 1D (hexadecimal), which separates fields, comes directly before another such byte or before `%`.
/// All other data can be written.
pub fn may_write(input: &[u8], interpretation: Interpretation) -> bool
    ensures { IsTrue result ↔ MayWrite interpretation input.now }
{
    match interpretation {
        Interpretation::Default | Interpretation::Eci(_) => true,
        Interpretation::Gs1 => are_fields(input),
    }
}

// The number of the ECI of Shift JIS.
const SHIFT_JIS: u32 = 20;

/// Returns whether kanji mode may be allowed with this interpretation: not with an ECI other than 20, which is Shift JIS.
/// Readers take each kanji pair for Shift JIS.
pub fn may_allow_kanji(interpretation: Interpretation) -> bool
    ensures { IsTrue result ↔ MayAllowKanji interpretation }
{
    match interpretation {
        Interpretation::Eci(number) => number == SHIFT_JIS,
        Interpretation::Default | Interpretation::Gs1 => true,
    }
}

// Whether no separator comes directly before another separator or before `%`. Alphanumeric mode cannot write two such
// bytes in one segment: it would write `%%` or `%%%`, of which the first two characters are read as the byte `%`.
#[tactic(auto, unfolding(crate::specs::Interpretation::are_fields))]
fn are_fields(bytes: &[u8]) -> bool
    ensures { result ≡ are_fields bytes.now }
{
    match bytes {
        [] => true,
        [_, seconds @ ..] => may_all_precede(bytes, seconds),
    }
}

// Whether no separator in `firsts` comes directly before another separator or before `%`. `seconds` has the bytes of
// `firsts` without the first one. The loop has no early exit, so that the compiled code takes many bytes at once. The
// function is not inlined: if the compiler knew that `seconds` is a part of `firsts`, it would make code that takes the
// last bytes one by one.
#[inline(never)]
fn may_all_precede(firsts: &[u8], seconds: &[u8]) -> bool
    requires { seconds.now ≡ drop 1 firsts.now }
    ensures { result ≡ are_fields firsts.now }
{
    let mut fields = true;
    for i in 0..seconds.len() {
        fields = fields & may_precede(firsts[i], seconds[i]);
    }
    fields
}

#[inline(always)]
fn may_precede(first: u8, second: u8) -> bool
    ensures { result ≡ (if first == separator then (if second == separator then false else (if second == percent then false else true)) else true) }
{
    (first != SEPARATOR) | ((second != SEPARATOR) & (second != b'%'))
}

/// The number of an ECI, as an ECI header contains it (ISO/IEC 18004:2015, 7.4.2).
#[derive(Clone, Copy, Debug, PartialEq, Eq)]
pub struct Designator {
    /// From 0 to 999,999.
    pub number: u32,
    /// In how many codewords the ECI's number is written: 1, 2 or 3. In a symbol that is read, the number may be
    /// written in more codewords than it needs.
    pub codewords: u8,
}

/// What data codewords contain after the structured append header, if there is one: segments, ECI headers, and FNC1.
#[derive(Clone, Copy, Debug, PartialEq, Eq)]
pub enum Item {
    Data(Segment),
    /// An ECI header: the bytes from here to the next ECI header have this ECI.
    Eci(Designator),
    /// FNC1 in first position: the bytes are GS1 data.
    Fnc1First,
    /// FNC1 in second position: the bytes are data of the application with this indicator.
    Fnc1Second(u8),
}

/// FNC1, whose position says what the bytes of a symbol are (ISO/IEC 18004:2015, 7.4.8).
#[derive(Clone, Copy, Debug, PartialEq, Eq)]
pub enum Fnc1 {
    /// In first position: GS1 data.
    First,
    /// In second position: data of the application with this indicator, which is 0 to 99, or the ASCII code of a letter
    /// plus 100.
    Second(u8),
}

/// An ECI, and where it begins among the bytes of a symbol. It ends where the next one begins (ISO/IEC 18004:2015,
/// 7.4.2.2).
#[derive(Clone, Copy, Debug, PartialEq, Eq)]
pub struct EciChange {
    /// The number of the ECI, from 0 to 999,999; that of UTF-8 is 26.
    pub number: u32,
    /// How many bytes of the symbol come before the first byte that has this ECI.
    pub begin: usize,
}

// The byte that separates fields (ISO/IEC 18004:2015, 7.4.8.2).
pub(crate) const SEPARATOR: u8 = 0x1D;

// Whether every mode writes this byte of GS1 data as itself, because it is neither `%` nor the separator (ISO/IEC
// 18004:2015, 7.4.8.2).
#[inline(always)]
pub(crate) fn is_itself(byte: u8) -> bool
    ensures { result ≡ is_itself byte }
{
    (byte != b'%') & (byte != SEPARATOR)
}

// Appends the bytes that the characters of a segment in alphanumeric mode stand for after FNC1 (ISO/IEC 18004:2015,
// 7.4.8.2).
#[tactic(auto, unfolding(crate::specs::Interpretation::separated))]
pub(crate) fn separate(characters: &[u8], out: &mut Vec<u8>) -> Result<(), AllocError>
    ensures { OnOk result (out.new.items ≡ out.old.items ++ separated characters.now) }
{
    let mut rest = characters;
    while let [first, second, after @ ..] = rest {
        if *first == b'%' && *second == b'%' {
            out.push(b'%')?;
            rest = after;
        } else {
            out.push(if *first == b'%' { SEPARATOR } else { *first })?;
            rest = &rest[1..];
        }
    }
    if let [last] = rest {
        out.push(if *last == b'%' { SEPARATOR } else { *last })?;
    }
    Ok(())
}

// Appends the bytes that the characters of a segment stand for. `fnc1` says whether FNC1 came before the segment.
fn append_meant(
    fnc1: bool,
    mode: Mode,
    characters: &[u8],
    out: &mut Vec<u8>,
) -> Result<(), AllocError>
    ensures { OnOk result (out.new.items ≡ out.old.items ++ meant fnc1 mode characters.now) }
{
    if fnc1 && mode == Mode::Alphanumeric {
        separate(characters, out)
    } else {
        out.extend_from_slice(characters)
    }
}

// Cuts the characters in two. The first part has `len` characters, or all characters if there are fewer, and the second
// part has the others.
fn cut(characters: &[u8], len: usize) -> (&[u8], &[u8])
    ensures front { result.0.now ≡ take len characters.now }
    ensures back { result.1.now ≡ drop len characters.now }
{
    characters.split_at(len.min(characters.len()))
}

// Whether all items are segments, and the segments take all the characters. If so, the bytes that the items stand for
// are the characters themselves.
fn is_plain(items: &[Item], characters: &[u8]) -> bool
    ensures bytes { result ≡ true → meant_bytes false items.now characters.now ≡ characters.now }
    ensures ecis { result ≡ true → eci_changes false 0 items.now characters.now ≡ [] }
{
    let mut rest = characters;
    for item in items {
        let Item::Data(segment) = *item else {
            return false;
        };
        rest = cut(rest, segment.len).1;
    }
    rest.is_empty()
}

// The bytes that items stand for, and the ECI headers among the items.
#[derive(Drop)]
pub(crate) struct Meaning {
    pub bytes: Vec<u8>,
    pub ecis: Vec<EciChange>,
}

// Appends to `meaning` what the item stands for. A segment takes its characters from the beginning of `characters`.
// `fnc1` says whether FNC1 is among the earlier items. Returns whether `item` or an earlier item is FNC1, and the
// characters that are left. Each clause of the contract says that two lists are equal, whatever items (`is`) come
// later. The first list has what `meaning` has before the call, followed by what `item` and the later items stand for.
// The second list has what `meaning` has after the call, followed by what the later items alone stand for.
#[tactic(auto, unfolding(crate::specs::Interpretation::meant_bytes, crate::specs::Interpretation::eci_changes))]
fn take_item<'a>(
    item: Item,
    fnc1: bool,
    characters: &'a [u8],
    meaning: &mut Meaning,
) -> Result<(bool, &'a [u8]), AllocError>
    ensures bytes { IfOk result (λ r. (is : List Item) → meaning.old.bytes.items ++ meant_bytes fnc1 (item ∷ is) characters.now
        ≡ meaning.new.bytes.items ++ meant_bytes r.0 is r.1.now) }
    ensures ecis { IfOk result (λ r. (is : List Item)
        → meaning.old.ecis.items ++ eci_changes fnc1 (length meaning.old.bytes.items) (item ∷ is) characters.now
        ≡ meaning.new.ecis.items ++ eci_changes r.0 (length meaning.new.bytes.items) is r.1.now) }
{
    match item {
        Item::Data(segment) => {
            let (own, rest) = cut(characters, segment.len);
            append_meant(fnc1, segment.mode, own, &mut meaning.bytes)?;
            Ok((fnc1, rest))
        }
        Item::Eci(designator) => {
            let begin = meaning.bytes.len();
            meaning.ecis.push(EciChange {
                number: designator.number,
                begin,
            })?;
            Ok((fnc1, characters))
        }
        Item::Fnc1First | Item::Fnc1Second(_) => Ok((true, characters)),
    }
}

fn meaning_of(alloc: Global, items: &[Item], characters: &[u8]) -> Result<Meaning, AllocError>
    ensures bytes { IfOk result (λ m. m.bytes.items ≡ meant_bytes false items.now characters.now) }
    ensures ecis { IfOk result (λ m. m.ecis.items ≡ eci_changes false 0 items.now characters.now) }
{
    let mut meaning = Meaning {
        bytes: Vec::new(alloc),
        ecis: Vec::new(alloc),
    };
    let mut rest = characters;
    let mut fnc1 = false;
    for item in items {
        (fnc1, rest) = take_item(*item, fnc1, rest, &mut meaning)?;
    }
    Ok(meaning)
}

// Returns what the items stand for. `characters` are the characters of all segments. If all items are segments, the
// bytes are these characters themselves, and no copy is made.
pub(crate) fn interpreted(
    alloc: Global,
    items: &[Item],
    characters: Vec<u8>,
) -> Result<Meaning, AllocError>
    ensures bytes { IfOk result (λ m. m.bytes.items ≡ meant_bytes false items.now characters.items) }
    ensures ecis { IfOk result (λ m. m.ecis.items ≡ eci_changes false 0 items.now characters.items) }
{
    if is_plain(items, &characters) {
        return Ok(Meaning {
            bytes: characters,
            ecis: Vec::new(alloc),
        });
    }
    meaning_of(alloc, items, &characters)
}

// Appends an item to the list of segments, if it is one.
#[tactic(auto, unfolding(crate::specs::Interpretation::segments_among))]
fn push_segment(item: Item, segments: &mut Vec<Segment>) -> Result<(), AllocError>
    ensures { OnOk result (segments.new.items ≡ segments.old.items ++ segments_among (item ∷ [])) }
{
    if let Item::Data(segment) = item {
        segments.push(segment)?;
    }
    Ok(())
}

// Returns the segments among the items.
pub(crate) fn segments_among(alloc: Global, items: &[Item]) -> Result<Vec<Segment>, AllocError>
    ensures { IfOk result (λ s. s.items ≡ segments_among items.now) }
{
    let mut segments = Vec::new(alloc);
    for item in items {
        push_segment(*item, &mut segments)?;
    }
    Ok(segments)
}

// Returns FNC1 if it is among the items. Only ECI headers can come before it, so the search ends at the first segment.
#[tactic(auto, unfolding(crate::specs::Interpretation::fnc1_of), using(crate::proofs::lemmas::interpretation::fnc1_next, crate::proofs::lemmas::interpretation::fnc1_end))]
pub(crate) fn fnc1_of(items: &[Item]) -> Option<Fnc1>
    ensures { result ≡ fnc1_of items.now }
{
    for item in items {
        match *item {
            Item::Eci(_) => {}
            Item::Data(_) => return None,
            Item::Fnc1First => return Some(Fnc1::First),
            Item::Fnc1Second(application) => return Some(Fnc1::Second(application)),
        }
    }
    None
}
