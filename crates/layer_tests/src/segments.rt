//! Tests of segments: their bits, the best for an input, the longest prefix that fits, and folding.

ghost use Rattle.std.specs.Prelude.{◌≡◌, ◌<◌, ◌≤◌, length};
ghost use Rattle.std.specs.List.{All, sum_by};
ghost use Rattle.qr_bits.specs.declared.modes.TheConstants.{INPUT_MAX};

use crate::checks::{check, check_eq};
use qr_bits::{
    INPUT_MAX, Interpretation, Mode, Rule, Segment, bit_len, covers, fold, least_bits, longest_fit,
    segments,
};
use qr_layout::{Level, Version};
use std::test::Fail;

fn segment(mode: Mode, len: usize) -> Segment
    ensures { result ≡ record { mode = mode; len = len } }
{
    Segment { mode, len }
}

fn bits(version: u8, segs: &[Segment]) -> Result<u64, Fail>
    requires nonempty { All (λ s. 0 < s.len) segs.now }
    requires short { sum_by (λ s. s.len) segs.now ≤ INPUT_MAX }
{
    Ok(bit_len(segs, Version::new(version).ok_or("version")?))
}

#[test]
fn bits_of_segments(rt: HostRuntime) -> Result<(), Fail> {
    let digits = segment(Mode::Numeric, 41);
    check_eq!(rt; bits(1, &[digits])?, 151, "41 digits");
    let digits = segment(Mode::Numeric, 42);
    check_eq!(rt; bits(1, &[digits])?, 154, "42 digits");
    let digits = segment(Mode::Numeric, 7089);
    check_eq!(rt; bits(40, &[digits])?, 23_648, "7,089 digits at version 40");
    let two = [segment(Mode::Byte, 2), segment(Mode::Numeric, 3)];
    check_eq!(rt; bits(1, &two)?, 52, "two letters and three digits");
    check_eq!(rt; bits(10, &two)?, 62, "the same at version 10");
    check_eq!(rt; bits(1, &[segment(Mode::Byte, 5)])?, 52, "five bytes");
    check_eq!(rt;
        bits(10, &[segment(Mode::Byte, 5)])?,
        60,
        "five bytes at version 10"
    );
    Ok(())
}

#[test]
fn bits_of_kanji_pairs(rt: HostRuntime) -> Result<(), Fail> {
    let pairs = [segment(Mode::Kanji, 4)];
    check_eq!(rt; bits(1, &pairs)?, 38, "two kanji pairs");
    let mixed = [segment(Mode::Byte, 1), segment(Mode::Kanji, 10)];
    check_eq!(rt; bits(1, &mixed)?, 97, "a byte and five kanji pairs");
    let mixed = [segment(Mode::Byte, 1), segment(Mode::Kanji, 8)];
    check_eq!(rt; bits(1, &mixed)?, 84, "a byte and four kanji pairs");
    check_eq!(rt;
        bits(1, &[segment(Mode::Byte, 9)])?,
        84,
        "nine bytes, as many bits as a byte and four kanji pairs"
    );
    let pairs = [segment(Mode::Kanji, 14)];
    check_eq!(rt; bits(1, &pairs)?, 103, "seven kanji pairs");
    let half = [segment(Mode::Kanji, 12), segment(Mode::Byte, 1)];
    check_eq!(rt; bits(1, &half)?, 110, "six kanji pairs and half a pair");
    Ok(())
}

#[test]
fn bits_of_digits_and_letters(rt: HostRuntime) -> Result<(), Fail> {
    let mixed = [segment(Mode::Numeric, 8), segment(Mode::Alphanumeric, 1)];
    check_eq!(rt; bits(1, &mixed)?, 60, "eight digits and a letter");
    check_eq!(rt; bits(10, &mixed)?, 64, "the same at version 10");
    let whole = [segment(Mode::Alphanumeric, 9)];
    check_eq!(rt; bits(27, &whole)?, 67, "nine characters at version 27");
    Ok(())
}

#[test]
fn segments_that_cover(rt: HostRuntime) {
    let digit = segment(Mode::Numeric, 1);
    let letter = segment(Mode::Alphanumeric, 1);
    check!(rt; covers(b"", &[]), "nothing by nothing");
    check!(rt; covers(b"1A", &[digit, letter]), "a digit and a letter");
    check!(rt; !covers(b"1A", &[letter]), "a byte too few");
    check!(rt; !covers(b"1", &[digit, digit]), "a byte too many");
    check!(rt; !covers(b"A", &[digit]), "a letter as a digit");
    check!(rt; !covers(b"a", &[letter]), "a small letter");
    let pair = segment(Mode::Kanji, 2);
    check!(rt; covers(b"\x93\x5F", &[pair]), "a kanji pair");
    check!(rt; !covers(b"\x93\x3F", &[pair]), "a second byte of 3F");
    check!(rt;
        !covers(b"\x93\x5F\x93", &[segment(Mode::Kanji, 3)]),
        "half a pair"
    );
    check!(rt;
        !covers(b"1", &[segment(Mode::Byte, 0), digit]),
        "an empty segment"
    );
}

fn are_segments(
    rt: &HostRuntime,
    input: &[u8],
    version: u8,
    rule: Rule,
    wanted: &[(Mode, usize)],
) -> Result<bool, Fail>
    requires { length input.now ≤ INPUT_MAX }
{
    let version = Version::new(version).ok_or("version")?;
    let found = segments(rt.alloc(), input, version, rule, Interpretation::Default)?.segments;
    if found.len() != wanted.len() {
        return Ok(false);
    }
    for (segment, (mode, len)) in found.iter().zip(wanted) {
        if segment.mode != *mode || segment.len != *len {
            return Ok(false);
        }
    }
    Ok(true)
}

#[test]
fn least_segments(rt: HostRuntime) -> Result<(), Fail> {
    let mixed = [(Mode::Byte, 2), (Mode::Numeric, 3)];
    check!(rt;
        are_segments(&rt, b"ab012", 1, Rule::Auto, &mixed)?,
        "the first of equals"
    );
    let whole = [(Mode::Byte, 5)];
    check!(rt;
        are_segments(&rt, b"ab012", 10, Rule::Auto, &whole)?,
        "a longer head"
    );
    check!(rt;
        are_segments(&rt, b"ab012", 1, Rule::BytesOnly, &whole)?,
        "bytes only"
    );
    let mixed = [(Mode::Numeric, 8), (Mode::Alphanumeric, 1)];
    check!(rt;
        are_segments(&rt, b"12345678A", 1, Rule::Auto, &mixed)?,
        "digits, a letter"
    );
    check!(rt;
        are_segments(&rt, b"12345678A", 10, Rule::Auto, &mixed)?,
        "at version 10"
    );
    let whole = [(Mode::Alphanumeric, 9)];
    check!(rt;
        are_segments(&rt, b"12345678A", 27, Rule::Auto, &whole)?,
        "at version 27"
    );
    let whole = [(Mode::Alphanumeric, 11)];
    check!(rt;
        are_segments(&rt, b"HELLO WORLD", 1, Rule::Auto, &whole)?,
        "eleven characters"
    );
    check!(rt; are_segments(&rt, b"", 1, Rule::Auto, &[])?, "no byte");
    Ok(())
}

#[test]
fn longest_input(rt: HostRuntime) -> Result<(), Fail> {
    let whole = [(Mode::Numeric, INPUT_MAX)];
    check!(rt;
        are_segments(&rt, &[b'7'; INPUT_MAX], 40, Rule::Auto, &whole)?,
        "all digits"
    );
    Ok(())
}

#[test]
fn kanji(rt: HostRuntime) -> Result<(), Fail> {
    let whole = [(Mode::Kanji, 4)];
    let rule = Rule::WithKanji;
    check!(rt;
        are_segments(&rt, b"\x93\x5F\xE4\xAA", 1, rule, &whole)?,
        "two pairs"
    );
    let whole = [(Mode::Byte, 9)];
    check!(rt;
        are_segments(&rt, b"a\x93\x5F\x93\x5F\x93\x5F\x93\x5F", 1, rule, &whole)?,
        "the first of equals"
    );
    let mixed = [(Mode::Byte, 1), (Mode::Kanji, 10)];
    check!(rt;
        are_segments(
            &rt,
            b"a\x93\x5F\x93\x5F\x93\x5F\x93\x5F\x93\x5F",
            1,
            rule,
            &mixed
        )?,
        "five pairs"
    );
    let pairs = b"\x93\x5F\x93\x5F\x93\x5F\x93\x5F\x93\x5F\x93\x5F\x93\x5F";
    let whole = [(Mode::Kanji, 14)];
    check!(rt; are_segments(&rt, pairs, 1, rule, &whole)?, "seven pairs");
    let half = [(Mode::Kanji, 12), (Mode::Byte, 1)];
    check!(rt;
        are_segments(&rt, &pairs[..13], 1, rule, &half)?,
        "six pairs and half a pair"
    );
    Ok(())
}

// The numbers were worked out by hand. Three digits take at least 10 bits, two other bytes up to `Z` at least 11 bits,
// and two bytes greater than `Z` at least 13 bits. Each digit adds a third of its 10 bits, and each other byte half of
// its 11 or 13 bits. The sum is rounded down.
#[test]
fn least_bits_of_inputs(rt: HostRuntime) -> Result<(), Fail> {
    let rows = [
        ("no byte", &b""[..], 0),
        ("three digits", b"012", 10),
        ("two capitals", b"AZ", 11),
        ("two small letters", b"az", 13),
        ("one of each", b"1A[", 15),
    ];
    for (name, input, bits) in rows {
        check!(rt; input.len() <= INPUT_MAX);
        check_eq!(rt; least_bits(input), bits, "{name}");
    }
    Ok(())
}

fn fit(rt: &HostRuntime, input: &[u8], rule: Rule) -> Result<usize, Fail>
    requires { length input.now ≤ INPUT_MAX }
{
    let version = Version::FIRST;
    Ok(longest_fit(
        rt.alloc(),
        input,
        version,
        Level::H,
        rule,
        Interpretation::Default,
    )?)
}

#[test]
fn prefixes_at_1_h(rt: HostRuntime) -> Result<(), Fail> {
    check_eq!(rt; fit(&rt, b"abcdefgh", Rule::BytesOnly)?, 5, "eight letters");
    check_eq!(rt; fit(&rt, b"012345678901", Rule::Auto)?, 11, "twelve digits");
    check_eq!(rt; fit(&rt, b"", Rule::Auto)?, 0, "no byte");
    check_eq!(rt;
        fit(&rt, &[b'7'; INPUT_MAX], Rule::Auto)?,
        11,
        "the longest input"
    );
    Ok(())
}

// At version 1 and level M a structured append header leaves 108 bits. Seven kanji pairs take 103 bits, but six pairs
// and one more byte take 110.
#[test]
fn pairs_at_1_m(rt: HostRuntime) -> Result<(), Fail> {
    let pairs = b"\x93\x5F\x93\x5F\x93\x5F\x93\x5F\x93\x5F\x93\x5F\x93\x5F\x93\x5F";
    let (version, rule) = (Version::FIRST, Rule::WithKanji);
    check_eq!(rt;
        version.data_codewords(Level::M),
        16,
        "128 bits with a header's 20"
    );
    check_eq!(rt;
        longest_fit(
            rt.alloc(),
            pairs,
            version,
            Level::M,
            rule,
            Interpretation::Default
        )?,
        14,
        "seven pairs"
    );
    Ok(())
}

#[test]
fn three_bytes(rt: HostRuntime) -> Result<(), Fail> {
    let rows = [
        ("around a pair", Rule::WithKanji, b"\x93\x61\x41"),
        ("without kanji mode", Rule::Auto, b"\x93\x41\x41"),
        ("in byte mode", Rule::BytesOnly, b"\x93\x61\x61"),
    ];
    for (name, rule, wanted) in rows {
        let folded = fold(rt.alloc(), b"\x93\x61\x61", rule)?;
        check_eq!(rt; folded.as_slice(), wanted.as_slice(), "{name}");
    }
    Ok(())
}
