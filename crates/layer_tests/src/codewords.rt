//! Tests of data codewords: they are made from segments, and parsed.

ghost use Rattle.std.specs.Prelude.{◌<◌, ◌≤◌, length};
ghost use Rattle.std.specs.Option.{ForSome};
ghost use Rattle.qr_bits.specs.declared.modes.TheConstants.{INPUT_MAX};

use crate::checks::{check, check_eq};
use qr_bits::{
    BitFault, EciChange, Fnc1, Header, INPUT_MAX, Interpretation, Item, Mode, ParseFault, Segment,
    Segmented, codewords, covers, parity, parse,
};
use qr_layout::{Level, Version};
use std::borrow::CowSlice;
use std::test::Fail;

#[test]
fn parity_of_eight_letters(rt: HostRuntime) {
    check_eq!(rt; parity(b"ABCDEFGH"), 0x08);
    check_eq!(rt; parity(b""), 0);
}

// Returns the data codewords of version 1 and this level for an input that is one segment of this mode.
fn encode(
    rt: &HostRuntime,
    input: &[u8],
    mode: Mode,
    header: Option<Header>,
    level: Level,
) -> Result<Vec<u8>, Fail>
    requires short { length input.now ≤ INPUT_MAX }
    requires in_range { ForSome header (λ h. (h.position < 16) × (h.last < 16)) }
{
    let segment = Segment {
        mode,
        len: input.len(),
    };
    if !covers(input, &[segment]) {
        return Err("the segment is not the input".into());
    }
    let segmented = Segmented {
        segments: Vec::from_array(rt.alloc(), [segment])?,
        characters: CowSlice::Borrowed(input),
    };
    Ok(codewords(
        rt.alloc(),
        &segmented,
        header,
        Interpretation::Default,
        Version::FIRST,
        level,
    )?)
}

#[test]
fn data_codewords(rt: HostRuntime) -> Result<(), Fail> {
    let data = encode(&rt, b"01234567", Mode::Numeric, None, Level::M)?;
    let wanted = [
        0x10, 0x20, 0x0C, 0x56, 0x61, 0x80, 0xEC, 0x11, 0xEC, 0x11, 0xEC, 0x11, 0xEC, 0x11, 0xEC,
        0x11,
    ];
    check_eq!(rt; data.as_slice(), wanted.as_slice(), "eight digits at 1-M");
    let data = encode(&rt, b"HELLO WORLD", Mode::Alphanumeric, None, Level::M)?;
    let wanted = [
        0x20, 0x5B, 0x0B, 0x78, 0xD1, 0x72, 0xDC, 0x4D, 0x43, 0x40, 0xEC, 0x11, 0xEC, 0x11, 0xEC,
        0x11,
    ];
    check_eq!(rt;
        data.as_slice(),
        wanted.as_slice(),
        "eleven characters at 1-M"
    );
    Ok(())
}

#[test]
fn data_codewords_of_bytes_and_pairs(rt: HostRuntime) -> Result<(), Fail> {
    let data = encode(&rt, b"A", Mode::Byte, None, Level::L)?;
    let wanted = [
        0x40, 0x14, 0x10, 0xEC, 0x11, 0xEC, 0x11, 0xEC, 0x11, 0xEC, 0x11, 0xEC, 0x11, 0xEC, 0x11,
        0xEC, 0x11, 0xEC, 0x11,
    ];
    check_eq!(rt; data.as_slice(), wanted.as_slice(), "a byte at 1-L");
    let data = encode(&rt, b"\x93\x5F\xE4\xAA", Mode::Kanji, None, Level::L)?;
    let wanted = [
        0x80, 0x26, 0xCF, 0xEA, 0xA8, 0x00, 0xEC, 0x11, 0xEC, 0x11, 0xEC, 0x11, 0xEC, 0x11, 0xEC,
        0x11, 0xEC, 0x11, 0xEC,
    ];
    check_eq!(rt;
        data.as_slice(),
        wanted.as_slice(),
        "two kanji pairs at 1-L"
    );
    Ok(())
}

#[test]
fn series(rt: HostRuntime) -> Result<(), Fail> {
    let first = Header {
        position: 0,
        last: 1,
        parity: 0x08,
    };
    let data = encode(&rt, b"ABCDE", Mode::Byte, Some(first), Level::H)?;
    let wanted = [0x30, 0x10, 0x84, 0x05, 0x41, 0x42, 0x43, 0x44, 0x45];
    check_eq!(rt;
        data.as_slice(),
        wanted.as_slice(),
        "no room for a terminator"
    );
    let second = Header {
        position: 1,
        last: 1,
        parity: 0x08,
    };
    let data = encode(&rt, b"FGH", Mode::Byte, Some(second), Level::H)?;
    let wanted = [0x31, 0x10, 0x84, 0x03, 0x46, 0x47, 0x48, 0x00, 0xEC];
    check_eq!(rt;
        data.as_slice(),
        wanted.as_slice(),
        "a terminator and a pad"
    );
    let only = Header {
        position: 0,
        last: 0,
        parity: 0x41,
    };
    let data = encode(&rt, b"A", Mode::Byte, Some(only), Level::L)?;
    let wanted = [
        0x30, 0x04, 0x14, 0x01, 0x41, 0x00, 0xEC, 0x11, 0xEC, 0x11, 0xEC, 0x11, 0xEC, 0x11, 0xEC,
        0x11, 0xEC, 0x11, 0xEC,
    ];
    check_eq!(rt; data.as_slice(), wanted.as_slice(), "a series of one");
    Ok(())
}

#[test]
fn digits_that_fit(rt: HostRuntime) -> Result<(), Fail> {
    let data = encode(&rt, &[b'7'; 41], Mode::Numeric, None, Level::L)?;
    check!(rt; data.len() == 19);
    check_eq!(rt;
        data[18],
        0b1001101_0,
        "77 in seven bits, and one bit of terminator"
    );
    let parsed = parse(rt.alloc(), &data, Version::FIRST)?;
    check_eq!(rt; parsed.bytes.len(), 41, "41 digits");
    Ok(())
}

#[test]
fn digits_that_do_not_fit(rt: HostRuntime) -> Result<(), Fail> {
    let more = Segment {
        mode: Mode::Numeric,
        len: 42,
    };
    let digits = [b'7'; 42];
    check!(rt; covers(&digits, &[more]));
    let segmented = Segmented {
        segments: Vec::from_array(rt.alloc(), [more])?,
        characters: CowSlice::Borrowed(&digits),
    };
    let data = codewords(
        rt.alloc(),
        &segmented,
        None,
        Interpretation::Default,
        Version::FIRST,
        Level::L,
    );
    check_eq!(rt; data.err(), Some(BitFault::TooLong), "42 digits");
    Ok(())
}

fn says(
    rt: &HostRuntime,
    codewords: &[u8],
    header: Option<Header>,
    segment: Option<Segment>,
    bytes: &[u8],
) -> Result<bool, Fail>
    requires { length codewords.now ≤ 3706 }
{
    let version = Version::FIRST;
    let parsed = parse(rt.alloc(), codewords, version)?;
    Ok(
        parsed.header == header
            && parsed.items.len() == usize::from(segment.is_some())
            && parsed.items.first().copied() == segment.map(Item::Data)
            && parsed.bytes.as_slice() == bytes,
    )
}

fn fault(rt: &HostRuntime, codewords: &[u8]) -> Result<Option<ParseFault>, Fail>
    requires { length codewords.now ≤ 3706 }
{
    let version = Version::FIRST;
    Ok(parse(rt.alloc(), codewords, version).err())
}

fn segment(mode: Mode, len: usize) -> Option<Segment> {
    Some(Segment { mode, len })
}

#[test]
fn contents(rt: HostRuntime) -> Result<(), Fail> {
    check!(rt; says(&rt, &[], None, None, b"")?, "no codeword");
    let five = segment(Mode::Byte, 5);
    let bytes = [0x40, 0x56, 0x16, 0x23, 0x03, 0x13, 0x20];
    check!(rt; says(&rt, &bytes, None, five, b"ab012")?, "digits as bytes");
    let none = segment(Mode::Numeric, 0);
    check!(rt;
        says(&rt, &[0x10, 0x00, 0x00], None, none, b"")?,
        "an empty segment"
    );
    let two = segment(Mode::Alphanumeric, 2);
    check!(rt;
        says(&rt, &[0x20, 0x17, 0xE8], None, two, b"::")?,
        "the last pair"
    );
    let pair = segment(Mode::Kanji, 2);
    check!(rt;
        says(&rt, &[0x80, 0x10, 0x5E, 0x00], None, pair, b"\x81\xFC")?,
        "the last low byte of a pair"
    );
    let header = Some(Header {
        position: 1,
        last: 1,
        parity: 0x08,
    });
    let three = segment(Mode::Byte, 3);
    let symbol = [0x31, 0x10, 0x84, 0x03, 0x46, 0x47, 0x48, 0x00, 0xEC];
    check!(rt;
        says(&rt, &symbol, header, three, b"FGH")?,
        "a symbol of a series"
    );
    Ok(())
}

// Says whether the data codewords mean these bytes and ECI headers. Each header comes with the number of bytes before
// it. A symbol of version 40 has 3,706 codewords in all, and no symbol has more.
fn means(
    rt: &HostRuntime,
    codewords: &[u8],
    bytes: &[u8],
    ecis: &[(u32, usize)],
) -> Result<bool, Fail>
    requires { length codewords.now ≤ 3706 }
{
    let parsed = parse(rt.alloc(), codewords, Version::FIRST)?;
    let found = parsed.ecis.iter().map(|it| (it.number, it.begin));
    Ok(parsed.bytes.as_slice() == bytes && found.eq(ecis.iter().copied()))
}

// The codewords of the Greek letters are an example of the standard. The others were worked out by hand from the tables
// of the standard: `fields` has FNC1 in first position, a separator of fields, and ECI 26, and `application` has FNC1
// in second position.
#[test]
fn interpretations(rt: HostRuntime) -> Result<(), Fail> {
    let greek = [0x70, 0x94, 0x05, 0xA1, 0xA2, 0xA3, 0xA4, 0xA5, 0x00];
    check!(rt;
        means(&rt, &greek, b"\xA1\xA2\xA3\xA4\xA5", &[(9, 0)])?,
        "ECI 9 before five bytes"
    );
    let fields = [
        0x52, 0x03, 0x1E, 0x84, 0x2B, 0xAE, 0x9C, 0x69, 0x00, 0x89, 0x49, 0x40,
    ];
    check!(rt;
        means(&rt, &fields, b"A\x1DB%C%%", &[(26, 5)])?,
        "fields after FNC1, and two % in byte mode under ECI 26"
    );
    let application = [0x92, 0x52, 0x02, 0x1C, 0xC0, 0x5E, 0x00];
    check!(rt;
        means(&rt, &application, b"AA12", &[])?,
        "FNC1 in second position"
    );
    let parsed = parse(rt.alloc(), &application, Version::FIRST)?;
    check_eq!(rt; parsed.items.first().copied(), Some(Item::Fnc1Second(37)));
    let change = EciChange {
        number: 26,
        begin: 5,
    };
    let parsed = parse(rt.alloc(), &fields, Version::FIRST)?;
    check_eq!(rt; parsed.ecis.first().copied(), Some(change));
    let own = parsed.segments(rt.alloc())?;
    let characters = Segment {
        mode: Mode::Alphanumeric,
        len: 6,
    };
    let bytes = Segment {
        mode: Mode::Byte,
        len: 2,
    };
    check_eq!(rt; own.len(), 2, "FNC1 and the ECI header are no segments");
    check_eq!(rt; own.first().copied(), Some(characters), "A%B%%C");
    check_eq!(rt; own.get(1).copied(), Some(bytes), "%% under ECI 26");
    Ok(())
}

#[test]
fn faults(rt: HostRuntime) -> Result<(), Fail> {
    let bad_value = Some(ParseFault::BadValue);
    check_eq!(rt;
        fault(&rt, &[0x10, 0x0F, 0xE8])?,
        bad_value,
        "a group of 1000"
    );
    check_eq!(rt;
        fault(&rt, &[0x10, 0x0B, 0x20])?,
        bad_value,
        "two digits of 100"
    );
    check_eq!(rt;
        fault(&rt, &[0x20, 0x17, 0xE9])?,
        bad_value,
        "a pair of 2025"
    );
    check_eq!(rt;
        fault(&rt, &[0x20, 0x0D, 0xA0])?,
        bad_value,
        "a single of 45"
    );
    check_eq!(rt;
        fault(&rt, &[0x80, 0x10, 0x5E, 0x80])?,
        bad_value,
        "a low byte of BD"
    );
    check_eq!(rt;
        fault(&rt, &[0x40, 0x20, 0x41])?,
        Some(ParseFault::Cut),
        "a byte missing"
    );
    check_eq!(rt;
        fault(&rt, &[0x30])?,
        Some(ParseFault::Cut),
        "half a header"
    );
    let bad_mode = Some(ParseFault::BadMode);
    check_eq!(rt; fault(&rt, &[0x60])?, bad_mode, "an indicator of no mode");
    check_eq!(rt;
        fault(&rt, &[0x30, 0x10, 0x83])?,
        bad_mode,
        "a second header"
    );
    Ok(())
}

// All 65,536 pairs of codewords are parsed, and counted by their fault. Two codewords are too short for the data of a
// segment, so `BadValue` can only be the fault of an ECI designator or of an application indicator.
#[test]
fn all_pairs_of_codewords(rt: HostRuntime) -> Result<(), Fail> {
    let (mut read, mut cut, mut no_mode, mut bad_value) = (0u32, 0u32, 0u32, 0u32);
    for first in 0..=255u8 {
        for second in 0..=255u8 {
            match fault(&rt, &[first, second])? {
                None => read = read.saturating_add(1),
                Some(ParseFault::Cut) => cut = cut.saturating_add(1),
                Some(ParseFault::BadMode) => no_mode = no_mode.saturating_add(1),
                Some(ParseFault::BadValue) => bad_value = bad_value.saturating_add(1),
                Some(other) => return Err(other.into()),
            }
        }
    }
    check_eq!(rt; (read, cut, no_mode, bad_value), (4904, 24628, 33796, 2208));
    Ok(())
}

// Worked out by hand from the tables of the standard. The first codewords have ECI 3, FNC1 in first position, and `A`
// in byte mode. The others have FNC1 in second position, and `A%B` in alphanumeric mode.
#[test]
fn fnc1_in_other_places(rt: HostRuntime) -> Result<(), Fail> {
    let marked = [0x70, 0x35, 0x40, 0x14, 0x10];
    check!(rt; means(&rt, &marked, b"A", &[(3, 0)])?, "FNC1 after ECI 3");
    let parsed = parse(rt.alloc(), &marked, Version::FIRST)?;
    check_eq!(rt; parsed.fnc1(), Some(Fnc1::First));
    let fields = [0x92, 0x52, 0x01, 0x9E, 0x82, 0xC0];
    check!(rt; means(&rt, &fields, b"A\x1DB", &[])?, "a separator");
    let parsed = parse(rt.alloc(), &fields, Version::FIRST)?;
    check_eq!(rt; parsed.fnc1(), Some(Fnc1::Second(37)));
    Ok(())
}
