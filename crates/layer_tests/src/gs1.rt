//! Tests of GS1 data and ECIs: their segments and characters, and the longest prefix that fits.

ghost use Rattle.std.specs.Prelude.{◌≤◌, length};
ghost use Rattle.qr_bits.specs.declared.modes.TheConstants.{INPUT_MAX};

use crate::checks::{check, check_eq};
use qr_bits::{
    INPUT_MAX, Interpretation, Mode, Rule, Segment, longest_fit, may_allow_kanji, may_write,
    segments,
};
use qr_layout::{Level, Version};
use std::test::Fail;

#[test]
fn fields(rt: HostRuntime) {
    let gs1 = Interpretation::Gs1;
    check!(rt; may_write(b"", gs1), "no byte");
    check!(rt; may_write(b"10AB\x1D21%%\x1D", gs1), "two fields");
    check!(rt; may_write(b"%\x1D1", gs1), "a percent sign before it");
    check!(rt; !may_write(b"1\x1D\x1D2", gs1), "two separators");
    check!(rt; !may_write(b"1\x1D%", gs1), "a percent sign after it");
    check!(rt; may_write(b"\x1D\x1D%", Interpretation::Default), "no GS1");
    check!(rt; may_write(b"\x1D\x1D%", Interpretation::Eci(26)), "an ECI");
}

#[test]
fn kanji_mode(rt: HostRuntime) {
    check!(rt; may_allow_kanji(Interpretation::Default), "no interpretation");
    check!(rt; may_allow_kanji(Interpretation::Gs1), "GS1 data");
    check!(rt; may_allow_kanji(Interpretation::Eci(20)), "Shift JIS");
    check!(rt; !may_allow_kanji(Interpretation::Eci(26)), "UTF-8");
}

// Says whether the input, taken as GS1 data, has these segments at version 1, with these characters in them.
fn is_cut(
    rt: &HostRuntime,
    input: &[u8],
    rule: Rule,
    wanted: &[Segment],
    characters: &[u8],
) -> Result<bool, Fail>
    requires { length input.now ≤ INPUT_MAX }
{
    if !may_write(input, Interpretation::Gs1) {
        return Ok(false);
    }
    let found = segments(rt.alloc(), input, Version::FIRST, rule, Interpretation::Gs1)?;
    Ok(found.segments.as_slice() == wanted && found.characters.as_slice() == characters)
}

const fn segment(mode: Mode, len: usize) -> Segment {
    Segment { mode, len }
}

#[test]
fn gs1_segments(rt: HostRuntime) -> Result<(), Fail> {
    let auto = Rule::Auto;
    let one = [segment(Mode::Alphanumeric, 4)];
    check!(rt;
        is_cut(&rt, b"A%B", auto, &one, b"A%%B")?,
        "35 bits, and 36 as bytes"
    );
    let one = [segment(Mode::Byte, 2)];
    check!(rt;
        is_cut(&rt, b"%%", auto, &one, b"%%")?,
        "28 bits, and 35 as characters"
    );
    let one = [segment(Mode::Alphanumeric, 3)];
    check!(rt; is_cut(&rt, b"A\x1DB", auto, &one, b"A%B")?, "a separator");
    let one = [segment(Mode::Byte, 4)];
    check!(rt;
        is_cut(&rt, b"a%\x1Db", auto, &one, b"a%\x1Db")?,
        "small letters"
    );
    let bytes = Rule::BytesOnly;
    check!(rt;
        is_cut(&rt, b"A%\x1DB", bytes, &one, b"A%\x1DB")?,
        "bytes only"
    );
    let two = [segment(Mode::Numeric, 18), segment(Mode::Alphanumeric, 11)];
    check!(rt;
        is_cut(
            &rt,
            b"010401234567890110ABC123\x1D2198",
            auto,
            &two,
            b"010401234567890110ABC123%2198"
        )?,
        "148 bits"
    );
    let digits = [segment(Mode::Numeric, 4)];
    check!(rt; is_cut(&rt, b"0104", auto, &digits, b"0104")?, "digits");
    check!(rt; is_cut(&rt, b"", auto, &[], b"")?, "no byte");
    Ok(())
}

fn fit(rt: &HostRuntime, input: &[u8], interpretation: Interpretation) -> Result<usize, Fail>
    requires { length input.now ≤ INPUT_MAX }
{
    if !may_write(input, interpretation) {
        return Ok(INPUT_MAX);
    }
    Ok(longest_fit(
        rt.alloc(),
        input,
        Version::FIRST,
        Level::H,
        Rule::Auto,
        interpretation,
    )?)
}

// At version 1 and level H a structured append header leaves 52 bits for the segments. Of these 52 bits, FNC1 takes 4
// and leaves 48, the header of ECI 26 takes 12 and leaves 40, and the header of ECI 999,999 takes 28 and leaves 24.
#[test]
fn prefixes_at_1_h(rt: HostRuntime) -> Result<(), Fail> {
    check_eq!(rt;
        fit(&rt, b"A%A%A%A%", Interpretation::Default)?,
        7,
        "51 bits"
    );
    check_eq!(rt;
        fit(&rt, b"A%A%A%A%", Interpretation::Gs1)?,
        4,
        "44 bits as bytes"
    );
    check_eq!(rt;
        fit(&rt, b"AA%AA\x1DAA", Interpretation::Gs1)?,
        5,
        "46 bits"
    );
    check_eq!(rt;
        fit(&rt, b"AAAAAAAA", Interpretation::Eci(26))?,
        4,
        "35 bits"
    );
    check_eq!(rt;
        fit(&rt, b"AAAAAAAA", Interpretation::Eci(999_999))?,
        2,
        "24 bits"
    );
    Ok(())
}
