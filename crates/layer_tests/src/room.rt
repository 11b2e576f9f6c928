//! Tests of how many characters fit a symbol.

use crate::checks::check_eq;
use qr_bits::{Interpretation, Mode, most_characters};
use qr_layout::{Level, Version};
use std::test::Fail;

// Each row has a version, a level, and how many digits, characters of alphanumeric mode, bytes and kanji fit (Table 7).
#[test]
fn rows_of_table_7(rt: HostRuntime) -> Result<(), Fail> {
    let rows = [
        ("1-L", 1u8, Level::L, 41u32, 25u32, 17u32, 10u32),
        ("1-H", 1, Level::H, 17, 10, 7, 4),
        ("9-M", 9, Level::M, 432, 262, 180, 111),
        ("10-M", 10, Level::M, 513, 311, 213, 131),
        ("26-Q", 26, Level::Q, 1804, 1094, 751, 462),
        ("27-Q", 27, Level::Q, 1933, 1172, 805, 496),
        ("40-L", 40, Level::L, 7089, 4296, 2953, 1817),
        ("40-M", 40, Level::M, 5596, 3391, 2331, 1435),
        ("40-Q", 40, Level::Q, 3993, 2420, 1663, 1024),
        ("40-H", 40, Level::H, 3057, 1852, 1273, 784),
    ];
    for (name, number, level, digits, characters, bytes, kanji) in rows {
        let version = Version::new(number).ok_or(name)?;
        let modes = [
            (Mode::Numeric, digits),
            (Mode::Alphanumeric, characters),
            (Mode::Byte, bytes),
            (Mode::Kanji, kanji),
        ];
        for (mode, wanted) in modes {
            let most = most_characters(version, level, mode, Interpretation::Default, false);
            check_eq!(rt; most, wanted, "{name}, {mode:?}");
        }
    }
    Ok(())
}
