//! Tests of versions, blocks, format and version information, and of what each module is for.

use crate::checks::{check, check_eq};
use qr_layout::{
    Blocks, Level, Module, Role, Version, alignment_centres, cell, fixed_rectangles, format_word,
};
use std::test::Fail;

#[test]
fn forty_versions(rt: HostRuntime) -> Result<(), Fail> {
    check_eq!(rt; Version::new(0), None, "no version 0");
    check_eq!(rt; Version::new(41), None, "no version 41");
    for (number, side, codewords, bits) in [(1, 21, 26, 0), (6, 41, 172, 7), (40, 177, 3706, 0)] {
        let version = Version::new(number).ok_or("no such version")?;
        check_eq!(rt; version.number(), number);
        check_eq!(rt; version.side(), side, "side of version {number}");
        check_eq!(rt;
            version.total_codewords(),
            codewords,
            "codewords of version {number}"
        );
        check_eq!(rt;
            version.remainder_bits(),
            bits,
            "remainder bits of version {number}"
        );
    }
    Ok(())
}

#[test]
fn data_codewords_of_the_standard(rt: HostRuntime) -> Result<(), Fail> {
    for (number, level, want, name) in [
        (1, Level::L, 19, "1-L"),
        (1, Level::M, 16, "1-M"),
        (1, Level::H, 9, "1-H"),
        (5, Level::Q, 62, "5-Q"),
        (40, Level::L, 2956, "40-L"),
        (40, Level::M, 2334, "40-M"),
        (40, Level::Q, 1666, "40-Q"),
        (40, Level::H, 1276, "40-H"),
    ] {
        let version = Version::new(number).ok_or("no such version")?;
        check_eq!(rt; version.data_codewords(level), want, "{name}");
    }
    Ok(())
}

#[test]
fn blocks_of_two_lengths(rt: HostRuntime) -> Result<(), Fail> {
    let blocks = Version::new(5).ok_or("no such version")?.blocks(Level::Q);
    let want = Blocks {
        short: 2,
        short_len: 15,
        long: 2,
        ec_len: 18,
    };
    check_eq!(rt; blocks, want, "5-Q");
    Ok(())
}

#[test]
fn sums_over_all_versions(rt: HostRuntime) {
    for (level, lens, counts, name) in [
        (Level::L, 1038, 387, "level L"),
        (Level::M, 1012, 756, "level M"),
        (Level::Q, 1065, 1050, "level Q"),
        (Level::H, 1093, 1242, "level H"),
    ] {
        let mut len_sum = 0u16;
        let mut count_sum = 0u16;
        for version in (1..=40).filter_map(Version::new) {
            let blocks = version.blocks(level);
            len_sum = len_sum.saturating_add(u16::from(blocks.ec_len));
            count_sum = count_sum.saturating_add(u16::from(blocks.short));
            count_sum = count_sum.saturating_add(u16::from(blocks.long));
        }
        check_eq!(rt;
            len_sum,
            lens,
            "error correction codewords of a block, {name}"
        );
        check_eq!(rt; count_sum, counts, "blocks, {name}");
    }
}

#[test]
fn format_words_of_the_standard(rt: HostRuntime) {
    for (word, want, name) in [
        (format_word(Level::L, 0), 0x77C4, "level L, mask 0"),
        (format_word(Level::M, 0), 0x5412, "level M, mask 0"),
        (format_word(Level::M, 5), 0x40CE, "level M, mask 5"),
        (format_word(Level::Q, 0), 0x355F, "level Q, mask 0"),
        (format_word(Level::H, 7), 0x083B, "level H, mask 7"),
    ] {
        check_eq!(rt; word, want, "{name}");
    }
}

#[test]
fn version_words_of_the_standard(rt: HostRuntime) -> Result<(), Fail> {
    for (number, want) in [
        (6, None),
        (7, Some(0x07C94)),
        (8, Some(0x085BC)),
        (9, Some(0x09A99)),
        (40, Some(0x28C69)),
    ] {
        let version = Version::new(number).ok_or("no such version")?;
        check_eq!(rt; version.version_word(), want, "version {number}");
    }
    Ok(())
}

#[test]
fn centres_of_the_standard(rt: HostRuntime) -> Result<(), Fail> {
    let centres = |number| Version::new(number).map(|version| version.centres());
    check_eq!(rt;
        centres(1).ok_or("version 1")?.as_slice(),
        [].as_slice(),
        "version 1"
    );
    check_eq!(rt;
        centres(2).ok_or("version 2")?.as_slice(),
        [6, 18].as_slice(),
        "version 2"
    );
    check_eq!(rt;
        centres(32).ok_or("version 32")?.as_slice(),
        [6, 34, 60, 86, 112, 138].as_slice(),
        "version 32"
    );
    check_eq!(rt;
        centres(40).ok_or("version 40")?.as_slice(),
        [6, 30, 58, 86, 114, 142, 170].as_slice(),
        "version 40"
    );
    Ok(())
}

#[test]
fn centres_without_the_corners(rt: HostRuntime) -> Result<(), Fail> {
    let version = Version::new(7).ok_or("version 7")?;
    let centres = [(6, 22), (22, 6), (22, 22), (22, 38), (38, 22), (38, 38)];
    let places = alignment_centres(version);
    check!(rt; places.len() == centres.len(), "six patterns");
    for (place, (row, col)) in places.iter().zip(centres) {
        check_eq!(rt; *place, Module { row, col });
    }
    Ok(())
}

#[test]
fn rectangles_of_versions_6_and_7(rt: HostRuntime) -> Result<(), Fail> {
    let sixth = fixed_rectangles(Version::new(6).ok_or("version 6")?);
    check!(rt; sixth.len() == 5, "no version information");
    let seventh = fixed_rectangles(Version::new(7).ok_or("version 7")?);
    check!(rt; seventh.len() == 7, "two copies of version information");
    let last = seventh[6];
    check!(rt; (last.top, last.bottom) == (34, 37) && (last.left, last.right) == (0, 6));
    Ok(())
}

fn role_in(number: u8, row: u8, col: u8) -> Option<Role> {
    let version = Version::new(number)?;
    let side = version.side();
    if row < side && col < side {
        Some(cell(version, row, col))
    } else {
        None
    }
}

#[test]
fn function_patterns(rt: HostRuntime) {
    for (number, row, col, dark, name) in [
        (1, 0, 0, true, "corner of a finder pattern"),
        (1, 1, 1, false, "light ring of a finder pattern"),
        (1, 2, 18, true, "heart of the right finder pattern"),
        (1, 15, 5, false, "light ring of the lower finder pattern"),
        (1, 7, 7, false, "corner of a separator"),
        (1, 13, 0, false, "separator above a finder pattern"),
        (1, 13, 8, true, "the module that is always dark"),
        (1, 6, 8, true, "timing pattern, even column"),
        (1, 6, 9, false, "timing pattern, odd column"),
        (1, 8, 6, true, "timing pattern, even row"),
        (7, 22, 22, true, "centre of an alignment pattern"),
        (7, 22, 23, false, "light ring of an alignment pattern"),
        (7, 24, 24, true, "corner of an alignment pattern"),
        (7, 4, 22, true, "outer ring above a timing pattern"),
        (7, 5, 22, false, "light ring above a timing pattern"),
        (7, 6, 22, true, "centre on a timing pattern"),
    ] {
        check_eq!(rt;
            role_in(number, row, col),
            Some(Role::Fixed(dark)),
            "{name}"
        );
    }
}

#[test]
fn format_bits(rt: HostRuntime) {
    for (row, col, bit, name) in [
        (0, 8, 0, "row 0"),
        (5, 8, 5, "row 5"),
        (7, 8, 6, "below the timing pattern"),
        (8, 8, 7, "the corner"),
        (8, 7, 8, "beside the corner"),
        (8, 5, 9, "left of the timing pattern"),
        (8, 0, 14, "column 0"),
        (8, 20, 0, "last column"),
        (8, 13, 7, "first column of the right separator"),
        (14, 8, 8, "below the dark module"),
        (20, 8, 14, "last row"),
    ] {
        check_eq!(rt; role_in(1, row, col), Some(Role::FormatBit(bit)), "{name}");
    }
}

#[test]
fn version_bits_and_codewords(rt: HostRuntime) {
    for (number, row, col, want, name) in [
        (7, 0, 34, Role::VersionBit(0), "bit 0"),
        (7, 0, 35, Role::VersionBit(1), "bit 1"),
        (7, 5, 36, Role::VersionBit(17), "bit 17"),
        (7, 34, 0, Role::VersionBit(0), "bit 0, second copy"),
        (7, 34, 1, Role::VersionBit(3), "bit 3, second copy"),
        (7, 36, 5, Role::VersionBit(17), "bit 17, second copy"),
        (7, 0, 33, Role::Region, "beside the version information"),
        (1, 20, 20, Role::Region, "bottom right module"),
        (1, 9, 5, Role::Region, "left of the timing pattern"),
    ] {
        check_eq!(rt; role_in(number, row, col), Some(want), "{name}");
    }
}
