//! Tests of symbols that are made of codewords, and of the runs of a row.

use qr_layout::{Level, Version};
use qr_matrix::Matrix;
use qr_symbol::laws::slow_and_fast_symbols_are_one;
use qr_symbol::{build_masked, draw_symbol};
use std::process::Abort;
use std::test::Fail;

/// The codewords of the input `01234567` at version 1 and level M (1-M): 16 data codewords, and then 10 error
/// correction codewords.
pub static EIGHT_DIGITS: [u8; 26] = [
    0x10, 0x20, 0x0C, 0x56, 0x61, 0x80, 0xEC, 0x11, 0xEC, 0x11, 0xEC, 0x11, 0xEC, 0x11, 0xEC, 0x11,
    0xA5, 0x24, 0xD4, 0xC1, 0xED, 0x36, 0xC7, 0x87, 0x2C, 0x55,
];

// The rows of the symbol of `01234567` at version 1 and level M with mask 0, from the top down. A dark module is 1.
static ROWS: [u32; 21] = [
    0b111111100011101111111,
    0b100000101110001000001,
    0b101110100110001011101,
    0b101110100101101011101,
    0b101110101101101011101,
    0b100000100001001000001,
    0b111111101010101111111,
    0b000000000000000000000,
    0b101010100010100010010,
    0b110100001011010100010,
    0b000110111011011101110,
    0b110011010101110110010,
    0b001001110111011100001,
    0b000000001010001000010,
    0b111111100000100010001,
    0b100000100010001001011,
    0b101110101110101011101,
    0b101110100101010101110,
    0b101110101101011100101,
    0b100000100001110111000,
    0b111111101001011100101,
];

// Returns row and column of the first module that is not as in `ROWS`, if there is one.
fn first_difference(rt: &impl Abort, matrix: &Matrix) -> Option<(u8, u8)> {
    assert!(*rt; matrix.side() == 21);
    for row in 0..21u8 {
        for col in 0..21u8 {
            if matrix.dark(row, col) != (ROWS[usize::from(row)] >> (20 - col) & 1 == 1) {
                return Some((row, col));
            }
        }
    }
    None
}

#[test]
fn eight_digits_at_1_m(rt: HostRuntime) -> Result<(), Fail> {
    let version = Version::FIRST;
    assert!(rt; version.total_codewords() == 26);
    let symbol = build_masked(rt.alloc(), version, Level::M, &EIGHT_DIGITS, 0)?;
    assert!(rt; symbol.version == version && symbol.level == Level::M && symbol.mask == 0);
    assert_eq!(rt; first_difference(&rt, &symbol.matrix), None);
    let drawn = draw_symbol(rt.alloc(), version, Level::M, &EIGHT_DIGITS, 0)?;
    assert_eq!(rt; first_difference(&rt, &drawn), None, "drawn");
    // The first row begins with the dark run of a finder pattern and a light run, and ends with the dark run of another
    // finder pattern. For each of these three runs `run_end` returns the column after its last module.
    assert!(rt; drawn.side() == 21);
    for (col, end) in [(0, 7), (7, 10), (14, 21)] {
        assert_eq!(rt; drawn.run_end(0, col), end, "column {col}");
    }
    Ok(())
}

// Returns row and column of the first module in which two squares differ, if there is one.
fn first_that_differs(rt: &impl Abort, slow: &Matrix, fast: &Matrix) -> Option<(u8, u8)> {
    assert!(*rt; slow.side() == fast.side());
    for row in 0..slow.side() {
        for col in 0..slow.side() {
            if slow.dark(row, col) != fast.dark(row, col) {
                return Some((row, col));
            }
        }
    }
    None
}

// `build` and `build_masked` make the same symbols. Some of the tested versions have no remainder bits, and others have
// three, four or seven. Those from version 7 on have version information.
#[test]
fn slow_and_fast_symbols(rt: HostRuntime) -> Result<(), Fail> {
    for number in [1, 2, 7, 14, 21, 40] {
        let version = Version::new(number).ok_or("no such version")?;
        let mut codewords = Vec::new(rt.alloc());
        for place in 0..version.total_codewords() {
            codewords.push((place % 251) as u8)?;
        }
        assert!(rt; codewords.len() == usize::from(version.total_codewords()));
        let (slow, fast) = slow_and_fast_symbols_are_one(
            rt.alloc(),
            version,
            Level::Q,
            &codewords,
        )?;
        assert_eq!(rt; slow.matrix.side(), version.side());
        assert_eq!(rt;
            first_that_differs(&rt, &slow.matrix, &fast.matrix),
            None,
            "version {number}"
        );
    }
    Ok(())
}
