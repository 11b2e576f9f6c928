//! Tests of the field of 256 elements, and of error correction codewords.

use crate::checks::check_eq;
use qr_field::{Divisor, div, doubled, exponent_of, generator, mul, power_of, remainder};

#[test]
fn products(rt: HostRuntime) {
    let rows = [
        ("the first product that is reduced", 0x80u8, 2u8, 0x1Du8),
        ("two elements that are each other's inverse", 0x8E, 2, 1),
        ("nothing times all bits", 0, 0xFF, 0),
    ];
    for (name, a, b, product) in rows {
        check_eq!(rt; mul(a, b), product, "{name}");
    }
}

#[test]
fn doubled_elements(rt: HostRuntime) {
    let rows = [
        ("in the lowest byte", 1u128, 2u128),
        ("in the highest byte", 0x80 << 120, 0x1D << 120),
        ("side by side", 0x8E80_FF00_0180, 0x011D_E300_021D),
    ];
    for (name, elements, twice) in rows {
        check_eq!(rt; doubled(elements), twice, "{name}");
    }
}

#[test]
fn quotients(rt: HostRuntime) {
    let rows = [
        ("one by 2", 1u8, 2u8, 0x8Eu8),
        ("a product by its factor", 0x1D, 2, 0x80),
        ("nothing by all bits", 0, 0xFF, 0),
    ];
    for (name, a, b, quotient) in rows {
        check_eq!(rt; div(a, b), quotient, "{name}");
    }
}

#[test]
fn first_powers(rt: HostRuntime) {
    let first = [
        0x01u8, 0x02, 0x04, 0x08, 0x10, 0x20, 0x40, 0x80, 0x1D, 0x3A, 0x74, 0xE8, 0xCD, 0x87, 0x13,
        0x26,
    ];
    for exponent in 0u8..16 {
        check_eq!(rt;
            power_of(exponent),
            first[usize::from(exponent)],
            "exponent {exponent}"
        );
    }
    check_eq!(rt; power_of(254), 0x8E, "the inverse of 2");
}

#[test]
fn exponents(rt: HostRuntime) {
    let rows = [
        ("1", 1u8, 0u8),
        ("2", 2, 1),
        ("the last power that is not reduced", 0x80, 7),
        ("the first power that is reduced", 0x1D, 8),
        ("the inverse of 2", 0x8E, 254),
    ];
    for (name, element, exponent) in rows {
        check_eq!(rt; exponent_of(element), exponent, "{name}");
    }
}

#[test]
fn generators(rt: HostRuntime) {
    check_eq!(rt; generator(1).as_slice(), &[0x01u8][..], "one codeword");
    check_eq!(rt;
        generator(2).as_slice(),
        &[0x03u8, 0x02][..],
        "two codewords"
    );
    let seven = [0x7Fu8, 0x7A, 0x9A, 0xA4, 0x0B, 0x44, 0x75];
    check_eq!(rt; generator(7).as_slice(), &seven[..], "seven codewords");
}

#[test]
fn corrections(rt: HostRuntime) {
    let rows = [
        (
            "eight digits at 1-M",
            [
                0x10u8, 0x20, 0x0C, 0x56, 0x61, 0x80, 0xEC, 0x11, 0xEC, 0x11, 0xEC, 0x11, 0xEC,
                0x11, 0xEC, 0x11,
            ],
            [0xA5u8, 0x24, 0xD4, 0xC1, 0xED, 0x36, 0xC7, 0x87, 0x2C, 0x55],
        ),
        (
            "two words of capital letters at 1-M",
            [
                0x20, 0x5B, 0x0B, 0x78, 0xD1, 0x72, 0xDC, 0x4D, 0x43, 0x40, 0xEC, 0x11, 0xEC, 0x11,
                0xEC, 0x11,
            ],
            [0xC4, 0x23, 0x27, 0x77, 0xEB, 0xD7, 0xE7, 0xE2, 0x5D, 0x17],
        ),
    ];
    for (name, data, correction) in &rows {
        check_eq!(rt; remainder(data, 10).as_slice(), &correction[..], "{name}");
    }
}

#[test]
fn two_blocks(rt: HostRuntime) {
    let divisor = Divisor::new(30);
    let rows = [
        (
            "four bytes",
            [0x10u8, 0x20, 0x0C, 0x56],
            [
                0xBBu8, 0xC5, 0xDB, 0x5D, 0x3B, 0x93, 0xF8, 0x2B, 0xF3, 0x0B, 0x09, 0x91, 0xBE,
                0x56, 0x8A, 0x46, 0xB4, 0x3A, 0xD4, 0xDB, 0x59, 0x55, 0x1B, 0x24, 0x06, 0x69, 0x37,
                0xB7, 0x9B, 0x6B,
            ],
        ),
        (
            "four bytes of all bits",
            [0xFF, 0xFF, 0xFF, 0xFF],
            [
                0xA1, 0x2E, 0x39, 0xEC, 0xDF, 0xAF, 0x2F, 0x49, 0xF9, 0x32, 0x25, 0xBC, 0x46, 0xDF,
                0x1E, 0xE7, 0x48, 0x19, 0x0A, 0xF0, 0x17, 0x7A, 0x99, 0xD3, 0x8F, 0x1E, 0xFC, 0xD1,
                0xE5, 0xAB,
            ],
        ),
    ];
    for (name, data, correction) in &rows {
        check_eq!(rt;
            divisor.correction(data).as_slice(),
            &correction[..],
            "{name}"
        );
    }
}
