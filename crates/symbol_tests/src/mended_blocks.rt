//! Tests of damaged blocks, which are mended.

use crate::symbols::EIGHT_DIGITS;
use qr_field::Divisor;
use qr_mending::{mend, mend_with_erasures};
use std::process::Abort;

// Mends the block of the input `01234567` at version 1 and level M. `damage` has the index of each misread codeword,
// counted from 0, and the value that was read. At most `t` codewords may be corrected. Returns how many were corrected,
// or `None` if the block cannot be mended.
fn mended_count(rt: &impl Abort, t: usize, damage: &[(usize, u8)]) -> Option<usize> {
    let mut damaged = EIGHT_DIGITS;
    for (place, codeword) in damage {
        assert!(rt; *place < 26);
        damaged[*place] = *codeword;
    }
    let divisor = Divisor::new(10);
    assert!(rt; t <= 5 && divisor.count() == 10);
    let before = damaged;
    match mend(&divisor, t, &mut damaged) {
        None => assert!(rt; damaged == before),
        Some(changed) => {
            assert!(rt; damaged == EIGHT_DIGITS);
            return Some(changed);
        }
    }
    None
}

// The results are those of an independent decoder, which uses the algorithm of Berlekamp and Massey.
#[test]
fn block_of_eight_digits_damaged(rt: HostRuntime) {
    let five = [(0, 0x41u8), (3, 0), (7, 0x22), (20, 1), (25, 0)];
    let six = [(0, 0x41u8), (3, 0), (7, 0x22), (11, 0xFF), (20, 1), (25, 0)];
    let rows = [
        ("as sent", 5, &five[..0], Some(0)),
        ("as sent, none allowed", 0, &five[..0], Some(0)),
        ("the first codeword", 5, &five[..1], Some(1)),
        ("the first, none allowed", 0, &five[..1], None),
        ("three data codewords", 3, &five[..3], Some(3)),
        ("five codewords", 5, &five[..], Some(5)),
        ("five, four allowed", 4, &five[..], None),
        ("six codewords", 5, &six[..], None),
    ];
    for (name, t, damage, mended) in rows {
        assert_eq!(rt; mended_count(&rt, t, damage), mended, "{name}");
    }
}

// Mends the block of the input `01234567` at version 1 and level M: the codewords in `unread` are marked as erased, and
// those in `misread` are misread. Returns how many codewords were misread, how many were erased, and how many of the
// erased ones had another value than they should have; or `None` if the block cannot be mended. The block can be mended if the number of erased codewords and twice the number of misread ones add up to at
// most `spare`.
fn mended_with_erasures(
    rt: &impl Abort,
    spare: usize,
    unread: &[(usize, u8)],
    misread: &[(usize, u8)],
) -> Option<(usize, usize, usize)> {
    let mut damaged = EIGHT_DIGITS;
    let mut erased = [false; 26];
    for (place, codeword) in unread {
        assert!(rt; *place < 26);
        damaged[*place] = *codeword;
        erased[*place] = true;
    }
    for (place, codeword) in misread {
        assert!(rt; *place < 26);
        damaged[*place] = *codeword;
    }
    let divisor = Divisor::new(10);
    assert!(rt; spare <= 10 && divisor.count() == 10);
    let before = damaged;
    match mend_with_erasures(&divisor, spare, &erased, &mut damaged) {
        None => assert!(rt; damaged == before),
        Some(changes) => {
            assert!(rt; damaged == EIGHT_DIGITS);
            return Some((changes.misread, changes.erased, changes.erased_wrong));
        }
    }
    None
}

// The results are those of another program. It tried each set of positions at which the errors could be, and solved the
// linear equations for the codewords at these positions.
#[test]
fn block_of_eight_digits_with_erasures(rt: HostRuntime) {
    let unread = [
        (0, 0u8),
        (1, 0),
        (2, 0),
        (3, 0),
        (5, 0),
        (8, 0),
        (13, 0),
        (16, 0),
        (21, 0),
        (25, 0),
        (7, 0),
    ];
    let right = [(0, 0x10u8), (12, 0xEC), (25, 0x55)];
    let misread = [(4, 0x41u8), (10, 0), (17, 0x22), (24, 0xFF)];
    let rows = [
        ("as sent", 10, &unread[..0], &misread[..0], Some((0, 0, 0))),
        (
            "three erased, yet right",
            10,
            &right[..],
            &misread[..0],
            Some((0, 3, 0)),
        ),
        (
            "ten erased",
            10,
            &unread[..10],
            &misread[..0],
            Some((0, 10, 10)),
        ),
        ("eleven erased", 10, &unread[..], &misread[..0], None),
        (
            "eight erased, eight to spare",
            8,
            &unread[..8],
            &misread[..0],
            Some((0, 8, 8)),
        ),
        (
            "nine erased, eight to spare",
            8,
            &unread[..9],
            &misread[..0],
            None,
        ),
        (
            "nine erased and one misread",
            10,
            &unread[..9],
            &misread[..1],
            None,
        ),
        (
            "four erased and three misread",
            10,
            &unread[..4],
            &misread[..3],
            Some((3, 4, 4)),
        ),
        (
            "four erased and four misread",
            10,
            &unread[..4],
            &misread[..],
            None,
        ),
        (
            "three erased and three misread",
            10,
            &unread[..3],
            &misread[..3],
            Some((3, 3, 3)),
        ),
        (
            "four and two, eight to spare",
            8,
            &unread[..4],
            &misread[..2],
            Some((2, 4, 4)),
        ),
        (
            "four and three, eight to spare",
            8,
            &unread[..4],
            &misread[..3],
            None,
        ),
        (
            "four misread",
            10,
            &unread[..0],
            &misread[..],
            Some((4, 0, 0)),
        ),
    ];
    for (name, spare, unread, misread, mended) in rows {
        assert_eq!(rt;
            mended_with_erasures(&rt, spare, unread, misread),
            mended,
            "{name}"
        );
    }
}
