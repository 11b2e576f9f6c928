//! Tests of the order in which codewords fill the region.

use crate::checks::{check, check_eq};
use qr_layout::laws::{default_module, first_version, nth_place};
use qr_layout::{Module, Strip, Version, all_strips, region_len, walk, walk_after};
use std::test::Fail;

fn at((row, col): (u8, u8)) -> Module {
    Module { row, col }
}

#[test]
fn walk_of_version_1(rt: HostRuntime) -> Result<(), Fail> {
    let mut steps = walk(Version::FIRST);
    for begin in [(20, 20), (20, 19), (19, 20)] {
        check_eq!(rt; steps.next(), Some(at(begin)));
    }
    check_eq!(rt; steps.last(), Some(at((12, 0))));
    Ok(())
}

#[test]
fn walks_resumed(rt: HostRuntime) -> Result<(), Fail> {
    for (number, after, then, name) in [
        (
            1,
            (9, 19),
            [(9, 18), (9, 17)],
            "downward beside the format information",
        ),
        (
            2,
            (21, 19),
            [(15, 20), (15, 19)],
            "upward over an alignment pattern",
        ),
        (
            2,
            (21, 15),
            [(20, 15), (19, 15)],
            "half a strip beside an alignment pattern",
        ),
        (
            7,
            (7, 35),
            [(0, 33), (1, 33)],
            "half a strip beside the version information",
        ),
    ] {
        let version = Version::new(number).ok_or("no such version")?;
        let mut steps = walk_after(version, at(after)).ok_or("not in the region")?;
        for next in then {
            check_eq!(rt; steps.next(), Some(at(next)), "{name}");
        }
    }
    Ok(())
}

#[test]
fn walks_that_end_or_do_not_begin(rt: HostRuntime) -> Result<(), Fail> {
    let version = Version::FIRST;
    let mut end = walk_after(version, at((12, 0))).ok_or("not in the region")?;
    check_eq!(rt; end.next(), None, "after the last module");
    check!(rt;
        walk_after(version, at((6, 6))).is_none(),
        "a function module"
    );
    check!(rt;
        walk_after(version, at((21, 0))).is_none(),
        "outside the symbol"
    );
    Ok(())
}

#[test]
fn lengths_of_the_region(rt: HostRuntime) -> Result<(), Fail> {
    for (number, want) in [
        (1, 208),
        (2, 359),
        (6, 1383),
        (7, 1568),
        (14, 4651),
        (21, 9252),
        (28, 15371),
        (40, 29648),
    ] {
        let version = Version::new(number).ok_or("no such version")?;
        check_eq!(rt; region_len(version), want, "version {number}");
        let mut steps = 0u32;
        for _ in walk(version) {
            steps = steps.saturating_add(1);
        }
        check_eq!(rt; steps, want, "walk of version {number}");
    }
    Ok(())
}

// No strip contains column 6: after the last module of column 7, the walk goes on in column 5 of the same row.
#[test]
fn walk_over_column_6(rt: HostRuntime) -> Result<(), Fail> {
    let version = Version::FIRST;
    let mut steps = walk_after(version, Module { row: 9, col: 7 }).ok_or("not in the region")?;
    for (row, col) in [(9, 5), (9, 4), (10, 5)] {
        check_eq!(rt; steps.next(), Some(Module { row, col }));
    }
    Ok(())
}

#[test]
fn strips_of_version_1(rt: HostRuntime) -> Result<(), Fail> {
    let version = Version::FIRST;
    let rows = [
        (0usize, 20u8, true, "the first strip goes up"),
        (1, 18, false, "the second goes down"),
        (6, 8, true, "the last one to the right of the timing column"),
        (7, 5, false, "column 6 is in no strip"),
        (9, 1, false, "the last strip"),
    ];
    for (number, right, upward, name) in rows {
        let strip = Strip { right, upward };
        check_eq!(rt; all_strips(version).nth(number), Some(strip), "{name}");
    }
    check_eq!(rt; all_strips(version).nth(10), None, "ten strips");
    Ok(())
}

#[test]
fn first_values(rt: HostRuntime) {
    check_eq!(rt; first_version().number(), 1);
    check_eq!(rt; default_module(), Module { row: 0, col: 0 });
}

#[test]
fn places_by_their_numbers(rt: HostRuntime) -> Result<(), Fail> {
    let version = Version::FIRST;
    for (number, want) in [
        (0, Some(Module { row: 20, col: 20 })),
        (2, Some(Module { row: 19, col: 20 })),
        (207, Some(Module { row: 12, col: 0 })),
        (208, None),
    ] {
        check_eq!(rt; nth_place(version, number), want, "number {number}");
    }
    Ok(())
}
