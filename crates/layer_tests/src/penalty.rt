//! Tests of the penalty of small and large squares.

use crate::checks::{check, check_eq};
use qr_matrix::{Matrix, penalty};
use std::test::Fail;

#[derive(Clone, Copy)]
enum Pattern {
    Light,
    Dark,
    Chequered,
    // A window in the first row, which begins at this column. Its four light modules come last.
    WindowFrom(u8),
}

const WINDOW: [bool; 11] = [
    true, false, true, true, true, false, true, false, false, false, false,
];

fn is_dark(pattern: Pattern, row: u8, col: u8) -> bool {
    match pattern {
        Pattern::Light => false,
        Pattern::Dark => true,
        Pattern::Chequered => (u16::from(row) + u16::from(col)) % 2 == 0,
        Pattern::WindowFrom(first) => {
            row == 0 && col >= first && col - first < 11 && WINDOW[usize::from(col - first)]
        }
    }
}

#[test]
fn penalties(rt: HostRuntime) -> Result<(), Fail> {
    // A row takes one, two or three words of 64 bits. Some runs, and the modules in the ratio 1:1:3:1:1 of one window,
    // go from one word into the next.
    let rows = [
        ("all light", 21u8, Pattern::Light, 2098),
        ("a chequered square", 21, Pattern::Chequered, 0),
        ("a window in the first row", 11, Pattern::WindowFrom(0), 593),
        ("one light module", 1, Pattern::Light, 100),
        ("five by five dark modules", 5, Pattern::Dark, 178),
        ("a side of one word", 64, Pattern::Light, 19943),
        ("a side of a word and a bit", 65, Pattern::Light, 20578),
        ("the largest side", 177, Pattern::Light, 154978),
        (
            "a window over the border of two words",
            75,
            Pattern::WindowFrom(60),
            27510,
        ),
    ];
    for (name, side, pattern, points) in rows {
        check!(rt; side >= 1 && side <= 177, "{name}");
        let mut matrix = Matrix::new(rt.alloc(), side)?;
        for row in 0..side {
            for col in 0..side {
                check!(rt; row < matrix.side() && col < matrix.side());
                matrix.set(row, col, is_dark(pattern, row, col));
            }
        }
        check_eq!(rt; penalty(&matrix), points, "{name}");
    }
    Ok(())
}
