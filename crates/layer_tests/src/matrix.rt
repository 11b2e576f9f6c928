//! Tests of `Matrix`: modules that are read and set, runs, transposed squares, and differences.

use crate::checks::{check, check_eq};
use qr_matrix::{BitRow, Matrix, differences, matrices_of_bytes, matrix_of_bytes, write_square};
use std::test::Fail;

#[test]
fn one_place_is_set(rt: HostRuntime) -> Result<(), Fail> {
    let mut matrix = Matrix::new(rt.alloc(), 3)?;
    check_eq!(rt; matrix.side(), 3);
    matrix.set(1, 2, true);
    for row in 0..3 {
        for col in 0..3 {
            let is_set = row == 1 && col == 2;
            check_eq!(rt; matrix.dark(row, col), is_set, "row {row}, column {col}");
        }
    }
    Ok(())
}

#[test]
fn a_rectangle_is_filled(rt: HostRuntime) -> Result<(), Fail> {
    let mut matrix = Matrix::new(rt.alloc(), 70)?;
    matrix.fill(2..5, 62..67, true);
    matrix.fill(3..4, 63..65, false);
    for row in 0..70u8 {
        for col in 0..70u8 {
            let is_round = row >= 2 && row < 5 && col >= 62 && col < 67;
            let is_dark = is_round && !(row == 3 && (col == 63 || col == 64));
            check_eq!(rt; matrix.dark(row, col), is_dark, "row {row}, column {col}");
        }
    }
    Ok(())
}

#[test]
fn eight_modules_are_eight_bits(rt: HostRuntime) -> Result<(), Fail> {
    let mut matrix = Matrix::new(rt.alloc(), 72)?;
    matrix.set(1, 64, true);
    matrix.set(1, 66, true);
    matrix.set(1, 67, true);
    check_eq!(rt; matrix.eight(1, 64), 0b1101);
    check_eq!(rt; matrix.eight(1, 56), 0);
    Ok(())
}

#[test]
fn a_row_is_masked_within(rt: HostRuntime) -> Result<(), Fail> {
    let mut plain = Matrix::new(rt.alloc(), 70)?;
    plain.fill(4..5, 60..70, true);
    let mut within = Matrix::new(rt.alloc(), 70)?;
    within.fill(4..5, 0..66, true);
    let masked = plain.bit_row(4) ^ within.bit_row(4) & BitRow::repeated(0b000011);
    for col in 0..70u8 {
        let is_dark = match col {
            0..60 => col % 6 < 2,
            60 | 61 => false,
            _ => true,
        };
        check_eq!(rt; masked.at(col), is_dark, "column {col}");
    }
    Ok(())
}

// A row takes one word of 64 bits in a square with a side of 21, and three in one with a side of 177.
#[test]
fn a_square_is_transposed(rt: HostRuntime) -> Result<(), Fail> {
    let places = [
        (0u8, 1u8),
        (5, 20),
        (20, 3),
        (1, 64),
        (63, 65),
        (64, 63),
        (70, 176),
        (130, 127),
        (176, 0),
    ];
    for side in [21u8, 177] {
        let mut plain = Matrix::new(rt.alloc(), side)?;
        for (row, col) in places {
            if row < plain.side() && col < plain.side() {
                plain.set(row, col, true);
            }
        }
        let mut matrix = Matrix::new(rt.alloc(), side)?;
        matrix.fill(0..side, 0..side, true);
        check!(rt; plain.side() == matrix.side());
        matrix.set_transposed(&plain);
        for row in 0..side {
            for col in 0..side {
                let is_dark = places.contains(&(col, row));
                check_eq!(rt;
                    matrix.dark(row, col),
                    is_dark,
                    "row {row}, column {col} of {side}"
                );
            }
        }
    }
    Ok(())
}

#[test]
fn a_light_row_is_one_run(rt: HostRuntime) -> Result<(), Fail> {
    let matrix = Matrix::new(rt.alloc(), 177)?;
    check_eq!(rt; matrix.run_end(0, 60), 177);
    Ok(())
}

#[test]
fn bits_are_set(rt: HostRuntime) -> Result<(), Fail> {
    let mut row = Matrix::new(rt.alloc(), 1)?.bit_row(0);
    row.set_bits(60, 0b1110);
    row.set_bits(64, 0b1011);
    for index in 0..192u8 {
        let is_set = matches!(index, 61 | 62 | 63 | 64 | 65 | 67);
        check_eq!(rt; row.at(index), is_set, "bit {index}");
    }
    check_eq!(rt; row.bits_from(61), 0b111, "the bits of one word");
    check_eq!(rt; row.bits_from(64), 0b1011, "the bits of the next word");
    check_eq!(rt; row.ones_from(61), 3, "up to the end of the word");
    check_eq!(rt; row.ones_down_from(65), 2, "down to the end of the word");
    check_eq!(rt; (!row).ones_from(0), 61, "bits that are not set");
    Ok(())
}

#[test]
fn runs_over_the_border_of_words(rt: HostRuntime) -> Result<(), Fail> {
    let mut matrix = Matrix::new(rt.alloc(), 132)?;
    matrix.fill(3..4, 0..2, true);
    matrix.fill(3..4, 60..66, true);
    matrix.fill(3..4, 67..128, true);
    matrix.set(3, 131, true);
    let mut runs = matrix.dark_runs(3);
    for (start, end) in [(0, 2), (60, 66), (67, 128), (131, 132)] {
        let run = runs.next().ok_or("a run")?;
        check_eq!(rt; (run.start, run.end), (start, end));
    }
    check!(rt; runs.next().is_none());
    check!(rt; matrix.dark_runs(4).next().is_none(), "a light row");
    Ok(())
}

// Returns a square in which only these modules are dark. It has a side of 177, so a row takes three words of 64 bits.
fn square_of(rt: &HostRuntime, places: &[(u8, u8)]) -> Result<Matrix, Fail> {
    let mut matrix = Matrix::new(rt.alloc(), 177)?;
    for (row, col) in places {
        if *row >= matrix.side() || *col >= matrix.side() {
            return Err("no such module".into());
        }
        matrix.set(*row, *col, true);
    }
    Ok(matrix)
}

#[test]
fn differences_are_counted(rt: HostRuntime) -> Result<(), Fail> {
    let rows = [
        ("no dark module", &[][..], &[][..], 0),
        ("one in the first", &[(0u8, 0u8)][..], &[][..], 1),
        ("one in the second", &[][..], &[(176u8, 176u8)][..], 1),
        ("the same in both", &[(5, 64)][..], &[(5, 64)][..], 0),
        (
            "two rows, all words",
            &[(3, 0), (3, 70), (3, 140), (9, 63)][..],
            &[(3, 70), (9, 64)][..],
            4,
        ),
    ];
    for (name, first, second, wanted) in rows {
        let (a, b) = (square_of(&rt, first)?, square_of(&rt, second)?);
        check!(rt; a.side() == b.side());
        check_eq!(rt; differences(&a, &b), wanted, "{name}");
    }
    Ok(())
}

// The least side, 16 and the sides next to it, 128, and the sides of four versions. One of these is 65, one module more
// than a word of 64 bits holds.
static SIDES: [u8; 9] = [1, 15, 16, 17, 21, 33, 65, 128, 177];

// Returns the byte of the module with the index `place`. Neighbouring modules are in turn dark (any number from 3 on),
// light (0) and not known (2).
fn byte_at(place: usize) -> u8 {
    match place % 3 {
        0 => (place % 251) as u8 + 3,
        1 => 0,
        _ => 2,
    }
}

// Returns the bytes of a square with this side, and seven more.
fn bytes_of(rt: &HostRuntime, side: u8) -> Result<Vec<u8>, Fail> {
    let area = usize::from(side) * usize::from(side);
    let mut bytes = vec![in rt.alloc(); 0u8; area + 7]?;
    for place in 0..area {
        bytes[place] = byte_at(place);
    }
    Ok(bytes)
}

#[test]
fn squares_are_read_from_bytes(rt: HostRuntime) -> Result<(), Fail> {
    for side in SIDES {
        let bytes = bytes_of(&rt, side)?;
        check!(rt; usize::from(side) * usize::from(side) <= bytes.len());
        let matrix = matrix_of_bytes(rt.alloc(), &bytes, side)?;
        for row in 0..side {
            for col in 0..side {
                let place = usize::from(row) * usize::from(side) + usize::from(col);
                check_eq!(rt;
                    matrix.dark(row, col),
                    place % 3 != 1,
                    "side {side}, row {row}, column {col}"
                );
            }
        }
    }
    Ok(())
}

#[test]
fn unknown_modules_are_read_from_bytes(rt: HostRuntime) -> Result<(), Fail> {
    for side in SIDES {
        let bytes = bytes_of(&rt, side)?;
        check!(rt; usize::from(side) * usize::from(side) <= bytes.len());
        let (dark, unknown) = matrices_of_bytes(rt.alloc(), &bytes, side)?;
        for row in 0..side {
            for col in 0..side {
                let place = usize::from(row) * usize::from(side) + usize::from(col);
                check_eq!(rt;
                    (dark.dark(row, col), unknown.dark(row, col)),
                    (place % 3 != 1, place % 3 == 2),
                    "side {side}, row {row}, column {col}"
                );
            }
        }
    }
    Ok(())
}

#[test]
fn squares_are_written_as_bytes(rt: HostRuntime) -> Result<(), Fail> {
    for side in SIDES {
        let area = usize::from(side) * usize::from(side);
        let bytes = bytes_of(&rt, side)?;
        check!(rt; area <= bytes.len());
        let matrix = matrix_of_bytes(rt.alloc(), &bytes, side)?;
        let mut written = vec![in rt.alloc(); 9u8; area + 7]?;
        write_square(&matrix, 3, &mut written);
        for place in 0..area + 7 {
            let wanted = if place < 3 || place >= area + 3 {
                9
            } else {
                u8::from((place - 3) % 3 != 1)
            };
            check_eq!(rt; written[place], wanted, "side {side}, byte {place}");
        }
    }
    Ok(())
}
