//! Compares two squares row by row, 64 modules at a time.

ghost use Rattle.std.specs.Prelude.{◌≡◌};
ghost use Rattle.qr_matrix.specs.Difference.{difference_count};

use crate::matrix::Matrix;

/// Returns the number of modules in which two squares differ; it is 0 exactly if they are equal.
pub fn differences(a: &Matrix, b: &Matrix) -> u32
    requires { a.now.side ≡ b.now.side }
    ensures { result ≡ difference_count a.now b.now }
{
    let mut total = 0;
    for row in 0..usize::from(a.side()) {
        total += (a.bit_row(row) ^ b.bit_row(row)).count();
    }
    total
}
