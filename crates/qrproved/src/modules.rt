//! Squares of modules as bytes of a buffer: one square after the other, without a quiet zone.

ghost use Rattle.std.specs.Prelude.{◌≡◌, ℕ, ◌+◌, ◌*◌, ◌<◌, ◌≤◌, ◌⊎◌, length, map, slice_index_or};
ghost use Rattle.std.specs.List.{All};
ghost use Rattle.qr_matrix.specs.Grid.{colour};
ghost use Rattle.qr_matrix.specs.Bytes.{byte_of};
ghost use Rattle.qrproved.specs.Modules.{HoldsSquares};

use qr_matrix::{HasSquare, Matrix};

pub(crate) fn area(side: u8) -> usize
    ensures { result ≡ side * side }
{
    usize::from(side) * usize::from(side)
}

// Calls `qr_matrix::write_square`, and is never inlined itself. If it were inlined into its caller, its variables would
// be on the stack during the whole call of this caller, also while the caller encodes.
#[inline(never)]
pub(crate) fn write_square(matrix: &Matrix, start: usize, bytes: &mut [u8])
    requires { start + matrix.now.side * matrix.now.side ≤ length bytes.old }
    ensures modules { (row col : ℕ) → row < matrix.now.side → col < matrix.now.side
        → slice_index_or bytes.new (start + (row * matrix.now.side + col)) 0
        ≡ byte_of (colour matrix.now row col) }
    ensures others { (i : ℕ) → (i < start) ⊎ (start + matrix.now.side * matrix.now.side ≤ i)
        → slice_index_or bytes.new i 0 ≡ slice_index_or bytes.old i 0 }
{
    qr_matrix::write_square(matrix, start, bytes);
}

pub(crate) fn write_squares<S: HasSquare>(squares: &[S], side: u8, modules: &mut [u8])
    requires sides { All (λ g. g.side ≡ side) (map S.grid squares.now) }
    requires room { length squares.now * (side * side) ≤ length modules.old }
    ensures { HoldsSquares side (map S.grid squares.now) modules.old modules.new }
{
    let area = area(side);
    let mut start = 0;
    for item in squares {
        write_square(item.square(), start, modules);
        start += area;
    }
}
