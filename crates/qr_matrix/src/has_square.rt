//! Values that have a square of modules.

ghost use Rattle.std.specs.Prelude.{◌≡◌};

use crate::matrix::Matrix;

/// A type whose values have a square of modules.
pub trait HasSquare {
    ghost use Rattle.qr_matrix.specs.Grid.{Grid};

    // The square, as contracts see it.
    ghost grid: { Self → Grid };

    /// Returns the square.
    fn square(&self) -> &Matrix
        ensures { result.now ≡ grid self.now };
}

impl HasSquare for Matrix {
    ghost grid = { λ m. m };

    fn square(&self) -> &Matrix {
        self
    }
}
