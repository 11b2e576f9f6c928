//! The square of which an image is written: its modules as bytes, as the calls for C have them.

ghost use Rattle.std.specs.Prelude.{◌≡◌, ◌≤◌, ◌<◌, ◌*◌, ◌==◌, ℕ, not, length, slice_index_or};
ghost use Rattle.qr_matrix.specs.Bytes.{square_of_bytes};
ghost use Rattle.qr_matrix.specs.Grid.{colour};

use std::marker::Model;

/// A square of 1 to 177 modules on a side, without a quiet zone. Its modules are bytes, row by row: every byte but 0 is
/// a dark module. Contracts see it as a grid.
#[derive(Drop)]
pub struct Modules<'a> {
    side: u8,
    bytes: &'a [u8],
}

impl<'a> Model for Modules<'a> {
    ghost use Rattle.std.specs.Prelude.{◌≤◌, ◌*◌, length};
    ghost use Rattle.qr_matrix.specs.Bytes.{square_of_bytes};
    ghost use Rattle.qr_matrix.specs.Grid.{Grid};

    ghost Value = { Grid };

    ghost view = { λ m. square_of_bytes m.side m.bytes.now };

    ghost invariant = { λ m. (1 ≤ m.side) × (m.side ≤ 177) × (m.side * m.side ≤ length m.bytes.now) };
}

impl<'a> Modules<'a> {
    /// Returns the square that `bytes` begins with. Bytes after the square are not read.
    pub fn new(bytes: &'a [u8], side: u8) -> Modules<'a>
        requires least { 1 ≤ side }
        requires most { side ≤ 177 }
        requires room { side * side ≤ length bytes.now }
        ensures { result ≡ square_of_bytes side bytes.now }
    {
        Modules { side, bytes }
    }

    /// Returns the number of modules on a side, from 1 to 177.
    #[inline(always)]
    pub fn side(&self) -> u8
        ensures value { result ≡ self.now.side }
        ensures least { 1 ≤ result }
        ensures most { result ≤ 177 }
    {
        self.side
    }

    /// Returns whether the module in row `row` and column `col` is dark.
    #[inline(always)]
    pub fn dark(&self, row: u8, col: u8) -> bool
        requires row_in { row < self.now.side }
        requires col_in { col < self.now.side }
        ensures { result ≡ colour self.now row col }
    {
        self.bytes[usize::from(row) * usize::from(self.side) + usize::from(col)] != 0
    }

    /// Returns the modules of row `row`, from the left to the right, one byte each.
    #[inline(always)]
    pub(crate) fn row(&self, row: u8) -> &[u8]
        requires { row < self.now.side }
        ensures len { length result.now ≡ self.now.side }
        ensures modules { (x : ℕ) → x < self.now.side → not (slice_index_or result.now x 0 == 0) ≡ colour self.now row x }
    {
        let start = usize::from(row) * usize::from(self.side);
        &self.bytes[start..start + usize::from(self.side)]
    }
}
