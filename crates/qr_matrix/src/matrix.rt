//! Stores the modules of a symbol as a square, without the quiet zone (ISO/IEC 18004:2015, 6.3.2).
//!
//! A square is transposed (rows and columns are exchanged) in tiles of 64 by 64 modules. A tile is stored as 64 words
//! of 64 bits, and is transposed in six stages. The first stage divides the tile into two by two parts of 32 by 32
//! bits, and exchanges the upper right part with the lower left part. The second stage does the same in each of the
//! four parts, and so on down to single bits. In a stage, `steps` is the side of a part, and `mask` has a 1 in the
//! columns of the left parts.
//!
//! A band is 64 neighbouring rows, or fewer at the lower edge of the square. It has a tile for each word of a row. Band
//! `band` of a square begins at row `64 * band`, and tile `word` of this band begins at column `64 * word`, and becomes
//! tile `band` of band `word` when the square is transposed.

ghost use Rattle.std.specs.Prelude.{IfOk, false, length, nat_lt, ℕ, ◌%◌, ◌*◌, ◌+◌, ◌<◌, ◌≡◌, ◌≤◌};
ghost use Rattle.qr_matrix.specs.Grid.{colour, light, painted, square, transposed, with_rectangle, with_row};
ghost use Rattle.qr_matrix.specs.BitRow.{dark_in, has, has_bit};
ghost use Rattle.qr_matrix.specs.Runs.{IsRunEnd};
ghost use Rattle.qr_matrix.specs.Steps.{bit_in, exchanged, is_change};

use crate::bit_row::BitRow;
use crate::rows::{Rows, Squares, and_not};
use std::alloc::{AllocError, Global};
use std::marker::Model;
use std::ops::Range;

/// A square of 1 to 177 modules on a side; row 0 and column 0 are at the top left. Contracts see it as a grid.
#[derive(Drop)]
pub struct Matrix {
    side: u8,
    // The rows from the top down. No bit outside the square is set.
    rows: Vec<BitRow>,
}

impl Model for Matrix {
    ghost use Rattle.std.specs.Prelude.{◌≡◌, ℕ, ◌≤◌, false, length};
    ghost use Rattle.qr_matrix.specs.Grid.{Grid, square};
    ghost use Rattle.qr_matrix.specs.BitRow.{dark_in};

    ghost Value = { Grid };

    ghost view = { λ m. square m.side (dark_in m.rows.items) };

    ghost invariant = { λ m. (1 ≤ m.side) × (m.side ≤ 177) × (length m.rows.items ≡ m.side)
        × ((r c : ℕ) → m.side ≤ c → dark_in m.rows.items r c ≡ false) };
}

impl Matrix {
    /// Returns a square of light modules.
    ///
    /// # Errors
    ///
    /// `AllocError` if memory is refused.
    #[tactic(auto, using(crate::proofs::Named::light_facts))]
    pub fn new(alloc: Global, side: u8) -> Result<Matrix, AllocError>
        requires least { 1 ≤ side }
        requires most { side ≤ 177 }
        ensures { IfOk result (λ m. m ≡ light side) }
    {
        let rows = vec![in alloc; BitRow::EMPTY; usize::from(side)]?;
        Ok(Matrix { side, rows })
    }

    /// Returns the number of modules on a side, from 1 to 177.
    pub fn side(&self) -> u8
        ensures value { result ≡ self.now.side }
        ensures least { 1 ≤ result }
        ensures most { result ≤ 177 }
    {
        self.side
    }

    /// Returns whether the module in row `row` and column `col` is dark.
    #[tactic(auto, using(crate::proofs::Named::row_facts))]
    pub fn dark(&self, row: u8, col: u8) -> bool
        requires row_in { row < self.now.side }
        requires col_in { col < self.now.side }
        ensures { result ≡ colour self.now row col }
    {
        self.rows[usize::from(row)].at(col)
    }

    /// Returns the eight modules of row `row` from column `col` on as a number: the leftmost is the lowest bit, and a
    /// set bit is dark. Modules outside the square are light.
    #[tactic(auto, using(crate::proofs::Named::bit_row_facts, crate::proofs::Named::row_facts))]
    pub fn eight(&self, row: u8, col: u8) -> u8
        requires row_in { row < self.now.side }
        requires col_in { col < self.now.side }
        requires whole { col % 8 ≡ 0 }
        ensures { (k : ℕ) → k < 8 → has_bit result k ≡ colour self.now row (col + k) }
    {
        let word = self.rows[usize::from(row)].0[usize::from(col / 64)];
        ((word >> (col % 64)) % 256) as u8
    }

    /// Returns the end of the run in row `row` that contains column `col`: the first column after `col` whose module
    /// has another colour, or the side if there is none.
    pub fn run_end(&self, row: u8, col: u8) -> u8
        requires row_in { row < self.now.side }
        requires col_in { col < self.now.side }
        ensures { IsRunEnd self.now row col result }
    {
        let side = self.side();
        let later = and_not(self.changes(row), BitRow::below(col + 1));
        later.first().min(side)
    }

    // Returns the columns whose module has another colour than the module to its left. Modules outside the square count
    // as light. So column 0 is returned if its module is dark, and column `side` if the last module is dark.
    #[tactic(auto, unfolding(crate::specs::Steps::is_change))]
    pub(crate) fn changes(&self, row: u8) -> BitRow
        requires { row < self.now.side }
        ensures changes { (c : ℕ) → c < 192 → has result c ≡ is_change (colour self.now row) c }
        ensures past { (c : ℕ) → self.now.side ≤ c → colour self.now row c ≡ false }
        ensures few { self.now.side ≤ 177 }
    {
        let bits = self.bit_row(usize::from(row));
        bits ^ bits.shifted_right()
    }

    /// Returns row `row` as a bit row, in which bit `c` is column `c`, and a set bit is dark.
    pub fn bit_row(&self, row: usize) -> BitRow
        requires { row < self.now.side }
        ensures colours { (c : ℕ) → has result c ≡ colour self.now row c }
        ensures past { (c : ℕ) → self.now.side ≤ c → has result c ≡ false }
        ensures few { self.now.side ≤ 177 }
    {
        self.rows[row]
    }

    // Returns one word of row `row`. Word `number` has the 64 columns from column `64 * number` on.
    #[tactic(auto, using(crate::proofs::Named::bit_row_facts, crate::proofs::Named::row_facts))]
    pub(crate) fn word(&self, row: usize, number: usize) -> u64
        requires row_in { row < self.now.side }
        requires word_in { number < 3 }
        ensures { (c : ℕ) → c < 64 → has_bit result c ≡ colour self.now row (64 * number + c) }
    {
        self.rows[row].0[number]
    }

    /// Makes the module in row `row` and column `col` dark if `dark` is true, and light otherwise.
    pub fn set(&mut self, row: u8, col: u8, dark: bool)
        requires row_in { row < self.old.side }
        requires col_in { col < self.old.side }
        ensures { self.new ≡ painted self.old row col dark }
    {
        self.rows[usize::from(row)].put(col, dark);
    }

    /// Replaces row `row` by `bits`, a bit row as `bit_row` returns it.
    pub fn set_bit_row(&mut self, row: u8, bits: BitRow)
        requires row_in { row < self.old.side }
        requires past { (c : ℕ) → self.old.side ≤ c → has bits c ≡ false }
        ensures { self.new ≡ with_row self.old row (has bits) }
    {
        self.rows[usize::from(row)] = bits;
    }

    /// Makes the rectangle of these rows and columns dark if `dark` is true, and light otherwise.
    pub fn fill(&mut self, rows: Range<u8>, columns: Range<u8>, dark: bool)
        requires rows_in_order { rows.start ≤ rows.end }
        requires bottom_in { rows.end ≤ self.old.side }
        requires columns_in_order { columns.start ≤ columns.end }
        requires right_in { columns.end ≤ self.old.side }
        ensures { self.new ≡ with_rectangle self.old rows.start rows.end columns.start columns.end dark }
    {
        // Only for the prover, which needs this bound for a rectangle without rows.
        prove!(self.side <= 177);
        let inside = BitRow::below(columns.end) & !BitRow::below(columns.start);
        for row in rows.start..rows.end {
            let bits = self.bit_row(usize::from(row));
            let filled = if dark { bits | inside } else { bits & !inside };
            self.set_bit_row(row, filled);
        }
    }

    /// Sets this square to `other` with rows and columns exchanged.
    pub fn set_transposed(&mut self, other: &Matrix)
        requires { other.now.side ≡ self.old.side }
        ensures { self.new ≡ transposed other.now }
    {
        prove!(self.side <= 177);
        let side = usize::from(self.side);
        let words = side.div_ceil(64);
        for band in 0..words {
            for word in 0..words {
                // Tile `band` of band `word` of `other`, which becomes tile `word` of band `band` of this square. If
                // the tile has rows below the last row of the square, these stay light.
                let mut tile = [0; 64];
                for line in 0..(side - 64 * word).min(64) {
                    tile[line] = other.rows[64 * word + line].0[band];
                }
                exchange(&mut tile, 32, 0x0000_0000_FFFF_FFFF);
                exchange(&mut tile, 16, 0x0000_FFFF_0000_FFFF);
                exchange(&mut tile, 8, 0x00FF_00FF_00FF_00FF);
                exchange(&mut tile, 4, 0x0F0F_0F0F_0F0F_0F0F);
                exchange(&mut tile, 2, 0x3333_3333_3333_3333);
                exchange(&mut tile, 1, 0x5555_5555_5555_5555);
                for row in 0..(side - 64 * band).min(64) {
                    self.rows[64 * band + row].put_word(word, tile[row]);
                }
            }
        }
    }
}

impl Squares for Matrix {
    type Row = BitRow;

    ghost size = { λ matrix. matrix.side };

    ghost dark = { λ matrix _. colour matrix };

    #[inline(always)]
    fn side(&self) -> u8 {
        Matrix::side(self)
    }

    #[inline(always)]
    fn row_in(&self, row: usize, words: u8) -> BitRow {
        self.bit_row(row) & BitRow::below_in(64 * words, words)
    }
}

// One stage of the transposition. In each group of `2 * steps` rows, the right parts of the upper half are exchanged
// with the left parts of the lower half. For this, the bits in which two such parts differ are inverted in both. This
// is done for one row of the upper half and one of the lower half at a time.
#[inline(always)]
pub(crate) fn exchange(tile: &mut [u64; 64], steps: usize, mask: u64)
    requires some { 1 ≤ steps }
    requires few { steps ≤ 32 }
    requires fits { 32 % steps ≡ 0 }
    requires masks { (c : ℕ) → c < 64 → has_bit mask c ≡ nat_lt (c % (2 * steps)) steps }
    ensures { (r c : ℕ) → r < 64 → c < 64 → bit_in tile.new r c ≡ exchanged steps (bit_in tile.old) r c }
{
    for group in 0..32 / steps {
        let first = 2 * steps * group;
        for row in first..first + steps {
            let (upper, lower) = (tile[row], tile[row + steps]);
            let difference = (upper >> steps ^ lower) & mask;
            tile[row] = upper ^ difference << steps;
            tile[row + steps] = lower ^ difference;
        }
    }
}
