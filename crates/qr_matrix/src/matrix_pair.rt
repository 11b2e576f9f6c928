//! Two squares with the same side. Their bit rows are stored side by side in vectors, so that one operation works on 64
//! modules of each square.

ghost use Rattle.std.specs.Prelude.{Bool, IfOk, List, false, if◌then◌else◌, nat_le, nat_lt, not, true, ℕ, ◌%◌, ◌&&◌, ◌*◌, ◌+◌, ◌-◌, ◌/◌, ◌<◌, ◌==◌, ◌||◌, ◌≡◌, ◌≤◌};
ghost use Rattle.std.proofs.Common.{rules};
ghost use Rattle.qr_matrix.specs.Grid.{IsSquare, colour, is_same, light, one_of, square, with_row};
ghost use Rattle.qr_matrix.specs.BitRow.{has, has_bit};
ghost use Rattle.qr_matrix.specs.Steps.{IsPair, NeedsWords, lane};

use crate::bit_row::{BitRow, low_bits};
use crate::matrix::Matrix;
use crate::rows::{Rows, Squares};
use std::alloc::{AllocError, Global};
use std::marker::Model;
use std::ops::{BitAnd, BitOr, BitXor};
use std::simd::prelude::*;

// A pair of rows, one of each of two squares. Each row has 192 bits, in three words of 64 bits. A vector has one word
// of each row; `low` has the words with the lowest bits.
#[derive(Clone, Copy)]
pub(crate) struct RowPair {
    low: u64x2,
    middle: u64x2,
    high: u64x2,
}

impl Model for RowPair {
    ghost use Rattle.std.specs.Prelude.{ℕ, List, [], ◌∷◌, slice_index_or};
    ghost use Rattle.qr_matrix.specs.Steps.{IsPair};

    ghost Value = { List (List ℕ) };

    ghost view = { λ r. r.low ∷ r.middle ∷ r.high ∷ [] };

    ghost invariant = { λ r. IsPair r.low × IsPair r.middle × IsPair r.high };

    ghost inverse = { λ pairs. record {
      low = slice_index_or pairs 0 [];
      middle = slice_index_or pairs 1 [];
      high = slice_index_or pairs 2 [];
    } };
}

impl BitAnd for RowPair {
    type Output = RowPair;

    ghost bitand_gives = { λ a b r. (second : Bool) (c : ℕ) → has (lane r second) c
        ≡ (has (lane a second) c && has (lane b second) c) };

    #[inline(always)]
    fn bitand(self, rhs: RowPair) -> RowPair {
        RowPair {
            low: self.low & rhs.low,
            middle: self.middle & rhs.middle,
            high: self.high & rhs.high,
        }
    }
}

impl BitOr for RowPair {
    type Output = RowPair;

    ghost bitor_gives = { λ a b r. (second : Bool) (c : ℕ) → has (lane r second) c
        ≡ (has (lane a second) c || has (lane b second) c) };

    #[inline(always)]
    fn bitor(self, rhs: RowPair) -> RowPair {
        RowPair {
            low: self.low | rhs.low,
            middle: self.middle | rhs.middle,
            high: self.high | rhs.high,
        }
    }
}

impl BitXor for RowPair {
    type Output = RowPair;

    ghost bitxor_gives = { λ a b r. (second : Bool) (c : ℕ) → has (lane r second) c
        ≡ not (is_same (has (lane a second) c) (has (lane b second) c)) };

    #[inline(always)]
    fn bitxor(self, rhs: RowPair) -> RowPair {
        RowPair {
            low: self.low ^ rhs.low,
            middle: self.middle ^ rhs.middle,
            high: self.high ^ rhs.high,
        }
    }
}

impl RowPair {
    #[inline(always)]
    pub(crate) fn of(first: BitRow, second: BitRow) -> RowPair
        ensures first { (c : ℕ) → has (lane result false) c ≡ has first c }
        ensures second { (c : ℕ) → has (lane result true) c ≡ has second c }
    {
        let (a, b) = (first.0, second.0);
        RowPair {
            low: u64x2::from_array([a[0], b[0]]),
            middle: u64x2::from_array([a[1], b[1]]),
            high: u64x2::from_array([a[2], b[2]]),
        }
    }

    // Replaces the first `words` words of each row by those of `bits`.
    #[inline(always)]
    pub(crate) fn put_words(&mut self, words: u8, bits: RowPair)
        requires some { 1 ≤ words }
        requires three { words ≤ 3 }
        ensures { (second : Bool) (c : ℕ) → has (lane self.new second) c
            ≡ (if nat_lt c (64 * words) then has (lane bits second) c else has (lane self.old second) c) }
    {
        match words {
            1 => self.low = bits.low,
            2 => {
                self.low = bits.low;
                self.middle = bits.middle;
            }
            _ => *self = bits,
        }
    }

    // Replaces the bits of word `number` at which `mask` has a 1: in the first row by the bits of `bits.0`, and in the
    // second row by those of `bits.1`.
    #[inline(always)]
    fn put_in(&mut self, number: u8, mask: u64, bits: (u64, u64))
        requires { number < 3 }
        ensures { (second : Bool) (i : ℕ) → has (lane self.new second) i
            ≡ (if i / 64 == number && has_bit mask (i % 64) then has_bit (if second then bits.1 else bits.0) (i % 64)
            else has (lane self.old second) i) }
    {
        let bits = u64x2::from_array([bits.0, bits.1]);
        let mask = u64x2::splat(mask);
        match number {
            0 => self.low = self.low ^ (self.low ^ bits) & mask,
            1 => self.middle = self.middle ^ (self.middle ^ bits) & mask,
            _ => self.high = self.high ^ (self.high ^ bits) & mask,
        }
    }

    // Replaces the `count` bits from bit `index` on: in the first row by the lowest bits of `bits.0`, and in the second
    // row by those of `bits.1`. The bits that are replaced may be in two words.
    #[inline(always)]
    pub(crate) fn put_bits(&mut self, index: u8, count: u8, bits: (u64, u64))
        requires few { count ≤ 64 }
        requires index_in { index < 192 }
        requires fits { index + count ≤ 192 }
        ensures { (second : Bool) (i : ℕ) → has (lane self.new second) i
            ≡ (if nat_le index i && nat_lt i (index + count) then has_bit (if second then bits.1 else bits.0) (i - index)
            else has (lane self.old second) i) }
    {
        let number = index / 64;
        let at = index % 64;
        let mask = low_bits(u32::from(count));
        self.put_in(number, mask << at, (bits.0 << at, bits.1 << at));
        if at + count > 64 {
            let rest = 64 - at;
            self.put_in(number + 1, mask >> rest, (bits.0 >> rest, bits.1 >> rest));
        }
    }
}

impl Rows for RowPair {
    type Counts = (u32, u32);

    ghost bit = { λ pairs second. has (lane pairs second) };

    ghost number = { λ counts second. if second then counts.1 else counts.0 };

    #[inline(always)]
    fn below_in(n: u8, words: u8) -> RowPair {
        let row = BitRow::below_in(n, words);
        RowPair::of(row, row)
    }

    #[inline(always)]
    fn shifted_left(self, steps: u32) -> RowPair {
        let down = u64x2::splat(u64::from(steps));
        let up = u64x2::splat(u64::from(64 - steps));
        RowPair {
            low: self.low >> down | self.middle << up,
            middle: self.middle >> down | self.high << up,
            high: self.high >> down,
        }
    }

    #[inline(always)]
    fn shifted_right(self) -> RowPair {
        RowPair {
            low: self.low << 1,
            middle: self.middle << 1 | self.low >> 63,
            high: self.high << 1 | self.middle >> 63,
        }
    }

    #[inline(always)]
    fn is_empty(self) -> bool {
        let words = (self.low | self.middle | self.high).to_array();
        words[0] | words[1] == 0
    }

    #[inline(always)]
    fn plus(counts: (u32, u32), others: (u32, u32)) -> (u32, u32) {
        (counts.0 + others.0, counts.1 + others.1)
    }

    #[inline(always)]
    fn add_to(self, counts: (u32, u32)) -> (u32, u32) {
        let a = self.low.to_array();
        let b = self.middle.to_array();
        let c = self.high.to_array();
        let first = BitRow([a[0], b[0], c[0]]);
        let second = BitRow([a[1], b[1], c[1]]);
        (counts.0 + first.count(), counts.1 + second.count())
    }

    ghost zero_law = { λ n h. elim [ false ↦ h.0 | true ↦ h.1 ] };

    ghost can_bitand_law = { λ _ _. Prim.search rules };

    ghost bitand_law = { λ a b r h. h };

    ghost can_bitor_law = { λ _ _. Prim.search rules };

    ghost bitor_law = { λ a b r h. h };

    ghost can_bitxor_law = { λ _ _. Prim.search rules };

    ghost bitxor_law = { λ a b r h. h };
}

/// Two squares with the same side, of 1 to 177 modules. Contracts see them as two grids.
#[derive(Drop)]
pub struct MatrixPair {
    side: u8,
    // The rows from the top down. No bit outside the squares is set.
    rows: Vec<RowPair>,
}

impl Model for MatrixPair {
    ghost use Rattle.std.specs.Prelude.{◌≡◌, ℕ, Bool, ◌≤◌, true, false, length};
    ghost use Rattle.qr_matrix.specs.Grid.{GridPair, square};
    ghost use Rattle.qr_matrix.specs.BitRow.{dark_in};
    ghost use Rattle.qr_matrix.specs.Steps.{lanes};

    ghost Value = { GridPair };

    ghost view = { λ p. record {
      first = square p.side (dark_in (lanes p.rows.items false));
      second = square p.side (dark_in (lanes p.rows.items true));
    } };

    ghost invariant = { λ p. (1 ≤ p.side) × (p.side ≤ 177) × (length p.rows.items ≡ p.side)
        × ((second : Bool) (r c : ℕ) → p.side ≤ c → dark_in (lanes p.rows.items second) r c ≡ false) };
}

impl MatrixPair {
    /// Returns two squares of light modules.
    ///
    /// # Errors
    ///
    /// `AllocError` if memory is refused.
    pub fn new(alloc: Global, side: u8) -> Result<MatrixPair, AllocError>
        requires least { 1 ≤ side }
        requires most { side ≤ 177 }
        ensures { IfOk result (λ pair. (second : Bool) → one_of pair second ≡ light side) }
    {
        let rows = vec![in alloc; <RowPair as Rows>::below_in(0, 1); usize::from(side)]?;
        Ok(MatrixPair { side, rows })
    }

    /// Sets the `count` modules of row `row` from column `col` on. The module in column `col + k` becomes dark if bit k
    /// is 1, and light otherwise. The first square takes its bits from `bits.0`, and the second from `bits.1`. Bit 0 is
    /// the lowest bit.
    #[inline(always)]
    pub fn set_columns(&mut self, row: u8, col: u8, count: u8, bits: (u64, u64))
        requires row_in { row < self.old.first.side }
        requires columns_in { col + count ≤ self.old.first.side }
        requires few { count ≤ 64 }
        ensures { (second : Bool) → one_of self.new second ≡ with_row (one_of self.old second) row
            (λ c. if nat_le col c && nat_lt c (col + count) then has_bit (if second then bits.1 else bits.0) (c - col)
            else colour (one_of self.old second) row c) }
    {
        self.rows[usize::from(row)].put_bits(col, count, bits);
    }

    // Copies every twelfth row of `unmasked`, from row `first` on, into both squares. The module in column c is
    // inverted if `within` is dark at its place, and bit `c % 6` of the square's pattern is 1. The rows of the squares
    // take `WORDS` words. Since this number is a constant, the compiler leaves out the words that are always empty.
    #[inline(always)]
    fn set_rows_masked_in<const WORDS: u8>(
        &mut self,
        first: u8,
        unmasked: &Matrix,
        within: &Matrix,
        patterns: (u8, u8),
    )
        requires first_in { first < 12 }
        requires unmasked_side { unmasked.now.side ≡ self.old.first.side }
        requires within_side { within.now.side ≡ self.old.first.side }
        requires patterns_in { (patterns.0 < 64) × (patterns.1 < 64) }
        requires width { NeedsWords self.old.first.side WORDS }
        ensures { (second : Bool) → one_of self.new second ≡ square self.old.first.side
            (λ r c. if r % 12 == first then (if colour within.now r c
            && has_bit (if second then patterns.1 else patterns.0) (c % 6)
            then not (colour unmasked.now r c) else colour unmasked.now r c) else colour (one_of self.old second) r c) }
    {
        let pattern = RowPair::of(BitRow::repeated(patterns.0), BitRow::repeated(patterns.1));
        let side = usize::from(self.side);
        let mut row = usize::from(first);
        while row < side {
            let (bits, region) = (unmasked.bit_row(row), within.bit_row(row));
            let inverted = RowPair::of(region, region) & pattern;
            self.rows[row].put_words(WORDS, RowPair::of(bits, bits) ^ inverted);
            row += 12;
        }
    }

    /// Copies every twelfth row of `unmasked`, from row `first` on, into both squares. The module in column c is
    /// inverted if `within` is dark at its place, and bit `c % 6` of the pattern is 1. The pattern is `patterns.0` for
    /// the first square, and `patterns.1` for the second. Bit 0 is the lowest bit.
    pub fn set_rows_masked(
        &mut self,
        first: u8,
        unmasked: &Matrix,
        within: &Matrix,
        patterns: (u8, u8),
    )
        requires first_in { first < 12 }
        requires squares { (second : Bool) → IsSquare self.old.first.side (one_of self.old second) }
        requires unmasked_side { unmasked.now.side ≡ self.old.first.side }
        requires within_side { within.now.side ≡ self.old.first.side }
        requires patterns_in { (patterns.0 < 64) × (patterns.1 < 64) }
        ensures { (second : Bool) → one_of self.new second ≡ square self.old.first.side
            (λ r c. if r % 12 == first then (if colour within.now r c
            && has_bit (if second then patterns.1 else patterns.0) (c % 6)
            then not (colour unmasked.now r c) else colour unmasked.now r c) else colour (one_of self.old second) r c) }
    {
        match self.side.div_ceil(64) {
            1 => self.set_rows_masked_in::<1>(first, unmasked, within, patterns),
            2 => self.set_rows_masked_in::<2>(first, unmasked, within, patterns),
            _ => self.set_rows_masked_in::<3>(first, unmasked, within, patterns),
        }
    }
}

impl Squares for MatrixPair {
    type Row = RowPair;

    ghost size = { λ pair. pair.first.side };

    ghost dark = { λ pair second. colour (one_of pair second) };

    #[inline(always)]
    fn side(&self) -> u8
        ensures value { result ≡ self.now.first.side }
        ensures second { result ≡ self.now.second.side }
        ensures least { 1 ≤ result }
        ensures most { result ≤ 177 }
    {
        self.side
    }

    #[inline(always)]
    fn row_in(&self, row: usize, words: u8) -> RowPair {
        self.rows[row] & RowPair::below_in(64 * words, words)
    }
}
