//! The operations by which the penalty is computed, as two traits. `Squares` is implemented by `Matrix`, which is one
//! square, and by `MatrixPair`, which is two squares on which one operation works at once. `Rows` is implemented by the
//! types of their rows: by `BitRow` for one square, and for two squares by `RowPair`, which has a row of each. In
//! contracts `second` says which of the two squares is meant. If there is only one square, `second` has no meaning.
//!
//! To count the bits of many rows, the code first adds the rows column by column, as full adders do: three rows become
//! two, a row of sums and a row of carries. This leaves fewer bits to count.

ghost use Rattle.std.specs.Prelude.{◌≡◌, ℕ, Bool, ◌+◌, ◌-◌, ◌*◌, ◌<◌, ◌≤◌, ◌&&◌, ◌||◌, not, true, false, nat_lt};
ghost use Rattle.qr_matrix.specs.Grid.{is_same};
ghost use Rattle.qr_matrix.specs.Steps.{set_count, NeedsWords};

use std::ops::{BitAnd, BitOr, BitXor};

pub(crate) trait Rows: Copy
    + BitAnd<Self, Output = Self>
    + BitOr<Self, Output = Self>
    + BitXor<Self, Output = Self> {
    // A number for each square, 0 by default. Numbers that are added are at most a million, so that their sum fits in a
    // `u32`.
    type Counts: Copy + Default;

    // Whether the row of one of the squares has a 1 in a column. `second` says which square is meant, and the last
    // argument is the column.
    ghost bit: { Self → (second : Bool) → ℕ → Bool };

    // What was counted in one of the squares, as a number. `second` says in which one.
    ghost number: { Self.Counts → (second : Bool) → ℕ };

    // The row in which the bits below `n` are set. These bits fill the first `words` words, but may end anywhere in the
    // last of them. Where `words` is a constant, the compiler knows the value of every word but this one.
    fn below_in(n: u8, words: u8) -> Self
        requires least { 64 * (words - 1) ≤ n }
        requires most { n ≤ 64 * words }
        requires some { 1 ≤ words }
        requires three { words ≤ 3 }
        ensures { (second : Bool) (c : ℕ) → bit result second c ≡ nat_lt c n };

    // Moves each bit `steps` columns to the left. Bit 0 is the leftmost, so the words themselves are shifted to the
    // right.
    fn shifted_left(self, steps: u32) -> Self
        requires some { 0 < steps }
        requires few { steps < 64 }
        ensures { (second : Bool) (c : ℕ) → bit result second c ≡ bit self second (c + steps) };

    fn shifted_right(self) -> Self
        ensures { (second : Bool) (c : ℕ) → c < 192
            → bit result second c ≡ (nat_lt 0 c && bit self second (c - 1)) };

    // Whether no bit is set in the row or, if there are two squares, in either of the two rows. The answer only saves
    // time, so the contract says nothing of the answer `false`.
    fn is_empty(self) -> bool
        ensures { result ≡ true → (second : Bool) (c : ℕ) → bit self second c ≡ false };

    fn plus(counts: Self::Counts, others: Self::Counts) -> Self::Counts
        requires first { (second : Bool) → number counts second ≤ 1000000 }
        requires others { (second : Bool) → number others second ≤ 1000000 }
        ensures { (second : Bool) → number result second ≡ number counts second + number others second };

    // `counts` has a number for each square, and `self` has a row of each square. The function adds to each number how
    // many bits are set in the row of the same square.
    fn add_to(self, counts: Self::Counts) -> Self::Counts
        requires { (second : Bool) → number counts second ≤ 1000000 }
        ensures value { (second : Bool) → number result second
            ≡ number counts second + set_count (bit self second) }
        ensures bound { (second : Bool) → number result second ≤ number counts second + 192 };

    ghost zero_law: { (n : Self.Counts) → Self.Counts.is_default n → (second : Bool) → number n second ≡ 0 };

    // These laws say that the operators `&`, `|` and `^` may always be used, and that they work on each column by
    // itself.
    ghost can_bitand_law: { (a b : Self) → Self.can_bitand a b };

    ghost bitand_law: { (a b r : Self) → Self.bitand_gives a b r → (second : Bool) (c : ℕ)
        → bit r second c ≡ (bit a second c && bit b second c) };

    ghost can_bitor_law: { (a b : Self) → Self.can_bitor a b };

    ghost bitor_law: { (a b r : Self) → Self.bitor_gives a b r → (second : Bool) (c : ℕ)
        → bit r second c ≡ (bit a second c || bit b second c) };

    ghost can_bitxor_law: { (a b : Self) → Self.can_bitxor a b };

    ghost bitxor_law: { (a b r : Self) → Self.bitxor_gives a b r → (second : Bool) (c : ℕ)
        → bit r second c ≡ not (is_same (bit a second c) (bit b second c)) };
}

pub(crate) trait Squares {
    type Row: Rows;

    ghost size: { Self → ℕ };

    ghost dark: { Self → (second : Bool) → ℕ → ℕ → Bool };

    fn side(&self) -> u8
        ensures value { result ≡ size self.now }
        ensures least { 1 ≤ result }
        ensures most { result ≤ 177 };

    // Returns row `row`. It is computed in such a way that the compiler sees that all words after the first `words`
    // words are 0.
    fn row_in(&self, row: usize, words: u8) -> Self::Row
        requires row_in { row < size self.now }
        requires width { NeedsWords (size self.now) words }
        ensures colours { (second : Bool) (c : ℕ) → Self.Row.bit result second c ≡ dark self.now second row c }
        ensures past { (second : Bool) (c : ℕ) → size self.now ≤ c → Self.Row.bit result second c ≡ false };
}

#[inline(always)]
pub(crate) fn and_not<R: Rows>(row: R, other: R) -> R
    ensures { (second : Bool) (c : ℕ) → R.bit result second c ≡ (R.bit row second c && not (R.bit other second c)) }
{
    row ^ (row & other)
}

// A full adder for each column: returns a row of sums and a row of carries. A carry stands for two set bits of the
// three rows. In a column the carry is the bit of `a`, unless the bits of `b` and of `c` both differ from it.
#[inline(always)]
pub(crate) fn added<R: Rows>(a: R, b: R, c: R) -> (R, R)
    ensures { (second : Bool) → set_count (R.bit a second) + set_count (R.bit b second) + set_count (R.bit c second)
        ≡ set_count (R.bit result.0 second) + 2 * set_count (R.bit result.1 second) }
{
    let either = a ^ b;
    (either ^ c, either & (a ^ c) ^ a)
}
