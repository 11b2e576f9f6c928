//! The rows of a `Matrix`, in words of 64 bits, so that one operation works on 64 modules. A bit that is 1 is called
//! set.

ghost use Rattle.std.proofs.Common.{rules};
ghost use Rattle.std.specs.Prelude.{◌≡◌, ℕ, List, ◌+◌, ◌-◌, ◌/◌, ◌%◌, ◌^◌, ◌<◌, ◌≤◌, ◌&&◌, ◌||◌, not, true, false, nat_le, nat_lt, ◌==◌, if◌then◌else◌};
ghost use Rattle.std.specs.Iterator.{YieldsFirst};
ghost use Rattle.qr_matrix.specs.Grid.{is_same};
ghost use Rattle.qr_matrix.specs.BitRow.{has, has_bit};
ghost use Rattle.qr_matrix.specs.Steps.{set_bits, size_of};

use crate::rows::Rows;
use std::marker::Model;
use std::ops::{BitAnd, BitOr, BitXor, Not};

/// A row of 192 bits in three words of 64 bits; bit 0 is the lowest bit of the first word.
#[derive(Clone, Copy)]
pub struct BitRow(pub(crate) [u64; 3]);

impl Model for BitRow {
    ghost use Rattle.std.specs.Prelude.{ℕ, List};
    ghost use Rattle.qr_matrix.specs.Steps.{AreWords};

    ghost Value = { List ℕ };

    ghost view = { λ l. l.0 };

    ghost invariant = { λ l. AreWords l.0 };

    ghost inverse = { λ words. record { 0 = words } };
}

impl BitAnd for BitRow {
    type Output = BitRow;

    ghost bitand_gives = { λ a b r. (c : ℕ) → has r c ≡ (has a c && has b c) };

    fn bitand(self, rhs: BitRow) -> BitRow {
        let (a, b) = (self.0, rhs.0);
        BitRow([a[0] & b[0], a[1] & b[1], a[2] & b[2]])
    }
}

impl BitOr for BitRow {
    type Output = BitRow;

    ghost bitor_gives = { λ a b r. (c : ℕ) → has r c ≡ (has a c || has b c) };

    fn bitor(self, rhs: BitRow) -> BitRow {
        let (a, b) = (self.0, rhs.0);
        BitRow([a[0] | b[0], a[1] | b[1], a[2] | b[2]])
    }
}

impl BitXor for BitRow {
    type Output = BitRow;

    ghost bitxor_gives = { λ a b r. (c : ℕ) → has r c ≡ not (is_same (has a c) (has b c)) };

    fn bitxor(self, rhs: BitRow) -> BitRow {
        let (a, b) = (self.0, rhs.0);
        BitRow([a[0] ^ b[0], a[1] ^ b[1], a[2] ^ b[2]])
    }
}

impl Not for BitRow {
    type Output = BitRow;

    ghost not_gives = { λ a r. (c : ℕ) → c < 192 → has r c ≡ not (has a c) };

    fn not(self) -> BitRow {
        let a = self.0;
        BitRow([!a[0], !a[1], !a[2]])
    }
}

impl BitRow {
    pub(crate) const EMPTY: BitRow = BitRow([0; 3]);

    pub(crate) fn below(n: u8) -> BitRow
        requires { n ≤ 192 }
        ensures { (c : ℕ) → has result c ≡ nat_lt c n }
    {
        if n < 64 {
            return BitRow::below_in(n, 1);
        }
        if n < 128 {
            return BitRow::below_in(n, 2);
        }
        BitRow::below_in(n, 3)
    }

    /// Returns the row that repeats the six bits of `pattern`, which is below 64: bit `c` is bit `c % 6` of `pattern`,
    /// and bit 0 is the lowest. The masks of a symbol have such rows (ISO/IEC 18004:2015, 7.8.2).
    pub fn repeated(pattern: u8) -> BitRow
        requires { pattern < 64 }
        ensures { (c : ℕ) → c < 192 → has result c ≡ has_bit pattern (c % 6) }
    {
        // 64 % 6 is 4 and 128 % 6 is 2, so the second word begins with bit 4 of the pattern, and the third with bit 2.
        let pattern = u64::from(pattern);
        let word = pattern.wrapping_mul(SIXTHS);
        BitRow([word, word << 2 | pattern >> 4, word << 4 | pattern >> 2])
    }

    pub(crate) fn count(self) -> u32
        ensures value { result ≡ size_of self }
        ensures bound { result ≤ 192 }
    {
        let a = self.0;
        a[0].count_ones() + a[1].count_ones() + a[2].count_ones()
    }

    /// Returns the index of the first set bit, or 192 if no bit is set.
    pub(crate) fn first(self) -> u8
        ensures most { result ≤ 192 }
        ensures before { (c : ℕ) → c < result → has self c ≡ false }
        ensures here { result < 192 → has self result ≡ true }
    {
        let a = self.0;
        if a[0] != 0 {
            return a[0].trailing_zeros() as u8;
        }
        if a[1] != 0 {
            return 64 + a[1].trailing_zeros() as u8;
        }
        if a[2] != 0 {
            return 128 + a[2].trailing_zeros() as u8;
        }
        192
    }

    #[inline(always)]
    pub(crate) fn take_first(&mut self) -> Option<u8>
        ensures { YieldsFirst set_bits self.old result self.new }
    {
        let index = self.first();
        if index == 192 {
            return None;
        }
        self.clear(index);
        Some(index)
    }

    // In each branch the number of the word is a constant. So the compiler can keep the three words in registers while
    // an iterator clears one bit after the other.
    #[inline(always)]
    fn clear(&mut self, index: u8)
        requires { index < 192 }
        ensures { (i : ℕ) → has self.new i ≡ (if i == index then false else has self.old i) }
    {
        if index < 64 {
            self.clear_in(0, index);
        } else if index < 128 {
            self.clear_in(1, index);
        } else {
            self.clear_in(2, index);
        }
    }

    // Clears bit `index`, which is in word `number`.
    #[inline(always)]
    fn clear_in(&mut self, number: usize, index: u8)
        requires index_in { index < 192 }
        requires word { number ≡ index / 64 }
        ensures { (i : ℕ) → has self.new i ≡ (if i == index then false else has self.old i) }
    {
        self.0[number] &= !(1u64 << (index % 64));
    }

    /// Returns whether bit `index` is set.
    #[tactic(auto, using(crate::proofs::Named::bit_row_facts))]
    pub fn at(&self, index: u8) -> bool
        requires { index < 192 }
        ensures { result ≡ has self.now index }
    {
        self.0[usize::from(index / 64)] >> (index % 64) & 1 == 1
    }

    /// Sets bit `index` if `dark` is true, and clears it otherwise.
    pub fn put(&mut self, index: u8, dark: bool)
        requires { index < 192 }
        ensures { (i : ℕ) → has self.new i ≡ (if i == index then dark else has self.old i) }
    {
        let bit = 1u64 << (index % 64);
        if dark {
            self.0[usize::from(index / 64)] |= bit;
        } else {
            self.0[usize::from(index / 64)] &= !bit;
        }
    }

    #[tactic(auto, using(crate::proofs::Named::bit_row_facts))]
    pub(crate) fn put_word(&mut self, number: usize, word: u64)
        requires { number < 3 }
        ensures { (i : ℕ) → has self.new i ≡ (if i / 64 == number then has_bit word (i % 64) else has self.old i) }
    {
        self.0[number] = word;
    }

    /// Sets bit `index + k` for each bit `k` of `bits` that is 1, and changes no other bit. All bits that it sets have
    /// to be in the same word of 64 bits as bit `index`.
    #[inline(always)]
    pub fn set_bits(&mut self, index: u8, bits: u64)
        requires index_in { index < 192 }
        requires fits { (k : ℕ) → 64 ≤ index % 64 + k → has_bit bits k ≡ false }
        ensures { (i : ℕ) → has self.new i ≡ (has self.old i || nat_le index i && has_bit bits (i - index)) }
    {
        self.0[usize::from(index / 64)] |= bits << (index % 64);
    }

    /// Returns the bits from bit `index` to the highest bit of the word of 64 bits that contains it, as a number. Bit
    /// `index` is the lowest bit of this number.
    #[inline(always)]
    pub fn bits_from(&self, index: u8) -> u64
        requires { index < 192 }
        ensures { (k : ℕ) → index % 64 + k < 64 → has_bit result k ≡ has self.now (index + k) }
    {
        let word = self.0[usize::from(index / 64)];
        word >> (index % 64)
    }

    /// Returns the number of set bits from bit `index` up to the first bit that is not set, or to the highest bit of
    /// the word that contains bit `index`.
    #[inline(always)]
    pub fn ones_from(&self, index: u8) -> u8
        requires { index < 192 }
        ensures few { index % 64 + result ≤ 64 }
        ensures set { (k : ℕ) → k < result → has self.now (index + k) ≡ true }
        ensures ends { index % 64 + result < 64 → has self.now (index + result) ≡ false }
    {
        (self.0[usize::from(index / 64)] >> (index % 64)).trailing_ones() as u8
    }

    /// Returns the number of set bits from bit `index` down to the first bit that is not set, or to the lowest bit of
    /// the word that contains bit `index`.
    #[inline(always)]
    pub fn ones_down_from(&self, index: u8) -> u8
        requires { index < 192 }
        ensures few { result ≤ index % 64 + 1 }
        ensures set { (k : ℕ) → k < result → has self.now (index - k) ≡ true }
        ensures ends { result ≤ index % 64 → has self.now (index - result) ≡ false }
    {
        (self.0[usize::from(index / 64)] << (63 - index % 64)).leading_ones() as u8
    }
}

impl Rows for BitRow {
    type Counts = u32;

    ghost bit = { λ row _. has row };

    ghost number = { λ count _. count };

    // Where `words` is a constant, only one word has to be computed, because the other two are constants.
    #[inline(always)]
    fn below_in(n: u8, words: u8) -> BitRow {
        let n = u32::from(n);
        match words {
            1 => BitRow([low_bits(n), 0, 0]),
            2 => BitRow([u64::MAX, low_bits(n - 64), 0]),
            _ => BitRow([u64::MAX, u64::MAX, low_bits(n - 128)]),
        }
    }

    #[inline(always)]
    fn shifted_left(self, steps: u32) -> BitRow {
        let a = self.0;
        let rest = 64 - steps;
        BitRow([
            a[0] >> steps | a[1] << rest,
            a[1] >> steps | a[2] << rest,
            a[2] >> steps,
        ])
    }

    #[inline(always)]
    fn shifted_right(self) -> BitRow {
        let a = self.0;
        BitRow([a[0] << 1, a[1] << 1 | a[0] >> 63, a[2] << 1 | a[1] >> 63])
    }

    #[inline(always)]
    fn is_empty(self) -> bool {
        let a = self.0;
        a[0] | a[1] | a[2] == 0
    }

    #[inline(always)]
    fn plus(counts: u32, others: u32) -> u32 {
        counts + others
    }

    #[inline(always)]
    fn add_to(self, counts: u32) -> u32 {
        counts + self.count()
    }

    ghost zero_law = { λ n h _. h };

    ghost can_bitand_law = { λ _ _. Prim.search rules };

    ghost bitand_law = { λ a b r h _. h };

    ghost can_bitor_law = { λ _ _. Prim.search rules };

    ghost bitor_law = { λ a b r h _. h };

    ghost can_bitxor_law = { λ _ _. Prim.search rules };

    ghost bitxor_law = { λ a b r h _. h };
}

pub(crate) fn low_bits(n: u32) -> u64
    requires { n ≤ 64 }
    ensures { result ≡ 2 ^ n - 1 }
{
    if n == 64 { u64::MAX } else { (1 << n) - 1 }
}

// Every sixth bit, from bit 0 on.
const SIXTHS: u64 = 0x1041_0410_4104_1041;
