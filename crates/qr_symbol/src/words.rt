//! Moves bits within words of 64 bits, reads up to 64 bits of the codewords at once, and collects bits into codewords
//! (ISO/IEC 18004:2015, 7.7.2 and 7.7.3). Bit 0 of a word is its lowest. The bits of all codewords are numbered from 0
//! on: bit 0 is the highest bit of the first codeword, and bit 8 is the highest bit of the second.

ghost use Rattle.std.specs.Prelude.{◌≡◌, ℕ, ◌*◌, ◌/◌, ◌%◌, ◌+◌, ◌-◌, ◌<◌, ◌≤◌, ◌&&◌, [], ◌∷◌, ◌++◌, nat_lt, IsTrue, None, Some, IfOk, IsErr};
ghost use Rattle.std.specs.List.{All};
ghost use Rattle.qr_bits.specs.Bits.{bits_of, codeword_bit, field};
ghost use Rattle.qr_matrix.specs.BitRow.{has_bit};
ghost use Rattle.qr_symbol.specs.Steps.Words.{are_halves, are_pairs, partner, rank_in, Appends, AreNext, HasCollected};

use std::alloc::{AllocError, Global};
use std::marker::Model;

// For each of these bit masks, a word is divided into groups of bits: of 4 bits for `OF_4`, of 8 bits for `OF_8`, and
// so on. In each group exactly the second quarter, counted from the lowest bit, is set.
const OF_4: u64 = 0x2222_2222_2222_2222;

const OF_8: u64 = 0x0C0C_0C0C_0C0C_0C0C;

const OF_16: u64 = 0x00F0_00F0_00F0_00F0;

const OF_32: u64 = 0x0000_FF00_0000_FF00;

const OF_64: u64 = 0x0000_0000_FFFF_0000;

// Exchanges bit i and bit i + `steps` of `bits`, for each i whose bit of `mask` is set. No two bits of `mask` that are
// set have indices that differ by `steps`, so no bit is exchanged twice. Two bits that differ are exchanged by
// inverting both, and two equal bits stay as they are.
#[inline(always)]
#[tactic(auto, using(crate::proofs::Named::exchanges))]
fn exchange_bits(bits: u64, steps: u32, mask: u64) -> u64
    requires few { steps < 64 }
    requires pairs { IsTrue (are_pairs steps mask) }
    ensures { (i : ℕ) → i < 64 → has_bit result i ≡ has_bit bits (partner steps mask i) }
{
    let difference = (bits ^ bits >> steps) & mask;
    bits ^ difference ^ difference << steps
}

// Moves every second bit, from bit 1 on, to the upper half of the word, and the others to the lower half. For this the
// word is divided into groups of bits, and the second quarter of each group is exchanged with the third: first in
// groups of 4 bits, then of 8, 16, 32 and 64. If a word had only eight bits, groups of 4 and of 8 would be enough. In
// this drawing of eight bits, o3 to o0 are those that move to the upper half:
//
// ```text
// o3 e3 o2 e2 o1 e1 o0 e0
// o3 o2 e3 e2 o1 o0 e1 e0    after groups of 4
// o3 o2 o1 o0 e3 e2 e1 e0    after the group of 8
// ```
#[inline(always)]
#[tactic(auto, unfolding(crate::specs::Steps::Words::are_pairs, crate::specs::Steps::Words::are_halves, qr_matrix::specs::BitRow::has_bit))]
fn unshuffled(bits: u64) -> u64
    ensures { (i : ℕ) → i < 64 → has_bit result i ≡ has_bit bits (2 * (i % 32) + i / 32) }
{
    let bits = exchange_bits(bits, 1, OF_4);
    let bits = exchange_bits(bits, 2, OF_8);
    let bits = exchange_bits(bits, 4, OF_16);
    let bits = exchange_bits(bits, 8, OF_32);
    exchange_bits(bits, 16, OF_64)
}

// Moves the bits of the upper half of the word to the odd indices, and those of the lower half to the even ones. This
// is the inverse of `unshuffled`: the same exchanges, made in the opposite order.
#[inline(always)]
#[tactic(auto, unfolding(crate::specs::Steps::Words::are_pairs, crate::specs::Steps::Words::are_halves, qr_matrix::specs::BitRow::has_bit))]
fn shuffled(bits: u64) -> u64
    ensures { (i : ℕ) → i < 64 → has_bit result i ≡ has_bit bits (32 * (i % 2) + i / 2) }
{
    let bits = exchange_bits(bits, 16, OF_64);
    let bits = exchange_bits(bits, 8, OF_32);
    let bits = exchange_bits(bits, 4, OF_16);
    let bits = exchange_bits(bits, 2, OF_8);
    exchange_bits(bits, 1, OF_4)
}

// Interleaves the 32 lowest bits of both numbers. Bit 0 of the result is bit 0 of `even`, bit 1 is bit 0 of `odd`, and
// so on.
#[inline(always)]
fn interleaved(odd: u64, even: u64) -> u64
    ensures odd { (i : ℕ) → i < 32 → has_bit result (2 * i + 1) ≡ has_bit odd i }
    ensures even { (i : ℕ) → i < 32 → has_bit result (2 * i) ≡ has_bit even i }
{
    shuffled(odd << 32 | even & 0xFFFF_FFFF)
}

// Exchanges all bits of `bits` in pairs: bit i and bit i + `steps`, for each i whose bit of `mask` is set. So one half
// of the bits moves down by `steps`, and the other half moves up by `steps`.
#[inline(always)]
#[tactic(auto, using(crate::proofs::Named::exchanges))]
fn exchange_all(bits: u64, steps: u32, mask: u64) -> u64
    requires few { steps < 64 }
    requires halves { IsTrue (are_halves steps mask) }
    ensures { (i : ℕ) → i < 64 → has_bit result i ≡ has_bit bits (partner steps mask i) }
{
    bits >> steps & mask | (bits & mask) << steps
}

// Reverses the order of the 64 bits. `u64::reverse_bits` does the same, but the compiler of Rattle's kit turns it into
// a loop over the bits. The last three exchanges reverse the order of the bytes, and LLVM makes one instruction of
// these three.
#[inline(always)]
#[tactic(auto, unfolding(crate::specs::Steps::Words::are_pairs, crate::specs::Steps::Words::are_halves, qr_matrix::specs::BitRow::has_bit))]
pub(crate) fn reversed(bits: u64) -> u64
    ensures { (i : ℕ) → i < 64 → has_bit result i ≡ has_bit bits (63 - i) }
{
    let bits = exchange_all(bits, 1, 0x5555_5555_5555_5555);
    let bits = exchange_all(bits, 2, 0x3333_3333_3333_3333);
    let bits = exchange_all(bits, 4, 0x0F0F_0F0F_0F0F_0F0F);
    let bits = exchange_all(bits, 8, 0x00FF_00FF_00FF_00FF);
    let bits = exchange_all(bits, 16, 0x0000_FFFF_0000_FFFF);
    exchange_all(bits, 32, 0x0000_0000_FFFF_FFFF)
}

// Divides the `2 * count` highest bits of `bits` between the right and the left column of `count` rows. They are taken
// two at a time, from the highest on: the first of the two belongs to the right column, and the second to the left. In
// each of the two results the lowest bit is that of the topmost row. In a strip that is filled upward, the topmost row
// has the last two bits. In a strip that is filled downward, it has the first two, so the order of the bits is reversed
// first.
#[inline(always)]
pub(crate) fn split(bits: u64, upward: bool, count: u8) -> (u64, u64)
    requires some { 1 ≤ count }
    requires few { count ≤ 32 }
    ensures right { (i : ℕ) → has_bit result.0 i
        ≡ (nat_lt i count && has_bit bits (63 - 2 * rank_in count upward i)) }
    ensures left { (i : ℕ) → has_bit result.1 i
        ≡ (nat_lt i count && has_bit bits (62 - 2 * rank_in count upward i)) }
{
    let others = 64 - 2 * count;
    let first = bits >> others;
    if upward {
        let halves = unshuffled(first);
        (halves >> 32, halves & 0xFFFF_FFFF)
    } else {
        let halves = unshuffled(reversed(first) >> others);
        (halves & 0xFFFF_FFFF, halves >> 32)
    }
}

// Merges the bits of the right and the left column of `count` rows of a strip, in the order in which the strip is
// filled: in each row the right bit comes first. The merged bits become the lowest bits of the result, and the last of
// them becomes bit 0. (`split` takes its bits from the highest bits of a word.) In `right` and `left` the lowest bit is
// that of the topmost row.
#[inline(always)]
pub(crate) fn merged(right: u64, left: u64, upward: bool, count: u8) -> u64
    requires some { 1 ≤ count }
    requires few { count ≤ 32 }
    ensures right { (j : ℕ) → j < count
        → has_bit result (2 * (count - 1 - j) + 1) ≡ has_bit right (rank_in count upward j) }
    ensures left { (j : ℕ) → j < count
        → has_bit result (2 * (count - 1 - j)) ≡ has_bit left (rank_in count upward j) }
{
    if upward {
        interleaved(right, left)
    } else {
        reversed(interleaved(left, right)) >> (64 - 2 * count)
    }
}

// The bits of eight codewords, from that with the index `first` on, as a number of which the first bit is the highest.
// Missing codewords after the last one count as 0. The bound on `first` follows from the bound on `number` in
// `bits_at`, since a codeword has eight bits.
#[inline(never)]
fn last_codewords(codewords: &[u8], first: usize) -> u64
    requires { first ≤ 5000 }
    ensures { (k : ℕ) → k < 64 → has_bit result (63 - k) ≡ codeword_bit codewords.now (8 * first + k) }
{
    let mut bits = 0u64;
    for next in 0..8 {
        bits = 256 * bits + u64::from(codewords.get(first + next).copied().unwrap_or(0));
    }
    bits
}

// The 64 bits of the codewords from bit `number` on, as a number of which the first bit is the highest. Unless `number`
// is a multiple of 8, the bits are in nine codewords. The bound on `number` is only for the prover. It is above 29,648,
// the most bits that the codewords of a symbol have.
#[inline(always)]
pub(crate) fn bits_at(codewords: &[u8], number: usize) -> u64
    requires { number ≤ 40000 }
    ensures { AreNext codewords.now number result }
{
    let first = number / 8;
    let skipped = number % 8;
    let bits = if first + 8 <= codewords.len() {
        let mut eight = 0u64;
        for next in 0..8 {
            eight = 256 * eight + u64::from(codewords[first + next]);
        }
        eight
    } else {
        last_codewords(codewords, first)
    };
    let ninth = u64::from(codewords.get(first + 8).copied().unwrap_or(0));
    bits << skipped | ninth >> (8 - skipped)
}

// Bit `number` of the codewords. After the last codeword all bits are 0, so the remainder bits are 0 before a mask is
// applied.
#[tactic(auto, unfolding(qr_matrix::specs::BitRow::has_bit), using(crate::proofs::Named::word_bits))]
pub(crate) fn bit_at(codewords: &[u8], number: usize) -> bool
    ensures { result ≡ codeword_bit codewords.now number }
{
    let codeword = codewords.get(number / 8).copied().unwrap_or(0);
    codeword >> (7 - number % 8) & 1 == 1
}

// Collects bits into codewords. The first bit of a codeword is its highest. If an allocation is refused, the collector
// remembers this until `into_codewords` returns the error, so the functions that append bits return no error.
#[derive(Drop)]
pub(crate) struct Collector {
    whole: Vec<u8>,
    // The `width` bits after the last whole codeword, as a number.
    rest: u8,
    width: u8,
    is_refused: bool,
}

impl Model for Collector {
    ghost use Rattle.std.specs.Prelude.{None, Some, if◌then◌else◌, ◌++◌, ◌<◌, ◌^◌};
    ghost use Rattle.std.specs.List.{All};
    ghost use Rattle.std.specs.Vec.{vec_capacity};
    ghost use Rattle.qr_bits.specs.Bits.{bits_of, field};
    ghost use Rattle.qr_symbol.specs.Steps.Words.{Collected};

    ghost Value = { Collected };

    ghost view = { λ b. record {
      bits = if b.is_refused then None else Some (bits_of b.whole.items ++ field b.width b.rest);
      room = vec_capacity b.whole;
    } };

    ghost invariant = { λ b. (b.width < 8) × (b.rest < 2 ^ b.width) × All (λ x. x < 256) b.whole.items };
}

impl Collector {
    // Allocates the memory for `count` codewords, so that collecting them needs no other allocation.
    #[tactic(auto, unfolding(qr_bits::specs::Bits::bits_of, qr_bits::specs::Bits::field))]
    pub(crate) fn with_capacity(alloc: Global, count: usize) -> Result<Collector, AllocError>
        ensures { IfOk result (HasCollected count []) }
    {
        Ok(Collector {
            whole: Vec::with_capacity(alloc, count)?,
            rest: 0,
            width: 0,
            is_refused: false,
        })
    }

    pub(crate) fn push_bit(&mut self, dark: bool)
        ensures { Appends (dark ∷ []) self.old self.new }
    {
        let bits = 2 * self.rest + u8::from(dark);
        if self.width < 7 {
            self.rest = bits;
            self.width += 1;
        } else {
            self.is_refused |= self.whole.push(bits).is_err();
            self.rest = 0;
            self.width = 0;
        }
    }

    // Appends the `count` lowest bits of `bits`, the highest of them first. The bits of `rest` come before them, so
    // there are at most 63 bits in all. All of these are moved to the upper end of a word of 64 bits. The first bytes
    // of this word are then the next codewords.
    #[inline(always)]
    pub(crate) fn push_bits(&mut self, bits: u64, count: u8)
        requires some { 1 ≤ count }
        requires few { count ≤ 56 }
        ensures { Appends (field count bits) self.old self.new }
    {
        let all = (u64::from(self.rest) << count) + bits % (1 << count);
        let width = self.width + count;
        let left = width % 8;
        let codewords = (all << (64 - width)).to_be_bytes();
        self.is_refused |= self
            .whole
            .extend_from_slice(&codewords[..usize::from(width / 8)])
            .is_err();
        self.rest = (all % (1 << left)) as u8;
        self.width = left;
    }

    // Returns the whole codewords, or an error if an allocation was refused. The bits after the last whole codeword are
    // the remainder bits, at most seven, and are dropped.
    pub(crate) fn into_codewords(self) -> Result<Vec<u8>, AllocError>
        ensures ok { IfOk result (λ cw. (w : ℕ) × (rest : ℕ) × (w < 8) × All (λ x. x < 256) cw.items
            × (self.bits ≡ Some (bits_of cw.items ++ field w rest))) }
        ensures err { IsErr result → self.bits ≡ None }
    {
        let Collector {
            whole,
            is_refused,
            ..
        } = self;
        if is_refused {
            // Memory was refused in an earlier call of `push_bit` or `push_bits`. These return no error.
            Err(AllocError)
        } else {
            Ok(whole)
        }
    }
}
