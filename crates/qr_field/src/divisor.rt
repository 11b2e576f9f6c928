//! The division by a generator polynomial, as a shift register does it, one codeword at a time (ISO/IEC 18004:2015,
//! 7.5.2). Each step shifts the register by one coefficient, and adds a multiple of the polynomial. The factor of this
//! multiple can be any of the 256 elements of the field. But an element is the sum of its low four bits and its high
//! four bits, so two tables of 16 multiples each are enough. The tables are computed once for all blocks.

ghost use Rattle.std.specs.Prelude.{◌≡◌, ◌+◌, ◌<◌, ◌≤◌, ℕ, List, length, slice_index_or, take};
ghost use Rattle.qr_field.specs.Steps.Register.{HasMultiples, IsHeld, divisor_of, unpacked, value_of};
ghost use Rattle.qr_field.specs.Polynomial.{IsCorrection};

use crate::polynomial::generator;
use crate::register::Register;
use arrayvec::ArrayVec;
use std::marker::Model;

/// A generator polynomial, with the tables for dividing any number of blocks by it. In contracts its value is the
/// number of error correction codewords of a block.
#[derive(Drop)]
pub struct Divisor {
    count: usize,
    // At the index f, `low` has the products of f and each coefficient of the generator polynomial after its leading 1.
    // At the same index, `high` has the products of 16f and each of these coefficients. 16f is the element whose high
    // four bits are the four bits of f, and whose low four bits are 0.
    low: [Register; 16],
    high: [Register; 16],
}

impl Model for Divisor {
    ghost use Rattle.std.specs.Prelude.{◌≤◌, ℕ};
    ghost use Rattle.qr_field.specs.Steps.Register.{HasMultiples, divisor_of};

    ghost Value = { ℕ };

    ghost view = { λ d. d.count };

    ghost invariant = { λ d. (1 ≤ d.count) × (d.count ≤ 30) × HasMultiples (divisor_of d.count) 0 16 d.low
        × HasMultiples (divisor_of d.count) 4 16 d.high };
}

// Returns the products of `by_one` and each of the elements 0 to 15. Each product is a sum of some of the products with
// 1, 2, 4 and 8.
fn multiples(by_one: Register) -> [Register; 16]
    ensures { HasMultiples (unpacked 32 (value_of by_one)) 0 16 result }
{
    let mut multiples = [Register::BLANK; 16];
    let mut by_bit = by_one;
    for exponent in 0..4u8 {
        let bit = 1usize << exponent;
        for rest in 0..bit {
            multiples[bit + rest] = multiples[rest].plus(by_bit);
        }
        by_bit = by_bit.doubled();
    }
    multiples
}

impl Divisor {
    /// Returns the divisor for blocks with `n` error correction codewords, where `n` is 1 to 30.
    pub fn new(n: usize) -> Divisor
        requires least { 1 ≤ n }
        requires most { n ≤ 30 }
        ensures { result ≡ n }
    {
        let by_one = Register::new(generator(n).as_slice());
        let by_sixteen = by_one.doubled().doubled().doubled().doubled();
        Divisor {
            count: n,
            low: multiples(by_one),
            high: multiples(by_sixteen),
        }
    }

    /// Returns the number of error correction codewords of a block, which is 1 to 30.
    pub fn count(&self) -> usize
        ensures is { result ≡ self.now }
        ensures least { 1 ≤ result }
        ensures most { result ≤ 30 }
    {
        self.count
    }

    // Returns the register after one more codeword. In the contract, `m` lists the data codewords of the block. If the
    // register held the remainder for the first `i` of them, the result holds the remainder for the first `i + 1`.
    #[inline(always)]
    fn step(&self, register: Register, codeword: u8) -> Register
        ensures { (m : List ℕ) (i : ℕ) → i < length m → codeword ≡ slice_index_or m i 0
            → IsHeld (take i m) self.now (value_of register)
            → IsHeld (take (i + 1) m) self.now (value_of result) }
    {
        // Only for the prover.
        prove!(self.count >= 1);
        // The first coefficient of the register. The mask before the cast is for the prover.
        let first = (register.low & 0xFF) as u8;
        let factor = usize::from(codeword ^ first);
        let multiple = self.low[factor & 0xF].plus(self.high[factor >> 4]);
        register.rest().plus(multiple)
    }

    // Ends a division, and returns its remainder. `register` holds the remainder for the first `done` codewords of
    // `message`.
    #[inline(always)]
    fn finished(&self, register: Register, message: &[u8], done: usize) -> ArrayVec<u8, 30>
        requires done { done ≤ length message.now }
        requires held { IsHeld (take done message.now) self.now (value_of register) }
        ensures { IsCorrection message.now self.now result.items }
    {
        let mut register = register;
        for index in done..message.len() {
            register = self.step(register, message[index]);
        }
        register.coefficients(self.count)
    }

    /// Returns the error correction codewords of a block with the data codewords `message`. They are the one list of
    /// `count` bytes that, appended to `message`, makes a multiple of the generator polynomial (ISO/IEC 18004:2015,
    /// 7.5.2).
    pub fn correction(&self, message: &[u8]) -> ArrayVec<u8, 30>
        ensures definition { IsCorrection message.now self.now result.items }
        ensures only { (e : List ℕ) → IsCorrection message.now self.now e → e ≡ result.items }
    {
        self.finished(Register::BLANK, message, 0)
    }

    /// Returns the error correction codewords of two blocks, whose data codewords are `first` and `second`, as
    /// `correction` does for one block (ISO/IEC 18004:2015, 7.5.2).
    ///
    /// # Notes
    ///
    /// The two divisions together take little longer than one alone. A step of a division has to wait for the step
    /// before it, but not for the steps of the other division.
    pub fn corrections(&self, first: &[u8], second: &[u8]) -> (ArrayVec<u8, 30>, ArrayVec<u8, 30>)
        ensures first { IsCorrection first.now self.now result.0.items }
        ensures second { IsCorrection second.now self.now result.1.items }
    {
        let both = first.len().min(second.len());
        let mut left = Register::BLANK;
        let mut right = Register::BLANK;
        for index in 0..both {
            left = self.step(left, first[index]);
            right = self.step(right, second[index]);
        }
        (
            self.finished(left, first, both),
            self.finished(right, second, both),
        )
    }
}
