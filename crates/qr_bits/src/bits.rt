//! Writes bits into codewords, and reads bits from codewords. The most significant bit of each codeword is its first
//! (ISO/IEC 18004:2015, 7.4.10).

ghost use Rattle.std.specs.Prelude.{Bool, IfOk, List, OnOk, [], drop, length, take, ◌%◌, ◌*◌, ◌++◌, ◌+◌, ◌-◌, ◌<◌, ◌^◌, ◌≡◌, ◌≤◌};
ghost use Rattle.std.specs.List.{slice_index_or};
ghost use Rattle.qr_bits.specs.Padding.{filled};
ghost use Rattle.qr_bits.specs.Bits.{bits_of, field, value};
ghost use Rattle.qr_bits.specs.Parsing.{bytes_of};

use crate::modes::{STRUCTURED_APPEND, TERMINATOR};
use std::alloc::{AllocError, Global};
use std::marker::Model;

// Collects bits into codewords. In contracts the value of a writer is the list of the bits that were written so far.
#[derive(Drop)]
pub(crate) struct BitWriter {
    whole: Vec<u8>,
    // The `width` bits after the last whole codeword, as a number.
    rest: u8,
    width: u8,
}

impl Model for BitWriter {
    ghost Value = { List Bool };

    ghost view = { λ w. bits_of w.whole.items ++ field w.width w.rest };

    ghost invariant = { λ w. (w.width < 8) × (w.rest < 2 ^ w.width) };
}

impl BitWriter {
    // Returns a writer with room for `len` codewords. No later call allocates memory until there are more codewords
    // than `len`.
    #[tactic(auto, unfolding(crate::specs::Bits::bits_of, crate::specs::Bits::field))]
    pub(crate) fn with_capacity(alloc: Global, len: usize) -> Result<Self, AllocError>
        requires { len < 2 ^ 16 }
        ensures { IfOk result (λ bits. bits ≡ []) }
    {
        Ok(BitWriter {
            whole: Vec::with_capacity(alloc, len)?,
            rest: 0,
            width: 0,
        })
    }

    // Writes the lowest `width` bits of `number`, the most significant first. The higher bits may have any value.
    #[tactic(auto, using(crate::proofs::Named::writing_bits))]
    pub(crate) fn put(&mut self, width: u8, number: u16) -> Result<(), AllocError>
        requires { width ≤ 16 }
        ensures { OnOk result (self.new ≡ self.old ++ field width number) }
    {
        let size = 1u32 << width;
        // `bits` has at most 23 bits: up to 7 from `rest`, and up to 16 from `number`.
        let bits = size * u32::from(self.rest) + u32::from(number) % size;
        let mut left = self.width + width;
        let whole = &mut self.whole;
        while left >= 8 {
            left -= 8;
            whole.push(((bits >> left) % 256) as u8)?;
        }
        self.rest = (bits % (1 << left)) as u8;
        self.width = left;
        Ok(())
    }

    // Writes the bits of `bytes`. The number of bits after the last whole codeword stays the same, because each byte
    // adds eight bits.
    #[tactic(auto, unfolding(crate::specs::Bits::bits_of))]
    pub(crate) fn put_bytes(&mut self, bytes: &[u8]) -> Result<(), AllocError>
        ensures { OnOk result (self.new ≡ self.old ++ bits_of bytes.now) }
    {
        let width = self.width;
        let size = 1u16 << width;
        let mut rest = self.rest;
        let whole = &mut self.whole;
        for byte in bytes {
            let bits = 256 * u16::from(rest) + u16::from(*byte);
            whole.push((bits >> width) as u8)?;
            rest = (bits % size) as u8;
        }
        self.rest = rest;
        Ok(())
    }

    // Fills the last codeword with zeros, if it is not whole, and returns the codewords (ISO/IEC 18004:2015, 7.4.10).
    pub(crate) fn into_codewords(mut self) -> Result<Vec<u8>, AllocError>
        ensures { IfOk result (λ whole. bits_of whole.items ≡ filled self) }
    {
        let width = self.width;
        self.put((8 - width) % 8, 0)?;
        let BitWriter { whole, .. } = self;
        Ok(whole)
    }
}

// The byte at the index `i`, or 0 after the last byte.
#[inline(always)]
fn byte_at(bytes: &[u8], i: usize) -> u32
    ensures value { result ≡ slice_index_or bytes.now i 0 }
    ensures most { result < 256 }
{
    if i < bytes.len() {
        u32::from(bytes[i])
    } else {
        0
    }
}

// The three bytes from the index `at` on, as a number of 24 bits. A byte past the end counts as 0. The three bytes
// contain any 16 neighbouring bits that begin in the first of them. What the contract says of the second and the third
// byte is for the prover.
#[inline(always)]
fn three_bytes(bytes: &[u8], at: usize) -> u32
    requires { at ≤ length bytes.now }
    ensures value { result ≡ 65536 * slice_index_or bytes.now at 0 + (256 * slice_index_or bytes.now (at + 1) 0 + slice_index_or bytes.now (at + 2) 0) }
    ensures most { result < 2 ^ 24 }
    ensures second { slice_index_or bytes.now (at + 1) 0 < 256 }
    ensures third { slice_index_or bytes.now (at + 2) 0 < 256 }
{
    65536 * byte_at(bytes, at) + 256 * byte_at(bytes, at + 1) + byte_at(bytes, at + 2)
}

// Appends `count` bytes that are cut out of `bytes` from the bit with the index `at` on. If `at` is not a multiple of
// 8, each appended byte consists of the last bits of one byte of `bytes` and the first bits of the next.
fn push_bytes_at(out: &mut Vec<u8>, bytes: &[u8], at: usize, count: usize) -> Result<(), AllocError>
    requires { at + 8 * count ≤ 8 * length bytes.now }
    ensures { OnOk result (out.new.items ≡ out.old.items ++ bytes_of count (drop at (bits_of bytes.now))) }
{
    let first = at / 8;
    let left = 8 - at % 8;
    let mut high = byte_at(bytes, first);
    for i in 0..count {
        let low = byte_at(bytes, first + i + 1);
        let two = 256 * high + low;
        out.push(((two >> left) % 256) as u8)?;
        high = low;
    }
    Ok(())
}

// Reads bits from at most 3,706 codewords, as many as the largest symbol has. In contracts the value of a reader is the
// list of the bits that are not read yet.
#[derive(Drop)]
pub(crate) struct BitReader<'a> {
    bytes: &'a [u8],
    // The index of the next bit.
    at: usize,
}

impl<'a> Model for BitReader<'a> {
    ghost Value = { List Bool };

    ghost view = { λ r. drop r.at (bits_of r.bytes.now) };

    ghost invariant = { λ r. (r.at ≤ 8 * length r.bytes.now) × (length r.bytes.now ≤ 3706) };
}

impl<'a> BitReader<'a> {
    ghost use Rattle.qr_bits.specs.Parsing.{begins_header, ends};

    pub(crate) fn new(bytes: &'a [u8]) -> Self
        requires { length bytes.now ≤ 3706 }
        ensures { result ≡ bits_of bytes.now }
    {
        BitReader { bytes, at: 0 }
    }

    #[tactic(auto, using(crate::proofs::lemmas::bits::BitLemmas::left_at))]
    pub(crate) fn len(&self) -> usize
        ensures { result ≡ length self.now }
    {
        8 * self.bytes.len() - self.at
    }

    // Reads `width` bits as a number, the most significant first.
    pub(crate) fn take(&mut self, width: usize) -> u16
        requires { (width ≤ length self.old) × (width ≤ 16) }
        ensures value { result ≡ value (take width self.old) }
        ensures small { result < 2 ^ width }
        ensures rest { self.new ≡ drop width self.old }
    {
        let after = 24 - self.at % 8 - width;
        let bits = three_bytes(self.bytes, self.at / 8) >> after;
        self.at += width;
        (bits % (1 << width)) as u16
    }

    // Reads `count` bytes and appends them to `out`.
    pub(crate) fn take_bytes(&mut self, count: usize, out: &mut Vec<u8>) -> Result<(), AllocError>
        requires { 8 * count ≤ length self.old }
        ensures { OnOk result ((out.new.items ≡ out.old.items ++ bytes_of count self.old)
            × (self.new ≡ drop (8 * count) self.old)) }
    {
        push_bytes_at(out, self.bytes, self.at, count)?;
        self.at += 8 * count;
        Ok(())
    }

    // Whether nothing more is to be read: the terminator follows, or fewer than four bits are left (ISO/IEC 18004:2015,
    // 7.4.9).
    #[tactic(auto, unfolding(crate::specs::Parsing::ends))]
    pub(crate) fn ends(&self) -> bool
        ensures { result ≡ ends self.now }
    {
        self.len() < 4 || self.indicator() == TERMINATOR
    }

    // Whether the mode indicator of structured append follows (ISO/IEC 18004:2015, 8.1).
    #[tactic(auto, unfolding(crate::specs::Parsing::begins_header))]
    pub(crate) fn begins_header(&self) -> bool
        ensures { result ≡ begins_header self.now }
    {
        self.len() >= 4 && self.indicator() == STRUCTURED_APPEND
    }

    // The next four bits as a number, which is a mode indicator or the terminator. The reader does not move on.
    pub(crate) fn indicator(&self) -> u16
        requires { 4 ≤ length self.now }
        ensures { result ≡ value (take 4 self.now) }
    {
        let mut ahead = BitReader {
            bytes: self.bytes,
            at: self.at,
        };
        ahead.take(4)
    }
}
