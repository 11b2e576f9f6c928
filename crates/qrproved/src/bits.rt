//! Squares of modules as bits of a buffer: one bit for each module, row by row, without gaps between two rows. The first
//! module is the highest bit of the first byte. A bit that is 1 is a dark module.

ghost use Rattle.std.specs.Prelude.{◌≡◌, ℕ, ◌+◌, ◌-◌, ◌*◌, ◌/◌, ◌<◌, ◌≤◌, false, length, slice_index_or};
ghost use Rattle.qr_matrix.specs.BitRow.{has_bit};
ghost use Rattle.qr_matrix.specs.Grid.{colour};
ghost use Rattle.qrproved.specs.Bits.{HoldsBits, bit_of, bytes_of_bits, square_of_bits};

use crate::modules::area;
use qr_drawing::Eights;
use qr_matrix::Matrix;
use std::marker::Model;

/// Returns the number of bytes that have the bits of a square of `side` rows.
pub(crate) fn bits_len(side: u8) -> usize
    ensures value { result ≡ bytes_of_bits side }
    ensures most { result ≤ 8192 }
{
    (area(side) + 7) / 8
}

// Each number of four bits with its bits in the other order.
static REVERSED: [u8; 16] = [0, 8, 4, 12, 2, 10, 6, 14, 1, 9, 5, 13, 3, 11, 7, 15];

// Returns the eight bits in the other order.
#[tactic(auto, using(crate::proofs::lemmas::bits::bits_reversed))]
fn reversed(bits: u8) -> u8
    ensures { (k : ℕ) → k < 8 → has_bit result k ≡ has_bit bits (7 - k) }
{
    REVERSED[usize::from(bits % 16)] << 4 | REVERSED[usize::from(bits / 16)]
}

// Writes eight bits from bit `at` on, the highest first. If they end in the byte after the one in which they begin, its
// other bits become 0. Bits from `8 * len` on are left out.
fn put_eight(bits: &mut [u8], len: usize, at: usize, eight: u8)
    requires start { at < 8 * len }
    requires room { len ≤ length bits.old }
    requires clear { (k : ℕ) → at ≤ k → k < 8 * (at / 8 + 1) → bit_of bits.old k ≡ false }
    ensures long { length bits.new ≡ length bits.old }
    ensures before { (k : ℕ) → k < at → bit_of bits.new k ≡ bit_of bits.old k }
    ensures here { (k : ℕ) → k < 8 → at + k < 8 * len → bit_of bits.new (at + k) ≡ has_bit eight (7 - k) }
    ensures after { (k : ℕ) → at + 8 ≤ k → k < 8 * (at / 8 + 2) → k < 8 * len → bit_of bits.new k ≡ false }
    ensures others { (i : ℕ) → len ≤ i → slice_index_or bits.new i 0 ≡ slice_index_or bits.old i 0 }
{
    let byte = at / 8;
    let both = u16::from(eight) * 256 >> (at % 8);
    bits[byte] |= (both / 256) as u8;
    if byte + 1 < len {
        bits[byte + 1] = (both % 256) as u8;
    }
}

// Writes a row from bit `start` on, eight modules at a time.
fn write_row(matrix: &Matrix, row: u8, start: usize, len: usize, bits: &mut [u8])
    requires row_in { row < matrix.now.side }
    requires room { start + matrix.now.side ≤ 8 * len }
    requires len_in { len ≤ length bits.old }
    requires short { len ≤ 8192 }
    requires clear { (k : ℕ) → start ≤ k → k < 8 * (start / 8 + 1) → k < 8 * len → bit_of bits.old k ≡ false }
    ensures long { length bits.new ≡ length bits.old }
    ensures before { (k : ℕ) → k < start → bit_of bits.new k ≡ bit_of bits.old k }
    ensures modules { (col : ℕ) → col < matrix.now.side → bit_of bits.new (start + col) ≡ colour matrix.now row col }
    ensures clear { (k : ℕ) → start + matrix.now.side ≤ k → k < 8 * ((start + matrix.now.side) / 8 + 1) → k < 8 * len
        → bit_of bits.new k ≡ false }
    ensures others { (i : ℕ) → len ≤ i → slice_index_or bits.new i 0 ≡ slice_index_or bits.old i 0 }
{
    // Only for the prover, which learns here that the modules after the last column are light.
    let _ = matrix.bit_row(usize::from(row));
    let side = matrix.side();
    let mut col = 0;
    while col < side {
        let eight = reversed(matrix.eight(row, col));
        put_eight(bits, len, start + usize::from(col), eight);
        col += 8;
    }
}

/// Writes the modules of a square to the beginning of `bits` as bits. The bits that are left in the last byte become 0.
// It is never inlined, as `write_square` is not.
#[inline(never)]
pub(crate) fn write_bits(matrix: &Matrix, bits: &mut [u8])
    requires { bytes_of_bits matrix.now.side ≤ length bits.old }
    ensures { HoldsBits matrix.now bits.old bits.new }
{
    let side = matrix.side();
    let len = bits_len(side);
    bits[0] = 0;
    let mut start = 0;
    for row in 0..side {
        write_row(matrix, row, start, len, bits);
        start += usize::from(side);
    }
}

/// A square of 1 to 177 modules on a side, whose modules are the first bits of a buffer. Contracts see it as a grid.
#[derive(Drop)]
pub(crate) struct Bits<'a> {
    side: u8,
    bytes: &'a [u8],
}

impl<'a> Model for Bits<'a> {
    ghost use Rattle.std.specs.Prelude.{◌≤◌, length};
    ghost use Rattle.qr_matrix.specs.Grid.{Grid};
    ghost use Rattle.qrproved.specs.Bits.{bytes_of_bits, square_of_bits};

    ghost Value = { Grid };

    ghost view = { λ m. square_of_bits m.side m.bytes.now };

    ghost invariant = { λ m. (1 ≤ m.side) × (m.side ≤ 177) × (bytes_of_bits m.side ≤ length m.bytes.now) };
}

impl<'a> Bits<'a> {
    /// Returns the square that the bits of `bytes` begin with. Bits after the square have no meaning.
    pub(crate) fn new(bytes: &'a [u8], side: u8) -> Bits<'a>
        requires least { 1 ≤ side }
        requires most { side ≤ 177 }
        requires room { bytes_of_bits side ≤ length bytes.now }
        ensures { result ≡ square_of_bits side bytes.now }
    {
        Bits { side, bytes }
    }
}

impl<'a> Eights for Bits<'a> {
    ghost seen = { λ m. m };

    fn side(&self) -> u8 {
        self.side
    }

    fn eight(&self, row: u8, col: u8) -> u8 {
        let at = usize::from(row) * usize::from(self.side) + usize::from(col);
        let byte = at / 8;
        let first = self.bytes[byte];
        // After the last byte there are no modules, and any bits will do.
        let second = if byte + 1 < self.bytes.len() {
            self.bytes[byte + 1]
        } else {
            0
        };
        let both = u16::from(first) * 256 + u16::from(second);
        reversed(((both >> (8 - at % 8)) % 256) as u8)
    }
}
