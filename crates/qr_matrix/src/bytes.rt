//! The modules of a square as bytes, row by row. A dark module is written as 1 and a light one as 0. When bytes are
//! read, every byte but 0 means a dark module, and the byte 2 also means that the module is not known.
//!
//! Eight modules are read or written at once, by operations on numbers of 64 bits. Every processor has such operations,
//! so the code needs no vectors. At the end of a row, such an operation also reads or overwrites bytes of the rows that
//! follow. (Those rows are written later, so nothing is lost.) The last rows have too few bytes after them, and are
//! read and written module by module. A row is also read module by module if a byte that would be read with it is
//! neither 0 nor 1.

ghost use Rattle.std.specs.Prelude.{◌≡◌, ℕ, ◌+◌, ◌*◌, ◌<◌, ◌≤◌, ◌⊎◌, ◌&&◌, ◌==◌, not, false, nat_lt, length, slice_index_or, IfOk, IfSome};
ghost use Rattle.qr_matrix.specs.Grid.{colour};
ghost use Rattle.qr_matrix.specs.BitRow.{has, has_bit};
ghost use Rattle.qr_matrix.specs.Bytes.{byte_of, square_of_bytes, square_of_unknown};

use crate::bit_row::BitRow;
use crate::matrix::Matrix;
use crate::rows::{Rows, and_not};
use std::alloc::{AllocError, Global};

const LIGHT: u8 = 0;

const NOT_KNOWN: u8 = 2;

// All bits of a number of eight bytes, except the lowest bit of each byte. If each byte is 0 or 1, these bits are 0.
const MORE: u64 = 0xFEFE_FEFE_FEFE_FEFE;

// If a number of eight bytes is multiplied by this number, the lowest bit of byte k comes to bit k of the highest byte.
// If each byte is 0 or 1, nothing is carried into the highest byte.
const GATHER: u64 = 0x0102_0408_1020_4080;

// The number whose bit k is 1 exactly if byte `at + k` is 1, for each k below 8; `None` if one of these bytes is
// neither 0 nor 1.
#[inline(always)]
fn eight_bits(bytes: &[u8], at: usize) -> Option<u64>
    requires { at + 8 ≤ length bytes.now }
    ensures small { IfSome result (λ bits. bits < 256) }
    ensures bits { IfSome result (λ bits. (k : ℕ) → k < 8
        → slice_index_or bytes.now (at + k) 0 ≡ byte_of (has_bit bits k)) }
{
    let eight = u64::from_le_bytes([
        bytes[at],
        bytes[at + 1],
        bytes[at + 2],
        bytes[at + 3],
        bytes[at + 4],
        bytes[at + 5],
        bytes[at + 6],
        bytes[at + 7],
    ]);
    if eight & MORE != 0 {
        return None;
    }
    Some(eight.wrapping_mul(GATHER) >> 56)
}

// The word whose bit k is 1 exactly if byte `start + k` is 1, for each k below 64; `None` if one of these bytes is
// neither 0 nor 1.
fn word_of(bytes: &[u8], start: usize) -> Option<u64>
    requires { start + 64 ≤ length bytes.now }
    ensures { IfSome result (λ word. (k : ℕ) → k < 64
        → slice_index_or bytes.now (start + k) 0 ≡ byte_of (has_bit word k)) }
{
    let mut word = 0;
    for part in 0..8usize {
        word |= eight_bits(bytes, start + 8 * part)? << (8 * part);
    }
    Some(word)
}

// Returns the row of `side` modules from byte `start` on. It is read 64 bytes at a time, so bytes after the row are
// read too. Returns `None` if byte `end` would have to be read, or if a byte that is read is neither 0 nor 1.
#[inline(always)]
fn row_by_words(bytes: &[u8], start: usize, end: usize, side: u8) -> Option<BitRow>
    requires least { 1 ≤ side }
    requires most { side ≤ 177 }
    requires room { start + side ≤ end }
    requires end_in { end ≤ length bytes.now }
    ensures bits { IfSome result (λ row. (c : ℕ) → c < side
        → slice_index_or bytes.now (start + c) 0 ≡ byte_of (has row c)) }
    ensures past { IfSome result (λ row. (c : ℕ) → side ≤ c → has row c ≡ false) }
{
    let words = usize::from(side.div_ceil(64));
    if end - start < 64 * words {
        return None;
    }
    let mut row = BitRow::EMPTY;
    for number in 0..words {
        row.put_word(number, word_of(bytes, start + 64 * number)?);
    }
    Some(row & BitRow::below(side))
}

// A row begins at index `start` of `bytes`, with a byte for each of its `side` modules. Returns the columns of this row
// whose byte is `byte`. It looks at one module after the other. This function is not inlined, because few rows need it,
// and because a single copy of it makes the code for WebAssembly shorter, which is sent over the network.
#[inline(never)]
fn modules_of(bytes: &[u8], start: usize, side: u8, byte: u8) -> BitRow
    requires room { start + side ≤ length bytes.now }
    requires most { side ≤ 177 }
    ensures { (c : ℕ) → has result c ≡ (nat_lt c side && slice_index_or bytes.now (start + c) 0 == byte) }
{
    let mut row = BitRow::EMPTY;
    for col in 0..side {
        row.put(col, bytes[start + usize::from(col)] == byte);
    }
    row
}

// The columns of the dark modules of the row from byte `start` on, and the columns of its modules that are not known.
// Bytes from `end` on are not read.
#[inline(always)]
fn rows_of(bytes: &[u8], start: usize, end: usize, side: u8) -> (BitRow, BitRow)
    requires least { 1 ≤ side }
    requires most { side ≤ 177 }
    requires room { start + side ≤ end }
    requires end_in { end ≤ length bytes.now }
    ensures dark { (c : ℕ) → has result.0 c ≡ (nat_lt c side && not (slice_index_or bytes.now (start + c) 0 == 0)) }
    ensures unknown { (c : ℕ) → has result.1 c ≡ (nat_lt c side && slice_index_or bytes.now (start + c) 0 == 2) }
{
    match row_by_words(bytes, start, end, side) {
        Some(row) => (row, BitRow::EMPTY),
        None => {
            let light = modules_of(bytes, start, side, LIGHT);
            let unknown = modules_of(bytes, start, side, NOT_KNOWN);
            (and_not(BitRow::below(side), light), unknown)
        }
    }
}

/// Returns the square that `bytes` begins with, row by row: every byte but 0 is a dark module. Bytes after the square
/// are not read.
///
/// # Errors
///
/// `AllocError` if memory is refused.
pub fn matrix_of_bytes(alloc: Global, bytes: &[u8], side: u8) -> Result<Matrix, AllocError>
    requires least { 1 ≤ side }
    requires most { side ≤ 177 }
    requires room { side * side ≤ length bytes.now }
    ensures { IfOk result (λ m. m ≡ square_of_bytes side bytes.now) }
{
    let mut matrix = Matrix::new(alloc, side)?;
    let end = usize::from(side) * usize::from(side);
    let mut start = 0;
    for row in 0..side {
        let (dark, _) = rows_of(bytes, start, end, side);
        matrix.set_bit_row(row, dark);
        start += usize::from(side);
    }
    Ok(matrix)
}

/// Returns the square that `bytes` begins with, as `matrix_of_bytes` does, and a second square. In the second square a
/// module is dark exactly if its byte is 2, which means that the module is not known.
///
/// # Errors
///
/// `AllocError` if memory is refused.
pub fn matrices_of_bytes(
    alloc: Global,
    bytes: &[u8],
    side: u8,
) -> Result<(Matrix, Matrix), AllocError>
    requires least { 1 ≤ side }
    requires most { side ≤ 177 }
    requires room { side * side ≤ length bytes.now }
    ensures dark { IfOk result (λ both. both.0 ≡ square_of_bytes side bytes.now) }
    ensures unknown { IfOk result (λ both. both.1 ≡ square_of_unknown side bytes.now) }
{
    let mut matrix = Matrix::new(alloc, side)?;
    let mut unknown = Matrix::new(alloc, side)?;
    let end = usize::from(side) * usize::from(side);
    let mut start = 0;
    for row in 0..side {
        let (dark, not_known) = rows_of(bytes, start, end, side);
        matrix.set_bit_row(row, dark);
        unknown.set_bit_row(row, not_known);
        start += usize::from(side);
    }
    Ok((matrix, unknown))
}

// A number of eight bytes, each of which is 1. Multiplied by a byte, it gives eight copies of this byte.
const ONES: u64 = 0x0101_0101_0101_0101;

// Byte `k` of the result is bit `k` of `bits`. The product with `ONES` has eight copies of `bits`. Of copy `k`, counted
// from 0 at the lowest byte, only bit `k` is kept. Then 7F (hexadecimal) is added to each byte, which sets the highest
// bit of the byte exactly if the kept bit is 1. This highest bit becomes the lowest bit of the byte.
#[inline(always)]
fn eight_bytes(bits: u64) -> [u8; 8]
    requires { bits < 256 }
    ensures { (k : ℕ) → k < 8 → slice_index_or result k 0 ≡ byte_of (has_bit bits k) }
{
    let kept = bits.wrapping_mul(ONES) & 0x8040_2010_0804_0201;
    let carried = kept.wrapping_add(0x7F7F_7F7F_7F7F_7F7F);
    (carried >> 7 & ONES).to_le_bytes()
}

// Writes the lowest `count` bits of a word as bytes, from byte `at` on. Eight bytes are written at a time, so up to
// seven bytes after the last one may change too.
#[inline(always)]
fn write_word(word: u64, count: u8, at: usize, bytes: &mut [u8])
    requires most { count ≤ 64 }
    requires room { at + count + 7 ≤ length bytes.old }
    ensures written { (k : ℕ) → k < count → slice_index_or bytes.new (at + k) 0 ≡ byte_of (has_bit word k) }
    ensures others { (i : ℕ) → (i < at) ⊎ (at + count + 7 ≤ i)
        → slice_index_or bytes.new i 0 ≡ slice_index_or bytes.old i 0 }
{
    let mut rest = word;
    let mut next = at;
    while next < at + usize::from(count) {
        bytes[next..next + 8].copy_from_slice(&eight_bytes(rest % 256));
        rest >>= 8;
        next += 8;
    }
}

// Writes a row as bytes, from byte `start` on. Up to seven bytes after the row may change too.
fn write_words(matrix: &Matrix, row: usize, start: usize, bytes: &mut [u8])
    requires row_in { row < matrix.now.side }
    requires room { start + matrix.now.side + 7 ≤ length bytes.old }
    ensures modules { (col : ℕ) → col < matrix.now.side
        → slice_index_or bytes.new (start + col) 0 ≡ byte_of (colour matrix.now row col) }
    ensures others { (i : ℕ) → (i < start) ⊎ (start + matrix.now.side + 7 ≤ i)
        → slice_index_or bytes.new i 0 ≡ slice_index_or bytes.old i 0 }
{
    for number in 0..matrix.side().div_ceil(64) {
        let col = 64 * number;
        let count = (matrix.side() - col).min(64);
        let word = matrix.word(row, usize::from(number));
        write_word(word, count, start + usize::from(col), bytes);
    }
}

// Writes a row module by module.
#[inline(never)]
fn write_modules(matrix: &Matrix, row: u8, start: usize, bytes: &mut [u8])
    requires row_in { row < matrix.now.side }
    requires room { start + matrix.now.side ≤ length bytes.old }
    ensures modules { (col : ℕ) → col < matrix.now.side
        → slice_index_or bytes.new (start + col) 0 ≡ byte_of (colour matrix.now row col) }
    ensures others { (i : ℕ) → (i < start) ⊎ (start + matrix.now.side ≤ i)
        → slice_index_or bytes.new i 0 ≡ slice_index_or bytes.old i 0 }
{
    for col in 0..matrix.side() {
        bytes[start + usize::from(col)] = u8::from(matrix.dark(row, col));
    }
}

// Writes a row as bytes, from byte `start` on, and changes no byte from byte `end` on.
fn write_row(matrix: &Matrix, row: u8, start: usize, end: usize, bytes: &mut [u8])
    requires row_in { row < matrix.now.side }
    requires room { start + matrix.now.side ≤ end }
    requires end_in { end ≤ length bytes.old }
    ensures modules { (col : ℕ) → col < matrix.now.side
        → slice_index_or bytes.new (start + col) 0 ≡ byte_of (colour matrix.now row col) }
    ensures others { (i : ℕ) → (i < start) ⊎ (end ≤ i)
        → slice_index_or bytes.new i 0 ≡ slice_index_or bytes.old i 0 }
{
    if end - start >= usize::from(matrix.side()) + 7 {
        write_words(matrix, usize::from(row), start, bytes);
    } else {
        write_modules(matrix, row, start, bytes);
    }
}

/// Writes the modules to `bytes`, row by row from byte `start` on: 1 for a dark module, and 0 for a light one. All
/// other bytes stay the same.
pub fn write_square(matrix: &Matrix, start: usize, bytes: &mut [u8])
    requires { start + matrix.now.side * matrix.now.side ≤ length bytes.old }
    ensures modules { (row col : ℕ) → row < matrix.now.side → col < matrix.now.side
        → slice_index_or bytes.new (start + (row * matrix.now.side + col)) 0
        ≡ byte_of (colour matrix.now row col) }
    ensures others { (i : ℕ) → (i < start) ⊎ (start + matrix.now.side * matrix.now.side ≤ i)
        → slice_index_or bytes.new i 0 ≡ slice_index_or bytes.old i 0 }
{
    let side = matrix.side();
    let end = start + usize::from(side) * usize::from(side);
    let mut next = start;
    for row in 0..side {
        write_row(matrix, row, next, end, bytes);
        next += usize::from(side);
    }
}
