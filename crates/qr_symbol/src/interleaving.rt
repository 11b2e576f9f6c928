//! Makes the final sequence of codewords from the data codewords, and finds the data codewords of a final sequence
//! (ISO/IEC 18004:2015, 7.5.2 and 7.6). Codewords of one kind, data or error correction, are listed in two ways: one
//! block after the other, or interleaved. With three blocks, of which the last is long, the two lists are:
//!
//! ```text
//! one block after the other      interleaved, row by row
//! a0 a1 a2                       a0 b0 c0
//! b0 b1 b2                       a1 b1 c1
//! c0 c1 c2 c3                    a2 b2 c2
//!                                      c3
//! ```
//!
//! The final sequence begins with the interleaved data codewords, and ends with the interleaved error correction
//! codewords.

ghost use Rattle.std.specs.Prelude.{◌≡◌, ◌≢◌, ◌↔◌, ℕ, ◌+◌, ◌<◌, ◌≤◌, ◌⊎◌, List, length, Err, IfOk, IfErr, MatchResult};
ghost use Rattle.qr_layout.specs.Blocks.{data_codewords_of};
ghost use Rattle.qr_layout.specs.Version.{total_codewords_of};
ghost use Rattle.qr_symbol.specs.declared.fault.ReadFault.{ReadFault};
ghost use Rattle.qr_symbol.specs.Interleaving.{block_count, block_len, start_of, codeword_count, data_sizes, correction_sizes, IsChecks, IsFinalMessage, IsGathered, IsInterleaved, part_of};

use crate::fault::ReadFault;
use qr_field::Divisor;
use qr_layout::{Blocks, Level, Version};
use std::alloc::{AllocError, Global};

/// The sizes of the blocks into which codewords are divided: first `short` short blocks, and then `long` long blocks,
/// each of which has one codeword more (ISO/IEC 18004:2015, 7.5.1).
#[derive(Clone, Copy)]
pub struct BlockSizes {
    /// The number of short blocks. `of_corrections` counts all blocks as short, so this number is the sum of two
    /// numbers of type `u8`, and may be too large for a `u8`.
    pub short: u16,
    /// The number of codewords in a short block.
    pub short_len: u8,
    pub long: u8,
}

impl BlockSizes {
    /// Returns the block sizes, counted in data codewords.
    pub fn of_data(blocks: Blocks) -> BlockSizes
        ensures { result ≡ data_sizes blocks }
    {
        BlockSizes {
            short: u16::from(blocks.short),
            short_len: blocks.short_len,
            long: blocks.long,
        }
    }

    /// Returns the block sizes, counted in error correction codewords. All blocks have equally many of these, so all
    /// count as short.
    pub fn of_corrections(blocks: Blocks) -> BlockSizes
        ensures { result ≡ correction_sizes blocks }
    {
        BlockSizes {
            short: u16::from(blocks.short) + u16::from(blocks.long),
            short_len: blocks.ec_len,
            long: 0,
        }
    }

    /// Returns the number of blocks, short and long.
    pub fn count(self) -> usize
        ensures { result ≡ block_count self }
    {
        usize::from(self.short) + usize::from(self.long)
    }

    fn start(self, block: usize) -> usize
        requires { block ≤ block_count self }
        ensures { result ≡ start_of self block }
    {
        usize::from(self.short_len) * block + block.saturating_sub(usize::from(self.short))
    }

    /// Returns the codewords of block `block`, counted from 0. In `codewords` the blocks come one after the other.
    #[tactic(auto, using(crate::proofs::Named::slices))]
    pub fn part(self, codewords: &[u8], block: usize) -> &[u8]
        requires within { block < block_count self }
        requires whole { length codewords.now ≡ codeword_count self }
        ensures value { result.now ≡ part_of self codewords.now block }
        ensures len { length result.now ≡ block_len self block }
    {
        &codewords[self.start(block)..self.start(block + 1)]
    }

    /// Undoes interleaving: returns the codewords of all blocks, one block after the other. Codewords beyond those of
    /// the blocks are ignored (ISO/IEC 18004:2015, 7.6).
    ///
    /// # Errors
    ///
    /// Returns an error if an allocation is refused.
    pub fn gather(self, alloc: Global, codewords: &[u8]) -> Result<Vec<u8>, AllocError>
        requires { codeword_count self ≤ length codewords.now }
        ensures { IfOk result (λ d. IsGathered self codewords.now d.items) }
    {
        let mut gathered = vec![in alloc; 0u8; self.start(self.count())]?;
        gather_into(gathered.as_mut_slice(), self, codewords);
        Ok(gathered)
    }

    /// Interleaves the codewords of all blocks and writes them to `interleaved`: the first of each block, then the
    /// second of each block, and so on (ISO/IEC 18004:2015, 7.6). In `codewords` one block comes after the other.
    /// `gather` undoes the interleaving.
    ///
    /// # Notes
    ///
    /// Goes through the codewords block by block. In `interleaved`, the indices of two codewords that are neighbours in
    /// a block differ by the number of blocks. The last codewords of the long blocks are the exception: they are at the
    /// end, one after the other.
    // This function is not inlined. If it were inlined, LLVM would know how many blocks there can be, and would compute
    // the index of each codeword by a multiplication instead of an addition.
    #[inline(never)]
    pub fn scatter(self, codewords: &[u8], interleaved: &mut [u8])
        requires whole { length codewords.now ≡ codeword_count self }
        requires room { length interleaved.old ≡ codeword_count self }
        ensures long { length interleaved.new ≡ codeword_count self }
        ensures gathered { IsGathered self interleaved.new codewords.now }
    {
        let blocks = self.count();
        let short = usize::from(self.short);
        let short_len = usize::from(self.short_len);
        for block in 0..blocks {
            let start = self.start(block);
            for index in 0..short_len {
                interleaved[blocks * index + block] = codewords[start + index];
            }
            if block >= short {
                let at = short_len * blocks + (block - short);
                interleaved[at] = codewords[start + short_len];
            }
        }
    }
}

// The error correction codewords of all blocks, one block after the other. A block has at most 30 of them (Table 9).
// Two blocks are taken at once, because two divisions by the generator polynomial side by side take little longer than
// one. If the number of blocks is odd, the last block is taken alone.
fn corrections(alloc: Global, blocks: Blocks, message: &[u8]) -> Result<Vec<u8>, AllocError>
    requires whole { length message.now ≡ codeword_count (data_sizes blocks) }
    requires least { 1 ≤ blocks.ec_len }
    requires most { blocks.ec_len ≤ 30 }
    ensures { IfOk result (λ e. IsChecks blocks message.now (block_count (data_sizes blocks)) e.items) }
{
    let sizes = BlockSizes::of_data(blocks);
    let ec_len = usize::from(blocks.ec_len);
    let divisor = Divisor::new(ec_len);
    let mut corrections = Vec::with_capacity(alloc, sizes.count() * ec_len)?;
    for pair in 0..sizes.count() / 2 {
        let first = sizes.part(message, 2 * pair);
        let second = sizes.part(message, 2 * pair + 1);
        let (left, right) = divisor.corrections(first, second);
        corrections.extend_from_slice(left.as_slice())?;
        corrections.extend_from_slice(right.as_slice())?;
    }
    if sizes.count() % 2 == 1 {
        let check = divisor.correction(sizes.part(message, sizes.count() - 1));
        corrections.extend_from_slice(check.as_slice())?;
    }
    Ok(corrections)
}

/// Returns the final sequence of the data codewords `message` (ISO/IEC 18004:2015, 7.5.2 and 7.6). It has the first
/// data codeword of each block, then the second of each block, and so on. After them come the error correction
/// codewords in the same order.
///
/// # Errors
///
/// Returns an error if an allocation is refused.
// This function is inlined, so that it adds nothing to the stack while error correction codewords are computed.
#[inline(always)]
pub fn interleave(
    alloc: Global,
    v: Version,
    level: Level,
    message: &[u8],
) -> Result<Vec<u8>, AllocError>
    requires whole { length message.now ≡ data_codewords_of v level }
    ensures interleaved { IfOk result (λ cw. IsInterleaved v level message.now cw.items) }
    ensures many { IfOk result (λ cw. length cw.items ≡ total_codewords_of v) }
{
    let blocks = v.blocks(level);
    let corrections = corrections(alloc, blocks, message)?;
    let mut interleaved = vec![in alloc; 0u8; message.len() + corrections.len()]?;
    let (data, checks) = interleaved.split_at_mut(message.len());
    BlockSizes::of_data(blocks).scatter(message, data);
    BlockSizes::of_corrections(blocks).scatter(&corrections, checks);
    Ok(interleaved)
}

// Writes the codewords of all blocks to `message`, one block after the other. In `codewords` they are interleaved in
// the order that `scatter` gives them. This function is not inlined. If it were inlined, LLVM would compute the index
// of each codeword by a multiplication instead of an addition.
#[inline(never)]
fn gather_into(message: &mut [u8], sizes: BlockSizes, codewords: &[u8])
    requires room { length message.old ≡ codeword_count sizes }
    requires interleaved { codeword_count sizes ≤ length codewords.now }
    ensures { IsGathered sizes codewords.now message.new }
{
    let blocks = sizes.count();
    let short = usize::from(sizes.short);
    let short_len = usize::from(sizes.short_len);
    for block in 0..blocks {
        let start = sizes.start(block);
        for index in 0..short_len {
            message[start + index] = codewords[blocks * index + block];
        }
        if block >= short {
            let at = short_len * blocks + (block - short);
            message[start + short_len] = codewords[at];
        }
    }
}

// Returns the data codewords of a final sequence. The error correction codewords are computed from them, and compared
// with those that `codewords` has. If these differ, the function returns `Check` instead.
fn checked_message(alloc: Global, blocks: Blocks, codewords: &[u8]) -> Result<Vec<u8>, ReadFault>
    requires whole { length codewords.now
        ≡ codeword_count (data_sizes blocks) + codeword_count (correction_sizes blocks) }
    requires least { 1 ≤ blocks.ec_len }
    requires most { blocks.ec_len ≤ 30 }
    ensures { MatchResult result
        (λ d. (length d.items ≡ codeword_count (data_sizes blocks)) × IsFinalMessage blocks d.items codewords.now)
        (λ e. (e ≡ ReadFault.Memory) ⊎ ((e ≡ ReadFault.Check) × ((d : List ℕ)
        → (length d ≡ codeword_count (data_sizes blocks)) × IsFinalMessage blocks d codewords.now → ⊥))) }
{
    let message = BlockSizes::of_data(blocks).gather(alloc, codewords)?;
    let checks = &codewords[message.len()..];
    let read = BlockSizes::of_corrections(blocks).gather(alloc, checks)?;
    let computed = corrections(alloc, blocks, &message)?;
    if read.as_slice() == computed.as_slice() {
        Ok(message)
    } else {
        Err(ReadFault::Check)
    }
}

/// Returns the data codewords of a final sequence (ISO/IEC 18004:2015, 7.6 and 12).
///
/// # Errors
///
/// Returns `Check` if the error correction codewords of some block do not belong to its data codewords, and `Memory` if
/// an allocation is refused, in which case `Check` is not returned.
#[tactic(auto, using(crate::proofs::Named::messages))]
pub fn deinterleave(
    alloc: Global,
    v: Version,
    level: Level,
    cw: &[u8],
) -> Result<Vec<u8>, ReadFault>
    requires whole { length cw.now ≡ total_codewords_of v }
    ensures many { IfOk result (λ d. length d.items ≡ data_codewords_of v level) }
    ensures read { IfOk result (λ d. IsInterleaved v level d.items cw.now) }
    ensures check { (result ≡ Err ReadFault.Check) ↔ ((result ≢ Err ReadFault.Memory) × ((d : List ℕ)
        → (length d ≡ data_codewords_of v level) × IsInterleaved v level d cw.now
        → ⊥)) }
    ensures fault { IfErr result (λ e. (e ≡ ReadFault.Memory) ⊎ (e ≡ ReadFault.Check)) }
{
    checked_message(alloc, v.blocks(level), cw)
}
