//! Mends the message of a damaged symbol, which is its data codewords, block by block (ISO/IEC 18004:2015, 7.5.1, 7.6
//! and 7.7.3). A codeword is erased if one of its modules was not read.

ghost use Rattle.std.specs.Prelude.{◌≡◌, ℕ, ◌+◌, ◌<◌, ◌≤◌, ◌==◌, ◌⊎◌, ◌++◌, [], false, not, map, List, length, Err, IfOk, IfErr, IfSome, IfNone};
ghost use Rattle.std.specs.Bool.{OnTrue};
ghost use Rattle.qr_layout.specs.Blocks.{blocks_of, spare_of};
ghost use Rattle.qr_layout.specs.Version.{side_of, total_codewords_of};
ghost use Rattle.qr_matrix.specs.Grid.{colour};
ghost use Rattle.qr_symbol.specs.declared.fault.ReadFault.{ReadFault};
ghost use Rattle.qr_symbol.specs.Interleaving.{block_count, block_len, codeword_count, data_sizes, correction_sizes, IsInterleaved};
ghost use Rattle.qr_symbol.specs.Reading.{IsReadUnmasked};
ghost use Rattle.qr_mending.specs.declared.erasures.Changes.{Changes};
ghost use Rattle.qr_mending.specs.Erasures.{changes_of, read_of, IsMendedWithErasures};
ghost use Rattle.qr_mending.specs.Message.{received, AreInBlocks};
ghost use Rattle.qr_mending.specs.Steps.Message.{list_of, marks_at, AreMarksInBlocks, AreWhole, HasCorrections, IsMendedMessage};

use crate::erasures::{Changes, mend_unerased, mend_with_erasures};
use qr_field::Divisor;
use qr_layout::{Blocks, Level, Version};
use qr_matrix::Matrix;
use qr_symbol::{BlockSizes, ReadFault, read_unmasked};
use std::alloc::{AllocError, Global};

// A mark for each codeword of a symbol, in the order of the final sequence. A mark is a byte with a bit for each module
// of its codeword. The bit is 1 if the module was not read. Usually all modules were read; then no list is made, and
// `AllZero` stands for a list of zeros.
#[derive(Drop)]
pub(crate) enum Marks {
    AllZero,
    Each(Vec<u8>),
}

fn is_light(square: &Matrix) -> bool
    ensures { OnTrue result ((r c : ℕ) → r < square.now.side → c < square.now.side → colour square.now r c ≡ false) }
{
    for row in 0..usize::from(square.side()) {
        let bits = square.bit_row(row);
        if bits.bits_from(0) != 0 || bits.bits_from(64) != 0 || bits.bits_from(128) != 0 {
            return false;
        }
    }
    true
}

// Returns the marks of all codewords. A module was not read if it is dark in `unknown`.
pub(crate) fn read_marks(
    alloc: Global,
    version: Version,
    unknown: &Matrix,
) -> Result<Marks, AllocError>
    requires { unknown.now.side ≡ side_of version }
    ensures marks { IfOk result
        (λ marks. IsReadUnmasked version unknown.now (list_of (total_codewords_of version) marks)) }
    ensures many { IfOk result
        (λ marks. length (list_of (total_codewords_of version) marks) ≡ total_codewords_of version) }
{
    if is_light(unknown) {
        return Ok(Marks::AllZero);
    }
    let marks = read_unmasked(alloc, version, unknown)?;
    Ok(Marks::Each(marks))
}

// The codewords of a symbol, or their marks, one block after the other. `data` has the data codewords or their marks,
// and `checks` the error correction codewords or their marks.
#[derive(Drop)]
struct InBlocks {
    data: Vec<u8>,
    checks: Vec<u8>,
}

// Undoes the interleaving of codewords or of their marks.
fn in_blocks(alloc: Global, blocks: Blocks, interleaved: &[u8]) -> Result<InBlocks, AllocError>
    requires { length interleaved.now ≡ codeword_count (data_sizes blocks) + codeword_count (correction_sizes blocks) }
    ensures { IfOk result (λ b. AreInBlocks blocks interleaved.now b.data.items b.checks.items) }
{
    let data = BlockSizes::of_data(blocks).gather(alloc, interleaved)?;
    let checks = BlockSizes::of_corrections(blocks).gather(alloc, &interleaved[data.len()..])?;
    Ok(InBlocks { data, checks })
}

// Returns the final sequence of the mended codewords. The error correction codewords are known from mending, so they
// are not computed again. The memory of `message` and `corrections` is freed.
pub(crate) fn interleaved(
    alloc: Global,
    version: Version,
    level: Level,
    message: Vec<u8>,
    corrections: Vec<u8>,
) -> Result<Vec<u8>, AllocError>
    requires { HasCorrections version level message.items corrections.items }
    ensures interleaved { IfOk result (λ cw. IsInterleaved version level message.items cw.items) }
    ensures many { IfOk result (λ cw. length cw.items ≡ total_codewords_of version) }
{
    let blocks = version.blocks(level);
    let mut interleaved = vec![in alloc; 0u8; message.len() + corrections.len()]?;
    let (data, checks) = interleaved.split_at_mut(message.len());
    BlockSizes::of_data(blocks).scatter(&message, data);
    BlockSizes::of_corrections(blocks).scatter(&corrections, checks);
    Ok(interleaved)
}

// A mark for each codeword of a symbol, as in `Marks`, but deinterleaved: one block comes after the other. `AllZero`
// stands for lists of zeros.
#[derive(Drop)]
enum MarksInBlocks {
    AllZero,
    Each(InBlocks),
}

fn marks_in_blocks(
    alloc: Global,
    blocks: Blocks,
    marks: &Marks,
) -> Result<MarksInBlocks, AllocError>
    requires { length (list_of (codeword_count (data_sizes blocks) + codeword_count (correction_sizes blocks)) marks.now)
        ≡ codeword_count (data_sizes blocks) + codeword_count (correction_sizes blocks) }
    ensures { IfOk result (AreMarksInBlocks blocks marks.now) }
{
    match marks {
        Marks::AllZero => Ok(MarksInBlocks::AllZero),
        Marks::Each(interleaved) => {
            let each = in_blocks(alloc, blocks, interleaved)?;
            Ok(MarksInBlocks::Each(each))
        }
    }
}

// One block: its data codewords, then its error correction codewords.
fn block_of(
    alloc: Global,
    blocks: Blocks,
    read: &InBlocks,
    block: usize,
) -> Result<Vec<u8>, AllocError>
    requires within { block < block_count (data_sizes blocks) }
    requires data { length read.now.data.items ≡ codeword_count (data_sizes blocks) }
    requires checks { length read.now.checks.items ≡ codeword_count (correction_sizes blocks) }
    ensures value { IfOk result
        (λ codewords. codewords.items ≡ received blocks read.now.data.items read.now.checks.items block) }
    ensures len { IfOk result (λ codewords. length codewords.items ≡ block_len (data_sizes blocks) block + blocks.ec_len) }
{
    let data = BlockSizes::of_data(blocks).part(&read.data, block);
    let checks = BlockSizes::of_corrections(blocks).part(&read.checks, block);
    let mut codewords = Vec::with_capacity(alloc, data.len() + checks.len())?;
    codewords.extend_from_slice(data)?;
    codewords.extend_from_slice(checks)?;
    Ok(codewords)
}

// Appends, for each mark, whether its codeword is erased. It is erased if the mark is not 0.
fn push_erased(erased: &mut Vec<bool>, marks: &[u8]) -> Result<(), AllocError>
    ensures { IfOk result (λ _. erased.new.items ≡ erased.old.items ++ map (λ mark. not (mark == 0)) marks.now) }
{
    for i in 0..marks.len() {
        erased.push(marks[i] != 0)?;
    }
    Ok(())
}

// Returns, for each codeword of block `block`, whether it is erased. The list is empty if all modules of the symbol
// were read.
fn erased_of(
    alloc: Global,
    blocks: Blocks,
    marks: &MarksInBlocks,
    block: usize,
) -> Result<Vec<bool>, AllocError>
    requires within { block < block_count (data_sizes blocks) }
    requires whole { AreWhole blocks marks.now }
    ensures { IfOk result (λ erased. erased.items ≡ map (λ mark. not (mark == 0)) (marks_at blocks marks.now block)) }
{
    let MarksInBlocks::Each(marks) = marks else {
        return Ok(Vec::new(alloc));
    };
    let data = BlockSizes::of_data(blocks).part(&marks.data, block);
    let checks = BlockSizes::of_corrections(blocks).part(&marks.checks, block);
    let mut erased = Vec::with_capacity(alloc, data.len() + checks.len())?;
    push_erased(&mut erased, data)?;
    push_erased(&mut erased, checks)?;
    Ok(erased)
}

// Mends one block, and returns how many of its codewords were misread and erased, or `None` if the block cannot be
// mended. If `erased` is empty, no codeword is erased.
fn mend_block(
    divisor: &Divisor,
    spare: usize,
    erased: &[bool],
    codewords: &mut [u8],
) -> Option<Changes>
    requires spare { spare ≤ divisor.now }
    requires least { divisor.now ≤ length codewords.old }
    requires most { length codewords.old ≤ 255 }
    requires marks { (erased.now ≡ []) ⊎ (length erased.now ≡ length codewords.old) }
    ensures mended { IfSome result (λ changes.
        IsMendedWithErasures divisor.now spare (read_of codewords.old erased.now) codewords.new
        × (changes ≡ changes_of (read_of codewords.old erased.now) codewords.old codewords.new)) }
    ensures refused { IfNone result ((mended : List ℕ)
        → IsMendedWithErasures divisor.now spare (read_of codewords.old erased.now) mended → ⊥) }
{
    if erased.is_empty() {
        return mend_unerased(divisor, spare, codewords);
    }
    mend_with_erasures(divisor, spare, erased, codewords)
}

// The mended data codewords of all blocks, the error correction codewords that belong to them, and how many codewords
// of each block were misread and erased. In each list the blocks come in their order.
#[derive(Drop)]
pub(crate) struct MendedBlocks {
    pub message: Vec<u8>,
    pub corrections: Vec<u8>,
    pub changed: Vec<Changes>,
}

// Mends one block after the other, and ends at the first that cannot be mended. `codewords` and `marks` are still
// interleaved.
#[tactic(auto, using(crate::proofs::Named::size_facts))]
pub(crate) fn mend_blocks(
    alloc: Global,
    version: Version,
    level: Level,
    codewords: &[u8],
    marks: &Marks,
) -> Result<MendedBlocks, ReadFault>
    requires codewords { length codewords.now ≡ total_codewords_of version }
    requires marks { length (list_of (total_codewords_of version) marks.now) ≡ total_codewords_of version }
    ensures mended { IfOk result (λ m. IsMendedMessage (blocks_of version level) (spare_of version level)
        codewords.now (list_of (total_codewords_of version) marks.now) m.message.items m.changed.items) }
    ensures corrections { IfOk result (λ m. HasCorrections version level m.message.items m.corrections.items) }
    ensures refused { result ≡ Err ReadFault.Check → (message : List ℕ) (changed : List Changes)
        → IsMendedMessage (blocks_of version level) (spare_of version level) codewords.now
        (list_of (total_codewords_of version) marks.now) message changed
        → ⊥ }
    ensures fault { IfErr result (λ e. (e ≡ ReadFault.Memory) ⊎ (e ≡ ReadFault.Check)) }
{
    let blocks = version.blocks(level);
    let spare = usize::from(version.spare(level));
    let received = in_blocks(alloc, blocks, codewords)?;
    let unread = marks_in_blocks(alloc, blocks, marks)?;
    let divisor = Divisor::new(usize::from(blocks.ec_len));
    let count = BlockSizes::of_data(blocks).count();
    let mut message = Vec::with_capacity(alloc, received.data.len())?;
    let mut corrections = Vec::with_capacity(alloc, received.checks.len())?;
    let mut changed = Vec::with_capacity(alloc, count)?;
    for block in 0..count {
        let mut mended = block_of(alloc, blocks, &received, block)?;
        let erased = erased_of(alloc, blocks, &unread, block)?;
        let Some(changes) = mend_block(&divisor, spare, &erased, mended.as_mut_slice()) else {
            return Err(ReadFault::Check);
        };
        let (data, checks) = mended.split_at(mended.len() - divisor.count());
        message.extend_from_slice(data)?;
        corrections.extend_from_slice(checks)?;
        changed.push(changes)?;
    }
    Ok(MendedBlocks {
        message,
        corrections,
        changed,
    })
}
