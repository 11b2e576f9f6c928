//! Mends and reads damaged symbols (ISO/IEC 18004:2015, 7.5.1, 7.9.1 and 12). A codeword is erased if one of its
//! modules was not read. Each codeword has a mark in `marks`, which is 0 exactly if the codeword is not erased.
//!
//! `format.rt` says what a copy of the format information costs, and when a level and a mask are near to it.

ghost use Rattle.std.specs.Prelude.{◌≡◌, ◌<◌, ◌≤◌, length, IfErr, IfOk, IfSome, MatchOption, MatchResult};
ghost use Rattle.std.specs.Bool.{OnTrue};
ghost use Rattle.qr_layout.specs.Version.{total_codewords_of};
ghost use Rattle.qr_matrix.specs.Grid.{light};
ghost use Rattle.qr_symbol.specs.declared.fault.ReadFault.{ReadFault};
ghost use Rattle.qr_symbol.specs.{Reading.{IsOfVersion, IsReadUnmasked}, Symbol.{grid_of}};
ghost use Rattle.qr_mending.specs.declared.format.FormatCopy.{FormatCopy};
ghost use Rattle.qr_mending.specs.Format.{format_cost};
ghost use Rattle.qr_mending.specs.Steps.{Mending.{IsMendedBy, IsMendedByEither, IsMendedWith}, Message.{list_of}};
ghost use Rattle.qr_mending.specs.Mending.{wrong_format_least, wrong_format_modules, wrong_modules, HasWrongModules, IsMendedReading, IsOfNoUse, IsUnmended};

use crate::erasures::Changes;
use crate::format::{FormatCopy, format_cost, near_format_of, wrong_format};
use crate::message::{Marks, MendedBlocks, interleaved, mend_blocks, read_marks};
use crate::scan::Scan;
use qr_bits::{Parsed, parse};
use qr_layout::{Level, Version};
use qr_matrix::{Matrix, differences};
use qr_symbol::{ReadFault, draw_symbol, read_codewords};
use std::alloc::{AllocError, Global};

// If both copies together cost at most 13 with one pair of level and mask, they cost more with every other pair. The
// reason is that the format information of two pairs differs in at least seven of its 15 bits, and each copy shows all
// 15. Take the cost with one pair and the cost with the other. Each bit in which their format information differs adds
// 2 to the sum of these costs: 2 to one of the costs if the module of the bit was read, and otherwise 1 to each. Both
// copies together have at least 14 such bits, so the sum is at least 28.
const COST_CERTAIN: u8 = 13;

// A symbol whose blocks were mended with this level and mask.
#[derive(Drop)]
pub(crate) struct MendedSquare {
    pub(crate) level: Level,
    pub(crate) mask: u8,
    pub(crate) blocks: MendedBlocks,
}

// Mends all blocks with the level and the mask `near`. Returns `None` if `near` is `None`, or if this is not possible
// for one of them.
fn mend_with(
    alloc: Global,
    scan: &Scan,
    marks: &Marks,
    near: Option<(Level, u8)>,
) -> Result<Option<MendedSquare>, ReadFault>
    requires marks { length (list_of (total_codewords_of scan.now.version) marks.now) ≡ total_codewords_of scan.now.version }
    requires erased { IsReadUnmasked scan.now.version scan.now.unknown.now (list_of (total_codewords_of scan.now.version) marks.now) }
    requires mask_in { IfSome near (λ f. f.1 < 8) }
    ensures mended { IfOk result (IsMendedWith scan.now.unknown.now scan.now.version scan.now.matrix.now near) }
    ensures fault { IfErr result (λ e. e ≡ ReadFault.Memory) }
{
    let Some((level, mask)) = near else {
        return Ok(None);
    };
    let codewords = read_codewords(alloc, scan.version, mask, scan.matrix)?;
    match mend_blocks(alloc, scan.version, level, &codewords, marks) {
        Ok(mended) => Ok(Some(MendedSquare {
            level,
            mask,
            blocks: mended,
        })),
        Err(ReadFault::Check) => Ok(None),
        Err(fault) => Err(fault),
    }
}

// Returns whether both arguments are the same: one pair of level and mask, or `None`. `==` says this too, but with it
// the WebAssembly file has 400 bytes more.
fn is_same_format(a: Option<(Level, u8)>, b: Option<(Level, u8)>) -> bool
    ensures { OnTrue result (a ≡ b) }
{
    match (a, b) {
        (Some((level, mask)), Some((other_level, other_mask))) => {
            level == other_level && mask == other_mask
        }
        (None, None) => true,
        _ => false,
    }
}

// Returns true if there is a mended square, and both copies together cost at most `COST_CERTAIN` with its level and
// mask; with every other pair they then cost more.
fn is_certain(scan: &Scan, mended: &Option<MendedSquare>) -> bool
    requires { IfSome mended.now (λ m. m.mask < 8) }
    ensures { OnTrue result (MatchOption mended.now ⊥
        (λ m. format_cost scan.now.unknown.now scan.now.matrix.now m.level m.mask ≤ 13)) }
{
    match mended {
        Some(mended) => format_cost(scan, mended.level, mended.mask) <= COST_CERTAIN,
        None => false,
    }
}

// Returns the mended square with whose level and mask both copies together cost less, or the first square if the costs
// are equal, or the only square if only one was mended.
fn nearer(
    scan: &Scan,
    first: Option<MendedSquare>,
    second: Option<MendedSquare>,
) -> Option<MendedSquare>
    requires first { IsMendedBy scan.now.unknown.now scan.now.version scan.now.matrix.now FormatCopy.First first }
    requires second { IsMendedBy scan.now.unknown.now scan.now.version scan.now.matrix.now FormatCopy.Second second }
    ensures { IsMendedByEither scan.now.unknown.now scan.now.version scan.now.matrix.now result }
{
    let Some(first) = first else {
        return second;
    };
    let Some(second) = second else {
        return Some(first);
    };
    if format_cost(scan, second.level, second.mask) < format_cost(scan, first.level, first.mask) {
        return Some(second);
    }
    Some(first)
}

// Returns the square that is mended with one of the pairs of level and mask that are near to a copy. Of the pairs with
// which all blocks can be mended, it takes the one with which both copies together cost least, and at equal costs the
// one near to the first copy. The pair near to the second copy is not tried if it is the same pair, or if the square
// was mended with the first one, at a cost of at most `COST_CERTAIN`.
fn mend_by_format(alloc: Global, scan: &Scan) -> Result<Option<MendedSquare>, ReadFault>
    ensures mended { IfOk result (IsMendedByEither scan.now.unknown.now scan.now.version scan.now.matrix.now) }
    ensures fault { IfErr result (λ e. e ≡ ReadFault.Memory) }
{
    let marks = read_marks(alloc, scan.version, scan.unknown)?;
    let near_first = near_format_of(scan, FormatCopy::First);
    let first = mend_with(alloc, scan, &marks, near_first)?;
    if is_certain(scan, &first) {
        return Ok(first);
    }
    let near_second = near_format_of(scan, FormatCopy::Second);
    if is_same_format(near_first, near_second) {
        return Ok(first);
    }
    let second = mend_with(alloc, scan, &marks, near_second)?;
    Ok(nearer(scan, first, second))
}

// Counts the wrong modules by comparing the square with `symbol`, the undamaged symbol. First each module of `symbol`
// that was not read in `scan.matrix` gets the colour that it does not have there, so that `differences` counts it too.
fn count_wrong(scan: &Scan, mut symbol: Matrix) -> u32
    requires { symbol.side ≡ scan.now.matrix.now.side }
    ensures { result ≡ wrong_modules scan.now.unknown.now scan.now.matrix.now symbol }
{
    for row in 0..scan.matrix.side() {
        let at = usize::from(row);
        let shown = scan.matrix.bit_row(at);
        let sent = symbol.bit_row(at);
        let unread = scan.unknown.bit_row(at);
        let differing = shown ^ sent;
        let wrong = unread | differing;
        symbol.set_bit_row(row, shown ^ wrong);
    }
    differences(scan.matrix, &symbol)
}

// Draws the undamaged symbol, whose final sequence is `codewords`, and counts the modules of the square that are wrong.
fn count_wrong_modules(
    alloc: Global,
    scan: &Scan,
    level: Level,
    mask: u8,
    codewords: &[u8],
) -> Result<u32, AllocError>
    requires whole { length codewords.now ≡ total_codewords_of scan.now.version }
    requires mask_in { mask < 8 }
    ensures { IfOk result
        (λ wrong. wrong ≡ wrong_modules scan.now.unknown.now scan.now.matrix.now (grid_of scan.now.version level mask codewords.now)) }
{
    let symbol = draw_symbol(alloc, scan.version, level, codewords, mask)?;
    Ok(count_wrong(scan, symbol))
}

// The fault of a symbol whose blocks cannot be mended with any level and mask that are near to a copy.
fn unmended_fault(scan: &Scan) -> ReadFault
    requires sized { IsOfVersion scan.now.matrix.now scan.now.version }
    requires useless { (any : FormatCopy) → IsOfNoUse scan.now.unknown.now any scan.now.version scan.now.matrix.now }
    ensures { IsUnmended scan.now.unknown.now scan.now.matrix.now result }
{
    if let Some(_) = near_format_of(scan, FormatCopy::First) {
        return ReadFault::Check;
    }
    match near_format_of(scan, FormatCopy::Second) {
        Some(_) => ReadFault::Check,
        None => ReadFault::Format,
    }
}

/// The content of a mended symbol, and numbers that describe its damage.
#[derive(Drop)]
pub struct Mended {
    /// The version, as the number of rows gives it.
    pub version: Version,
    /// The error correction level, as the format information gives it.
    pub level: Level,
    /// The mask, from 0 to 7.
    pub mask: u8,
    /// What the mended data codewords mean.
    pub parsed: Parsed,
    /// How many of the 30 modules in both copies of the format information are misread or were not read.
    pub wrong_format_modules: u8,
    /// How many of the 15 modules are misread or were not read in the copy of the format information that has fewer of
    /// them.
    pub wrong_format_least: u8,
    /// How many modules of the whole symbol are misread or were not read. Those of function patterns, version
    /// information and remainder bits count too.
    pub wrong_modules: u32,
    /// For each block, how many of its codewords were misread and erased.
    pub changed: Vec<Changes>,
}

/// Reads a damaged symbol and corrects its damage (ISO/IEC 18004:2015, 7.5.1, 7.9.1 and 12). A module that was not read
/// is dark in the square `unknown`, which has the side of `matrix`. A codeword with such a module is called erased, and
/// any other whose value is wrong is called misread.
///
/// A block is mended if the number of its erased codewords, plus twice that of its misread ones, is at most
/// `Version::spare`. The level and the mask are found by the two copies of the format information, of 15 modules each.
/// Suppose that the symbol has a certain level and mask. Then a copy costs 1 for each of its modules that was not read,
/// and 2 for each that is misread. If it costs at most 6, this pair of level and mask is near to the copy, and no other
/// pair is. Of the near pairs with which every block can be mended, the one with the least cost of both copies together
/// is taken. If this cost is the same for two pairs, the pair that is near to the first copy (the copy beside the top
/// left finder pattern) is taken.
///
/// So a damaged symbol becomes exactly the undamaged one if its blocks can be mended and both copies together cost at
/// most 13 with its level and mask. If six modules of format information are misread or were not read, whichever they
/// are, this cost is at most 12. Function patterns, version information and remainder bits have no effect on the
/// content, but `Mended::wrong_modules` counts their modules too.
///
/// # Errors
///
/// Returns `Side` if no version has the side of `matrix`; `Format` if no level and mask are near to a copy; `Check` if
/// there are near pairs, but with each of them some block cannot be mended; `Segments` if the mended data codewords
/// cannot be parsed; and `Memory` if memory is refused.
#[tactic(auto, using(crate::proofs::Named::size_facts))]
pub fn mend_symbol_with_unknown(
    alloc: Global,
    matrix: &Matrix,
    unknown: &Matrix,
) -> Result<Mended, ReadFault>
    requires { unknown.now.side ≡ matrix.now.side }
    ensures mended { MatchResult result
        (λ m. IsMendedReading unknown.now matrix.now m.version m.level m.mask m.parsed m.changed.items)
        (IsUnmended unknown.now matrix.now) }
    ensures format { IfOk result (λ m. m.wrong_format_modules ≡ wrong_format_modules unknown.now matrix.now m.level m.mask) }
    ensures least { IfOk result (λ m. m.wrong_format_least ≡ wrong_format_least unknown.now matrix.now m.level m.mask) }
    ensures modules { IfOk result
        (λ m. HasWrongModules unknown.now matrix.now m.version m.level m.mask m.changed.items m.wrong_modules) }
{
    let Some(version) = Version::of_side(matrix.side()) else {
        return Err(ReadFault::Side);
    };
    let scan = Scan {
        version,
        matrix,
        unknown,
    };
    let Some(mended) = mend_by_format(alloc, &scan)? else {
        return Err(unmended_fault(&scan));
    };
    let MendedSquare {
        level,
        mask,
        blocks: MendedBlocks {
            message,
            corrections,
            changed,
        },
    } = mended;
    let parsed = parse(alloc, &message, version)?;
    let wrong_format = wrong_format(&scan, level, mask);
    let codewords = interleaved(alloc, version, level, message, corrections)?;
    let wrong_modules = count_wrong_modules(alloc, &scan, level, mask, &codewords)?;
    Ok(Mended {
        version,
        level,
        mask,
        parsed,
        wrong_format_modules: wrong_format.both,
        wrong_format_least: wrong_format.least,
        wrong_modules,
        changed,
    })
}

/// Reads a damaged symbol and corrects its damage, as `mend_symbol_with_unknown` does for a symbol of which every
/// module was read.
///
/// # Errors
///
/// Returns the same faults as `mend_symbol_with_unknown`.
pub fn mend_symbol(alloc: Global, matrix: &Matrix) -> Result<Mended, ReadFault>
    ensures mended { MatchResult result
        (λ m. IsMendedReading (light matrix.now.side) matrix.now m.version m.level m.mask m.parsed m.changed.items)
        (IsUnmended (light matrix.now.side) matrix.now) }
    ensures format { IfOk result
        (λ m. m.wrong_format_modules ≡ wrong_format_modules (light matrix.now.side) matrix.now m.level m.mask) }
    ensures least { IfOk result
        (λ m. m.wrong_format_least ≡ wrong_format_least (light matrix.now.side) matrix.now m.level m.mask) }
    ensures modules { IfOk result (λ m. HasWrongModules (light matrix.now.side) matrix.now m.version m.level m.mask
        m.changed.items m.wrong_modules) }
{
    let unknown = Matrix::new(alloc, matrix.side())?;
    mend_symbol_with_unknown(alloc, matrix, &unknown)
}
