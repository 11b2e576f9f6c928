//! How many codewords of a block a logo covers, and the largest logo that is allowed. A logo is a square in the middle of
//! a symbol. A codeword is covered if one of its eight modules is under the logo.
//!
//! The covered codewords are marked along the walk, in the order of the final sequence. Then the marks of each block are
//! counted. In the final sequence, the indices of two data codewords that are neighbours in a block differ by the number
//! of blocks. The last data codewords of the long blocks are the exception: they are at the end of the data codewords,
//! one after the other. The error correction codewords come after all data codewords, and differ by the number of blocks
//! too.

ghost use Rattle.std.specs.Prelude.{◌≡◌, ◌<◌, ◌≤◌, ◌+◌, ◌-◌, ◌*◌, ◌&&◌, ℕ, false, true, length, nat_le, nat_lt, replicate};
ghost use Rattle.std.specs.List.{slice_index_or};
ghost use Rattle.qr_layout.specs.Version.{side_of};
ghost use Rattle.qr_logos.specs.Logo.{IsAllowed, IsClear, IsLargestLogo, IsMostCovered, is_under};
ghost use Rattle.qr_logos.specs.Steps.Logo.{AreMarks, data_len, marked_among, marked_in, with_mark};

use qr_layout::{Blocks, Level, Version, walk};

// How many codewords a symbol has at most. Version 40 has so many.
const CODEWORDS_MAX: usize = 3706;

// Whether a logo whose first row is `first` has modules in the row `line`. The same test serves for columns.
fn is_crossed(first: u8, side: u8, line: u8) -> bool
    ensures { result ≡ (nat_le first line && nat_lt line (first + side)) }
{
    line >= first && line - first < side
}

fn is_under(version: Version, side: u8, row: u8, col: u8) -> bool
    ensures { result ≡ is_under version side row col }
{
    let first = version.side().saturating_sub(side) / 2;
    is_crossed(first, side, row) && is_crossed(first, side, col)
}

// Marks the codeword with this index if `under` is true.
fn mark(marks: &mut [bool], codeword: usize, under: bool)
    requires { codeword < length marks.old }
    ensures { marks.new ≡ with_mark marks.old codeword under }
{
    if under {
        marks[codeword] = true;
    }
}

// Marks all covered codewords. At first, no codeword is marked.
fn mark_covered(version: Version, side: u8, marks: &mut [bool])
    requires { marks.old ≡ replicate 3706 false }
    ensures { AreMarks version side marks.new }
{
    let mut number = 0usize;
    for module in walk(version) {
        let under = is_under(version, side, module.row, module.col);
        mark(marks, number / 8, under);
        number += 1;
    }
}

fn is_marked(marks: &[bool], codeword: usize) -> bool
    ensures { result ≡ slice_index_or marks.now codeword false }
{
    codeword < marks.len() && marks[codeword]
}

// Counts the marked ones among `count` codewords. The first of them has the index `first`, and the indices of
// neighbours differ by `step`.
fn marked_among(marks: &[bool], first: usize, step: usize, count: usize) -> usize
    requires room { first + step * count ≤ 1000000 }
    requires count { count ≤ 255 }
    ensures value { result ≡ marked_among marks.now first step count }
    ensures most { result ≤ count }
{
    let mut marked = 0usize;
    for i in 0..count {
        if is_marked(marks, first + step * i) {
            marked += 1;
        }
    }
    marked
}

// Counts the marked codewords of a block.
fn marked_in(marks: &[bool], blocks: Blocks, block: usize) -> usize
    requires { block ≤ 1000 }
    ensures { result ≡ marked_in blocks marks.now block }
{
    let short = usize::from(blocks.short);
    let short_len = usize::from(blocks.short_len);
    let long = usize::from(blocks.long);
    let count = short + long;
    let rows = short_len * count;
    let last = usize::from(block >= short);
    let data = marked_among(marks, block, count, short_len);
    let last_data = marked_among(marks, rows + block.saturating_sub(short), 1, last);
    let checks = marked_among(
        marks,
        rows + long + block,
        count,
        usize::from(blocks.ec_len),
    );
    data + (last_data + checks)
}

/// Returns the most codewords of a block that a logo of `side` by `side` modules covers. A codeword is covered if one of
/// its modules is under the logo.
///
/// The logo is a square in the middle of the symbol. If `side` is even, the logo is half a module above the middle and
/// half a module to the left of it, because a symbol has an odd number of modules on a side.
pub fn covered(version: Version, level: Level, side: u8) -> u8
    ensures { IsMostCovered version level side result }
{
    let mut marks = [false; CODEWORDS_MAX];
    mark_covered(version, side, &mut marks);
    let blocks = version.blocks(level);
    let count = usize::from(blocks.short) + usize::from(blocks.long);
    let mut most = 0usize;
    for block in 0..count {
        most = most.max(marked_in(&marks, blocks, block));
    }
    most as u8
}

/// Returns the side of the largest logo that covers no module of a finder pattern, its separator, a timing pattern, the
/// format information or the version information. Alignment patterns may be covered.
pub fn largest_clear(version: Version) -> u8
    ensures value { result ≡ side_of version - 18 }
    ensures clear { IsClear version result }
    ensures largest { (side : ℕ) → IsClear version side → side ≤ result }
{
    version.side() - 18
}

/// Returns the side of the largest logo that is allowed, in modules. It covers no module of a finder pattern, its
/// separator, a timing pattern, the format information or the version information. In each block, it covers at most
/// `share` percent of the codewords that can be corrected, as `Version::correctable` counts them. The rest is left for
/// dirt and wear. If no logo is allowed, the side is 0.
///
/// # Notes
///
/// A smaller logo covers no more than a larger one, so the side is found by halving an interval.
pub fn largest_logo(version: Version, level: Level, share: u8) -> u8
    requires { share ≤ 75 }
    ensures { IsLargestLogo version level share result }
{
    let mut side = 0;
    let mut above = largest_clear(version) + 1;
    while above - side > 1 {
        let middle = side + (above - side) / 2;
        if is_allowed(version, level, share, middle) {
            side = middle;
        } else {
            above = middle;
        }
    }
    side
}

// Whether a logo is allowed, as `largest_logo` says. If it is not, no larger one is.
pub(crate) fn is_allowed(version: Version, level: Level, share: u8, side: u8) -> bool
    requires { share ≤ 75 }
    ensures allowed { result ≡ true → IsAllowed version level share side }
    ensures small { result ≡ true → side ≤ 159 }
    ensures refused { result ≡ false → (other : ℕ) → IsAllowed version level share other → other < side }
{
    if side > largest_clear(version) {
        return false;
    }
    let budget = u16::from(share) * u16::from(version.correctable(level));
    100 * u16::from(covered(version, level, side)) <= budget
}
