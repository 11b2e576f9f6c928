//! Collects the codewords from the region, strip by strip (ISO/IEC 18004:2015, 7.7.3 and 12), and so undoes what
//! `draw_codewords` in `placement.rt` does. `across` is a transposed square, in which the two columns of a strip are
//! rows (`spans.rt`). In `region` exactly the region is dark. The region is symmetric, so `region` is equal to its
//! transposed square.

ghost use Rattle.std.specs.Prelude.{◌≡◌, ℕ, ◌%◌, ◌+◌, ◌<◌, ◌≤◌, [], map, length, IfOk, IsOkAnd};
ghost use Rattle.qr_layout.specs.Version.{side_of, total_codewords_of};
ghost use Rattle.qr_layout.specs.Order.{in_region_of};
ghost use Rattle.qr_layout.specs.Strips.{both_of, rows_from};
ghost use Rattle.qr_matrix.specs.Grid.{transposed};
ghost use Rattle.qr_symbol.specs.Reading.{IsReadUnmasked};
ghost use Rattle.qr_symbol.specs.Steps.Collecting.{bits_in_rows, colour_across};
ghost use Rattle.qr_symbol.specs.Steps.Placement.{region_grid};
ghost use Rattle.qr_symbol.specs.Steps.Spans.{top_row, AreWholeRows};
ghost use Rattle.qr_symbol.specs.Steps.Words.{Appends, HasCollected};

use crate::spans::{Columns, Span, Spans, columns_of};
use crate::words::{Collector, merged};
use qr_layout::{Strip, Version, all_strips};
use qr_matrix::Matrix;
use std::alloc::{AllocError, Global};

// The most rows that are read at once. So many rows have 56 bits, and a word of 64 bits has to hold these and up to
// seven bits that were collected before.
const ROWS_MAX: u8 = 28;

// Collects the bits of `count` neighbouring rows of a strip, of which row `top` is the topmost. Both modules of each of
// these rows are in the region. The bound on `top` is the number of bits in a bit row.
#[inline(always)]
fn collect_rows(bits: &mut Collector, columns: &Columns, top: u8, count: u8, upward: bool)
    requires top_in { top < 192 }
    requires some { 1 ≤ count }
    requires few { count ≤ 28 }
    requires word { top % 64 + count ≤ 64 }
    ensures { (s : ℕ) (strip : Strip) (k : ℕ) (region : Columns) → strip.upward ≡ upward → k + count ≤ s
        → top ≡ top_row s strip k count → AreWholeRows s strip k count region
        → Appends (bits_in_rows s strip region columns.now k count) bits.old bits.new }
{
    let right = columns.right.bits_from(top);
    let left = columns.left.bits_from(top);
    bits.push_bits(merged(right, left, upward, count), 2 * count);
}

// Collects the bits of a strip from its two columns.
#[inline(always)]
fn collect_columns(
    bits: &mut Collector,
    columns: &Columns,
    version: Version,
    region: &Columns,
    strip: Strip,
)
    ensures { Appends (bits_in_rows (side_of version) strip region.now columns.now 0 (side_of version)) bits.old bits.new }
{
    for span in Spans::new(region, strip, version.side(), ROWS_MAX) {
        match span {
            Span::Both { top, count } => collect_rows(bits, columns, top, count, strip.upward),
            Span::Right { row } => bits.push_bit(columns.right.at(row)),
            Span::Left { row } => bits.push_bit(columns.left.at(row)),
            Span::Outside => {}
        }
    }
}

// Collects the bits of a strip, whose two columns it takes from the squares `across` and `region`. `collect_columns` is
// called in two places, so that the compiler makes separate code for strips that are filled upward and for those that
// are filled downward.
fn collect_strip(
    bits: &mut Collector,
    across: &Matrix,
    version: Version,
    region: &Matrix,
    strip: Strip,
)
    requires side { across.now.side ≡ side_of version }
    requires region { region.now ≡ region_grid version }
    requires left_in { 1 ≤ strip.right }
    requires right_in { strip.right < side_of version }
    ensures { Appends (map (colour_across across.now) (in_region_of version (both_of (rows_from (side_of version) strip 0
        (side_of version))))) bits.old bits.new }
{
    let Strip { right, upward } = strip;
    let columns = columns_of(across, right);
    let within = columns_of(region, right);
    if upward {
        let strip = Strip {
            right,
            upward: true,
        };
        collect_columns(bits, &columns, version, &within, strip);
    } else {
        let strip = Strip {
            right,
            upward: false,
        };
        collect_columns(bits, &columns, version, &within, strip);
    }
}

// Collects all codewords from the transposed square `across`, without undoing a mask. The remainder bits are collected
// too, and dropped at the end. `bits` has no bits yet, but memory for all codewords, so no allocation is refused.
fn collect_strips(
    mut bits: Collector,
    version: Version,
    across: &Matrix,
    region: &Matrix,
) -> Result<Vec<u8>, AllocError>
    requires memory { HasCollected (total_codewords_of version) [] bits }
    requires side { across.now.side ≡ side_of version }
    requires region { region.now ≡ region_grid version }
    ensures { IsOkAnd result (λ cw. IsReadUnmasked version (transposed across.now) cw.items
        × (length cw.items ≡ total_codewords_of version)) }
{
    for strip in all_strips(version) {
        collect_strip(&mut bits, across, version, region, strip);
    }
    bits.into_codewords()
}

// Allocates memory for all codewords, and collects them from the transposed square `across`, without undoing a mask.
pub(crate) fn collect_codewords(
    alloc: Global,
    version: Version,
    across: &Matrix,
    region: &Matrix,
) -> Result<Vec<u8>, AllocError>
    requires side { across.now.side ≡ side_of version }
    requires region { region.now ≡ region_grid version }
    ensures read { IfOk result (λ cw. IsReadUnmasked version (transposed across.now) cw.items) }
    ensures many { IfOk result (λ cw. length cw.items ≡ total_codewords_of version) }
{
    let bits = Collector::with_capacity(alloc, usize::from(version.total_codewords()))?;
    collect_strips(bits, version, across, region)
}
