//! Draws the codewords into the region in the standard's order (ISO/IEC 18004:2015, 7.7.2 and 7.7.3). `draw_codewords`
//! does so strip by strip, and `draw_along_walk` module by module. The bits of all codewords are numbered from 0 on:
//! bit 0 is the highest bit of the first codeword, and bit 8 is the highest bit of the second. The number of a bit is
//! also the index of its module in the order.
//!
//! `across` is a transposed square, in which the two columns of a strip are rows (`spans.rt`). In `region` exactly the
//! region is dark. The region is symmetric, so `region` is equal to its transposed square.

ghost use Rattle.std.specs.Prelude.{◌≡◌, ◌≤◌};
ghost use Rattle.qr_layout.specs.Version.{side_of};
ghost use Rattle.qr_matrix.specs.Grid.{square, colour, transposed, IsSquare};
ghost use Rattle.qr_symbol.specs.Steps.Placement.{number_at, placed_colour, region_grid, walked_colour, AreDrawn, AreLight, IsRegion};
ghost use Rattle.qr_symbol.specs.Steps.Spans.{AreWithin};

use crate::mask::inverts;
use crate::spans::{Columns, Span, Spans, columns_of};
use crate::words::{bit_at, bits_at, split};
use qr_layout::{Module, Strip, Version, all_strips, walk};
use qr_matrix::Matrix;

// The most rows that are drawn at once, because a word of 64 bits has two bits for each of 32 rows.
const ROWS_MAX: u8 = 32;

// Draws the columns of a strip. The first bit of the strip has the number `first`, and the function returns the number
// of the first bit after the strip. The caller has made the modules of the region light, so only the modules whose bits
// are 1 are made dark. There is no branch on the value of a bit, because no processor could predict such a branch. The
// bound on `first` is the number of bits in the 3,706 codewords of version 40.
#[inline(always)]
fn draw_columns(
    columns: &mut Columns,
    version: Version,
    region: &Columns,
    codewords: &[u8],
    first: usize,
    strip: Strip,
) -> usize
    requires within { AreWithin (side_of version) columns.old }
    requires region { IsRegion version strip.right region.now }
    requires few { first ≤ 29648 }
    requires light { AreLight (side_of version) strip 0 region.now columns.old }
    ensures within { AreWithin (side_of version) columns.new }
    ensures number { result ≡ number_at version strip first (side_of version) }
    ensures drawn { AreDrawn version codewords.now strip first 0 (side_of version) columns.old columns.new }
{
    let mut number = first;
    for span in Spans::new(region, strip, version.side(), ROWS_MAX) {
        match span {
            Span::Both { top, count } => {
                let bits = bits_at(codewords, number);
                let (right, left) = split(bits, strip.upward, count);
                columns.right.set_bits(top, right);
                columns.left.set_bits(top, left);
                number += 2 * usize::from(count);
            }
            Span::Right { row } => {
                let bit = bits_at(codewords, number) >> 63;
                columns.right.set_bits(row, bit);
                number += 1;
            }
            Span::Left { row } => {
                let bit = bits_at(codewords, number) >> 63;
                columns.left.set_bits(row, bit);
                number += 1;
            }
            Span::Outside => {}
        }
    }
    number
}

// Draws all codewords into the transposed square. Outside the region the square keeps its colours. The two columns of
// each strip are taken out, their modules of the region are made light, the codeword bits are drawn in them, and they
// are put back. `draw_columns` is called in two places, so that the compiler makes separate code for strips that are
// filled upward and for those that are filled downward.
pub(crate) fn draw_codewords(
    across: &mut Matrix,
    version: Version,
    region: &Matrix,
    codewords: &[u8],
)
    requires square { IsSquare (side_of version) across.old }
    requires region { region.now ≡ region_grid version }
    ensures placed { transposed across.new
        ≡ square (side_of version) (placed_colour version codewords.now (colour (transposed across.old))) }
    ensures square { IsSquare (side_of version) across.new }
{
    let mut number = 0;
    for strip in all_strips(version) {
        let Strip { right, upward } = strip;
        let within = columns_of(region, right);
        let mut columns = columns_of(across, right);
        columns.right = columns.right & !within.right;
        columns.left = columns.left & !within.left;
        number = if upward {
            let strip = Strip {
                right,
                upward: true,
            };
            draw_columns(&mut columns, version, &within, codewords, number, strip)
        } else {
            let strip = Strip {
                right,
                upward: false,
            };
            draw_columns(&mut columns, version, &within, codewords, number, strip)
        };
        across.set_bit_row(right, columns.right);
        across.set_bit_row(right - 1, columns.left);
    }
}

// Draws all codewords under a mask, module by module in the order of `walk`. The remainder bits are 0, and the mask is
// applied to them too.
pub(crate) fn draw_along_walk(matrix: &mut Matrix, version: Version, codewords: &[u8], mask: u8)
    requires { IsSquare (side_of version) matrix.old }
    ensures { matrix.new ≡ square (side_of version) (walked_colour version codewords.now mask (colour matrix.old)) }
{
    let mut number = 0;
    for module in walk(version) {
        let Module { row, col } = module;
        let bit = bit_at(codewords, number);
        matrix.set(row, col, bit != inverts(mask, row, col));
        number += 1;
    }
}
