//! Draws the function patterns, the format information and the version information. Also makes the square in which only
//! the region is dark (ISO/IEC 18004:2015, 6.3, 7.9 and 7.10). `format` is the format information as a number of 15
//! bits.

ghost use Rattle.std.specs.Prelude.{◌≡◌, ℕ, ◌+◌, ◌<◌, ◌≤◌, if◌then◌else◌, nat_le, IfOk};
ghost use Rattle.std.specs.List.{All};
ghost use Rattle.qr_layout.specs.Version.{side_of};
ghost use Rattle.qr_layout.specs.Alignment.{alignment_places, centres_of};
ghost use Rattle.qr_layout.specs.Region.{is_alignment, is_corner, is_in_region, ring_of};
ghost use Rattle.qr_layout.specs.Steps.Rectangles.{IsCentreInside};
ghost use Rattle.qr_layout.specs.Role.{finder_ring, role_of};
ghost use Rattle.qr_layout.specs.Format.{version_word_of};
ghost use Rattle.qr_matrix.specs.Grid.{square, colour, IsSquare};
ghost use Rattle.qr_symbol.specs.Steps.Patterns.{fixed_colour, format_or, is_in_finder_area, paint_of, IsOver};
ghost use Rattle.qr_symbol.specs.Steps.Placement.{region_grid};

use qr_layout::{
    FORMAT_BITS, Module, Rectangle, Version, alignment_centres, fixed_rectangles, format_place,
    second_format_place,
};
use qr_matrix::Matrix;
use std::alloc::{AllocError, Global};

// Fills the square around `centre`: the modules at most `distance` rows and at most `distance` columns away from it.
#[inline]
fn fill_around(matrix: &mut Matrix, centre: Module, distance: u8, dark: bool)
    requires rows_in { (distance ≤ centre.row) × (centre.row + distance < matrix.old.side) }
    requires columns_in { (distance ≤ centre.col) × (centre.col + distance < matrix.old.side) }
    requires side { matrix.old.side ≤ 177 }
    ensures { IsOver matrix.old.side (λ r c. nat_le (ring_of centre.row centre.col r c) distance) (λ _ _. dark)
        (colour matrix.old) matrix.new }
{
    let Module { row, col } = centre;
    matrix.fill(
        row - distance..row + distance + 1,
        col - distance..col + distance + 1,
        dark,
    );
}

// Draws a finder pattern and its separator. Together they fill eight by eight modules, of which `area` is the top left
// one. The pattern is three squares around `centre`, one inside the other, of 7, 5 and 3 modules a side.
fn paint_finder(matrix: &mut Matrix, version: Version, area: Module, centre: Module)
    requires square { IsSquare (side_of version) matrix.old }
    requires bottom_in { area.row + 8 ≤ side_of version }
    requires right_in { area.col + 8 ≤ side_of version }
    requires row_least { area.row + 3 ≤ centre.row }
    requires row_most { centre.row ≤ area.row + 4 }
    requires col_least { area.col + 3 ≤ centre.col }
    requires col_most { centre.col ≤ area.col + 4 }
    requires nearest { (r c : ℕ) → ring_of centre.row centre.col r c ≤ 4 → finder_ring (side_of version) r c ≡ ring_of centre.row centre.col r c }
    ensures { (format : ℕ) → IsOver (side_of version) (is_in_finder_area area.row area.col) (paint_of version format)
        (colour matrix.old) matrix.new }
{
    matrix.fill(area.row..area.row + 8, area.col..area.col + 8, false);
    fill_around(matrix, centre, 3, true);
    fill_around(matrix, centre, 2, false);
    fill_around(matrix, centre, 1, true);
}

// Draws both copies of the format information.
pub(crate) fn draw_format(matrix: &mut Matrix, version: Version, format: u32)
    requires { IsSquare (side_of version) matrix.old }
    ensures { matrix.new ≡ square (side_of version) (λ r c. format_or format (role_of version r c) (colour matrix.old r c)) }
{
    for bit in 0..FORMAT_BITS {
        let dark = format >> bit & 1 == 1;
        let one = format_place(bit);
        matrix.set(one.row, one.col, dark);
        let other = second_format_place(version, bit);
        matrix.set(other.row, other.col, dark);
    }
}

// Draws the three corners that have a finder pattern: these patterns with their separators, and the modules beside them
// in row 8 and column 8. Those modules are two modules of the timing patterns, the dark module, and all of the format
// information.
fn paint_corners(matrix: &mut Matrix, version: Version, format: u32)
    requires { IsSquare (side_of version) matrix.old }
    ensures { IsOver (side_of version) (is_corner (side_of version)) (paint_of version format) (colour matrix.old) matrix.new }
{
    let side = version.side();
    // The right corner begins at this column, and the lower corner at this row.
    let start = side - 8;
    // The column of the centre in the right corner, and the row of the centre in the lower corner.
    let centre = side - 4;
    let near = Module { row: 3, col: 3 };
    let right = Module {
        row: 3,
        col: centre,
    };
    let below = Module {
        row: centre,
        col: 3,
    };
    paint_finder(matrix, version, Module { row: 0, col: 0 }, near);
    paint_finder(matrix, version, Module { row: 0, col: start }, right);
    paint_finder(matrix, version, Module { row: start, col: 0 }, below);
    matrix.set(8, 6, true);
    matrix.set(6, 8, true);
    matrix.set(start, 8, true);
    draw_format(matrix, version, format);
}

// The number of bits of the version information: six data bits and twelve error correction bits (ISO/IEC 18004:2015,
// 7.10).
const VERSION_BITS: u8 = 18;

// Gives all modules of the alignment patterns, each of five by five modules, one colour (ISO/IEC 18004:2015, 6.3.6).
fn fill_alignment(matrix: &mut Matrix, version: Version, centres: &[Module], dark: bool)
    requires square { IsSquare (side_of version) matrix.old }
    requires centres { centres.now ≡ alignment_places (side_of version) (centres_of version) }
    requires inside { All (IsCentreInside (side_of version)) centres.now }
    ensures { IsOver (side_of version) (is_alignment version) (λ _ _. dark) (colour matrix.old) matrix.new }
{
    for centre in centres {
        fill_around(matrix, *centre, 2, dark);
    }
}

// Draws all that is outside the region. The region keeps its colours.
pub(crate) fn draw_fixed(matrix: &mut Matrix, version: Version, format: u32)
    requires { IsSquare (side_of version) matrix.old }
    ensures { matrix.new ≡ square (side_of version) (λ r c. if is_in_region version r c then colour matrix.old r c
        else fixed_colour format (version_word_of version) (role_of version r c)) }
{
    let side = version.side();
    let list = alignment_centres(version);
    let centres = list.as_slice();
    fill_alignment(matrix, version, centres, true);
    // The eight modules around each centre are light. The centre stays dark. Its colour is read and written back,
    // because with `true` in its place the proof would have to show that no two patterns overlap.
    for centre in centres {
        let dark = matrix.dark(centre.row, centre.col);
        fill_around(matrix, *centre, 1, false);
        matrix.set(centre.row, centre.col, dark);
    }
    paint_corners(matrix, version, format);
    // For each k, module k of row 6 has the same colour as module k of column 6. The first seven and the last seven
    // modules belong to finder patterns, and those next to them to separators. Between the separators is a timing
    // pattern (ISO/IEC 18004:2015, 6.3.5).
    for at in 0..side {
        let dark = at < 7 || at >= side - 7 || at % 2 == 0;
        matrix.set(6, at, dark);
        matrix.set(at, 6, dark);
    }
    // Symbols have version information from version 7 on (ISO/IEC 18004:2015, 7.10). One copy is beside the top right
    // finder pattern. The other is beside the bottom left one, with rows and columns exchanged.
    if let Some(word) = version.version_word() {
        let left = side - 11;
        for bit in 0..VERSION_BITS {
            let row = bit / 3;
            let col = left + bit % 3;
            let dark = word >> bit & 1 == 1;
            matrix.set(row, col, dark);
            matrix.set(col, row, dark);
        }
    }
}

// The square in which exactly the region is dark. First all modules are made dark, and then those outside the region
// are made light.
pub(crate) fn region_of(alloc: Global, version: Version) -> Result<Matrix, AllocError>
    ensures { IfOk result (λ m. m ≡ region_grid version) }
{
    let side = version.side();
    let mut region = Matrix::new(alloc, side)?;
    region.fill(0..side, 0..side, true);
    let fixed = fixed_rectangles(version);
    for rectangle in fixed.as_slice() {
        let Rectangle {
            top,
            bottom,
            left,
            right,
        } = *rectangle;
        region.fill(top..bottom, left..right, false);
    }
    fill_alignment(
        &mut region,
        version,
        alignment_centres(version).as_slice(),
        false,
    );
    Ok(region)
}
