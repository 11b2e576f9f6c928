//! The centres of the alignment patterns (ISO/IEC 18004:2015, 6.3.6 and Annex E). For each version the standard lists
//! up to seven numbers, which are called `centres` below. A place whose row and column are both among these numbers is
//! the centre of an alignment pattern, unless it is in one of the three corners with a finder pattern. `side` is the
//! number of modules on a side.

ghost use Rattle.std.specs.Prelude.{◌≡◌, ◌≤◌, ◌-◌, ◌+◌, ◌&&◌, not, nat_le, nat_lt};
ghost use Rattle.std.specs.List.{list_any};
ghost use Rattle.qr_layout.specs.Version.{side_of};
ghost use Rattle.qr_layout.specs.Alignment.{alignment_places, centres_of, is_corner_pair};
ghost use Rattle.qr_layout.specs.Region.{is_alignment};

use crate::region::Module;
use crate::version::Version;
use arrayvec::ArrayVec;

// For each of the versions 1 to 40, the rows that have centres of alignment patterns. The columns that have centres
// have the same numbers. Zeros fill up each entry of the table to seven numbers (ISO/IEC 18004:2015, Annex E, Table
// E.1).
static CENTRES: [[u8; 7]; 40] = [
    [0, 0, 0, 0, 0, 0, 0],
    [6, 18, 0, 0, 0, 0, 0],
    [6, 22, 0, 0, 0, 0, 0],
    [6, 26, 0, 0, 0, 0, 0],
    [6, 30, 0, 0, 0, 0, 0],
    [6, 34, 0, 0, 0, 0, 0],
    [6, 22, 38, 0, 0, 0, 0],
    [6, 24, 42, 0, 0, 0, 0],
    [6, 26, 46, 0, 0, 0, 0],
    [6, 28, 50, 0, 0, 0, 0],
    [6, 30, 54, 0, 0, 0, 0],
    [6, 32, 58, 0, 0, 0, 0],
    [6, 34, 62, 0, 0, 0, 0],
    [6, 26, 46, 66, 0, 0, 0],
    [6, 26, 48, 70, 0, 0, 0],
    [6, 26, 50, 74, 0, 0, 0],
    [6, 30, 54, 78, 0, 0, 0],
    [6, 30, 56, 82, 0, 0, 0],
    [6, 30, 58, 86, 0, 0, 0],
    [6, 34, 62, 90, 0, 0, 0],
    [6, 28, 50, 72, 94, 0, 0],
    [6, 26, 50, 74, 98, 0, 0],
    [6, 30, 54, 78, 102, 0, 0],
    [6, 28, 54, 80, 106, 0, 0],
    [6, 32, 58, 84, 110, 0, 0],
    [6, 30, 58, 86, 114, 0, 0],
    [6, 34, 62, 90, 118, 0, 0],
    [6, 26, 50, 74, 98, 122, 0],
    [6, 30, 54, 78, 102, 126, 0],
    [6, 26, 52, 78, 104, 130, 0],
    [6, 30, 56, 82, 108, 134, 0],
    [6, 34, 60, 86, 112, 138, 0],
    [6, 30, 58, 86, 114, 142, 0],
    [6, 34, 62, 90, 118, 146, 0],
    [6, 30, 54, 78, 102, 126, 150],
    [6, 24, 50, 76, 102, 128, 154],
    [6, 28, 54, 80, 106, 132, 158],
    [6, 32, 58, 84, 110, 136, 162],
    [6, 26, 54, 82, 110, 138, 166],
    [6, 30, 58, 86, 114, 142, 170],
];

// The entry of `CENTRES` without the zeros that fill it up.
fn centre_list(version: Version) -> &'static [u8]
    ensures { result.now ≡ centres_of version }
{
    let number = version.number();
    // Versions 2 to 6 have two rows of centres. Each of the versions 7, 14, 21, 28 and 35 has one row more than the
    // version before it.
    let many = if number == 1 {
        0
    } else {
        usize::from(number / 7 + 2)
    };
    &CENTRES[usize::from(number - 1)][..many]
}

impl Version {
    /// Returns the rows in which alignment patterns have their centres, in rising order. The columns of the centres are
    /// the same numbers. Version 1 has no alignment patterns (ISO/IEC 18004:2015, 6.3.6 and Annex E).
    pub fn centres(self) -> ArrayVec<u8, 7>
        ensures { result.items ≡ centres_of self }
    {
        let mut centres = ArrayVec::new();
        for centre in centre_list(self) {
            centres.push(*centre);
        }
        centres
    }
}

// Whether row `at` crosses the alignment patterns whose centres are in row `centre`. `at` and `centre` may also both be
// columns. A pattern reaches two rows and two columns beyond its centre.
fn is_near(centre: u8, at: u8) -> bool
    ensures { result ≡ (nat_le (centre - 2) at && nat_lt at (centre + 3)) }
{
    if centre <= at {
        at - centre <= 2
    } else {
        centre - at <= 2
    }
}

// Whether row `a` and column `b` of centres meet in one of the three corners with a finder pattern, where no alignment
// pattern is.
fn is_corner_pair(side: u8, a: u8, b: u8) -> bool
    requires { 21 ≤ side }
    ensures { result ≡ is_corner_pair side a b }
{
    let last_centre = side - 7;
    a == 6 && b == 6 || a == 6 && b == last_centre || a == last_centre && b == 6
}

// Whether column `col` crosses an alignment pattern whose centre is in row `a`.
fn column_crosses_pattern(centres: &[u8], side: u8, a: u8, col: u8) -> bool
    requires { 21 ≤ side }
    ensures { result ≡ list_any (λ b. nat_le (b - 2) col && nat_lt col (b + 3)
        && not (is_corner_pair side a b)) centres.now }
{
    centres
        .iter()
        .any(|b| is_near(*b, col) && !is_corner_pair(side, a, *b))
}

// Whether a place is in an alignment pattern of a symbol with these centres.
fn is_in_pattern(centres: &[u8], side: u8, row: u8, col: u8) -> bool
    requires { 21 ≤ side }
    ensures { result ≡ list_any (λ a. nat_le (a - 2) row && nat_lt row (a + 3)
        && list_any (λ b. nat_le (b - 2) col && nat_lt col (b + 3)
        && not (is_corner_pair side a b)) centres.now) centres.now }
{
    centres.iter().any(|a| is_near(*a, row) && column_crosses_pattern(centres, side, *a, col))
}

// Whether a place is in an alignment pattern of a symbol of this version.
#[tactic(auto, using(crate::proofs::lemmas::alignment::alignment_parts))]
pub(crate) fn is_in_alignment(version: Version, row: u8, col: u8) -> bool
    ensures { result ≡ is_alignment version row col }
{
    let side = version.side();
    let centres = centre_list(version);
    is_in_pattern(centres, side, row, col)
}

/// Returns the centres of the alignment patterns of a version, row by row from the top, and in each row from left to
/// right. Version 1 has none, and version 40 has 46 (ISO/IEC 18004:2015, 6.3.6 and Annex E).
pub fn alignment_centres(version: Version) -> ArrayVec<Module, 49>
    ensures { result.items ≡ alignment_places (side_of version) (centres_of version) }
{
    let side = version.side();
    let centres = centre_list(version);
    // There is room for all centres, since no version has more than seven rows of them.
    let mut places = ArrayVec::new();
    for row in centres {
        for col in centres {
            if !is_corner_pair(side, *row, *col) {
                places.push(Module {
                    row: *row,
                    col: *col,
                });
            }
        }
    }
    places
}
