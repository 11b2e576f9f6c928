//! The role of each module of a symbol: what it is for (ISO/IEC 18004:2015, 6.3 and 7.7.2). `side` is the number of
//! modules on a side.

ghost use Rattle.std.specs.Prelude.{◌≡◌, ◌<◌, ◌≤◌, ◌==◌, ◌&&◌, not};
ghost use Rattle.std.specs.List.{list_any};
ghost use Rattle.qr_layout.specs.Version.{side_of};
ghost use Rattle.qr_layout.specs.Alignment.{is_corner_pair};
ghost use Rattle.qr_layout.specs.Region.{ring_of};
ghost use Rattle.qr_layout.specs.Role.{finder_ring, is_alignment_light, pattern_colour, role_of};

use crate::alignment::{alignment_centres, is_in_alignment};
use crate::format::{format_bit, version_bit};
use crate::version::Version;

/// What a module is for. It depends only on the version of the symbol and the place of the module.
#[derive(Clone, Copy, Debug, PartialEq, Eq)]
pub enum Role {
    /// A module of a function pattern, or the dark module. It has this colour in all symbols of the version; `true` is
    /// dark.
    Fixed(bool),
    /// A bit of the format information, from bit 0, the lowest, to bit 14.
    FormatBit(u8),
    /// A bit of the version information, from bit 0, the lowest, to bit 17.
    VersionBit(u8),
    /// A module of the region. It contains a bit of a codeword, or a remainder bit.
    Region,
}

// The number of the square ring in which the place (row, col) lies, if rings are counted around the place (a, b). Ring
// 0 is (a, b) itself, and ring 1 is the eight places around it.
fn ring(a: u8, b: u8, row: u8, col: u8) -> u8
    ensures { result ≡ ring_of a b row col }
{
    a.abs_diff(row).max(b.abs_diff(col))
}

// The number of the ring in which the place (row, col) lies, if rings are counted around the nearest centre of a finder
// pattern.
fn finder_ring(side: u8, row: u8, col: u8) -> u8
    requires { 21 ≤ side }
    ensures { result ≡ finder_ring side row col }
{
    let far_centre = side - 4;
    ring(3, 3, row, col).min(ring(3, far_centre, row, col).min(ring(far_centre, 3, row, col)))
}

// Whether a place is in the light ring of an alignment pattern, which is ring 1 around its centre.
#[tactic(auto, unfolding(crate::specs::Role::is_alignment_light))]
fn is_alignment_light(version: Version, row: u8, col: u8) -> bool
    ensures { result ≡ is_alignment_light version row col }
{
    alignment_centres(version)
        .iter()
        .any(|centre| ring(centre.row, centre.col, row, col) == 1)
}

// The colour of a module in a finder pattern, a separator, a timing pattern or an alignment pattern, or `None` if it is
// in none of them; `true` is dark. In a finder pattern ring 2 is light, and ring 4 is the separator.
#[tactic(auto, unfolding(crate::specs::Role::pattern_colour))]
fn pattern_colour(version: Version, row: u8, col: u8) -> Option<bool>
    ensures { result ≡ pattern_colour version row col }
{
    let ring = finder_ring(version.side(), row, col);
    if ring < 4 {
        return Some(ring != 2);
    }
    if ring == 4 {
        return Some(false);
    }
    if row == 6 {
        return Some(col % 2 == 0);
    }
    if col == 6 {
        return Some(row % 2 == 0);
    }
    if is_in_alignment(version, row, col) {
        return Some(!is_alignment_light(version, row, col));
    }
    None
}

/// Returns what the module in this row and column is for in a symbol of this version. Rows are counted from 0 at the
/// top, and columns from 0 at the left (ISO/IEC 18004:2015, 6.3 and 7.7.2).
#[tactic(auto, unfolding(crate::specs::Role::role_of))]
pub fn cell(v: Version, row: u8, col: u8) -> Role
    requires row_in { row < side_of v }
    requires col_in { col < side_of v }
    ensures { result ≡ role_of v row col }
{
    if let Some(dark) = pattern_colour(v, row, col) {
        return Role::Fixed(dark);
    }
    let side = v.side();
    if row == side - 8 && col == 8 {
        return Role::Fixed(true);
    }
    if let Some(bit) = format_bit(side, row, col) {
        return Role::FormatBit(bit);
    }
    match version_bit(v, row, col) {
        Some(bit) => Role::VersionBit(bit),
        None => Role::Region,
    }
}
