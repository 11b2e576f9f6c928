//! The strips of a symbol: each is two neighbouring columns that codewords fill together (ISO/IEC 18004:2015, 7.7.3).
//! Strips are numbered from 1 at the left. Column 6, which has a timing pattern, is in no strip:
//!
//!     column  0 1  2 3  4 5  6  7 8  9 10
//!     strip    1    2    3       4    5

ghost use Rattle.std.specs.Prelude.{◌≡◌, ◌<◌, ◌≤◌, List};
ghost use Rattle.std.specs.Iterator.{YieldsFirst, item_count};
ghost use Rattle.std.specs.List.{All};
ghost use Rattle.qr_layout.specs.Order.{IsOrder, column_without_timing, in_region_of};
ghost use Rattle.qr_layout.specs.Strips.{places_of, strip_at};
ghost use Rattle.qr_layout.specs.Version.{side_of};
ghost use Rattle.qr_layout.specs.declared.strips.Strip.{Strip};

use crate::version::Version;
use std::marker::Model;

/// Two neighbouring columns that codewords fill together, row by row. In each row the right module comes first (ISO/IEC
/// 18004:2015, 7.7.3).
#[derive(Clone, Copy, Debug, PartialEq, Eq)]
pub struct Strip {
    /// The index of the right column. The left one is `right - 1`.
    pub right: u8,
    /// Whether codewords fill the strip upward, from the last row of the symbol to the first. Otherwise they fill it
    /// downward.
    pub upward: bool,
}

// The strip with this number. There are at most 88 strips, in version 40. Strips with an even number are filled upward.
#[inline(always)]
pub(crate) fn strip_at(number: u8) -> Strip
    requires least { 0 < number }
    requires most { number ≤ 88 }
    ensures { result ≡ strip_at number }
{
    // The index that the right column has if column 6 is not counted. To the right of column 6 the true index is
    // greater by 1.
    let untimed = 2 * number - 1;
    let right = if untimed < 6 { untimed } else { untimed + 1 };
    let upward = number % 2 == 0;
    Strip { right, upward }
}

// The index that a column has if column 6 is not counted.
#[inline(always)]
pub(crate) fn column_without_timing(col: u8) -> u8
    ensures { result ≡ column_without_timing col }
{
    if col < 6 { col } else { col - 1 }
}

/// An iterator over the strips of a symbol, from right to left. In contracts it stands for the list of the strips that
/// are still to come.
#[derive(Drop)]
pub struct Strips {
    // How many strips are still to come, which is also the number of the next one.
    remaining: u8,
}

impl Model for Strips {
    ghost use Rattle.std.specs.Prelude.{◌≤◌, List};
    ghost use Rattle.qr_layout.specs.Strips.{strips_to_come};
    ghost use Rattle.qr_layout.specs.declared.strips.Strip.{Strip};

    ghost Value = { List Strip };

    ghost view = { λ s. strips_to_come s.remaining };

    ghost invariant = { λ s. s.remaining ≤ 88 };
}

impl Iterator for Strips {
    type Item = Strip;

    ghost next_gives = { YieldsFirst (λ s. s) };

    ghost remaining = { item_count (λ s. s) };

    fn next(&mut self) -> Option<Strip> {
        if self.remaining == 0 {
            return None;
        }
        let strip = strip_at(self.remaining);
        self.remaining -= 1;
        Some(strip)
    }
}

/// Returns all strips of a version, from right to left, which is the order in which codewords fill them. In a strip,
/// codewords and remainder bits fill only the modules that are in the region (ISO/IEC 18004:2015, 7.7.3).
pub fn all_strips(version: Version) -> Strips
    ensures order { IsOrder version (in_region_of version (places_of (side_of version) result)) }
    ensures inside { All (λ x. (1 ≤ x.right) × (x.right < side_of version)) result }
{
    Strips {
        // All columns but column 6 are in strips, so there are (side - 1) / 2 strips.
        remaining: 8 + 2 * version.number(),
    }
}
