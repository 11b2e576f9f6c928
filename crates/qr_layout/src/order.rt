//! The order in which codewords fill the region (ISO/IEC 18004:2015, 7.7.3), as a walk through the symbol. The walk
//! goes through the strips from right to left: upward in the first, downward in the second, and so on by turns. In each
//! row of a strip the right module comes before the left one. In a symbol of four rows, the modules of the two
//! rightmost strips would have these indices in the walk:
//!
//!      9  8   7  6
//!     11 10   5  4
//!     13 12   3  2
//!     15 14   1  0
//!
//! The walk yields the places that are in the region, and passes over the others.

ghost use Rattle.std.specs.Prelude.{◌≡◌, ◌<◌, ◌≤◌, ◌↔◌, IfSome, IsSome, List, length};
ghost use Rattle.std.specs.Iterator.{YieldsFirst, item_count};
ghost use Rattle.qr_layout.specs.Region.{InRegion};
ghost use Rattle.qr_layout.specs.Order.{IsOrder, IsOrderAfter};
ghost use Rattle.qr_layout.specs.Version.{module_count_of, side_of};
ghost use Rattle.qr_layout.specs.declared.region.Module.{Module};
ghost use Rattle.qr_layout.specs.Steps.Order.{IsCursor, place_of, next_of, cursor_at};

use crate::region::{Module, is_in_region};
use crate::strips::{column_without_timing, strip_at};
use crate::version::Version;
use std::marker::Model;

// Where the walk is: at the right or the left module of a row of a strip. `strips_left` is how many strips are still to
// be visited, this one included. The walk goes from right to left, so `strips_left` is also the number of the strip,
// counted from 1 at the left. If it is 0, the walk is at its end.
#[derive(Clone, Copy)]
struct Cursor {
    strips_left: u8,
    row: u8,
    at_left: bool,
}

impl Cursor {
    // The place of the module that the cursor is at. There are at most 88 strips, in version 40.
    fn place(self) -> Module
        requires strips_left { 0 < self.strips_left }
        requires strips_in { self.strips_left ≤ 88 }
        ensures { result ≡ place_of self }
    {
        let right = strip_at(self.strips_left).right;
        let col = if self.at_left { right - 1 } else { right };
        Module { row: self.row, col }
    }

    // The cursor at the module that comes next. After the last row of a strip comes the same row of the next strip.
    #[tactic(auto, unfolding(crate::specs::Steps::Order::next_of))]
    fn next(self, version: Version) -> Cursor
        requires strips_left { 0 < self.strips_left }
        requires cursor { IsCursor version self }
        ensures { result ≡ next_of (side_of version) self }
    {
        let upward = strip_at(self.strips_left).upward;
        let last = if upward { 0 } else { version.side() - 1 };
        if !self.at_left {
            Cursor {
                at_left: true,
                ..self
            }
        } else if self.row == last {
            Cursor {
                strips_left: self.strips_left - 1,
                at_left: false,
                ..self
            }
        } else {
            Cursor {
                row: if upward { self.row - 1 } else { self.row + 1 },
                at_left: false,
                ..self
            }
        }
    }

    // The cursor at a place. It has no meaning if the place is in column 6, which is in no strip.
    #[tactic(auto, unfolding(crate::specs::Steps::Order::cursor_at))]
    fn at(place: Module) -> Cursor
        ensures { result ≡ cursor_at place }
    {
        let untimed = column_without_timing(place.col);
        Cursor {
            strips_left: untimed / 2 + 1,
            row: place.row,
            at_left: untimed % 2 == 0,
        }
    }
}

/// An iterator over the places of the region, in the order in which codewords fill it. In contracts it stands for the
/// list of the places that are still to come.
///
/// # Notes
///
/// The iterator stores the version and the place that it has reached, but no list of places.
#[derive(Drop)]
pub struct Steps {
    version: Version,
    cursor: Cursor,
}

impl Model for Steps {
    ghost use Rattle.std.specs.Prelude.{◌≤◌, List};
    ghost use Rattle.qr_layout.specs.declared.region.Module.{Module};
    ghost use Rattle.qr_layout.specs.Steps.Order.{to_come, IsCursor};

    ghost Value = { List Module };

    ghost view = { λ s. to_come s.version s.cursor };

    ghost invariant = { λ s. (1 ≤ s.version) × (s.version ≤ 40) × IsCursor s.version s.cursor };
}

impl Iterator for Steps {
    type Item = Module;

    ghost next_gives = { YieldsFirst (λ s. s) };

    ghost remaining = { item_count (λ s. s) };

    #[inline(always)]
    fn next(&mut self) -> Option<Module> {
        while self.cursor.strips_left > 0 {
            let here = self.cursor.place();
            self.cursor = self.cursor.next(self.version);
            if is_in_region(self.version, here.row, here.col) {
                return Some(here);
            }
        }
        None
    }
}

/// Returns an iterator over all places of the region (the places outside the function patterns, the dark module, the
/// format information and the version information), each once, in the order in which they are filled. The places of the
/// codewords come first, and those of the remainder bits last (ISO/IEC 18004:2015, 7.7.3).
pub fn walk(v: Version) -> Steps
    ensures order { IsOrder v result }
    ensures count { length result ≡ module_count_of v }
{
    Steps {
        version: v,
        cursor: Cursor {
            // All columns but column 6 are in strips, so there are (side - 1) / 2 strips.
            strips_left: 8 + 2 * v.number(),
            row: v.side() - 1,
            at_left: false,
        },
    }
}

/// Returns an iterator over the places that come after `m` in `walk`, or `None` if `m` is outside the region or outside
/// the symbol.
pub fn walk_after(v: Version, m: Module) -> Option<Steps>
    ensures given { IsSome result ↔ InRegion v m }
    ensures rest { IfSome result (IsOrderAfter v m) }
{
    if !is_in_region(v, m.row, m.col) {
        return None;
    }
    let here = Cursor::at(m);
    let next = here.next(v);
    Some(Steps {
        version: v,
        cursor: next,
    })
}

/// Returns the number of modules of the region: 8 for each codeword, and 1 for each remainder bit. These are 208 in
/// version 1, and 29,648 in version 40 (ISO/IEC 18004:2015, 7.1, Table 1).
pub fn region_len(v: Version) -> u32
    ensures count { result ≡ module_count_of v }
    ensures length { (ms : List Module) → IsOrder v ms → length ms ≡ result }
{
    8 * u32::from(v.total_codewords()) + u32::from(v.remainder_bits())
}
