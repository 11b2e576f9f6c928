//! The finder patterns in a picture. Every row is scanned for five runs of 1, 1, 3, 1 and 1 modules. Then the column through
//! the middle is looked at, the row again, and the two diagonals. What is seen in several rows is joined.

ghost use Rattle.std.specs.Prelude.{◌<◌};

use crate::number::Number;
use crate::runs::{Line, Runs};
use crate::view::{DARK, Point, View};

/// A finder pattern, as far as it is known.
#[derive(Clone, Copy)]
pub struct Pattern {
    /// The middle, in sixteenths of a pixel.
    pub(crate) middle: Point,
    /// The length of a module, in sixteenths of a pixel.
    pub(crate) unit: Number,
    /// How often it was seen: up to three times in each row. It is 0 for a pattern that is not seen in the rows (`completing`).
    pub(crate) hits: Number,
    /// How good it is, as `ranking` has it.
    pub(crate) quality: Number,
    /// Whether it is light on dark.
    pub(crate) is_inverse: bool,
    /// Whether it is part of a symbol that was read.
    pub(crate) is_used: bool,
}

impl Pattern {
    /// No pattern. Work memory is made of it.
    pub const NONE: Pattern = Pattern {
        middle: Point {
            x: Number(0),
            y: Number(0),
        },
        unit: Number(0),
        hits: Number(0),
        quality: Number(0),
        is_inverse: false,
        is_used: false,
    };

    // Returns whether the other pattern may be the same one.
    fn is_near(&self, other: &Pattern) -> bool {
        let reach = other.unit.most(Number(16));
        let way = self.middle.minus(other.middle);
        self.is_inverse == other.is_inverse
            && way.x.size() <= reach
            && way.y.size() <= reach
            && (self.unit - other.unit).size() <= (other.unit / 3).most(Number(16))
    }

    // Returns the mean of this pattern and another, weighted by how often they were seen.
    fn joined(&self, other: &Pattern) -> Pattern {
        let before = self.hits.least(Number(45));
        let all = before + other.hits;
        let sum = self
            .middle
            .times(before)
            .plus(other.middle.times(other.hits));
        Pattern {
            middle: sum.over(all),
            unit: (self.unit * before + other.unit * other.hits) / all,
            hits: self.hits + other.hits,
            quality: self.quality,
            is_inverse: self.is_inverse,
            is_used: self.is_used,
        }
    }
}

/// The patterns that were found, and a grid of cells of four by four pixels. A cell has the number of the pattern whose
/// middle was first seen in it, counted from 1, or 0.
#[derive(Drop)]
pub(crate) struct Patterns<'a> {
    pub(crate) list: &'a mut [Pattern],
    pub(crate) count: usize,
    pub(crate) cells: &'a mut [u16],
    pub(crate) columns: usize,
    pub(crate) rows: usize,
}

/// The side of a cell.
const CELL: usize = 4;

fn cell_of(place: Number, count: usize) -> usize {
    Number(place.0 >> 6).index().min(count.saturating_sub(1))
}

impl Patterns<'_> {
    // Joins the pattern to the one of a cell, if this may be the same one.
    fn join_at(&mut self, cell: usize, seen: &Pattern) -> bool {
        if cell >= self.cells.len() {
            return false;
        }
        let number = usize::from(self.cells[cell]);
        if number == 0 || number > self.list.len() {
            return false;
        }
        let known = self.list[number - 1];
        if !known.is_near(seen) {
            return false;
        }
        self.list[number - 1] = known.joined(seen);
        true
    }

    // Joins the pattern to a known one in the cells around it, or keeps it as a new one.
    fn keep(&mut self, seen: &Pattern) {
        let column = cell_of(seen.middle.x, self.columns);
        let row = cell_of(seen.middle.y, self.rows);
        for y in row.saturating_sub(1)..row.saturating_add(2).min(self.rows) {
            for x in column.saturating_sub(1)..column.saturating_add(2).min(self.columns) {
                if self.join_at(y.saturating_mul(self.columns).saturating_add(x), seen) {
                    return;
                }
            }
        }
        self.add(
            row.saturating_mul(self.columns).saturating_add(column),
            seen,
        );
    }

    fn is_full(&self) -> bool {
        self.count >= self.list.len() || self.count >= 65_535
    }

    // Returns the row after the last one that may go through one of the patterns.
    fn end(&self) -> usize {
        let mut end = Number(0);
        for pattern in self.list.iter() {
            end = end.most(pattern.middle.y + pattern.unit * 4);
        }
        Number(end.pixel()).index().saturating_add(2)
    }

    fn add(&mut self, cell: usize, seen: &Pattern) {
        if self.count >= self.list.len() || self.count >= 65_535 {
            return;
        }
        self.list[self.count] = *seen;
        self.count += 1;
        if cell < self.cells.len() {
            self.cells[cell] = self.count as u16;
        }
    }
}

// Returns what the column near a pixel says of a pattern: how far its middle is from the pixel, in half pixels, and the
// length of a module. If a module is wrong in the middle column, one of those beside it may do.
fn across_column(view: &View, x: i64, y: i64, unit: Number, limit: u32) -> Option<(Number, Number)>
    requires { limit < 4000 }
{
    let beside = ((unit + 8) / 16).most(Number(1)).0;
    for k in 0..3u8 {
        let column = match k {
            0 => x,
            1 => x.saturating_add(beside),
            _ => x.saturating_sub(beside),
        };
        let line = Line {
            x: column,
            y,
            dx: 0,
            dy: 1,
        };
        if let Some((offset, length)) = line.crosses(view, limit)
            && length <= unit * 2 + 8
            && length * 2 + 8 >= unit
        {
            return Some((offset, length));
        }
    }
    None
}

// Returns how many of the two diagonals through a pixel go across a pattern.
fn count_diagonals(view: &View, x: i64, y: i64, limit: u32) -> i64
    requires { limit < 4000 }
{
    let down = Line { x, y, dx: 1, dy: 1 };
    let up = Line {
        x,
        y,
        dx: 1,
        dy: -1,
    };
    i64::from(down.crosses(view, limit).is_some()) + i64::from(up.crosses(view, limit).is_some())
}

fn limit_of(unit: Number) -> u32
    ensures { result < 4000 }
{
    (unit * 5 / 16 + 2).index().min(3_999) as u32
}

/// A module is so long, in sixteenths of a pixel, for each row from one that is looked at to the next. So these rows are half a module
/// apart, and where modules are small every row is looked at.
const ROWS_APART: i64 = 32;

// Looks whether five runs of a row, which end before the pixel `end`, are the middle of a pattern. In place of rows that are not
// looked at, what is seen in the others counts more often.
fn pattern_at(view: &View, y: usize, end: usize, runs: Runs) -> Option<Pattern> {
    let unit = runs.unit();
    let every = (unit / ROWS_APART).index().max(1);
    if y % every != 0 {
        return None;
    }
    let limit = limit_of(unit);
    let core_end = Number::of(end) - i64::from(runs.last) - i64::from(runs.other);
    let x = core_end - i64::from(runs.core.div_ceil(2));
    let row = Number::of(y);
    let (offset, column_unit) = across_column(view, x.0, row.0, unit, limit)?;
    let middle_y = row * 16 + 8 + offset * 8;
    let yc = middle_y
        .pixel()
        .max(0)
        .min(Number::of(view.height.saturating_sub(1)).0);
    let line = Line {
        x: x.0,
        y: yc,
        dx: 1,
        dy: 0,
    };
    let again = line.crosses(view, limit);
    let (middle_x, row_unit) = match again {
        Some((off, length)) => (x * 16 + 8 + off * 8, length),
        None => (core_end * 16 - i64::from(runs.core) * 8, unit),
    };
    let xc = middle_x
        .pixel()
        .max(0)
        .min(Number::of(view.width.saturating_sub(1)).0);
    let hits = i64::from(again.is_some()).saturating_add(count_diagonals(view, xc, yc, limit));
    if hits < 2 {
        return None;
    }
    Some(Pattern {
        middle: Point {
            x: middle_x,
            y: middle_y,
        },
        unit: (column_unit + row_unit) / 2,
        hits: Number::of(every) * hits,
        quality: Number(0),
        is_inverse: view.at(x.0, row.0) != DARK,
        is_used: false,
    })
}

// Adds the patterns whose middle is near a row.
fn scan_row(view: &View, y: usize, found: &mut Patterns) {
    let row = view.row(y);
    let mut runs = Runs::NONE;
    let mut start = 0usize;
    for x in 1..row.len().saturating_add(1) {
        if x < row.len() && row[x] == row[x - 1] {
            continue;
        }
        runs = runs.after(x.saturating_sub(start));
        start = x;
        if runs.first > 0
            && runs.is_middle()
            && let Some(pattern) = pattern_at(view, y, x, runs)
        {
            found.keep(&pattern);
        }
    }
}

/// Writes the patterns of a picture, and returns their number. The cells are 0 at first. Once the list is full, only the rows are
/// scanned that may go through one of its patterns.
pub(crate) fn scan(view: &View, list: &mut [Pattern], cells: &mut [u16]) -> usize {
    let mut found = Patterns {
        list,
        count: 0,
        cells,
        columns: (view.width / CELL).saturating_add(1),
        rows: (view.height / CELL).saturating_add(1),
    };
    let mut end = view.height;
    for y in 0..view.height {
        if y >= end {
            break;
        }
        let was_full = found.is_full();
        scan_row(view, y, &mut found);
        if found.is_full() && !was_full {
            end = found.end();
        }
    }
    found.count
}
