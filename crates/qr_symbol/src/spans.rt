//! The spans of a strip. A span is a group of neighbouring rows that are drawn or read at once, or that are skipped
//! because they are outside the region. Spans follow each other in the direction in which the strip is filled (ISO/IEC
//! 18004:2015, 7.7.3).
//!
//! In the transposed square the two columns of a strip are rows, and one word of 64 bits holds 64 modules of such a
//! row. The drawing shows a square of four by four modules that are all in the region. Each number in the drawing is
//! the number of a bit of the codewords. The strip that is filled first has columns 3 and 2, and is filled upward. The
//! second one has columns 1 and 0, and is filled downward.
//!
//! ```text
//! symbol            transposed
//!  9  8  7  6        9 11 13 15   left column of the second strip
//! 11 10  5  4        8 10 12 14   right column of the second strip
//! 13 12  3  2        7  5  3  1   left column of the first strip
//! 15 14  1  0        6  4  2  0   right column of the first strip
//! ```

ghost use Rattle.std.specs.Prelude.{◌≡◌, ℕ, ◌%◌, ◌+◌, ◌-◌, ◌<◌, ◌≤◌, false, true};
ghost use Rattle.std.specs.Iterator.{at_most};
ghost use Rattle.qr_matrix.specs.Grid.{colour};
ghost use Rattle.qr_matrix.specs.BitRow.{has};
ghost use Rattle.qr_symbol.specs.Steps.Spans.{row_of, top_row, AreSpans, AreSpansOf, AreWithin, YieldsSpan};

use qr_layout::Strip;
use qr_matrix::{BitRow, Matrix};

// The columns of a strip, as rows of a transposed square.
#[derive(Clone, Copy)]
pub(crate) struct Columns {
    pub right: BitRow,
    pub left: BitRow,
}

pub(crate) fn columns_of(across: &Matrix, right: u8) -> Columns
    requires left_in { 1 ≤ right }
    requires right_in { right < across.now.side }
    ensures right { (row : ℕ) → has result.right row ≡ colour across.now right row }
    ensures left { (row : ℕ) → has result.left row ≡ colour across.now (right - 1) row }
    ensures within { AreWithin across.now.side result }
{
    Columns {
        right: across.bit_row(usize::from(right)),
        left: across.bit_row(usize::from(right - 1)),
    }
}

// `both` has the rows of a strip of which both modules are in the region, and `neither` has the rows of which no module
// is in the region.
#[derive(Clone, Copy)]
pub(crate) struct RegionRows {
    pub both: BitRow,
    pub neither: BitRow,
}

#[derive(Clone, Copy)]
pub(crate) enum Span {
    // Rows of which both modules are in the region: the topmost row, and the number of rows.
    Both { top: u8, count: u8 },
    // A row of which only the right module is in the region.
    Right { row: u8 },
    // A row of which only the left module is in the region.
    Left { row: u8 },
    // Rows of which no module is in the region.
    Outside,
}

// An iterator over the spans of a strip. `region` are the two columns of the strip, in which a bit is set exactly if
// its module is in the region. The side is at most 177, that of version 40.
#[derive(Drop)]
pub(crate) struct Spans {
    region: Columns,
    rows: RegionRows,
    strip: Strip,
    side: u8,
    // The most rows that a span `Both` may have.
    most: u8,
    // The number of rows in the spans that were already returned.
    passed: u8,
}

impl Spans {
    #[inline(always)]
    pub(crate) fn new(region: &Columns, strip: Strip, side: u8, most: u8) -> Spans
        requires side { side ≤ 177 }
        requires some { 1 ≤ most }
        ensures spans { AreSpans result }
        ensures strip { AreSpansOf side strip region.now most result }
        ensures first { result.passed ≡ 0 }
    {
        Spans {
            region: *region,
            rows: RegionRows {
                both: region.right & region.left,
                neither: !(region.right | region.left),
            },
            strip,
            side,
            most,
            passed: 0,
        }
    }

    // The number of rows whose bits are set in `rows`, counted from the next row on in the direction in which the strip
    // is filled. Counting ends before the first row whose bit is not set, at the end of the strip, or at the end of a
    // word of 64 bits.
    #[inline(always)]
    fn rows_set(&self, rows: &BitRow) -> u8
        requires side { self.now.side ≤ 177 }
        requires row_in { self.now.passed < self.now.side }
        ensures rows_in { self.now.passed + result ≤ self.now.side }
        ensures word { top_row self.now.side self.now.strip self.now.passed result % 64 + result ≤ 64 }
        ensures set { (j : ℕ) → self.now.passed ≤ j → j < self.now.passed + result
            → has rows.now (row_of self.now.side self.now.strip j) ≡ true }
        ensures ends { result ≡ 0 → has rows.now (row_of self.now.side self.now.strip self.now.passed) ≡ false }
    {
        if self.strip.upward {
            rows.ones_down_from(self.side - 1 - self.passed)
        } else {
            rows.ones_from(self.passed).min(self.side - self.passed)
        }
    }
}

impl Iterator for Spans {
    type Item = Span;

    ghost can_next = { AreSpans };

    ghost next_gives = { YieldsSpan };

    ghost remaining = { λ s. at_most (s.side - s.passed) };

    #[inline(always)]
    fn next(&mut self) -> Option<Span> {
        if self.passed == self.side {
            return None;
        }
        let count = self.rows_set(&self.rows.both).min(self.most);
        if count > 0 {
            let top = if self.strip.upward {
                self.side - count - self.passed
            } else {
                self.passed
            };
            self.passed += count;
            return Some(Span::Both { top, count });
        }
        let outside = self.rows_set(&self.rows.neither);
        if outside > 0 {
            self.passed += outside;
            return Some(Span::Outside);
        }
        let row = if self.strip.upward {
            self.side - 1 - self.passed
        } else {
            self.passed
        };
        self.passed += 1;
        if self.region.right.at(row) {
            Some(Span::Right { row })
        } else {
            Some(Span::Left { row })
        }
    }
}
