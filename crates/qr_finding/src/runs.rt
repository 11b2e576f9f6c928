//! The runs of light and dark pixels across a finder pattern.

ghost use Rattle.std.specs.Prelude.{◌≤◌, ◌<◌, ◌*◌, ◌+◌};

use crate::number::Number;
use crate::view::View;

/// A longer run is taken to be so long.
const RUN_MAX: u32 = 32_767;

/// More pixels than a line has.
const LINE_MAX: usize = 65_535;

/// Five runs, one after the other.
#[derive(Clone, Copy)]
pub(crate) struct Runs {
    pub(crate) first: u32,
    pub(crate) one: u32,
    pub(crate) core: u32,
    pub(crate) other: u32,
    pub(crate) last: u32,
    ghost first_in: { first ≤ 32767 },
    ghost one_in: { one ≤ 32767 },
    ghost core_in: { core ≤ 32767 },
    ghost other_in: { other ≤ 32767 },
    ghost last_in: { last ≤ 32767 },
}

// Returns the length of a run.
fn capped(n: Number) -> u32
    ensures { result ≤ 32767 }
{
    n.index().min(RUN_MAX as usize) as u32
}

impl Runs {
    pub(crate) const NONE: Runs = Runs {
        first: 0,
        one: 0,
        core: 0,
        other: 0,
        last: 0,
    };

    // Returns the five runs with these lengths.
    pub(crate) fn of(
        first: Number,
        one: Number,
        core: Number,
        other: Number,
        last: Number,
    ) -> Runs {
        Runs {
            first: capped(first),
            one: capped(one),
            core: capped(core),
            other: capped(other),
            last: capped(last),
        }
    }

    // Returns the last four of the runs and one more.
    pub(crate) fn after(self, run: usize) -> Runs {
        Runs {
            first: self.one,
            one: self.core,
            core: self.other,
            other: self.last,
            last: run.min(RUN_MAX as usize) as u32,
        }
    }

    // Returns the length of the inner three runs.
    fn inner(self) -> u32
        ensures { result ≤ 3 * 32767 }
    {
        self.one + self.core + self.other
    }

    // Returns the length of a module in sixteenths, if the inner three runs are five modules.
    pub(crate) fn unit(self) -> Number {
        Number(i64::from(self.inner() * 16 / 5))
    }

    // Returns whether the runs may go across the middle of a finder pattern: 1, 1, 3, 1 and 1 modules. The first and the
    // last run may go on, into a neighbour.
    pub(crate) fn is_middle(self) -> bool {
        let inner = self.inner();
        let slack = 5 * inner + 9;
        (5 * self.core).abs_diff(3 * inner) <= inner
            && 10 * (5 * self.one).abs_diff(inner) <= slack
            && 10 * (5 * self.other).abs_diff(inner) <= slack
            && 10 * self.first + 4 >= inner
            && 10 * self.last + 4 >= inner
    }
}

/// The runs from a pixel in one direction: the rest of its own run, and the next two.
#[derive(Clone, Copy)]
struct Half {
    own: u32,
    next: u32,
    last: u32,
    ghost own_in: { own ≤ 8191 },
    ghost next_in: { next ≤ 8191 },
    ghost last_in: { last ≤ 8191 },
}

/// A line of pixels: one of them, and the step to the next.
#[derive(Clone, Copy)]
pub(crate) struct Line {
    pub(crate) x: i64,
    pub(crate) y: i64,
    pub(crate) dx: i64,
    pub(crate) dy: i64,
}

// Returns how many pixels of a row, or of a column, are in a picture from one of them on, in one direction.
fn steps_inside(at: i64, step: i64, count: usize) -> u32 {
    if at < 0 || at as usize >= count {
        return 0;
    }
    let index = at as usize;
    let all = if step > 0 {
        count - index
    } else if step < 0 {
        index.saturating_add(1)
    } else {
        LINE_MAX
    };
    all.min(LINE_MAX) as u32
}

// Returns how many pixels have a colour, from one of them on, up to `most`.
fn run_len(pixels: &[u8], start: usize, step: usize, colour: u8, most: u32) -> u32
    ensures { result ≤ most }
{
    let mut at = start;
    for k in 0..most {
        if at >= pixels.len() || pixels[at] != colour {
            return k;
        }
        at = at.wrapping_add(step);
    }
    most
}

impl Line {
    fn back(self) -> Line {
        Line {
            x: self.x,
            y: self.y,
            dx: 0i64.saturating_sub(self.dx),
            dy: 0i64.saturating_sub(self.dy),
        }
    }

    // Returns how many pixels of the line are in the picture.
    fn inside(self, view: &View) -> u32 {
        steps_inside(self.x, self.dx, view.width).min(steps_inside(self.y, self.dy, view.height))
    }

    // Returns the distance from the index of a pixel to that of the next one. Below 0 it wraps.
    fn index_step(self, view: &View) -> usize {
        let across = if self.dx < 0 {
            0usize.wrapping_sub(1)
        } else {
            usize::from(self.dx > 0)
        };
        if self.dy > 0 {
            across.wrapping_add(view.width)
        } else if self.dy < 0 {
            across.wrapping_sub(view.width)
        } else {
            across
        }
    }

    // Counts the runs from the first pixel on. The first two have limits, past which there is no finder pattern. The third
    // is counted up to a limit.
    fn half(self, view: &View, limit: u32) -> Option<Half>
        requires { limit < 4000 }
    {
        let start = view.index_of(self.x, self.y)?;
        if start >= view.pixels.len() {
            return None;
        }
        let colour = view.pixels[start];
        let (step, left) = (self.index_step(view), self.inside(view));
        let own_max = (2 * limit + 2) / 3;
        let own = run_len(view.pixels, start, step, colour, left.min(own_max + 1));
        if own == 0 || own > own_max {
            return None;
        }
        let left = left - own;
        let start = start.wrapping_add(step.wrapping_mul(own as usize));
        let next_max = limit / 2 + 1;
        let next = run_len(
            view.pixels,
            start,
            step,
            1 - colour.min(1),
            left.min(next_max + 1),
        );
        if next == 0 || next > next_max {
            return None;
        }
        let left = left - next;
        let start = start.wrapping_add(step.wrapping_mul(next as usize));
        let last = run_len(view.pixels, start, step, colour, left.min(limit + 1));
        if last == 0 {
            return None;
        }
        Some(Half { own, next, last })
    }

    // If the runs along the line go across a finder pattern, returns how far its middle is from the first pixel, in half
    // pixels, and the length of a module in sixteenths.
    pub(crate) fn crosses(self, view: &View, limit: u32) -> Option<(Number, Number)>
        requires { limit < 4000 }
    {
        let ahead = self.half(view, limit)?;
        let behind = self.back().half(view, limit)?;
        let runs = Runs {
            first: behind.last,
            one: behind.next,
            core: (ahead.own + behind.own).saturating_sub(1),
            other: ahead.next,
            last: ahead.last,
        };
        if !runs.is_middle() {
            return None;
        }
        let offset = i64::from(ahead.own + ahead.next) - i64::from(behind.own + behind.next);
        Some((Number(offset), runs.unit()))
    }
}
