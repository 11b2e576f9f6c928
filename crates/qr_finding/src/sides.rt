//! The number of modules on a side of a symbol, by the size of its modules and by its timing patterns.

use crate::fit::Scene;
use crate::number::Number;
use crate::patterns::Pattern;
use crate::quad::Quad;
use crate::triples::Triple;
use crate::view::{Point, View};

// Returns the vector of a length in the direction from one place to another.
pub(crate) fn toward(from: Point, to: Point, length: Number) -> Point {
    let way = to.minus(from);
    way.times(length).over(way.square().root().most(Number(1)))
}

// Returns the end of the second run from the middle of a pattern on, in sixteenths of a pixel, or `None` if it is more than
// four modules away.
fn second_end(view: &View, pattern: &Pattern, way: Point) -> Option<Number> {
    let mut before = view.at_place(pattern.middle);
    let mut changes = 0u8;
    // The place is counted in 64ths of a sixteenth.
    let mut place = pattern.middle.times(Number(64));
    for k in 1..pattern.unit.index().min(100_000) {
        place = place.plus(way);
        let now = view.at(place.x.0 >> 10, place.y.0 >> 10);
        if now != before {
            before = now;
            if changes == 1 {
                return Some(Number::of(k) * 4);
            }
            changes = 1;
        }
    }
    None
}

// Returns the length of a module at a pattern along a direction, by the outer edges of its light ring. `way` has the length
// 256. Where there are no such edges, and in a pattern that was not seen, it is the length that is known.
fn unit_along(view: &View, pattern: &Pattern, way: Point) -> Number {
    if pattern.hits == Number(0) {
        return pattern.unit;
    }
    let back = Point {
        x: -way.x,
        y: -way.y,
    };
    let edges = match (
        second_end(view, pattern, way),
        second_end(view, pattern, back),
    ) {
        (Some(ahead), Some(behind)) => (ahead + behind) / 5,
        _ => Number(0),
    };
    if edges == Number(0) {
        pattern.unit
    } else {
        edges
    }
}

// Returns how often light and dark change from one place to another.
fn changes_between(view: &View, from: Point, to: Point) -> usize {
    let way = to.minus(from);
    let steps = way.x.size().most(way.y.size()) / 8 + 1;
    let mut before = view.at_place(from);
    let mut changes = 0usize;
    // The place and the step are counted in parts of a sixteenth, of which it has 2^16.
    let mut place = from.times(Number(1 << 16));
    let step = way.times(Number(1 << 16)).over(steps);
    for _ in 0..steps.index().min(200_000) {
        place = place.plus(step);
        let now = view.at(place.x.0 >> 20, place.y.0 >> 20);
        if now != before {
            before = now;
            changes = changes.saturating_add(1);
        }
    }
    changes
}

/// The lengths of a module at three patterns: at the corner, the right and the lower one, to the right and downward.
#[derive(Clone, Copy)]
struct Units {
    corner_right: Number,
    corner_down: Number,
    right_right: Number,
    right_down: Number,
    below_right: Number,
    below_down: Number,
}

/// Three patterns of a symbol.
#[derive(Clone, Copy)]
pub(crate) struct Corners {
    pub(crate) corner: Pattern,
    pub(crate) right: Pattern,
    pub(crate) below: Pattern,
}

/// Sides that may be right, the likeliest first, and their number.
#[derive(Clone, Copy)]
struct Sides {
    list: [usize; 8],
    count: usize,
}

impl Sides {
    fn with(self, side: Number, estimate: Number) -> Sides {
        let mut sides = self;
        let n = side.index();
        let is_possible = n >= 21 && n <= 177 && n % 4 == 1;
        if !is_possible || (side * 16 - estimate).size() > estimate / 5 + 48 {
            return sides;
        }
        for k in 0..8usize {
            if k < self.count && self.list[k] == n {
                return sides;
            }
        }
        if self.count < 8 {
            sides.list[self.count] = n;
            sides.count = self.count + 1;
        }
        sides
    }
}

impl Corners {
    /// Returns the patterns of a triple.
    pub(crate) fn of(patterns: &[Pattern], triple: &Triple) -> Option<Corners> {
        Some(Corners {
            corner: *patterns.get(triple.corner)?,
            right: *patterns.get(triple.right)?,
            below: *patterns.get(triple.below)?,
        })
    }

    /// Returns the length of a module, in sixteenths of a pixel of the whole picture.
    pub(crate) fn unit(&self, scale: i64) -> Number {
        (self.corner.unit + self.right.unit + self.below.unit) / 3 * scale
    }

    /// Returns how well the worst of the three is seen.
    pub(crate) fn worst_quality(&self) -> Number {
        self.corner
            .quality
            .least(self.right.quality)
            .least(self.below.quality)
    }

    fn units(&self, view: &View) -> Units {
        let to_right = toward(self.corner.middle, self.right.middle, Number(256));
        let down = toward(self.corner.middle, self.below.middle, Number(256));
        Units {
            corner_right: unit_along(view, &self.corner, to_right),
            corner_down: unit_along(view, &self.corner, down),
            right_right: unit_along(view, &self.right, to_right),
            right_down: unit_along(view, &self.right, down),
            below_right: unit_along(view, &self.below, to_right),
            below_down: unit_along(view, &self.below, down),
        }
    }

    // Returns the number of modules on a side by the changes along the timing pattern from the corner to the right.
    fn side_across(&self, view: &View, units: &Units) -> Number {
        let from = toward(self.corner.middle, self.below.middle, units.corner_down * 3);
        let to = toward(self.corner.middle, self.below.middle, units.right_down * 3);
        Number::of(changes_between(
            view,
            self.corner.middle.plus(from),
            self.right.middle.plus(to),
        )) + 13
    }

    // Returns the number of modules on a side by the changes along the timing pattern from the corner downward.
    fn side_down(&self, view: &View, units: &Units) -> Number {
        let from = toward(
            self.corner.middle,
            self.right.middle,
            units.corner_right * 3,
        );
        let to = toward(self.corner.middle, self.right.middle, units.below_right * 3);
        Number::of(changes_between(
            view,
            self.corner.middle.plus(from),
            self.below.middle.plus(to),
        )) + 13
    }

    // Returns sixteen times the number of modules on a side, by the lengths of the modules.
    fn estimate(&self, units: &Units) -> Number {
        let right = self.right.middle.minus(self.corner.middle).square().root();
        let below = self.below.middle.minus(self.corner.middle).square().root();
        let across = right * 32 / (units.corner_right + units.right_right).most(Number(1));
        let down = below * 32 / (units.corner_down + units.below_down).most(Number(1));
        (across + down) / 2 + 112
    }

    // Returns the likely sides. If `is_strict` is true, there are none where the changes along the timing patterns are far from what
    // the size of the modules wants, as between letters: both by more than a third, or one by more than a half.
    fn sides(&self, view: &View, units: &Units, is_strict: bool) -> Sides {
        let estimate = self.estimate(units);
        let near = (estimate / 16 - 15) / 4 * 4 + 17;
        let step = if estimate / 16 >= near { 4 } else { -4 };
        let none = Sides {
            list: [0; 8],
            count: 0,
        };
        let (across, down) = (self.side_across(view, units), self.side_down(view, units));
        let off_across = (across * 16 - estimate).size();
        let off_down = (down * 16 - estimate).size();
        let is_far = off_across.least(off_down) > estimate / 3
            || off_across.most(off_down) > estimate / 2;
        if is_strict && is_far {
            return none;
        }
        none.with(across, estimate)
            .with(down, estimate)
            .with(near, estimate)
            .with(near + step, estimate)
            .with(near - step, estimate)
            .with(near + 8, estimate)
    }

    /// Returns the square that fits the timing patterns best, among the likely sides and two fourth places, and the share of
    /// the modules of these patterns that are right, in parts of 1,024. `is_strict` leaves out what may be letters.
    pub(crate) fn choose(&self, scene: &Scene, scale: i64, is_strict: bool) -> (Quad, Number) {
        let units = self.units(&scene.view);
        let to_right = (units.corner_right * (1 << 20) / units.right_right.most(Number(1))).root();
        let to_below = (units.corner_down * (1 << 20) / units.below_down.most(Number(1))).root();
        let sides = self.sides(&scene.view, &units, is_strict);
        let (mut best, mut share) = (Quad::NONE, Number(0));
        for k in 0..16usize {
            if k / 2 >= sides.count || share >= Number(1000) {
                break;
            }
            let quad = self.quad(scale, sides.list[k / 2]);
            let across = if k % 2 == 0 {
                quad.fourth(Number(1024), Number(1024))
            } else {
                quad.fourth(to_right, to_below)
            };
            let trial = quad.with_place(0, across);
            let now = scene.timing_share(&trial);
            if now > share {
                share = now;
                best = trial;
            }
        }
        (best, share)
    }

    // Returns the square in the whole picture, without its fourth place.
    fn quad(&self, scale: i64, side: usize) -> Quad {
        let scale = Number(scale);
        Quad {
            corner: self.corner.middle.times(scale),
            right: self.right.middle.times(scale),
            below: self.below.middle.times(scale),
            across: self.corner.middle,
            side,
        }
    }
}
