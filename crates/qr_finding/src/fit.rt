//! How well the patterns that every symbol has fit a square of modules in a picture.

use crate::blocks::Thresholds;
use crate::number::Number;
use crate::quad::Quad;
use crate::view::{Point, View};
use qr_sampling::{Map, Picture};

/// What a search looks at: the picture, its thresholds, its dark pixels, which may be those of a smaller picture, and whether
/// the symbol is light on dark.
#[derive(Clone, Copy)]
pub(crate) struct Scene<'s, 'p, 't, 'v> {
    pub(crate) picture: &'s Picture<'p>,
    pub(crate) thresholds: Thresholds<'t>,
    pub(crate) view: View<'v>,
    pub(crate) is_inverse: bool,
}

/// How well modules fit: the sum of how far they are on the right side of the threshold, the number of those that are on the
/// right side, and the number of all.
#[derive(Clone, Copy)]
pub(crate) struct Fit {
    pub(crate) sum: i64,
    pub(crate) right: i64,
    pub(crate) all: i64,
}

// Which patterns are looked at, and how far from the middle of each module, in eighths of a module.
#[derive(Clone, Copy)]
pub(crate) struct Looks {
    pub(crate) spread: u32,
    pub(crate) with_alignment: bool,
}

// The greatest distance from the threshold that counts.
const STEP_MAX: i64 = 48;

impl Fit {
    pub(crate) const NONE: Fit = Fit {
        sum: 0,
        right: 0,
        all: 0,
    };

    fn plus(self, distance: i64) -> Fit {
        Fit {
            sum: self
                .sum
                .saturating_add(distance.max(-STEP_MAX).min(STEP_MAX)),
            right: self.right.saturating_add(i64::from(distance > 0)),
            all: self.all.saturating_add(1),
        }
    }

    // Returns the share of the modules that are on the right side, in parts of 1,024.
    pub(crate) fn share(self) -> Number {
        Number(self.right) * 1024 / Number(self.all)
    }
}

impl Scene<'_, '_, '_, '_> {
    // Returns how far the brightness at a place is on the right side of the threshold.
    pub(crate) fn distance(&self, place: Point, limit: u8, is_dark: bool) -> i64 {
        let x = (place.x - 8).index().min(1 << 20) as u32;
        let y = (place.y - 8).index().min(1 << 20) as u32;
        let distance = i64::from(limit) - i64::from(self.picture.brightness(x, y));
        if is_dark == self.is_inverse {
            -distance
        } else {
            distance
        }
    }

    fn look(&self, map: &Map, u: usize, v: usize, is_dark: bool) -> i64 {
        let place = place_of(map, u, v);
        self.distance(place, self.thresholds.at(place), is_dark)
    }

    // Adds the places of a module at which it is looked: its middle, or the corners of a square around it.
    fn add_module(
        &self,
        map: &Map,
        spread: u32,
        place: (usize, usize),
        is_dark: bool,
        fit: Fit,
    ) -> Fit {
        let (u, v) = (place.0.saturating_mul(8), place.1.saturating_mul(8));
        let low = 4usize.saturating_sub(spread as usize);
        let high = (spread as usize).saturating_add(4);
        let mut all = fit;
        for (x, y) in [(low, low), (high, low), (low, high), (high, high)] {
            all = all.plus(self.look(map, u.saturating_add(x), v.saturating_add(y), is_dark));
            if spread == 0 {
                break;
            }
        }
        all
    }

    // Adds the modules of a pattern of rings around a module, up to a distance from it, as far as they are in the symbol.
    fn add_rings(&self, map: &Map, side: usize, rings: Rings, spread: u32, fit: Fit) -> Fit {
        let mut all = fit;
        let (column, row) = rings.middle;
        for y in row.saturating_sub(rings.reach)..row
            .saturating_add(rings.reach)
            .saturating_add(1)
            .min(side)
        {
            for x in column.saturating_sub(rings.reach)..column
                .saturating_add(rings.reach)
                .saturating_add(1)
                .min(side)
            {
                let ring = x.abs_diff(column).max(y.abs_diff(row));
                all = self.add_module(map, spread, (x, y), rings.is_dark(ring), all);
            }
        }
        all
    }

    // Adds the modules of both timing patterns.
    fn add_timing(&self, map: &Map, side: usize, fit: Fit) -> Fit {
        let mut all = fit;
        for k in 8..side.saturating_sub(8) {
            let at = k.saturating_mul(8).saturating_add(4);
            all = all.plus(self.look(map, at, 52, k % 2 == 0));
            all = all.plus(self.look(map, 52, at, k % 2 == 0));
        }
        all
    }

    /// Returns how well the finder, the timing and maybe the alignment patterns fit.
    pub(crate) fn fit(&self, quad: &Quad, looks: Looks) -> Fit {
        self.fit_above(quad, looks, i64::MIN)
    }

    /// The same, but if the sum is not above a number, not all of the modules need be looked at. Then the sum that is returned is
    /// not above it either.
    pub(crate) fn fit_above(&self, quad: &Quad, looks: Looks, least: i64) -> Fit {
        let Some(map) = quad.map() else {
            return Fit {
                sum: -(1 << 30),
                right: 0,
                all: 1,
            };
        };
        let side = quad.side;
        let far = side.saturating_sub(4);
        let goal = Goal {
            least,
            all: looks.count(side),
        };
        let mut all = Fit::NONE;
        if looks.with_alignment {
            all = self.add_alignment(&map, side, looks.spread, &goal, all);
        }
        if goal.is_out_of_reach(all) {
            return all;
        }
        all = self.add_timing(&map, side, all);
        for middle in [(far, 3), (3, far), (3, 3)] {
            if goal.is_out_of_reach(all) {
                return all;
            }
            all = self.add_rings(&map, side, Rings::finder(middle), looks.spread, all);
        }
        all
    }

    // Adds the alignment patterns at the right, at the bottom and on the diagonal, the last one first. If the goal is out of reach,
    // the others are left out.
    fn add_alignment(&self, map: &Map, side: usize, spread: u32, goal: &Goal, fit: Fit) -> Fit {
        let mut all = fit;
        let count = alignment_count(side);
        for j in (0..count).rev() {
            for i in (0..count).rev() {
                let last = count.saturating_sub(1);
                let is_finder = (i == 0 && j == 0)
                    || (i == 0 && j == last)
                    || (j == 0 && i == last);
                if !is_finder && (i == last || j == last || i == j) {
                    let middle = (alignment_place(side, i), alignment_place(side, j));
                    all = self.add_rings(map, side, Rings::alignment(middle), spread, all);
                    if goal.is_out_of_reach(all) {
                        return all;
                    }
                }
            }
        }
        all
    }

    /// Returns the share of the modules of both timing patterns that are right, in parts of 1,024.
    pub(crate) fn timing_share(&self, quad: &Quad) -> Number {
        match quad.map() {
            Some(map) => self.add_timing(&map, quad.side, Fit::NONE).share(),
            None => Number(0),
        }
    }

    /// Returns the share of the modules of the finder and timing patterns that are right, in parts of 1,024.
    pub(crate) fn share(&self, quad: &Quad) -> Number {
        let looks = Looks {
            spread: 0,
            with_alignment: false,
        };
        self.fit(quad, looks).share()
    }
}

/// Returns where a place of the symbol is, in eighths of a module.
pub(crate) fn place_of(map: &Map, u: usize, v: usize) -> Point {
    let (u, v) = (u.min(16_000) as u32, v.min(16_000) as u32);
    Point {
        x: Number(i64::from(map.column_of(u, v))),
        y: Number(i64::from(map.row_of(u, v))),
    }
}

impl Looks {
    // Returns at how many places is looked, at most.
    fn count(self, side: usize) -> i64 {
        let alignments = if self.with_alignment {
            alignment_count(side).saturating_mul(3).saturating_sub(5)
        } else {
            0
        };
        let modules = alignments.saturating_mul(25).saturating_add(3 * 64);
        let places = if self.spread == 0 { 1 } else { 4 };
        let timing = side.saturating_sub(16).saturating_mul(2);
        Number::of(modules.saturating_mul(places).saturating_add(timing)).0
    }
}

/// What a fit is for: a sum that is above a number, and at how many places is looked.
#[derive(Clone, Copy)]
struct Goal {
    least: i64,
    all: i64,
}

impl Goal {
    // Returns whether the sum cannot be above the number, wherever the places that are left are.
    fn is_out_of_reach(&self, fit: Fit) -> bool {
        let left = self.all.saturating_sub(fit.all);
        fit.sum.saturating_add(left.saturating_mul(STEP_MAX)) <= self.least
    }
}

/// A pattern of rings around a module: its middle, the distance up to which it is looked at, and the first ring that is
/// light.
#[derive(Clone, Copy)]
struct Rings {
    middle: (usize, usize),
    reach: usize,
    light: usize,
}

impl Rings {
    // A finder pattern, and the light modules around it.
    fn finder(middle: (usize, usize)) -> Rings {
        Rings {
            middle,
            reach: 4,
            light: 2,
        }
    }

    fn alignment(middle: (usize, usize)) -> Rings {
        Rings {
            middle,
            reach: 2,
            light: 1,
        }
    }

    fn is_dark(&self, ring: usize) -> bool {
        ring != self.light && ring != 4
    }
}

// Returns how many alignment patterns are in a row.
fn alignment_count(side: usize) -> usize {
    let version = side.saturating_sub(17) / 4;
    if version < 2 {
        0
    } else {
        (version / 7).saturating_add(2)
    }
}

// Returns the column, or the row, of the alignment patterns that `index` counts.
fn alignment_place(side: usize, index: usize) -> usize {
    if index == 0 {
        return 6;
    }
    let version = side.saturating_sub(17) / 4;
    let count = alignment_count(side);
    let gaps = count.saturating_sub(1).saturating_mul(2).max(1);
    let steps = version
        .saturating_mul(4)
        .saturating_add(count.saturating_mul(2))
        .saturating_add(1);
    let step = if version == 32 {
        26
    } else {
        (steps / gaps).saturating_mul(2)
    };
    side.saturating_sub(7).saturating_sub(
        count
            .saturating_sub(1)
            .saturating_sub(index)
            .saturating_mul(step),
    )
}
