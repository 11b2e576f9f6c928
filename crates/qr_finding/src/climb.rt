//! Moves the corners of a square of modules until the patterns that every symbol has fit it.

use crate::fit::{Looks, Scene, place_of};
use crate::number::Number;
use crate::quad::Quad;
use crate::view::Point;

/// How the corners are moved: by a first step, which is halved down to the least one, and how many of the corners.
#[derive(Clone, Copy)]
pub(crate) struct Steps {
    pub(crate) first: Number,
    pub(crate) least: Number,
    pub(crate) corners: usize,
}

// Returns the place that is a step away, in one of four directions.
fn moved(place: Point, step: Number, direction: usize) -> Point {
    let (x, y) = match direction {
        0 => (place.x + step, place.y),
        1 => (place.x - step, place.y),
        2 => (place.x, place.y + step),
        _ => (place.x, place.y - step),
    };
    Point { x, y }
}

// Moves the corners one after the other, each by a step in each direction in which the patterns fit better, up to three times.
// Returns the square and its fit.
fn moved_by(
    scene: &Scene,
    quad: Quad,
    best: i64,
    looks: Looks,
    steps: (Number, usize),
) -> (Quad, i64) {
    let (mut quad, mut best) = (quad, best);
    let (step, corners) = steps;
    // The number of steps, among the last ones, that are known to be in vain.
    let mut still = 0usize;
    let mut was_moved = false;
    for k in 0..corners.min(4) * 12 {
        if still >= corners.min(4) * 4 {
            break;
        }
        let (corner, direction) = (k / 4 % corners.max(1), k % 4);
        // The step back from a better place is not tried.
        let is_back = direction % 2 == 1 && was_moved;
        was_moved = false;
        still = still.saturating_add(1);
        if is_back {
            continue;
        }
        let trial = quad.with_place(corner, moved(quad.place(corner), step, direction));
        let now = scene.fit_above(&trial, looks, best).sum;
        if now > best {
            best = now;
            quad = trial;
            was_moved = true;
            still = 0;
        }
    }
    (quad, best)
}

/// Returns the square with its corners moved, one after the other, while the patterns fit better.
pub(crate) fn climb(scene: &Scene, quad: &Quad, steps: Steps, looks: Looks) -> Quad {
    let mut quad = *quad;
    let mut best = scene.fit(&quad, looks).sum;
    let mut step = steps.first;
    for _ in 0..40 {
        if step < steps.least || step.0 <= 0 {
            break;
        }
        let (next, sum) = moved_by(scene, quad, best, looks, (step, steps.corners));
        quad = next;
        best = sum;
        step = step / 2;
    }
    quad
}

// How well an alignment pattern fits at most: 25 modules, each 48 or more away from the threshold.
const FIT_MAX: i64 = 1200;

/// The places of the last alignment pattern and of the modules beside it.
#[derive(Clone, Copy)]
struct Target {
    middle: Point,
    right: Point,
    down: Point,
}

fn target_of(quad: &Quad) -> Option<Target> {
    let at = quad.last().saturating_mul(8).saturating_add(4);
    let map = quad.map()?;
    let middle = place_of(&map, at, at);
    Some(Target {
        middle,
        right: place_of(&map, at.saturating_add(8), at).minus(middle),
        down: place_of(&map, at, at.saturating_add(8)).minus(middle),
    })
}

impl Target {
    // Returns the place that is so many modules away, times a divisor.
    fn place(&self, from: Point, right: i64, down: i64, divisor: i64) -> Point {
        let way = self
            .right
            .times(Number(right))
            .plus(self.down.times(Number(down)));
        from.plus(way.over(Number(divisor)))
    }

    // Returns how well an alignment pattern fits a place: the sum of distances, and the number of modules that are right, or
    // `None` if these are fewer than 20 of 25.
    fn fit(&self, scene: &Scene, middle: Point) -> Option<Number> {
        let limit = scene.thresholds.at(middle);
        let (mut sum, mut right) = (Number(0), 0u32);
        for j in 0..5u32 {
            let y = i64::from(j) - 2;
            for x in -2..3i64 {
                let is_dark = x.unsigned_abs().max(y.unsigned_abs()) != 1;
                let distance = scene.distance(self.place(middle, x, y, 1), limit, is_dark);
                sum = sum + distance.max(-48).min(48);
                right = right.saturating_add(u32::from(distance > 0));
            }
            if right.saturating_add(20 - 5 * j) < 20 {
                return None;
            }
        }
        if right < 20 { None } else { Some(sum) }
    }

    // Returns the place near the target at which an alignment pattern fits best. The places are looked at in rings, each one a
    // quarter of a module farther away. A place counts less the farther away it is, so the search ends where no place of the next
    // rings can count more than the best one.
    fn best(&self, scene: &Scene, reach: usize) -> Option<Point> {
        let mut best = None;
        let mut best_sum = Number(0);
        for ring in 0..reach.min(16) * 4 + 1 {
            if Number(FIT_MAX) * 64 - Number::of(ring) * 16 <= best_sum {
                break;
            }
            for j in 0..ring * 2 + 1 {
                let is_edge = j == 0 || j == ring * 2;
                let step = if is_edge || ring == 0 { 1 } else { ring * 2 };
                for i in (0..ring * 2 + 1).step_by(step) {
                    let right = Number::of(i) - Number::of(ring);
                    let down = Number::of(j) - Number::of(ring);
                    let Some((place, sum)) = self.sum_at(scene, right, down) else {
                        continue;
                    };
                    if sum > best_sum {
                        best_sum = sum;
                        best = Some(place);
                    }
                }
            }
        }
        best
    }

    // Returns the place that is so many quarters of a module away, and how much an alignment pattern there counts, or `None` if
    // it is not in the picture or no such pattern is there.
    fn sum_at(&self, scene: &Scene, right: Number, down: Number) -> Option<(Point, Number)> {
        let place = self.place(self.middle, right.0, down.0, 4);
        let width = Number::of(usize::from(scene.picture.width)) * 16;
        let height = Number::of(usize::from(scene.picture.height)) * 16;
        let is_in_picture = place.x >= Number(0)
            && place.y >= Number(0)
            && place.x < width
            && place.y < height;
        if !is_in_picture {
            return None;
        }
        let fit = self.fit(scene, place)?;
        Some((place, fit * 64 - (right.size() + down.size()) * 16))
    }
}

/// Looks for the last alignment pattern up to so many modules away from its place, and returns the square with a fourth
/// place with which the map meets it.
pub(crate) fn seek_alignment(scene: &Scene, quad: &Quad, reach: usize) -> Quad {
    let mut quad = *quad;
    let Some(target) = target_of(&quad) else {
        return quad;
    };
    let Some(best) = target.best(scene, reach) else {
        return quad;
    };
    let at = quad.last().saturating_mul(8).saturating_add(4);
    for _ in 0..4 {
        let Some(map) = quad.map() else {
            break;
        };
        let way = best
            .minus(place_of(&map, at, at))
            .times(Number::of(quad.last()));
        let across = quad
            .across
            .plus(way.over(Number::of(quad.side.saturating_sub(10))));
        quad = quad.with_place(0, across);
    }
    quad
}
