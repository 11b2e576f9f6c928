//! Finder patterns that are not seen in the scan of the rows, because some of their modules are wrong. Where two patterns that
//! are seen may be those of a symbol, the third one is looked for at its place: there it may have a few wrong modules, whichever
//! these are.

use crate::number::Number;
use crate::patterns::Pattern;
use crate::sides::toward;
use crate::triples::{Triple, is_like};
use crate::view::{DARK, OUTSIDE, Point, View};

/// Pairs of so many patterns are tried, the best ones.
const MOST: usize = 20;

/// A pattern whose quality is less is not tried.
const LEAST: Number = Number(240);

/// How good a pattern is taken to be that was not seen.
const QUALITY: i64 = 432;

/// Which two patterns of a symbol are seen.
#[derive(Clone, Copy)]
enum Pair {
    CornerAndRight,
    CornerAndBelow,
    RightAndBelow,
}

/// The steps from a module to the next one, to the right and downward. Here places are counted in quarters of a sixteenth of a
/// pixel.
#[derive(Clone, Copy)]
struct Steps {
    right: Point,
    down: Point,
}

/// How a pattern is looked for: how many places there are along a module, and how many of its modules may be wrong.
#[derive(Clone, Copy)]
struct Look {
    divisor: Number,
    most: u32,
}

/// First it is looked for in steps of a module.
const ROUGH: Look = Look {
    divisor: Number(1),
    most: 8,
};

/// Then it is looked for in steps of a quarter of a module. As in the file `look`, one module in eight may be wrong.
const FINE: Look = Look {
    divisor: Number(4),
    most: 6,
};

impl Steps {
    // Returns how many modules of a pattern with its middle at a place are wrong. Once they are more than `most`, no others
    // are counted.
    fn count_wrong(&self, view: &View, middle: Point, is_inverse: bool, most: u32) -> u32 {
        let mut row = middle.minus(self.right.plus(self.down).times(Number(3)));
        let mut wrong = 0u32;
        for y in 0..7usize {
            let mut place = row;
            for x in 0..7usize {
                let is_dark = x.abs_diff(3).max(y.abs_diff(3)) != 2;
                let seen = view.at(place.x.0 >> 6, place.y.0 >> 6) == DARK;
                wrong = wrong.saturating_add(u32::from(seen == (is_dark == is_inverse)));
                place = place.plus(self.right);
            }
            if wrong > most {
                return wrong;
            }
            row = row.plus(self.down);
        }
        wrong
    }

    // Returns the place at which a pattern fits best, among 25 around a place. Where it fits equally well at several places, it
    // is the mean of these.
    fn best(&self, view: &View, near: Point, is_inverse: bool, look: Look) -> Option<Point> {
        let mut least = look.most;
        let (mut sum, mut count) = (Point::NONE, Number(0));
        for j in -2..3i64 {
            for i in -2..3i64 {
                let way = self.right.times(Number(i)).plus(self.down.times(Number(j)));
                let place = near.plus(way.over(look.divisor));
                let wrong = self.count_wrong(view, place, is_inverse, least);
                if wrong < least {
                    least = wrong;
                    sum = Point::NONE;
                    count = Number(0);
                }
                if wrong == least {
                    sum = sum.plus(place);
                    count = count + 1;
                }
            }
        }
        if count == Number(0) {
            None
        } else {
            Some(sum.over(count))
        }
    }

    // Returns the place of a pattern that is up to two modules away from a place.
    fn seek(&self, view: &View, near: Point, is_inverse: bool) -> Option<Point> {
        let rough = self.best(view, near, is_inverse, ROUGH)?;
        self.best(view, rough, is_inverse, FINE)
    }
}

impl Pair {
    // Returns the places of the three patterns of a symbol, of which two are seen: of the one at the corner, the right one and
    // the lower one.
    fn places(self, first: Point, second: Point) -> (Point, Point, Point) {
        let way = second.minus(first);
        match self {
            Pair::CornerAndRight => {
                let down = Point {
                    x: -way.y,
                    y: way.x,
                };
                (first, second, first.plus(down))
            }
            Pair::CornerAndBelow => {
                let right = Point {
                    x: way.y,
                    y: -way.x,
                };
                (first, first.plus(right), second)
            }
            Pair::RightAndBelow => {
                let to_corner = Point {
                    x: way.x - way.y,
                    y: way.y + way.x,
                };
                (first.plus(to_corner.over(Number(2))), first, second)
            }
        }
    }

    // Returns the triple of the two patterns that are seen and a third one.
    fn triple(self, first: usize, second: usize, third: usize) -> Triple {
        let (corner, right, below) = match self {
            Pair::CornerAndRight => (first, second, third),
            Pair::CornerAndBelow => (first, third, second),
            Pair::RightAndBelow => (third, first, second),
        };
        Triple {
            score: Number(0),
            corner,
            right,
            below,
        }
    }
}

// Returns the third pattern of a symbol of which two are seen, if it is there and was not seen.
fn third(
    view: &View,
    patterns: &[Pattern],
    pair: Pair,
    first: &Pattern,
    second: &Pattern,
) -> Option<Pattern> {
    let (corner, right, below) = pair.places(first.middle, second.middle);
    let way = right.minus(corner);
    let length = way.square().root().most(Number(1));
    // The rows and columns of pixels cross a turned pattern aslant, so that its runs are longer than its modules.
    let unit = (first.unit + second.unit) / 2 * way.x.size().most(way.y.size()) / length;
    if length < unit * 12 || length > unit * 190 {
        return None;
    }
    let steps = Steps {
        right: toward(corner, right, unit * 4),
        down: toward(corner, below, unit * 4),
    };
    let near = match pair {
        Pair::CornerAndRight => below,
        Pair::CornerAndBelow => right,
        Pair::RightAndBelow => corner,
    };
    if view.at_place(near) == OUTSIDE {
        return None;
    }
    let place = steps.seek(view, near.times(Number(4)), first.is_inverse)?;
    let middle = place.over(Number(4));
    for other in patterns {
        if other.is_inverse == first.is_inverse && other.middle.steps_to(middle) < unit {
            return None;
        }
    }
    Some(Pattern {
        middle,
        unit,
        hits: Number(0),
        quality: Number(QUALITY),
        is_inverse: first.is_inverse,
        is_used: false,
    })
}

// Adds the triples of two patterns that are seen, by their indices, and a third one that is not. Returns the numbers of patterns
// and of triples.
fn add_thirds(
    view: &View,
    patterns: &mut [Pattern],
    triples: &mut [Triple],
    seen: (usize, usize),
    counts: (usize, usize),
) -> (usize, usize) {
    let (first, second) = seen;
    let (mut count, mut found) = counts;
    if first == second || first >= patterns.len() || second >= patterns.len() {
        return counts;
    }
    let (one, other) = (patterns[first], patterns[second]);
    if one.quality < LEAST || other.quality < LEAST || !is_like(&one, &other) {
        return counts;
    }
    for pair in [
        Pair::CornerAndRight,
        Pair::CornerAndBelow,
        Pair::RightAndBelow,
    ] {
        if count >= patterns.len() || found >= triples.len() {
            break;
        }
        if let Some(third) = third(view, &patterns[..count], pair, &one, &other) {
            patterns[count] = third;
            triples[found] = pair.triple(first, second, count);
            count += 1;
            found += 1;
        }
    }
    (count, found)
}

/// Writes the triples of two of the first `count` patterns and a third one that is not seen, which is added to the patterns.
/// Returns the number of patterns and the number of triples.
pub(crate) fn complete(
    view: &View,
    patterns: &mut [Pattern],
    count: usize,
    triples: &mut [Triple],
) -> (usize, usize) {
    let mut counts = (count, 0usize);
    for first in 0..count.min(MOST) {
        for second in 0..count.min(MOST) {
            counts = add_thirds(view, patterns, triples, (first, second), counts);
        }
    }
    counts
}
