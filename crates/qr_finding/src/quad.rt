//! A square of modules in perspective, and its map.

use crate::number::Number;
use crate::view::Point;
use qr_sampling::{Form, Map};

/// The middles of the three finder patterns of a symbol, the place where that of a fourth one would be, and the side of the
/// symbol in modules.
#[derive(Clone, Copy)]
pub struct Quad {
    pub(crate) corner: Point,
    pub(crate) right: Point,
    pub(crate) below: Point,
    pub(crate) across: Point,
    pub(crate) side: usize,
}

// A greater coefficient of the divisor is made smaller.
const DIVISOR_MAX: i64 = 1 << 22;

impl Quad {
    /// No square. Work memory is made of it.
    pub const NONE: Quad = Quad {
        corner: Point {
            x: Number(0),
            y: Number(0),
        },
        right: Point {
            x: Number(0),
            y: Number(0),
        },
        below: Point {
            x: Number(0),
            y: Number(0),
        },
        across: Point {
            x: Number(0),
            y: Number(0),
        },
        side: 0,
    };

    pub(crate) fn last(&self) -> usize {
        self.side.saturating_sub(7)
    }

    // Returns the place of the corners that `index` counts: the fourth place first.
    pub(crate) fn place(&self, index: usize) -> Point {
        match index {
            0 => self.across,
            1 => self.right,
            2 => self.below,
            _ => self.corner,
        }
    }

    pub(crate) fn with_place(&self, index: usize, place: Point) -> Quad {
        let mut quad = *self;
        match index {
            0 => quad.across = place,
            1 => quad.right = place,
            2 => quad.below = place,
            _ => quad.corner = place,
        }
        quad
    }

    // Returns the coefficients of the divisor of the map: those of the two directions, and the one at the first middle.
    fn divisor(&self) -> Option<(Number, Number, Number)> {
        let across = self.across.minus(self.corner);
        let right = self.right.minus(self.corner);
        let below = self.below.minus(self.corner);
        let first = right.minus(across);
        let second = below.minus(across);
        let sum = across.minus(right).minus(below);
        let mut den = first.x * second.y - second.x * first.y;
        let mut g = sum.x * second.y - second.x * sum.y;
        let mut h = first.x * sum.y - sum.x * first.y;
        if den.0 < 0 {
            den = -den;
            g = -g;
            h = -h;
        }
        for _ in 0..40 {
            if den.0 < DIVISOR_MAX && g.size().0 < DIVISOR_MAX && h.size().0 < DIVISOR_MAX {
                break;
            }
            den = den / 2;
            g = g / 2;
            h = h / 2;
        }
        if den.0 > 0 { Some((g, h, den)) } else { None }
    }

    // Returns the map from the places of the symbol to those of the picture, if there is one.
    pub(crate) fn map(&self) -> Option<Map> {
        let (g, h, den) = self.divisor()?;
        let right = self.right.minus(self.corner).times(den + g);
        let below = self.below.minus(self.corner).times(den + h);
        let rest = den * Number::of(self.last()) * 8 - (g + h) * 28;
        Some(Map {
            column: form(
                right.x + self.corner.x * g,
                below.x + self.corner.x * h,
                self.corner.x * rest - (right.x + below.x) * 28,
            )?,
            row: form(
                right.y + self.corner.y * g,
                below.y + self.corner.y * h,
                self.corner.y * rest - (right.y + below.y) * 28,
            )?,
            divisor: form(g, h, rest)?,
        })
    }

    // Returns the fourth place, from how much the modules shrink to the right and downward, in parts of 1,024.
    pub(crate) fn fourth(&self, to_right: Number, to_below: Number) -> Point {
        let right = self.right.minus(self.corner);
        let below = self.below.minus(self.corner);
        let weight = to_right + to_below - 1024;
        if weight < Number(256) {
            return self.corner.plus(right).plus(below);
        }
        self.corner.plus(
            right
                .times(to_right)
                .plus(below.times(to_below))
                .over(weight),
        )
    }
}

fn form(a: Number, b: Number, c: Number) -> Option<Form> {
    Form::new(a.0, b.0, c.0)
}
