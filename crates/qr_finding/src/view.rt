//! The dark pixels of a picture.

use crate::number::Number;
use crate::tables::part;

/// What a pixel is.
pub(crate) const LIGHT: u8 = 0;

pub(crate) const DARK: u8 = 1;
/// The pixel is not in the picture.
pub(crate) const OUTSIDE: u8 = 2;

/// The greatest width and height of a picture.
pub(crate) const SIDE_MAX: usize = 32_767;

/// The dark pixels of a picture: a byte for each pixel, which is `DARK` or `LIGHT`.
#[derive(Clone, Copy)]
pub(crate) struct View<'a> {
    pub(crate) pixels: &'a [u8],
    pub(crate) width: usize,
    pub(crate) height: usize,
}

/// A place in a picture, in pixels or in sixteenths of a pixel.
#[derive(Clone, Copy)]
pub(crate) struct Point {
    pub(crate) x: Number,
    pub(crate) y: Number,
}

impl Point {
    pub(crate) const NONE: Point = Point {
        x: Number(0),
        y: Number(0),
    };

    pub(crate) fn plus(self, other: Point) -> Point {
        Point {
            x: self.x + other.x,
            y: self.y + other.y,
        }
    }

    pub(crate) fn minus(self, other: Point) -> Point {
        Point {
            x: self.x - other.x,
            y: self.y - other.y,
        }
    }

    pub(crate) fn times(self, factor: Number) -> Point {
        Point {
            x: self.x * factor,
            y: self.y * factor,
        }
    }

    pub(crate) fn over(self, divisor: Number) -> Point {
        Point {
            x: self.x / divisor,
            y: self.y / divisor,
        }
    }

    // Returns the sum of the distances in columns and in rows.
    pub(crate) fn steps_to(self, other: Point) -> Number {
        let way = self.minus(other);
        way.x.size() + way.y.size()
    }

    // Returns the square of the distance from the origin.
    pub(crate) fn square(self) -> Number {
        self.x * self.x + self.y * self.y
    }
}

impl View<'_> {
    // Returns the index of a pixel, if it is in the picture.
    pub(crate) fn index_of(&self, x: i64, y: i64) -> Option<usize> {
        if x < 0 || y < 0 {
            return None;
        }
        let (column, row) = (x as usize, y as usize);
        if column >= self.width || row >= self.height {
            return None;
        }
        Some(row.wrapping_mul(self.width).wrapping_add(column))
    }

    // Returns what a pixel is.
    pub(crate) fn at(&self, x: i64, y: i64) -> u8 {
        match self.index_of(x, y) {
            Some(index) if index < self.pixels.len() => self.pixels[index],
            _ => OUTSIDE,
        }
    }

    // Returns what the pixel is in which a place is, in sixteenths of a pixel.
    pub(crate) fn at_place(&self, place: Point) -> u8 {
        self.at(place.x.pixel(), place.y.pixel())
    }

    pub(crate) fn row(&self, y: usize) -> &[u8] {
        let start = y.saturating_mul(self.width);
        part(self.pixels, start, start.saturating_add(self.width))
    }
}
