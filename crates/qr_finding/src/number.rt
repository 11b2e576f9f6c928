//! Whole numbers of 64 bits whose sums and products wrap, so the search for symbols needs no bound on what it computes. The places
//! of a picture have at most 20 bits, so what the search computes of them fits. If something did not, other squares would be tried.

use std::ops::{Add, Div, Mul, Neg, Sub};

/// A whole number. Of a sum, a difference or a product that does not fit 64 bits only the lowest 64 are kept.
#[derive(Clone, Copy, PartialEq, Eq, PartialOrd, Ord)]
pub(crate) struct Number(pub(crate) i64);

impl Number {
    pub(crate) fn of(n: usize) -> Self {
        Number(n.min(1 << 40) as i64)
    }

    // Returns the number as an index, or 0 if it is negative.
    pub(crate) fn index(self) -> usize {
        if self.0 < 0 { 0 } else { self.0 as usize }
    }

    pub(crate) fn size(self) -> Self {
        if self.0 < 0 { -self } else { self }
    }

    pub(crate) fn least(self, other: Self) -> Self {
        if other.0 < self.0 { other } else { self }
    }

    pub(crate) fn most(self, other: Self) -> Self {
        if other.0 < self.0 { self } else { other }
    }

    // Returns the whole part of the number divided by 16, rounded down.
    pub(crate) fn pixel(self) -> i64 {
        self.0 >> 4
    }

    // Returns the whole part of the square root, or 0 for a negative number.
    pub(crate) fn root(self) -> Self {
        Number(self.0.max(0).isqrt())
    }
}

impl Add<Number> for Number {
    type Output = Number;

    fn add(self, rhs: Number) -> Number {
        Number(self.0.wrapping_add(rhs.0))
    }
}

impl Add<i64> for Number {
    type Output = Number;

    fn add(self, rhs: i64) -> Number {
        Number(self.0.wrapping_add(rhs))
    }
}

impl Sub<Number> for Number {
    type Output = Number;

    fn sub(self, rhs: Number) -> Number {
        Number(self.0.wrapping_sub(rhs.0))
    }
}

impl Sub<i64> for Number {
    type Output = Number;

    fn sub(self, rhs: i64) -> Number {
        Number(self.0.wrapping_sub(rhs))
    }
}

impl Mul<Number> for Number {
    type Output = Number;

    fn mul(self, rhs: Number) -> Number {
        Number(self.0.wrapping_mul(rhs.0))
    }
}

impl Mul<i64> for Number {
    type Output = Number;

    fn mul(self, rhs: i64) -> Number {
        Number(self.0.wrapping_mul(rhs))
    }
}

impl Neg for Number {
    type Output = Number;

    fn neg(self) -> Number {
        Number(0i64.wrapping_sub(self.0))
    }
}

// A quotient by 0 is 0.
impl Div<Number> for Number {
    type Output = Number;

    fn div(self, rhs: Number) -> Number {
        if rhs.0 == 0 {
            Number(0)
        } else {
            Number(self.0.wrapping_div(rhs.0))
        }
    }
}

impl Div<i64> for Number {
    type Output = Number;

    fn div(self, rhs: i64) -> Number {
        if rhs == 0 {
            Number(0)
        } else {
            Number(self.0.wrapping_div(rhs))
        }
    }
}
