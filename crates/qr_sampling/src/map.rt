//! Maps from the places of a symbol to places of a picture.

ghost use Rattle.std.specs.Prelude.{◌≡◌, ◌<◌, ◌≤◌, ◌^◌, ℤ, pos, ◌≤ℤ◌, ◌*ℤ◌, ◌+ℤ◌, neg_ℤ, unsigned_abs, IfSome, IsSome};

/// A linear form: `a` times `u`, `b` times `v`, and `c`.
#[derive(Clone, Copy)]
pub struct Form {
    pub a: i64,
    pub b: i64,
    pub c: i64,
    ghost a_small: { unsigned_abs a < 2 ^ 46 },
    ghost b_small: { unsigned_abs b < 2 ^ 46 },
    ghost c_low: { neg_ℤ (pos (2 ^ 60)) ≤ℤ c },
    ghost c_high: { c ≤ℤ pos (2 ^ 60) },
}

/// A map from a place of a symbol, in eighths of a module, to a place of a picture, in sixteenths of a pixel. It divides
/// the values of two forms by that of a third one.
#[derive(Clone, Copy)]
pub struct Map {
    pub column: Form,
    pub row: Form,
    pub divisor: Form,
}

// Returns the product of two numbers.
#[tactic(auto, using(crate::proofs::Named::product_facts))]
fn product(a: i64, n: u32) -> i64
    requires a_in { unsigned_abs a < 2 ^ 46 }
    requires n_in { n < 2 ^ 14 }
    ensures value { result ≡ a *ℤ pos n }
    ensures low { neg_ℤ (pos (2 ^ 60)) ≤ℤ result }
    ensures high { result ≤ℤ pos (2 ^ 60) }
{
    a * i64::from(n)
}

// Returns the sum of three numbers.
fn sum(first: i64, second: i64, third: i64) -> i64
    requires first_low { neg_ℤ (pos (2 ^ 60)) ≤ℤ first }
    requires first_high { first ≤ℤ pos (2 ^ 60) }
    requires second_low { neg_ℤ (pos (2 ^ 60)) ≤ℤ second }
    requires second_high { second ≤ℤ pos (2 ^ 60) }
    requires third_low { neg_ℤ (pos (2 ^ 60)) ≤ℤ third }
    requires third_high { third ≤ℤ pos (2 ^ 60) }
    ensures { result ≡ first +ℤ second +ℤ third }
{
    first + second + third
}

impl Form {
    ghost use Rattle.qr_sampling.specs.Place.{value_of};

    /// Returns the form with these coefficients, if `a` and `b` are below 2^46 and `c` is below 2^60 in absolute value.
    pub fn new(a: i64, b: i64, c: i64) -> Option<Self>
        ensures value { IfSome result (λ form. (form.a ≡ a) × (form.b ≡ b) × (form.c ≡ c)) }
        ensures some { unsigned_abs a < 2 ^ 46 → unsigned_abs b < 2 ^ 46 → unsigned_abs c < 2 ^ 60 → IsSome result }
    {
        let is_small = a.unsigned_abs() < 1 << 46 && b.unsigned_abs() < 1 << 46;
        if is_small && c > -(1 << 60) && c < 1 << 60 {
            Some(Form { a, b, c })
        } else {
            None
        }
    }

    // Returns the value of the form at a place.
    fn value(&self, u: u32, v: u32) -> i64
        requires u_in { u < 2 ^ 14 }
        requires v_in { v < 2 ^ 14 }
        ensures { result ≡ value_of self.now u v }
    {
        sum(product(self.a, u), product(self.b, v), self.c)
    }
}

impl Map {
    ghost use Rattle.qr_sampling.specs.Place.{column_of, quotient_of, row_of};

    // Returns the quotient of two values, which is 0 if one of them is not positive.
    #[tactic(auto, unfolding(crate::specs::Place::quotient_of))]
    fn quotient(over: i64, under: i64) -> u32
        ensures value { result ≡ quotient_of over under }
        ensures bound { result < 2 ^ 19 }
    {
        if over <= 0 || under <= 0 {
            return 0;
        }
        (over as u64 / under as u64).min(524_287) as u32
    }

    /// Returns the column of a place of the symbol in the picture.
    #[tactic(auto, unfolding(crate::specs::Place::column_of))]
    pub fn column_of(&self, u: u32, v: u32) -> u32
        requires u_in { u < 2 ^ 14 }
        requires v_in { v < 2 ^ 14 }
        ensures value { result ≡ column_of self.now u v }
        ensures bound { result < 2 ^ 19 }
    {
        Self::quotient(self.column.value(u, v), self.divisor.value(u, v))
    }

    /// Returns the row of a place of the symbol in the picture.
    #[tactic(auto, unfolding(crate::specs::Place::row_of))]
    pub fn row_of(&self, u: u32, v: u32) -> u32
        requires u_in { u < 2 ^ 14 }
        requires v_in { v < 2 ^ 14 }
        ensures value { result ≡ row_of self.now u v }
        ensures bound { result < 2 ^ 19 }
    {
        Self::quotient(self.row.value(u, v), self.divisor.value(u, v))
    }
}
