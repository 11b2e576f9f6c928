//! The forty versions, and for each of them how many modules a symbol has on a side, how many codewords it has, and how
//! many remainder bits (ISO/IEC 18004:2015, 6.3.2 and 7.1, Table 1).

ghost use Rattle.std.specs.Prelude.{◌≡◌, ◌≤◌, SomeIff, ℕ, MatchOption};
ghost use Rattle.qr_layout.specs.Version.{side_of};
ghost use Rattle.qr_layout.specs.Version.{total_codewords_of, remainder_bits_of};

use std::marker::Model;

// How many codewords a symbol has, for each of the versions 1 to 40.
static TOTAL_CODEWORDS: [u16; 40] = [
    26, 44, 70, 100, 134, 172, 196, 242, 292, 346, 404, 466, 532, 581, 655, 733, 815, 901, 991,
    1085, 1156, 1258, 1364, 1474, 1588, 1706, 1828, 1921, 2051, 2185, 2323, 2465, 2611, 2761, 2876,
    3034, 3196, 3362, 3532, 3706,
];

// How many remainder bits a symbol has, for each of the versions 1 to 40.
static REMAINDER_BITS: [u8; 40] = [
    0, 7, 7, 7, 7, 7, 0, 0, 0, 0, 0, 0, 0, 3, 3, 3, 3, 3, 3, 3, 4, 4, 4, 4, 4, 4, 4, 3, 3, 3, 3, 3,
    3, 3, 0, 0, 0, 0, 0, 0,
];

/// A version of QR Code, from 1 to 40. It determines how many modules a symbol has on a side (ISO/IEC 18004:2015,
/// 6.3.2).
#[derive(Clone, Copy, Debug, PartialEq, Eq)]
pub struct Version {
    number: u8,
}

impl Model for Version {
    ghost use Rattle.std.specs.Prelude.{ℕ, ◌≤◌};

    ghost Value = { ℕ };

    ghost view = { λ a. a.number };

    ghost invariant = { λ a. (1 ≤ a.number) × (a.number ≤ 40) };

    ghost inverse = { λ n. record { number = n } };
}

impl Version {
    /// Version 1, whose symbols are the smallest.
    pub const FIRST: Version = Version { number: 1 };

    /// Returns the version with the number `n`, or `None` if `n` is not from 1 to 40.
    pub fn new(n: u8) -> Option<Version>
        ensures { SomeIff result ((1 ≤ n) × (n ≤ 40)) n }
    {
        if (1..=40).contains(&n) {
            Some(Version { number: n })
        } else {
            None
        }
    }

    /// Returns the version with `side` modules on a side, or `None` if no version has so many. The sides are 21, 25, 29
    /// and so on up to 177.
    pub fn of_side(side: u8) -> Option<Version>
        ensures { MatchOption result
            ((v : ℕ) → 1 ≤ v → v ≤ 40 → side ≡ side_of v → ⊥)
            (λ v. (1 ≤ v) × (v ≤ 40) × (side ≡ side_of v)) }
    {
        if side < 21 || (side - 17) % 4 != 0 {
            return None;
        }
        Version::new((side - 17) / 4)
    }

    /// Returns the number of the version, from 1 to 40.
    pub fn number(self) -> u8
        ensures value { result ≡ self }
        ensures least { 1 ≤ result }
        ensures most { result ≤ 40 }
    {
        self.number
    }

    /// Returns the number of modules on a side: 21 in version 1, and 4 more in each version after it, up to 177 in
    /// version 40 (ISO/IEC 18004:2015, 6.3.2).
    pub fn side(self) -> u8
        ensures value { result ≡ side_of self }
        ensures least { 21 ≤ result }
        ensures most { result ≤ 177 }
    {
        17 + 4 * self.number
    }

    /// Returns the number of data and error correction codewords together, from 26 in version 1 to 3,706 in version 40
    /// (ISO/IEC 18004:2015, 7.1, Table 1).
    #[tactic(auto, unfolding(crate::specs::Version::total_codewords_of))]
    pub fn total_codewords(self) -> u16
        ensures { result ≡ total_codewords_of self }
    {
        TOTAL_CODEWORDS[usize::from(self.number - 1)]
    }

    /// Returns the number of remainder bits: 0, 3, 4 or 7. They fill the modules of the region that are left after all
    /// codewords (ISO/IEC 18004:2015, 7.1, Table 1).
    #[tactic(auto, unfolding(crate::specs::Version::remainder_bits_of))]
    pub fn remainder_bits(self) -> u8
        ensures { result ≡ remainder_bits_of self }
    {
        REMAINDER_BITS[usize::from(self.number - 1)]
    }
}
