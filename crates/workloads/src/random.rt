//! Numbers that look random and depend only on a seed.

ghost use Rattle.std.specs.Prelude.{◌<◌};

/// The generator SplitMix64 of Steele, Lea and Flood.
#[derive(Drop)]
pub struct Random {
    state: u64,
}

impl Random {
    /// Returns a generator. Different seeds give different numbers.
    pub fn new(seed: u64) -> Random {
        Random { state: seed }
    }

    pub fn number(&mut self) -> u64 {
        self.state = self.state.wrapping_add(0x9E37_79B9_7F4A_7C15);
        let first = (self.state ^ (self.state >> 30)).wrapping_mul(0xBF58_476D_1CE4_E5B9);
        let second = (first ^ (first >> 27)).wrapping_mul(0x94D0_49BB_1331_11EB);
        second ^ (second >> 31)
    }

    /// Returns a number from 0 to `end - 1`; `end` is not 0.
    pub fn below(&mut self, end: usize) -> usize
        requires { 0 < end }
        ensures { result < end }
    {
        (self.number() % end as u64) as usize
    }

    /// Returns a number from `least` on and below `most`, or `least` if there is no such number.
    pub fn between(&mut self, least: usize, most: usize) -> usize {
        if most <= least {
            return least;
        }
        least + self.below(most - least)
    }

    /// Returns a byte from `least` on and below `most`, or `least` if there is no such byte.
    pub fn byte_between(&mut self, least: u8, most: u8) -> u8 {
        if most <= least {
            return least;
        }
        least + self.below(usize::from(most - least)) as u8
    }

    /// Returns one of the bytes in `items`, or 0 if `items` is empty.
    pub fn byte_of(&mut self, items: &[u8]) -> u8 {
        if items.is_empty() {
            return 0;
        }
        items[self.below(items.len())]
    }
}
