//! How the codewords of a symbol are divided into blocks, each of which has its own error correction codewords (ISO/IEC
//! 18004:2015, 7.5.1, Table 9). All blocks of a symbol have equally many error correction codewords. A block is short
//! or long: a long one has one data codeword more.

ghost use Rattle.std.specs.Prelude.{◌≡◌, ◌≤◌};
ghost use Rattle.qr_layout.specs.Blocks.{correction_len_of, block_count_of, data_codewords_of, capacity_of, blocks_of, protection_of, spare_of, correctable_of};

use crate::level::Level;
use crate::version::Version;

// How many error correction codewords each block has. The table has a row for each level, in the order L, M, Q, H. A
// row has a number for each of the versions 1 to 40.
static CORRECTION_LENS: [[u8; 40]; 4] = [
    [
        7, 10, 15, 20, 26, 18, 20, 24, 30, 18, 20, 24, 26, 30, 22, 24, 28, 30, 28, 28, 28, 28, 30,
        30, 26, 28, 30, 30, 30, 30, 30, 30, 30, 30, 30, 30, 30, 30, 30, 30,
    ],
    [
        10, 16, 26, 18, 24, 16, 18, 22, 22, 26, 30, 22, 22, 24, 24, 28, 28, 26, 26, 26, 26, 28, 28,
        28, 28, 28, 28, 28, 28, 28, 28, 28, 28, 28, 28, 28, 28, 28, 28, 28,
    ],
    [
        13, 22, 18, 26, 18, 24, 18, 22, 20, 24, 28, 26, 24, 20, 30, 24, 28, 28, 26, 30, 28, 30, 30,
        30, 30, 28, 30, 30, 30, 30, 30, 30, 30, 30, 30, 30, 30, 30, 30, 30,
    ],
    [
        17, 28, 22, 16, 22, 28, 26, 26, 24, 28, 24, 28, 22, 24, 24, 30, 28, 28, 26, 28, 30, 24, 30,
        30, 30, 30, 30, 30, 30, 30, 30, 30, 30, 30, 30, 30, 30, 30, 30, 30,
    ],
];

// How many blocks a symbol has. As in `CORRECTION_LENS`, there is a row for each level (L, M, Q, H), and in it a number
// for each of the versions 1 to 40.
static BLOCK_COUNTS: [[u8; 40]; 4] = [
    [
        1, 1, 1, 1, 1, 2, 2, 2, 2, 4, 4, 4, 4, 4, 6, 6, 6, 6, 7, 8, 8, 9, 9, 10, 12, 12, 12, 13,
        14, 15, 16, 17, 18, 19, 19, 20, 21, 22, 24, 25,
    ],
    [
        1, 1, 1, 2, 2, 4, 4, 4, 5, 5, 5, 8, 9, 9, 10, 10, 11, 13, 14, 16, 17, 17, 18, 20, 21, 23,
        25, 26, 28, 29, 31, 33, 35, 37, 38, 40, 43, 45, 47, 49,
    ],
    [
        1, 1, 2, 2, 4, 4, 6, 6, 8, 8, 8, 10, 12, 16, 12, 17, 16, 18, 21, 20, 23, 23, 25, 27, 29,
        34, 34, 35, 38, 40, 43, 45, 48, 51, 53, 56, 59, 62, 65, 68,
    ],
    [
        1, 1, 2, 4, 4, 4, 5, 6, 8, 8, 11, 11, 16, 16, 18, 16, 19, 21, 25, 25, 25, 34, 30, 32, 35,
        37, 40, 42, 45, 48, 51, 54, 57, 60, 63, 66, 70, 74, 77, 81,
    ],
];

/// How many blocks a symbol has, and how many codewords each of them has. The short blocks come before the long ones
/// (ISO/IEC 18004:2015, 7.5.1, Table 9). The bounds that are given for the fields hold of the values that
/// `Version::blocks` returns.
#[derive(Clone, Copy, Debug, PartialEq, Eq)]
pub struct Blocks {
    /// The number of short blocks, at least 1.
    pub short: u8,
    /// The number of data codewords in a short block. A long block has one more.
    pub short_len: u8,
    /// The number of long blocks, which may be 0.
    pub long: u8,
    /// The number of error correction codewords in each block, short or long, from 7 to 30.
    pub ec_len: u8,
}

impl Version {
    // How many error correction codewords each block has.
    fn correction_len(self, level: Level) -> u8
        ensures { result ≡ correction_len_of self level }
    {
        let lens = match level {
            Level::L => &CORRECTION_LENS[0],
            Level::M => &CORRECTION_LENS[1],
            Level::Q => &CORRECTION_LENS[2],
            Level::H => &CORRECTION_LENS[3],
        };
        lens[usize::from(self.number() - 1)]
    }

    fn block_count(self, level: Level) -> u8
        ensures { result ≡ block_count_of self level }
    {
        let counts = match level {
            Level::L => &BLOCK_COUNTS[0],
            Level::M => &BLOCK_COUNTS[1],
            Level::Q => &BLOCK_COUNTS[2],
            Level::H => &BLOCK_COUNTS[3],
        };
        counts[usize::from(self.number() - 1)]
    }

    // How many error correction codewords of a block serve only to detect errors. With them it happens less often that
    // a badly damaged block is corrected to a wrong block. The standard calls this misdecode protection.
    fn protection(self, level: Level) -> u8
        ensures { result ≡ protection_of self level }
    {
        match (level, self.number()) {
            (Level::L, 1) => 3,
            (Level::L, 2) | (Level::M, 1) => 2,
            (Level::L, 3) | (Level::Q | Level::H, 1) => 1,
            _ => 0,
        }
    }

    /// Returns how many error correction codewords of a block correct errors, from 4 to 30; from version 4 on, all of
    /// them do. At some levels of the versions 1 to 3, one to three of them only detect errors, and are not counted
    /// (ISO/IEC 18004:2015, 7.5.1, Table 9).
    pub fn spare(self, level: Level) -> u8
        ensures { result ≡ spare_of self level }
    {
        self.correction_len(level)
            .saturating_sub(self.protection(level))
    }

    /// Returns how many misread codewords of a block can be corrected, from 2 to 15, if no codeword of the block is
    /// known to be unreadable. Each misread codeword uses up two of the error correction codewords that `spare` counts
    /// (ISO/IEC 18004:2015, 7.5.1, Table 9).
    pub fn correctable(self, level: Level) -> u8
        ensures { result ≡ correctable_of self level }
    {
        self.spare(level) / 2
    }

    /// Returns the number of data codewords at a level, from 9 in version 1 at level H to 2,956 in version 40 at level
    /// L (ISO/IEC 18004:2015, 7.4.10, Table 7).
    pub fn data_codewords(self, level: Level) -> u16
        ensures { result ≡ data_codewords_of self level }
    {
        self.total_codewords()
            - u16::from(self.block_count(level)) * u16::from(self.correction_len(level))
    }

    /// Returns the capacity at a level, which is the number of bits of all data codewords: from 72 in version 1 at
    /// level H to 23,648 in version 40 at level L (ISO/IEC 18004:2015, 7.4.10, Table 7).
    #[tactic(auto, using(crate::proofs::lemmas::blocks::capacity_bounds))]
    pub fn capacity(self, level: Level) -> u64
        ensures value { result ≡ capacity_of self level }
        ensures least { 72 ≤ result }
        ensures most { result ≤ 23648 }
    {
        8 * u64::from(self.data_codewords(level))
    }

    /// Returns the number of blocks at a level and how many codewords each has. The data codewords are divided among
    /// the blocks as evenly as possible (ISO/IEC 18004:2015, 7.5.1, Table 9).
    pub fn blocks(self, level: Level) -> Blocks
        ensures { result ≡ blocks_of self level }
    {
        let count = u16::from(self.block_count(level));
        let data = self.data_codewords(level);
        let long = data % count;
        Blocks {
            short: (count - long) as u8,
            short_len: (data / count) as u8,
            long: long as u8,
            ec_len: self.correction_len(level),
        }
    }
}
