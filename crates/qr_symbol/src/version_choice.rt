//! Finds the least version that an input fits, the segments of the input in this version, and the highest level at
//! which the input fits this version (ISO/IEC 18004:2015, 7.1 and 7.4.1).
//!
//! The number of bits of a segment depends on the version only because the character count indicator is wider in higher
//! versions. Its width changes only after versions 9 and 26. So an input is cut into segments at most once for each of
//! the ranges 1 to 9, 10 to 26 and 27 to 40.

ghost use Rattle.std.specs.Prelude.{◌≡◌, ◌≤◌, ◌<◌, ◌+◌, ℕ, length, IfOk};
ghost use Rattle.std.specs.Cow.{cow_slice_items};
ghost use Rattle.qr_bits.specs.declared.modes.Rule.{Rule};
ghost use Rattle.qr_bits.specs.declared.interpretation.Interpretation.{Interpretation};
ghost use Rattle.qr_bits.specs.Interpretation.{interpretation_bits, MayWrite};
ghost use Rattle.qr_bits.specs.Segmentation.{bits, Covers};
ghost use Rattle.qr_bits.specs.Padding.{capacity_of};
ghost use Rattle.qr_layout.specs.declared.level.Level.{Level};
ghost use Rattle.qr_symbol.specs.VersionChoice.{level_rank};
ghost use Rattle.qr_symbol.specs.Steps.Encoding.{IsFit, IsRefusedExactly};

use crate::fault::EncodeFault;
use qr_bits::{
    INPUT_MAX, Interpretation, Rule, Segmented, Writing, bit_len, interpretation_bits, least_bits,
    segments,
};
use qr_layout::{Level, Size, Version};
use std::alloc::Global;

// The most bytes that a symbol can contain. So many fit version 40 at level L if they all are digits (7.4.10, Table 7).
pub(crate) const SYMBOL_BYTES_MAX: usize = 7089;

// The last version of the range 1 to 9.
const SMALL_LAST: u8 = 9;

// The last version of the range 10 to 26.
const MEDIUM_LAST: u8 = 26;

// An upper bound on the number of bytes in a symbol of versions 1 to 26. No bytes take fewer bits than digits, and
// three digits take ten bits (7.4.3). The data codewords of version 26 at level L have 10,960 bits, which is ten bits
// for each three of 3,288 digits.
const MEDIUM_BYTES: usize = 3288;

// A version that an input fits, and the segments of the input in this version.
#[derive(Drop)]
pub(crate) struct Fit<'a> {
    pub version: Version,
    pub segmented: Segmented<'a>,
}

// The number of bits that the segments take, with the ECI header or FNC1 of the interpretation.
pub(crate) fn needed_bits(
    segmented: &Segmented<'_>,
    interpretation: Interpretation,
    version: Version,
) -> u64
    requires covered { Covers (cow_slice_items segmented.now.characters) segmented.now.segments.items }
    requires short { length (cow_slice_items segmented.now.characters) ≤ INPUT_MAX }
    ensures { result ≡ interpretation_bits interpretation + bits version segmented.now.segments.items }
{
    interpretation_bits(interpretation) + bit_len(&segmented.segments, version)
}

// The capacity of the version with this number, in bits.
fn capacity_at(number: u8, level: Level) -> u64
    requires { (1 ≤ number) × (number ≤ 40) }
    ensures { result ≡ capacity_of number level }
{
    let version = Version::new(number).unwrap();
    version.capacity(level)
}

// Finds the least version, from `least.version` on, that the input fits at `least.level`, and the segments of the input
// in this version. Goes through the ranges of versions 1 to 9, 10 to 26 and 27 to 40, from the first range on that has
// a version to be tried, and cuts the input into segments once for each range. The search ends at the first version
// that has room for the segments that were cut for its range.
pub(crate) fn least_fit<'a>(
    alloc: Global,
    input: &'a [u8],
    least: Size,
    writing: Writing,
) -> Result<Fit<'a>, EncodeFault>
    requires { MayWrite writing.interpretation input.now }
    ensures fit { IfOk result (λ f. IsFit least.version least.level writing.rule writing.interpretation input.now
        f.version (cow_slice_items f.segmented.characters) f.segmented.segments.items) }
    ensures refused { IsRefusedExactly least.version least.level writing.rule writing.interpretation input.now result }
{
    if input.is_empty() {
        return Err(EncodeFault::Empty);
    }
    if input.len() > SYMBOL_BYTES_MAX {
        return Err(EncodeFault::TooLong);
    }
    // The first version of a range: 1, 10 or 27. The input fits no version below `start`. The number of bytes, or a
    // lower bound on the number of bits, shows this before the input is cut into segments. The lower bound is compared
    // with the capacity of the last version of a range, which is the greatest in this range. If only byte mode is
    // allowed, the bound is not computed, since it would save little time.
    let start = if input.len() > MEDIUM_BYTES {
        MEDIUM_LAST + 1
    } else if matches!(writing.rule, Rule::BytesOnly) {
        1
    } else {
        let bits = u64::from(least_bits(input)) + interpretation_bits(writing.interpretation);
        if bits > capacity_at(MEDIUM_LAST, least.level) {
            MEDIUM_LAST + 1
        } else if bits > capacity_at(SMALL_LAST, least.level) {
            SMALL_LAST + 1
        } else {
            1
        }
    };
    let mut first = Version::new(least.version.number().max(start)).unwrap();
    loop {
        // The last version of the range that contains `first`. In all versions of a range, character count indicators
        // have the same widths (7.4.1, Table 3), so the segments that are cut for `first` take the same number of bits
        // in each of these versions.
        let last = match first.number() {
            1..=SMALL_LAST => SMALL_LAST,
            10..=MEDIUM_LAST => MEDIUM_LAST,
            _ => 40,
        };
        let segmented = segments(alloc, input, first, writing.rule, writing.interpretation)?;
        let bits = needed_bits(&segmented, writing.interpretation, first);
        for number in first.number()..=last {
            let version = Version::new(number).unwrap();
            if bits <= version.capacity(least.level) {
                return Ok(Fit { version, segmented });
            }
        }
        match Version::new(last + 1) {
            Some(next) => first = next,
            None => return Err(EncodeFault::TooLong),
        }
    }
}

// The highest level, from `level` on, at which the version has room for `bits` bits.
pub(crate) fn highest_with_room(version: Version, level: Level, bits: u64) -> Level
    requires { bits ≤ capacity_of version level }
    ensures least { level_rank level ≤ level_rank result }
    ensures room { bits ≤ capacity_of version result }
    ensures highest { (m : Level) → level_rank result < level_rank m → capacity_of version m < bits }
{
    for candidate in [Level::H, Level::Q, Level::M] {
        if candidate == level || bits <= version.capacity(candidate) {
            return candidate;
        }
    }
    level
}
