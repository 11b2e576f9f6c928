//! The longest prefix of an input that fits one symbol of a series. Like the segments of an input, it is found by the
//! best choices of `best_modes.rt`, but no table is kept.
//!
//! A prefix grows at its end, but `row_of` (in `best_modes.rt`) is made for bytes that are taken from the last to the
//! first. So `row_of` gets the bytes of a prefix as if their order were reversed. This order does not change how many
//! bits they take. The second byte of a kanji pair then comes before the first.

ghost use Rattle.std.specs.Prelude.{IsOkAnd, length, reverse, true, ◌+◌, ◌*◌, ◌<◌, ◌≡◌, ◌≤◌};
ghost use Rattle.qr_bits.specs.declared.modes.Mode.{Mode};
ghost use Rattle.qr_bits.specs.declared.run_state.RunState.{RunState};
ghost use Rattle.qr_bits.specs.Modes.{count_width, is_kanji_pair, may_use};
ghost use Rattle.qr_bits.specs.Segmentation.{IsLongestFit};
ghost use Rattle.qr_bits.specs.Steps.BestModes.{in_state};
ghost use Rattle.qr_bits.specs.Steps.RunState.{begins_with_pair, is_gs1, swapped};
ghost use Rattle.qr_bits.specs.Padding.{room_of};
ghost use Rattle.qr_bits.specs.declared.interpretation.Interpretation.{Interpretation};
ghost use Rattle.qr_bits.specs.Interpretation.{MayWrite};

use crate::best_modes::{AUTO, Case, WITH_KANJI, row_of};
use crate::fault::BitFault;
use crate::interpretation::{Interpretation, interpretation_bits, is_gs1};
use crate::modes::{INPUT_MAX, Mode, Rule, count_width, is_kanji_pair, may_use};
use crate::run_state::{FirstChoices, NO_BITS, PerState};
use crate::stream::HEADER_BITS;
use crate::writing::Writing;
use qr_layout::{Level, Size, Version};
use std::alloc::Global;

// Whether the rule allows kanji mode and the last two bytes are a kanji pair.
#[tactic(auto, using(crate::proofs::lemmas::longest_prefix::ends_at, crate::proofs::lemmas::longest_prefix::ends_short))]
#[inline(always)]
fn ends_with_pair(case: Case, bytes: &[u8]) -> bool
    requires { case.kanji ≡ may_use case.rule Mode.Kanji }
    ensures { result ≡ begins_with_pair case.rule (swapped is_kanji_pair) (reverse bytes.now) }
{
    let len = bytes.len();
    if len < 2 {
        return false;
    }
    case.kanji && is_kanji_pair(bytes[len - 2], bytes[len - 1])
}

// The most bytes that a segment in byte mode can have in `room` bits (ISO/IEC 18004:2015, 7.4.5). Its two indicators
// take at most 20 bits, so `room` is large enough for them.
fn bytes_in(room: u64, version: Version) -> usize
    requires { 20 ≤ room }
    ensures fits { 4 + count_width version Mode.Byte + 8 * result ≤ room }
    ensures most { room < 4 + count_width version Mode.Byte + 8 * (result + 1) }
{
    let head = 4 + u64::from(count_width(version, Mode::Byte));
    ((room - head) / 8) as usize
}

// The least of the choices that `numbers` has for the nine states. A choice is 4 times a number of bits, plus the rank
// of a mode (`run_state.rt`). So the least choice is also one with the fewest bits.
#[tactic(auto, unfolding(crate::specs::Steps::BestModes::in_state))]
fn fewest(numbers: &PerState) -> u32
    ensures { (p : RunState) → result ≤ in_state numbers.now p }
{
    let digits = numbers.digit1.min(numbers.digit2).min(numbers.digit3);
    let characters = numbers.character1.min(numbers.character2);
    let pairs = numbers.half_pair.min(numbers.whole_pair);
    let others = numbers.start.min(numbers.in_bytes);
    digits.min(characters).min(pairs.min(others))
}

// The length of the longest prefix of `input` that takes at most `room` bits. When the loop has taken `input[i]`,
// `rest.start / 4` is the least number of bits of the prefix that ends with this byte. Even if this number is greater
// than `room`, a longer prefix may fit, because the first byte of a kanji pair may take more bits in byte mode than the
// pair takes in kanji mode. A longer prefix takes the bits of the choice that `rest` has for one of the states, plus
// the bits that its further bytes add. So if the choices for all states have more than `room` bits, no longer prefix
// can fit, and the loop ends.
#[inline(always)]
fn longest_by_rows(input: &[u8], version: Version, case: Case, room: u64) -> usize
    requires short { length input.now ≤ INPUT_MAX }
    requires kanji { case.kanji ≡ may_use case.rule Mode.Kanji }
    ensures { (i : Interpretation) → case.gs1 ≡ is_gs1 i → IsLongestFit i version case.rule input.now room result }
{
    let first_choices = FirstChoices::of(version);
    let mut longest = 0;
    let mut rest = NO_BITS;
    for i in 0..input.len() {
        let pair = ends_with_pair(case, &input[..i + 1]);
        let (_, numbers) = row_of(&first_choices, case, input[i], pair, &rest);
        rest = numbers;
        if u64::from(rest.start / 4) <= room {
            longest = i + 1;
        } else if u64::from(fewest(&rest) / 4) > room {
            break;
        }
    }
    longest
}

// How many bits of the capacity are left after a structured append header and the ECI header or FNC1 of the
// interpretation (ISO/IEC 18004:2015, 7.4.2, 7.4.8.2, 8.1). The capacity is at least 72 bits, the structured append
// header takes 20 of them, and an ECI header or FNC1 takes at most 28. So at least 24 bits are left, which is more than
// the 20 bits that `bytes_in` needs.
fn room(version: Version, level: Level, interpretation: Interpretation) -> u64
    ensures value { result ≡ room_of version level interpretation }
    ensures least { 20 ≤ result }
{
    version.capacity(level) - HEADER_BITS - interpretation_bits(interpretation)
}

// The length of the longest prefix of `input`, which is GS1 data, that takes at most `room` bits. This function is not
// inlined, so that the compiled code of `longest_part` for other data does not depend on it.
#[inline(never)]
fn longest_gs1_prefix(input: &[u8], version: Version, rule: Rule, room: u64) -> usize
    requires { length input.now ≤ INPUT_MAX }
    ensures { (i : Interpretation) → true ≡ is_gs1 i → IsLongestFit i version rule input.now room result }
{
    let case = Case {
        rule,
        kanji: may_use(rule, Mode::Kanji),
        gs1: true,
    };
    longest_by_rows(input, version, case, room)
}

/// Returns the length in bytes of the longest prefix of `input` that fits one symbol of a series: in the version and at
/// the level of `size`, in modes that the rule allows, and after a structured append header and the ECI header or FNC1
/// of the interpretation (ISO/IEC 18004:2015, 7.4.2, 7.4.8.2, 8.1). `may_write` says which inputs can be written with
/// the interpretation.
///
/// If the rule allows kanji mode, a prefix may fit although a shorter one does not. The first byte of a kanji pair may
/// take more bits alone, in byte mode, than the pair takes in kanji mode.
pub fn longest_part(input: &[u8], size: Size, writing: Writing) -> usize
    requires short { length input.now ≤ INPUT_MAX }
    requires written { MayWrite writing.interpretation input.now }
    ensures { IsLongestFit writing.interpretation size.version writing.rule input.now
        (room_of size.version size.level writing.interpretation) result }
{
    let version = size.version;
    let room = room(version, size.level, writing.interpretation);
    let most = bytes_in(room, version);
    // Each rule allows byte mode, so the whole input fits as one segment in byte mode.
    if input.len() <= most {
        return input.len();
    }
    match writing.rule {
        Rule::BytesOnly => most,
        _ if is_gs1(writing.interpretation) => {
            longest_gs1_prefix(input, version, writing.rule, room)
        }
        Rule::Auto => longest_by_rows(input, version, AUTO, room),
        Rule::WithKanji => longest_by_rows(input, version, WITH_KANJI, room),
    }
}

/// Returns what `longest_part` returns, which is the length in bytes of the longest prefix of `input` that fits one
/// symbol of a series (ISO/IEC 18004:2015, 7.4.2, 7.4.8.2, 8.1).
///
/// # Notes
///
/// This function takes an allocator and returns a `Result`, as `segments` and `codewords` do. It never allocates and
/// never fails.
pub fn longest_fit(
    _alloc: Global,
    input: &[u8],
    v: Version,
    level: Level,
    rule: Rule,
    interpretation: Interpretation,
) -> Result<usize, BitFault>
    requires short { length input.now ≤ INPUT_MAX }
    requires written { MayWrite interpretation input.now }
    ensures { IsOkAnd result (λ n.
        IsLongestFit interpretation v rule input.now (room_of v level interpretation) n) }
{
    let size = Size { version: v, level };
    let writing = Writing {
        rule,
        interpretation,
    };
    Ok(longest_part(input, size, writing))
}
