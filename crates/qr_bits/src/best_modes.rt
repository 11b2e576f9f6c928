//! The best mode of each byte, by dynamic programming: a table is filled from the last byte to the first. In a given
//! version, the number of bits that a byte and all later bytes add depends only on their modes and on the state before
//! the first of them (`RunState`). (In GS1 data it also depends on which bytes are `%`.) So the table has a row for
//! each byte, with the best mode of the byte for each state before it. A mode is judged by the sum of two numbers: the
//! bits that the byte adds in this mode, and the fewest bits that the later bytes can then add. The best mode has the
//! least sum.
//!
//! A row is a number with two bits for each state: the rank of the best mode for this state. The row of a byte of GS1
//! data also has a flag if alphanumeric mode writes this byte as other characters. The code compares modes by their
//! choices. A choice is a number: 4 times the sum by which a mode is judged, plus the rank of the mode
//! (`run_state.rt`).
//!
//! In all functions the argument `pair` says whether the byte may begin a kanji pair. The functions with this argument
//! or with a `Case` are inlined in their callers. Where the case has the constant `false` in `kanji`, the compiler leaves
//! out the tests for pairs, and where it has `false` in `gs1`, those for `%` and for the byte that separates fields.

ghost use Rattle.std.specs.Prelude.{◌≡◌, ◌&&◌, ◌+◌, ◌*◌, ◌/◌, ◌%◌, ◌<◌, ◌≤◌, ℕ, Bool, true, false, length, reverse, IfOk, vec_len};
ghost use Rattle.qr_bits.specs.declared.modes.Mode.{Mode};
ghost use Rattle.qr_bits.specs.declared.run_state.RunState.{RunState};
ghost use Rattle.qr_bits.specs.Modes.{is_kanji_pair, may_use};
ghost use Rattle.qr_bits.specs.Segmentation.{rank};
ghost use Rattle.qr_bits.specs.declared.modes.Rule.{Rule};
ghost use Rattle.qr_bits.specs.declared.interpretation.Interpretation.{Interpretation};
ghost use Rattle.qr_bits.specs.Interpretation.{character_for, is_doubled};
ghost use Rattle.qr_bits.specs.Steps.RunState.{begins_with_pair, is_gs1, may_begin, choice_number, ranked};
ghost use Rattle.qr_bits.specs.Steps.BestModes.{AreCharacterChoices, AreFlagged, in_state, is_flagged, mode_at, IsBestTable, IsRow, IsSmall, shift_of};
ghost use Rattle.qr_bits.specs.Steps.Segmentation.{is_escaped};

use crate::interpretation::{SEPARATOR, is_itself};
use crate::modes::{INPUT_MAX, Mode, Rule, is_alphanumeric, is_digit, is_kanji_pair, may_use};
use crate::run_state::{FirstChoices, NO_BITS, PerState, RunState, number};
use qr_layout::Version;
use std::alloc::{AllocError, Global};

// The flag of a row: the bit above the bits of the nine states.
const FLAG: u32 = 1 << 18;

// Stands for a choice that is not allowed, and is greater than every choice that is allowed.
const NO_CHOICE: u32 = u32::MAX;

// A rule that allows more than byte mode, and what the table of best modes depends on beside it.
#[derive(Clone, Copy)]
pub(crate) struct Case {
    pub rule: Rule,
    // Whether the rule allows kanji mode.
    pub kanji: bool,
    // Whether the bytes are GS1 data.
    pub gs1: bool,
}

pub(crate) const AUTO: Case = Case {
    rule: Rule::Auto,
    kanji: false,
    gs1: false,
};

pub(crate) const WITH_KANJI: Case = Case {
    rule: Rule::WithKanji,
    kanji: true,
    gs1: false,
};

const GS1_AUTO: Case = Case {
    rule: Rule::Auto,
    kanji: false,
    gs1: true,
};

const GS1_WITH_KANJI: Case = Case {
    rule: Rule::WithKanji,
    kanji: true,
    gs1: true,
};

#[inline(always)]
fn ranked(rank: u32) -> Mode
    ensures { result ≡ ranked rank }
{
    match rank {
        0 => Mode::Numeric,
        1 => Mode::Alphanumeric,
        2 => Mode::Byte,
        _ => Mode::Kanji,
    }
}

// Whether `byte` may be written in `mode`, if it is not the second byte of a kanji pair. The contract leaves out kanji
// mode, whose rank is 3, because there the next byte matters too.
#[tactic(auto, unfolding(crate::specs::Steps::RunState::may_begin))]
#[inline(always)]
fn may_begin(rule: Rule, byte: u8, mode: Mode) -> bool
    requires { rank mode < 3 }
    ensures { (pair : Bool) → result ≡ may_begin rule byte pair mode }
{
    match mode {
        Mode::Numeric => may_use(rule, mode) && is_digit(byte),
        Mode::Alphanumeric => may_use(rule, mode) && is_alphanumeric(byte),
        Mode::Byte => may_use(rule, mode),
        Mode::Kanji => false,
    }
}

// The choice of a mode for a byte, or `NO_CHOICE` if `may` is false. `first` is the choice of this mode with the bits
// of the byte alone, and `rest` is the best choice for the next byte. The bits of the two are added: `rest / 4 * 4` is
// `rest` without the rank of its mode. `first` is at most 155: no choice in `FirstChoices` is above 135, and the 5 bits
// of a second character add 4 times 5. The best choices of an input of at most `INPUT_MAX` bytes stay below 40,000,000,
// so the sum does not overflow.
#[inline(always)]
fn choice_if(may: bool, first: u32, rest: u32) -> u32
    requires { (first ≤ 155) × (rest < 40000000) }
    ensures { (b : ℕ) (m : Mode) → first ≡ 4 * b + rank m → result ≡ choice_number may (b + rest / 4) m }
{
    if may { first + rest / 4 * 4 } else { NO_CHOICE }
}

// The choice of `mode` for a byte that does not begin a segment and adds `bits` bits, if the best choice for the next
// byte is `rest`; or `NO_CHOICE` if `may` is false.
#[inline(always)]
fn next_if(may: bool, bits: u32, mode: Mode, rest: u32) -> u32
    requires { (bits ≤ 33) × (rest < 40000000) }
    ensures { result ≡ choice_number may (bits + rest / 4) mode }
{
    choice_if(may, number(bits, mode), rest)
}

// The row for the choices in `numbers`. For each state it has two bits, which are the rank of the mode that is chosen
// for this state. The state `Start` has the lowest two bits.
#[tactic(auto, using(crate::proofs::lemmas::best_modes::TableLemmas::packed_mode))]
#[inline(always)]
fn row_for(numbers: &PerState) -> u32
    ensures low { result < FLAG }
    ensures modes { (p : RunState) → mode_at result p ≡ ranked (in_state numbers.now p % 4) }
{
    // The row is made from its highest bits down. `higher` has the bits of the states that were taken so far.
    let higher = numbers.half_pair % 4 + 4 * (numbers.whole_pair % 4);
    let higher = numbers.character2 % 4 + 4 * (numbers.in_bytes % 4 + 4 * higher);
    let higher = numbers.digit3 % 4 + 4 * (numbers.character1 % 4 + 4 * higher);
    let higher = numbers.digit1 % 4 + 4 * (numbers.digit2 % 4 + 4 * higher);
    numbers.start % 4 + 4 * higher
}

// The choices for a byte in alphanumeric mode.
#[derive(Clone, Copy)]
struct CharacterChoices {
    // The choice if the byte begins a segment.
    first: u32,
    // The choice if the state before the byte is `Character1`.
    second: u32,
    // The choice if the state before the byte is `Character2`.
    next: u32,
}

// The choices of alphanumeric mode for a byte. `may` says whether the byte may be written in this mode, and `doubled`
// whether it is then written as two characters.
#[tactic(auto, unfolding(crate::specs::Steps::RunState::byte_cost, crate::specs::Steps::RunState::state_after))]
#[inline(always)]
fn character_choices(
    first_choices: &FirstChoices,
    may: bool,
    doubled: bool,
    rest: &PerState,
) -> CharacterChoices
    requires { IsSmall rest.now }
    ensures { (i : Interpretation) (r : Rule) (x : ℕ) (pair : Bool)
        → may ≡ may_begin r (character_for i x Mode.Alphanumeric) pair Mode.Alphanumeric
        → doubled ≡ is_doubled i x Mode.Alphanumeric
        → AreCharacterChoices i first_choices.now.version r x pair rest.now result }
{
    if doubled {
        // One of the two characters adds 6 bits, and the other one 5 bits. `first_choices.alphanumeric` already has the
        // 6 bits, so only 5 bits are added here. A choice is 4 times its bits plus a rank, so 4 times 5 is added.
        let first = first_choices.alphanumeric + 4 * 5;
        CharacterChoices {
            first: choice_if(may, first, rest.character2),
            second: next_if(may, 11, Mode::Alphanumeric, rest.character1),
            next: next_if(may, 11, Mode::Alphanumeric, rest.character2),
        }
    } else {
        CharacterChoices {
            first: choice_if(may, first_choices.alphanumeric, rest.character1),
            second: next_if(may, 5, Mode::Alphanumeric, rest.character2),
            next: next_if(may, 6, Mode::Alphanumeric, rest.character1),
        }
    }
}

// The row of a byte, and for each state before the byte the best choice. `digit` says whether the byte may be written
// in numeric mode. `characters` has the choices of alphanumeric mode for the byte, and `rest` has the best choices for
// the next byte.
#[inline(always)]
fn choices(
    first_choices: &FirstChoices,
    digit: bool,
    characters: &CharacterChoices,
    pair: bool,
    rest: &PerState,
) -> (u32, PerState)
    requires { IsSmall rest.now }
    ensures low { result.0 < FLAG }
    ensures row { (i : Interpretation) (r : Rule) (x : ℕ) → digit ≡ may_begin r x pair Mode.Numeric
        → AreCharacterChoices i first_choices.now.version r x pair rest.now characters.now
        → IsRow i first_choices.now.version r x pair rest.now result.0 result.1 }
{
    let digits = choice_if(digit, first_choices.numeric, rest.digit1);
    let bytes = choice_if(true, first_choices.byte, rest.in_bytes);
    let pairs = choice_if(pair, first_choices.kanji, rest.half_pair);
    let others = bytes.min(pairs);
    let no_digits = characters.first.min(others);
    let no_characters = digits.min(others);
    let start = digits.min(no_digits);
    // `start` is the best of all choices that begin a segment. After a whole group (`Digit3`, `Character2`, `InBytes`,
    // `WholePair`) one of these choices is needless: to begin another segment in the mode of the last one. Continuing
    // the last segment takes fewer bits, and leads to the same state. So the needless choice is never the best, and
    // `start` need not leave it out.
    let digit2 = next_if(digit, 3, Mode::Numeric, rest.digit2);
    let digit3 = next_if(digit, 3, Mode::Numeric, rest.digit3);
    let digit1 = next_if(digit, 4, Mode::Numeric, rest.digit1);
    let in_bytes = next_if(true, 8, Mode::Byte, rest.in_bytes);
    let whole_pair = next_if(true, 0, Mode::Kanji, rest.whole_pair);
    let half_pair = next_if(pair, 13, Mode::Kanji, rest.half_pair);
    let numbers = PerState {
        start,
        digit1: digit2.min(no_digits),
        digit2: digit3.min(no_digits),
        digit3: digit1.min(start),
        character1: characters.second.min(no_characters),
        character2: characters.next.min(start),
        in_bytes: in_bytes.min(start),
        // After half a pair only kanji mode is possible.
        half_pair: whole_pair,
        whole_pair: half_pair.min(start),
    };
    (row_for(&numbers), numbers)
}

// Whether alphanumeric mode writes the byte as two characters. This is so for `%` in GS1 data (ISO/IEC 18004:2015,
// 7.4.8.2).
#[inline(always)]
fn is_doubled(gs1: bool, byte: u8) -> bool
    ensures { (i : Interpretation) → gs1 ≡ is_gs1 i → result ≡ is_doubled i byte Mode.Alphanumeric }
{
    gs1 && byte == b'%'
}

// Whether the rule allows alphanumeric mode, and this mode can write the byte. In GS1 data this mode also writes the
// separator of fields, as `%` (ISO/IEC 18004:2015, 7.4.8.2). The separator is tested last, because it is rare.
#[inline(always)]
fn may_be_character(gs1: bool, rule: Rule, byte: u8) -> bool
    ensures { (i : Interpretation) (pair : Bool) → gs1 ≡ is_gs1 i
        → result ≡ may_begin rule (character_for i byte Mode.Alphanumeric) pair Mode.Alphanumeric }
{
    if may_begin(rule, byte, Mode::Alphanumeric) {
        return true;
    }
    gs1 && byte == SEPARATOR && may_use(rule, Mode::Alphanumeric)
}

// The row, with its flag set if `flag` is true.
#[tactic(auto, using(crate::proofs::lemmas::best_modes::TableLemmas::flagged_mode))]
#[inline(always)]
fn flagged(row: u32, flag: bool) -> u32
    requires { row < FLAG }
    ensures flag { is_flagged result ≡ flag }
    ensures modes { (p : RunState) → mode_at result p ≡ mode_at row p }
{
    if flag { row + FLAG } else { row }
}

// Whether the row has its flag.
#[inline(always)]
pub(crate) fn is_flagged(row: u32) -> bool
    ensures { result ≡ is_flagged row }
{
    row >= FLAG
}

// The row of a byte, and for each state before the byte the best choice. `rest` has the best choices for the next byte.
// The row has its flag if the bytes are GS1 data and alphanumeric mode writes this byte as other characters.
#[inline(always)]
pub(crate) fn row_of(
    first_choices: &FirstChoices,
    case: Case,
    byte: u8,
    pair: bool,
    rest: &PerState,
) -> (u32, PerState)
    requires { IsSmall rest.now }
    ensures flag { is_flagged result.0 ≡ (case.gs1 && is_escaped Mode.Alphanumeric byte) }
    ensures row { (i : Interpretation) → case.gs1 ≡ is_gs1 i
        → IsRow i first_choices.now.version case.rule byte pair rest.now result.0 result.1 }
{
    // The function `choices` is inlined at each of the calls below. Where an argument is a constant, the compiler
    // leaves out the cases that the constant excludes. A byte that may be written in numeric mode may be written in
    // alphanumeric mode too, so the first case passes `true` for both.
    let digit = may_begin(case.rule, byte, Mode::Numeric);
    if digit && !pair {
        let characters = character_choices(first_choices, true, false, rest);
        return choices(first_choices, true, &characters, false, rest);
    }
    // Bytes whose rows have a flag are rare, and so are bytes that may begin a pair. So the same code serves both.
    let escaped = case.gs1 && !is_itself(byte);
    if pair || escaped {
        let may = may_be_character(case.gs1, case.rule, byte);
        let doubled = is_doubled(case.gs1, byte);
        let characters = character_choices(first_choices, may, doubled, rest);
        let (row, numbers) = choices(first_choices, digit, &characters, pair, rest);
        return (flagged(row, escaped), numbers);
    }
    if may_begin(case.rule, byte, Mode::Alphanumeric) {
        let characters = character_choices(first_choices, true, false, rest);
        choices(first_choices, false, &characters, false, rest)
    } else {
        let characters = character_choices(first_choices, false, false, rest);
        choices(first_choices, false, &characters, false, rest)
    }
}

// Whether the rule allows kanji mode and the first two bytes are a kanji pair.
#[tactic(auto, unfolding(crate::specs::Steps::RunState::begins_with_pair))]
pub(crate) fn begins_with_pair(rule: Rule, bytes: &[u8]) -> bool
    ensures { result ≡ begins_with_pair rule is_kanji_pair bytes.now }
{
    match bytes {
        [high, low, ..] => may_use(rule, Mode::Kanji) && is_kanji_pair(*high, *low),
        _ => false,
    }
}

// Whether the rule allows kanji mode, and the first two bytes are a kanji pair. Where `kanji` is the constant `false`,
// the compiler leaves out the call of `begins_with_pair`.
#[tactic(auto, unfolding(crate::specs::Steps::RunState::begins_with_pair))]
#[inline(always)]
fn pair_at(case: Case, bytes: &[u8]) -> bool
    requires { case.kanji ≡ may_use case.rule Mode.Kanji }
    ensures { result ≡ begins_with_pair case.rule is_kanji_pair bytes.now }
{
    case.kanji && begins_with_pair(case.rule, bytes)
}

// Returns the table: a row for each byte of `input`. The row of the last byte comes first, so the first call of `pop`
// returns the row of the first byte. The rule has to allow more than byte mode. This function is not inlined, so that
// its loop has all registers to itself.
#[inline(never)]
pub(crate) fn best_modes(
    alloc: Global,
    input: &[u8],
    version: Version,
    rule: Rule,
) -> Result<Vec<u32>, AllocError>
    requires short { length input.now ≤ INPUT_MAX }
    requires mixed { rule ≡ Rule.BytesOnly → ⊥ }
    ensures { IfOk result (λ t. (vec_len t ≡ length input.now)
        × IsBestTable Interpretation.Default version rule is_kanji_pair input.now (reverse t.items)) }
{
    match rule {
        Rule::WithKanji => best_rows(alloc, input, version, WITH_KANJI),
        _ => best_rows(alloc, input, version, AUTO),
    }
}

// Returns the table for GS1 data, under a rule that allows more than byte mode: a row for each byte of `input`, from
// the last byte to the first. A row has its flag exactly if alphanumeric mode does not write its byte as the byte
// itself. Like `best_modes`, this function is not inlined, so that its loop has all registers to itself.
#[inline(never)]
pub(crate) fn best_gs1_modes(
    alloc: Global,
    input: &[u8],
    version: Version,
    rule: Rule,
) -> Result<Vec<u32>, AllocError>
    requires short { length input.now ≤ INPUT_MAX }
    requires mixed { rule ≡ Rule.BytesOnly → ⊥ }
    ensures { IfOk result (λ t. (vec_len t ≡ length input.now)
        × IsBestTable Interpretation.Gs1 version rule is_kanji_pair input.now (reverse t.items)
        × AreFlagged input.now (reverse t.items)) }
{
    match rule {
        Rule::WithKanji => best_rows(alloc, input, version, GS1_WITH_KANJI),
        _ => best_rows(alloc, input, version, GS1_AUTO),
    }
}

// Returns the table of `best_gs1_modes` if the case is one of GS1 data, and otherwise that of `best_modes`.
#[inline(always)]
fn best_rows(
    alloc: Global,
    input: &[u8],
    version: Version,
    case: Case,
) -> Result<Vec<u32>, AllocError>
    requires short { length input.now ≤ INPUT_MAX }
    requires kanji { case.kanji ≡ may_use case.rule Mode.Kanji }
    ensures { IfOk result (λ t. (vec_len t ≡ length input.now) × ((i : Interpretation) → case.gs1 ≡ is_gs1 i
        → IsBestTable i version case.rule is_kanji_pair input.now (reverse t.items))
        × (case.gs1 ≡ true → AreFlagged input.now (reverse t.items))) }
{
    let first_choices = FirstChoices::of(version);
    let mut table = Vec::with_capacity(alloc, input.len())?;
    let mut rest = NO_BITS;
    for i in (0..input.len()).rev() {
        let pair = pair_at(case, &input[i..]);
        let (modes, numbers) = row_of(&first_choices, case, input[i], pair, &rest);
        table.push(modes)?;
        rest = numbers;
    }
    Ok(table)
}

// A row of the table of best modes has two bits for each state. The result is the index of the lower of the two bits
// for `state`, counted from the lowest bit of the row.
#[inline(always)]
fn shift_of(state: RunState) -> u32
    ensures value { result ≡ shift_of state }
    ensures most { result ≤ 16 }
{
    match state {
        RunState::Start => 0,
        RunState::Digit1 => 2,
        RunState::Digit2 => 4,
        RunState::Digit3 => 6,
        RunState::Character1 => 8,
        RunState::Character2 => 10,
        RunState::InBytes => 12,
        RunState::HalfPair => 14,
        RunState::WholePair => 16,
    }
}

// The best mode of a byte for a state before it, read from the row of this byte.
#[tactic(auto, unfolding(crate::specs::Steps::BestModes::mode_at))]
#[inline(always)]
pub(crate) fn mode_at(row: u32, state: RunState) -> Mode
    ensures { result ≡ mode_at row state }
{
    ranked((row >> shift_of(state)) % 4)
}
