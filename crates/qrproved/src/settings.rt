//! Turns the numbers of a caller into a version, a level, a rule and an interpretation. A C program can pass any
//! number, so each is checked.

ghost use Rattle.std.specs.Prelude.{◌≡◌, ◌<◌, ◌≤◌, SomeIff};
ghost use Rattle.qrproved.specs.Settings.{AreSettings, interpretation_of, level_of, rule_of};

use qr_bits::{Interpretation, Rule, Writing, may_allow_kanji};
use qr_layout::{Level, Size, Version};

/// The numbers of a caller, after they were checked.
#[derive(Clone, Copy)]
pub(crate) struct Settings {
    /// The size of the symbols of a series. For one symbol, the version is the smallest that it may have.
    pub size: Size,
    pub writing: Writing,
}

// The numbers that stand for no interpretation and for GS1 data. They come after the numbers of the ECIs.
const DEFAULT: u32 = 1_000_000;

const GS1: u32 = 1_000_001;

pub(crate) fn between(number: u32, least: u8, most: u8) -> Option<u8>
    ensures { SomeIff result ((least ≤ number) × (number ≤ most)) number }
{
    let byte = u8::try_from(number).ok()?;
    if byte < least || byte > most {
        return None;
    }
    Some(byte)
}

pub(crate) fn settings_of(
    version: u32,
    level: u32,
    rule: u32,
    interpretation: u32,
) -> Option<Settings>
    ensures { SomeIff result (AreSettings version level rule interpretation)
        (record {
          size = record { version = version; level = level_of level };
          writing = record { rule = rule_of rule; interpretation = interpretation_of interpretation };
        }) }
{
    let size = Size {
        version: Version::new(between(version, 1, 40)?)?,
        level: level_of(level)?,
    };
    let writing = Writing {
        rule: rule_of(rule)?,
        interpretation: interpretation_of(interpretation)?,
    };
    if writing.rule == Rule::WithKanji && !may_allow_kanji(writing.interpretation) {
        return None;
    }
    Some(Settings { size, writing })
}

fn interpretation_of(number: u32) -> Option<Interpretation>
    ensures { SomeIff result (number < 1000002) (interpretation_of number) }
{
    match number {
        DEFAULT => Some(Interpretation::Default),
        GS1 => Some(Interpretation::Gs1),
        _ => {
            if number < DEFAULT {
                Some(Interpretation::Eci(number))
            } else {
                None
            }
        }
    }
}

fn level_of(number: u32) -> Option<Level>
    ensures { SomeIff result (number < 4) (level_of number) }
{
    match number {
        0 => Some(Level::L),
        1 => Some(Level::M),
        2 => Some(Level::Q),
        3 => Some(Level::H),
        _ => None,
    }
}

/// Returns the number that `level_of` turns into this level.
pub(crate) fn number_of_level(level: Level) -> u8
    ensures in_range { result < 4 }
    ensures same { level_of result ≡ level }
{
    match level {
        Level::L => 0,
        Level::M => 1,
        Level::Q => 2,
        Level::H => 3,
    }
}

fn rule_of(number: u32) -> Option<Rule>
    ensures { SomeIff result (number < 3) (rule_of number) }
{
    match number {
        0 => Some(Rule::Auto),
        1 => Some(Rule::BytesOnly),
        2 => Some(Rule::WithKanji),
        _ => None,
    }
}
