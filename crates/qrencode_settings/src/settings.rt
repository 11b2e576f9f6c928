//! The settings of a run, which are read from what `clap` found in the arguments.

ghost use Rattle.std.specs.Prelude.{◌≡◌, ◌≢◌, ◌↔◌, String, Err, Ok, Some, MatchResult, map, option_map};
ghost use Rattle.qr_layout.specs.declared.level.Level.{Level};
ghost use Rattle.std.specs.String.{string_bytes};
ghost use Rattle.clap.specs.Words.{first_of, found_of, one_of};
ghost use Rattle.clap.specs.Walk.{rows_of};
ghost use Rattle.qrencode_settings.specs.Settings.{IsUsageFault, drawing_named, flag_at, level_named, needs_version, number_or, refused_by_clap, settings_for, settings_of, unknown_level, unknown_type};
ghost use Rattle.qrencode_settings.specs.declared.settings.UsageFault.{UsageFault};
ghost use Rattle.std.specs.Global.{Global};

use crate::arguments::{
    BYTES_ONLY, FOLD, KANJI, LEVEL, MARGIN, STRING, STRUCTURED, TYPE, VERSION, matches,
};
use clap::ArgMatches;
use qr_drawing::Drawing;
use qr_layout::{Level, Version};
use std::alloc::{AllocError, Global};
use std::marker::Model;
use thiserror::Error;

// The default margin is the quiet zone (ISO/IEC 18004:2015, 6.3.8).
const QUIET_ZONE: u8 = 4;

/// What the arguments of a run mean.
#[derive(Debug, Drop)]
pub struct Settings {
    /// The error correction level, L without `-l`.
    pub level: Level,
    /// The smallest version of one symbol, or `None` if any version may be chosen. With `-S` there has to be a version,
    /// and all symbols of a series have it.
    pub smallest: Option<Version>,
    /// The type of drawing.
    pub kind: Drawing,
    /// The number of light modules on each side of a symbol, 0 to 100.
    pub margin: u8,
    /// Whether the whole input is encoded in byte mode. Then `kanji` and `fold` have no effect.
    pub bytes_only: bool,
    /// Whether kanji mode is allowed.
    pub kanji: bool,
    /// Whether small letters are folded to capitals.
    pub fold: bool,
    /// Whether a series is drawn if the input does not fit one symbol.
    pub structured: bool,
    /// The input, or `None` if it is read from standard input.
    pub string: Option<String>,
}

impl Model for Settings {
    ghost use Rattle.std.specs.Prelude.{option_map};
    ghost use Rattle.std.specs.String.{string_bytes};
    ghost use Rattle.qrencode_settings.specs.Settings.{SettingsView};

    ghost Value = { SettingsView };

    ghost view = { λ s. record {
      level = s.level;
      smallest = s.smallest;
      kind = s.kind;
      margin = s.margin;
      bytes_only = s.bytes_only;
      kanji = s.kanji;
      fold = s.fold;
      structured = s.structured;
      string = option_map string_bytes s.string;
    } };
}

/// Why `options` refuses arguments.
#[derive(Debug, Drop, Error)]
pub enum UsageFault {
    /// `clap` refuses the arguments, or they ask for help. The string is the text of `clap`.
    #[error("{0}")]
    Words(String),
    /// The level is not L, M, Q or H.
    #[error("unknown level")]
    Level,
    /// The type is not ASCII, ASCIIi, UTF8 or SVG.
    #[error("unknown type")]
    Kind,
    /// `-S` is given without `-v`, or with version 0.
    #[error("-S needs -v")]
    NeedsVersion,
    /// Memory was refused.
    #[error("out of memory")]
    Memory,
}

impl UsageFault {
    ghost use Rattle.qrencode_settings.specs.Settings.{usage_fault_number};

    /// Returns the number of this fault, from 1 to 5.
    ///
    /// # Notes
    ///
    /// Later versions keep these numbers.
    pub fn number(&self) -> u8
        ensures { result ≡ usage_fault_number self.now }
    {
        match self {
            UsageFault::Words(_) => 1,
            UsageFault::Level => 2,
            UsageFault::Kind => 3,
            UsageFault::NeedsVersion => 4,
            UsageFault::Memory => 5,
        }
    }
}

impl From<AllocError> for UsageFault {
    ghost use Rattle.std.specs.Prelude.{◌≡◌};
    ghost use Rattle.qrencode_settings.specs.declared.settings.UsageFault.{UsageFault};

    ghost from_gives = { λ _ f. f ≡ UsageFault.Memory };

    fn from(_: AllocError) -> Self {
        UsageFault::Memory
    }
}

fn text_in<'a>(matches: &ArgMatches<'a>, id: &str) -> Option<&'a str>
    ensures { option_map (λ s. s.now) result ≡ first_of id.now (rows_of (found_of matches.now)) }
{
    matches.get_str(id)
}

fn drawing_named(name: &str) -> Option<Drawing>
    ensures { result ≡ drawing_named name.now }
{
    if name.eq_ignore_ascii_case("ascii") {
        Some(Drawing::Ascii)
    } else if name.eq_ignore_ascii_case("asciii") {
        Some(Drawing::AsciiInverse)
    } else if name.eq_ignore_ascii_case("utf8") {
        Some(Drawing::Utf8)
    } else if name.eq_ignore_ascii_case("svg") {
        Some(Drawing::Svg)
    } else {
        None
    }
}

fn level_named(name: &str) -> Option<Level>
    ensures { result ≡ level_named name.now }
{
    if name.eq_ignore_ascii_case("l") {
        Some(Level::L)
    } else if name.eq_ignore_ascii_case("m") {
        Some(Level::M)
    } else if name.eq_ignore_ascii_case("q") {
        Some(Level::Q)
    } else if name.eq_ignore_ascii_case("h") {
        Some(Level::H)
    } else {
        None
    }
}

// Says whether the option `id`, which takes no value, is given. In the contracts of `clap` every value is a text, and
// the value of such an option is `true` if it is given.
fn flag_in(matches: &ArgMatches<'_>, id: &str) -> bool
    ensures { result ≡ flag_at (first_of id.now (rows_of (found_of matches.now))) }
{
    text_in(matches, id) == Some("true")
}

// Returns the number that is given with the option `id`, or `otherwise` if the option is not given.
fn number_in(matches: &ArgMatches<'_>, id: &str, otherwise: u8) -> u8
    ensures { result ≡ number_or otherwise (one_of id.now (rows_of (found_of matches.now))) }
{
    match matches.try_get_one::<u8>(id) {
        Ok(Some(number)) => number,
        Ok(None) => otherwise,
        // `clap` accepts `-0` as a number in the range, but `-0` does not parse as a `u8`. So it is taken for 0 here.
        Err(_) => 0,
    }
}

fn settings_in(alloc: Global, matches: &ArgMatches<'_>) -> Result<Settings, UsageFault>
    ensures { MatchResult result (λ s. settings_of (rows_of (found_of matches.now)) ≡ Ok s)
        (IsUsageFault (settings_of (rows_of (found_of matches.now)))) }
{
    // Without `-l` the level is L.
    let Some(level) = text_in(matches, LEVEL.id).map_or(Some(Level::L), level_named) else {
        return Err(UsageFault::Level);
    };
    let Some(kind) = text_in(matches, TYPE.id).and_then(drawing_named) else {
        return Err(UsageFault::Kind);
    };
    // There is no version 0, so `-v 0` means the same as no `-v`.
    let smallest = Version::new(number_in(matches, VERSION.id, 0));
    let structured = flag_in(matches, STRUCTURED.id);
    if structured && smallest.is_none() {
        return Err(UsageFault::NeedsVersion);
    }
    let string = match text_in(matches, STRING) {
        Some(text) => Some(String::from_str(alloc, text)?),
        None => None,
    };
    Ok(Settings {
        level,
        smallest,
        kind,
        margin: number_in(matches, MARGIN.id, QUIET_ZONE),
        bytes_only: flag_in(matches, BYTES_ONLY.id),
        kanji: flag_in(matches, KANJI.id),
        fold: flag_in(matches, FOLD.id),
        structured,
        string,
    })
}

/// Returns the settings that the arguments `words` mean. The first of `words` is the program's name. `clap` decides
/// which options and numbers are valid, and this function decides which levels and types are valid.
///
/// # Errors
///
/// The first of these that applies: `Words` if `clap` refuses the arguments or they ask for help, `Level` if the level
/// is unknown, `Kind` if the type is unknown, and `NeedsVersion` if `-S` is given without a version. `Memory` if memory
/// is refused.
///
/// # Notes
///
/// What `clap` decides is taken from its contract for commands without subcommands.
pub fn options(alloc: Global, words: &[String]) -> Result<Settings, UsageFault>
    ensures settings { MatchResult result (λ s. settings_for (map string_bytes words.now) ≡ Ok s)
        (IsUsageFault (settings_for (map string_bytes words.now))) }
    ensures words { ((text : String Global) × (result ≡ Err (UsageFault.Words text)))
        ↔ ((result ≢ Err UsageFault.Memory) × (settings_for (map string_bytes words.now) ≡ Err refused_by_clap)) }
    ensures level { (result ≡ Err UsageFault.Level) ↔ ((result ≢ Err UsageFault.Memory)
        × (settings_for (map string_bytes words.now) ≡ Err unknown_level)) }
    ensures kind { (result ≡ Err UsageFault.Kind) ↔ ((result ≢ Err UsageFault.Memory)
        × (settings_for (map string_bytes words.now) ≡ Err unknown_type)) }
    ensures version { (result ≡ Err UsageFault.NeedsVersion) ↔ ((result ≢ Err UsageFault.Memory)
        × (settings_for (map string_bytes words.now) ≡ Err needs_version)) }
{
    let matches = matches(alloc, words)?;
    settings_in(alloc, &matches)
}
