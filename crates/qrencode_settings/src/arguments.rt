//! The command's arguments, as they are declared for the crate `clap`, which parses them.

ghost use Rattle.std.specs.Prelude.{◌≡◌, [], Err, IfErr, IfOk, Result, Some, map, false};
ghost use Rattle.std.specs.String.{string_bytes};
ghost use Rattle.clap.specs.Words.{found_of, kind_of};
ghost use Rattle.clap.specs.Simple.{new_rule};
ghost use Rattle.clap.specs.Walk.{rows_of, rule_of};
ghost use Rattle.qrencode_settings.specs.Arguments.{faults_for, rows_for};
ghost use Rattle.qrencode_settings.specs.Settings.{IsUsageFault, Reason, SettingsView, refused_by_clap, settings_for};
ghost use Rattle.clap.specs.declared.error.kind.ErrorKind.TheVariants.{OutOfMemory};

use crate::settings::UsageFault;
use clap::builder::ValueParser;
use clap::error::{Error, ErrorKind};
use clap::{Arg, ArgAction, ArgMatches, Command};
use std::alloc::Global;

// An option: `id` is its name in the code, and `short` its letter. The help text shows `help`, a line about the option.
#[derive(Clone, Copy)]
pub(crate) struct OptionText<'a> {
    pub(crate) id: &'a str,
    short: char,
    help: &'a str,
}

// Declares the name, the letter and the help of an option. `matches` adds what the option's value is, if it takes one.
fn option<'a>(alloc: Global, text: OptionText<'a>) -> Arg<'a>
    ensures rule { rule_of result ≡ record (new_rule text.entry.id.now) { short = Some text.entry.short } }
    ensures local { result.global ≡ false }
{
    Arg::new(alloc, text.id).short(text.short).help(text.help)
}

pub(crate) const LEVEL: OptionText<'static> = OptionText {
    id: "level",
    short: 'l',
    help: "Level of error correction, from the lowest to the highest: L, M, Q or H [default: L]",
};

pub(crate) const VERSION: OptionText<'static> = OptionText {
    id: "version",
    short: 'v',
    help: "Smallest version of the symbol, 1 to 40, or 0 for any that fits; with -S the version [default: 0]",
};

pub(crate) const TYPE: OptionText<'static> = OptionText {
    id: "type",
    short: 't',
    help: "Type of the drawing: ASCII, ASCIIi, UTF8 or SVG",
};

pub(crate) const MARGIN: OptionText<'static> = OptionText {
    id: "margin",
    short: 'm',
    help: "Margin on each side, 0 to 100 modules [default: 4]",
};

pub(crate) const BYTES_ONLY: OptionText<'static> = OptionText {
    id: "bytes-only",
    short: '8',
    help: "Encode the whole input in byte mode",
};

pub(crate) const KANJI: OptionText<'static> = OptionText {
    id: "kanji",
    short: 'k',
    help: "Encode pairs of bytes that are Shift JIS characters in kanji mode, if that is shorter; -8 switches it off",
};

pub(crate) const FOLD: OptionText<'static> = OptionText {
    id: "fold",
    short: 'i',
    help: "Encode the letters a to z as capitals, but not in kanji if -k is given; -8 switches it off",
};

pub(crate) const STRUCTURED: OptionText<'static> = OptionText {
    id: "structured",
    short: 'S',
    help: "Draw a series of up to 16 symbols if the input does not fit one; needs -v",
};

// The name in the code of the argument STRING, the input in place of standard input.
pub(crate) const STRING: &str = "string";

// Returns the fault of a run whose arguments `clap` refused with `error`.
fn refusal(alloc: Global, error: &Error) -> UsageFault
    ensures { (o : Result SettingsView Reason) → ((kind_of error.now ≡ OutOfMemory → ⊥) → o ≡ Err refused_by_clap) → IsUsageFault o result }
{
    if error.kind() == ErrorKind::OutOfMemory {
        return UsageFault::Memory;
    }
    match format!(in alloc; "{error}") {
        Ok(text) => UsageFault::Words(text),
        Err(_) => UsageFault::Memory,
    }
}

/// Returns what `clap` found in the arguments `words`, of which the first is the program's name.
///
/// # Errors
///
/// `Words` with the text of `clap`, if `clap` refuses the arguments. It also refuses a request for help, and the text
/// is then the help. `Memory` if memory is refused.
pub(crate) fn matches<'a>(alloc: Global, words: &'a [String]) -> Result<ArgMatches<'a>, UsageFault>
    ensures taken { IfOk result (λ m. faults_for (map string_bytes words.entry.now) ≡ []) }
    ensures rows { IfOk result (λ m. rows_of (found_of m) ≡ rows_for (map string_bytes words.entry.now)) }
    ensures fault { IfErr result (IsUsageFault (settings_for (map string_bytes words.entry.now))) }
{
    let command = Command::new(alloc, "qrencode")
        .about("Draws its input as QR Code symbols on standard output")
        .arg(option(alloc, LEVEL).value_name("LEVEL"))?
        .arg(
            option(alloc, VERSION)
                .value_name("N")
                .value_parser(ValueParser::Signed(0, 40)),
        )?
        .arg(option(alloc, TYPE).value_name("TYPE").required(true))?
        .arg(
            option(alloc, MARGIN)
                .value_name("N")
                .value_parser(ValueParser::Signed(0, 100)),
        )?
        .arg(option(alloc, BYTES_ONLY).action(ArgAction::SetTrue))?
        .arg(option(alloc, KANJI).action(ArgAction::SetTrue))?
        .arg(option(alloc, FOLD).action(ArgAction::SetTrue))?
        .arg(option(alloc, STRUCTURED).action(ArgAction::SetTrue))?
        .arg(
            Arg::new(alloc, STRING)
                .value_name("STRING")
                .help("Input, in place of standard input"),
        )?;
    match command.try_get_matches_from(words) {
        Ok(matches) => Ok(matches),
        Err(error) => Err(refusal(alloc, &error)),
    }
}
