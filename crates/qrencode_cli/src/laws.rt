//! Laws of the command. A function here does nothing: its contract is the law. The theorems that the README claims are
//! in `qr_theorems`, and the laws of the arguments alone in `qrencode_settings`. The laws here compute examples and refuse wrong definitions.

ghost use Rattle.std.specs.Prelude.{◌≡◌};
ghost use Rattle.qr_bits.specs.declared.modes.TheConstants.{INPUT_MAX};
ghost use Rattle.qr_devices.specs.declared.device.TheConstants.{INTERRUPTIONS_MAX};
ghost use Rattle.qr_devices.specs.declared.pen.TheConstants.{WRITE_MAX};
ghost use Rattle.qrencode_cli.specs.Laws.{AnswersAreOne, FoldingFollowsTheRule, LinesOfFaults, RefusalsAreOne, RefusalsExcludeDrawings, RulesOfModes, StatusesAreTwo};

/// These are the values of three limits that the contract of `run` uses: the most bytes of input that are read
/// (`INPUT_MAX`), the most bytes that one write of the drawing offers (`WRITE_MAX`), and the most interrupted calls of
/// a device that are tried again (`INTERRUPTIONS_MAX`).
pub fn limits()
    ensures input { INPUT_MAX ≡ 113425 }
    ensures piece { WRITE_MAX ≡ 1200 }
    ensures interruptions { INTERRUPTIONS_MAX ≡ 999 }
{}

/// Arguments and an input have at most one drawing. If they have one, no refusal is correct, so only a device or lack
/// of memory can make the run fail. At most one refusal is correct, if all refusals by `clap` count as one.
pub fn answers_are_one()
    ensures drawing { AnswersAreOne }
    ensures refusal { RefusalsExcludeDrawings }
    ensures reason { RefusalsAreOne }
{}

/// With `-8` only byte mode is allowed, whether or not `-k` is given. Otherwise all four modes are allowed with `-k`,
/// and all but kanji mode without it.
pub fn rules_of_modes()
    ensures { RulesOfModes }
{}

/// With `-i` the input is folded as the rule of modes says, and without `-i` it stays as it is. For example, with `-k`
/// a kanji pair stays unchanged even if its second byte is the code of a small letter.
#[tactic(auto, unfolding(qr_bits::specs::Folding::folded_around_pairs, qr_bits::specs::Modes::is_kanji_pair))]
pub fn folding_follows_the_rule()
    ensures { FoldingFollowsTheRule }
{}

/// The exit status is 0 after success, and 1 after any fault.
pub fn statuses_are_two()
    ensures { StatusesAreTwo }
{}

/// Each fault but the refusal of arguments by `clap` has the line that `LinesOfFaults` lists. The line of such a
/// refusal is the text of `clap`.
pub fn lines_of_faults()
    ensures { LinesOfFaults }
{}
