//! Laws of the settings. A function here does nothing: its contract is the law. The laws compute examples, and refuse
//! wrong definitions.

ghost use Rattle.qrencode_settings.specs.Laws.{CommandLines, NumbersOfUsageFaults};

/// `CommandLines` has 45 lists of arguments. It says for each list which settings its arguments mean, or why they are
/// refused.
pub fn command_lines()
    ensures { CommandLines }
{}

/// `UsageFault::number` returns the numbers that `NumbersOfUsageFaults` lists.
pub fn numbers_of_usage_faults()
    ensures { NumbersOfUsageFaults }
{}
