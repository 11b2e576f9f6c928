//! The program `qrencode` passes its arguments and its standard streams to `qrencode_cli::run`, and exits with the
//! status that `run` returns.
#![tactic(auto)]

ghost use Rattle.std.specs.Prelude.{map};
ghost use Rattle.std.specs.String.{string_bytes};
ghost use Rattle.std.specs.Process.{exit_status};
ghost use Rattle.qrencode_cli.specs.Command.{RunsTo};

use qrencode_cli::{Counted, Sink, Source, run};
use std::alloc::Global;
use std::env;
use std::process::ExitCode;

// The part of `main` that a contract can describe. The devices are parameters here, but `main` makes them itself.
fn command<R: Source, W: Sink, E: Sink>(
    alloc: Global,
    words: &[String],
    input: &mut R,
    out: &mut W,
    err: &mut E,
) -> ExitCode
    ensures { RunsTo (map string_bytes words.now)
        (R.device input.old) (R.device input.new)
        (W.device out.old) (W.device out.new)
        (E.device err.old) (E.device err.new) (exit_status result) }
{
    ExitCode::from(run(alloc, words, input, out, err))
}

// If memory for the arguments is refused, or an argument is not valid UTF-8, the program writes nothing and exits with
// status 1.
fn main(rt: HostRuntime) -> ExitCode {
    let words: Vec<String> = match env::args(&rt) {
        Ok(args) => match args.collect(rt.alloc()) {
            Ok(words) => words,
            Err(_) => return ExitCode::from(1),
        },
        Err(_) => return ExitCode::from(1),
    };
    let mut input = Counted::new(rt.stdin());
    let mut out = Counted::new(rt.stdout());
    let mut err = Counted::new(rt.stderr());
    command(rt.alloc(), words.as_slice(), &mut input, &mut out, &mut err)
}
