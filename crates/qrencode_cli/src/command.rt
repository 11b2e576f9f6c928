//! A run of the command has four steps: it reads its settings from the arguments, gets its input, makes all symbols,
//! and writes their drawing. The first three steps make a drawing job: the symbols and how they are drawn. If a step
//! fails, the run writes the line of the fault.
//!
//! The input is read to its end, or to `INPUT_MAX` bytes, which are more than 16 symbols can hold.

ghost use Rattle.std.specs.Prelude.{MatchResult, length, map, ◌≤◌};
ghost use Rattle.std.specs.String.{string_bytes};
ghost use Rattle.qrencode_cli.specs.Command.{RunsTo, held};
ghost use Rattle.qrencode_cli.specs.Steps.Command.{Attempts, HasRead, IsJobFor, StopsReading};

use crate::drawing_job::DrawingJob;
use crate::fault::Fault;
use qr_bits::{INPUT_MAX, Interpretation, Rule, fold};
use qr_devices::{INTERRUPTIONS_MAX, Sink, Source, Trouble};
use qr_drawing::{draw, write_text};
use qr_layout::Version;
use qr_symbol::{encode, encode_series};
use qrencode_settings::{Settings, options};
use std::alloc::Global;
use std::borrow::CowSlice;

// The most bytes that one read asks for.
const CHUNK: usize = 4096;

/// Reads `input` to its end or to `INPUT_MAX` bytes, and returns the bytes. Interrupted reads are tried again, at most
/// `INTERRUPTIONS_MAX` times in all. The label of the loop is for the prover.
pub(crate) fn read_input<R: Source>(alloc: Global, input: &mut R) -> Result<Vec<u8>, Fault>
    ensures { MatchResult result (λ bytes. HasRead (R.device input.old) (R.device input.new) bytes.items)
        (StopsReading (R.device input.old) (R.device input.new)) }
{
    let mut bytes = Vec::new(alloc);
    let mut chunk = [0u8; CHUNK];
    let mut interrupted: u16 = 0;
    'reads: while bytes.len() < INPUT_MAX {
        let room = CHUNK.min(INPUT_MAX - bytes.len());
        match input.read(&mut chunk[..room]) {
            Ok(0) => break,
            Ok(given) => bytes.extend_from_slice(&chunk[..given])?,
            Err(Trouble::Interrupted) => {
                if interrupted == INTERRUPTIONS_MAX {
                    return Err(Fault::Read);
                }
                interrupted += 1;
            }
            Err(Trouble::Failed) => return Err(Fault::Read),
        }
    }
    Ok(bytes)
}

// Makes the symbols of `input`. With `-i` the input is folded first. Without `-S` it becomes one symbol, and with `-S`
// one symbol or a series.
fn job_of(alloc: Global, input: &[u8], settings: &Settings) -> Result<DrawingJob, Fault>
    requires { length input.now ≤ INPUT_MAX }
    ensures { IsJobFor settings.now (held settings.now input.now) result }
{
    let version = settings.smallest.unwrap_or(Version::FIRST);
    let level = settings.level;
    let rule = if settings.bytes_only {
        Rule::BytesOnly
    } else if settings.kanji {
        Rule::WithKanji
    } else {
        Rule::Auto
    };
    let held = if settings.fold {
        CowSlice::Owned(fold(alloc, input, rule)?)
    } else {
        CowSlice::Borrowed(input)
    };
    let symbols = if settings.structured {
        encode_series(alloc, &held, version, level, rule, Interpretation::Default)?
    } else {
        let symbol = encode(alloc, &held, level, version, rule, Interpretation::Default)?;
        Vec::from_array(alloc, [symbol])?
    };
    Ok(DrawingJob {
        symbols,
        kind: settings.kind,
        margin: settings.margin,
    })
}

// Reads the settings and the input, makes the symbols, and writes their drawing. If one of these steps fails, it
// returns the fault, and `run` writes the line of this fault. If the input is a string among the arguments, it is cut
// after `INPUT_MAX` bytes. No symbol or series holds so many bytes. A flush that fails is a write fault.
fn run_to_result<R: Source, W: Sink>(
    alloc: Global,
    words: &[String],
    input: &mut R,
    out: &mut W,
) -> Result<(), Fault>
    ensures { Attempts (map string_bytes words.now) (R.device input.old)
        (R.device input.new) (W.device out.old)
        (W.device out.new) result }
{
    let settings = options(alloc, words)?;
    let job = match &settings.string {
        Some(text) => {
            let bytes = text.as_bytes();
            job_of(alloc, &bytes[..INPUT_MAX.min(bytes.len())], &settings)?
        }
        None => {
            let bytes = read_input(alloc, input)?;
            job_of(alloc, bytes.as_slice(), &settings)?
        }
    };
    draw(&job.symbols, job.kind, job.margin, out)?;
    if out.flush().is_err() {
        return Err(Fault::Write);
    }
    Ok(())
}

/// Runs the command: reads the input that the arguments `words` ask for, and writes its drawing to `out`, or the line
/// of a fault to `err`. Returns the exit status, 0 or 1. The first of `words` is the program's name.
///
/// The input is the string among the arguments, or else all bytes of `input`. Only its first 113,425 bytes are taken,
/// which are more than 16 symbols can hold. `-8` encodes them in byte mode alone. Without `-8`, `-k` allows kanji mode.
/// `-i` folds small letters to capitals. With `-k` it leaves kanji pairs unchanged, and with `-8` it leaves all bytes
/// unchanged.
///
/// A run that returns 0 has written the whole drawing to `out`, flushed it once after that, and written nothing to
/// `err`. Reading the drawn symbols yields the whole input, folded if `-i` is given.
///
/// A run that returns 1 has written the line of the fault to `err`, or a prefix of the line if `err` took no more.
/// After a write fault, `out` has received a prefix of the drawing, or all of it if only the flush failed. After any
/// other fault nothing was written to `out`, and it was not flushed.
///
/// A read fault is reported exactly if a read failed or 1,000 reads were interrupted. A write fault is reported exactly
/// if a write of the drawing or the flush failed, a write took no byte, or 1,000 writes were interrupted. Before the
/// 1,000th interruption, interrupted reads and writes are tried again. The interruptions of the input, of the drawing
/// and of the line are counted separately.
///
/// An input is refused as too long only if its shortest encoding is too long for every allowed version. With `-S` it is
/// refused for too many symbols only if it does not fit one symbol and would be cut into more than 16 parts.
///
/// A run that reads `input` reads it to its end or to 113,425 bytes, unless a read fault or lack of memory ends the
/// run. It makes at most 114,424 reads: one for each byte, and 999 more. It makes no read after one that reached the
/// end. After a write fault `out` has taken at most as many bytes as the drawing has, and exactly as many if only the
/// flush failed. After any fault `err` has taken at most as many bytes as the line has. No write of the drawing offers
/// more than 1,200 bytes.
///
/// What is said here of the bytes themselves holds for devices whose bytes a contract can know. What is said of calls,
/// faults and numbers of bytes also holds for files, pipes and terminals, if their counts are 0 before the run.
///
/// # Notes
///
/// All symbols are made before the first byte is written.
pub fn run<R: Source, W: Sink, E: Sink>(
    alloc: Global,
    words: &[String],
    input: &mut R,
    out: &mut W,
    err: &mut E,
) -> u8
    ensures { RunsTo (map string_bytes words.now)
        (R.device input.old) (R.device input.new)
        (W.device out.old) (W.device out.new)
        (E.device err.old) (E.device err.new) result }
{
    match run_to_result(alloc, words, input, out) {
        Ok(()) => 0,
        Err(fault) => {
            let _ = write_text(fault.line(), err);
            1
        }
    }
}
