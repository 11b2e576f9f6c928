//! The call that encodes an input as a series (ISO/IEC 18004:2015, 8).

ghost use Rattle.std.specs.Prelude.{◌≡◌, ◌≢◌, ◌<◌, ◌↔◌, ◌⊎◌, [], length};
ghost use Rattle.qr_bits.specs.Interpretation.{MayWrite};
ghost use Rattle.qr_symbol.specs.Series.{HasNoSeries};
ghost use Rattle.qrproved.specs.Settings.{AreSettings, interpretation_of, level_of, rule_of};
ghost use Rattle.qrproved.specs.Series.{HasNoSeriesRoom, IsWrittenSeries};

use crate::modules::{area, write_squares};
use crate::settings::{Settings, settings_of};
use crate::status::{DONE, EMPTY, FIELDS, MEMORY, ROOM, SETTINGS, TOO_MANY, encode_status};
use qr_bits::{INPUT_MAX, may_write};
use qr_symbol::encode_series;
use qr_symbol::laws::{long_inputs_have_none, series_are_one, series_have_one_side};
use std::alloc::Global;

/// The numbers of a series, which `qrproved_encode_series` returns with the modules of the symbols.
#[repr(C)]
#[derive(Clone, Copy)]
pub struct QrprovedSeries {
    /// The number of symbols, 1 to 16.
    pub count: u8,
    /// The number of rows and columns of each symbol, 21 to 177.
    pub side: u8,
}

/// Encodes `input` as a series of symbols of the version `version`, or as one plain symbol if it fits one (ISO/IEC
/// 18004:2015, 8). The modules are written to `modules`, one symbol after the other. The byte of `modules` with the
/// index `(number * side + row) * side + column` is 1 if the module in this row and column of symbol `number` is dark,
/// and 0 if it is light. Symbols, rows and columns are counted from 0. `version` is 1 to 40, and `level` is 0 to 3 for
/// L, M, Q and H. `rule` is 0 for all modes but kanji mode, 1 for byte mode alone, and 2 for all modes.
/// `interpretation` is 0 to 999,999 for the ECI with this number, 1,000,000 for no interpretation, and 1,000,001 for
/// GS1 data. In GS1 data the byte 1D (hexadecimal) separates fields. Each symbol states the interpretation.
///
/// On status 0 the buffer begins with exactly the modules of the symbols, and `series` has their number and side.
/// Reading and joining the symbols yields the input, and each symbol is read with the interpretation. If kanji mode is
/// not allowed, no series of the input in this version and level, with this interpretation and in the modes that `rule`
/// allows, has fewer symbols.
///
/// # Errors
///
/// The first of these that applies: `SETTINGS` (a number is out of range, or `rule` is 2 with an ECI other than 20,
/// which is Shift JIS), `EMPTY` (`input` has no byte), `FIELDS` (in GS1 data a byte 1D comes directly before another or
/// before `%`), `TOO_MANY` (the input takes more than 16 symbols) and `ROOM` (`modules` is too short). `MEMORY` if
/// memory is refused. `SETTINGS`, `EMPTY`, `FIELDS`, and `TOO_MANY` for an input of more than 113,425 bytes are found
/// before memory is requested.
#[unsafe(no_mangle)]
pub extern "C" fn qrproved_encode_series(
    alloc: Global,
    input: &[u8],
    version: u32,
    level: u32,
    rule: u32,
    interpretation: u32,
    modules: &mut [u8],
    series: &mut QrprovedSeries,
) -> u8
    ensures done { result ≡ DONE
        → IsWrittenSeries input.now version level rule interpretation modules.old modules.new series.new }
    ensures unchanged { result ≢ DONE
        → (modules.new ≡ modules.old) × (series.new ≡ series.old) }
    ensures settings { (result ≡ SETTINGS) ↔ (AreSettings version level rule interpretation → ⊥) }
    ensures empty { (result ≡ EMPTY) ↔ (AreSettings version level rule interpretation × (input.now ≡ [])) }
    ensures fields { (result ≡ FIELDS) ↔ (AreSettings version level rule interpretation
        × (MayWrite (interpretation_of interpretation) input.now → ⊥)) }
    ensures too_many { (result ≡ TOO_MANY) ↔ ((result ≢ MEMORY)
        × AreSettings version level rule interpretation
        × MayWrite (interpretation_of interpretation) input.now
        × HasNoSeries version (level_of level) (rule_of rule) (interpretation_of interpretation) input.now) }
    ensures long { AreSettings version level rule interpretation
        → MayWrite (interpretation_of interpretation) input.now → INPUT_MAX < length input.now
        → result ≡ TOO_MANY }
    ensures room { (result ≡ ROOM) ↔ ((result ≢ MEMORY) × AreSettings version level rule interpretation
        × (input.now ≢ []) × MayWrite (interpretation_of interpretation) input.now
        × HasNoSeriesRoom input.now version level rule interpretation modules.old) }
    ensures status { (result ≡ DONE) ⊎ (result ≡ EMPTY) ⊎ (result ≡ FIELDS) ⊎ (result ≡ TOO_MANY)
        ⊎ (result ≡ MEMORY) ⊎ (result ≡ SETTINGS) ⊎ (result ≡ ROOM) }
{
    let Some(settings) = settings_of(version, level, rule, interpretation) else {
        return SETTINGS;
    };
    let Settings { size, writing } = settings;
    if !may_write(input, writing.interpretation) {
        return FIELDS;
    }
    if input.len() > INPUT_MAX {
        // A law, which is called for the prover.
        long_inputs_have_none(size.version);
        return TOO_MANY;
    }
    match encode_series(
        alloc,
        input,
        size.version,
        size.level,
        writing.rule,
        writing.interpretation,
    ) {
        Err(fault) => encode_status(fault),
        Ok(symbols) => {
            // Laws, which are called for the prover.
            series_are_one();
            series_have_one_side(size.version);
            let side = size.version.side();
            if modules.len() < symbols.len() * area(side) {
                return ROOM;
            }
            write_squares(&symbols, side, modules);
            series.count = symbols.len() as u8;
            series.side = side;
            DONE
        }
    }
}
