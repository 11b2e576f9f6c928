//! The calls that encode an input as one symbol (ISO/IEC 18004:2015, 7.1). One writes a byte for each module, and the
//! other a bit.

ghost use Rattle.std.specs.Prelude.{◌≡◌, ◌≢◌, ◌<◌, ◌↔◌, ◌⊎◌, [], length, Err, IfErr, IfOk};
ghost use Rattle.qr_bits.specs.Interpretation.{MayWrite};
ghost use Rattle.qr_symbol.specs.VersionChoice.{HasNoVersion};
ghost use Rattle.qrproved.specs.Settings.{AreSymbolSettings, interpretation_of, level_of, rule_of};
ghost use Rattle.qrproved.specs.Encoding.{HasNoRoom, HasNoRoomForBits, IsEncoded, IsWritten, IsWrittenAsBits};

use crate::bits::{bits_len, write_bits};
use crate::modules::{area, write_square};
use crate::settings::{number_of_level, settings_of};
use crate::status::{DONE, EMPTY, FIELDS, MEMORY, ROOM, SETTINGS, TOO_LONG, encode_status};
use qr_bits::{INPUT_MAX, may_write};
use qr_matrix::Matrix;
use qr_symbol::laws::long_inputs_have_none;
use qr_symbol::{Asked, encode_as};
use std::alloc::Global;

/// The numbers of a symbol, which `qrproved_encode` returns with the symbol's modules.
#[repr(C)]
#[derive(Clone, Copy)]
pub struct QrprovedSymbol {
    /// The version, 1 to 40.
    pub version: u8,
    /// The number of rows and columns, 21 to 177.
    pub side: u8,
    /// The level, 0 to 3 for L, M, Q and H.
    pub level: u8,
    /// The mask, 0 to 7.
    pub mask: u8,
}

// The numbers of the settings of a symbol, as a caller passes them.
#[derive(Clone, Copy)]
struct Numbers {
    version: u32,
    level: u32,
    rule: u32,
    interpretation: u32,
    boost: u32,
}

// Returns the symbol of `input` and its numbers, or the status of the first cause to refuse the input, or of lack of
// memory.
#[inline(always)]
fn symbol_of(alloc: Global, input: &[u8], numbers: Numbers) -> Result<(Matrix, QrprovedSymbol), u8>
    ensures symbol { IfOk result (λ made. (IsEncoded input.now
        numbers.version numbers.level numbers.rule numbers.interpretation numbers.boost made.0 made.1)
        × MayWrite (interpretation_of numbers.interpretation) input.now) }
    ensures settings { (result ≡ Err SETTINGS)
        ↔ (AreSymbolSettings numbers.version numbers.level numbers.rule numbers.interpretation numbers.boost → ⊥) }
    ensures empty { (result ≡ Err EMPTY)
        ↔ (AreSymbolSettings numbers.version numbers.level numbers.rule numbers.interpretation numbers.boost × (input.now ≡ [])) }
    ensures fields { (result ≡ Err FIELDS) ↔ (AreSymbolSettings numbers.version numbers.level numbers.rule numbers.interpretation numbers.boost
        × (MayWrite (interpretation_of numbers.interpretation) input.now → ⊥)) }
    ensures too_long { (result ≡ Err TOO_LONG) ↔ ((result ≢ Err MEMORY)
        × AreSymbolSettings numbers.version numbers.level numbers.rule numbers.interpretation numbers.boost
        × MayWrite (interpretation_of numbers.interpretation) input.now
        × HasNoVersion numbers.version (level_of numbers.level) (rule_of numbers.rule) (interpretation_of numbers.interpretation) input.now) }
    ensures long { AreSymbolSettings numbers.version numbers.level numbers.rule numbers.interpretation numbers.boost
        → MayWrite (interpretation_of numbers.interpretation) input.now → 7089 < length input.now → result ≡ Err TOO_LONG }
    ensures status { IfErr result (λ status. (status ≡ EMPTY) ⊎ (status ≡ FIELDS) ⊎ (status ≡ TOO_LONG)
        ⊎ (status ≡ MEMORY) ⊎ (status ≡ SETTINGS)) }
{
    let Numbers {
        version,
        level,
        rule,
        interpretation,
        boost,
    } = numbers;
    let Some(settings) = settings_of(version, level, rule, interpretation) else {
        return Err(SETTINGS);
    };
    if boost > 1 {
        return Err(SETTINGS);
    }
    if !may_write(input, settings.writing.interpretation) {
        return Err(FIELDS);
    }
    if input.len() > INPUT_MAX {
        // A law, which is called for the prover.
        long_inputs_have_none(settings.size.version);
        return Err(TOO_LONG);
    }
    let asked = Asked {
        least: settings.size,
        boost: boost == 1,
    };
    match encode_as(alloc, input, asked, settings.writing) {
        Err(fault) => Err(encode_status(fault)),
        Ok(made) => {
            let symbol = QrprovedSymbol {
                version: made.version.number(),
                side: made.matrix.side(),
                level: number_of_level(made.level),
                mask: made.mask,
            };
            Ok((made.matrix, symbol))
        }
    }
}

/// Encodes `input` as one symbol, and writes the symbol's modules to `modules` (ISO/IEC 18004:2015, 7.1). The version
/// is the least that the input fits, from `version` on. The byte of `modules` with the index `row * side + column` is 1
/// if the module in this row and column is dark, and 0 if it is light. Rows and columns are counted from 0.
///
/// `version` is 1 to 40, and `level` is 0 to 3 for L, M, Q and H. `rule` is 0 for all modes but kanji mode, 1 for byte
/// mode alone, and 2 for all modes. `interpretation` is 0 to 999,999 for the ECI with this number, 1,000,000 for no
/// interpretation, and 1,000,001 for GS1 data. In GS1 data the byte 1D (hexadecimal) separates fields. If `boost` is 1,
/// the symbol gets the highest level, from `level` on, at which the input fits the symbol's version; if it is 0, the
/// symbol gets `level`.
///
/// On status 0 the buffer begins with exactly the modules of the symbol, and `symbol` has its version, side, level and
/// mask. Reading the symbol yields the input with its interpretation.
///
/// # Errors
///
/// The first of these that applies: `SETTINGS` (a number is out of range, or `rule` is 2 with an ECI other than 20,
/// which is Shift JIS), `EMPTY` (`input` has no byte), `FIELDS` (in GS1 data a byte 1D comes directly before another or
/// before `%`), `TOO_LONG` (the input fits no allowed version) and `ROOM` (`modules` is too short). `MEMORY` if memory
/// is refused. No symbol holds more than 7,089 bytes. `SETTINGS`, `EMPTY`, `FIELDS`, and `TOO_LONG` for an input of
/// more than 7,089 bytes are found before memory is requested.
#[unsafe(no_mangle)]
pub extern "C" fn qrproved_encode(
    alloc: Global,
    input: &[u8],
    version: u32,
    level: u32,
    rule: u32,
    interpretation: u32,
    boost: u32,
    modules: &mut [u8],
    symbol: &mut QrprovedSymbol,
) -> u8
    ensures done { result ≡ DONE
        → IsWritten input.now version level rule interpretation boost modules.old modules.new symbol.new }
    ensures unchanged { result ≢ DONE
        → (modules.new ≡ modules.old) × (symbol.new ≡ symbol.old) }
    ensures settings { (result ≡ SETTINGS) ↔ (AreSymbolSettings version level rule interpretation boost → ⊥) }
    ensures empty { (result ≡ EMPTY)
        ↔ (AreSymbolSettings version level rule interpretation boost × (input.now ≡ [])) }
    ensures fields { (result ≡ FIELDS) ↔ (AreSymbolSettings version level rule interpretation boost
        × (MayWrite (interpretation_of interpretation) input.now → ⊥)) }
    ensures too_long { (result ≡ TOO_LONG) ↔ ((result ≢ MEMORY)
        × AreSymbolSettings version level rule interpretation boost
        × MayWrite (interpretation_of interpretation) input.now
        × HasNoVersion version (level_of level) (rule_of rule) (interpretation_of interpretation) input.now) }
    ensures long { AreSymbolSettings version level rule interpretation boost
        → MayWrite (interpretation_of interpretation) input.now → 7089 < length input.now → result ≡ TOO_LONG }
    ensures room { (result ≡ ROOM) ↔ ((result ≢ MEMORY)
        × AreSymbolSettings version level rule interpretation boost
        × (input.now ≢ []) × MayWrite (interpretation_of interpretation) input.now
        × HasNoRoom input.now version level rule interpretation modules.old) }
    ensures status { (result ≡ DONE) ⊎ (result ≡ EMPTY) ⊎ (result ≡ FIELDS) ⊎ (result ≡ TOO_LONG)
        ⊎ (result ≡ MEMORY) ⊎ (result ≡ SETTINGS) ⊎ (result ≡ ROOM) }
{
    let asked = Numbers {
        version,
        level,
        rule,
        interpretation,
        boost,
    };
    match symbol_of(alloc, input, asked) {
        Err(status) => status,
        Ok((matrix, numbers)) => {
            if modules.len() < area(numbers.side) {
                return ROOM;
            }
            write_square(&matrix, 0, modules);
            *symbol = numbers;
            DONE
        }
    }
}

/// Encodes `input` as one symbol as `qrproved_encode` does, and writes the symbol's modules to `bits` as bits (ISO/IEC
/// 18004:2015, 7.1). The version is the least that the input fits, from `version` on. The module in row `row` and column
/// `column`, both counted from 0, has the number k = `row * side + column`. Its bit is bit 7 - k % 8 of byte k / 8, where
/// bit 0 is the lowest: 1 if the module is dark, and 0 if it is light. So a symbol takes `side * side / 8` bytes, rounded
/// up: 56 for version 1 and 3,917 for version 40. The bits after the last module, up to the end of its byte, are 0.
///
/// `version` is 1 to 40, and `level` is 0 to 3 for L, M, Q and H. `rule` is 0 for all modes but kanji mode, 1 for byte
/// mode alone, and 2 for all modes. `interpretation` is 0 to 999,999 for the ECI with this number, 1,000,000 for no
/// interpretation, and 1,000,001 for GS1 data. In GS1 data the byte 1D (hexadecimal) separates fields. If `boost` is 1,
/// the symbol gets the highest level, from `level` on, at which the input fits the symbol's version; if it is 0, the
/// symbol gets `level`.
///
/// On status 0 the buffer begins with exactly the modules of the symbol as bits, and `symbol` has its version, side, level and
/// mask. Reading the symbol yields the input with its interpretation.
///
/// # Errors
///
/// The first of these that applies: `SETTINGS` (a number is out of range, or `rule` is 2 with an ECI other than 20,
/// which is Shift JIS), `EMPTY` (`input` has no byte), `FIELDS` (in GS1 data a byte 1D comes directly before another or
/// before `%`), `TOO_LONG` (the input fits no allowed version) and `ROOM` (`bits` is too short). `MEMORY` if memory
/// is refused. No symbol holds more than 7,089 bytes. `SETTINGS`, `EMPTY`, `FIELDS`, and `TOO_LONG` for an input of
/// more than 7,089 bytes are found before memory is requested.
#[unsafe(no_mangle)]
pub extern "C" fn qrproved_encode_bits(
    alloc: Global,
    input: &[u8],
    version: u32,
    level: u32,
    rule: u32,
    interpretation: u32,
    boost: u32,
    bits: &mut [u8],
    symbol: &mut QrprovedSymbol,
) -> u8
    ensures done { result ≡ DONE
        → IsWrittenAsBits input.now version level rule interpretation boost bits.old bits.new symbol.new }
    ensures unchanged { result ≢ DONE
        → (bits.new ≡ bits.old) × (symbol.new ≡ symbol.old) }
    ensures settings { (result ≡ SETTINGS) ↔ (AreSymbolSettings version level rule interpretation boost → ⊥) }
    ensures empty { (result ≡ EMPTY)
        ↔ (AreSymbolSettings version level rule interpretation boost × (input.now ≡ [])) }
    ensures fields { (result ≡ FIELDS) ↔ (AreSymbolSettings version level rule interpretation boost
        × (MayWrite (interpretation_of interpretation) input.now → ⊥)) }
    ensures too_long { (result ≡ TOO_LONG) ↔ ((result ≢ MEMORY)
        × AreSymbolSettings version level rule interpretation boost
        × MayWrite (interpretation_of interpretation) input.now
        × HasNoVersion version (level_of level) (rule_of rule) (interpretation_of interpretation) input.now) }
    ensures long { AreSymbolSettings version level rule interpretation boost
        → MayWrite (interpretation_of interpretation) input.now → 7089 < length input.now → result ≡ TOO_LONG }
    ensures room { (result ≡ ROOM) ↔ ((result ≢ MEMORY)
        × AreSymbolSettings version level rule interpretation boost
        × (input.now ≢ []) × MayWrite (interpretation_of interpretation) input.now
        × HasNoRoomForBits input.now version level rule interpretation bits.old) }
    ensures status { (result ≡ DONE) ⊎ (result ≡ EMPTY) ⊎ (result ≡ FIELDS) ⊎ (result ≡ TOO_LONG)
        ⊎ (result ≡ MEMORY) ⊎ (result ≡ SETTINGS) ⊎ (result ≡ ROOM) }
{
    let asked = Numbers {
        version,
        level,
        rule,
        interpretation,
        boost,
    };
    match symbol_of(alloc, input, asked) {
        Err(status) => status,
        Ok((matrix, numbers)) => {
            if bits.len() < bits_len(numbers.side) {
                return ROOM;
            }
            write_bits(&matrix, bits);
            *symbol = numbers;
            DONE
        }
    }
}
