//! The call that says how many characters of one mode fit a symbol (ISO/IEC 18004:2015, 7.4.10, Table 7).

ghost use Rattle.std.specs.Prelude.{◌≡◌, ◌≢◌, ◌<◌, ◌↔◌, ◌⊎◌, SomeIff};
ghost use Rattle.qrproved.specs.Room.{AreRoomSettings, IsRoom, mode_of, rule_for};

use crate::settings::settings_of;
use crate::status::{DONE, SETTINGS};
use qr_bits::{Mode, most_characters};

/// Writes to `count` how many characters fit one segment of the mode `mode` in a symbol of the version `version`, 1 to
/// 40, at the level `level`, 0 to 3 for L, M, Q and H (ISO/IEC 18004:2015, 7.4.10, Table 7). `mode` is 0 for numeric, 1
/// for alphanumeric, 2 for byte and 3 for kanji mode. A character of kanji mode has two bytes, and one of the other
/// modes has one. `interpretation` is 0 to 999,999 for the ECI with this number, 1,000,000 for no interpretation, and
/// 1,000,001 for GS1 data. If `header` is 1, the symbol has a structured append header; if it is 0, it has none.
///
/// On status 0 one segment of `count` characters fits after the structured append header and the ECI header or FNC1,
/// and one of more characters does not. `count` is from 0 to 7,089. No memory is requested.
///
/// # Errors
///
/// `SETTINGS` if a number is out of range, or `mode` is 3 with an ECI other than 20, which is Shift JIS.
#[unsafe(no_mangle)]
pub extern "C" fn qrproved_room(
    version: u32,
    level: u32,
    mode: u32,
    interpretation: u32,
    header: u32,
    count: &mut u32,
) -> u8
    ensures done { result ≡ DONE → IsRoom version level mode interpretation header count.new }
    ensures unchanged { result ≢ DONE → count.new ≡ count.old }
    ensures settings { (result ≡ SETTINGS)
        ↔ (AreRoomSettings version level mode interpretation header → ⊥) }
    ensures status { (result ≡ DONE) ⊎ (result ≡ SETTINGS) }
{
    let Some(settings) = settings_of(version, level, rule_for(mode), interpretation) else {
        return SETTINGS;
    };
    let Some(mode) = mode_of(mode) else {
        return SETTINGS;
    };
    if header > 1 {
        return SETTINGS;
    }
    *count = most_characters(
        settings.size.version,
        settings.size.level,
        mode,
        settings.writing.interpretation,
        header == 1,
    );
    DONE
}

fn mode_of(number: u32) -> Option<Mode>
    ensures { SomeIff result (number < 4) (mode_of number) }
{
    match number {
        0 => Some(Mode::Numeric),
        1 => Some(Mode::Alphanumeric),
        2 => Some(Mode::Byte),
        3 => Some(Mode::Kanji),
        _ => None,
    }
}

// The number of a rule that allows the mode with this number.
fn rule_for(mode: u32) -> u32
    ensures { result ≡ rule_for mode }
{
    if mode == 3 { 2 } else { 0 }
}
