//! The call that encodes an input as a symbol that may have a logo.

ghost use Rattle.std.specs.Prelude.{◌≡◌, ◌≢◌, ◌<◌, ◌↔◌, ◌⊎◌, ℕ, [], length};
ghost use Rattle.qr_bits.specs.Interpretation.{MayWrite};
ghost use Rattle.qr_symbol.specs.VersionChoice.{HasNoVersion};
ghost use Rattle.qrproved.specs.Logo.{AreLogoSettings, IsLargestForLogo, IsWrittenForLogo, LacksLogoRoom};
ghost use Rattle.qrproved.specs.Settings.{interpretation_of, level_of, rule_of};

use crate::encoding::QrprovedSymbol;
use crate::modules::{area, write_square};
use crate::settings::{between, number_of_level, settings_of};
use crate::status::{DONE, EMPTY, FIELDS, LOGO, MEMORY, ROOM, SETTINGS, TOO_LONG};
use qr_bits::{INPUT_MAX, may_write};
use qr_logos::{Logo, LogoFault, encode_with_logo};
use qr_symbol::laws::long_inputs_have_none;
use std::alloc::Global;

// The most modules that a symbol has on a side.
const SIDE_MAX: u8 = 177;

// The greatest share of the codewords that can be corrected which a logo may use up, in percent.
const SHARE_MAX: u8 = 75;

/// Encodes `input` as one symbol that may have a logo of `logo` by `logo` modules, and writes the symbol's modules to
/// `modules`. The logo is a square in the middle of the symbol: its first row and its first column have the number
/// (`side` - `logo`) / 2, rounded down. The modules that are written have the colours that they have without a logo.
///
/// The symbol can be mended to exactly its content, whatever colours the modules under the logo get. In each block the logo
/// covers at most `share` percent of the codewords that can be corrected, and the rest may be wrong for other reasons. It
/// covers no module of a finder pattern, its separator, a timing pattern, the format information or the version information.
///
/// The version is the least, from `version` on, that the input fits at some level, from `level` on, with which the logo is
/// allowed. Of these levels the symbol has the highest. It is the symbol that `qrproved_encode` writes for this version and
/// this level.
///
/// `version` is 1 to 40, and `level` is 0 to 3 for L, M, Q and H. `rule` is 0 for all modes but kanji mode, 1 for byte
/// mode alone, and 2 for all modes. `interpretation` is 0 to 999,999 for the ECI with this number, 1,000,000 for no
/// interpretation, and 1,000,001 for GS1 data. `logo` is 0 to 177, and `share` 0 to 75.
///
/// On status 0 the buffer begins with exactly the modules of the symbol, and `symbol` has its version, side, level and
/// mask. Reading the symbol yields the input with its interpretation. On status `LOGO` `largest` has the side of the largest
/// logo that a symbol of the input may have, in modules.
///
/// # Errors
///
/// The first of these that applies: `SETTINGS` (a number is out of range, or `rule` is 2 with an ECI other than 20,
/// which is Shift JIS), `EMPTY` (`input` has no byte), `FIELDS` (in GS1 data a byte 1D comes directly before another or
/// before `%`), `TOO_LONG` (the input fits no allowed version), `LOGO` (no version and level that the input fits allow the
/// logo) and `ROOM` (`modules` is too short). `MEMORY` if memory is refused. `SETTINGS`, `EMPTY`, `FIELDS`, and `TOO_LONG` for
/// an input of more than 7,089 bytes are found before memory is requested.
#[unsafe(no_mangle)]
pub extern "C" fn qrproved_encode_logo(
    alloc: Global,
    input: &[u8],
    version: u32,
    level: u32,
    rule: u32,
    interpretation: u32,
    logo: u32,
    share: u32,
    modules: &mut [u8],
    symbol: &mut QrprovedSymbol,
    largest: &mut u8,
) -> u8
    ensures done { result ≡ DONE
        → IsWrittenForLogo input.now version level rule interpretation logo share modules.old modules.new symbol.new }
    ensures told { result ≡ LOGO
        → IsLargestForLogo input.now version level rule interpretation logo share largest.new }
    ensures unchanged { result ≢ DONE
        → (modules.new ≡ modules.old) × (symbol.new ≡ symbol.old) }
    ensures kept { result ≢ LOGO → largest.new ≡ largest.old }
    ensures settings { (result ≡ SETTINGS) ↔ (AreLogoSettings version level rule interpretation logo share → ⊥) }
    ensures empty { (result ≡ EMPTY)
        ↔ (AreLogoSettings version level rule interpretation logo share × (input.now ≡ [])) }
    ensures fields { (result ≡ FIELDS) ↔ (AreLogoSettings version level rule interpretation logo share
        × (MayWrite (interpretation_of interpretation) input.now → ⊥)) }
    ensures too_long { (result ≡ TOO_LONG) ↔ ((result ≢ MEMORY)
        × AreLogoSettings version level rule interpretation logo share
        × MayWrite (interpretation_of interpretation) input.now
        × HasNoVersion version (level_of level) (rule_of rule) (interpretation_of interpretation) input.now) }
    ensures long { AreLogoSettings version level rule interpretation logo share
        → MayWrite (interpretation_of interpretation) input.now → 7089 < length input.now → result ≡ TOO_LONG }
    ensures logo { (result ≡ LOGO) ↔ ((result ≢ MEMORY)
        × AreLogoSettings version level rule interpretation logo share
        × (input.now ≢ []) × MayWrite (interpretation_of interpretation) input.now
        × ((n : ℕ) × IsLargestForLogo input.now version level rule interpretation logo share n)) }
    ensures room { (result ≡ ROOM) ↔ ((result ≢ MEMORY)
        × AreLogoSettings version level rule interpretation logo share
        × (input.now ≢ []) × MayWrite (interpretation_of interpretation) input.now
        × LacksLogoRoom input.now version level rule interpretation logo share modules.old) }
    ensures status { (result ≡ DONE) ⊎ (result ≡ EMPTY) ⊎ (result ≡ FIELDS) ⊎ (result ≡ TOO_LONG)
        ⊎ (result ≡ LOGO) ⊎ (result ≡ MEMORY) ⊎ (result ≡ SETTINGS) ⊎ (result ≡ ROOM) }
{
    let Some(settings) = settings_of(version, level, rule, interpretation) else {
        return SETTINGS;
    };
    let Some(logo_side) = between(logo, 0, SIDE_MAX) else {
        return SETTINGS;
    };
    let Some(percent) = between(share, 0, SHARE_MAX) else {
        return SETTINGS;
    };
    if !may_write(input, settings.writing.interpretation) {
        return FIELDS;
    }
    if input.len() > INPUT_MAX {
        // A law, which is called for the prover.
        long_inputs_have_none(settings.size.version);
        return TOO_LONG;
    }
    let asked = Logo {
        side: logo_side,
        share: percent,
    };
    match encode_with_logo(alloc, input, settings.size, settings.writing, asked) {
        Err(LogoFault::Empty) => EMPTY,
        Err(LogoFault::TooLong) => TOO_LONG,
        Err(LogoFault::Memory) => MEMORY,
        Err(LogoFault::Logo(most)) => {
            *largest = most;
            LOGO
        }
        Ok(made) => {
            let side = made.matrix.side();
            if modules.len() < area(side) {
                return ROOM;
            }
            write_square(&made.matrix, 0, modules);
            *symbol = QrprovedSymbol {
                version: made.version.number(),
                side,
                level: number_of_level(made.level),
                mask: made.mask,
            };
            DONE
        }
    }
}
