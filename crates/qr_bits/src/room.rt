//! How many characters of one mode fit a symbol, in one segment (ISO/IEC 18004:2015, 7.4.10, Table 7).

ghost use Rattle.std.specs.Prelude.{ℕ, ◌≤◌};
ghost use Rattle.qr_bits.specs.Modes.{byte_count, payload_bits};
ghost use Rattle.qr_bits.specs.Room.{IsMostCharacters};

use crate::interpretation::{Interpretation, interpretation_bits};
use crate::modes::{Mode, count_width};
use crate::stream::HEADER_BITS;
use qr_layout::{Level, Version};

/// Returns the greatest number of characters that one segment of this mode can have in a symbol of this version and
/// level (ISO/IEC 18004:2015, 7.4.10, Table 7). In kanji mode a character has two bytes, and in the other modes one.
/// Before the segment the symbol has the ECI header or FNC1 of the interpretation and, if `headed` is true, a structured
/// append header (ISO/IEC 18004:2015, 7.4.2, 7.4.8.2, 8.1). The number is from 0, for kanji in version 1 at level H
/// after a structured append header and an ECI header of 28 bits, to 7,089, for digits in version 40 at level L.
pub fn most_characters(
    version: Version,
    level: Level,
    mode: Mode,
    interpretation: Interpretation,
    headed: bool,
) -> u32
    ensures { IsMostCharacters version level mode interpretation headed result }
{
    let header = if headed { HEADER_BITS } else { 0 };
    let head = header
        + interpretation_bits(interpretation)
        + 4
        + u64::from(count_width(version, mode));
    characters_in(mode, version.capacity(level) - head)
}

// The greatest number of characters of this mode whose data take at most `bits` bits. Three digits take 10 bits, and two
// characters of alphanumeric mode 11. Fewer characters take as many bits as their share comes to, rounded up.
#[tactic(auto, using(crate::proofs::lemmas::room::digits_up, crate::proofs::lemmas::room::characters_up, crate::proofs::lemmas::room::kanji_up))]
fn characters_in(mode: Mode, bits: u64) -> u32
    requires { bits ≤ 23648 }
    ensures fits { payload_bits mode (byte_count mode result) ≤ bits }
    ensures most { (k : ℕ) → payload_bits mode (byte_count mode k) ≤ bits → k ≤ result }
{
    let count = match mode {
        Mode::Numeric => 3 * bits / 10,
        Mode::Alphanumeric => 2 * bits / 11,
        Mode::Byte => bits / 8,
        Mode::Kanji => bits / 13,
    };
    count as u32
}
