//! The call that reads a symbol without error correction (ISO/IEC 18004:2015, 12).

ghost use Rattle.std.specs.Prelude.{◌≡◌, ◌≢◌, ◌*◌, ◌<◌, ◌≤◌, ◌↔◌, ◌⊎◌, length, MatchOption};
ghost use Rattle.qr_layout.specs.Version.{side_of};
ghost use Rattle.qr_bits.specs.declared.fault.ParseFault.{ParseFault};
ghost use Rattle.qr_symbol.specs.declared.fault.ReadFault.{ReadFault};
ghost use Rattle.qr_bits.specs.Interpretation.{fnc1_of};
ghost use Rattle.qrproved.specs.Interpretation.{TellsFnc1, TellsKanji};
ghost use Rattle.qrproved.specs.Reading.{HasMoreBytes, IsGiven, IsSide, IsUnreadAt, TellsHeader};

use crate::interpretation::{QrprovedEci, fnc1_numbers, has_kanji, write_ecis};
use crate::modules::area;
use crate::settings::between;
use crate::status::{CHECK, DONE, FORMAT, MEMORY, ROOM, SEGMENTS, SIDE, read_status};
use qr_bits::{Header, Parsed};
use qr_layout::Version;
use qr_matrix::matrix_of_bytes;
use qr_symbol::laws::{contents_are_one, refusals_are_one};
use qr_symbol::read_symbol;
use std::alloc::Global;

/// The numbers that `qrproved_read` returns with the bytes and ECI headers of a symbol.
#[repr(C)]
#[derive(Clone, Copy)]
pub struct QrprovedContent {
    /// How many bytes the symbol contains.
    pub len: usize,
    /// How many ECI headers the symbol has.
    pub eci_count: usize,
    /// The version, 1 to 40.
    pub version: u8,
    /// 1 if the symbol has a structured append header, as each symbol of a series has. Otherwise 0, and then the next
    /// three fields are 0 too.
    pub has_header: u8,
    /// The position in the series, 0 to 15.
    pub position: u8,
    /// The number of symbols of the series less 1, 0 to 15.
    pub last: u8,
    /// The parity data of the whole input of the series.
    pub parity: u8,
    /// 0 without FNC1, 1 for FNC1 in first position, which means GS1 data, and 2 for FNC1 in second position.
    pub fnc1: u8,
    /// The application indicator after FNC1 in second position, and otherwise 0.
    pub application: u8,
    /// 1 if a segment is in kanji mode, whose bytes are Shift JIS, and otherwise 0.
    pub has_kanji: u8,
}

pub(crate) fn version_of_side(side: u32) -> Option<Version>
    ensures { MatchOption result (IsSide side → ⊥)
        (λ v. (1 ≤ v) × (v ≤ 40) × (side ≡ side_of v)) }
{
    let side = between(side, 21, 177)?;
    Version::of_side(side)
}

pub(crate) fn content_of(len: usize, version: Version, parsed: &Parsed) -> QrprovedContent
    ensures len { result.len ≡ len }
    ensures version { result.version ≡ version }
    ensures header { TellsHeader parsed.now.header result.has_header result.position result.last result.parity }
    ensures count { result.eci_count ≡ length parsed.now.ecis }
    ensures position { TellsFnc1 (fnc1_of parsed.now.items) result.fnc1 result.application }
    ensures kanji { TellsKanji parsed.now.items result.has_kanji }
{
    let told = parsed.header.unwrap_or(Header {
        position: 0,
        last: 0,
        parity: 0,
    });
    let (fnc1, application) = fnc1_numbers(parsed.fnc1());
    QrprovedContent {
        len,
        eci_count: parsed.ecis.len(),
        version: version.number(),
        has_header: u8::from(parsed.header.is_some()),
        position: told.position,
        last: told.last,
        parity: told.parity,
        fnc1,
        application,
        has_kanji: u8::from(has_kanji(&parsed.items)),
    }
}

/// Reads the symbol that `modules` begins with, and corrects no error (ISO/IEC 18004:2015, 12). The symbol has `side`
/// rows, and its modules stand row by row, as `qrproved_encode` writes them. A module is light if it is 0, and
/// otherwise dark. The bytes that the symbol contains are written to `bytes`, and its ECI headers to `ecis`. If `ecis`
/// is too short for all headers, only the first ones are written.
///
/// On status 0 the bytes, the ECI headers and the numbers in `content` are those of a symbol that has the same
/// codewords and the same first copy of the format information as the square. Nothing is promised of the other modules
/// of the square: the function patterns, the dark module, the second copy of the format information, the version
/// information and the remainder bits.
///
/// # Errors
///
/// The first of these that applies: `SIDE` (no version has this side), `ROOM` (`modules` is too short), `FORMAT` (the
/// format information is wrong), `CHECK` (a block does not match its error correction codewords), `SEGMENTS` (the data
/// codewords cannot be parsed) and `ROOM` (`bytes` is too short). `MEMORY` if memory is refused. `SIDE` and the first
/// `ROOM` are found before memory is requested.
#[unsafe(no_mangle)]
pub extern "C" fn qrproved_read(
    alloc: Global,
    modules: &[u8],
    side: u32,
    bytes: &mut [u8],
    ecis: &mut [QrprovedEci],
    content: &mut QrprovedContent,
) -> u8
    ensures done { result ≡ DONE → IsGiven modules.now side bytes.old bytes.new ecis.old ecis.new content.new }
    ensures unchanged { result ≢ DONE
        → (bytes.new ≡ bytes.old) × (ecis.new ≡ ecis.old) × (content.new ≡ content.old) }
    ensures side { (result ≡ SIDE) ↔ (IsSide side → ⊥) }
    ensures room { (result ≡ ROOM) ↔ (IsSide side × ((length modules.now < side * side)
        ⊎ ((result ≢ MEMORY) × HasMoreBytes modules.now side bytes.old))) }
    ensures format { (result ≡ FORMAT)
        ↔ ((result ≢ MEMORY) × IsUnreadAt modules.now side ReadFault.Format) }
    ensures check { (result ≡ CHECK)
        ↔ ((result ≢ MEMORY) × IsUnreadAt modules.now side ReadFault.Check) }
    ensures segments { (result ≡ SEGMENTS) ↔ ((result ≢ MEMORY)
        × ((why : ParseFault) × IsUnreadAt modules.now side (ReadFault.Segments why))) }
    ensures status { (result ≡ DONE) ⊎ (result ≡ MEMORY) ⊎ (result ≡ ROOM) ⊎ (result ≡ SIDE)
        ⊎ (result ≡ FORMAT) ⊎ (result ≡ CHECK) ⊎ (result ≡ SEGMENTS) }
{
    let Some(version) = version_of_side(side) else {
        return SIDE;
    };
    let side = version.side();
    if modules.len() < area(side) {
        return ROOM;
    }
    let Ok(matrix) = matrix_of_bytes(alloc, modules, side) else {
        return MEMORY;
    };
    // Laws, which are called for the prover.
    contents_are_one();
    refusals_are_one();
    match read_symbol(alloc, &matrix) {
        Err(fault) => read_status(fault),
        Ok(parsed) => {
            let len = parsed.bytes.len();
            if bytes.len() < len {
                return ROOM;
            }
            bytes[..len].copy_from_slice(&parsed.bytes);
            write_ecis(&parsed.ecis, ecis);
            *content = content_of(len, version, &parsed);
            DONE
        }
    }
}
