//! The call that reads a damaged symbol and measures its damage (ISO/IEC 18004:2015, 7.5.1, 7.9.1 and 12).

ghost use Rattle.std.specs.Prelude.{true, ◌≡◌, ◌≢◌, ◌+◌, ◌*◌, ◌<◌, ◌≤◌, ◌==◌, ◌↔◌, ◌⊎◌, length, IfOk, MatchBool, MatchResult};
ghost use Rattle.std.specs.List.{All, Any};
ghost use Rattle.qr_bits.specs.declared.fault.ParseFault.{ParseFault};
ghost use Rattle.qr_symbol.specs.declared.fault.ReadFault.{ReadFault};
ghost use Rattle.qr_mending.specs.Mending.{wrong_format_least, wrong_format_modules, HasWrongModules, IsMendedReading, IsUnmended};
ghost use Rattle.qr_layout.specs.Blocks.{correctable_of};
ghost use Rattle.qr_bits.specs.Interpretation.{fnc1_of};
ghost use Rattle.qrproved.specs.Interpretation.{TellsFnc1, TellsKanji};
ghost use Rattle.qrproved.specs.Modules.{square_of_bytes};
ghost use Rattle.qrproved.specs.Reading.{IsSide, TellsHeader};
ghost use Rattle.qrproved.specs.Mending.{spent_in, square_of_unknown, HasMoreMendedBytes, HasOtherByte, IsGivenMended, IsGreatest, IsUnmendedAt, IsWorstBlock, TellsWorstBlock};
ghost use Rattle.qrproved.specs.Settings.{level_of};

use crate::interpretation::{QrprovedEci, write_ecis};
use crate::modules::area;
use crate::reading::{content_of, version_of_side};
use crate::settings::number_of_level;
use crate::status::{CHECK, DONE, FORMAT, MEMORY, ROOM, SEGMENTS, SETTINGS, SIDE, read_status};
use qr_matrix::matrices_of_bytes;
use qr_mending::laws::{
    changes_are_bounded, mended_readings_are_not_refused, mended_readings_are_one,
    mending_refusals_are_one,
};
use qr_mending::{Changes, Mended, mend_symbol_with_unknown};
use qr_symbol::ReadFault;
use std::alloc::Global;

/// The numbers that `qrproved_mend` returns with the bytes and ECI headers of a damaged symbol. They describe the
/// symbol and its damage.
#[repr(C)]
#[derive(Clone, Copy)]
pub struct QrprovedMended {
    /// How many bytes the symbol contains.
    pub len: usize,
    /// How many ECI headers the symbol has.
    pub eci_count: usize,
    /// How many modules of the whole square are misread or not known. This is 0 exactly if all modules are known and
    /// the square is the undamaged symbol.
    pub wrong_modules: u32,
    /// The version, 1 to 40.
    pub version: u8,
    /// 1 if the symbol has a structured append header, as each symbol of a series has. Otherwise 0, and then the next
    /// three fields are 0 too.
    pub has_header: u8,
    /// The position in the series, 0 to 15.
    pub position: u8,
    /// The number of symbols of the series less 1, 0 to 15.
    pub last: u8,
    /// The parity data of the whole input of the series.
    pub parity: u8,
    /// 0 without FNC1, 1 for FNC1 in first position, which means GS1 data, and 2 for FNC1 in second position.
    pub fnc1: u8,
    /// The application indicator after FNC1 in second position, and otherwise 0.
    pub application: u8,
    /// 1 if a segment is in kanji mode, whose bytes are Shift JIS, and otherwise 0.
    pub has_kanji: u8,
    /// The level, 0 to 3 for L, M, Q and H.
    pub level: u8,
    /// The mask, 0 to 7.
    pub mask: u8,
    /// How many of the 30 modules of format information are misread or not known.
    pub wrong_format_modules: u8,
    /// How many of its 15 modules are misread or not known in the copy of the format information that has fewer of them.
    pub wrong_format_least: u8,
    /// The greatest number of codewords that were corrected in one block. A codeword with a module that is not known is
    /// not counted.
    pub changed_most: u8,
    /// How many misread codewords can be corrected in a block if all its modules are known, 2 to 15.
    pub changed_allowed: u8,
    /// The most error correction codewords that were used up in one block, at most twice `changed_allowed`: one for each
    /// codeword with a module that is not known, and two for each misread codeword.
    pub spent_most: u8,
    /// How many codewords were misread in the worst block, codewords with a module that is not known not counted. The
    /// worst block has the most codewords that are misread or have a module that is not known. If several blocks have
    /// the most, it is the first of them.
    pub worst_misread: u8,
    /// How many codewords of the worst block have a module that is not known.
    pub worst_unknown: u8,
    /// How many of the codewords counted by `worst_unknown` are wrong if each module that is not known is dark.
    pub worst_unknown_wrong: u8,
}

// The byte that stands for a module that is not known.
const NOT_KNOWN: u8 = 2;

// Says whether each byte is at most 2. The loop goes on after a greater byte, so that the compiled code can compare
// many bytes at once.
fn are_modules(modules: &[u8]) -> bool
    ensures { MatchBool result (All (λ b. b ≤ 2) modules.now) (Any (λ b. 2 < b) modules.now) }
{
    let mut are_modules = true;
    for module in modules {
        if *module > NOT_KNOWN {
            are_modules = false;
        }
    }
    are_modules
}

fn mend_modules(alloc: Global, modules: &[u8], side: u8) -> Result<Mended, ReadFault>
    requires least { 1 ≤ side }
    requires most { side ≤ 177 }
    requires room { side * side ≤ length modules.now }
    ensures mended { MatchResult result
        (λ m. IsMendedReading (square_of_unknown side modules.now) (square_of_bytes side modules.now) m.version m.level
        m.mask m.parsed m.changed.items)
        (IsUnmended (square_of_unknown side modules.now) (square_of_bytes side modules.now)) }
    ensures format { IfOk result (λ m. m.wrong_format_modules
        ≡ wrong_format_modules (square_of_unknown side modules.now) (square_of_bytes side modules.now) m.level m.mask) }
    ensures least { IfOk result (λ m. m.wrong_format_least
        ≡ wrong_format_least (square_of_unknown side modules.now) (square_of_bytes side modules.now) m.level m.mask) }
    ensures modules { IfOk result (λ m. HasWrongModules (square_of_unknown side modules.now)
        (square_of_bytes side modules.now) m.version m.level m.mask m.changed.items m.wrong_modules) }
{
    let (matrix, unknown) = matrices_of_bytes(alloc, modules, side)?;
    mend_symbol_with_unknown(alloc, &matrix, &unknown)
}

// The damage of the blocks: the greatest number of misread codewords of a block, the most error correction codewords
// that a block used up, and the index of the block with the most wrong codewords for a scanner.
#[derive(Drop)]
struct BlockDamage {
    misread: usize,
    spent: usize,
    worst: usize,
}

fn damage_of(changed: &[Changes]) -> BlockDamage
    requires some { 1 ≤ length changed.now }
    requires few { All (λ c. (c.misread ≤ 15) × (c.erased + 2 * c.misread ≤ 30) × (c.erased_wrong ≤ c.erased)) changed.now }
    ensures misread { IsGreatest (λ c. c.misread) changed.now (length changed.now) result.misread }
    ensures spent { IsGreatest spent_in changed.now (length changed.now) result.spent }
    ensures worst { IsWorstBlock changed.now (length changed.now) result.worst }
{
    let first = &changed[0];
    let mut misread = first.misread;
    let mut spent = first.erased + 2 * first.misread;
    let mut worst = 0;
    let mut wrong = first.erased + first.misread;
    for i in 1..changed.len() {
        let block = &changed[i];
        misread = misread.max(block.misread);
        spent = spent.max(block.erased + 2 * block.misread);
        if block.erased + block.misread > wrong {
            wrong = block.erased + block.misread;
            worst = i;
        }
    }
    BlockDamage {
        misread,
        spent,
        worst,
    }
}

fn mended_of(len: usize, mended: &Mended) -> QrprovedMended
    requires some { 1 ≤ length mended.now.changed.items }
    requires few { All (λ c. (c.misread ≤ 15) × (c.erased + 2 * c.misread ≤ 30) × (c.erased_wrong ≤ c.erased))
        mended.now.changed.items }
    ensures len { result.len ≡ len }
    ensures wrong_modules { result.wrong_modules ≡ mended.now.wrong_modules }
    ensures version { result.version ≡ mended.now.version }
    ensures header { TellsHeader mended.now.parsed.header result.has_header result.position result.last
        result.parity }
    ensures count { result.eci_count ≡ length mended.now.parsed.ecis }
    ensures position { TellsFnc1 (fnc1_of mended.now.parsed.items) result.fnc1 result.application }
    ensures number { result.level < 4 }
    ensures level { level_of result.level ≡ mended.now.level }
    ensures mask { result.mask ≡ mended.now.mask }
    ensures kanji { TellsKanji mended.now.parsed.items result.has_kanji }
    ensures wrong_format_modules { result.wrong_format_modules ≡ mended.now.wrong_format_modules }
    ensures wrong_format_least { result.wrong_format_least ≡ mended.now.wrong_format_least }
    ensures most { IsGreatest (λ c. c.misread) mended.now.changed.items (length mended.now.changed.items)
        result.changed_most }
    ensures spent { IsGreatest spent_in mended.now.changed.items (length mended.now.changed.items) result.spent_most }
    ensures worst { TellsWorstBlock result mended.now.changed.items }
    ensures allowed { result.changed_allowed ≡ correctable_of mended.now.version mended.now.level }
{
    let content = content_of(len, mended.version, &mended.parsed);
    let damage = damage_of(&mended.changed);
    let worst = &mended.changed[damage.worst];
    QrprovedMended {
        len: content.len,
        eci_count: content.eci_count,
        wrong_modules: mended.wrong_modules,
        version: content.version,
        has_header: content.has_header,
        position: content.position,
        last: content.last,
        parity: content.parity,
        fnc1: content.fnc1,
        application: content.application,
        has_kanji: content.has_kanji,
        level: number_of_level(mended.level),
        mask: mended.mask,
        wrong_format_modules: mended.wrong_format_modules,
        wrong_format_least: mended.wrong_format_least,
        changed_most: damage.misread as u8,
        changed_allowed: mended.version.correctable(mended.level),
        spent_most: damage.spent as u8,
        worst_misread: worst.misread as u8,
        worst_unknown: worst.erased as u8,
        worst_unknown_wrong: worst.erased_wrong as u8,
    }
}

/// Reads the damaged symbol that `modules` begins with, and corrects its errors (ISO/IEC 18004:2015, 7.5.1, 7.9.1 and
/// 12). The symbol has `side` rows, and its modules stand row by row, as `qrproved_encode` writes them. A module is 0
/// if it is light, 1 if it is dark, and 2 if it is not known. Two codewords with modules that are not known take as
/// much error correction as one misread codeword. The bytes that the symbol contains are written to `bytes`, and its
/// ECI headers to `ecis`. If `ecis` is too short for all headers, only the first ones are written.
///
/// On status 0 the square is a symbol with damage that can be mended. `bytes` and `ecis` begin with the bytes and the
/// ECI headers of this symbol, and `mended` describes the symbol and its damage.
///
/// # Errors
///
/// The first of these that applies: `SIDE` (no version has this side), `ROOM` (`modules` is too short), `SETTINGS` (a
/// module is more than 2), `FORMAT` (the format information is damaged too much), `CHECK` (a block is damaged too
/// much), `SEGMENTS` (the data codewords cannot be parsed) and `ROOM` (`bytes` is too short). `MEMORY` if memory is
/// refused. `SIDE`, the first `ROOM` and `SETTINGS` are found before memory is requested.
#[unsafe(no_mangle)]
pub extern "C" fn qrproved_mend(
    alloc: Global,
    modules: &[u8],
    side: u32,
    bytes: &mut [u8],
    ecis: &mut [QrprovedEci],
    mended: &mut QrprovedMended,
) -> u8
    ensures done { result ≡ DONE → IsGivenMended modules.now side bytes.old bytes.new ecis.old ecis.new mended.new }
    ensures unchanged { result ≢ DONE
        → (bytes.new ≡ bytes.old) × (ecis.new ≡ ecis.old) × (mended.new ≡ mended.old) }
    ensures side { (result ≡ SIDE) ↔ (IsSide side → ⊥) }
    ensures room { (result ≡ ROOM) ↔ (IsSide side × ((length modules.now < side * side)
        ⊎ ((result ≢ MEMORY) × HasMoreMendedBytes modules.now side bytes.old))) }
    ensures settings { (result ≡ SETTINGS) ↔ (IsSide side × HasOtherByte modules.now side) }
    ensures format { (result ≡ FORMAT)
        ↔ ((result ≢ MEMORY) × IsUnmendedAt modules.now side ReadFault.Format) }
    ensures check { (result ≡ CHECK)
        ↔ ((result ≢ MEMORY) × IsUnmendedAt modules.now side ReadFault.Check) }
    ensures segments { (result ≡ SEGMENTS) ↔ ((result ≢ MEMORY)
        × ((why : ParseFault) × IsUnmendedAt modules.now side (ReadFault.Segments why))) }
    ensures status { (result ≡ DONE) ⊎ (result ≡ MEMORY) ⊎ (result ≡ ROOM) ⊎ (result ≡ SIDE)
        ⊎ (result ≡ SETTINGS) ⊎ (result ≡ FORMAT) ⊎ (result ≡ CHECK) ⊎ (result ≡ SEGMENTS) }
{
    let Some(version) = version_of_side(side) else {
        return SIDE;
    };
    let side = version.side();
    let area = area(side);
    if modules.len() < area {
        return ROOM;
    }
    if !are_modules(&modules[..area]) {
        return SETTINGS;
    }
    // Laws, which are called for the prover.
    mended_readings_are_one();
    mended_readings_are_not_refused();
    mending_refusals_are_one();
    changes_are_bounded();
    match mend_modules(alloc, modules, side) {
        Err(fault) => read_status(fault),
        Ok(found) => {
            let len = found.parsed.bytes.len();
            if bytes.len() < len {
                return ROOM;
            }
            bytes[..len].copy_from_slice(&found.parsed.bytes);
            write_ecis(&found.parsed.ecis, ecis);
            *mended = mended_of(len, &found);
            DONE
        }
    }
}
