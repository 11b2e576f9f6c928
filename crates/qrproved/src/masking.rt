//! The call that draws a symbol once more under another mask (ISO/IEC 18004:2015, 7.8).

ghost use Rattle.std.specs.Prelude.{◌≡◌, ◌≢◌, ◌*◌, ◌<◌, ◌≤◌, ◌↔◌, ◌⊎◌, length};
ghost use Rattle.qr_symbol.specs.declared.fault.ReadFault.{ReadFault};
ghost use Rattle.qrproved.specs.Masking.{IsMasked};
ghost use Rattle.qrproved.specs.Reading.{IsSide, IsUnreadAt};

use crate::modules::{area, write_square};
use crate::reading::version_of_side;
use crate::settings::between;
use crate::status::{DONE, FORMAT, MEMORY, ROOM, SETTINGS, SIDE, read_status};
use qr_matrix::matrix_of_bytes;
use qr_symbol::laws::refusals_are_one;
use qr_symbol::with_mask;
use std::alloc::Global;

/// Draws the symbol that `modules` begins with once more, under another mask, in its place (ISO/IEC 18004:2015, 7.8). The
/// symbol has `side` rows, and its modules stand row by row, as `qrproved_encode` writes them. A module is light if it is 0,
/// and otherwise dark. `mask` is 0 to 7. `qrproved_encode` takes the mask with the least penalty, which the standard asks
/// for. A symbol with another mask has the same content, but scanners may read it less well.
///
/// On status 0 the buffer begins with exactly the modules of the symbol with this mask. It has the version, the level and the
/// codewords of the symbol that the buffer began with, which are read without correcting errors.
///
/// # Errors
///
/// The first of these that applies: `SETTINGS` (`mask` is more than 7), `SIDE` (no version has this side), `ROOM` (`modules`
/// is too short) and `FORMAT` (the format information is wrong). `MEMORY` if memory is refused. All but `FORMAT` are found
/// before memory is requested.
#[unsafe(no_mangle)]
pub extern "C" fn qrproved_set_mask(alloc: Global, modules: &mut [u8], side: u32, mask: u32) -> u8
    ensures done { result ≡ DONE → (mask ≤ 7) × IsMasked side mask modules.old modules.new }
    ensures unchanged { result ≢ DONE → modules.new ≡ modules.old }
    ensures settings { (result ≡ SETTINGS) ↔ (7 < mask) }
    ensures side { (result ≡ SIDE) ↔ ((mask ≤ 7) × (IsSide side → ⊥)) }
    ensures room { (result ≡ ROOM) ↔ ((mask ≤ 7) × IsSide side × (length modules.old < side * side)) }
    ensures format { (result ≡ FORMAT)
        ↔ ((result ≢ MEMORY) × (mask ≤ 7) × IsUnreadAt modules.old side ReadFault.Format) }
    ensures status { (result ≡ DONE) ⊎ (result ≡ SETTINGS) ⊎ (result ≡ SIDE) ⊎ (result ≡ ROOM) ⊎ (result ≡ FORMAT)
        ⊎ (result ≡ MEMORY) }
{
    let Some(mask) = between(mask, 0, 7) else {
        return SETTINGS;
    };
    let Some(version) = version_of_side(side) else {
        return SIDE;
    };
    let side = version.side();
    if modules.len() < area(side) {
        return ROOM;
    }
    let Ok(matrix) = matrix_of_bytes(alloc, modules, side) else {
        return MEMORY;
    };
    // A law, which is called for the prover.
    refusals_are_one();
    match with_mask(alloc, &matrix, mask) {
        Err(fault) => read_status(fault),
        Ok(drawn) => {
            write_square(&drawn, 0, modules);
            DONE
        }
    }
}
