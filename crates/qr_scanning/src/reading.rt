//! Whether a square is a symbol.

ghost use Rattle.std.specs.Prelude.{◌≡◌, ◌↔◌, ◌+◌, ◌-◌, ◌*◌, ◌≤◌, length, true, IfOk};
ghost use Rattle.std.specs.List.{All};
ghost use Rattle.qr_matrix.specs.Bytes.{square_of_bytes, square_of_unknown};
ghost use Rattle.qr_scanning.specs.Reading.{IsReadableBy, is_checked, is_wrong_timing, share_of, wrong_timing};

use qr_matrix::matrices_of_bytes;
use qr_mending::{Changes, mend_symbol_with_unknown};
use qr_symbol::ReadFault;
use std::alloc::{AllocError, Global};

/// Of so many modules of a symbol one may be wrong or not known.
pub(crate) const SHARE: u32 = 5;

/// The same, if the timing patterns do not show the side of the square.
const SHARE_WITHOUT_TIMING: u32 = 10;

// Returns 1 if a module of a timing pattern is wrong or not known, and otherwise 0.
fn is_wrong_timing(byte: u8, k: usize) -> u32
    ensures value { result ≡ is_wrong_timing byte k }
    ensures bound { result ≤ 1 }
{
    u32::from(usize::from(byte) != 1 - k % 2)
}

// Returns how many modules of both timing patterns are wrong or not known.
#[tactic(auto, using(crate::proofs::Named::timing_facts))]
fn wrong_timing(modules: &[u8], side: u8) -> u32
    requires least { 21 ≤ side }
    requires most { side ≤ 177 }
    requires room { side * side ≤ length modules.now }
    ensures value { result ≡ wrong_timing side modules.now }
    ensures bound { result ≤ 2 * (side - 16) }
{
    let n = usize::from(side);
    let mut wrong = 0u32;
    for i in 0..n - 16 {
        let k = 8 + i;
        let across = is_wrong_timing(modules[6 * n + k], k);
        let down = is_wrong_timing(modules[k * n + 6], k);
        wrong += across + down;
    }
    wrong
}

// Returns of how many modules one may be wrong or not known in a square that is sampled.
pub(crate) fn share_of(modules: &[u8], side: u8) -> u32
    requires least { 21 ≤ side }
    requires most { side ≤ 177 }
    requires room { side * side ≤ length modules.now }
    ensures value { result ≡ share_of side modules.now }
    ensures least { 5 ≤ result }
    ensures most { result ≤ 10 }
{
    if wrong_timing(modules, side) * 4 <= u32::from(side) - 16 {
        SHARE
    } else {
        SHARE_WITHOUT_TIMING
    }
}

// How many of the codewords that correct a block are left to check it, if a codeword of it is erased.
const CHECKS: u8 = 3;

// Returns whether what was read of a block is checked.
fn is_checked(changes: &Changes, spare: u8) -> bool
    ensures { result ≡ is_checked spare changes.now }
{
    changes.erased == 0
        || spare >= CHECKS
            && changes.erased.saturating_add(changes.misread) <= usize::from(spare - CHECKS)
}

// Returns whether what was read of each block is checked.
fn are_checked(changed: &[Changes], spare: u8) -> bool
    ensures { (result ≡ true) ↔ All (λ c. is_checked spare c ≡ true) changed.now }
{
    for k in 0..changed.len() {
        if !is_checked(&changed[k], spare) {
            return false;
        }
    }
    true
}

// Returns whether the square can be mended, each of its blocks is checked, and at most one of its modules in `share` is wrong or not
// known.
#[inline(never)]
pub(crate) fn is_symbol(
    alloc: Global,
    modules: &[u8],
    side: u8,
    share: u32,
) -> Result<bool, AllocError>
    requires least { 1 ≤ side }
    requires most { side ≤ 177 }
    requires share { share ≤ 10 }
    requires room { side * side ≤ length modules.now }
    ensures { IfOk result (λ is. (is ≡ true)
        ↔ IsReadableBy share (square_of_unknown side modules.now) (square_of_bytes side modules.now)) }
{
    let (matrix, unknown) = matrices_of_bytes(alloc, modules, side)?;
    match mend_symbol_with_unknown(alloc, &matrix, &unknown) {
        Ok(mended) => {
            let area = u64::from(side) * u64::from(side);
            if u64::from(mended.wrong_modules) * u64::from(share) > area {
                return Ok(false);
            }
            let spare = mended.version.spare(mended.level);
            Ok(are_checked(&mended.changed, spare))
        }
        Err(fault) => match fault {
            ReadFault::Memory => Err(AllocError),
            _ => Ok(false),
        },
    }
}
