//! Whether a square looks like a symbol.

use crate::tables::byte_at;

// Returns the number of modules of a finder pattern, and of the light modules beside it, that are wrong.
fn wrong_in_finder(modules: &[u8], side: usize, column: usize, row: usize) -> usize {
    let mut wrong = 0usize;
    for y in 0..7usize {
        for x in 0..7usize {
            let ring = x.abs_diff(3).max(y.abs_diff(3));
            let at = row
                .saturating_add(y)
                .saturating_mul(side)
                .saturating_add(column)
                .saturating_add(x);
            if byte_at(modules, at) != u8::from(ring != 2) {
                wrong = wrong.saturating_add(1);
            }
        }
    }
    wrong
}

// Returns the number of modules of both timing patterns that are wrong.
fn wrong_in_timing(modules: &[u8], side: usize) -> usize {
    let mut wrong = 0usize;
    for k in 8..side.saturating_sub(8) {
        let wanted = u8::from(k % 2 == 0);
        let across = side.saturating_mul(6).saturating_add(k);
        let down = k.saturating_mul(side).saturating_add(6);
        wrong = wrong
            .saturating_add(usize::from(byte_at(modules, across) != wanted))
            .saturating_add(usize::from(byte_at(modules, down) != wanted));
    }
    wrong
}

/// Returns whether a square has all three finder patterns and both timing patterns, but for one module in eight of each.
pub(crate) fn looks_like_symbol(modules: &[u8], side: usize) -> bool {
    let far = side.saturating_sub(7);
    let is_finder = |column: usize, row: usize| wrong_in_finder(modules, side, column, row) <= 6;
    side >= 21
        && is_finder(0, 0)
        && is_finder(far, 0)
        && is_finder(0, far)
        && wrong_in_timing(modules, side).saturating_mul(4) <= side.saturating_sub(16)
}
