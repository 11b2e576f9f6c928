//! The next square that may be a symbol.

ghost use Rattle.std.specs.Prelude.{◌≡◌, ◌*◌, ◌≤◌, length, IfOk, IfSome};
ghost use Rattle.qr_finding.specs.Offers.{IsOffer};
ghost use Rattle.qr_scanning.specs.Scanning.{IsScanned};

use crate::reading::{is_symbol, share_of};
use crate::scanning::Scanned;
use qr_finding::{Finder, Found, Pattern, Quad, Triple, Work};
use qr_sampling::Picture;
use std::alloc::{AllocError, Global};

// Three numbers for each module of the greatest symbol.
const TABLE_LEN: usize = 93_987;

// The modules of the greatest symbol.
const MODULES_MAX: usize = 31_329;

// The work memory of a search.
#[derive(Drop)]
pub(crate) struct Memory {
    dark: Vec<u8>,
    other: Vec<u8>,
    levels: Vec<u8>,
    thresholds: Vec<u8>,
    cells: Vec<u16>,
    patterns: Vec<Pattern>,
    triples: Vec<Triple>,
    tried: Vec<Quad>,
    bytes: Vec<u8>,
    sums: Vec<u16>,
    modules: Vec<u8>,
}

impl Memory {
    // It is never inlined, so that its variables are not on the stack during the search.
    #[inline(never)]
    pub(crate) fn new(alloc: Global, picture: &Picture) -> Result<Memory, AllocError> {
        let (width, height) = (usize::from(picture.width), usize::from(picture.height));
        let size = width * height;
        let blocks = width.div_ceil(8) * height.div_ceil(8);
        let cells = (width / 4 + 1) * (height / 4 + 1);
        Ok(Memory {
            dark: vec![in alloc; 0u8; size]?,
            other: vec![in alloc; 0u8; size]?,
            levels: vec![in alloc; 0u8; blocks]?,
            thresholds: vec![in alloc; 0u8; blocks]?,
            cells: vec![in alloc; 0u16; cells]?,
            patterns: vec![in alloc; Pattern::NONE; 4096]?,
            triples: vec![in alloc; Triple::NONE; 400]?,
            tried: vec![in alloc; Quad::NONE; 24]?,
            bytes: vec![in alloc; 0u8; TABLE_LEN]?,
            sums: vec![in alloc; 0u16; TABLE_LEN]?,
            modules: vec![in alloc; 0u8; MODULES_MAX]?,
        })
    }
}

// Returns an offered square with its modules in memory of its own. It is never inlined, so that it takes little of the stack
// while the square is mended.
#[inline(never)]
fn scanned(
    alloc: Global,
    picture: &Picture,
    found: &Found,
    modules: &[u8],
    side: u8,
) -> Result<Scanned, AllocError>
    requires offer { IsOffer picture.now modules.now found.now }
    requires side { side ≡ found.now.how.side }
    requires least { 21 ≤ side }
    requires most { side ≤ 177 }
    ensures { IfOk result (IsScanned picture.now) }
{
    let area = usize::from(side) * usize::from(side);
    let own = Vec::from_slice(alloc, &modules[..area])?;
    let share = share_of(&own, side);
    Ok(Scanned {
        side,
        corners: found.corners,
        is_inverse: found.how.is_inverse,
        is_mirrored: found.how.is_mirrored,
        is_read: is_symbol(alloc, &own, side, share)?,
        looks_like_symbol: found.looks_like_symbol,
        modules: own,
    })
}

// Writes the modules of the next square to `memory.modules`. It is never inlined, so that nothing of the search is on the stack
// while the square is mended.
#[inline(never)]
fn offered(
    picture: &Picture,
    finder: &mut Finder,
    memory: &mut Memory,
    was_read: bool,
) -> Option<Found>
    ensures { IfSome result (IsOffer picture.now memory.new.modules.items) }
{
    let work = Work {
        dark: &mut memory.dark,
        other: &mut memory.other,
        levels: &mut memory.levels,
        thresholds: &mut memory.thresholds,
        cells: &mut memory.cells,
        patterns: &mut memory.patterns,
        triples: &mut memory.triples,
        tried: &mut memory.tried,
        bytes: &mut memory.bytes,
        sums: &mut memory.sums,
    };
    finder.next(picture, work, &mut memory.modules, was_read)
}

// Returns the next square that may be a symbol, or `None` after the last one. `was_read` says whether the one before it
// was a symbol.
pub(crate) fn next_square(
    alloc: Global,
    picture: &Picture,
    finder: &mut Finder,
    memory: &mut Memory,
    was_read: bool,
) -> Result<Option<Scanned>, AllocError>
    ensures { IfOk result (λ found. IfSome found (IsScanned picture.now)) }
{
    let Some(found) = offered(picture, finder, memory, was_read) else {
        return Ok(None);
    };
    let side = found.how.side;
    // No square has another side.
    if side < 21 || side > 177 {
        return Ok(None);
    }
    let square = scanned(alloc, picture, &found, &memory.modules, side as u8)?;
    Ok(Some(square))
}
