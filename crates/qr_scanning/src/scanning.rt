//! The symbols of a picture.

ghost use Rattle.std.specs.Prelude.{◌≡◌, ◌≤◌, true, false, length, IfOk};
ghost use Rattle.std.specs.List.{All};
ghost use Rattle.qr_scanning.specs.Scanning.{AreReadFirst, FindsSymbol, IsScanned};

use crate::clean::scan_clean;
use crate::search::{Memory, next_square};
use qr_finding::Finder;
use qr_sampling::Picture;
use std::alloc::{AllocError, Global};

/// A square that was found in a picture.
#[derive(Drop)]
pub struct Scanned {
    /// The number of modules on a side.
    pub side: u8,
    /// The column and the row of each corner in sixteenths of a pixel, from the upper left corner of the picture. The first
    /// is the corner of the first module, and the others follow clockwise around the square in the picture.
    pub corners: [(u32, u32); 4],
    /// Whether it is light on dark.
    pub is_inverse: bool,
    /// Whether it is mirrored: then the first row of modules goes from the first corner to the last.
    pub is_mirrored: bool,
    /// Whether it is a symbol that can be mended.
    pub is_read: bool,
    /// Whether it has all three finder patterns and both timing patterns, but for one module in eight.
    pub looks_like_symbol: bool,
    /// Its modules, row by row: 1 for dark, 0 for light, and 2 where this is not known.
    pub modules: Vec<u8>,
}

// More squares than a search offers.
const OFFERS_MAX: usize = 100_000;

// The least and the greatest column and row of the corners.
fn bounds(corners: &[(u32, u32); 4]) -> (u32, u32, u32, u32) {
    let (mut left, mut top) = corners[0];
    let (mut right, mut bottom) = corners[0];
    for k in 1..4usize {
        let (x, y) = corners[k];
        left = left.min(x);
        top = top.min(y);
        right = right.max(x);
        bottom = bottom.max(y);
    }
    (left, top, right, bottom)
}

// Returns whether the middle of one of two squares is within the bounds of the other.
fn overlap(one: &Scanned, other: &Scanned) -> bool {
    let (a, b) = (bounds(&one.corners), bounds(&other.corners));
    has_middle(a, b) || has_middle(b, a)
}

fn has_middle(a: (u32, u32, u32, u32), b: (u32, u32, u32, u32)) -> bool {
    let x = b.0 / 2 + b.2 / 2;
    let y = b.1 / 2 + b.3 / 2;
    a.0 <= x && x <= a.2 && a.1 <= y && y <= a.3
}

fn is_among(squares: &[Scanned], square: &Scanned) -> bool {
    for other in squares {
        if overlap(other, square) {
            return true;
        }
    }
    false
}

// Adds squares that were not read to those that were, up to `most` in all. A square that overlaps one that is there is
// left out.
fn joined(
    read: Vec<Scanned>,
    unread: Vec<Scanned>,
    most: usize,
    picture: &Picture,
) -> Result<Vec<Scanned>, AllocError>
    requires read { All (IsScanned picture.now) read.items }
    requires are_read { All (λ s. s.is_read ≡ true) read.items }
    requires unread { All (IsScanned picture.now) unread.items }
    requires are_unread { All (λ s. s.is_read ≡ false) unread.items }
    requires most { length read.items ≤ most }
    ensures squares { IfOk result (λ all. All (IsScanned picture.now) all.items) }
    ensures count { IfOk result (λ all. length all.items ≤ most) }
    ensures order { IfOk result (λ all. AreReadFirst all.items) }
{
    let mut all = read;
    for square in unread {
        if all.len() < most && !is_among(&all, &square) {
            all.push(square)?;
        }
    }
    Ok(all)
}

// Searches the picture for up to `most` squares.
fn search(
    alloc: Global,
    picture: &Picture,
    most: usize,
    with_unread: bool,
) -> Result<Vec<Scanned>, AllocError>
    ensures squares { IfOk result (λ all. All (IsScanned picture.now) all.items) }
    ensures count { IfOk result (λ all. length all.items ≤ most) }
    ensures read { IfOk result (λ all. with_unread ≡ false → All (λ s. s.is_read ≡ true) all.items) }
    ensures order { IfOk result (λ all. AreReadFirst all.items) }
{
    let mut memory = Memory::new(alloc, picture)?;
    let mut finder = Finder::new(picture);
    let mut read = Vec::new(alloc);
    let mut unread = Vec::new(alloc);
    let mut was_read = false;
    'offers: for _ in 0..OFFERS_MAX {
        if read.len() >= most {
            break;
        }
        let Some(square) = next_square(alloc, picture, &mut finder, &mut memory, was_read)? else {
            break;
        };
        was_read = square.is_read;
        if was_read {
            read.push(square)?;
        } else if with_unread
            && square.looks_like_symbol
            && unread.len() < most
            && !is_among(&unread, &square)
        {
            unread.push(square)?;
        }
    }
    if !with_unread {
        return Ok(read);
    }
    joined(read, unread, most, picture)
}

/// Returns the symbols of a picture, at most `most` of them. With `with_unread`, squares that look like symbols and that
/// cannot be read are among them too, after those that are read.
///
/// If the picture is a clean picture of a symbol that can be read, or of the mirror image of one, exactly this symbol is
/// returned, with exactly its modules. The modules of any other square are what sampling gives for the picture. The squares
/// that are read come first.
///
/// # Errors
///
/// `AllocError` if memory is refused.
pub fn scan(
    alloc: Global,
    picture: &Picture,
    most: usize,
    with_unread: bool,
) -> Result<Vec<Scanned>, AllocError>
    ensures squares { IfOk result (λ all. All (IsScanned picture.now) all.items) }
    ensures count { IfOk result (λ all. length all.items ≤ most) }
    ensures read { IfOk result (λ all. with_unread ≡ false → All (λ s. s.is_read ≡ true) all.items) }
    ensures order { IfOk result (λ all. AreReadFirst all.items) }
    ensures symbol { IfOk result (λ all. FindsSymbol picture.now most all.items) }
{
    if most == 0 {
        return Ok(Vec::new(alloc));
    }
    match scan_clean(alloc, picture)? {
        Some(symbol) => {
            let mut all = Vec::new(alloc);
            all.push(symbol)?;
            Ok(all)
        }
        None => search(alloc, picture, most, with_unread),
    }
}
