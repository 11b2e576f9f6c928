//! The call that finds symbols in a grey picture.

ghost use Rattle.std.specs.Prelude.{◌≡◌, ◌≢◌, ℕ, ◌+◌, ◌-◌, ◌*◌, ◌<◌, ◌≤◌, ◌++◌, ◌↔◌, ◌⊎◌, drop, length, map, min, slice_index_or, IfOk, true};
ghost use Rattle.std.specs.List.{All};
ghost use Rattle.qr_sampling.specs.Between.{CanBePicture};
ghost use Rattle.qrproved.specs.Finding.{AreFindSettings, HoldAllScanned, IsGivenFound, LacksFindRoom, corner_at, most_found, told, told_found, turns_of};

use crate::status::{DONE, MEMORY, ROOM, SETTINGS};
use qr_sampling::{Picture, PictureFault};
use qr_scanning::{Scanned, scan};
use std::alloc::Global;

/// A square that `qrproved_find` found in a picture. The corners are in sixteenths of a pixel, `x0` from the left edge of the
/// picture and `y0` from the upper edge. The first corner is that of the first module, and the others follow clockwise.
#[repr(C)]
#[derive(Clone, Copy)]
pub struct QrprovedFound {
    pub x0: u32,
    pub y0: u32,
    pub x1: u32,
    pub y1: u32,
    pub x2: u32,
    pub y2: u32,
    pub x3: u32,
    pub y3: u32,
    /// The number of rows and columns, 21 to 177.
    pub side: u32,
    /// By how many quarter turns the symbol is turned clockwise, about.
    pub quarter_turns: u8,
    /// 1 if the symbol is light on dark, and otherwise 0.
    pub is_inverse: u8,
    /// 1 if the symbol is mirrored, and otherwise 0. Then its first row goes from the first corner to the fourth.
    pub is_mirrored: u8,
    /// 1 if the symbol can be mended, and otherwise 0.
    pub is_read: u8,
}

// The most squares that are found.
const FOUND_MAX: usize = 64;

// The modules of the greatest symbol.
const SYMBOL_MAX: usize = 31_329;

fn corner_at(corners: &[(u32, u32); 4], k: usize) -> (u32, u32)
    requires { k < 4 }
    ensures { result ≡ corner_at corners.now k }
{
    corners[k]
}

fn turns_of(a: (u32, u32), b: (u32, u32)) -> u8
    ensures { result ≡ turns_of a b }
{
    let across = b.0.saturating_sub(a.0) + a.0.saturating_sub(b.0);
    let down = b.1.saturating_sub(a.1) + a.1.saturating_sub(b.1);
    if across < down {
        if a.1 < b.1 { 1 } else { 3 }
    } else if b.0 < a.0 {
        2
    } else {
        0
    }
}

fn told_found(square: &Scanned) -> QrprovedFound
    ensures { result ≡ told_found square.now }
{
    let (x0, y0) = corner_at(&square.corners, 0);
    let (x1, y1) = corner_at(&square.corners, 1);
    let (x2, y2) = corner_at(&square.corners, 2);
    let (x3, y3) = corner_at(&square.corners, 3);
    QrprovedFound {
        x0,
        y0,
        x1,
        y1,
        x2,
        y2,
        x3,
        y3,
        side: u32::from(square.side),
        quarter_turns: turns_of((x0, y0), (x1, y1)),
        is_inverse: u8::from(square.is_inverse),
        is_mirrored: u8::from(square.is_mirrored),
        is_read: u8::from(square.is_read),
    }
}

// Writes the structs of the squares to the start of the buffer.
fn write_structs(squares: &[Scanned], out: &mut [QrprovedFound])
    requires { length squares.now ≤ length out.old }
    ensures { out.new ≡ map told_found squares.now ++ drop (length squares.now) out.old }
{
    for i in 0..squares.len() {
        out[i] = told_found(&squares[i]);
    }
}

// Writes bytes to a buffer, from byte `start` on.
fn put(bytes: &[u8], start: usize, out: &mut [u8])
    requires { start + length bytes.now ≤ length out.old }
    ensures long { length out.new ≡ length out.old }
    ensures written { (i : ℕ) → i < length bytes.now → slice_index_or out.new (start + i) 0 ≡ slice_index_or bytes.now i 0 }
    ensures others { (i : ℕ) → (i < start) ⊎ (start + length bytes.now ≤ i) → slice_index_or out.new i 0 ≡ slice_index_or out.old i 0 }
{
    for i in 0..bytes.len() {
        out[start + i] = bytes[i];
    }
}

// Writes the modules of the squares, each in its place.
fn write_scanned(squares: &[Scanned], out: &mut [u8])
    requires room { length squares.now * 31329 ≤ length out.old }
    requires small { All (λ s. length s.modules.items ≤ 31329) squares.now }
    ensures { HoldAllScanned squares.now out.old out.new }
{
    let mut start = 0;
    for square in squares {
        put(&square.modules, start, out);
        start += SYMBOL_MAX;
    }
}

/// Finds the symbols of a picture in grey: turned, tilted, mirrored, light on dark, in shadow, blurred or small. The picture has
/// `width` by `height` pixels, each a byte of `pixels` from 0 for black to 255 for white. The first row is at the start of
/// `pixels`, and each other row begins `stride` bytes after the row above. With `unread` 1, squares that look like symbols and
/// cannot be mended are found too.
///
/// On status 0 `count` is the number of squares, at most 64 and at most as many as `found` has room for. `found` begins with
/// their corners and other numbers, those that can be mended first. The modules of square `k` begin at byte k * 31,329 of
/// `modules`, row by row as `qrproved_mend` takes them: 1 for dark, 0 for light, and 2 where this is not known. They are what
/// sampling gives for the picture and these corners, or, if the picture shows one symbol and nothing else, drawn without any
/// fault, the modules that are drawn. In a square that can be mended at most one module in five is wrong or not known. In a
/// square that was sampled it is at most one in ten, if more than one in eight of the modules of its timing patterns is. And if a
/// codeword of a block has a module that is not known, at least three of the codewords that correct the block are left, when one is
/// taken for each codeword that is wrong or has such a module.
///
/// If the picture shows one symbol that can be mended so and nothing else, drawn without any fault, exactly this symbol is
/// found, with exactly its modules.
///
/// # Errors
///
/// The first of these that applies: `SETTINGS` (`unread` is more than 1, `width` or `height` is 0 or more than 32,767, or
/// `stride` is less than `width`), and `ROOM` (`pixels` has fewer bytes than the rows take, or `modules` has not 31,329 bytes for
/// each of the squares that may be found). `MEMORY` if memory is refused. The others are found before memory is requested.
#[unsafe(no_mangle)]
pub extern "C" fn qrproved_find(
    alloc: Global,
    pixels: &[u8],
    width: u32,
    height: u32,
    stride: u32,
    unread: u32,
    modules: &mut [u8],
    found: &mut [QrprovedFound],
    count: &mut usize,
) -> u8
    ensures done { result ≡ DONE → IsGivenFound pixels.now width height stride unread modules.old modules.new found.old
        found.new count.new }
    ensures unchanged { result ≢ DONE
        → (modules.new ≡ modules.old) × (found.new ≡ found.old) × (count.new ≡ count.old) }
    ensures settings { (result ≡ SETTINGS) ↔ (AreFindSettings width height stride unread → ⊥) }
    ensures room { (result ≡ ROOM) ↔ LacksFindRoom pixels.now width height stride unread modules.old found.old }
    ensures status { (result ≡ DONE) ⊎ (result ≡ MEMORY) ⊎ (result ≡ SETTINGS) ⊎ (result ≡ ROOM) }
{
    if unread > 1 {
        return SETTINGS;
    }
    let picture = match Picture::new(pixels, width, height, stride as usize) {
        Ok(picture) => picture,
        Err(PictureFault::Settings) => return SETTINGS,
        Err(PictureFault::Room) => return ROOM,
    };
    let most = found.len().min(FOUND_MAX);
    if modules.len() < most * SYMBOL_MAX {
        return ROOM;
    }
    let Ok(squares) = scan(alloc, &picture, most, unread == 1) else {
        return MEMORY;
    };
    write_scanned(&squares, modules);
    write_structs(&squares, found);
    *count = squares.len();
    DONE
}
