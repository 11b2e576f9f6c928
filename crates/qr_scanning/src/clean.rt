//! The symbol of a clean picture.

ghost use Rattle.std.specs.Prelude.{◌≡◌, ℕ, ◌+◌, ◌*◌, ◌≤◌, List, length, IfOk, IfSome, MatchOption, Bool, true, false};
ghost use Rattle.qr_matrix.specs.Grid.{Grid};
ghost use Rattle.qr_pictures.specs.Clean.{IsCleanPicture};
ghost use Rattle.qr_sampling.specs.Tables.{IsTable, entry};
ghost use Rattle.qr_scanning.specs.Reading.{IsReadable};
ghost use Rattle.qr_scanning.specs.Scanning.{ArePlaced, IsScanned, IsSymbolIn, ShowsSymbol, frame_corners, pixels_in};
ghost use Rattle.qr_pictures.specs.declared.clean.CleanSquare.{CleanSquare};

use crate::reading::{SHARE, is_symbol};
use crate::scanning::Scanned;
use qr_pictures::laws::clean_pictures_are_one;
use qr_pictures::{CleanSquare, Turn, clean_square, write_modules};
use qr_sampling::Picture;
use std::alloc::{AllocError, Global};

// Returns the modules with columns and rows exchanged.
fn exchanged(alloc: Global, modules: &[u8], side: u8) -> Result<Vec<u8>, AllocError>
    requires { side * side ≤ length modules.now }
    ensures table { IfOk result (λ v. IsTable side (λ column row. entry side modules.now row column) v.items) }
    ensures whole { IfOk result (λ v. length v.items ≡ side * side) }
{
    let n = usize::from(side);
    let mut all = Vec::with_capacity(alloc, n * n)?;
    for k in 0..n * n {
        all.push(modules[k % n * n + k / n])?;
    }
    Ok(all)
}

// Returns the corners of a square in sixteenths of a pixel, clockwise from that of the first module of the symbol.
fn corners_of(square: &CleanSquare) -> [(u32, u32); 4]
    requires across { square.now.frame.left + square.now.frame.side * square.now.frame.scale ≤ 65535 }
    requires down { square.now.frame.top + square.now.frame.side * square.now.frame.scale ≤ 65535 }
    ensures { result ≡ frame_corners square.now }
{
    let frame = square.frame;
    let size = usize::from(frame.side) * frame.scale;
    let (left, top) = ((frame.left * 16) as u32, (frame.top * 16) as u32);
    let (right, bottom) = (
        ((frame.left + size) * 16) as u32,
        ((frame.top + size) * 16) as u32,
    );
    let (a, b, c, d) = ((left, top), (right, top), (right, bottom), (left, bottom));
    match square.turn {
        Turn::Upright => [a, b, c, d],
        Turn::Quarter => [b, c, d, a],
        Turn::Half => [c, d, a, b],
        Turn::ThreeQuarters => [d, a, b, c],
    }
}

// Returns the modules of the symbol that is drawn, and whether it is mirrored. Returns `None` if the square is no symbol.
fn placed(alloc: Global, drawn: Vec<u8>, side: u8) -> Result<Option<(bool, Vec<u8>)>, AllocError>
    requires least { 1 ≤ side }
    requires most { side ≤ 177 }
    requires whole { length drawn.items ≡ side * side }
    ensures placed { IfOk result (λ found. IfSome found (λ s. ArePlaced s.0 side drawn.items s.1.items)) }
    ensures read { IfOk result (λ found. IfSome found (λ s. IsReadable side s.1.items)) }
    ensures whole { IfOk result (λ found. IfSome found (λ s. length s.1.items ≡ side * side)) }
    ensures straight { IfOk result (λ found. IsReadable side drawn.items → MatchOption found ⊥ (λ s. s.0 ≡ false)) }
    ensures exchanged { IfOk result (λ found. (IsReadable side drawn.items → ⊥)
        → ((other : List ℕ) → IsTable side (λ column row. entry side drawn.items row column) other → IsReadable side other)
        → MatchOption found ⊥ (λ s. s.0 ≡ true)) }
{
    if is_symbol(alloc, &drawn, side, SHARE)? {
        return Ok(Some((false, drawn)));
    }
    let other = exchanged(alloc, &drawn, side)?;
    if is_symbol(alloc, &other, side, SHARE)? {
        return Ok(Some((true, other)));
    }
    Ok(None)
}

// Returns the symbol that is drawn in a clean picture.
fn scan_square(
    alloc: Global,
    picture: &Picture,
    pixels: &qr_pictures::Picture,
    square: &CleanSquare,
) -> Result<Option<Scanned>, AllocError>
    requires same { pixels.now ≡ pixels_in picture.now }
    requires clean { (g : Grid) × IsCleanPicture pixels.now square.now g }
    ensures square { IfOk result (λ found. IfSome found (λ s. IsScanned picture.now s × (s.is_read ≡ true))) }
    ensures symbol { IfOk result (λ found. (mirrored : Bool) (g : Grid) → ShowsSymbol picture.now square.now mirrored g
        → MatchOption found ⊥ (IsSymbolIn square.now mirrored g)) }
{
    // Only for the prover, which then knows that the corners fit.
    let (_width, _height) = (picture.width, picture.height);
    let frame = square.frame;
    let side = frame.side;
    let corners = corners_of(square);
    let area = usize::from(side) * usize::from(side);
    let mut drawn = vec![in alloc; 0u8; area]?;
    write_modules(pixels, square, &mut drawn);
    let Some((is_mirrored, modules)) = placed(alloc, drawn, side)? else {
        return Ok(None);
    };
    Ok(Some(Scanned {
        side,
        corners,
        is_inverse: frame.light < frame.dark,
        is_mirrored,
        is_read: true,
        looks_like_symbol: true,
        modules,
    }))
}

// Returns the symbol of a clean picture. Returns `None` if the picture is no clean picture, or the square no symbol.
pub(crate) fn scan_clean(alloc: Global, picture: &Picture) -> Result<Option<Scanned>, AllocError>
    ensures square { IfOk result (λ found. IfSome found (λ s. IsScanned picture.now s × (s.is_read ≡ true))) }
    ensures symbol { IfOk result (λ found. (s : CleanSquare) (mirrored : Bool) (g : Grid)
        → ShowsSymbol picture.now s mirrored g → MatchOption found ⊥ (IsSymbolIn s mirrored g)) }
{
    // A law, which is called for the prover.
    clean_pictures_are_one();
    let (width, height) = (usize::from(picture.width), usize::from(picture.height));
    let Some(pixels) = qr_pictures::Picture::new(picture.pixels, width, height, picture.stride)
    else {
        return Ok(None);
    };
    let Some(square) = clean_square(&pixels) else {
        return Ok(None);
    };
    scan_square(alloc, picture, &pixels, &square)
}
