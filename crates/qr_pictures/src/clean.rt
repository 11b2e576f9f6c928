//! Reads a clean picture. The two grey values are those of the first pixel and of the first one that differs from it. Each
//! of them can be that of dark modules, because the square can be at the edge of the picture.

ghost use Rattle.std.specs.Prelude.{◌≡◌, ◌≢◌, ℕ, ◌*◌, ◌+◌, ◌<◌, ◌≤◌, length, slice_index_or, MatchOption};
ghost use Rattle.qr_matrix.specs.Bytes.{square_of_bytes};
ghost use Rattle.qr_matrix.specs.Grid.{Grid};
ghost use Rattle.qr_pictures.specs.Clean.{IsCleanPicture, IsNotClean};
ghost use Rattle.qr_pictures.specs.Pixels.{IsFrameIn, grey};
ghost use Rattle.qr_pictures.specs.Steps.{HasGreys, back, sampled};
ghost use Rattle.qr_pictures.specs.Turns.{turned};
ghost use Rattle.qr_pictures.specs.declared.clean.CleanSquare.{CleanSquare};

use crate::drawn::is_drawing;
use crate::frame::{Frame, frame_of};
use crate::lines::first_other;
use crate::picture::Picture;
use crate::turn::{Turn, is_dark, turn_of};

/// Where the square of a symbol is in a clean picture, and how it is turned.
#[derive(Clone, Copy, Debug, Drop)]
pub struct CleanSquare {
    /// The frame of the square in the picture.
    pub frame: Frame,
    /// How the symbol is turned.
    pub turn: Turn,
}

// Returns the grey value of the first pixel, and that of the first one that differs from it.
fn two_greys(picture: &Picture) -> Option<(u8, u8)>
    ensures { MatchOption result ((y x : ℕ) → y < picture.now.height → x < picture.now.width → grey picture.now y x ≡ grey picture.now 0 0)
        (λ s. HasGreys picture.now s.0 s.1) }
{
    let (width, height) = (picture.width(), picture.height());
    let first = picture.row(0)[0];
    for y in 0..height {
        let line = picture.row(y);
        let x = first_other(line, first);
        if x < width {
            return Some((first, line[x]));
        }
    }
    None
}

// Reads a clean picture whose modules have these two grey values.
fn square_in(picture: &Picture, dark: u8, light: u8) -> Option<CleanSquare>
    requires { dark ≢ light }
    ensures { MatchOption result
        ((s : CleanSquare) (g : Grid) → IsCleanPicture picture.now s g → s.frame.dark ≡ dark → s.frame.light ≡ light → ⊥)
        (λ s. (g : Grid) × IsCleanPicture picture.now s g) }
{
    let frame = frame_of(picture, dark, light)?;
    let turn = turn_of(picture, &frame)?;
    if is_drawing(picture, &frame) {
        Some(CleanSquare { frame, turn })
    } else {
        None
    }
}

/// Returns where the square of a symbol is in a clean picture, and how it is turned. Returns `None` exactly if the picture
/// is no clean picture.
pub fn clean_square(picture: &Picture) -> Option<CleanSquare>
    ensures { MatchOption result (IsNotClean picture.now) (λ s. (g : Grid) × IsCleanPicture picture.now s g) }
{
    let (one, other) = two_greys(picture)?;
    match square_in(picture, other, one) {
        Some(square) => Some(square),
        None => square_in(picture, one, other),
    }
}

// Returns whether the module in row `row` and column `col` of the upright symbol is dark.
#[tactic(auto, unfolding(crate::specs::Turns::turned))]
fn is_dark_upright(picture: &Picture, square: &CleanSquare, row: usize, col: usize) -> bool
    requires frame { IsFrameIn picture.now square.now.frame }
    requires row_in { row < square.now.frame.side }
    requires col_in { col < square.now.frame.side }
    ensures { result
        ≡ turned (back square.now.turn) square.now.frame.side (sampled picture.now square.now.frame) row col }
{
    let frame = &square.frame;
    let last = usize::from(frame.side) - 1;
    match square.turn {
        Turn::Upright => is_dark(picture, frame, row, col),
        Turn::Quarter => is_dark(picture, frame, col, last - row),
        Turn::Half => is_dark(picture, frame, last - row, last - col),
        Turn::ThreeQuarters => is_dark(picture, frame, last - col, row),
    }
}

/// Writes the modules of the symbol to the beginning of `modules`, row by row, as they are if the symbol is upright: 1
/// for a dark module, and 0 for a light one. Bytes after them stay the same. `square` is what `clean_square` returned for
/// the picture.
pub fn write_modules(picture: &Picture, square: &CleanSquare, modules: &mut [u8])
    requires frame { IsFrameIn picture.now square.now.frame }
    requires room { square.now.frame.side * square.now.frame.side ≤ length modules.old }
    ensures square { (g : Grid) → IsCleanPicture picture.now square.now g
        → square_of_bytes square.now.frame.side modules.new ≡ g }
    ensures bits { (i : ℕ) → i < square.now.frame.side * square.now.frame.side → slice_index_or modules.new i 0 ≤ 1 }
    ensures others { (i : ℕ) → square.now.frame.side * square.now.frame.side ≤ i
        → slice_index_or modules.new i 0 ≡ slice_index_or modules.old i 0 }
{
    let side = usize::from(square.frame.side);
    for i in 0..side * side {
        modules[i] = u8::from(is_dark_upright(picture, square, i / side, i % side));
    }
}
