//! Guesses the frame of the square in a picture from two rows of pixels: the first one that has a pixel in the grey value
//! of dark modules, and the last one. At three of the four ends of these rows there is a finder pattern, which begins with
//! seven dark modules and a light one.

ghost use Rattle.std.specs.Prelude.{◌≡◌, ◌≢◌, ℕ, ◌+◌, ◌-◌, ◌*◌, ◌<◌, ◌≤◌, Bool, length, IfSome};
ghost use Rattle.qr_pictures.specs.Pixels.{IsDrawing, IsFrameIn, grey};
ghost use Rattle.qr_pictures.specs.Steps.{HasThreeEnds, IsSide, IsTurn};
ghost use Rattle.qr_pictures.specs.declared.frame.Frame.{Frame};
ghost use Rattle.qr_pictures.specs.declared.turn.Turn.{Turn};

use crate::lines::{end_of_others, first_other};
use crate::picture::Picture;

/// Where a square of modules is in a picture, and how it is drawn.
#[derive(Clone, Copy, Debug, Drop)]
pub struct Frame {
    /// The number of modules on a side of the square.
    pub side: u8,
    /// The number of pixels on a side of a module.
    pub scale: usize,
    /// The number of pixels to the left of the square.
    pub left: usize,
    /// The number of pixels above the square.
    pub top: usize,
    /// The grey value of dark modules.
    pub dark: u8,
    /// The grey value of light modules and of the margins.
    pub light: u8,
}

// Returns the first row that has a pixel of another grey value than `light`, or the height if there is none.
fn first_row(picture: &Picture, light: u8) -> usize
    ensures most { result ≤ picture.now.height }
    ensures before { (y x : ℕ) → y < result → x < picture.now.width → grey picture.now y x ≡ light }
    ensures at { result < picture.now.height → (x : ℕ) × (x < picture.now.width) × (grey picture.now result x ≢ light) }
{
    for y in 0..picture.height() {
        if first_other(picture.row(y), light) < picture.width() {
            return y;
        }
    }
    picture.height()
}

// Returns the row below the last one that has a pixel of another grey value than `light`, or 0 if there is none.
fn end_of_rows(picture: &Picture, light: u8) -> usize
    ensures most { result ≤ picture.now.height }
    ensures after { (y x : ℕ) → result ≤ y → y < picture.now.height → x < picture.now.width → grey picture.now y x ≡ light }
    ensures at { 0 < result → (x : ℕ) × (x < picture.now.width) × (grey picture.now (result - 1) x ≢ light) }
{
    let mut end = picture.height();
    'back: while end > 0 && first_other(picture.row(end - 1), light) == picture.width() {
        end -= 1;
    }
    end
}

// Returns the width of a finder pattern in pixels. The lists `first` and `last` are the first row of the square and its
// last one, from column `left` of the picture to column `right - 1`. At three of the four ends of these rows is a finder
// pattern. So if the pattern at the upper right and the one at the lower left are not equally wide, the one at the upper
// left is a finder pattern.
fn finder_width(first: &[u8], last: &[u8], left: usize, right: usize, dark: u8) -> usize
    requires order { left ≤ right }
    requires first_in { right ≤ length first.now }
    requires last_in { right ≤ length last.now }
    ensures { (w : ℕ) → left + w < right → HasThreeEnds first.now last.now left right w dark → result ≡ w }
{
    let upper_right = right - end_of_others(&first[..right], dark);
    let lower_left = first_other(&last[left..right], dark);
    if upper_right == lower_left {
        upper_right
    } else {
        first_other(&first[left..right], dark)
    }
}

// Returns the side and the scale of a square of `size` by `size` pixels in which a finder pattern has a width of `width`
// pixels.
fn side_and_scale(size: usize, width: usize) -> Option<(u8, usize)>
    ensures bounds { IfSome result (λ s. IsSide s.0 × (1 ≤ s.1) × (s.0 * s.1 ≡ size)) }
    ensures finds { (side scale : ℕ) → IsSide side → 1 ≤ scale → size ≡ side * scale → width ≡ 7 * scale → result ≡ Some (side, scale) }
{
    let scale = width / 7;
    if scale == 0 || width % 7 != 0 || size % scale != 0 {
        return None;
    }
    let side = size / scale;
    if side < 21 || side > 177 || side % 4 != 1 {
        return None;
    }
    Some((side as u8, scale))
}

/// Returns the only frame that a square in the picture can have if its modules have these two grey values.
pub(crate) fn frame_of(picture: &Picture, dark: u8, light: u8) -> Option<Frame>
    requires { dark ≢ light }
    ensures bounds { IfSome result (λ f. IsFrameIn picture.now f) }
    ensures greys { IfSome result (λ f. (f.dark ≡ dark) × (f.light ≡ light)) }
    ensures finds { (f : Frame) (colours : ℕ → ℕ → Bool) (t : Turn) → f.dark ≡ dark → f.light ≡ light
        → IsDrawing picture.now f colours → IsTurn f.side colours t → result ≡ Some f }
{
    let top = first_row(picture, light);
    let bottom = end_of_rows(picture, light);
    if top >= bottom {
        return None;
    }
    let first = picture.row(top);
    let last = picture.row(bottom - 1);
    let first_start = first_other(first, light);
    let last_start = first_other(last, light);
    let first_end = end_of_others(first, light);
    let last_end = end_of_others(last, light);
    let left = first_start.min(last_start);
    let right = first_end.max(last_end);
    if left >= right || right - left != bottom - top {
        return None;
    }
    let width = finder_width(first, last, left, right, dark);
    let (side, scale) = side_and_scale(bottom - top, width)?;
    Some(Frame {
        side,
        scale,
        left,
        top,
        dark,
        light,
    })
}
