//! Finds out how a square is turned, by the finder patterns at its corners.

ghost use Rattle.std.specs.Prelude.{◌≡◌, ℕ, ◌-◌, ◌<◌, ◌≤◌, MatchOption};
ghost use Rattle.std.specs.Bool.{Decides};
ghost use Rattle.qr_pictures.specs.Finders.{HasFinder};
ghost use Rattle.qr_pictures.specs.Pixels.{IsFrameIn};
ghost use Rattle.qr_pictures.specs.Steps.{IsFinderModule, IsFinderRow, IsTurn, sampled};
ghost use Rattle.qr_pictures.specs.declared.turn.Turn.{Turn};

use crate::frame::Frame;
use crate::picture::Picture;

/// By how many quarter turns a symbol in a picture is turned clockwise.
#[derive(Clone, Copy, Debug, PartialEq, Eq, Drop)]
pub enum Turn {
    /// The corner without a finder pattern is at the bottom right.
    Upright,
    /// The corner without a finder pattern is at the bottom left.
    Quarter,
    /// The corner without a finder pattern is at the top left.
    Half,
    /// The corner without a finder pattern is at the top right.
    ThreeQuarters,
}

// Returns whether the module in row `row` and column `col` of the square in the picture is dark.
#[inline(always)]
pub(crate) fn is_dark(picture: &Picture, frame: &Frame, row: usize, col: usize) -> bool
    requires frame { IsFrameIn picture.now frame.now }
    requires row_in { row < frame.now.side }
    requires col_in { col < frame.now.side }
    ensures { result ≡ sampled picture.now frame.now row col }
{
    // Only for the prover, which then knows that the sums fit.
    let (_width, _height) = (picture.width(), picture.height());
    picture.row(frame.top + row * frame.scale)[frame.left + col * frame.scale] == frame.dark
}

// Returns whether the module in row `row` and column `col` is as in a finder pattern whose middle is in row `a` and column
// `b`, or is outside of it.
fn is_finder_module(
    picture: &Picture,
    frame: &Frame,
    middle: (usize, usize),
    row: usize,
    col: usize,
) -> bool
    requires frame { IsFrameIn picture.now frame.now }
    requires row_in { row < frame.now.side }
    requires col_in { col < frame.now.side }
    ensures { Decides result (IsFinderModule (sampled picture.now frame.now) middle.0 middle.1 row col) }
{
    let ring = middle.0.abs_diff(row).max(middle.1.abs_diff(col));
    ring > 4 || is_dark(picture, frame, row, col) == (ring != 2 && ring != 4)
}

// Returns whether row `row` is as in a finder pattern whose middle is in row `middle.0` and column `middle.1`.
fn is_finder_row(picture: &Picture, frame: &Frame, middle: (usize, usize), row: usize) -> bool
    requires frame { IsFrameIn picture.now frame.now }
    requires middle_in { middle.1 < frame.now.side }
    requires row_in { row < frame.now.side }
    ensures { Decides result (IsFinderRow frame.now.side (sampled picture.now frame.now) middle.0 middle.1 row) }
{
    let start = middle.1.saturating_sub(4);
    let end = (middle.1 + 5).min(usize::from(frame.side));
    for col in start..end {
        if !is_finder_module(picture, frame, middle, row, col) {
            return false;
        }
    }
    true
}

// Returns whether there is a finder pattern whose middle is in row `a` and column `b`.
fn has_finder(picture: &Picture, frame: &Frame, a: usize, b: usize) -> bool
    requires frame { IsFrameIn picture.now frame.now }
    requires a_in { a < frame.now.side }
    requires b_in { b < frame.now.side }
    ensures { Decides result (HasFinder frame.now.side (sampled picture.now frame.now) a b) }
{
    let start = a.saturating_sub(4);
    let end = (a + 5).min(usize::from(frame.side));
    for row in start..end {
        if !is_finder_row(picture, frame, (a, b), row) {
            return false;
        }
    }
    true
}

/// Returns the turn of the square. If there are finder patterns at all four corners, it counts as upright. If there are
/// fewer than three, the result is `None`.
pub(crate) fn turn_of(picture: &Picture, frame: &Frame) -> Option<Turn>
    requires { IsFrameIn picture.now frame.now }
    ensures { MatchOption result ((t : Turn) → IsTurn frame.now.side (sampled picture.now frame.now) t → ⊥)
        (λ t. IsTurn frame.now.side (sampled picture.now frame.now) t) }
{
    let far = usize::from(frame.side) - 4;
    let top_left = has_finder(picture, frame, 3, 3);
    let top_right = has_finder(picture, frame, 3, far);
    let bottom_left = has_finder(picture, frame, far, 3);
    let bottom_right = has_finder(picture, frame, far, far);
    match (top_left, top_right, bottom_left, bottom_right) {
        (true, true, true, _) => Some(Turn::Upright),
        (true, true, false, true) => Some(Turn::Quarter),
        (false, true, true, true) => Some(Turn::Half),
        (true, false, true, true) => Some(Turn::ThreeQuarters),
        _ => None,
    }
}
