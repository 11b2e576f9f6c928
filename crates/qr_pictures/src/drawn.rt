//! Compares every pixel of a picture with the drawing of the modules that are in it.

ghost use Rattle.std.specs.Prelude.{◌≡◌, ℕ, ◌+◌, ◌*◌, ◌<◌, ◌≤◌, length, slice_index_or};
ghost use Rattle.std.specs.Bool.{Decides};
ghost use Rattle.qr_pictures.specs.Pixels.{IsDrawing, IsFrameIn};
ghost use Rattle.qr_pictures.specs.Steps.{AreModules, IsLineDrawn, IsModule, IsRowDrawn, sampled};

use crate::frame::Frame;
use crate::lines::are_all;
use crate::picture::Picture;

// Returns whether the pixels from index `at` on are a row of a module: `scale` pixels in one of the two grey values.
fn is_module(frame: &Frame, line: &[u8], at: usize) -> bool
    requires scaled { 1 ≤ frame.now.scale }
    requires room { at + frame.now.scale ≤ length line.now }
    ensures { Decides result (IsModule frame.now line.now at) }
{
    let grey = line[at];
    if grey != frame.dark && grey != frame.light {
        return false;
    }
    are_all(line, at, at + frame.scale, grey)
}

// Returns whether the pixels of the square in a row of pixels are rows of modules.
fn are_modules(frame: &Frame, line: &[u8]) -> bool
    requires scaled { 1 ≤ frame.now.scale }
    requires room { frame.now.left + frame.now.side * frame.now.scale ≤ length line.now }
    ensures { Decides result (AreModules frame.now line.now frame.now.side) }
{
    for col in 0..usize::from(frame.side) {
        if !is_module(frame, line, frame.left + col * frame.scale) {
            return false;
        }
    }
    true
}

// Returns whether a row of pixels is that of a row of modules between two margins.
fn is_line_drawn(frame: &Frame, line: &[u8]) -> bool
    requires scaled { 1 ≤ frame.now.scale }
    requires room { frame.now.left + frame.now.side * frame.now.scale ≤ length line.now }
    ensures { Decides result (IsLineDrawn frame.now line.now) }
{
    let right = frame.left + usize::from(frame.side) * frame.scale;
    if !are_all(line, 0, frame.left, frame.light)
        || !are_all(line, right, line.len(), frame.light)
    {
        return false;
    }
    are_modules(frame, line)
}

// Returns whether row `y` of the picture is as it is drawn, if the rows above are. Only the first row of pixels of a row
// of modules is looked at pixel by pixel. Each other one is compared with the row above it.
fn is_row_drawn(picture: &Picture, frame: &Frame, y: usize) -> bool
    requires frame { IsFrameIn picture.now frame.now }
    requires y_in { y < picture.now.height }
    requires above { (k : ℕ) → k < y → IsRowDrawn picture.now frame.now k }
    ensures { Decides result (IsRowDrawn picture.now frame.now y) }
{
    // Only for the prover, which then knows that the sums below fit.
    let _height = picture.height();
    let line = picture.row(y);
    if y < frame.top {
        return are_all(line, 0, line.len(), frame.light);
    }
    if y >= frame.top + usize::from(frame.side) * frame.scale {
        return are_all(line, 0, line.len(), frame.light);
    }
    if (y - frame.top) % frame.scale == 0 {
        return is_line_drawn(frame, line);
    }
    line == picture.row(y - 1)
}

/// Returns whether the picture is the drawing of the square that is in it in this frame.
pub(crate) fn is_drawing(picture: &Picture, frame: &Frame) -> bool
    requires { IsFrameIn picture.now frame.now }
    ensures { Decides result (IsDrawing picture.now frame.now (sampled picture.now frame.now)) }
{
    for y in 0..picture.height() {
        if !is_row_drawn(picture, frame, y) {
            return false;
        }
    }
    true
}
