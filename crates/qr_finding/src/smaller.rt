//! Smoother and smaller pictures.

ghost use Rattle.std.specs.Prelude.{◌≤◌, ◌<◌};

use crate::tables::{byte_at, part, put};
use qr_sampling::Picture;

fn ninth(sum: u32) -> u8 {
    (sum / 9).min(255) as u8
}

// Writes the means of three by three pixels of three rows that follow each other.
fn smooth_row(rows: [&[u8]; 3], to: &mut [u8]) {
    let [above, here, below] = rows;
    let count = to.len().min(above.len()).min(here.len()).min(below.len());
    if count == 0 {
        return;
    }
    let mut middle = u32::from(above[0]) + u32::from(here[0]) + u32::from(below[0]);
    let mut before = middle;
    for x in 1..count {
        let after = u32::from(above[x]) + u32::from(here[x]) + u32::from(below[x]);
        to[x - 1] = ninth(before.wrapping_add(middle).wrapping_add(after));
        before = middle;
        middle = after;
    }
    to[count - 1] = ninth(before.wrapping_add(middle).wrapping_add(middle));
}

/// Writes a picture in which each pixel is the mean of three by three pixels.
pub(crate) fn smooth(picture: &Picture, to: &mut [u8]) {
    let width = usize::from(picture.width);
    let height = usize::from(picture.height);
    for y in 0..height {
        let above = picture.row(y.saturating_sub(1));
        let here = picture.row(y);
        let below = picture.row(y.saturating_add(1).min(height.saturating_sub(1)));
        let from = y.saturating_mul(width);
        if let Some(row) = to.get_mut(from..from.saturating_add(width)) {
            smooth_row([above, here, below], row);
        }
    }
}

// Returns the mean of a square of `scale` by `scale` pixels.
fn square_mean(picture: &Picture, scale: usize, x: usize, y: usize) -> u8 {
    let (mut sum, mut count) = (0u32, 0u32);
    let left = x.saturating_mul(scale);
    let top = y.saturating_mul(scale);
    for row in top..top.saturating_add(scale).min(usize::from(picture.height)) {
        for pixel in part(picture.row(row), left, left.saturating_add(scale)) {
            sum = sum.saturating_add(u32::from(*pixel));
            count = count.saturating_add(1);
        }
    }
    (sum / count.max(1)).min(255) as u8
}

/// Writes a picture that is smaller by a factor: each pixel is the mean of `scale` by `scale` pixels.
pub(crate) fn shrink(picture: &Picture, scale: usize, to: &mut [u8])
    requires { 0 < scale }
{
    let width = usize::from(picture.width) / scale;
    for y in 0..usize::from(picture.height) / scale {
        for x in 0..width {
            put(
                to,
                y.saturating_mul(width).saturating_add(x),
                square_mean(picture, scale, x, y),
            );
        }
    }
}
