//! A picture in grey: one byte for each pixel, row by row.

ghost use Rattle.std.specs.Prelude.{◌≡◌, ℕ, ◌<◌, length, slice_index_or, MatchOption};
ghost use Rattle.qr_pictures.specs.Pixels.{IsPicture, grey, pixels_of};

use std::marker::Model;

/// A picture in grey, which borrows the bytes of its pixels. Contracts see it as its bytes, its width, its
/// height and its stride.
#[derive(Drop)]
pub struct Picture<'a> {
    bytes: &'a [u8],
    width: usize,
    height: usize,
    stride: usize,
}

impl<'a> Model for Picture<'a> {
    ghost use Rattle.qr_pictures.specs.Pixels.{IsPicture, Pixels, pixels_of};

    ghost Value = { Pixels };

    ghost view = { λ p. pixels_of p.bytes.now p.width p.height p.stride };

    ghost invariant = { λ p. IsPicture (pixels_of p.bytes.now p.width p.height p.stride) };
}

impl<'a> Picture<'a> {
    /// Returns the picture of `width` by `height` pixels whose first row is at the beginning of `bytes`, and whose other
    /// rows each begin `stride` bytes after the row above. Returns `None` if the picture has no pixel, if the rows
    /// overlap, or if there are too few bytes.
    pub fn new(bytes: &'a [u8], width: usize, height: usize, stride: usize) -> Option<Picture<'a>>
        ensures { MatchOption result (IsPicture (pixels_of bytes.now width height stride) → ⊥)
            (λ p. (p ≡ pixels_of bytes.now width height stride) × IsPicture p) }
    {
        if width == 0 || height == 0 || stride < width {
            return None;
        }
        let last = (height - 1).checked_mul(stride)?;
        if last > bytes.len() || bytes.len() - last < width {
            return None;
        }
        Some(Picture {
            bytes,
            width,
            height,
            stride,
        })
    }

    /// Returns the width in pixels.
    #[inline(always)]
    pub fn width(&self) -> usize
        ensures value { result ≡ self.now.width }
        ensures some { 0 < result }
    {
        self.width
    }

    /// Returns the height in pixels.
    #[inline(always)]
    pub fn height(&self) -> usize
        ensures value { result ≡ self.now.height }
        ensures some { 0 < result }
    {
        self.height
    }

    /// Returns the grey values of row `y`, from the left to the right.
    #[inline(always)]
    pub fn row(&self, y: usize) -> &[u8]
        requires { y < self.now.height }
        ensures len { length result.now ≡ self.now.width }
        ensures pixels { (x : ℕ) → x < self.now.width → slice_index_or result.now x 0 ≡ grey self.now y x }
    {
        let start = y * self.stride;
        &self.bytes[start..start + self.width]
    }
}
