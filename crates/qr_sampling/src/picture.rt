//! Grey pictures, and the brightness at a place of one.

ghost use Rattle.std.specs.Prelude.{◌≡◌, ◌↔◌, ◌<◌, ◌≤◌, ◌+◌, ◌-◌, ◌*◌, ◌/◌, ◌^◌, length, IfOk, IfErr, OnOk, slice_range};
ghost use Rattle.std.specs.Bool.{Decides};
ghost use Rattle.qr_sampling.specs.Between.{CanBePicture, between};

/// Why there is no such picture.
#[derive(Clone, Copy, Debug, PartialEq, Eq)]
pub enum PictureFault {
    /// The width or the height is 0 or more than 32,767, or a row is longer than the stride.
    Settings,
    /// There are fewer bytes than the rows take.
    Room,
}

/// A grey picture: a byte for each pixel, from 0 for black to 255 for white, row after row.
#[derive(Clone, Copy)]
pub struct Picture<'a> {
    pub pixels: &'a [u8],
    /// The number of bytes from a row to the next.
    pub stride: usize,
    pub width: u16,
    pub height: u16,
    ghost wide: { 0 < width },
    ghost high: { 0 < height },
    ghost whole: { (height - 1) * stride + width ≤ length pixels.now },
}

// Returns sixteen times the brightness between two pixels.
fn between(first: u8, second: u8, sixteenths: u32) -> u32
    requires { sixteenths < 16 }
    ensures value { result ≡ between first second sixteenths }
    ensures bound { result ≤ 4080 }
{
    u32::from(first) * (16 - sixteenths) + u32::from(second) * sixteenths
}

// Returns the brightness that is so far from `above` to `below`, each of which is sixteen times a brightness.
fn rounded(above: u32, below: u32, sixteenths: u32) -> u8
    requires sixteenths { sixteenths < 16 }
    requires above { above ≤ 4080 }
    requires below { below ≤ 4080 }
    ensures { result ≡ (between above below sixteenths + 128) / 256 }
{
    ((above * (16 - sixteenths) + below * sixteenths + 128) / 256) as u8
}

// Returns whether so many bytes are enough for the rows.
fn has_room(len: usize, width: u32, height: u32, stride: usize) -> bool
    requires height { 0 < height }
    requires width { width ≤ 32767 }
    ensures { Decides result ((height - 1) * stride + width ≤ len) }
{
    let Some(above) = (height as usize - 1).checked_mul(stride) else {
        return false;
    };
    match above.checked_add(width as usize) {
        Some(needed) => needed <= len,
        None => false,
    }
}

impl<'a> Picture<'a> {
    ghost use Rattle.qr_sampling.specs.Brightness.{brightness, shown};

    /// Returns the picture with these pixels. `stride` is the number of bytes from a row to the next.
    ///
    /// # Errors
    ///
    /// `Settings`: the width or the height is 0 or above 32,767, or the stride is less than the width. `Room`: there are
    /// fewer pixels than the rows take.
    pub fn new(
        pixels: &'a [u8],
        width: u32,
        height: u32,
        stride: usize,
    ) -> Result<Picture<'a>, PictureFault>
        ensures pixels { IfOk result (λ p. p.pixels.now ≡ pixels.entry.now) }
        ensures width { IfOk result (λ p. p.width ≡ width) }
        ensures height { IfOk result (λ p. p.height ≡ height) }
        ensures stride { IfOk result (λ p. p.stride ≡ stride) }
        ensures settings { (result ≡ Err PictureFault.Settings) ↔ ¬ CanBePicture width height stride }
        ensures room { (result ≡ Err PictureFault.Room)
            ↔ (CanBePicture width height stride × (length pixels.entry.now < (height - 1) * stride + width)) }
    {
        if width == 0
            || width > 32_767
            || height == 0
            || height > 32_767
            || stride < width as usize
        {
            return Err(PictureFault::Settings);
        }
        if !has_room(pixels.len(), width, height, stride) {
            return Err(PictureFault::Room);
        }
        Ok(Picture {
            pixels,
            stride,
            width: width as u16,
            height: height as u16,
        })
    }

    /// Returns the pixels of a row.
    pub fn row(&self, row: usize) -> &'a [u8]
        requires { row < self.now.height }
        ensures { result.now ≡ slice_range self.now.pixels.now (row * self.now.stride) (row * self.now.stride + self.now.width) }
    {
        let start = row * self.stride;
        &self.pixels[start..start + usize::from(self.width)]
    }

    // Returns the brightness of a pixel, or of the nearest one at the border.
    #[tactic(auto, unfolding(crate::specs::Brightness::shown))]
    fn pixel(&self, column: usize, row: usize) -> u8
        ensures { result ≡ shown self.now column row }
    {
        let x = column.min(usize::from(self.width) - 1);
        let y = row.min(usize::from(self.height) - 1);
        self.pixels[y * self.stride + x]
    }

    /// Returns the brightness at a place, in sixteenths of a pixel from the middle of the pixel at the top left.
    #[tactic(auto, unfolding(crate::specs::Brightness::brightness))]
    pub fn brightness(&self, x: u32, y: u32) -> u8
        ensures { result ≡ brightness (shown self.now) x y }
    {
        let column = (x / 16) as usize;
        let row = (y / 16) as usize;
        let above = between(self.pixel(column, row), self.pixel(column + 1, row), x % 16);
        let below = between(
            self.pixel(column, row + 1),
            self.pixel(column + 1, row + 1),
            x % 16,
        );
        rounded(above, below, y % 16)
    }
}
