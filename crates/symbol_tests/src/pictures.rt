//! Tests of clean pictures. Each picture is drawn here, pixel by pixel, without code of `qr_pictures`.

use qr_pictures::{Picture, Turn, clean_square, write_modules};
use std::alloc::{AllocError, Global};
use std::test::Fail;

// Whether the module in row `row` and column `col` of a square of 21 modules on a side is dark. The square has the
// finder patterns of a symbol. All other modules are dark in stripes.
fn is_dark(row: u32, col: u32) -> bool {
    let down = (if row < 10 { 3u32 } else { 17u32 }).abs_diff(row);
    let across = (if col < 10 { 3u32 } else { 17u32 }).abs_diff(col);
    let ring = down.max(across);
    if ring > 4 || row >= 10 && col >= 10 {
        return (row % 21 + 2 * (col % 21)) % 3 == 0;
    }
    ring != 2 && ring != 4
}

// A picture of 70 by 80 pixels with this square.
#[derive(Drop)]
struct Drawn {
    scale: u32,
    left: u32,
    top: u32,
    quarters: u8,
    dark: u8,
    light: u8,
}

const WIDTH: usize = 70;

const HEIGHT: usize = 80;

impl Drawn {
    // The grey value of the pixel in row `y` and column `x`.
    fn grey(&self, y: u32, x: u32) -> u8 {
        if y < self.top || x < self.left {
            return self.light;
        }
        let row = (y - self.top).checked_div(self.scale).unwrap_or(21);
        let col = (x - self.left).checked_div(self.scale).unwrap_or(21);
        if row > 20 || col > 20 {
            return self.light;
        }
        let dark = match self.quarters {
            0 => is_dark(row, col),
            1 => is_dark(20 - col, row),
            2 => is_dark(20 - row, 20 - col),
            _ => is_dark(col, 20 - row),
        };
        if dark { self.dark } else { self.light }
    }

    fn bytes(&self, alloc: Global) -> Result<Vec<u8>, AllocError> {
        let mut bytes = Vec::new(alloc);
        for y in 0..HEIGHT as u32 {
            for x in 0..WIDTH as u32 {
                bytes.push(self.grey(y, x))?;
            }
        }
        Ok(bytes)
    }
}

const PLAIN: Drawn = Drawn {
    scale: 3,
    left: 2,
    top: 9,
    quarters: 0,
    dark: 0,
    light: 255,
};

// What `clean_square` finds in a picture: the scale, the left and the upper margin, the two grey values and the turn.
fn found(bytes: &[u8], width: usize, stride: usize) -> Option<(usize, usize, usize, u8, u8, Turn)> {
    let picture = Picture::new(bytes, width, HEIGHT, stride)?;
    let square = clean_square(&picture)?;
    let frame = square.frame;
    Some((
        frame.scale,
        frame.left,
        frame.top,
        frame.dark,
        frame.light,
        square.turn,
    ))
}

#[test]
fn a_clean_picture_is_read(rt: HostRuntime) -> Result<(), Fail> {
    let bytes = PLAIN.bytes(rt.alloc())?;
    let wanted = Some((3, 2, 9, 0, 255, Turn::Upright));
    assert_eq!(rt; found(&bytes, WIDTH, WIDTH), wanted);
    Ok(())
}

#[test]
fn a_square_may_be_turned_and_light_on_dark(rt: HostRuntime) -> Result<(), Fail> {
    let turns = [
        Turn::Upright,
        Turn::Quarter,
        Turn::Half,
        Turn::ThreeQuarters,
    ];
    for (quarters, turn) in turns.iter().enumerate() {
        let drawn = Drawn {
            quarters: quarters as u8,
            left: 0,
            top: 0,
            dark: 200,
            light: 10,
            ..PLAIN
        };
        let bytes = drawn.bytes(rt.alloc())?;
        assert_eq!(rt;
            found(&bytes, WIDTH, WIDTH),
            Some((3, 0, 0, 200, 10, *turn))
        );
    }
    Ok(())
}

#[test]
fn a_square_may_be_at_the_edges(rt: HostRuntime) -> Result<(), Fail> {
    let drawn = Drawn {
        left: 7,
        top: 17,
        ..PLAIN
    };
    let bytes = drawn.bytes(rt.alloc())?;
    assert_eq!(rt;
        found(&bytes, WIDTH, WIDTH),
        Some((3, 7, 17, 0, 255, Turn::Upright))
    );
    // without the columns to the left of the square, which are the first 7 bytes of the first row
    let Some(cut) = bytes.get(7..) else {
        return Ok(());
    };
    assert_eq!(rt;
        found(cut, WIDTH - 7, WIDTH),
        Some((3, 0, 17, 0, 255, Turn::Upright))
    );
    Ok(())
}

#[test]
fn the_modules_of_a_turned_square_are_upright(rt: HostRuntime) -> Result<(), Fail> {
    let drawn = Drawn {
        quarters: 3,
        ..PLAIN
    };
    let bytes = drawn.bytes(rt.alloc())?;
    let mut modules = [7u8; 441];
    if let Some(picture) = Picture::new(&bytes, WIDTH, HEIGHT, WIDTH)
        && let Some(square) = clean_square(&picture)
        && square.frame.side == 21
    {
        write_modules(&picture, &square, &mut modules);
    }
    for (i, module) in modules.iter().enumerate() {
        assert_eq!(rt; *module, u8::from(is_dark(i as u32 / 21, i as u32 % 21)));
    }
    Ok(())
}

#[test]
fn one_other_pixel_makes_a_picture_unclean(rt: HostRuntime) -> Result<(), Fail> {
    // in a margin, in the square, and at the end
    for at in [3usize, 2300, WIDTH * HEIGHT - 1] {
        let mut bytes = PLAIN.bytes(rt.alloc())?;
        if at < bytes.len() {
            bytes[at] = 128;
        }
        assert_eq!(rt; found(&bytes, WIDTH, WIDTH), None);
    }
    Ok(())
}

#[test]
fn bytes_that_are_no_picture_are_refused(rt: HostRuntime) -> Result<(), Fail> {
    let bytes = [0u8; 12];
    assert_eq!(rt; Picture::new(&bytes, 3, 4, 3).is_some(), true);
    assert_eq!(rt; Picture::new(&bytes, 2, 3, 5).is_some(), true);
    assert_eq!(rt; Picture::new(&bytes, 3, 3, 5).is_some(), false);
    assert_eq!(rt; Picture::new(&bytes, 0, 4, 3).is_some(), false);
    assert_eq!(rt; Picture::new(&bytes, 3, 0, 3).is_some(), false);
    assert_eq!(rt; Picture::new(&bytes, 3, 2, 2).is_some(), false);
    assert_eq!(rt;
        Picture::new(&bytes, 1, usize::MAX, usize::MAX).is_some(),
        false
    );
    Ok(())
}
