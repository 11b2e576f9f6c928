//! The job of programs that write images of symbols: PNG files for screens and print, and commands for printers.

use crate::checking::{LEVELS, symbol_of};
use crate::digest::Digest;
use crate::random::Random;
use crate::texts::Text;
use qr_images::{Format, ImageSettings, Modules, fill_image, image_len};
use qr_matrix::{Matrix, write_square};
use qr_symbol::Version;
use std::alloc::{AllocError, Global};

// The formats and the pixels or dots of a module, in turn.
static KINDS: [(Format, u8); 8] = [
    (Format::Png, 8),
    (Format::Zpl, 4),
    (Format::Png, 4),
    (Format::Png, 8),
    (Format::EscPos, 4),
    (Format::Png, 10),
    (Format::Tspl, 6),
    (Format::Pbm, 3),
];

fn add_image(
    alloc: Global,
    matrix: &Matrix,
    turn: u64,
    digest: &mut Digest,
) -> Result<(), AllocError> {
    let side = matrix.side();
    let area = usize::from(side) * usize::from(side);
    let mut bytes = vec![in alloc; 0u8; area]?;
    write_square(matrix, 0, &mut bytes);
    let square = Modules::new(&bytes, side);
    let (format, scale) = KINDS[(turn % 8) as usize];
    let settings = ImageSettings {
        format,
        scale: scale.clamp(1, 100),
        margin: 4,
        colours: None,
        pixels_a_metre: 8000,
        left: 40,
        top: 24,
    };
    let mut image = vec![in alloc; 0u8; image_len(&square, &settings) as usize]?;
    fill_image(&square, &settings, &mut image);
    digest.add_bytes(&image);
    Ok(())
}

/// Takes links and contacts. Each is encoded as a symbol, and an image of the symbol is written: of eight images four are
/// PNG files, one is a PBM file, and three are commands for printers.
pub fn images(alloc: Global, count: u64, seed: u64, digest: &mut Digest) -> Result<(), AllocError> {
    let mut random = Random::new(seed);
    for turn in 0..count {
        let mut text = Text::new(alloc);
        if turn % 4 == 3 {
            text.put_contact(&mut random)?;
        } else {
            text.put_link(&mut random)?;
        }
        let level = LEVELS[random.below(4)];
        if let Some(symbol) = symbol_of(alloc, &text, level, Version::FIRST)? {
            add_image(alloc, &symbol.matrix, turn, digest)?;
        }
    }
    Ok(())
}
