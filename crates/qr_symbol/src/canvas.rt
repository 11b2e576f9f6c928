//! Draws symbols on a canvas, which all symbols of a series share (ISO/IEC 18004:2015, 7.7 and 7.8). Function patterns
//! and version information are drawn once for a series, and codewords once for each symbol. Masks are tried two at a
//! time: the symbol is drawn under each of the two masks, with the format information of this mask. At the end the
//! symbol is drawn once more, under the best mask.

ghost use Rattle.std.specs.Prelude.{◌≡◌, Bool, ◌<◌, if◌then◌else◌, IfOk};
ghost use Rattle.qr_layout.specs.Version.{side_of};
ghost use Rattle.qr_matrix.specs.Grid.{one_of, IsSquare};
ghost use Rattle.qr_symbol.specs.Steps.Canvas.{HasPatterns};
ghost use Rattle.qr_symbol.specs.Steps.Placement.{masked_grid, region_grid, unmasked_grid};

use crate::mask::{PATTERN_ROWS, pattern, set_masked};
use crate::patterns::{draw_fixed, draw_format, region_of};
use crate::placement::draw_codewords;
use crate::words::reversed;
use qr_layout::{FORMAT_BITS, Level, Version, format_place, format_word, second_format_place};
use qr_matrix::{Matrix, MatrixPair};
use std::alloc::{AllocError, Global};
use std::mem;

// The format information that `unmasked` has: only the modules of bit 7 are dark. No level and mask has it. It is a
// placeholder, with which exchanging rows and columns of `unmasked` changes no colour outside the region. The exchange
// puts a module of bit 7 in the place of the dark module, so the modules of bit 7 have to be dark too.
const SYMMETRIC_FORMAT: u32 = 1 << 7;

/// The squares from which symbols are made. In `region` exactly the region is dark. `unmasked` is a symbol before its
/// mask and its own format information are drawn.
#[derive(Drop)]
pub(crate) struct Canvas {
    pub version: Version,
    pub level: Level,
    pub region: Matrix,
    pub unmasked: Matrix,
    ghost region_is: { region ≡ region_grid version },
    ghost patterns: { HasPatterns version unmasked },
}

impl Canvas {
    // Makes a canvas without codewords. Allocates once for each of the two squares.
    #[inline(never)]
    pub(crate) fn new(alloc: Global, version: Version, level: Level) -> Result<Canvas, AllocError>
        ensures version { IfOk result (λ c. c.version ≡ version) }
        ensures level { IfOk result (λ c. c.level ≡ level) }
    {
        let region = region_of(alloc, version)?;
        let mut unmasked = Matrix::new(alloc, version.side())?;
        draw_fixed(&mut unmasked, version, SYMMETRIC_FORMAT);
        Ok(Canvas {
            version,
            level,
            region,
            unmasked,
        })
    }

    // Draws the codewords of a symbol. If `unmasked` has those of an earlier symbol, they are replaced. The codewords
    // are drawn into the square that `unmasked` has before the call, which is used as if it were already transposed.
    // This is possible because outside the region, exchanging rows and columns changes no colour of `unmasked`.
    // Afterwards `across` has the square that was drawn, and `unmasked` has this square with rows and columns
    // exchanged.
    #[inline(never)]
    pub(crate) fn draw_data(&mut self, across: &mut Matrix, codewords: &[u8])
        requires { IsSquare (side_of self.old.version) across.old }
        ensures version { self.new.version ≡ self.old.version }
        ensures level { self.new.level ≡ self.old.level }
        ensures unmasked { self.new.unmasked ≡ unmasked_grid self.old.version codewords.now }
        ensures square { IsSquare (side_of self.old.version) across.new }
    {
        // Only for the prover.
        prove!(self.version.number() <= 40);
        mem::swap(&mut self.unmasked, across);
        draw_codewords(across, self.version, &self.region, codewords);
        self.unmasked.set_transposed(across);
    }

    // Draws the symbol under `mask` into `matrix`. The format information is drawn last, because applying the mask
    // writes all modules of `matrix`.
    pub(crate) fn draw_masked(&self, matrix: &mut Matrix, mask: u8)
        requires mask_in { mask < 8 }
        requires square { IsSquare (side_of self.now.version) matrix.old }
        ensures { matrix.new ≡ masked_grid self.now.version self.now.level mask self.now.region self.now.unmasked }
    {
        set_masked(matrix, &self.unmasked, &self.region, mask);
        let format = u32::from(format_word(self.level, mask));
        draw_format(matrix, self.version, format);
    }

    // Draws the symbol into both squares of `pair`, each under a mask of its own and with the format information of
    // this mask. A mask has the same pattern in all rows whose indices differ by a multiple of twelve, so these rows
    // are set together. On the processor, a write to a row has to wait until the previous write to this row is done. So
    // the bits of the format information in row 8 are written several at a time, which takes fewer writes.
    pub(crate) fn draw_both_masked(&self, pair: &mut MatrixPair, masks: (u8, u8))
        requires masks_in { (masks.0 < 8) × (masks.1 < 8) }
        requires squares { (second : Bool) → IsSquare (side_of self.now.version) (one_of pair.old second) }
        ensures { (second : Bool) → one_of pair.new second ≡ masked_grid self.now.version self.now.level
            (if second then masks.1 else masks.0) self.now.region self.now.unmasked }
    {
        for first in 0..PATTERN_ROWS {
            let patterns = (pattern(masks.0, first), pattern(masks.1, first));
            pair.set_rows_masked(first, &self.unmasked, &self.region, patterns);
        }
        let side = self.version.side();
        let formats = (
            u64::from(format_word(self.level, masks.0)),
            u64::from(format_word(self.level, masks.1)),
        );
        // In column 8 the first copy of the format information has bits 0 to 7, and the second copy has bits 8 to 14.
        for bit in 0..FORMAT_BITS {
            let place = if bit < 8 {
                format_place(bit)
            } else {
                second_format_place(self.version, bit)
            };
            pair.set_columns(
                place.row,
                place.col,
                1,
                (formats.0 >> bit, formats.1 >> bit),
            );
        }
        // From left to right, row 8 has the bits of the format information from the highest to the lowest. But
        // `set_columns` takes bit 0 for the leftmost module, so the words are reversed. Then the highest 15 bits of a
        // word are those of the format information, and the `others` below them are 0. The first copy has bits 14 to 9
        // in columns 0 to 5, then a module of the timing pattern, and then bits 8 and 7. The second copy has bits 7 to
        // 0 in the last eight columns.
        let others = 64 - FORMAT_BITS;
        let across = (reversed(formats.0) >> others, reversed(formats.1) >> others);
        pair.set_columns(8, 0, 6, across);
        pair.set_columns(8, 7, 2, (across.0 >> 6, across.1 >> 6));
        pair.set_columns(8, side - 8, 8, (across.0 >> 7, across.1 >> 7));
    }
}
