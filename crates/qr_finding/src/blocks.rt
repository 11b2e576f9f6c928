//! Thresholds. A picture is divided into blocks of eight by eight pixels, and each block has a threshold. A pixel is dark if
//! it is not brighter than the threshold of its block.

ghost use Rattle.std.specs.Prelude.{◌≤◌, ◌<◌, ◌+◌};

use crate::number::Number;
use crate::tables::{byte_at, part, put};
use crate::view::{DARK, LIGHT, Point};
use qr_sampling::Picture;

/// The side of a block.
const BLOCK: usize = 8;

/// The number of blocks in a row, and the number of such rows.
#[derive(Clone, Copy)]
pub(crate) struct Grid {
    pub(crate) columns: usize,
    pub(crate) rows: usize,
    ghost columns_in: { columns ≤ 8192 },
    ghost rows_in: { rows ≤ 8192 },
}

impl Grid {
    pub(crate) fn of(picture: &Picture) -> Grid {
        Grid::new(usize::from(picture.width), usize::from(picture.height))
    }

    /// Returns the grid of a picture of this size.
    pub(crate) fn new(width: usize, height: usize) -> Grid {
        Grid {
            columns: width.div_ceil(BLOCK).min(8192),
            rows: height.div_ceil(BLOCK).min(8192),
        }
    }
}

/// The thresholds of a picture that is smaller by a power of two, which is `shift`.
#[derive(Clone, Copy)]
pub(crate) struct Thresholds<'a> {
    pub(crate) values: &'a [u8],
    pub(crate) grid: Grid,
    pub(crate) shift: u32,
    ghost shift_in: { shift < 8 },
}

fn block_index(place: Number, shift: u32, count: usize) -> usize
    requires { shift < 8 }
{
    Number(place.0 >> (7 + shift))
        .index()
        .min(count.saturating_sub(1))
}

impl Thresholds<'_> {
    // Returns the threshold at a place of the whole picture, in sixteenths of a pixel.
    pub(crate) fn at(&self, place: Point) -> u8 {
        let column = block_index(place.x, self.shift, self.grid.columns);
        let row = block_index(place.y, self.shift, self.grid.rows);
        byte_at(
            self.values,
            row.saturating_mul(self.grid.columns).saturating_add(column),
        )
    }
}

// Counts the pixels of a row that are shown by every fourth, by their brightness.
fn count_row(row: &[u8], counts: &mut [u32; 256]) {
    for i in 0..row.len().div_ceil(4) {
        let level = usize::from(byte_at(row, i.saturating_mul(4)));
        counts[level] = counts[level].saturating_add(1);
    }
}

/// Returns the range of brightness up to which a block has one colour: an eighth of the range of the picture, of which the
/// darkest and the brightest fiftieth are left out.
pub(crate) fn low_range(picture: &Picture) -> u8 {
    let mut counts = [0u32; 256];
    let mut total = 0u32;
    for j in 0..usize::from(picture.height).div_ceil(4) {
        let row = picture.row(j.saturating_mul(4));
        count_row(row, &mut counts);
        total = total.saturating_add(row.len().div_ceil(4).min(65_535) as u32);
    }
    let low = first_above(&counts, total / 50, false);
    let high = first_above(&counts, total / 50, true);
    (high.saturating_sub(low) / 8).min(24).max(5) as u8
}

// Returns the first level, from black on or from white on, up to which there are more than so many pixels.
fn first_above(counts: &[u32; 256], limit: u32, from_white: bool) -> usize {
    let mut seen = 0u32;
    for k in 0..256usize {
        let level = if from_white { 255 - k } else { k };
        seen = seen.saturating_add(counts[level]);
        if seen > limit {
            return level;
        }
    }
    if from_white { 0 } else { 255 }
}

/// The columns of pixels of eight blocks that are beside each other. Loops over them are of a form of which compilers make
/// operations on several pixels at once.
const STRIP: usize = 8 * BLOCK;

/// Of each column of a strip the sum of its pixels, and the least and the greatest of them, and the number of its rows.
#[derive(Clone, Copy)]
struct Strip {
    sums: [u16; STRIP],
    least: [u8; STRIP],
    most: [u8; STRIP],
    columns: usize,
    rows: usize,
}

/// The mean of the pixels of a block, and the least and the greatest of them.
#[derive(Clone, Copy)]
struct Block {
    mean: u8,
    least: u8,
    most: u8,
}

impl Strip {
    // Returns the strip of a row of blocks whose first column is `left`. The last row of blocks begins so that it is in the picture.
    fn of(picture: &Picture, left: usize, row: usize) -> Strip {
        let width = usize::from(picture.width);
        let height = usize::from(picture.height);
        let top = row.saturating_mul(BLOCK).min(height.saturating_sub(BLOCK));
        let right = left.saturating_add(STRIP).min(width);
        let mut strip = Strip {
            sums: [0; STRIP],
            least: [255; STRIP],
            most: [0; STRIP],
            columns: right.saturating_sub(left),
            rows: 0,
        };
        for y in top..top.saturating_add(BLOCK).min(height) {
            strip.add(part(picture.row(y), left, right));
        }
        strip
    }

    // Adds the pixels of a row.
    fn add(&mut self, pixels: &[u8]) {
        self.rows = self.rows.wrapping_add(1);
        for k in 0..pixels.len().min(STRIP) {
            self.sums[k] = self.sums[k].wrapping_add(u16::from(pixels[k]));
            self.least[k] = self.least[k].min(pixels[k]);
            self.most[k] = self.most[k].max(pixels[k]);
        }
    }

    // Returns what is known of the block with an index in the strip.
    fn block(&self, index: usize) -> Block {
        let start = index.saturating_mul(BLOCK);
        let end = start.saturating_add(BLOCK).min(self.columns).min(STRIP);
        let (mut sum, mut least, mut most) = (0u32, 255u8, 0u8);
        for k in start..end {
            sum = sum.wrapping_add(u32::from(self.sums[k]));
            least = least.min(self.least[k]);
            most = most.max(self.most[k]);
        }
        let count = end.saturating_sub(start).wrapping_mul(self.rows);
        Block {
            mean: (sum / (count.max(1).min(BLOCK * BLOCK) as u32)).min(255) as u8,
            least,
            most,
        }
    }
}

// Returns the brightness of a block that has one colour: dark if its neighbours are lighter.
fn plain_level(levels: &[u8], at: usize, columns: usize, least: u8, low_range: u8) -> u8 {
    let above = u32::from(byte_at(levels, at.saturating_sub(columns)));
    let left = u32::from(byte_at(levels, at.saturating_sub(1)));
    let corner = u32::from(byte_at(levels, at.saturating_sub(columns).saturating_sub(1)));
    let near = ((above + 2 * left + corner) / 4).min(255) as u8;
    if least < near {
        near
    } else {
        least.saturating_sub(low_range)
    }
}

// Writes the level of each block.
fn write_levels(picture: &Picture, low_range: u8, levels: &mut [u8]) {
    let grid = Grid::of(picture);
    for row in 0..grid.rows {
        for first in (0..grid.columns).step_by(STRIP / BLOCK) {
            let strip = Strip::of(picture, first.saturating_mul(BLOCK), row);
            let after = first.saturating_add(STRIP / BLOCK).min(grid.columns);
            for column in first..after {
                let at = row.saturating_mul(grid.columns).saturating_add(column);
                let block = strip.block(column - first);
                let level = if block.most.saturating_sub(block.least) > low_range {
                    block.mean
                } else if column > 0 && row > 0 {
                    plain_level(levels, at, grid.columns, block.least, low_range)
                } else {
                    block.least.saturating_sub(low_range)
                };
                put(levels, at, level);
            }
        }
    }
}

// Returns the mean level of the blocks around one, up to `around` to each side.
fn mean_around(levels: &[u8], grid: Grid, around: usize, column: usize, row: usize) -> u8 {
    let left = column.saturating_sub(around);
    let right = column
        .saturating_add(around)
        .saturating_add(1)
        .min(grid.columns);
    let (mut sum, mut count) = (0u32, 0usize);
    for y in row.saturating_sub(around)..row
        .saturating_add(around)
        .saturating_add(1)
        .min(grid.rows)
    {
        let start = y.saturating_mul(grid.columns);
        let levels = part(
            levels,
            start.saturating_add(left),
            start.saturating_add(right),
        );
        count = count.wrapping_add(levels.len());
        for level in levels {
            sum = sum.wrapping_add(u32::from(*level));
        }
    }
    (sum / (count.max(1).min(1 << 16) as u32)).min(255) as u8
}

// Writes which pixels of a part of a row are dark, by the threshold of each.
fn write_part(pixels: &[u8], limits: &[u8; STRIP], dark: &mut [u8]) {
    for k in 0..dark.len().min(pixels.len()).min(STRIP) {
        dark[k] = if pixels[k] <= limits[k] { DARK } else { LIGHT };
    }
}

// Returns the thresholds of the columns of a strip, which begins at a block.
fn limits_of(thresholds: &[u8], first: usize) -> [u8; STRIP] {
    let mut limits = [0u8; STRIP];
    for block in 0..STRIP / BLOCK {
        let threshold = byte_at(thresholds, first.saturating_add(block));
        for k in 0..BLOCK {
            limits[block * BLOCK + k] = threshold;
        }
    }
    limits
}

// Writes which pixels of a row of blocks are dark, by the thresholds of these blocks.
fn write_rows(picture: &Picture, row: usize, thresholds: &[u8], dark: &mut [u8]) {
    let width = usize::from(picture.width);
    let top = row.saturating_mul(BLOCK);
    for left in (0..width).step_by(STRIP) {
        let right = left.saturating_add(STRIP).min(width);
        let limits = limits_of(thresholds, left / BLOCK);
        for y in top..top.saturating_add(BLOCK).min(usize::from(picture.height)) {
            let from = y.saturating_mul(width);
            if let Some(to) = dark.get_mut(from.saturating_add(left)..from.saturating_add(right)) {
                write_part(part(picture.row(y), left, right), &limits, to);
            }
        }
    }
}

/// Writes the thresholds of the blocks of a picture, and which of its pixels are dark. A threshold is the mean level of so
/// many blocks to each side.
pub(crate) fn write_dark(
    picture: &Picture,
    around: usize,
    low_range: u8,
    blocks: (&mut [u8], &mut [u8]),
    dark: &mut [u8],
) {
    let (levels, thresholds) = blocks;
    write_levels(picture, low_range, levels);
    let grid = Grid::of(picture);
    for row in 0..grid.rows {
        for column in 0..grid.columns {
            let mean = mean_around(levels, grid, around, column, row);
            put(
                thresholds,
                row.saturating_mul(grid.columns).saturating_add(column),
                mean,
            );
        }
    }
    for row in 0..grid.rows {
        let start = row.saturating_mul(grid.columns);
        let thresholds = part(thresholds, start, start.saturating_add(grid.columns));
        write_rows(picture, row, thresholds, dark);
    }
}
