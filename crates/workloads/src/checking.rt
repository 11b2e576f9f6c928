//! The jobs that read and mend symbols.

use crate::digest::Digest;
use crate::random::Random;
use crate::texts::Text;
use qr_bits::Parsed;
use qr_layout::walk;
use qr_mending::{Mended, mend_symbol, mend_symbol_with_unknown};
use qr_symbol::{
    INPUT_MAX, Interpretation, Level, Matrix, ReadFault, Rule, Symbol, Version, encode, read_symbol,
};
use std::alloc::{AllocError, Global};

pub static LEVELS: [Level; 4] = [Level::L, Level::M, Level::Q, Level::H];

// Returns the symbol of the first `INPUT_MAX` bytes of the text. Returns `None` if `encode` refuses them: if there are
// none, if they fit no version from `smallest` on, or if memory is refused.
pub fn symbol_of(
    alloc: Global,
    text: &Text,
    level: Level,
    smallest: Version,
) -> Result<Option<Symbol>, AllocError> {
    let bytes = text.bytes();
    let bytes = &bytes[..bytes.len().min(INPUT_MAX)];
    Ok(encode(
        alloc,
        bytes,
        level,
        smallest,
        Rule::Auto,
        Interpretation::Default,
    )
    .ok())
}

fn add_parsed(parsed: &Parsed, digest: &mut Digest) {
    digest.add_bytes(parsed.bytes.as_slice());
    digest.add(parsed.items.len() as u64);
}

fn add_fault(fault: &ReadFault, digest: &mut Digest) {
    digest.add(match fault {
        ReadFault::Side => 1,
        ReadFault::Format => 2,
        ReadFault::Check => 3,
        ReadFault::Segments(_) => 4,
        ReadFault::Series => 5,
        ReadFault::Memory => 6,
    });
}

pub fn add_read(outcome: &Result<Parsed, ReadFault>, digest: &mut Digest) {
    match outcome {
        Ok(parsed) => add_parsed(parsed, digest),
        Err(fault) => add_fault(fault, digest),
    }
}

/// Makes labels and large symbols, and reads them back.
pub fn proofread(
    alloc: Global,
    count: u64,
    seed: u64,
    digest: &mut Digest,
) -> Result<(), AllocError> {
    let mut random = Random::new(seed);
    for turn in 0..count {
        let mut text = Text::new(alloc);
        match turn % 8 {
            0 | 3 => text.put_link(&mut random)?,
            1 | 4 => text.put_serial(&mut random)?,
            2 => text.put_contact(&mut random)?,
            5 => text.put_network(&mut random)?,
            6 => {
                let count = random.between(300, 1200);
                text.put_prose(&mut random, count)?;
            }
            _ => text.put_gtin(&mut random)?,
        }
        let level = LEVELS[random.below(4)];
        if let Some(symbol) = symbol_of(alloc, &text, level, Version::FIRST)? {
            digest.add(u64::from(symbol.mask));
            add_read(&read_symbol(alloc, &symbol.matrix), digest);
        }
    }
    Ok(())
}

pub fn add_mended(outcome: &Result<Mended, ReadFault>, digest: &mut Digest) {
    match outcome {
        Ok(mended) => {
            add_parsed(&mended.parsed, digest);
            digest.add(u64::from(mended.version.number()));
            digest.add(u64::from(mended.mask));
            digest.add(u64::from(mended.wrong_modules));
            digest.add(u64::from(mended.wrong_format_modules));
            for changes in &mended.changed {
                digest.add(changes.misread as u64);
            }
        }
        Err(fault) => add_fault(fault, digest),
    }
}

// Sets the module, or does nothing if it is outside the square.
fn set(matrix: &mut Matrix, row: u8, col: u8, dark: bool) {
    if row < matrix.side() && col < matrix.side() {
        matrix.set(row, col, dark);
    }
}

fn is_dark(matrix: &Matrix, row: u8, col: u8) -> bool {
    row < matrix.side() && col < matrix.side() && matrix.dark(row, col)
}

// Returns the square with rows and columns exchanged.
fn exchanged(alloc: Global, matrix: &Matrix) -> Result<Matrix, AllocError> {
    let mut other = Matrix::new(alloc, matrix.side())?;
    if other.side() == matrix.side() {
        other.set_transposed(matrix);
    }
    Ok(other)
}

fn invert(matrix: &mut Matrix, row: u8, col: u8) {
    let dark = is_dark(matrix, row, col);
    set(matrix, row, col, !dark);
}

// One symbol in three states: with one wrong codeword in each block, with as many in each block as can be mended, and
// with one more than that in one block.
#[derive(Drop)]
struct Damaged {
    one: Matrix,
    bound: Matrix,
    beyond: Matrix,
}

// Damages the first codewords of the final sequence. Interleaving takes one codeword of each block in turn. So if there
// are n blocks, the first n codewords are one codeword of each block. The same is true of the next n codewords, as long
// as no block has run out of data codewords.
fn damage(alloc: Global, symbol: &Symbol, random: &mut Random) -> Result<Damaged, AllocError> {
    let sizes = symbol.version.blocks(symbol.level);
    let blocks = usize::from(sizes.short) + usize::from(sizes.long);
    let codewords = usize::from(symbol.version.correctable(symbol.level)) * blocks;
    let across = exchanged(alloc, &symbol.matrix)?;
    let mut squares = Damaged {
        one: exchanged(alloc, &across)?,
        bound: exchanged(alloc, &across)?,
        beyond: exchanged(alloc, &across)?,
    };
    let mut number = 0u32;
    let mut bits = 0u64;
    for module in walk(symbol.version) {
        let codeword = (number / 8) as usize;
        if codeword > codewords {
            break;
        }
        if number % 8 == 0 {
            bits = random.number() % 255 + 1;
        }
        if bits >> (number % 8) & 1 == 1 {
            if codeword < blocks {
                invert(&mut squares.one, module.row, module.col);
            }
            if codeword < codewords {
                invert(&mut squares.bound, module.row, module.col);
            }
            invert(&mut squares.beyond, module.row, module.col);
        }
        number = number.saturating_add(1);
    }
    Ok(squares)
}

// Returns a square whose dark modules are those that a smudge has made unknown. The smudge is as wide and as high as a
// seventh of the side.
fn smudge(alloc: Global, symbol: &Symbol, random: &mut Random) -> Result<Matrix, AllocError> {
    let side = symbol.version.side();
    let mut unknown = Matrix::new(alloc, side)?;
    let top = random.byte_between(9, 14);
    let left = random.byte_between(9, 14);
    for row in 0..side / 7 {
        for col in 0..side / 7 {
            set(
                &mut unknown,
                top.saturating_add(row),
                left.saturating_add(col),
                true,
            );
        }
    }
    Ok(unknown)
}

// Mends the symbol five times: undamaged, in the three states of `Damaged`, and with the modules under a smudge not
// known.
fn add_all_mended(
    alloc: Global,
    symbol: &Symbol,
    random: &mut Random,
    digest: &mut Digest,
) -> Result<(), AllocError> {
    let squares = damage(alloc, symbol, random)?;
    let unknown = smudge(alloc, symbol, random)?;
    for square in [
        &symbol.matrix,
        &squares.one,
        &squares.bound,
        &squares.beyond,
    ] {
        add_mended(&mend_symbol(alloc, square), digest);
    }
    if unknown.side() == symbol.matrix.side() {
        let smudged = mend_symbol_with_unknown(alloc, &symbol.matrix, &unknown);
        add_mended(&smudged, digest);
    }
    Ok(())
}

/// Mends symbols of versions 2 to 15, and every sixteenth time one of version 40 at level H. Each symbol is mended in
/// five states: sound, with one wrong codeword in each block, with as many wrong codewords as can be mended, with a
/// smudge, and with one wrong codeword more than can be mended.
pub fn mend(alloc: Global, count: u64, seed: u64, digest: &mut Digest) -> Result<(), AllocError> {
    let mut random = Random::new(seed);
    for turn in 0..count {
        let mut text = Text::new(alloc);
        let is_large = turn % 16 == 7;
        match turn % 4 {
            0 => text.put_link(&mut random)?,
            1 => text.put_contact(&mut random)?,
            2 => text.put_serial(&mut random)?,
            _ => text.put_network(&mut random)?,
        }
        let level = if is_large {
            Level::H
        } else {
            LEVELS[random.below(4)]
        };
        let smallest = Version::new(if is_large { 40 } else { 2 }).unwrap_or(Version::FIRST);
        if let Some(symbol) = symbol_of(alloc, &text, level, smallest)? {
            add_all_mended(alloc, &symbol, &mut random, digest)?;
        }
    }
    Ok(())
}
