//! The job of programs that call the library: symbols are encoded, drawn, read and mended, and each module is a byte.

ghost use Rattle.std.specs.Prelude.{◌≡◌, ◌*◌, ◌≤◌};

use crate::checking::{LEVELS, add_mended, add_read, symbol_of};
use crate::digest::Digest;
use crate::random::Random;
use crate::texts::Text;
use qr_devices::Counted;
use qr_drawing::{Drawing, draw};
use qr_layout::walk;
use qr_matrix::{matrices_of_bytes, matrix_of_bytes, write_square};
use qr_mending::mend_symbol_with_unknown;
use qr_symbol::{Level, Symbol, Version, read_symbol};
use std::alloc::{AllocError, Global};

// The number of modules of version 40, the most that a symbol has.
const AREA_MAX: usize = 177 * 177;

const MARGIN: u8 = 4;

// The byte that `qrproved_mend` takes for a module that is not known.
const NOT_KNOWN: u8 = 2;

// The most bytes that version 13 holds in byte mode, at the levels L, M, Q and H.
static BYTES: [usize; 4] = [425, 331, 241, 177];

// Makes a symbol of a version from 1 to 13.
fn small_symbol(
    alloc: Global,
    turn: u64,
    random: &mut Random,
) -> Result<Option<Symbol>, AllocError> {
    let mut text = Text::new(alloc);
    match turn % 8 {
        0 | 4 => text.put_link(random)?,
        1 => text.put_serial(random)?,
        2 => text.put_contact(random)?,
        3 => text.put_network(random)?,
        5 => text.put_gtin(random)?,
        _ => {
            let count = random.between(20, 240);
            text.put_foreign(random, count)?;
        }
    }
    let level = random.below(4);
    text.cut(BYTES[level]);
    symbol_of(alloc, &text, LEVELS[level], Version::FIRST)
}

// Makes a full symbol of a version from 20 to 40.
fn large_symbol(
    alloc: Global,
    turn: u64,
    random: &mut Random,
) -> Result<Option<Symbol>, AllocError> {
    let level = LEVELS[random.below(4)];
    let version = Version::new(random.byte_between(20, 41)).unwrap_or(Version::FIRST);
    // The mode indicator and the count take 20 bits, which is less than three bytes.
    let count = usize::from(version.data_codewords(level)).saturating_sub(3);
    let mut text = Text::new(alloc);
    if turn % 32 < 16 {
        text.put_base64(random, count)?;
    } else {
        text.put_foreign(random, count)?;
    }
    text.cut(count);
    symbol_of(alloc, &text, level, version)
}

// How a codeword changes.
#[derive(Clone, Copy)]
struct Change {
    // The bits that are inverted; 0 if the codeword stays as it is.
    bits: u8,
    // This is 1 for the first codeword of a block that was chosen at random, 2 for the second, and so on, and 0 for a
    // codeword that was not chosen. Only the chosen codewords change.
    rank: u8,
}

// Returns the index in the final sequence of the codeword that has the index `at` in its block. The sequence has the
// first data codeword of each block, then the second of each, and so on, and then the error correction codewords in the
// same way; long blocks have one data codeword more.
fn index_of(version: Version, level: Level, block: usize, at: usize) -> usize {
    let sizes = version.blocks(level);
    let (short, short_len) = (usize::from(sizes.short), usize::from(sizes.short_len));
    let blocks = short + usize::from(sizes.long);
    let data_len = short_len + usize::from(block >= short);
    if at < short_len {
        return at.saturating_mul(blocks).saturating_add(block);
    }
    if at < data_len {
        let shorter = short_len.saturating_mul(blocks);
        return shorter.saturating_add(block.saturating_sub(short));
    }
    let data = usize::from(version.data_codewords(level));
    let before = (at - data_len).saturating_mul(blocks);
    data.saturating_add(before).saturating_add(block)
}

// Returns how each codeword of the final sequence changes. In each block as many codewords change as can be mended.
fn changes(
    alloc: Global,
    version: Version,
    level: Level,
    random: &mut Random,
) -> Result<Vec<Change>, AllocError> {
    let none = Change { bits: 0, rank: 0 };
    let mut changes = vec![in alloc; none; usize::from(version.total_codewords())]?;
    let sizes = version.blocks(level);
    let bound = version.correctable(level);
    for block in 0..usize::from(sizes.short) + usize::from(sizes.long) {
        let is_long = block >= usize::from(sizes.short);
        let len = usize::from(sizes.short_len) + usize::from(is_long) + usize::from(sizes.ec_len);
        let mut rank = 1u8;
        // If a codeword was chosen before, another is chosen in its place. 1,000 tries are far more than are needed.
        for _ in 0..1000 {
            if rank > bound {
                break;
            }
            let index = index_of(version, level, block, random.between(0, len));
            let bits = random.byte_between(1, 255);
            if index < changes.len() && changes[index].rank == 0 {
                changes[index] = Change { bits, rank };
                rank = rank.saturating_add(1);
            }
        }
    }
    Ok(changes)
}

// The buffers of a caller, each with the modules of one symbol at its beginning.
#[derive(Drop)]
struct Buffers {
    sound: Vec<u8>,
    // The next three buffers have wrong codewords in each block: one, half as many as can be mended, and as many as can
    // be mended.
    one: Vec<u8>,
    half: Vec<u8>,
    bound: Vec<u8>,
    // Here the modules under a smudge are not known.
    smudged: Vec<u8>,
}

impl Buffers {
    fn new(alloc: Global) -> Result<Buffers, AllocError> {
        Ok(Buffers {
            sound: vec![in alloc; 0u8; AREA_MAX]?,
            one: vec![in alloc; 0u8; AREA_MAX]?,
            half: vec![in alloc; 0u8; AREA_MAX]?,
            bound: vec![in alloc; 0u8; AREA_MAX]?,
            smudged: vec![in alloc; 0u8; AREA_MAX]?,
        })
    }
}

// Copies a buffer to another. Does nothing if their lengths differ.
fn copy(from: &[u8], to: &mut [u8]) {
    if from.len() == to.len() {
        to.copy_from_slice(from);
    }
}

// Inverts a module. `min` is for the prover.
fn invert(modules: &mut [u8], at: usize) {
    if at < modules.len() {
        modules[at] = 1 - modules[at].min(1);
    }
}

// Marks the modules under a smudge as not known. The smudge is as wide and as high as a seventh of the side, and lies
// to the right of the first finder pattern and below it.
fn smudge(modules: &mut [u8], side: u8, random: &mut Random) {
    let width = side / 7;
    let top = random.byte_between(9, side.saturating_sub(width));
    let left = random.byte_between(9, side.saturating_sub(width));
    for row in top..top.saturating_add(width) {
        for col in left..left.saturating_add(width) {
            let at = usize::from(row) * usize::from(side) + usize::from(col);
            if at < modules.len() {
                modules[at] = NOT_KNOWN;
            }
        }
    }
}

// Copies the symbol in the first buffer to the others, and damages each copy in its own way.
fn damage(
    alloc: Global,
    version: Version,
    level: Level,
    random: &mut Random,
    buffers: &mut Buffers,
) -> Result<(), AllocError> {
    copy(&buffers.sound, &mut buffers.one);
    copy(&buffers.sound, &mut buffers.half);
    copy(&buffers.sound, &mut buffers.bound);
    copy(&buffers.sound, &mut buffers.smudged);
    let side = version.side();
    smudge(&mut buffers.smudged, side, random);
    let changes = changes(alloc, version, level, random)?;
    let half = version.correctable(level) / 2;
    let mut number = 0usize;
    for module in walk(version) {
        let codeword = number / 8;
        if codeword >= changes.len() {
            break;
        }
        let change = changes[codeword];
        if change.bits >> (number % 8) & 1 == 1 {
            let at = usize::from(module.row) * usize::from(side) + usize::from(module.col);
            if change.rank == 1 {
                invert(&mut buffers.one, at);
            }
            if change.rank <= half {
                invert(&mut buffers.half, at);
            }
            invert(&mut buffers.bound, at);
        }
        number = number.saturating_add(1);
    }
    Ok(())
}

fn area(side: u8) -> usize
    ensures { result ≡ side * side }
{
    usize::from(side) * usize::from(side)
}

fn add_drawing(
    alloc: Global,
    modules: &[u8],
    side: u8,
    kind: Drawing,
    digest: &mut Digest,
) -> Result<(), AllocError>
    requires least { 1 ≤ side }
    requires most { side ≤ 177 }
{
    if modules.len() < area(side) {
        return Ok(());
    }
    let squares = [matrix_of_bytes(alloc, modules, side)?];
    let mut text = Counted::new(Vec::new(alloc));
    let is_drawn = draw(&squares, kind, MARGIN, &mut text).is_ok();
    digest.add(u64::from(is_drawn));
    digest.add_bytes(&text.into_inner());
    Ok(())
}

fn add_reading(
    alloc: Global,
    modules: &[u8],
    side: u8,
    digest: &mut Digest,
) -> Result<(), AllocError>
    requires least { 1 ≤ side }
    requires most { side ≤ 177 }
{
    if modules.len() < area(side) {
        return Ok(());
    }
    let matrix = matrix_of_bytes(alloc, modules, side)?;
    add_read(&read_symbol(alloc, &matrix), digest);
    Ok(())
}

fn add_mending(
    alloc: Global,
    modules: &[u8],
    side: u8,
    digest: &mut Digest,
) -> Result<(), AllocError>
    requires least { 1 ≤ side }
    requires most { side ≤ 177 }
{
    if modules.len() < area(side) {
        return Ok(());
    }
    let (dark, unknown) = matrices_of_bytes(alloc, modules, side)?;
    add_mended(&mend_symbol_with_unknown(alloc, &dark, &unknown), digest);
    Ok(())
}

// Draws and reads the symbol whose modules a buffer begins with.
fn add_sound(alloc: Global, modules: &[u8], side: u8, digest: &mut Digest) -> Result<(), AllocError>
    requires least { 1 ≤ side }
    requires most { side ≤ 177 }
{
    add_drawing(alloc, modules, side, Drawing::Svg, digest)?;
    add_drawing(alloc, modules, side, Drawing::Utf8, digest)?;
    add_reading(alloc, modules, side, digest)
}

// Mends the four damaged symbols.
fn add_damaged(
    alloc: Global,
    buffers: &Buffers,
    side: u8,
    digest: &mut Digest,
) -> Result<(), AllocError>
    requires least { 1 ≤ side }
    requires most { side ≤ 177 }
{
    add_mending(alloc, &buffers.one, side, digest)?;
    add_mending(alloc, &buffers.half, side, digest)?;
    add_mending(alloc, &buffers.bound, side, digest)?;
    add_mending(alloc, &buffers.smudged, side, digest)
}

// Writes the symbol as bytes, draws and reads it, damages copies of it, and mends these copies.
fn add_symbol(
    alloc: Global,
    symbol: &Symbol,
    random: &mut Random,
    buffers: &mut Buffers,
    digest: &mut Digest,
) -> Result<(), AllocError> {
    let side = symbol.matrix.side();
    if buffers.sound.len() < area(side) {
        return Ok(());
    }
    write_square(&symbol.matrix, 0, &mut buffers.sound);
    digest.add(u64::from(symbol.mask));
    digest.add_bytes(&buffers.sound[..area(side)]);
    add_sound(alloc, &buffers.sound, side, digest)?;
    damage(alloc, symbol.version, symbol.level, random, buffers)?;
    add_damaged(alloc, buffers, side, digest)
}

/// Takes symbols of versions 1 to 13, and every sixteenth time a full one of version 20 to 40. Each symbol is encoded,
/// written as bytes, drawn as SVG and as UTF8, and read. Then it is mended four times: with one wrong codeword in each
/// block, with half as many as can be mended, with as many as can be mended, and with a smudge. Drawing, reading and
/// mending begin with the modules as bytes, as the calls of the library do.
pub fn library(
    alloc: Global,
    count: u64,
    seed: u64,
    digest: &mut Digest,
) -> Result<(), AllocError> {
    let mut random = Random::new(seed);
    let mut buffers = Buffers::new(alloc)?;
    for turn in 0..count {
        let made = if turn % 16 == 7 {
            large_symbol(alloc, turn, &mut random)?
        } else {
            small_symbol(alloc, turn, &mut random)?
        };
        if let Some(symbol) = made {
            add_symbol(alloc, &symbol, &mut random, &mut buffers, digest)?;
        }
    }
    Ok(())
}
