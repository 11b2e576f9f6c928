//! The sheets of SVG documents. The size of a document is among the numbers in its text. The sheet has a byte for each
//! module. All these bytes are 0 at first, and then the boxes are painted: the bytes of their modules become 1. The
//! path begins at the first `M`. A box is `M`, its column, its row, `h`, its number of modules, `v1h-`, the number of
//! modules again, and `z`. Only the first three numbers of a box are read. All other bytes are checked when the drawing
//! is made again.

ghost use Rattle.std.specs.Prelude.{◌≡◌, ℕ, ◌<◌, ◌≤◌, ◌+◌, ◌*◌, ◌/◌, ◌%◌, ◌^◌, ◌==◌, ◌&&◌, ◌∷◌, ◌++◌, [], List, false, decimal, drop, nat_le, nat_lt, if◌then◌else◌, length, slice_index_or, IfOk, IfSome, MatchOption};
ghost use Rattle.qr_parsing.specs.Steps.Sheet.{HasNoSheet, count_in, kind_in, width_in};
ghost use Rattle.qr_parsing.specs.Steps.Svg.{IsPath, is_digit, is_in_boxes, numbers_in, painted_bytes, path_in};
ghost use Rattle.qr_drawing.specs.declared.drawing.Drawing.TheVariants.{Svg};

use crate::sheet::{COUNT_MAX, SIDE_MIN, WIDTH_MAX};
use crate::text::position_of;
use std::alloc::{AllocError, Global};

// The index of the document's width among the numbers in its text. The numbers before it are in the version of XML (1,
// 0), the encoding (8), the namespace of SVG (3, 2000), the version of SVG (1, 1) and the corner of the document (0,
// 0). The number after the width is the height.
const WIDTH: usize = 9;

// Each greater number is read as this one, which occurs in no drawing.
const NUMBER_MAX: u32 = 99_999;

// Returns the first decimal number in a text, and the text after the byte that follows this number; a number at the
// very end of the text is not returned. The label of the loop is for the prover.
#[tactic(auto, unfolding(crate::specs::Steps::Svg::numbers_after))]
fn next_number(text: &[u8]) -> Option<(u32, &[u8])>
    ensures small { IfSome result (λ s. s.0 ≤ NUMBER_MAX) }
    ensures shorter { IfSome result (λ s. length s.1.now < length text.now) }
    ensures reads { MatchOption result (numbers_in text.now ≡ [])
        (λ s. numbers_in text.now ≡ s.0 ∷ numbers_in s.1.now) }
{
    let mut rest = text;
    let mut number = 0;
    let mut inside = false;
    'bytes: while let Some((byte, after)) = rest.split_first() {
        rest = after;
        if *byte >= b'0' && *byte <= b'9' {
            number = (number * 10 + u32::from(*byte - b'0')).min(NUMBER_MAX);
            inside = true;
        } else if inside {
            return Some((number, rest));
        }
    }
    None
}

// Returns the text after the first `count` numbers, or an empty text if there are fewer.
fn after_numbers(text: &[u8], count: usize) -> &[u8]
    ensures { numbers_in result.now ≡ drop count (numbers_in text.now) }
{
    let mut rest = text;
    for _ in 0..count {
        let Some((_, after)) = next_number(rest) else {
            return &[];
        };
        rest = after;
    }
    rest
}

// Returns the number with the index `index` among the numbers of a text, or 0 if there are fewer.
fn number_at(text: &[u8], index: usize) -> usize
    ensures { result ≡ slice_index_or (numbers_in text.now) index 0 }
{
    match next_number(after_numbers(text, index)) {
        Some((number, _)) => number as usize,
        None => 0,
    }
}

/// A document's width and height in modules, and its number of rasters.
#[derive(Drop)]
pub(crate) struct Size {
    pub(crate) width: usize,
    pub(crate) height: usize,
    pub(crate) count: usize,
}

/// Returns the size of a document. A drawing has at most 16 rasters, each as high as it is wide. So if the document is
/// at least 17 times as high as it is wide, or if its width is out of range, the result is `None`.
pub(crate) fn size_in(text: &[u8]) -> Option<Size>
    requires { kind_in text.now ≡ Svg }
    ensures small { IfSome result (λ s. (SIDE_MIN ≤ s.width) × (s.width ≤ WIDTH_MAX) × (s.height < (COUNT_MAX + 1) * WIDTH_MAX)) }
    ensures size { MatchOption result (HasNoSheet text.now)
        (λ s. (s.width ≡ width_in Svg text.now) × (s.count ≡ count_in Svg text.now)
        × (s.height ≡ slice_index_or (numbers_in text.now) 10 0)) }
{
    let width = number_at(text, WIDTH);
    let height = number_at(text, WIDTH + 1);
    if width < SIDE_MIN || width > WIDTH_MAX {
        return None;
    }
    let count = height / width;
    if count > COUNT_MAX {
        return None;
    }
    Some(Size {
        width,
        height,
        count,
    })
}

// Reads the decimal number that begins at index `at`. Returns the number, and the index after the byte that follows it.
// If there is no digit at `at`, the number is 0. Returns `None` if the number has more than five digits, or if fewer
// than six bytes are left from `at` on. Neither happens at a number of a box of a drawing.
#[inline(always)]
fn number_after(text: &[u8], at: usize) -> Option<(u32, usize)>
    requires { at ≤ length text.now }
    ensures within { IfSome result (λ s. (at < s.1) × (s.1 ≤ length text.now)) }
    ensures reads { (n byte : ℕ) (rest : List ℕ) → n ≤ NUMBER_MAX → is_digit byte ≡ false → 4 ≤ length rest
        → drop at text.now ≡ decimal n ++ byte ∷ rest
        → MatchOption result ⊥ (λ s. (s.0 ≡ n) × (drop s.1 text.now ≡ rest)) }
{
    if at + 6 > text.len() {
        return None;
    }
    let mut number = 0;
    for i in 0..6usize {
        // This is above 9 if the byte is no digit.
        let digit = text[at + i].wrapping_sub(b'0');
        if digit > 9 {
            return Some((number, at + i + 1));
        }
        number = number * 10 + u32::from(digit);
    }
    None
}

#[derive(Clone, Copy)]
struct DarkBox {
    x: u32,
    y: u32,
    modules: u32,
}

// Returns the box that begins at index `at`, and the index after the box.
fn box_at(text: &[u8], at: usize) -> Option<(DarkBox, usize)>
    requires { at ≤ length text.now }
    ensures within { IfSome result (λ s. (at < s.1) × (s.1 ≤ length text.now)) }
    ensures reads { (numbers : List ℕ) → IsPath numbers (drop at text.now)
        → MatchOption result (numbers ≡ []) (λ s. (high back : ℕ) × (more : List ℕ)
        × (numbers ≡ s.0.x ∷ s.0.y ∷ s.0.modules ∷ high ∷ back ∷ more) × IsPath more (drop s.1 text.now)) }
{
    // At a box at least seven bytes are left: the `M`, and the six that `number_after` needs.
    if at + 7 > text.len() || text[at] != b'M' {
        return None;
    }
    let (x, after_x) = number_after(text, at + 1)?;
    let (y, after_y) = number_after(text, after_x)?;
    let (modules, after_modules) = number_after(text, after_y)?;
    // `number_after` has passed the `v`. What is left of the box is `1h-`, the number of modules again, and `z`.
    let back = if modules < 10 {
        5
    } else if modules < 100 {
        6
    } else {
        7
    };
    if after_modules + back > text.len() {
        return None;
    }
    Some((DarkBox { x, y, modules }, after_modules + back))
}

// Paints a box. `bytes` has `height` rows of `width` modules, a byte for each module. Modules of the box outside these
// rows and columns are left out.
fn paint(bytes: &mut [u8], width: usize, height: usize, dark: DarkBox)
    requires area { length bytes.old ≡ width * height }
    requires some { 0 < width }
    requires wide { width ≤ WIDTH_MAX }
    requires high { height ≤ NUMBER_MAX }
    ensures { (i : ℕ) → i < length bytes.old → slice_index_or bytes.new i 0
        ≡ (if i / width == dark.y && (nat_le dark.x (i % width) && nat_lt (i % width) (dark.x + dark.modules)) then 1
        else slice_index_or bytes.old i 0) }
{
    let (x, y, modules) = (dark.x as usize, dark.y as usize, dark.modules as usize);
    if y < height {
        let end = (x + modules).min(width);
        // Three out of four runs of dark modules have only one or two modules. The first two modules are written before
        // the loop, because the compiler turns the loop into a call that fills memory. The short runs then need no such
        // call.
        if x < end {
            bytes[y * width + x] = 1;
            if x + 1 < end {
                bytes[y * width + (x + 1)] = 1;
                for col in x + 2..end {
                    bytes[y * width + col] = 1;
                }
            }
        }
    }
}

// Paints all boxes. The label of the loop is for the prover.
fn paint_all(bytes: &mut [u8], width: usize, height: usize, text: &[u8])
    requires area { length bytes.old ≡ width * height }
    requires some { 0 < width }
    requires wide { width ≤ WIDTH_MAX }
    requires high { height ≤ NUMBER_MAX }
    ensures { (numbers : List ℕ) → IsPath numbers (path_in text.now) → (i : ℕ) → i < length bytes.old
        → slice_index_or bytes.new i 0
        ≡ (if is_in_boxes numbers (i / width) (i % width) then 1 else slice_index_or bytes.old i 0) }
{
    let mut at = position_of(text, b'M');
    'boxes: while let Some((dark, after)) = box_at(text, at) {
        paint(bytes, width, height, dark);
        at = after;
    }
}

/// Returns the painted bytes of a document, which are those of its sheet: a byte for each module, 1 for a dark one.
pub(crate) fn painted_bytes(
    alloc: Global,
    width: usize,
    height: usize,
    text: &[u8],
) -> Result<Vec<u8>, AllocError>
    requires some { 0 < width }
    requires wide { width ≤ WIDTH_MAX }
    requires high { height ≤ NUMBER_MAX }
    ensures area { IfOk result (λ bytes. length bytes.items ≡ width * height) }
    ensures painted { (numbers : List ℕ) → IsPath numbers (path_in text.now)
        → IfOk result (λ bytes. bytes.items ≡ painted_bytes width height numbers) }
{
    let mut bytes = vec![in alloc; 0u8; width * height]?;
    paint_all(&mut bytes, width, height, text);
    Ok(bytes)
}
