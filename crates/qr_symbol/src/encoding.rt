//! Encodes an input as one symbol (ISO/IEC 18004:2015, 7.1). The version of the symbol and the segments of the input
//! are found first (`version_choice.rt`). The segments are written as data codewords, and from these the final sequence
//! is made, which also has the error correction codewords (`interleaving.rt`). Then the symbol is drawn on a canvas
//! (`canvas.rt`). A canvas has two squares: one shows the region, and the other has the function patterns, to which the
//! codewords are added.

ghost use Rattle.std.specs.Prelude.{◌≡◌, ◌≢◌, ◌+◌, ◌<◌, ◌≤◌, ◌↔◌, ◌⊎◌, ℕ, true, false, List, [], length, Err, IfOk, IfErr, MatchResult};
ghost use Rattle.std.specs.Option.{ForSome};
ghost use Rattle.std.specs.Cow.{cow_slice_items};
ghost use Rattle.qr_bits.specs.declared.modes.Rule.{Rule};
ghost use Rattle.qr_bits.specs.Segmentation.{bits, Covers, IsLeastSegmentation};
ghost use Rattle.qr_bits.specs.Padding.{IsData, capacity_of};
ghost use Rattle.qr_bits.specs.declared.interpretation.Interpretation.{Interpretation};
ghost use Rattle.qr_bits.specs.Header.{header_bits};
ghost use Rattle.qr_bits.specs.Interpretation.{interpretation_bits, InterpretationFits, MayWrite};
ghost use Rattle.qr_symbol.specs.declared.fault.EncodeFault.{EncodeFault};
ghost use Rattle.qr_symbol.specs.Reading.{IsReadBack};
ghost use Rattle.qr_symbol.specs.Encoding.{IsBoostedSymbol, IsSymbol};
ghost use Rattle.qr_symbol.specs.Interleaving.{IsInterleaved};
ghost use Rattle.qr_layout.specs.declared.level.Level.{Level};
ghost use Rattle.qr_symbol.specs.VersionChoice.{HasNoVersion, level_rank};
ghost use Rattle.qr_symbol.specs.Series.{IsSymbolOf};

use crate::canvas::Canvas;
use crate::fault::EncodeFault;
use crate::interleaving::interleave;
use crate::mask::build_on;
use crate::symbol::Symbol;
use crate::version_choice::{Fit, highest_with_room, least_fit, needed_bits};
use qr_bits::{Header, INPUT_MAX, Interpretation, Rule, Segmented, Writing, codewords};
use qr_layout::{Level, Size, Version};
use std::alloc::Global;

/// What is asked of a symbol.
#[derive(Clone, Copy, Debug)]
pub struct Asked {
    /// The least version that the symbol may have, and its level, or the lowest level if `boost` is true.
    pub least: Size,
    /// Whether the symbol gets the highest level at which the input fits its version.
    pub boost: bool,
}

/// Encodes the input as one symbol of the least version, from `smallest` on, that it fits (ISO/IEC 18004:2015, 7.1).
/// `interpretation` is what the symbol says of its bytes: their ECI, that they are GS1 data, or nothing. The segments
/// are those of fewest bits in the modes that `rule` allows, and the codewords are those that the standard requires for
/// these segments. The mask is the one with the least penalty, and of several such masks the smallest.
///
/// Reading the symbol back yields exactly the input and the segments of which the symbol was made. For this the mask is
/// undone, the codewords are read in the standard's order and deinterleaved, and the data codewords are parsed.
///
/// # Errors
///
/// Returns `Empty` exactly if the input has no byte, and `TooLong` if it fits no version from `smallest` on. Returns
/// `Memory` if an allocation is refused before it is known whether the input fits, or while the symbol is made. For
/// more than 7,089 bytes `TooLong` is returned before any allocation.
///
/// # Notes
///
/// The order of the parameters differs: the level comes before the version here, and after it in `encode_series`.
pub fn encode(
    alloc: Global,
    input: &[u8],
    level: Level,
    smallest: Version,
    rule: Rule,
    interpretation: Interpretation,
) -> Result<Symbol, EncodeFault>
    requires short { length input.now ≤ INPUT_MAX }
    requires number { InterpretationFits interpretation }
    requires written { MayWrite interpretation input.now }
    ensures symbol { IfOk result (λ s. IsSymbol smallest level rule interpretation input.now
        s.version s.mask s.matrix) }
    ensures level { IfOk result (λ s. s.level ≡ level) }
    ensures read { IfOk result (λ s.
        IsReadBack s.version rule interpretation input.now s.matrix) }
    ensures empty { (result ≡ Err EncodeFault.Empty) ↔ (input.now ≡ []) }
    ensures too_long { (result ≡ Err EncodeFault.TooLong)
        ↔ ((result ≢ Err EncodeFault.Memory)
        × HasNoVersion smallest level rule interpretation input.now) }
    ensures long { 7089 < length input.now → result ≡ Err EncodeFault.TooLong }
    ensures fault { IfErr result (λ e. (e ≡ EncodeFault.Empty) ⊎ (e ≡ EncodeFault.TooLong)
        ⊎ (e ≡ EncodeFault.Memory)) }
{
    let least = Size {
        version: smallest,
        level,
    };
    let asked = Asked {
        least,
        boost: false,
    };
    let writing = Writing {
        rule,
        interpretation,
    };
    encode_as(alloc, input, asked, writing)
}

/// Encodes the input as one symbol, as `encode` does, which calls this function with `boost` set to false. If `boost`
/// is true, the level of `asked.least` is only the lowest level that the symbol may have. The symbol then has the
/// version that it has without `boost`, and the highest level at which the input fits this version. So it has no more
/// modules than without `boost`, and as much error correction as there is room for.
///
/// # Errors
///
/// Returns the same faults as `encode`.
pub fn encode_as(
    alloc: Global,
    input: &[u8],
    asked: Asked,
    writing: Writing,
) -> Result<Symbol, EncodeFault>
    requires short { length input.now ≤ INPUT_MAX }
    requires number { InterpretationFits writing.interpretation }
    requires written { MayWrite writing.interpretation input.now }
    ensures symbol { IfOk result (λ s. asked.boost ≡ false → (s.level ≡ asked.least.level)
        × IsSymbol asked.least.version asked.least.level writing.rule writing.interpretation input.now
        s.version s.mask s.matrix) }
    ensures boosted { IfOk result (λ s. asked.boost ≡ true
        → IsBoostedSymbol asked.least.version asked.least.level writing.rule writing.interpretation input.now
        s.version s.level s.mask s.matrix) }
    ensures read { IfOk result (λ s.
        IsReadBack s.version writing.rule writing.interpretation input.now s.matrix) }
    ensures empty { (result ≡ Err EncodeFault.Empty) ↔ (input.now ≡ []) }
    ensures too_long { (result ≡ Err EncodeFault.TooLong) ↔ ((result ≢ Err EncodeFault.Memory)
        × HasNoVersion asked.least.version asked.least.level writing.rule writing.interpretation input.now) }
    ensures long { 7089 < length input.now → result ≡ Err EncodeFault.TooLong }
    ensures fault { IfErr result (λ e. (e ≡ EncodeFault.Empty) ⊎ (e ≡ EncodeFault.TooLong)
        ⊎ (e ≡ EncodeFault.Memory)) }
{
    let fit = least_fit(alloc, input, asked.least, writing)?;
    let level = level_for(asked, &fit, writing.interpretation);
    let size = Size {
        version: fit.version,
        level,
    };
    let filling = Filling {
        segmented: fit.segmented,
        header: None,
        interpretation: writing.interpretation,
    };
    symbol_at(alloc, &filling, size)
}

// The level of the symbol: the one that is asked for, or with `boost` the highest level, from this one on, at which the
// version has room for the segments.
fn level_for(asked: Asked, fit: &Fit<'_>, interpretation: Interpretation) -> Level
    requires covered { Covers (cow_slice_items fit.now.segmented.characters) fit.now.segmented.segments.items }
    requires short { length (cow_slice_items fit.now.segmented.characters) ≤ INPUT_MAX }
    requires room { interpretation_bits interpretation + bits fit.now.version fit.now.segmented.segments.items
        ≤ capacity_of fit.now.version asked.least.level }
    ensures same { asked.boost ≡ false → result ≡ asked.least.level }
    ensures least { level_rank asked.least.level ≤ level_rank result }
    ensures room { interpretation_bits interpretation + bits fit.now.version fit.now.segmented.segments.items
        ≤ capacity_of fit.now.version result }
    ensures highest { asked.boost ≡ true → (m : Level) → level_rank result < level_rank m
        → capacity_of fit.now.version m
        < interpretation_bits interpretation + bits fit.now.version fit.now.segmented.segments.items }
{
    if !asked.boost {
        return asked.least.level;
    }
    let bits = needed_bits(&fit.segmented, interpretation, fit.version);
    highest_with_room(fit.version, asked.least.level, bits)
}

// What the data codewords of a symbol contain. If there is a header, the symbol belongs to a series (7.1, 8.1).
#[derive(Drop)]
pub(crate) struct Filling<'a> {
    pub segmented: Segmented<'a>,
    pub header: Option<Header>,
    pub interpretation: Interpretation,
}

// Makes the symbol on a canvas of its own (7.1).
pub(crate) fn symbol_at(
    alloc: Global,
    filling: &Filling<'_>,
    size: Size,
) -> Result<Symbol, EncodeFault>
    requires covered { Covers (cow_slice_items filling.now.segmented.characters) filling.now.segmented.segments.items }
    requires in_range { ForSome filling.now.header (λ h. (h.position < 16) × (h.last < 16)) }
    requires number { InterpretationFits filling.now.interpretation }
    requires room { header_bits filling.now.header + interpretation_bits filling.now.interpretation
        + bits size.version filling.now.segmented.segments.items ≤ capacity_of size.version size.level }
    ensures { MatchResult result
        (λ s. (r : Rule) (x : List ℕ) → IsLeastSegmentation filling.now.interpretation size.version r x
        (cow_slice_items filling.now.segmented.characters) filling.now.segmented.segments.items
        → IsSymbolOf size.version size.level r filling.now.interpretation x filling.now.header s)
        (λ e. e ≡ EncodeFault.Memory) }
{
    let mut canvas = Canvas::new(alloc, size.version, size.level)?;
    symbol_on(alloc, &mut canvas, filling)
}

// The data codewords of the symbol (7.4). This function is not inlined, so that its variables are no longer on the
// stack while error correction codewords are computed.
#[inline(never)]
fn data_codewords(alloc: Global, filling: &Filling<'_>, size: Size) -> Result<Vec<u8>, EncodeFault>
    requires covered { Covers (cow_slice_items filling.now.segmented.characters) filling.now.segmented.segments.items }
    requires in_range { ForSome filling.now.header (λ h. (h.position < 16) × (h.last < 16)) }
    requires number { InterpretationFits filling.now.interpretation }
    requires room { header_bits filling.now.header + interpretation_bits filling.now.interpretation
        + bits size.version filling.now.segmented.segments.items ≤ capacity_of size.version size.level }
    ensures { MatchResult result
        (λ message. IsData size.version size.level (cow_slice_items filling.now.segmented.characters)
        filling.now.segmented.segments.items filling.now.header filling.now.interpretation message.items)
        (λ e. e ≡ EncodeFault.Memory) }
{
    // Only for the prover, which concludes that the symbol contains at most 7,089 characters.
    prove!(size.version.number() <= 40);
    Ok(codewords(
        alloc,
        &filling.segmented,
        filling.header,
        filling.interpretation,
        size.version,
        size.level,
    )?)
}

// The final sequence of the symbol (7.4 to 7.6). This function is not inlined. So the data codewords are freed, and the
// variables of this function are off the stack, before the symbol is drawn.
#[inline(never)]
fn final_codewords(alloc: Global, filling: &Filling<'_>, size: Size) -> Result<Vec<u8>, EncodeFault>
    requires covered { Covers (cow_slice_items filling.now.segmented.characters) filling.now.segmented.segments.items }
    requires in_range { ForSome filling.now.header (λ h. (h.position < 16) × (h.last < 16)) }
    requires number { InterpretationFits filling.now.interpretation }
    requires room { header_bits filling.now.header + interpretation_bits filling.now.interpretation
        + bits size.version filling.now.segmented.segments.items ≤ capacity_of size.version size.level }
    ensures { MatchResult result
        (λ cw. (message : List ℕ) × IsData size.version size.level (cow_slice_items filling.now.segmented.characters)
        filling.now.segmented.segments.items filling.now.header filling.now.interpretation message
        × IsInterleaved size.version size.level message cw.items)
        (λ e. e ≡ EncodeFault.Memory) }
{
    let (version, level) = (size.version, size.level);
    let message = data_codewords(alloc, filling, size)?;
    Ok(interleave(alloc, version, level, &message)?)
}

// Makes the symbol on the given canvas, with the version and the level of this canvas (7.1, 8.1).
pub(crate) fn symbol_on(
    alloc: Global,
    canvas: &mut Canvas,
    filling: &Filling<'_>,
) -> Result<Symbol, EncodeFault>
    requires covered { Covers (cow_slice_items filling.now.segmented.characters) filling.now.segmented.segments.items }
    requires in_range { ForSome filling.now.header (λ h. (h.position < 16) × (h.last < 16)) }
    requires number { InterpretationFits filling.now.interpretation }
    requires room { header_bits filling.now.header + interpretation_bits filling.now.interpretation
        + bits canvas.old.version filling.now.segmented.segments.items
        ≤ capacity_of canvas.old.version canvas.old.level }
    ensures kept_version { canvas.new.version ≡ canvas.old.version }
    ensures kept_level { canvas.new.level ≡ canvas.old.level }
    ensures made { MatchResult result
        (λ s. (r : Rule) (x : List ℕ) → IsLeastSegmentation filling.now.interpretation canvas.old.version r x
        (cow_slice_items filling.now.segmented.characters) filling.now.segmented.segments.items
        → IsSymbolOf canvas.old.version canvas.old.level r filling.now.interpretation x filling.now.header s)
        (λ e. e ≡ EncodeFault.Memory) }
{
    let size = Size {
        version: canvas.version,
        level: canvas.level,
    };
    let codewords = final_codewords(alloc, filling, size)?;
    build_on(alloc, canvas, &codewords)
}
