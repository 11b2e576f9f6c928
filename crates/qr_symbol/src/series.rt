//! Encodes an input as a series of symbols, the standard's Structured Append (ISO/IEC 18004:2015, 8). The input is cut
//! into parts first, and then a symbol is made of each part.

ghost use Rattle.std.specs.Prelude.{◌≡◌, ◌≢◌, ◌-◌, ◌<◌, ◌≤◌, ◌↔◌, ◌⊎◌, ℕ, false, List, [], length, None, Err, IfOk, IfErr, MatchOption, MatchResult};
ghost use Rattle.qr_bits.specs.declared.modes.Rule.{Rule};
ghost use Rattle.qr_bits.specs.declared.interpretation.Interpretation.{Interpretation};
ghost use Rattle.qr_bits.specs.Interpretation.{InterpretationFits, MayWrite};
ghost use Rattle.qr_bits.specs.declared.modes.Mode.{Mode};
ghost use Rattle.qr_bits.specs.Modes.{may_use};
ghost use Rattle.qr_bits.specs.Header.{parity_of};
ghost use Rattle.qr_symbol.specs.declared.fault.EncodeFault.{EncodeFault};
ghost use Rattle.qr_symbol.specs.VersionChoice.{FitsVersion};
ghost use Rattle.qr_symbol.specs.Series.{squares_of, AreParts, NeedsParts, IsSymbolOf, AreSymbolsFrom, IsSeries, HasNoSeries};
ghost use Rattle.qr_symbol.specs.Joining.{AreInterpreted, IsJoined};
ghost use Rattle.qr_symbol.specs.Steps.Series.{AreLengths, parts_of};

use crate::canvas::Canvas;
use crate::encoding::{Filling, symbol_at, symbol_on};
use crate::fault::EncodeFault;
use crate::symbol::Symbol;
use crate::version_choice::{SYMBOL_BYTES_MAX, needed_bits};
use arrayvec::ArrayVec;
use qr_bits::{
    Header, INPUT_MAX, Interpretation, Rule, Writing, interpretation_bits, least_bits,
    longest_part, parity, segments,
};
use qr_layout::{Level, Size, Version};
use std::alloc::Global;

/// Encodes the input as a series of at most 16 symbols of one version and level (ISO/IEC 18004:2015, 8). An input that
/// fits one symbol without a structured append header is encoded as this one symbol. Any other input is cut into parts.
/// Each part is the longest prefix of the remaining input that fits a symbol with a header, even if some shorter prefix
/// does not fit.
///
/// Each header has the parity data of the whole input. The symbols, read and joined, yield exactly the input, and each
/// symbol is read with the interpretation of the input. Without kanji mode the series is the shortest possible: the
/// input cannot be cut into fewer parts that fit.
///
/// # Errors
///
/// Returns `Empty` exactly if the input has no byte, and `TooMany` if the input would be cut into more than 16 parts.
/// Returns `Memory` if an allocation is refused before the number of parts is known, or while symbols are made. Without
/// kanji mode, `TooMany` means that the input cannot be cut in any way into 16 or fewer parts that fit.
///
/// # Notes
///
/// A prefix that ends between the two bytes of a kanji may take more bits than a longer prefix.
pub fn encode_series(
    alloc: Global,
    input: &[u8],
    v: Version,
    level: Level,
    rule: Rule,
    interpretation: Interpretation,
) -> Result<Vec<Symbol>, EncodeFault>
    requires short { length input.now ≤ INPUT_MAX }
    requires number { InterpretationFits interpretation }
    requires written { MayWrite interpretation input.now }
    ensures series { IfOk result (λ ss. IsSeries v level rule interpretation input.now ss.items) }
    ensures joined { IfOk result (λ ss. IsJoined (squares_of ss.items) input.now) }
    ensures interpreted { IfOk result (λ ss. AreInterpreted interpretation (squares_of ss.items)) }
    ensures shortest { IfOk result (λ ss. may_use rule Mode.Kanji ≡ false
        → NeedsParts v level rule interpretation input.now (length ss.items)) }
    ensures empty { (result ≡ Err EncodeFault.Empty) ↔ (input.now ≡ []) }
    ensures too_many { (result ≡ Err EncodeFault.TooMany)
        ↔ ((result ≢ Err EncodeFault.Memory) × HasNoSeries v level rule interpretation input.now) }
    ensures no_shorter { result ≡ Err EncodeFault.TooMany → may_use rule Mode.Kanji ≡ false
        → NeedsParts v level rule interpretation input.now 17 }
    ensures fault { IfErr result (λ e. (e ≡ EncodeFault.Empty) ⊎ (e ≡ EncodeFault.TooMany)
        ⊎ (e ≡ EncodeFault.Memory)) }
{
    if input.is_empty() {
        return Err(EncodeFault::Empty);
    }
    let writing = Writing {
        rule,
        interpretation,
    };
    if let Some(symbol) = plain_symbol(alloc, input, Size { version: v, level }, writing)? {
        let mut symbols = Vec::new(alloc);
        symbols.push(symbol)?;
        return Ok(symbols);
    }
    let lengths = part_lengths(input, Size { version: v, level }, writing)?;
    let mut canvas = Canvas::new(alloc, v, level)?;
    symbols_on(alloc, &mut canvas, input, lengths.as_slice(), writing)
}

// The symbol without a structured append header, or `None` if the input does not fit such a symbol. Before the input is
// cut into segments, its number of bytes, or a lower bound on its number of bits, may already show that it does not
// fit. If only byte mode is allowed, the bound is not computed: the input then becomes a single segment, which takes no
// time to find.
fn plain_symbol(
    alloc: Global,
    input: &[u8],
    size: Size,
    writing: Writing,
) -> Result<Option<Symbol>, EncodeFault>
    requires short { length input.now ≤ INPUT_MAX }
    requires number { InterpretationFits writing.interpretation }
    requires written { MayWrite writing.interpretation input.now }
    ensures { MatchResult result (λ found. MatchOption found
        (FitsVersion size.version size.level writing.rule writing.interpretation input.now → ⊥)
        (λ s. IsSymbolOf size.version size.level writing.rule writing.interpretation input.now None s))
        (λ e. e ≡ EncodeFault.Memory) }
{
    if input.len() > SYMBOL_BYTES_MAX {
        return Ok(None);
    }
    let capacity = size.version.capacity(size.level);
    if !matches!(writing.rule, Rule::BytesOnly)
        && u64::from(least_bits(input)) + interpretation_bits(writing.interpretation) > capacity
    {
        return Ok(None);
    }
    let segmented = segments(
        alloc,
        input,
        size.version,
        writing.rule,
        writing.interpretation,
    )?;
    let filling = Filling {
        segmented,
        header: None,
        interpretation: writing.interpretation,
    };
    let needed = needed_bits(&filling.segmented, filling.interpretation, size.version);
    if needed > capacity {
        return Ok(None);
    }
    let symbol = symbol_at(alloc, &filling, size)?;
    Ok(Some(symbol))
}

// The numbers of bytes of the parts into which the input is cut. No symbol contains more than 7,089 bytes. So for each
// part only the first 7,089 bytes of the remaining input are examined.
fn part_lengths(
    input: &[u8],
    size: Size,
    writing: Writing,
) -> Result<ArrayVec<usize, 16>, EncodeFault>
    requires short { length input.now ≤ INPUT_MAX }
    requires written { MayWrite writing.interpretation input.now }
    ensures { MatchResult result
        (λ ns. AreLengths size.version size.level writing.rule writing.interpretation input.now ns.items)
        (λ e. (e ≡ EncodeFault.TooMany) × ((ps : List (List ℕ))
        → AreParts size.version size.level writing.rule writing.interpretation input.now ps → 16 < length ps)) }
{
    let Size { version, level } = size;
    let mut lengths = ArrayVec::new();
    let mut rest = input;
    while !rest.is_empty() {
        if lengths.is_full() {
            return Err(EncodeFault::TooMany);
        }
        let most = &rest[..rest.len().min(SYMBOL_BYTES_MAX)];
        let len = longest_part(most, Size { version, level }, writing);
        lengths.push(len);
        let (_, after) = rest.split_at(len);
        rest = after;
    }
    Ok(lengths)
}

// Draws the symbols of all parts on one canvas, so that the function patterns and the region are drawn once (8.1 to
// 8.3). `lengths` are the numbers of bytes of the parts.
fn symbols_on(
    alloc: Global,
    canvas: &mut Canvas,
    input: &[u8],
    lengths: &[usize],
    writing: Writing,
) -> Result<Vec<Symbol>, EncodeFault>
    requires short { length input.now ≤ INPUT_MAX }
    requires number { InterpretationFits writing.interpretation }
    requires written { MayWrite writing.interpretation input.now }
    requires parts { AreLengths canvas.old.version canvas.old.level writing.rule writing.interpretation input.now
        lengths.now }
    requires some { 0 < length lengths.now }
    requires few { length lengths.now ≤ 16 }
    ensures { MatchResult result (λ ss. AreSymbolsFrom canvas.old.version canvas.old.level writing.rule
        writing.interpretation (length lengths.now - 1) (parity_of input.now) 0 (parts_of input.now lengths.now)
        ss.items) (λ e. e ≡ EncodeFault.Memory) }
{
    let version = canvas.version;
    // Only for the prover.
    prove!(version.number() <= 40);
    let last = (lengths.len() - 1) as u8;
    let parity = parity(input);
    let mut symbols = Vec::with_capacity(alloc, lengths.len())?;
    let mut rest = input;
    for len in lengths {
        let (part, after) = rest.split_at(*len);
        let header = Header {
            position: symbols.len() as u8,
            last,
            parity,
        };
        let segmented = segments(alloc, part, version, writing.rule, writing.interpretation)?;
        let filling = Filling {
            segmented,
            header: Some(header),
            interpretation: writing.interpretation,
        };
        let symbol = symbol_on(alloc, canvas, &filling)?;
        symbols.push(symbol)?;
        rest = after;
    }
    Ok(symbols)
}
