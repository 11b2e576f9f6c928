//! Encodes an input as a symbol that may have a logo of a given size. The versions are tried from the least one on, and
//! of each version the levels from the highest one on. The search ends at the first version and level that the input
//! fits and with which the logo is allowed. Which logos are allowed depends on nothing but the version, the level and
//! the share, so no symbol is made before the search has ended.

ghost use Rattle.std.specs.Prelude.{◌≡◌, ◌≢◌, ◌+◌, ◌-◌, ◌<◌, ◌≤◌, ◌↔◌, ◌⊎◌, ℕ, false, [], length, Err, IfErr, IfOk, MatchOption};
ghost use Rattle.qr_bits.specs.Modes.{count_width};
ghost use Rattle.qr_bits.specs.declared.modes.Mode.{Mode};
ghost use Rattle.qr_bits.specs.Interpretation.{InterpretationFits, MayWrite};
ghost use Rattle.qr_symbol.specs.Reading.{IsReadBack};
ghost use Rattle.qr_symbol.specs.VersionChoice.{HasNoVersion, level_rank};
ghost use Rattle.qr_logos.specs.Encoding.{IsLargestCarried, IsLogoSize, IsLogoSymbol};
ghost use Rattle.qr_logos.specs.Logo.{IsAllowed};
ghost use Rattle.qr_logos.specs.Steps.Encoding.{AreLogoFaults, AreNeeded, IsTriedAfter};
ghost use Rattle.qr_logos.specs.declared.fault.LogoFault.{LogoFault};

use crate::fault::LogoFault;
use crate::logo::is_allowed;
use qr_bits::{INPUT_MAX, Writing, bit_len, interpretation_bits, segments};
use qr_layout::{Level, Size, Version};
use qr_symbol::{Asked, Symbol, encode_as};
use std::alloc::Global;

/// A logo that is asked for.
#[derive(Clone, Copy, Debug)]
pub struct Logo {
    /// How many modules the logo has on a side.
    pub side: u8,
    /// The most that the logo may use up of the codewords that can be corrected in a block, in percent.
    pub share: u8,
}

// The most bytes that a symbol can contain. So many fit version 40 at level L if they all are digits (7.4.10, Table 7).
const SYMBOL_BYTES_MAX: usize = 7089;

/// Encodes the input as one symbol that may have the logo, as `largest_logo` says which logos are allowed. The symbol has
/// the least version, from `least.version` on, that the input fits at some level, from `least.level` on, with which the
/// logo is allowed. Of these levels it has the highest. It is the symbol that `encode` makes with exactly this version
/// and level, and the modules under the logo have the colours that they have without it.
///
/// # Errors
///
/// Returns `Empty` exactly if the input has no byte, and `TooLong` if it fits no version from `least.version` on at
/// `least.level`. Returns `Logo` if the input fits, but no version and level that it fits allow the logo. The number in
/// `Logo` is the side of the largest logo that they allow. Returns `Memory` if an allocation is refused before one of
/// these is known, or while the symbol is made. For more than 7,089 bytes `TooLong` is returned before any allocation.
pub fn encode_with_logo(
    alloc: Global,
    input: &[u8],
    least: Size,
    writing: Writing,
    logo: Logo,
) -> Result<Symbol, LogoFault>
    requires short { length input.now ≤ INPUT_MAX }
    requires number { InterpretationFits writing.interpretation }
    requires written { MayWrite writing.interpretation input.now }
    requires share { logo.share ≤ 75 }
    ensures symbol { IfOk result (λ s. IsLogoSymbol least.version least.level writing.rule writing.interpretation input.now
        logo.share logo.side s.version s.level s.mask s.matrix) }
    ensures read { IfOk result (λ s.
        IsReadBack s.version writing.rule writing.interpretation input.now s.matrix) }
    ensures empty { (result ≡ Err LogoFault.Empty) ↔ (input.now ≡ []) }
    ensures too_long { (result ≡ Err LogoFault.TooLong) ↔ ((result ≢ Err LogoFault.Memory)
        × HasNoVersion least.version least.level writing.rule writing.interpretation input.now) }
    ensures long { 7089 < length input.now → result ≡ Err LogoFault.TooLong }
    ensures logo { (n : ℕ) → (result ≡ Err (LogoFault.Logo n)) ↔ ((result ≢ Err LogoFault.Memory) × (input.now ≢ [])
        × IsLargestCarried least.version least.level writing.rule writing.interpretation input.now logo.share n
        × (n < logo.side)) }
    ensures fault { IfErr result (λ e. (e ≡ LogoFault.Empty) ⊎ (e ≡ LogoFault.TooLong)
        ⊎ ((n : ℕ) × (e ≡ LogoFault.Logo n)) ⊎ (e ≡ LogoFault.Memory)) }
{
    let size = size_with_logo(alloc, input, least, writing, logo)?;
    let asked = Asked {
        least: size,
        boost: false,
    };
    Ok(encode_as(alloc, input, asked, writing)?)
}

// The version and the level of the symbol. This function is not inlined, so that its variables are no longer on the
// stack while the symbol is made.
#[inline(never)]
fn size_with_logo(
    alloc: Global,
    input: &[u8],
    least: Size,
    writing: Writing,
    logo: Logo,
) -> Result<Size, LogoFault>
    requires short { length input.now ≤ INPUT_MAX }
    requires written { MayWrite writing.interpretation input.now }
    requires share { logo.share ≤ 75 }
    ensures size { IfOk result (λ s. IsLogoSize least.version least.level writing.rule writing.interpretation input.now
        logo.share logo.side s.version s.level) }
    ensures faults { AreLogoFaults least.version least.level writing.rule writing.interpretation input.now
        logo.share logo.side result }
{
    if input.is_empty() {
        return Err(LogoFault::Empty);
    }
    if input.len() > SYMBOL_BYTES_MAX {
        return Err(LogoFault::TooLong);
    }
    let mut size = Size {
        version: least.version,
        level: Level::H,
    };
    let mut bits = needed_bits(alloc, input, writing, size.version)?;
    // One more than the side of the largest logo that is allowed in the sizes that were tried, or 0 if the input fits
    // none of them. In each size the logo with this side is tried first: if it is not allowed, no larger one is.
    let mut above = 0;
    loop {
        if bits <= size.version.capacity(size.level) {
            above = first_refused(size, logo, above);
            if above > logo.side {
                return Ok(size);
            }
        }
        match size_after(size, least.level) {
            Some(next) => {
                if has_other_widths(size.version, next.version) {
                    bits = needed_bits(alloc, input, writing, next.version)?;
                }
                size = next;
            }
            None => {
                return Err(if above == 0 {
                    LogoFault::TooLong
                } else {
                    LogoFault::Logo(above - 1)
                });
            }
        }
    }
}

// The side of the first logo that is not allowed in this size, of those from `from` on, or one more than the side of the
// logo that is asked for if all up to it are allowed.
fn first_refused(size: Size, logo: Logo, from: u8) -> u8
    requires share { logo.share ≤ 75 }
    requires from { from ≤ logo.side }
    ensures least { from ≤ result }
    ensures most { result ≤ logo.side + 1 }
    ensures allowed { from < result → IsAllowed size.version size.level logo.share (result - 1) }
    ensures refused { result ≤ logo.side → (other : ℕ) → IsAllowed size.version size.level logo.share other → other < result }
{
    let mut side = from;
    while side <= logo.side {
        if !is_allowed(size.version, size.level, logo.share, side) {
            break;
        }
        side += 1;
    }
    side
}

// The number of bits that the input takes in this version, with the ECI header or FNC1 of the interpretation.
fn needed_bits(
    alloc: Global,
    input: &[u8],
    writing: Writing,
    version: Version,
) -> Result<u64, LogoFault>
    requires short { length input.now ≤ INPUT_MAX }
    requires written { MayWrite writing.interpretation input.now }
    ensures bits { IfOk result (λ n. AreNeeded writing.rule writing.interpretation input.now version n) }
    ensures fault { IfErr result (λ e. e ≡ LogoFault.Memory) }
{
    let segmented = segments(alloc, input, version, writing.rule, writing.interpretation)?;
    Ok(interpretation_bits(writing.interpretation) + bit_len(&segmented.segments, version))
}

// Whether character count indicators have other widths in `version` than in `before`, which is the version before it or
// the same version. Their widths change only after versions 9 and 26 (7.4.1, Table 3).
fn has_other_widths(before: Version, version: Version) -> bool
    requires { (before ≤ version) × (version ≤ before + 1) }
    ensures { result ≡ false → (m : Mode) → count_width version m ≡ count_width before m }
{
    version != before && matches!(before.number(), 9 | 26)
}

// The size that is tried after `size`, if there is one: the next lower level, or after the lowest level that is asked for
// the highest level of the next version.
fn size_after(size: Size, lowest: Level) -> Option<Size>
    requires { level_rank lowest ≤ level_rank size.level }
    ensures { MatchOption result ((size.version ≡ 40) × (size.level ≡ lowest))
        (λ next. IsTriedAfter lowest size next) }
{
    if size.level == lowest {
        let version = Version::new(size.version.number() + 1)?;
        return Some(Size {
            version,
            level: Level::H,
        });
    }
    let level = match size.level {
        Level::H => Level::Q,
        Level::Q => Level::M,
        Level::M | Level::L => Level::L,
    };
    Some(Size {
        version: size.version,
        level,
    })
}
