//! An example of a crate of your own that uses `qr_symbol`. It makes labels. A label is a text: a drawing of a symbol,
//! and below it the words that the symbol contains. The contract of `label` determines every character of the label.
#![tactic(auto)]

ghost use Rattle.std.specs.Prelude.{◌≡◌, ◌≢◌, ◌<◌, ◌≤◌, ◌↔◌, ◌⊎◌, ◌++◌, [], length, Err, IfErr, IfOk, IsOk};
ghost use Rattle.qr_bits.specs.declared.modes.Rule.{Rule};
ghost use Rattle.qr_bits.specs.declared.interpretation.Interpretation.{Interpretation};
ghost use Rattle.qr_symbol.specs.declared.fault.EncodeFault.{EncodeFault};
ghost use Rattle.qr_symbol.specs.VersionChoice.{HasNoVersion};
ghost use Rattle.example_label.specs.Label.{IsLabel, character_of, line_of_row};

use qr_symbol::{EncodeFault, INPUT_MAX, Interpretation, Level, Matrix, Rule, Version, encode};
use std::alloc::{AllocError, Global};

/// Returns the label of `words`, which may have at most 113,425 bytes. The label has a line of text for each row of
/// modules, with `#` for a dark module and a space for a light one, and then a line with `words`. The symbol has the
/// level `level` and the least version that `words` fits, from `smallest` on. The label has no quiet zone, so the paper
/// around it has to be light.
///
/// # Errors
///
/// `Empty` if `words` is empty, `TooLong` if it fits no version from `smallest` on, and `Memory` if memory is refused.
/// No version holds more than 7,089 bytes.
pub fn label(
    alloc: Global,
    words: &[u8],
    level: Level,
    smallest: Version,
) -> Result<Vec<u8>, EncodeFault>
    requires { length words.now ≤ INPUT_MAX }
    ensures label { IfOk result (λ text. IsLabel words.now level smallest text.items) }
    ensures empty { (result ≡ Err EncodeFault.Empty) ↔ (words.now ≡ []) }
    ensures too_long { (result ≡ Err EncodeFault.TooLong)
        ↔ ((result ≢ Err EncodeFault.Memory) × HasNoVersion smallest level Rule.Auto Interpretation.Default words.now) }
    ensures long { 7089 < length words.now → result ≡ Err EncodeFault.TooLong }
    ensures fault { IfErr result (λ e. (e ≡ EncodeFault.Empty) ⊎ (e ≡ EncodeFault.TooLong)
        ⊎ (e ≡ EncodeFault.Memory)) }
{
    let symbol = encode(
        alloc,
        words,
        level,
        smallest,
        Rule::Auto,
        Interpretation::Default,
    )?;
    let mut text = Vec::new(alloc);
    for row in 0..symbol.matrix.side() {
        push_line(&mut text, &symbol.matrix, row)?;
    }
    text.extend_from_slice(words)?;
    text.push(b'\n')?;
    Ok(text)
}

fn push_line(text: &mut Vec<u8>, matrix: &Matrix, row: u8) -> Result<(), AllocError>
    requires { row < matrix.now.side }
    ensures { IsOk result → text.new.items ≡ text.old.items ++ line_of_row matrix.now row }
{
    for col in 0..matrix.side() {
        text.push(character_of(matrix.dark(row, col)))?;
    }
    text.push(b'\n')?;
    Ok(())
}

fn character_of(dark: bool) -> u8
    ensures { result ≡ character_of dark }
{
    if dark { b'#' } else { b' ' }
}
