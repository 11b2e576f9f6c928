//! Mends the symbols of a damaged series, and joins their bytes. All symbols are mended before their headers are
//! compared.

ghost use Rattle.std.specs.Prelude.{MatchResult};
ghost use Rattle.qr_symbol.specs.Joining.{AreReadBy};
ghost use Rattle.qr_mending.specs.Series.{IsMendedContent, IsMendedSeries, IsUnmendedSeries};

use crate::mending::mend_symbol;
use qr_bits::Parsed;
use qr_matrix::Matrix;
use qr_symbol::{ReadFault, join};
use std::alloc::Global;

#[tactic(auto, using(crate::proofs::Named::series_facts))]
fn mend_all(alloc: Global, damaged: &[Matrix]) -> Result<Vec<Parsed>, ReadFault>
    ensures { MatchResult result (λ contents. AreReadBy IsMendedContent damaged.now contents.items)
        (IsUnmendedSeries damaged.now) }
{
    let mut contents = Vec::with_capacity(alloc, damaged.len())?;
    for matrix in damaged {
        contents.push(mend_symbol(alloc, matrix)?.parsed)?;
    }
    Ok(contents)
}

/// Mends damaged symbols, and joins their bytes. The symbols have to be one symbol without a structured append header,
/// or a whole series in the order of its positions (ISO/IEC 18004:2015, 8 and 12). A series is whole if each structured
/// append header has the position of its symbol (from 0), the number of symbols less 1, and the parity data of all
/// bytes.
///
/// # Errors
///
/// Returns the fault of the first symbol that cannot be mended, whatever the headers are. If all can be mended, returns
/// `Series` if they are neither one symbol without a header nor a whole series; an empty list is neither. Returns
/// `Memory` if an allocation is refused.
///
/// # Notes
///
/// `mend_symbol` returns how much damage a symbol has.
pub fn mend_series(alloc: Global, damaged: &[Matrix]) -> Result<Vec<u8>, ReadFault>
    ensures { MatchResult result (λ bytes. IsMendedSeries damaged.now bytes.items) (IsUnmendedSeries damaged.now) }
{
    let contents = mend_all(alloc, damaged)?;
    join(alloc, &contents)
}
