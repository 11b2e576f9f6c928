//! Draws a symbol once more under another mask (ISO/IEC 18004:2015, 7.8).

ghost use Rattle.std.specs.Prelude.{◌≡◌, ◌<◌, ◌⊎◌, Err, IfErr, IfOk};
ghost use Rattle.qr_symbol.specs.declared.fault.ReadFault.{ReadFault};
ghost use Rattle.qr_symbol.specs.Reading.{IsUnread};
ghost use Rattle.qr_symbol.specs.Redrawing.{IsRedrawn};

use crate::fault::ReadFault;
use crate::reading::{read_codewords, size_and_mask};
use crate::symbol::draw_symbol;
use qr_matrix::Matrix;
use std::alloc::Global;

/// Draws a symbol once more, under the mask `mask` (ISO/IEC 18004:2015, 7.8). The new symbol has the version, the level and
/// the codewords of the old one, which are read as `read_symbol` reads them. So its content is the same.
///
/// # Errors
///
/// The first of these that applies: `Side` if no version has this number of rows; `Format` if the format information belongs
/// to no level and mask. Returns `Memory` if an allocation is refused, which happens only after these are checked. Whether
/// codewords are damaged is not checked: they are drawn as they are read.
pub fn with_mask(alloc: Global, m: &Matrix, mask: u8) -> Result<Matrix, ReadFault>
    requires { mask < 8 }
    ensures drawn { IfOk result (IsRedrawn m.now mask) }
    ensures unread { IfErr result (IsUnread m.now) }
    ensures side { IsUnread m.now ReadFault.Side → result ≡ Err ReadFault.Side }
    ensures format { IsUnread m.now ReadFault.Format → result ≡ Err ReadFault.Format }
    ensures fault { IfErr result (λ e. (e ≡ ReadFault.Side) ⊎ (e ≡ ReadFault.Format) ⊎ (e ≡ ReadFault.Memory)) }
{
    let (size, former) = size_and_mask(m)?;
    let codewords = read_codewords(alloc, size.version, former, m)?;
    let matrix = draw_symbol(alloc, size.version, size.level, &codewords, mask)?;
    Ok(matrix)
}
