//! Reads the symbols of a series, and joins their bytes in order (ISO/IEC 18004:2015, 8). A content is what was read of
//! one symbol.

ghost use Rattle.std.specs.Prelude.{◌≡◌, ◌⊎◌, ◌-◌, ◌<◌, length, Some, IfOk, MatchResult};
ghost use Rattle.std.specs.Bool.{Decides};
ghost use Rattle.qr_symbol.specs.Series.{squares_of};
ghost use Rattle.qr_symbol.specs.Reading.{IsReading};
ghost use Rattle.qr_symbol.specs.Joining.{bytes_of_all, AreReadBy, BelongTogether, HaveHeaders, IsJoined, IsPlain, IsUnjoined};

use crate::fault::ReadFault;
use crate::reading::read_symbol;
use crate::symbol::Symbol;
use qr_bits::{Parsed, parity};
use std::alloc::{AllocError, Global};

// Reads all symbols in order. Returns the fault of the first that cannot be read.
fn read_all(alloc: Global, symbols: &[Symbol]) -> Result<Vec<Parsed>, ReadFault>
    ensures { MatchResult result
        (λ contents. AreReadBy IsReading (squares_of symbols.now) contents.items)
        (IsUnjoined (squares_of symbols.now)) }
{
    let mut contents = Vec::with_capacity(alloc, symbols.len())?;
    for symbol in symbols {
        contents.push(read_symbol(alloc, &symbol.matrix)?)?;
    }
    Ok(contents)
}

fn joined_bytes(alloc: Global, contents: &[Parsed]) -> Result<Vec<u8>, AllocError>
    ensures { IfOk result (λ bytes. bytes.items ≡ bytes_of_all contents.now) }
{
    let mut bytes = Vec::new(alloc);
    for content in contents {
        bytes.extend_from_slice(&content.bytes)?;
    }
    Ok(bytes)
}

fn is_one_plain(contents: &[Parsed]) -> bool
    ensures { Decides result (IsPlain contents.now) }
{
    match contents {
        [content] => content.header.is_none(),
        _ => false,
    }
}

// Whether the content has a header with these three numbers.
fn has_header(content: &Parsed, position: usize, last: usize, parity: u8) -> bool
    ensures { Decides result (content.now.header
        ≡ Some (record { position = position; last = last; parity = parity })) }
{
    match content.header {
        None => false,
        Some(header) => {
            usize::from(header.position) == position
                && usize::from(header.last) == last
                && header.parity == parity
        }
    }
}

// Whether the contents are those of a whole series, in order (8.1 to 8.3). Each header has to have the parity data
// `parity`, which are those of the bytes of all contents.
fn are_in_series(contents: &[Parsed], parity: u8) -> bool
    ensures { Decides result ((0 < length contents.now)
        × HaveHeaders (length contents.now - 1) parity 0 contents.now) }
{
    if contents.is_empty() {
        return false;
    }
    let last = contents.len() - 1;
    for (position, content) in contents.iter().enumerate() {
        if !has_header(content, position, last, parity) {
            return false;
        }
    }
    true
}

/// Joins the bytes of the contents in order. This succeeds only if the contents are those of one symbol without a
/// structured append header, or those of a whole series (ISO/IEC 18004:2015, 8). A series is whole if the headers have
/// the positions 0, 1, 2 and so on in this order, and if each header has the number of contents less 1 and the parity
/// data of all bytes.
///
/// # Errors
///
/// Returns `Series` if there are no contents. Returns `Series` also if the contents are neither those of one symbol
/// without a structured append header nor those of a whole series. Returns `Memory` if an allocation is refused.
pub fn join(alloc: Global, contents: &[Parsed]) -> Result<Vec<u8>, ReadFault>
    ensures { MatchResult result
        (λ bytes. BelongTogether contents.now × (bytes.items ≡ bytes_of_all contents.now))
        (λ e. (e ≡ ReadFault.Memory)
        ⊎ ((e ≡ ReadFault.Series) × (BelongTogether contents.now → ⊥))) }
{
    let bytes = joined_bytes(alloc, contents)?;
    if is_one_plain(contents) || are_in_series(contents, parity(&bytes)) {
        Ok(bytes)
    } else {
        Err(ReadFault::Series)
    }
}

/// Reads the symbols, and joins their bytes in order. This succeeds only if they are one symbol without a structured
/// append header, or a whole series as `join` defines it (ISO/IEC 18004:2015, 8). Only the field `matrix` of a symbol
/// is read.
///
/// # Errors
///
/// Returns the fault of the first symbol that cannot be read. Returns `Series` if there are no symbols. Returns
/// `Series` also if all symbols can be read, but are neither one symbol without a structured append header nor a whole
/// series. Returns `Memory` if an allocation is refused.
pub fn read_series(alloc: Global, symbols: &[Symbol]) -> Result<Vec<u8>, ReadFault>
    ensures { MatchResult result
        (λ bytes. IsJoined (squares_of symbols.now) bytes.items)
        (IsUnjoined (squares_of symbols.now)) }
{
    let contents = read_all(alloc, symbols)?;
    join(alloc, &contents)
}
