//! The data codewords of a symbol: the bit stream, a terminator and padding (ISO/IEC 18004:2015, 7.4.9, 7.4.10). The
//! padding fills the capacity, which is the number of bits of all data codewords.

ghost use Rattle.std.specs.Prelude.{All, Err, IfOk, OnOk, length, vec_len, ◌++◌, ◌+◌, ◌*◌, ◌-◌, ◌<◌, ◌↔◌, ◌≡◌, ◌≤◌};
ghost use Rattle.qr_bits.specs.Segmentation.{Covers, bits};
ghost use Rattle.qr_bits.specs.Padding.{IsData, capacity_of, pads};
ghost use Rattle.qr_bits.specs.Header.{header_bits};
ghost use Rattle.qr_bits.specs.Interpretation.{interpretation_bits, InterpretationFits};
ghost use Rattle.std.specs.Cow.{cow_slice_items};
ghost use Rattle.std.specs.Option.{ForSome};

use crate::bits::BitWriter;
use crate::fault::BitFault;
use crate::interpretation::{Interpretation, interpretation_bits};
use crate::modes::INPUT_MAX;
use crate::segmentation::{Segmented, bit_len};
use crate::stream::{HEADER_BITS, Header, put_segments, put_start};
use qr_layout::{Level, Version};
use std::alloc::{AllocError, Global};

// How many bits the terminator has, unless fewer bits of the capacity are left for it (ISO/IEC 18004:2015, 7.4.9).
const TERMINATOR_BITS: u64 = 4;

/// Returns the data codewords of a symbol of this version and level. They contain the header, if there is one, then the
/// ECI header or FNC1 of the interpretation, and then the characters of `segmented` in its segments. As far as the
/// capacity allows, a terminator, zeros up to the end of a codeword, and pad codewords follow (ISO/IEC 18004:2015,
/// 7.4.9, 7.4.10).
///
/// `segmented` is what `segments` returns, or any other segments and characters for which `covers` is true. There may
/// be up to twice `INPUT_MAX` characters, because a byte of GS1 data may be written as two characters.
///
/// # Errors
///
/// Returns `TooLong` if header, interpretation and segments together take more bits than the data codewords have, and
/// `Memory` if memory is refused.
pub fn codewords(
    alloc: Global,
    segmented: &Segmented<'_>,
    header: Option<Header>,
    interpretation: Interpretation,
    v: Version,
    level: Level,
) -> Result<Vec<u8>, BitFault>
    requires short { length (cow_slice_items segmented.now.characters) ≤ 2 * INPUT_MAX }
    requires covered { Covers (cow_slice_items segmented.now.characters) segmented.now.segments.items }
    requires in_range { ForSome header (λ h. (h.position < 16) × (h.last < 16)) }
    requires number { InterpretationFits interpretation }
    ensures ok { IfOk result (λ cw. IsData v level (cow_slice_items segmented.now.characters) segmented.now.segments.items
        header interpretation cw.items) }
    ensures too_long { (result ≡ Err BitFault.TooLong)
        ↔ (capacity_of v level < header_bits header + interpretation_bits interpretation
        + bits v segmented.now.segments.items) }
{
    let capacity = v.capacity(level);
    let header_bits = match header {
        None => 0,
        Some(_) => HEADER_BITS,
    };
    let used = header_bits + interpretation_bits(interpretation) + bit_len(&segmented.segments, v);
    if used > capacity {
        return Err(BitFault::TooLong);
    }
    let left = capacity - used;
    let len = usize::from(v.data_codewords(level));
    let mut writer = BitWriter::with_capacity(alloc, len)?;
    put_start(&mut writer, header, interpretation)?;
    put_segments(&mut writer, &segmented.characters, &segmented.segments, v)?;
    writer.put(TERMINATOR_BITS.min(left) as u8, 0)?;
    let mut codewords = writer.into_codewords()?;
    pad(&mut codewords, len)?;
    Ok(codewords)
}

// Appends pad codewords until there are `len` codewords in all (ISO/IEC 18004:2015, 7.4.10). The contract also says
// that all codewords are bytes; this is for the prover.
#[tactic(auto, using(crate::proofs::Named::pad_codewords))]
fn pad(codewords: &mut Vec<u8>, len: usize) -> Result<(), AllocError>
    ensures { OnOk result ((codewords.new.items ≡ codewords.old.items ++ pads (len - vec_len codewords.old))
        × All (λ b. b < 256) codewords.new.items) }
{
    let first = codewords.len();
    for i in first..len {
        codewords.push(if (i - first) % 2 == 0 { 0xEC } else { 0x11 })?;
    }
    Ok(())
}
