//! A lower bound on the number of bits that an input takes, however it is cut into segments. Computing this bound takes
//! less time than computing the segments. The search for a version skips versions 1 to 9, or 1 to 26, if they have room
//! for fewer bits than the bound. The search does without the bound if only byte mode is allowed, or if the input is so
//! long that its number of bytes rules out versions 1 to 26.

ghost use Rattle.std.specs.Prelude.{length, ℕ, ◌/◌, ◌≡◌, ◌≤◌};
ghost use Rattle.qr_bits.specs.declared.interpretation.Interpretation.{Interpretation};
ghost use Rattle.qr_bits.specs.declared.modes.Rule.{Rule};
ghost use Rattle.qr_bits.specs.Segmentation.{HasFit, least_bits, least_sixths};

use crate::modes::INPUT_MAX;

// A lower bound on the bits that a byte takes in any mode. It is counted in sixths of a bit, so that it is a whole
// number for each byte.
fn least_sixths(byte: u8) -> u32
    ensures value { result ≡ least_sixths byte }
    ensures most { result ≤ 39 }
{
    if byte.is_ascii_digit() {
        20
    } else if byte <= b'Z' {
        33
    } else {
        39
    }
}

/// Returns a lower bound on the number of bits that `input` takes. This bound holds in all versions, under all rules
/// and interpretations, and for all segments into which the input may be cut. The bound is the sum of 10/3 bits for
/// each digit, 11/2 for each other byte up to `Z`, and 13/2 for each byte above `Z`, rounded down (ISO/IEC 18004:2015,
/// 7.4.3 to 7.4.6). The indicators of segments are not counted.
#[tactic(auto, using(crate::proofs::Named::sums_of_sixths), unfolding(crate::specs::Segmentation::least_bits))]
pub fn least_bits(input: &[u8]) -> u32
    requires { length input.now ≤ INPUT_MAX }
    ensures value { result ≡ least_bits input.now }
    ensures least { (i : Interpretation) (v room : ℕ) (r : Rule) → HasFit i v r input.now room → result ≤ room }
{
    let mut sixths = 0;
    for byte in input {
        sixths += least_sixths(*byte);
    }
    sixths / 6
}
