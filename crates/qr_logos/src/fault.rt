//! The faults of encoding with a logo.

ghost use Rattle.std.specs.Prelude.{◌≡◌};

use qr_bits::BitFault;
use qr_symbol::EncodeFault;
use thiserror::Error;

/// Why an input is not encoded with a logo. `encode_with_logo` checks for `Empty` first, then for `TooLong`, and then
/// for `Logo`.
#[derive(Clone, Copy, Debug, PartialEq, Eq, Error)]
pub enum LogoFault {
    #[error("input is empty")]
    Empty,
    /// The input fits no symbol of the versions and levels that are asked for.
    #[error("input does not fit")]
    TooLong,
    /// The input fits, but no symbol that it fits may have so large a logo. The number is the side of the largest logo
    /// that a symbol of the input may have, in modules.
    #[error("the largest logo that is allowed has {0} modules on a side")]
    Logo(u8),
    #[error("out of memory")]
    Memory,
}

impl From<BitFault> for LogoFault {
    ghost use Rattle.std.specs.Prelude.{◌≡◌};
    ghost use Rattle.qr_logos.specs.Fault.{fault_of};

    ghost from_gives = { λ b e. e ≡ fault_of b };

    fn from(fault: BitFault) -> Self {
        match fault {
            BitFault::Memory => LogoFault::Memory,
            BitFault::TooLong => LogoFault::TooLong,
        }
    }
}

impl From<EncodeFault> for LogoFault {
    ghost use Rattle.std.specs.Prelude.{◌≡◌};
    ghost use Rattle.qr_logos.specs.Fault.{encode_fault_of};

    ghost from_gives = { λ b e. e ≡ encode_fault_of b };

    // The fault `TooMany` never occurs here. Only `encode_series` returns it.
    fn from(fault: EncodeFault) -> Self {
        match fault {
            EncodeFault::Empty => LogoFault::Empty,
            EncodeFault::TooLong | EncodeFault::TooMany => LogoFault::TooLong,
            EncodeFault::Memory => LogoFault::Memory,
        }
    }
}
