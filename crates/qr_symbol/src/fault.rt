//! The faults of encoding and of reading.

ghost use Rattle.std.specs.Prelude.{◌≡◌};

use qr_bits::{BitFault, ParseFault};
use std::alloc::{AllocError, AllocFailed};
use thiserror::Error;

/// Why an input is not encoded. `encode` checks for `Empty` first, and then for `TooLong`. `encode_series` checks for
/// `Empty` first, and then for `TooMany`. Memory is requested only after the check for `Empty`. For more than 7,089
/// bytes, `encode` and `encode_as` return `TooLong` before they request memory.
#[derive(Clone, Copy, Debug, PartialEq, Eq, Error)]
pub enum EncodeFault {
    #[error("input is empty")]
    Empty = 1,
    /// The input fits neither the smallest version that is allowed nor any above it.
    #[error("input does not fit")]
    TooLong = 2,
    #[error("more than 16 symbols")]
    TooMany = 3,
    #[error("out of memory")]
    Memory = 4,
}

impl From<AllocError> for EncodeFault {
    ghost use Rattle.std.specs.Prelude.{◌≡◌};
    ghost use Rattle.qr_symbol.specs.declared.fault.EncodeFault.{EncodeFault};

    ghost from_gives = { λ _ e. e ≡ EncodeFault.Memory };

    fn from(_: AllocError) -> Self {
        EncodeFault::Memory
    }
}

impl<T: Drop> From<AllocFailed<T>> for EncodeFault {
    ghost use Rattle.std.specs.Prelude.{◌≡◌};
    ghost use Rattle.qr_symbol.specs.declared.fault.EncodeFault.{EncodeFault};

    ghost from_gives = { λ _ e. e ≡ EncodeFault.Memory };

    fn from(_: AllocFailed<T>) -> Self {
        EncodeFault::Memory
    }
}

impl From<BitFault> for EncodeFault {
    ghost use Rattle.std.specs.Prelude.{◌≡◌};
    ghost use Rattle.qr_symbol.specs.Fault.{fault_of};

    ghost from_gives = { λ b e. e ≡ fault_of b };

    fn from(fault: BitFault) -> Self {
        match fault {
            BitFault::Memory => EncodeFault::Memory,
            BitFault::TooLong => EncodeFault::TooLong,
        }
    }
}

/// Why symbols are not read or mended. Each symbol is checked for `Side`, `Format`, `Check` and `Segments`, in this
/// order. The check for `Series` comes after all symbols were read. Memory may be refused at several steps.
#[derive(Clone, Copy, Debug, PartialEq, Eq, Error)]
pub enum ReadFault {
    #[error("out of memory")]
    Memory,
    #[error("no version has this side")]
    Side,
    /// In reading, this means that the copy of the format information beside the top left finder pattern belongs to no
    /// level and mask. In mending, it means that with every level and mask each of the two copies costs more than 6.
    /// With a given level and mask, a module of a copy costs 1 if it was not read, and 2 if it was read with another
    /// colour than they require.
    #[error("the format information is damaged")]
    Format,
    /// In reading, this means that the error correction codewords of some block do not belong to its data codewords. In
    /// mending, it means that with each level and mask that is tried, some block has more damage than can be corrected.
    /// A level and a mask are tried if a copy of the format information costs at most 6 with them, as counted at
    /// `Format`.
    #[error("a codeword is damaged")]
    Check,
    /// The data codewords cannot be parsed, for a reason other than `ParseFault::Memory`.
    #[error("the data codewords cannot be parsed: {0}")]
    Segments(ParseFault),
    /// The symbols are neither one symbol without a structured append header nor a whole series.
    #[error("the symbols do not form a series")]
    Series,
}

impl ReadFault {
    ghost use Rattle.qr_symbol.specs.Fault.{read_fault_number};

    /// Returns the number of the fault, from 1 to 6 in the order in which `ReadFault` lists the faults.
    ///
    /// # Notes
    ///
    /// Later versions of this crate keep the number.
    pub fn number(&self) -> u8
        ensures { result ≡ read_fault_number self.now }
    {
        match self {
            ReadFault::Memory => 1,
            ReadFault::Side => 2,
            ReadFault::Format => 3,
            ReadFault::Check => 4,
            ReadFault::Segments(_) => 5,
            ReadFault::Series => 6,
        }
    }
}

impl From<AllocError> for ReadFault {
    ghost use Rattle.std.specs.Prelude.{◌≡◌};
    ghost use Rattle.qr_symbol.specs.declared.fault.ReadFault.{ReadFault};

    ghost from_gives = { λ _ e. e ≡ ReadFault.Memory };

    fn from(_: AllocError) -> Self {
        ReadFault::Memory
    }
}

impl<T: Drop> From<AllocFailed<T>> for ReadFault {
    ghost use Rattle.std.specs.Prelude.{◌≡◌};
    ghost use Rattle.qr_symbol.specs.declared.fault.ReadFault.{ReadFault};

    ghost from_gives = { λ _ e. e ≡ ReadFault.Memory };

    fn from(_: AllocFailed<T>) -> Self {
        ReadFault::Memory
    }
}

impl From<ParseFault> for ReadFault {
    ghost use Rattle.std.specs.Prelude.{◌≡◌};
    ghost use Rattle.qr_symbol.specs.Fault.{unread_for};

    ghost from_gives = { λ p e. e ≡ unread_for p };

    fn from(fault: ParseFault) -> Self {
        match fault {
            ParseFault::Memory => ReadFault::Memory,
            fault => ReadFault::Segments(fault),
        }
    }
}
