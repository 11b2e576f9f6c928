//! The faults of a run, and the line that reports each.

ghost use Rattle.std.specs.Prelude.{◌≡◌};
ghost use Rattle.qrencode_cli.specs.Fault.{fault_line};

use qr_drawing::DrawFault;
use qr_symbol::EncodeFault;
use qrencode_settings::UsageFault;
use std::alloc::{AllocError, AllocFailed};

/// Why a run failed. Lack of memory is always the variant `Memory`: the conversions turn `UsageFault::Memory` and
/// `EncodeFault::Memory` into it.
#[derive(Drop)]
pub(crate) enum Fault {
    Usage(UsageFault),
    Encode(EncodeFault),
    Read,
    Memory,
    Write,
}

impl Fault {
    /// Returns the text for standard error: one line, or several if it is the text of `clap`.
    pub(crate) fn line(&self) -> &[u8]
        ensures { result.now ≡ fault_line self.now }
    {
        match self {
            Fault::Usage(UsageFault::Words(text)) => text.as_bytes(),
            Fault::Usage(UsageFault::Level) => b"qrencode: unknown level\n",
            Fault::Usage(UsageFault::Kind) => b"qrencode: unknown type\n",
            Fault::Usage(UsageFault::NeedsVersion) => b"qrencode: -S needs -v\n",
            Fault::Encode(EncodeFault::Empty) => b"qrencode: input is empty\n",
            Fault::Encode(EncodeFault::TooLong) => b"qrencode: input does not fit\n",
            Fault::Encode(EncodeFault::TooMany) => b"qrencode: more than 16 symbols\n",
            Fault::Read => b"qrencode: read error\n",
            Fault::Usage(UsageFault::Memory) | Fault::Encode(EncodeFault::Memory) | Fault::Memory =>
                { b"qrencode: out of memory\n" }
            Fault::Write => b"qrencode: write error\n",
        }
    }
}

impl From<UsageFault> for Fault {
    ghost use Rattle.std.specs.Prelude.{◌≡◌};
    ghost use Rattle.qrencode_cli.specs.Steps.Fault.{fault_of_words};

    ghost from_gives = { λ e f. f ≡ fault_of_words e };

    fn from(fault: UsageFault) -> Self {
        match fault {
            UsageFault::Memory => Fault::Memory,
            other => Fault::Usage(other),
        }
    }
}

impl From<EncodeFault> for Fault {
    ghost use Rattle.std.specs.Prelude.{◌≡◌};
    ghost use Rattle.qrencode_cli.specs.Steps.Fault.{fault_of_input};

    ghost from_gives = { λ e f. f ≡ fault_of_input e };

    fn from(fault: EncodeFault) -> Self {
        match fault {
            EncodeFault::Memory => Fault::Memory,
            other => Fault::Encode(other),
        }
    }
}

impl From<DrawFault> for Fault {
    ghost use Rattle.std.specs.Prelude.{◌≡◌};
    ghost use Rattle.qrencode_cli.specs.declared.fault.Fault.{Fault};

    ghost from_gives = { λ _ f. f ≡ Fault.Write };

    fn from(_: DrawFault) -> Self {
        Fault::Write
    }
}

impl From<AllocError> for Fault {
    ghost use Rattle.std.specs.Prelude.{◌≡◌};
    ghost use Rattle.qrencode_cli.specs.declared.fault.Fault.{Fault};

    ghost from_gives = { λ _ f. f ≡ Fault.Memory };

    fn from(_: AllocError) -> Self {
        Fault::Memory
    }
}

impl<T: Drop> From<AllocFailed<T>> for Fault {
    ghost use Rattle.std.specs.Prelude.{◌≡◌};
    ghost use Rattle.qrencode_cli.specs.declared.fault.Fault.{Fault};

    ghost from_gives = { λ _ f. f ≡ Fault.Memory };

    fn from(_: AllocFailed<T>) -> Self {
        Fault::Memory
    }
}
