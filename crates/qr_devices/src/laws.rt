//! Laws of devices, of their counts and of the pen. The contract of each function is a law, and a function with an
//! empty body does nothing.

ghost use Rattle.std.specs.Prelude.{◌≡◌, ◌-◌, ◌^◌, false, Ok, Err};
ghost use Rattle.qr_devices.specs.Device.{no_reads, no_writes, read_counted, write_counted, flush_counted};
ghost use Rattle.qr_devices.specs.Trial.{free_of, moved};
ghost use Rattle.qr_devices.specs.declared.device.Trouble.{Trouble};
ghost use Rattle.qr_devices.specs.declared.trial.Faults.{Faults};
ghost use Rattle.qr_devices.specs.declared.trial.Trial.{Trial};
ghost use Rattle.qr_devices.specs.declared.device.TheConstants.{INTERRUPTIONS_MAX};
ghost use Rattle.qr_devices.specs.declared.pen.TheConstants.{WRITE_MAX};

use crate::device::Trouble;
use crate::pen::DrawFault;
use crate::trial::Faults;

/// Returns the `Faults` of a device that is never interrupted, never fails, and always moves as many bytes as it can.
pub fn no_faults() -> Faults
    ensures at_most { result.at_most ≡ 2 ^ 64 - 1 }
    ensures interruptions { result.interruptions ≡ 0 }
    ensures fails_from { result.fails_from ≡ 2 ^ 64 - 1 }
    ensures stops_from { result.stops_from ≡ 2 ^ 64 - 1 }
    ensures flush_fails { result.flush_fails ≡ false }
{
    Faults::NONE
}

/// At most 999 interrupted calls are tried again while one input is read or one text is written.
pub fn interruptions_are_limited()
    ensures { INTERRUPTIONS_MAX ≡ 999 }
{}

/// Examples, worked out by hand, of counts and of what a trial device returns.
pub fn counts_compute()
    ensures ends { (read_counted 4 (Ok 0) no_reads).ends ≡ 1 × (read_counted 0 (Ok 0) no_reads).ends ≡ 0 }
    ensures past { (read_counted 4 (Ok 3) (read_counted 4 (Ok 0) no_reads)).past_end ≡ 1 }
    ensures zeros { (write_counted 4 (Ok 0) no_writes).zeros ≡ 1 × (write_counted 0 (Ok 0) no_writes).zeros ≡ 0 }
    ensures offered { (write_counted 3 (Ok 3) (write_counted 9 (Ok 4) no_writes)).offered ≡ 9 }
    ensures settled { (flush_counted {T = Unit {0}} (Err Trouble.Failed) no_writes).settled ≡ false }
    ensures late { (m : Faults) → m.interruptions ≡ 1 → m.fails_from ≡ 2 → m.at_most ≡ 0
        → moved m 0 5 ≡ Err Trouble.Interrupted × moved m 1 5 ≡ Ok 1 × moved m 2 5 ≡ Err Trouble.Failed }
    ensures stops { (t : Trial) → t.faults.stops_from ≡ t.writes.calls → free_of t ≡ 0 }
{}

/// `WRITE_MAX`, the greatest number of bytes that one write offers, is 1,200.
pub fn pieces_are_limited()
    ensures { WRITE_MAX ≡ 1200 }
{}

/// Returns the discriminant of `fault`, which is 1.
///
/// # Notes
///
/// The discriminants of `DrawFault` stay the same in later versions of this crate.
pub fn draw_fault_numbers(fault: DrawFault) -> u8
    ensures { result ≡ 1 }
{
    fault as u8
}
