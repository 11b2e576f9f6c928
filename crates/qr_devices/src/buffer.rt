//! Writers that take no memory of their own: `Gauge` counts how many bytes a text has, and `Filler` then writes the text
//! into a buffer of the caller.

ghost use Rattle.std.specs.Prelude.{◌≡◌, ◌≤◌, [], Ok, length, true, false};
ghost use Rattle.qr_devices.specs.Device.{is_write_fault, no_writes};

use crate::device::{Sink, Trouble, WriteCounts};

/// A device that accepts every byte, and keeps none.
#[derive(Drop)]
pub struct Gauge {
    counts: WriteCounts,
    ghost well: { is_write_fault counts ≡ false },
}

impl Gauge {
    /// Returns a device before the first write.
    pub fn new() -> Gauge
        ensures { result.counts ≡ no_writes }
    {
        Gauge {
            counts: WriteCounts::NONE,
        }
    }

    /// Returns the number of bytes that the device has accepted, or `u64::MAX` if there were more.
    pub fn len(&self) -> u64
        ensures { result ≡ self.now.counts.taken }
    {
        self.counts.taken
    }
}

impl Sink for Gauge {
    ghost use Rattle.std.specs.Prelude.{◌≡◌, IfOk, None, Ok, [], length, ◌≤◌};
    ghost use Rattle.std.specs.Io.KnownBytes.{Keeps, WriteAppends};
    ghost use Rattle.qr_devices.specs.Device.{Overwrites, flush_counted, write_counted};

    ghost device = { λ g. record { taken = None; counts = g.counts; buffer = 0; rest = [] } };

    fn write(&mut self, buf: &[u8]) -> Result<usize, Trouble> {
        let accepted = Ok(buf.len());
        self.counts.add(buf.len(), accepted);
        accepted
    }

    fn flush(&mut self) -> Result<(), Trouble> {
        self.counts.add_flush(Ok(()));
        Ok(())
    }
}

/// A device that writes the bytes that it accepts into a buffer, from its beginning on. A write that offers more bytes
/// than there is room for accepts only the first of them.
#[derive(Drop)]
pub struct Filler<'a> {
    buffer: &'a mut [u8],
    // How many bytes were written.
    len: usize,
    counts: WriteCounts,
    ghost within: { len ≤ length buffer.now },
    ghost full: { is_write_fault counts ≡ true → len ≡ length buffer.now },
}

impl<'a> Filler<'a> {
    /// Returns a device that writes into `buffer`.
    pub fn new(buffer: &'a mut [u8]) -> Filler<'a>
        ensures buffer { result.buffer.now ≡ buffer.old }
        ensures same_buffer { result.buffer.ghost_name ≡ buffer.entry.ghost_name }
        ensures len { result.len ≡ 0 }
        ensures counts { result.counts ≡ no_writes }
    {
        Filler {
            buffer,
            len: 0,
            counts: WriteCounts::NONE,
        }
    }

    /// Returns the number of bytes that the device has written.
    pub fn len(&self) -> usize
        ensures { result ≡ self.now.len }
    {
        self.len
    }
}

impl<'a> Sink for Filler<'a> {
    ghost use Rattle.std.specs.Prelude.{◌≡◌, IfOk, Some, Ok, drop, length, take, ◌≤◌};
    ghost use Rattle.std.specs.Io.KnownBytes.{Keeps, WriteAppends};
    ghost use Rattle.qr_devices.specs.Device.{Overwrites, flush_counted, write_counted};

    ghost device = { λ f. record { taken = Some (take f.len f.buffer.now); counts = f.counts; buffer = f.buffer.ghost_name; rest = drop f.len f.buffer.now } };

    fn write(&mut self, buf: &[u8]) -> Result<usize, Trouble> {
        let end = self.buffer.len().min(self.len.saturating_add(buf.len()));
        let count = end - self.len;
        self.buffer[self.len..end].copy_from_slice(&buf[..count]);
        self.len = end;
        self.counts.add(buf.len(), Ok(count));
        Ok(count)
    }

    fn flush(&mut self) -> Result<(), Trouble> {
        self.counts.add_flush(Ok(()));
        Ok(())
    }
}
