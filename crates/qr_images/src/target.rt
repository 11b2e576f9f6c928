//! Where an image is written that has no device of its own: its bytes are only counted, or go into a buffer. One type
//! does both, so that the code of the writers is there once.

ghost use Rattle.std.specs.Prelude.{◌≡◌, ◌≤◌, length, true, false};
ghost use Rattle.qr_devices.specs.Device.{is_write_fault, no_writes};

use qr_devices::{Sink, Trouble, WriteCounts};

/// A device that counts the bytes that it accepts. If its buffer is empty, it accepts all bytes. Otherwise it writes them
/// into the buffer, from its beginning on, and accepts no more than there is room for.
#[derive(Drop)]
pub(crate) struct Target<'a> {
    buffer: &'a mut [u8],
    // How many bytes were written into the buffer.
    pub(crate) len: usize,
    pub(crate) counts: WriteCounts,
    ghost within: { len ≤ length buffer.now },
    ghost full: { is_write_fault counts ≡ true → len ≡ length buffer.now },
    ghost well: { length buffer.now ≡ 0 → is_write_fault counts ≡ false },
}

impl<'a> Target<'a> {
    /// Returns a device that writes into `buffer`, or only counts if it is empty.
    pub(crate) fn new(buffer: &'a mut [u8]) -> Target<'a>
        ensures buffer { result.buffer.now ≡ buffer.old }
        ensures same_buffer { result.buffer.ghost_name ≡ buffer.entry.ghost_name }
        ensures len { result.len ≡ 0 }
        ensures counts { result.counts ≡ no_writes }
    {
        Target {
            buffer,
            len: 0,
            counts: WriteCounts::NONE,
        }
    }
}

impl<'a> Sink for Target<'a> {
    ghost use Rattle.std.specs.Prelude.{◌≡◌, ◌==◌, IfOk, None, Some, Ok, drop, if◌then◌else◌, length, take, ◌≤◌};
    ghost use Rattle.std.specs.Io.KnownBytes.{Keeps, WriteAppends};
    ghost use Rattle.qr_devices.specs.Device.{Overwrites, flush_counted, write_counted};

    ghost device = { λ t. record {
      taken = if length t.buffer.now == 0 then None else Some (take t.len t.buffer.now);
      counts = t.counts;
      buffer = t.buffer.ghost_name;
      rest = drop t.len t.buffer.now;
    } };

    fn write(&mut self, buf: &[u8]) -> Result<usize, Trouble> {
        let room = self.buffer.len();
        if room == 0 {
            let accepted = Ok(buf.len());
            self.counts.add(buf.len(), accepted);
            return accepted;
        }
        let end = room.min(self.len.saturating_add(buf.len()));
        let count = end - self.len;
        self.buffer[self.len..end].copy_from_slice(&buf[..count]);
        self.len = end;
        self.counts.add(buf.len(), Ok(count));
        Ok(count)
    }

    fn flush(&mut self) -> Result<(), Trouble> {
        self.counts.add_flush(Ok(()));
        Ok(())
    }
}
