//! What the command reads its input from (`Source`) and writes its output to (`Sink`).
//!
//! A contract can state the bytes of a device only if they are known, as those in memory are. The counts of a device
//! are always known, so a contract can always state exactly when the device caused a fault.
//!
//! `Counted` makes a device of a type that implements the standard library's `Read` or `Write`.

ghost use Rattle.std.specs.Prelude.{IfOk, [], length, ◌↔◌, ◌≡◌, ◌≤◌};
ghost use Rattle.std.specs.Io.KnownBytes.{Keeps, ReadConsumes, WriteAppends};
ghost use Rattle.std.specs.IoError.{error_kind};
ghost use Rattle.std.specs.declared.io.ErrorKind.{ErrorKind};
ghost use Rattle.qr_devices.specs.Device.{flush_counted, no_reads, no_writes, read_counted, write_counted};
ghost use Rattle.qr_devices.specs.declared.device.ReadCounts.{ReadCounts};
ghost use Rattle.qr_devices.specs.declared.device.WriteCounts.{WriteCounts};

use std::io::{self, ErrorKind, Read, Write};

/// The greatest number of interrupted calls (EINTR) that are tried again while one input is read or one text is
/// written. One more interruption is a fault.
pub const INTERRUPTIONS_MAX: u16 = 999;

/// How a read, a write or a flush fails.
#[derive(Clone, Copy, Debug, PartialEq, Eq)]
pub enum Trouble {
    /// The call was interrupted by a signal (EINTR). A read or a write may be tried again, and a flush is not.
    Interrupted,
    /// The call failed for another reason than a signal, and is not tried again.
    Failed,
}

/// The counts of the reads of a device. A count that has reached `u64::MAX` stays there.
#[derive(Clone, Copy, Debug)]
pub struct ReadCounts {
    /// All reads, failed and interrupted ones too.
    pub calls: u64,
    /// Reads that failed, without those that were interrupted.
    pub failed: u64,
    /// Interrupted reads.
    pub interrupted: u64,
    /// The bytes that all reads returned.
    pub given: u64,
    /// Reads that reached the end of the input: they returned 0 though their buffer was not empty.
    pub ends: u64,
    /// Reads after a read that reached the end, also those into an empty buffer.
    pub past_end: u64,
}

impl ReadCounts {
    /// The counts before the first read.
    pub const NONE: ReadCounts = ReadCounts {
        calls: 0,
        failed: 0,
        interrupted: 0,
        given: 0,
        ends: 0,
        past_end: 0,
    };

    /// Counts a read that returned `answer`. Its buffer had `room` bytes.
    pub fn add(&mut self, room: usize, answer: Result<usize, Trouble>)
        ensures { self.new ≡ read_counted room answer self.old }
    {
        self.calls = self.calls.saturating_add(1);
        if self.ends > 0 {
            self.past_end = self.past_end.saturating_add(1);
        }
        match answer {
            Ok(given) => {
                self.given = self.given.saturating_add(given as u64);
                if given == 0 && room > 0 {
                    self.ends = self.ends.saturating_add(1);
                }
            }
            Err(Trouble::Interrupted) => self.interrupted = self.interrupted.saturating_add(1),
            Err(Trouble::Failed) => self.failed = self.failed.saturating_add(1),
        }
    }
}

/// The counts of the writes and flushes of a device. A count that has reached `u64::MAX` stays there.
#[derive(Clone, Copy, Debug)]
pub struct WriteCounts {
    /// All writes and flushes, failed and interrupted ones too.
    pub calls: u64,
    /// Writes that failed, and flushes that failed or were interrupted.
    pub failed: u64,
    /// Interrupted writes. Interrupted flushes are not among them.
    pub interrupted: u64,
    /// Writes that returned 0 though they offered at least one byte.
    pub zeros: u64,
    /// The bytes that the device accepted.
    pub taken: u64,
    /// The most bytes that one write offered.
    pub offered: usize,
    /// Flushes, failed ones too.
    pub flushes: u64,
    /// Whether the last call was a flush that succeeded.
    pub settled: bool,
}

impl WriteCounts {
    /// The counts before the first write or flush.
    pub const NONE: WriteCounts = WriteCounts {
        calls: 0,
        failed: 0,
        interrupted: 0,
        zeros: 0,
        taken: 0,
        offered: 0,
        flushes: 0,
        settled: false,
    };

    /// Counts a write that offered `len` bytes and returned `answer`.
    pub fn add(&mut self, len: usize, answer: Result<usize, Trouble>)
        ensures { self.new ≡ write_counted len answer self.old }
    {
        self.calls = self.calls.saturating_add(1);
        self.offered = self.offered.max(len);
        self.settled = false;
        match answer {
            Ok(taken) => {
                self.taken = self.taken.saturating_add(taken as u64);
                if taken == 0 && len > 0 {
                    self.zeros = self.zeros.saturating_add(1);
                }
            }
            Err(Trouble::Interrupted) => self.interrupted = self.interrupted.saturating_add(1),
            Err(Trouble::Failed) => self.failed = self.failed.saturating_add(1),
        }
    }

    /// Counts a flush that returned `answer`. An interrupted flush counts as failed, because it is not tried again.
    pub fn add_flush(&mut self, answer: Result<(), Trouble>)
        ensures { self.new ≡ flush_counted answer self.old }
    {
        self.calls = self.calls.saturating_add(1);
        self.flushes = self.flushes.saturating_add(1);
        self.settled = answer.is_ok();
        if answer.is_err() {
            self.failed = self.failed.saturating_add(1);
        }
    }
}

/// A device from which bytes are read, and which counts each read with its result.
pub trait Source {
    ghost use Rattle.qr_devices.specs.Device.{Reader};

    // What contracts see of the device.
    ghost device: { Self → Reader };

    /// Reads at most as many bytes as `buf` has room for, into the beginning of `buf`, and returns how many it read. It
    /// returns 0 only at the end of the input, or if `buf` is empty.
    fn read(&mut self, buf: &mut [u8]) -> Result<usize, Trouble>
        ensures bound { IfOk result (λ n. n ≤ length buf.new) }
        ensures bytes { ReadConsumes (device self.old).remaining (device self.new).remaining result buf.new }
        ensures counted { (device self.new).counts ≡ read_counted (length buf.new) result (device self.old).counts };
}

/// A device to which bytes are written, and which counts each write and each flush with its result.
pub trait Sink {
    ghost use Rattle.qr_devices.specs.Device.{Overwrites, Writer};

    // What contracts see of the device.
    ghost device: { Self → Writer };

    /// Offers the bytes of `buf` to the device, which accepts a prefix of them. Returns how many it accepted.
    fn write(&mut self, buf: &[u8]) -> Result<usize, Trouble>
        ensures bound { IfOk result (λ n. n ≤ length buf.now) }
        ensures bytes { WriteAppends (device self.old).taken (device self.new).taken result buf.now }
        ensures counted { (device self.new).counts ≡ write_counted (length buf.now) result (device self.old).counts }
        ensures buffer { (device self.new).buffer ≡ (device self.old).buffer }
        ensures rest { Overwrites (device self.old).rest (device self.new).rest result };

    /// Makes the device pass on all bytes that it has accepted.
    fn flush(&mut self) -> Result<(), Trouble>
        ensures bytes { Keeps (device self.old).taken (device self.new).taken }
        ensures counted { (device self.new).counts ≡ flush_counted result (device self.old).counts }
        ensures buffer { (device self.new).buffer ≡ (device self.old).buffer }
        ensures rest { (device self.new).rest ≡ (device self.old).rest };
}

fn trouble_of(error: io::Error) -> Trouble
    ensures { result ≡ Trouble.Interrupted ↔ error_kind error ≡ ErrorKind.Interrupted }
{
    if error.kind() == ErrorKind::Interrupted {
        Trouble::Interrupted
    } else {
        Trouble::Failed
    }
}

/// A device that passes its calls on to `inner`, a reader or a writer, and counts them. Contracts know its bytes if
/// they know those of `inner`. They know the bytes of a reader or writer in memory, but not those of a file, a pipe or
/// a terminal.
#[derive(Drop)]
pub struct Counted<T> {
    inner: T,
    reads: ReadCounts,
    writes: WriteCounts,
}

impl<T> Counted<T> {
    /// Returns a device over `inner`, with all counts 0.
    pub fn new(inner: T) -> Self
        ensures inner { result.inner ≡ inner }
        ensures reads { result.reads ≡ no_reads }
        ensures writes { result.writes ≡ no_writes }
    {
        Counted {
            inner,
            reads: ReadCounts::NONE,
            writes: WriteCounts::NONE,
        }
    }

    /// Returns the reader or writer, and drops the counts.
    pub fn into_inner(self) -> T
        ensures { result ≡ self.inner }
    {
        self.inner
    }
}

impl<R: Read> Source for Counted<R> {
    ghost device = { λ c. record { remaining = R.remaining c.inner; counts = c.reads } };

    fn read(&mut self, buf: &mut [u8]) -> Result<usize, Trouble> {
        let answer = self.inner.read(buf).map_err(trouble_of);
        self.reads.add(buf.len(), answer);
        answer
    }
}

impl<W: Write> Sink for Counted<W> {
    ghost device = { λ c. record { taken = W.contents c.inner; counts = c.writes; buffer = 0; rest = [] } };

    fn write(&mut self, buf: &[u8]) -> Result<usize, Trouble> {
        let answer = self.inner.write(buf).map_err(trouble_of);
        self.writes.add(buf.len(), answer);
        answer
    }

    fn flush(&mut self) -> Result<(), Trouble> {
        let answer = self.inner.flush().map_err(trouble_of);
        self.writes.add_flush(answer);
        answer
    }
}
