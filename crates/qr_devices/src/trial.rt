//! A device in memory, for tests. It can be slow, interrupted, failing or full.

ghost use Rattle.std.specs.Prelude.{◌≡◌, ◌+◌, ◌≤◌, ◌<◌, ◌++◌, [], take, length, Some, IfOk};
ghost use Rattle.std.specs.Vec.{vec_len, vec_capacity};

use crate::device::{ReadCounts, Sink, Source, Trouble, WriteCounts};
use std::alloc::{AllocError, Global};

/// How a trial device misbehaves. Its reads are numbered from 0 on. Its writes and flushes are numbered together, also
/// from 0 on.
#[derive(Clone, Copy, Debug)]
pub struct Faults {
    /// The most bytes that one read or write moves. 0 counts as 1.
    pub at_most: usize,
    /// Reads and writes with a number below this are interrupted.
    pub interruptions: u64,
    /// Reads and writes from this number on fail, unless they are interrupted.
    pub fails_from: u64,
    /// Writes from this number on return 0, unless they are interrupted or fail.
    pub stops_from: u64,
    /// Whether every flush fails. No flush is interrupted.
    pub flush_fails: bool,
}

impl Faults {
    /// No interruption and no failure.
    pub const NONE: Faults = Faults {
        at_most: usize::MAX,
        interruptions: 0,
        fails_from: u64::MAX,
        stops_from: u64::MAX,
        flush_fails: false,
    };
}

/// A device with bytes in memory that are read, or with room for bytes that are written. A read or write moves as many
/// bytes as three things allow: the `Faults`, the buffer, and what is left to read or to fill. A call goes wrong
/// exactly where the `Faults` say so. A write to a full device returns 0.
#[derive(Drop)]
pub struct Trial {
    bytes: Vec<u8>,
    // The number of bytes that were read.
    position: usize,
    // The number of bytes that can be written in all.
    room: usize,
    faults: Faults,
    reads: ReadCounts,
    writes: WriteCounts,
    ghost within: { position ≤ vec_len bytes },
    ghost roomy: { room ≤ vec_capacity bytes },
}

impl Trial {
    ghost use Rattle.qr_devices.specs.Device.{no_reads, no_writes};
    ghost use Rattle.qr_devices.specs.Trial.{bytes_held, bytes_left, moved};

    /// Returns a device from which a copy of `bytes` is read.
    ///
    /// # Errors
    ///
    /// Returns an error if memory for the copy is refused.
    pub fn reader(alloc: Global, bytes: &[u8], faults: Faults) -> Result<Trial, AllocError>
        ensures left { IfOk result (λ t. bytes_left t ≡ bytes.now) }
        ensures unread { IfOk result (λ t. t.reads ≡ no_reads) }
        ensures unwritten { IfOk result (λ t. t.writes ≡ no_writes) }
        ensures faults { IfOk result (λ t. t.faults ≡ faults) }
    {
        Ok(Trial {
            bytes: Vec::from_slice(alloc, bytes)?,
            position: 0,
            room: 0,
            faults,
            reads: ReadCounts::NONE,
            writes: WriteCounts::NONE,
        })
    }

    /// Returns a device that accepts up to `room` bytes.
    ///
    /// # Errors
    ///
    /// Returns an error if memory for `room` bytes is refused. This memory is requested when the device is made.
    pub fn writer(alloc: Global, room: usize, faults: Faults) -> Result<Trial, AllocError>
        ensures held { IfOk result (λ t. bytes_held t ≡ []) }
        ensures unwritten { IfOk result (λ t. t.writes ≡ no_writes) }
        ensures unread { IfOk result (λ t. t.reads ≡ no_reads) }
        ensures faults { IfOk result (λ t. t.faults ≡ faults) }
        ensures room { IfOk result (λ t. t.room ≡ room) }
    {
        Ok(Trial {
            bytes: Vec::with_capacity(alloc, room)?,
            position: 0,
            room,
            faults,
            reads: ReadCounts::NONE,
            writes: WriteCounts::NONE,
        })
    }

    /// Returns all bytes of a reader, whether they were read or not, or those that a writer has accepted.
    pub fn bytes(&self) -> &[u8]
        ensures { result.now ≡ bytes_held self.now }
    {
        self.bytes.as_slice()
    }

    /// Returns the counts of all reads since the device was made.
    pub fn reads(&self) -> ReadCounts
        ensures { result ≡ self.now.reads }
    {
        self.reads
    }

    /// Returns the counts of all writes and flushes since the device was made.
    pub fn writes(&self) -> WriteCounts
        ensures { result ≡ self.now.writes }
    {
        self.writes
    }

    fn give(&mut self, buf: &mut [u8], n: usize)
        requires there { self.old.position + n ≤ vec_len self.old.bytes }
        requires fits { n ≤ length buf.old }
        ensures given { bytes_left self.old ≡ take n buf.new ++ bytes_left self.new }
        ensures position { self.new.position ≡ self.old.position + n }
        ensures bytes { self.new.bytes ≡ self.old.bytes }
        ensures reads { self.new.reads ≡ self.old.reads }
        ensures faults { self.new.faults ≡ self.old.faults }
    {
        let end = self.position + n;
        buf[..n].copy_from_slice(&self.bytes.as_slice()[self.position..end]);
        self.position = end;
    }

    // Returns what the read or write with the number `call` returns, if the buffer and the device allow it to move at
    // most `there` bytes.
    fn moved(&self, call: u64, there: usize) -> Result<usize, Trouble>
        ensures value { result ≡ moved self.now.faults call there }
        ensures bound { IfOk result (λ n. n ≤ there) }
        ensures some { IfOk result (λ n. 0 < there → 0 < n) }
    {
        if call < self.faults.interruptions {
            Err(Trouble::Interrupted)
        } else if call >= self.faults.fails_from {
            Err(Trouble::Failed)
        } else {
            Ok(there.min(self.faults.at_most.max(1)))
        }
    }
}

impl Source for Trial {
    ghost use Rattle.std.specs.Prelude.{◌≡◌, ◌≤◌, IfOk, Some, length, min};
    ghost use Rattle.std.specs.Io.KnownBytes.{ReadConsumes};
    ghost use Rattle.qr_devices.specs.Device.{read_counted};
    ghost use Rattle.qr_devices.specs.Trial.{bytes_left, moved};

    ghost device = { λ t. record { remaining = Some (bytes_left t); counts = t.reads } };

    fn read(&mut self, buf: &mut [u8]) -> Result<usize, Trouble>
        ensures bound { IfOk result (λ n. n ≤ length buf.new) }
        ensures bytes { ReadConsumes (Some (bytes_left self.old)) (Some (bytes_left self.new)) result buf.new }
        ensures counted { self.new.reads ≡ read_counted (length buf.new) result self.old.reads }
        ensures answer { result ≡ moved self.old.faults self.old.reads.calls (min (length (bytes_left self.old)) (length buf.old)) }
        ensures faults { self.new.faults ≡ self.old.faults }
    {
        let left = self.bytes.len() - self.position;
        let answer = self.moved(self.reads.calls, left.min(buf.len()));
        if let Ok(n) = answer {
            self.give(buf, n);
        }
        self.reads.add(buf.len(), answer);
        answer
    }
}

impl Sink for Trial {
    ghost use Rattle.std.specs.Prelude.{◌≡◌, ◌≤◌, IfOk, Ok, Err, if◌then◌else◌, length, min, Some};
    ghost use Rattle.std.specs.Io.KnownBytes.{Keeps, WriteAppends};
    ghost use Rattle.qr_devices.specs.Device.{flush_counted, write_counted};
    ghost use Rattle.qr_devices.specs.Trial.{bytes_held, free_of, moved};

    ghost device = { λ t. record { taken = Some (bytes_held t); counts = t.writes; buffer = 0; rest = [] } };

    fn write(&mut self, buf: &[u8]) -> Result<usize, Trouble>
        ensures bound { IfOk result (λ n. n ≤ length buf.now) }
        ensures bytes { WriteAppends (Some (bytes_held self.old)) (Some (bytes_held self.new)) result buf.now }
        ensures counted { self.new.writes ≡ write_counted (length buf.now) result self.old.writes }
        ensures answer { result ≡ moved self.old.faults self.old.writes.calls (min (free_of self.old) (length buf.now)) }
        ensures faults { self.new.faults ≡ self.old.faults }
        ensures room { self.new.room ≡ self.old.room }
    {
        let free = if self.writes.calls < self.faults.stops_from {
            self.room.saturating_sub(self.bytes.len())
        } else {
            0
        };
        let answer = match self.moved(self.writes.calls, free.min(buf.len())) {
            Ok(n) => {
                // The memory for `room` bytes was requested when the device was made. So no memory is requested here,
                // and `extend_from_slice` cannot fail. The branch for a failure returns `Ok(0)`, as a full device does.
                if self.bytes.extend_from_slice(&buf[..n]).is_ok() {
                    Ok(n)
                } else {
                    Ok(0)
                }
            }
            Err(trouble) => Err(trouble),
        };
        self.writes.add(buf.len(), answer);
        answer
    }

    fn flush(&mut self) -> Result<(), Trouble>
        ensures bytes { Keeps (Some (bytes_held self.old)) (Some (bytes_held self.new)) }
        ensures counted { self.new.writes ≡ flush_counted result self.old.writes }
        ensures answer { result ≡ (if self.old.faults.flush_fails then Err Trouble.Failed else Ok tt) }
        ensures faults { self.new.faults ≡ self.old.faults }
        ensures room { self.new.room ≡ self.old.room }
    {
        let answer = if self.faults.flush_fails {
            Err(Trouble::Failed)
        } else {
            Ok(())
        };
        self.writes.add_flush(answer);
        answer
    }
}
