//! A writer in memory that accepts a limited number of bytes.

ghost use Rattle.std.specs.Prelude.{◌≡◌, ◌+◌, ◌-◌, ◌≤◌, Some, length, min, IfOk, IfErr, IsOk};
ghost use Rattle.std.specs.IoError.{error_kind};
ghost use Rattle.std.specs.Io.KnownBytes.{Keeps, WriteAppends};
ghost use Rattle.std.specs.Vec.{vec_capacity};
ghost use Rattle.std.specs.declared.io.ErrorKind.{ErrorKind};

use std::io::{self, Write};

/// A writer that appends to `bytes` until there are `most` bytes in all. A write takes as many bytes as there is room
/// for, which may be none. A write requests no memory if the capacity of `bytes` has room for what it takes.
#[derive(Drop)]
pub struct Bounded {
    pub bytes: Vec<u8>,
    pub most: usize,
}

impl Write for Bounded {
    ghost contents = { λ b. Some b.bytes.items };

    fn write(&mut self, buf: &[u8]) -> io::Result<usize>
        ensures bound { IfOk result (λ n. n ≤ length buf.now) }
        ensures bytes { WriteAppends (Some self.old.bytes.items) (Some self.new.bytes.items) result buf.now }
        ensures count { IfOk result (λ n. n ≡ min (self.old.most - length self.old.bytes.items) (length buf.now)) }
        ensures capacity { length self.old.bytes.items + length buf.now ≤ vec_capacity self.old.bytes → IsOk result }
        ensures kind { IfErr result (λ e. error_kind e ≡ ErrorKind.OutOfMemory) }
        ensures most { self.new.most ≡ self.old.most }
    {
        let room = self.most.saturating_sub(self.bytes.len());
        let taken = room.min(buf.len());
        self.bytes.extend_from_slice(&buf[..taken])?;
        Ok(taken)
    }

    fn flush(&mut self) -> io::Result<()>
        ensures bytes { Keeps (Some self.old.bytes.items) (Some self.new.bytes.items) }
        ensures ok { IsOk result }
        ensures unchanged { self.new ≡ self.old }
    {
        Ok(())
    }
}
