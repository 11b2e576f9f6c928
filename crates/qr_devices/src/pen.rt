//! Writes a text in pieces of at most 1,200 bytes, without allocating memory. The pen is a buffer for such a piece.
//! Whoever appends to it first calls `reserve`, which writes what the pen contains if the next bytes would not fit.
//!
//! The bytes of the pen are in a `Piece`, which is memory of a fixed size to which bytes are appended.

ghost use Rattle.std.specs.Prelude.{MatchResult, OnErr, OnOk, [], drop, is_err, length, max, take, ◌++◌, ◌+◌, ◌<◌, ◌∷◌, ◌≡◌, ◌≤◌};
ghost use Rattle.std.specs.Io.KnownBytes.{Appends};
ghost use Rattle.qr_devices.specs.Device.{AppendsBeginning, IsWrittenWithin, counted, is_write_fault, no_writes};
ghost use Rattle.qr_devices.specs.declared.device.TheConstants.{INTERRUPTIONS_MAX};
ghost use Rattle.qr_devices.specs.Writing.{Stops, Writes};
ghost use Rattle.qr_devices.specs.declared.pen.TheConstants.{WRITE_MAX};

use crate::device::{INTERRUPTIONS_MAX, Sink, Trouble};
use std::marker::Model;
use thiserror::Error;

/// A text of at most `CAP` bytes: the first `len` of `bytes`. The bytes after these mean nothing. So a short text may
/// be appended by copying a fixed number of bytes, even if it has fewer. Such a copy takes one or two instructions.
#[derive(Drop)]
pub struct Piece<const CAP: usize> {
    pub bytes: [u8; CAP],
    pub len: usize,
}

impl<const CAP: usize> Model for Piece<CAP> {
    ghost use Rattle.std.specs.Prelude.{◌≡◌, ◌≤◌, ℕ, List, length, take};

    ghost Value = { List ℕ };

    ghost view = { λ p. take p.len p.bytes };

    ghost invariant = { λ p. (p.len ≤ CAP) × (length p.bytes ≡ CAP) };
}

impl<const CAP: usize> Piece<CAP> {
    /// Returns how many bytes the text has.
    #[inline(always)]
    pub fn len(&self) -> usize
        ensures value { result ≡ length self.now }
        ensures most { result ≤ CAP }
    {
        self.len
    }

    /// Makes the text empty.
    #[inline(always)]
    pub fn clear(&mut self)
        ensures { self.new ≡ [] }
    {
        self.len = 0;
    }

    /// Returns the bytes of the text.
    #[inline(always)]
    pub fn as_slice(&self) -> &[u8]
        ensures value { result.now ≡ self.now }
        ensures most { length result.now ≤ CAP }
    {
        &self.bytes[..self.len]
    }

    /// Appends one byte.
    #[inline(always)]
    pub fn push(&mut self, byte: u8)
        requires { length self.old < CAP }
        ensures items { self.new ≡ self.old ++ byte ∷ [] }
        ensures len { length self.new ≡ length self.old + 1 }
    {
        self.bytes[self.len] = byte;
        self.len += 1;
    }

    /// Appends all bytes of `bytes`.
    #[inline(always)]
    pub fn push_all(&mut self, bytes: &[u8])
        requires { length self.old + length bytes.now ≤ CAP }
        ensures items { self.new ≡ self.old ++ bytes.now }
        ensures len { length self.new ≡ length self.old + length bytes.now }
    {
        let start = self.len;
        let all = &mut self.bytes[..];
        all[start..start + bytes.len()].copy_from_slice(bytes);
        self.len = start + bytes.len();
    }

    /// Appends the first `count` bytes of `bytes`, by copying all `N` bytes.
    #[inline(always)]
    pub fn push_first<const N: usize>(&mut self, bytes: &[u8; N], count: usize)
        requires room { length self.old + N ≤ CAP }
        requires count { count ≤ N }
        ensures items { self.new ≡ self.old ++ take count bytes.now }
        ensures len { length self.new ≡ length self.old + count }
    {
        let start = self.len;
        let all = &mut self.bytes[..];
        all[start..start + N].copy_from_slice(bytes);
        self.len = start + count;
    }

    /// Appends `short`, by copying all `N` bytes of its array.
    #[inline(always)]
    pub fn push_piece<const N: usize>(&mut self, short: &Piece<N>)
        requires { length self.old + N ≤ CAP }
        ensures items { self.new ≡ self.old ++ short.now }
        ensures len { length self.new ≤ length self.old + N }
    {
        self.push_first(&short.bytes, short.len);
    }
}

/// The greatest number of bytes that one write offers.
pub const WRITE_MAX: usize = 1200;

/// The size of the pen's buffer. It is eight bytes more than the pen may contain, because `Piece::push_first` may copy
/// up to eight bytes more than it appends. Those that it copies but does not append may lie beyond `WRITE_MAX`.
pub const PEN_SIZE: usize = WRITE_MAX + 8;

/// Why a drawing or an image was not written to its end.
#[derive(Clone, Copy, Debug, Error)]
pub enum DrawFault {
    /// The writer failed, accepted no byte of a write, or was interrupted for the 1,000th time.
    #[error("write error")]
    Write = 1,
}

/// A buffer for bytes that are not written yet, which are those of `piece`. `interrupted` is the number of writes that
/// were interrupted so far.
#[derive(Drop)]
pub struct Pen {
    pub piece: Piece<PEN_SIZE>,
    pub interrupted: u16,
    ghost full: { length piece ≤ WRITE_MAX },
    ghost few: { interrupted ≤ INTERRUPTIONS_MAX },
}

// Offers `bytes` to the writer until it has accepted all of them. `interrupted` is the number of interrupted writes
// before this call, and the result is their number after it. The label of the loop is for the prover.
#[inline(never)]
fn send<W: Sink>(out: &mut W, bytes: &[u8], interrupted: u16) -> Result<u16, DrawFault>
    requires { interrupted ≤ INTERRUPTIONS_MAX }
    ensures writes { MatchResult result
        (λ interruptions. Writes (W.device out.old) (W.device out.new)
        interrupted interruptions bytes.now [])
        (λ _. Stops (W.device out.old) (W.device out.new)
        interrupted bytes.now) }
    ensures few { MatchResult result (λ interruptions. interruptions ≤ INTERRUPTIONS_MAX) (λ _. Unit {0}) }
{
    let mut at: usize = 0;
    let mut interruptions = interrupted;
    'offers: while at < bytes.len() {
        let len = (bytes.len() - at).min(WRITE_MAX);
        match out.write(&bytes[at..at + len]) {
            Ok(taken) => {
                if taken == 0 {
                    return Err(DrawFault::Write);
                }
                at += taken;
            }
            Err(Trouble::Interrupted) => {
                if interruptions == INTERRUPTIONS_MAX {
                    return Err(DrawFault::Write);
                }
                interruptions += 1;
            }
            Err(Trouble::Failed) => return Err(DrawFault::Write),
        }
    }
    Ok(interruptions)
}

impl Pen {
    ghost use Rattle.std.specs.Prelude.{◌≡◌, ◌≤◌, ◌+◌, [], OnOk, length};
    ghost use Rattle.qr_devices.specs.Pen.{Reserves};

    /// Returns a pen without bytes, before the first write.
    pub fn new() -> Pen
        ensures piece { result.piece ≡ [] }
        ensures interrupted { result.interrupted ≡ 0 }
    {
        Pen {
            piece: Piece {
                bytes: [0; PEN_SIZE],
                len: 0,
            },
            interrupted: 0,
        }
    }

    /// Makes room for `room` bytes, of the `WRITE_MAX` that the pen may contain. If the pen has less room, all its bytes
    /// are written. So the pen is empty after a call with `WRITE_MAX`. Interrupted writes (EINTR) are tried again, at
    /// most 999 times in all calls with one pen. Does not flush `out`.
    ///
    /// # Errors
    ///
    /// `Write`, only if a write fails or accepts no byte, or if 1,000 writes are interrupted; `out` has then accepted a
    /// prefix of the pen's bytes.
    #[inline(always)]
    pub fn reserve<W: Sink>(&mut self, out: &mut W, room: usize) -> Result<(), DrawFault>
        requires { room ≤ WRITE_MAX }
        ensures writes { Reserves (W.device out.old) (W.device out.new)
            self.old self.new result }
        ensures room { OnOk result (length self.new.piece + room ≤ WRITE_MAX) }
    {
        if self.piece.len + room > WRITE_MAX {
            self.interrupted = send(out, &self.piece.bytes[..self.piece.len], self.interrupted)?;
            self.piece.len = 0;
        }
        Ok(())
    }
}

/// Writes `text`, at most 1,200 bytes at a time. Interrupted writes (EINTR) are tried again, at most 999 times in one
/// call. Does not flush `out`.
///
/// # Errors
///
/// `Write`, only if a write fails or accepts no byte, or if 1,000 writes are interrupted; `out` has then accepted a
/// prefix of `text`.
pub fn write_text<W: Sink>(text: &[u8], out: &mut W) -> Result<(), DrawFault>
    ensures ok { OnOk result (Appends (W.device out.old).taken (W.device out.new).taken text.now) }
    ensures err { OnErr result (AppendsBeginning (W.device out.old).taken (W.device out.new).taken text.now) }
    ensures fault { (W.device out.old).counts ≡ no_writes → is_write_fault (W.device out.new).counts ≡ is_err result }
    ensures taken { (W.device out.old).counts ≡ no_writes → OnOk result ((W.device out.new).counts.taken ≡ counted (length text.now)) }
    ensures most { (W.device out.old).counts ≡ no_writes → OnErr result ((W.device out.new).counts.taken ≤ counted (length text.now)) }
    ensures within { (W.device out.old).counts ≡ no_writes → IsWrittenWithin (W.device out.new).counts }
    ensures offered { (W.device out.new).counts.offered ≤ max (W.device out.old).counts.offered WRITE_MAX }
    ensures flushes { (W.device out.new).counts.flushes ≡ (W.device out.old).counts.flushes }
    ensures buffer { (W.device out.new).buffer ≡ (W.device out.old).buffer }
    ensures rest { OnOk result ((W.device out.new).rest ≡ drop (length text.now) (W.device out.old).rest) }
{
    send(out, text, 0)?;
    Ok(())
}
