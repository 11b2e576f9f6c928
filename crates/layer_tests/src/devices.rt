//! Tests of `Counted`, which passes calls on to a `Read` or a `Write` of the standard library, and turns the errors that
//! they return into `Trouble`. No contract says that a flush is passed on.

use crate::checks::check_eq;
use qr_devices::{Counted, Sink, Source, Trouble};
use std::io::{self, ErrorKind, Read, Write};

// A reader and writer whose first call is interrupted, whose second fails, and whose later calls succeed. It counts its
// calls and flushes in variables of the test.
#[derive(Drop)]
struct Rough<'a> {
    calls: &'a mut u8,
    flushes: &'a mut u8,
}

impl Rough<'_> {
    // Counts a call, and returns its error if it has one.
    fn error(&mut self) -> Option<io::Error> {
        *self.calls = self.calls.saturating_add(1);
        match *self.calls {
            1 => Some(ErrorKind::Interrupted.into()),
            2 => Some(ErrorKind::BrokenPipe.into()),
            _ => None,
        }
    }
}

impl Read for Rough<'_> {
    fn read(&mut self, buf: &mut [u8]) -> io::Result<usize> {
        match self.error() {
            Some(error) => Err(error),
            None => Ok(buf.len().min(1)),
        }
    }
}

impl Write for Rough<'_> {
    fn write(&mut self, buf: &[u8]) -> io::Result<usize> {
        match self.error() {
            Some(error) => Err(error),
            None => Ok(buf.len().min(1)),
        }
    }

    fn flush(&mut self) -> io::Result<()> {
        *self.flushes = self.flushes.saturating_add(1);
        match self.error() {
            Some(error) => Err(error),
            None => Ok(()),
        }
    }
}

#[test]
fn reads_are_passed_on(rt: HostRuntime) {
    let (mut calls, mut flushes) = (0, 0);
    let mut device = Counted::new(Rough {
        calls: &mut calls,
        flushes: &mut flushes,
    });
    let mut buf = [0u8; 4];
    check_eq!(rt; device.read(&mut buf), Err(Trouble::Interrupted));
    check_eq!(rt; device.read(&mut buf), Err(Trouble::Failed));
    check_eq!(rt; device.read(&mut buf), Ok(1));
    check_eq!(rt; calls, 3);
}

#[test]
fn writes_and_flushes_are_passed_on(rt: HostRuntime) {
    let (mut calls, mut flushes) = (0, 0);
    let mut device = Counted::new(Rough {
        calls: &mut calls,
        flushes: &mut flushes,
    });
    check_eq!(rt; device.write(b"ab"), Err(Trouble::Interrupted));
    check_eq!(rt; device.flush(), Err(Trouble::Failed));
    check_eq!(rt; device.write(b"ab"), Ok(1));
    check_eq!(rt; device.flush(), Ok(()));
    check_eq!(rt; calls, 4);
    check_eq!(rt; flushes, 2);
}
