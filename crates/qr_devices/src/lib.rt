//! Devices are readers (`Source`) and writers (`Sink`) that count their calls and the results of these calls
//! (`ReadCounts`, `WriteCounts`). A call that goes wrong returns a `Trouble`. At most `INTERRUPTIONS_MAX` interrupted
//! calls are tried again. `Counted` makes a device of any reader or writer that implements the standard library's
//! `Read` or `Write`, such as a file or a pipe. `Bounded` is such a writer: it appends a limited number of bytes to a
//! vector in memory. `Gauge` and `Filler` are devices that allocate nothing: one counts the bytes of a text, and the other
//! writes them into a buffer. `Trial` is a device in memory, for tests; its `Faults` say where its calls go wrong.
//!
//! `Pen` is a buffer through which drawings and images are written in pieces of at most `WRITE_MAX` bytes. `write_text`
//! writes a text in such pieces. If a write goes wrong, both return a `DrawFault`.
//!
//! The files of `src`:
//!
//! - `bounded`: a writer in memory that accepts a limited number of bytes
//! - `buffer`: a writer that only counts, and one into a buffer of the caller
//! - `device`: readers, writers and their counts; how often an interrupted call is tried again
//! - `laws`: laws of devices, of their counts and of the pen
//! - `pen`: the buffer through which drawings and images are written
//! - `trial`: a device in memory, for tests
#![tactic(auto)]

mod bounded;
mod buffer;
mod device;
pub mod laws;
mod pen;
mod trial;

pub use bounded::Bounded;
pub use buffer::{Filler, Gauge};
pub use device::{Counted, INTERRUPTIONS_MAX, ReadCounts, Sink, Source, Trouble, WriteCounts};
pub use pen::{DrawFault, PEN_SIZE, Pen, Piece, WRITE_MAX, write_text};
pub use trial::{Faults, Trial};
