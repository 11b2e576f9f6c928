//! The command `qrencode`: `run` reads the arguments and the input, and draws the symbols. For its callers the crate
//! also exports `options` of `qrencode_settings`, which only reads the arguments, and returns `Settings` or a
//! `UsageFault`; the devices `Counted` and `Trial` of `qr_devices`, with the traits `Source` and `Sink` and the types
//! `ReadCounts`, `WriteCounts`, `Trouble` and `Faults`; and `draw` of `qr_drawing`, with the types `Drawing` and
//! `DrawFault`.
//!
//! The files of `src`:
//!
//! - `command`: a run: settings, input, symbols and drawing; its definitions are in `Input`, `Symbols` and `Command`
//! - `drawing_job`: the symbols that a run draws, and how
//! - `fault`: the faults of a run, and the line that reports each
//! - `laws`: laws of the command
#![tactic(auto)]

mod command;
mod drawing_job;
mod fault;
pub mod laws;

pub use command::run;
pub use qr_devices::{Counted, Faults, ReadCounts, Sink, Source, Trial, Trouble, WriteCounts};
pub use qr_drawing::{DrawFault, Drawing, draw};
pub use qrencode_settings::{Settings, UsageFault, options};
