//! The settings of a run of the command `qrencode`, which are read from its arguments: `options` returns `Settings` or
//! a `UsageFault`. `qrencode_cli` does the run, and exports these three.
//!
//! The files of `src`:
//!
//! - `arguments`: the options, as they are declared for `clap`
//! - `laws`: laws of the settings
//! - `settings`: the settings of a run, with their defaults
#![tactic(auto)]

mod arguments;
pub mod laws;
mod settings;

pub use settings::{Settings, UsageFault, options};
