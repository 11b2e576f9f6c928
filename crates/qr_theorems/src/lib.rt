//! The main theorems about the command and the library. No code calls them, so neither the program nor the library is
//! built from this crate. A theorem may join definitions of several crates, and stands here, above all of them. Laws that
//! code calls, and computed examples of definitions, are in the modules `laws` of the other crates.
#![tactic(auto)]

pub mod laws;
