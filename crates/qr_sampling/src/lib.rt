//! This crate samples the modules of a symbol in a grey picture: for each module it says whether it is dark, light or not
//! known. It is given the picture and a map from the places of the symbol to those of the picture. What a module is has a
//! definition, in `specs`: the brightness at a place is in proportion between the four pixels around it, that of a module
//! is the mean at some places around its middle, and a module is compared with the light and the dark modules around it.
//!
//! Nothing is allocated: the caller gives the work memory.
//!
//! The files of `src`:
//!
//! - `laws`: laws of sampling
//! - `levels`: which modules are dark, by the brightness of those around them
//! - `map`: maps from the places of a symbol to those of a picture; defined in `Place`
//! - `means`: the brightness of the modules; defined in `Sampling`
//! - `picture`: grey pictures, and the brightness at a place; defined in `Brightness` and `Between`
//! - `sampling`: the modules of a symbol
#![tactic(auto)]

pub mod laws;
mod levels;
mod map;
mod means;
mod picture;
mod sampling;

pub use map::{Form, Map};
pub use picture::{Picture, PictureFault};
pub use sampling::{REACH_MAX, SIDE_MAX, Sampling, sample};
