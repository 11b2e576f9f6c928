//! This crate reads clean pictures: pictures in grey that show one square with the finder patterns of a symbol, and nothing
//! else, as programs draw them. Each module is a square of whole pixels, and there are two grey values, one for dark
//! modules and one for light modules and the margins. The crate accepts exactly these pictures. The square may be light on
//! dark, turned by quarter turns, and near to the edges of the picture. Whether it is a symbol, the caller finds out by
//! reading it.
//!
//! The frame of the square and the size of its modules are guessed from two rows of pixels. Then every pixel is compared
//! with the drawing of the modules in this frame. So nothing else has to be checked: if the guess is wrong, or if there
//! is anything else in the picture, a pixel differs.
//!
//! The finder patterns of a symbol that is mirrored are at the same corners. So the square of such a symbol is found too,
//! as it is in the picture. The caller reads the square and its mirror image.
//!
//! The files of `src`:
//!
//! - `clean`: reads a clean picture
//! - `drawn`: compares every pixel with the drawing
//! - `frame`: guesses the frame of the square from the pixels
//! - `laws`: laws of pictures
//! - `lines`: ends of runs in a row of pixels
//! - `picture`: a picture in grey
//! - `turn`: finds the turn of the square by its finder patterns
#![tactic(auto)]

mod clean;
mod drawn;
mod frame;
pub mod laws;
mod lines;
mod picture;
mod turn;

pub use clean::{CleanSquare, clean_square, write_modules};
pub use frame::Frame;
pub use picture::Picture;
pub use turn::Turn;
