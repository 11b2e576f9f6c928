//! Writes symbols as documents for print, which say how large they are on paper: Scalable Vector Graphics with a size in
//! millimetres, Encapsulated PostScript, and PDF, also as labels on sheets of paper. They are black on white, but a PDF
//! document of symbols may have two other colours. A document is written to a device in pieces, and no memory is allocated
//! for it.
//!
//! The files of `src`:
//!
//! - `boxes`: the boxes of EPS and PDF documents
//! - `colours`: the colours of PDF documents
//! - `document`: the formats and settings of documents for print, and the call that writes them
//! - `eps`: writes an EPS document
//! - `laws`: laws of documents for print
//! - `measures`: lengths in millimetres and points
//! - `pdf`: writes PDF documents
//! - `sheets`: writes labels on sheets of paper, and the call that does so
#![tactic(auto)]

mod boxes;
mod colours;
mod document;
mod eps;
pub mod laws;
mod measures;
mod pdf;
mod sheets;

pub use colours::Colours;
pub use document::{Document, DocumentSettings, write_document};
pub use sheets::{Sheet, SheetSettings, write_sheets};
