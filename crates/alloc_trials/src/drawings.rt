//! Trials of `parse_drawing`. The drawings show one square of eight rows without a margin.

use crate::answer::Answer;
use qr_drawing::Drawing;
use qr_parsing::{DrawingFault, parse_drawing};
use std::alloc::{AllocError, Global};

static ASCII: [u8; 136] =
    *b"##############  \n##          ##  \n##  ######  ##  \n##  ######  ####\n\
    ##  ######  ##  \n##          ####\n##############  \n                \n";

static UTF8: [u8; 82] =
    *b" \xE2\x96\x84\xE2\x96\x84\xE2\x96\x84\xE2\x96\x84\xE2\x96\x84 \xE2\x96\x88\n\
    \x20\xE2\x96\x88   \xE2\x96\x88 \xE2\x96\x80\n\
    \x20\xE2\x96\x88\xE2\x96\x84\xE2\x96\x84\xE2\x96\x84\xE2\x96\x88 \xE2\x96\x80\n\
    \xE2\x96\x84\xE2\x96\x84\xE2\x96\x84\xE2\x96\x84\xE2\x96\x84\xE2\x96\x84\xE2\x96\x84\xE2\x96\x88\n";

static SVG: [u8; 412] = *b"<?xml version=\"1.0\" encoding=\"UTF-8\"?>\n\
    <svg xmlns=\"http://www.w3.org/2000/svg\" version=\"1.1\" viewBox=\"0 0 8 8\" shape-rendering=\"crispEdges\">\n\
    <rect x=\"0\" y=\"0\" width=\"8\" height=\"8\" fill=\"#ffffff\"/>\n\
    <path fill=\"#000000\" d=\"M0 0h7v1h-7zM0 1h1v1h-1zM6 1h1v1h-1zM0 2h1v1h-1z\
    M2 2h3v1h-3zM6 2h1v1h-1zM0 3h1v1h-1zM2 3h3v1h-3zM6 3h2v1h-2z\
    M0 4h1v1h-1zM2 4h3v1h-3zM6 4h1v1h-1zM0 5h1v1h-1zM6 5h2v1h-2z\
    M0 6h7v1h-7z\"/>\n\
    </svg>\n";

fn parsed(alloc: Global, drawing: &[u8], kind: Drawing) -> Result<Answer, AllocError> {
    let text = Vec::from_slice(alloc, drawing)?;
    let answer = match parse_drawing(alloc, &text) {
        Ok(drawn) => Answer::of(
            (drawn.kind, drawn.margin) == (kind, 0)
                && drawn.squares.len() == 1
                && drawn.squares[0].side() == 8,
        ),
        Err(DrawingFault::Memory) => Answer::Memory("DrawingFault::Memory, arguments unchanged"),
        Err(DrawingFault::NotADrawing) => Answer::Other,
    };
    Ok(answer.given(text.as_slice() == drawing))
}

pub fn ascii(alloc: Global) -> Result<Answer, AllocError> {
    parsed(alloc, &ASCII, Drawing::Ascii)
}

pub fn utf8(alloc: Global) -> Result<Answer, AllocError> {
    parsed(alloc, &UTF8, Drawing::Utf8)
}

pub fn svg(alloc: Global) -> Result<Answer, AllocError> {
    parsed(alloc, &SVG, Drawing::Svg)
}
