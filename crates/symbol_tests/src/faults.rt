//! Tests of the texts of faults.

use qr_bits::{BitFault, ParseFault};
use qr_parsing::DrawingFault;
use qr_symbol::EncodeFault;
use qrencode_cli::UsageFault;
use std::fmt::Display;
use std::test::Fail;

fn text_of(rt: &HostRuntime, fault: &impl Display) -> Result<String, Fail> {
    Ok(format!(in rt.alloc(); "{fault}")?)
}

#[test]
fn texts_of_faults_without_a_line(rt: HostRuntime) -> Result<(), Fail> {
    let rows = [
        (text_of(&rt, &BitFault::Memory)?, "out of memory"),
        (
            text_of(&rt, &BitFault::TooLong)?,
            "the bits are more than the symbol holds",
        ),
        (text_of(&rt, &ParseFault::Memory)?, "out of memory"),
        (
            text_of(&rt, &ParseFault::BadMode)?,
            "unknown mode indicator",
        ),
        (
            text_of(&rt, &ParseFault::Cut)?,
            "the codewords end within a header or a segment",
        ),
        (
            text_of(&rt, &ParseFault::BadValue)?,
            "a group of digits or characters is too large",
        ),
        (
            text_of(&rt, &DrawingFault::NotADrawing)?,
            "not a drawing of symbols",
        ),
        (text_of(&rt, &DrawingFault::Memory)?, "out of memory"),
    ];
    for (text, wanted) in &rows {
        assert_eq!(rt; text.as_str(), *wanted);
    }
    Ok(())
}

// Each text is the line of the command for this fault, without the program's name and the newline.
#[test]
fn texts_of_faults_of_the_command(rt: HostRuntime) -> Result<(), Fail> {
    let rows = [
        (text_of(&rt, &UsageFault::Level)?, "unknown level"),
        (text_of(&rt, &UsageFault::Kind)?, "unknown type"),
        (text_of(&rt, &UsageFault::NeedsVersion)?, "-S needs -v"),
        (text_of(&rt, &UsageFault::Memory)?, "out of memory"),
        (text_of(&rt, &EncodeFault::Empty)?, "input is empty"),
        (text_of(&rt, &EncodeFault::TooLong)?, "input does not fit"),
        (text_of(&rt, &EncodeFault::TooMany)?, "more than 16 symbols"),
        (text_of(&rt, &EncodeFault::Memory)?, "out of memory"),
    ];
    for (text, wanted) in &rows {
        assert_eq!(rt; text.as_str(), *wanted);
    }
    Ok(())
}
