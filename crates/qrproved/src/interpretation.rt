//! How the bytes of a symbol are to be interpreted: its ECI headers and its FNC1 (ISO/IEC 18004:2015, 7.4.2, 7.4.8).

ghost use Rattle.std.specs.Prelude.{◌≡◌};
ghost use Rattle.std.specs.List.{list_any};
ghost use Rattle.qrproved.specs.Interpretation.{HoldsEcis, TellsFnc1, is_kanji, told_eci};

use qr_bits::{EciChange, Fnc1, Item, Mode};

/// An ECI header of a symbol that was read. The bytes of the content have this ECI from index `begin` up to the next
/// header.
#[repr(C)]
#[derive(Clone, Copy)]
pub struct QrprovedEci {
    /// How many bytes of the content come before the header.
    pub begin: usize,
    /// The number of the ECI, 0 to 999,999: 26 is UTF-8.
    pub number: u32,
}

fn told_eci(change: EciChange) -> QrprovedEci
    ensures { result ≡ told_eci change }
{
    QrprovedEci {
        begin: change.begin,
        number: change.number,
    }
}

/// Writes the ECI headers to the start of the buffer. If this is too short for all headers, only the first ones are
/// written.
pub(crate) fn write_ecis(changes: &[EciChange], out: &mut [QrprovedEci])
    ensures { HoldsEcis changes.now out.old out.new }
{
    let count = changes.len().min(out.len());
    for i in 0..count {
        out[i] = told_eci(changes[i]);
    }
}

fn is_kanji(item: &Item) -> bool
    ensures { result ≡ is_kanji item.now }
{
    match item {
        Item::Data(segment) => matches!(segment.mode, Mode::Kanji),
        _ => false,
    }
}

/// Returns whether one of the items is a segment in kanji mode.
pub(crate) fn has_kanji(items: &[Item]) -> bool
    ensures { result ≡ list_any is_kanji items.now }
{
    items.iter().any(|item| is_kanji(item))
}

/// Returns (0, 0) without FNC1, (1, 0) for FNC1 in first position, and 2 with the application indicator for FNC1 in
/// second position.
pub(crate) fn fnc1_numbers(fnc1: Option<Fnc1>) -> (u8, u8)
    ensures { TellsFnc1 fnc1 result.0 result.1 }
{
    match fnc1 {
        None => (0, 0),
        Some(Fnc1::First) => (1, 0),
        Some(Fnc1::Second(application)) => (2, application),
    }
}
