//! A drawing job: which symbols a run draws, and how.

ghost use Rattle.std.specs.Prelude.{◌<◌, ◌≤◌, length};
ghost use Rattle.qr_symbol.specs.Series.{squares_of};
ghost use Rattle.qr_drawing.specs.Drawing.{HaveOneSide};

use qr_drawing::Drawing;
use qr_symbol::Symbol;

/// `symbols` are one plain symbol or a whole series.
#[derive(Drop)]
pub(crate) struct DrawingJob {
    pub symbols: Vec<Symbol>,
    pub kind: Drawing,
    pub margin: u8,
    ghost some: { 0 < length symbols.items },
    ghost few: { length symbols.items ≤ 16 },
    ghost one_side: { HaveOneSide (squares_of symbols.items) },
}
