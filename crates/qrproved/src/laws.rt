//! Laws about the calls, and about the numbers that they take and return. A function here exists for its contract,
//! which is the law.

ghost use Rattle.std.specs.Prelude.{◌≡◌, ◌<◌, ◌≤◌, ◌↔◌, ℕ, [], ◌∷◌, map, true, false, Some, None};
ghost use Rattle.qr_layout.specs.declared.level.Level.{Level};
ghost use Rattle.qr_bits.specs.declared.modes.Rule.{Rule};
ghost use Rattle.qr_bits.specs.declared.interpretation.Fnc1.{Fnc1};
ghost use Rattle.qr_bits.specs.declared.interpretation.Interpretation.{Interpretation};
ghost use Rattle.qr_bits.specs.declared.interpretation.Item.{Item};
ghost use Rattle.qr_bits.specs.Interpretation.{MayAllowKanji};
ghost use Rattle.qr_bits.specs.declared.modes.Mode.{Mode};
ghost use Rattle.qrproved.specs.Modules.{byte_of};
ghost use Rattle.qrproved.specs.Document.{AreDocumentSettings, format_of};
ghost use Rattle.qrproved.specs.Drawing.{drawing_of, AreDrawingSettings};
ghost use Rattle.qrproved.specs.Mending.{spent_in, square_of_unknown, wrong_in};
ghost use Rattle.qr_matrix.specs.Grid.{colour};
ghost use Rattle.qr_documents.specs.declared.document.Document.{Document};
ghost use Rattle.qr_drawing.specs.declared.drawing.Drawing.{Drawing};
ghost use Rattle.qr_drawing.specs.declared.text.TextStyle.{TextStyle};
ghost use Rattle.qrproved.specs.Interpretation.{TellsFnc1, TellsKanji};
ghost use Rattle.qrproved.specs.Room.{mode_of};
ghost use Rattle.qrproved.specs.Row.{AreRowSettings, RowsAreTheDrawing, style_of};
ghost use Rattle.qrproved.specs.Settings.{AreSymbolSettings, interpretation_of, level_of, rule_of};

use crate::status::{
    CHECK, DONE, EMPTY, FIELDS, FORMAT, LOGO, MEMORY, NO_DRAWING, ROOM, SEGMENTS, SETTINGS, SIDE,
    TOO_LONG, TOO_MANY,
};

/// The statuses have the numbers 0 to 13, as `include/qrproved.h` lists them.
///
/// # Notes
///
/// Later versions keep these numbers.
pub fn statuses()
    ensures done { DONE ≡ 0 }
    ensures empty { EMPTY ≡ 1 }
    ensures too_long { TOO_LONG ≡ 2 }
    ensures too_many { TOO_MANY ≡ 3 }
    ensures memory { MEMORY ≡ 4 }
    ensures settings { SETTINGS ≡ 5 }
    ensures room { ROOM ≡ 6 }
    ensures side { SIDE ≡ 7 }
    ensures format { FORMAT ≡ 8 }
    ensures check { CHECK ≡ 9 }
    ensures segments { SEGMENTS ≡ 10 }
    ensures no_drawing { NO_DRAWING ≡ 11 }
    ensures fields { FIELDS ≡ 12 }
    ensures logo { LOGO ≡ 13 }
{}

/// Numbers have these meanings in calls. As a level, 0 to 3 are L, M, Q and H. As a rule, 0 to 2 are `Auto`,
/// `BytesOnly` and `WithKanji`. As a mode, 0 to 3 are `Numeric`, `Alphanumeric`, `Byte` and `Kanji`. As an
/// interpretation, 0 to 999,999 are ECIs, 1,000,000 is none, and 1,000,001 is GS1 data. Among the ECIs, kanji mode may
/// be allowed with 20 alone. `boost` is at most 1. FNC1 is told as 0 if there is none, as 1 if it is in first position,
/// and as 2 with its application indicator if it is in second position. That a symbol has a segment in kanji mode is
/// told as 1. A block with three misread codewords and five with a module that is not known uses up eleven error
/// correction codewords, and has eight wrong codewords for a scanner. As a drawing, 0 to 3 are ASCII, ASCIIi, UTF8 and
/// SVG. A module is written as 1 if it is dark and as 0 if it is light, and in `qrproved_mend` it is 2 if it is not
/// known. A drawing is made of 1 to 16 squares of 1 to 177 rows, with a margin of 0 to 100 modules.
#[tactic(auto, unfolding(qr_matrix::specs::Grid::rows_of, qr_matrix::specs::Grid::colour))]
pub fn numbers()
    ensures levels { map level_of (0 ∷ 1 ∷ 2 ∷ 3 ∷ []) ≡ Level.L ∷ Level.M ∷ Level.Q ∷ Level.H ∷ [] }
    ensures rules { map rule_of (0 ∷ 1 ∷ 2 ∷ []) ≡ Rule.Auto ∷ Rule.BytesOnly ∷ Rule.WithKanji ∷ [] }
    ensures modes { map mode_of (0 ∷ 1 ∷ 2 ∷ 3 ∷ []) ≡ Mode.Numeric ∷ Mode.Alphanumeric ∷ Mode.Byte ∷ Mode.Kanji ∷ [] }
    ensures ecis { (n : ℕ) → n < 1000000 → interpretation_of n ≡ Interpretation.Eci n }
    ensures interpretations { map interpretation_of (1000000 ∷ 1000001 ∷ []) ≡ Interpretation.Default ∷ Interpretation.Gs1 ∷ [] }
    ensures kanji { (n : ℕ) → MayAllowKanji (Interpretation.Eci n) ↔ (n ≡ 20) }
    ensures boosts { (version level rule interpretation boost : ℕ)
        → AreSymbolSettings version level rule interpretation boost → boost ≤ 1 }
    ensures no_fnc1 { TellsFnc1 None 0 0 }
    ensures first { TellsFnc1 (Some Fnc1.First) 1 0 }
    ensures second { TellsFnc1 (Some (Fnc1.Second 37)) 2 37 }
    ensures with_kanji { TellsKanji (Item.Fnc1First ∷ Item.Data (record { mode = Mode.Kanji; len = 2 }) ∷ []) 1 }
    ensures without_kanji { TellsKanji (Item.Fnc1First ∷ Item.Data (record { mode = Mode.Byte; len = 2 }) ∷ []) 0 }
    ensures spent { spent_in (record { misread = 3; erased = 5; erased_wrong = 1 }) ≡ 11 }
    ensures wrong { wrong_in (record { misread = 3; erased = 5; erased_wrong = 1 }) ≡ 8 }
    ensures bytes { map byte_of (true ∷ false ∷ []) ≡ 1 ∷ 0 ∷ [] }
    ensures drawings { map drawing_of (0 ∷ 1 ∷ 2 ∷ 3 ∷ []) ≡ Drawing.Ascii ∷ Drawing.AsciiInverse ∷ Drawing.Utf8 ∷ Drawing.Svg ∷ [] }
    ensures most { AreDrawingSettings 177 16 3 100 }
    ensures least { AreDrawingSettings 1 1 0 0 }
    ensures range { (side count drawing margin : ℕ) → AreDrawingSettings side count drawing margin
        → (side ≤ 177) × (count ≤ 16) × (drawing ≤ 3) × (margin ≤ 100) }
    ensures unknown { colour (square_of_unknown 2 (0 ∷ 2 ∷ 0 ∷ 0 ∷ [])) 0 1 ≡ true }
    ensures known { colour (square_of_unknown 2 (0 ∷ 2 ∷ 1 ∷ 3 ∷ [])) 1 1 ≡ false }
{}

/// As a format of documents, 0 to 2 are SVG with a size, EPS and PDF. A document is made of 1 to 16 squares of 1 to 177
/// rows, with a margin of 0 to 100 modules, and a module is 1 micrometre to 1 metre wide.
pub fn numbers_of_documents()
    ensures formats { map format_of (0 ∷ 1 ∷ 2 ∷ []) ≡ Document.Svg ∷ Document.Eps ∷ Document.Pdf ∷ [] }
    ensures most { AreDocumentSettings 177 16 2 100 1000000 }
    ensures least { AreDocumentSettings 1 1 0 0 1 }
    ensures range { (side count format margin micrometres : ℕ) → AreDocumentSettings side count format margin micrometres
        → (side ≤ 177) × (count ≤ 16) × (format ≤ 2) × (margin ≤ 100) × (micrometres ≤ 1000000) }
{}

/// The lines that `qrproved_draw_row` draws of the bits of a square are, one after the other, the text that
/// `qrproved_draw` draws of the bytes of this square.
pub fn rows_are_the_drawing()
    ensures { RowsAreTheDrawing }
{}

/// In `qrproved_draw_row` the numbers 0 to 2 mean the styles of ASCII, ASCIIi and UTF8. A square of 177 rows with a margin
/// of 100 modules has 377 lines in ASCII, and 189 in UTF8.
pub fn numbers_of_rows()
    ensures styles { map style_of (0 ∷ 1 ∷ 2 ∷ []) ≡ TextStyle.Plain ∷ TextStyle.Inverse ∷ TextStyle.HalfBlocks ∷ [] }
    ensures most { AreRowSettings 177 1 100 376 }
    ensures most_of_utf8 { AreRowSettings 177 2 100 188 }
    ensures least { AreRowSettings 1 0 0 0 }
    ensures past { AreRowSettings 177 2 100 189 → ⊥ }
{}
