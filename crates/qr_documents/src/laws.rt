//! Laws of documents for print: lengths and colours, where the objects of a PDF document are, and how its size comes into
//! an SVG document. The contract of a function with an empty body is the law.

ghost use Rattle.std.specs.Prelude.{◌≡◌, ◌*◌, ◌++◌, [], ℕ, List, codes};
ghost use Rattle.qr_matrix.specs.Grid.{Grid};
ghost use Rattle.qr_drawing.specs.Svg.{numbered};
ghost use Rattle.qr_documents.specs.Colours.{dark_colour, fill_colour, light_square};
ghost use Rattle.qr_documents.specs.Laws.{HasItsPlaces, IsSizedAlone};
ghost use Rattle.qr_documents.specs.Measures.{millimetres, points, whole_points};
ghost use Rattle.qr_documents.specs.Pdf.{Pages};

/// A document for print is 25.4 millimetres wide if it is 100 modules wide and a module has 254 micrometres. This is an
/// inch, and so 72 points. A module of 333 micrometres has 0.943937 points, rounded down, and a length of one point and
/// a bit is two whole points.
pub fn measures_compute()
    ensures millimetres { millimetres (100 * 254) ≡ codes "25.400" }
    ensures inch { points (100 * 254) ≡ codes "72.000000" }
    ensures rounded { points 333 ≡ codes "0.943937" }
    ensures whole { whole_points 353 ≡ codes "2" }
    ensures exact { whole_points 25400 ≡ codes "72" }
{}

/// The commands that choose red, and the colour 0x336680: 51, 102 and 128 are 0.2, 0.4 and 0.502 of 255, the last one
/// rounded. A square without colours is white and gets black modules. A square with colours is filled with the light
/// one, or not at all if there is none.
pub fn colours_compute()
    ensures red { fill_colour 0xFF0000 ≡ codes "1.000 0.000 0.000 rg" }
    ensures mixed { fill_colour 0x336680 ≡ codes "0.200 0.400 0.502 rg" }
    ensures plain { (w : ℕ) → light_square None w ++ dark_colour None ≡ numbered (codes "1 g 0 0 ") w ++ numbered (codes " ") w ++ codes " re f\n0 g\n" }
    ensures filled { (dark light w : ℕ) → light_square (Some (record { dark = dark; light = Some light })) w ≡ fill_colour light ++ numbered (codes " 0 0 ") w ++ numbered (codes " ") w ++ codes " re f\n" }
    ensures bare { (dark w : ℕ) → light_square (Some (record { dark = dark; light = None })) w ≡ [] }
    ensures modules { (dark light : ℕ) → dark_colour (Some (record { dark = dark; light = Some light })) ≡ fill_colour dark ++ codes "\n" }
{}

/// Each object of a PDF document begins after as many bytes as the table says, and the table after as many as the
/// trailer says. This is so whatever pages the document has.
pub fn objects_are_in_their_places()
    ensures { (p : Pages) → HasItsPlaces p }
{}

/// An SVG document with a size differs from the drawing of the same squares in its size alone.
pub fn sized_documents_are_drawings()
    ensures { (micrometres margin : ℕ) → (squares : List Grid) → IsSizedAlone micrometres margin squares }
{}
