//! Laws of drawings: which characters show modules, what small squares look like, and which texts make an SVG document.
//! The contract of a function with an empty body is the law.

ghost use Rattle.std.specs.Prelude.{◌≡◌, ◌==◌, ◌+◌, ◌*◌, ◌++◌, ◌∷◌, [], ℕ, codes, decimal};
ghost use Rattle.qr_matrix.specs.Grid.{Grid, square};
ghost use Rattle.qr_drawing.specs.Svg.{background, box_path, closing, declaration, foreground, numbered, opening, stack_path, svg_document};
ghost use Rattle.qr_drawing.specs.Drawing.{drawn};
ghost use Rattle.qr_drawing.specs.declared.drawing.Drawing.TheVariants.{Ascii, AsciiInverse, Utf8};
ghost use Rattle.qr_drawing.specs.Laws.{CharactersOfModules};

/// `CharactersOfModules` lists the characters that show modules. In the style `Plain` two characters show one module.
/// In the style `HalfBlocks` one character shows two modules, one above the other, so 29 rows of modules need 15 lines.
pub fn characters_of_modules()
    ensures { CharactersOfModules }
{}

/// Drawings of squares of two by two modules, of which only the first row is dark, with a margin of one module or none.
/// The clause `document` lists the parts of an SVG document that shows a square of any size twice.
#[tactic(auto, unfolding(crate::specs::Raster::texts_below, qr_matrix::specs::Raster::is_dark_at, crate::specs::Svg::begins_run, crate::specs::Svg::run_length, crate::specs::Svg::run_path, crate::specs::Svg::row_path, crate::specs::Svg::symbol_path, crate::specs::Svg::stack_path, crate::specs::Svg::declaration, crate::specs::Svg::foreground, crate::specs::Svg::closing, crate::specs::Svg::svg_document, qr_matrix::specs::Grid::rows_of, qr_matrix::specs::Grid::colour))]
pub fn drawings_compute()
    ensures ascii { drawn Ascii 1 (square 2 (λ r c. r == 0) ∷ []) ≡ codes "        \n  ####  \n        \n        \n" }
    ensures inverse { drawn AsciiInverse 1 (square 2 (λ r c. r == 0) ∷ []) ≡ codes "########\n##    ##\n########\n########\n" }
    ensures utf8 { drawn Utf8 0 (square 2 (λ r c. r == 0) ∷ []) ≡ 0xE2 ∷ 0x96 ∷ 0x84 ∷ 0xE2 ∷ 0x96 ∷ 0x84 ∷ 10 ∷ [] }
    ensures path { stack_path 1 (square 2 (λ r c. r == 0) ∷ square 2 (λ r c. r == 0) ∷ []) ≡ box_path 1 1 2 ++ box_path 1 5 2 }
    ensures black { foreground 1 [] ≡ codes "<path fill=\"#000000\" d=\"\"/>\n" }
    ensures document { (g : Grid) → svg_document 1 (g ∷ g ∷ []) ≡ declaration ++ opening (2 + g.side) ((2 + g.side) * 2) ++ background (2 + g.side) ((2 + g.side) * 2) ++ foreground 1 (g ∷ g ∷ []) ++ closing }
{}

/// The parts of an SVG document that have numbers in them: a box, the line that opens the document, and the line that
/// makes it white.
#[tactic(auto, unfolding(crate::specs::Svg::numbered, crate::specs::Svg::box_path, crate::specs::Svg::opening, crate::specs::Svg::background))]
pub fn svg_texts()
    ensures boxes { (x y n : ℕ) → box_path x y n ≡ (codes "M" ++ decimal x) ++ (codes " " ++ decimal y) ++ (codes "h" ++ decimal n) ++ (codes "v1h-" ++ decimal n) ++ codes "z" }
    ensures opened { (w h : ℕ) → opening w h ≡ (codes "<svg xmlns=\"http://www.w3.org/2000/svg\" version=\"1.1\" viewBox=\"0 0 " ++ decimal w) ++ (codes " " ++ decimal h) ++ codes "\" shape-rendering=\"crispEdges\">\n" }
    ensures white { (w h : ℕ) → background w h ≡ (codes "<rect x=\"0\" y=\"0\" width=\"" ++ decimal w) ++ (codes "\" height=\"" ++ decimal h) ++ codes "\" fill=\"#ffffff\"/>\n" }
{}
