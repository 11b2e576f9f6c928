//! The theorems, in the order of README's claims. The contract of each function is the theorem.

ghost use Rattle.std.specs.Prelude.{List, MatchResult, Option, false, length, ℕ, ◌*◌, ◌<◌, ◌≡◌, ◌≤◌};
ghost use Rattle.std.specs.List.{All};
ghost use Rattle.qr_layout.specs.Version.{total_codewords_of};
ghost use Rattle.qr_layout.specs.declared.level.Level.{Level};
ghost use Rattle.qr_matrix.specs.Grid.{Grid};
ghost use Rattle.qr_bits.specs.Interpretation.{MayWrite};
ghost use Rattle.qr_bits.specs.Modes.{may_use};
ghost use Rattle.qr_bits.specs.Parsing.{Content};
ghost use Rattle.qr_bits.specs.declared.interpretation.Interpretation.{Interpretation};
ghost use Rattle.qr_bits.specs.declared.modes.Mode.{Mode};
ghost use Rattle.qr_bits.specs.declared.modes.Rule.{Rule};
ghost use Rattle.qr_bits.specs.declared.stream.Header.{Header};
ghost use Rattle.qr_symbol.specs.Encoding.{IsSymbolAt};
ghost use Rattle.qr_symbol.specs.Joining.{IsJoined};
ghost use Rattle.qr_symbol.specs.Reading.{IsReading, interpreted_content};
ghost use Rattle.qr_symbol.specs.Redrawing.{IsRedrawn};
ghost use Rattle.qr_symbol.specs.Series.{AreParts, FitParts, HasNoSeries, IsSeries, NeedsParts, squares_of};
ghost use Rattle.qr_symbol.specs.Symbol.{grid_of};
ghost use Rattle.qr_symbol.specs.declared.fault.ReadFault.{ReadFault};
ghost use Rattle.qr_symbol.specs.declared.symbol.Symbol.{Symbol};
ghost use Rattle.qr_mending.specs.Format.{IsNearFormat, format_cost};
ghost use Rattle.qr_mending.specs.Mending.{HasFormat, HoldsDamaged, wrong_format_least, wrong_format_modules, wrong_modules};
ghost use Rattle.qr_mending.specs.declared.erasures.Changes.{Changes};
ghost use Rattle.qr_mending.specs.declared.format.FormatCopy.{FormatCopy};
ghost use Rattle.qr_theorems.specs.Damage.{AreDamagedSquares, DifferInFewModules};
ghost use Rattle.qr_theorems.specs.Distance.{DamagedMessagesAreOne, MessagesLieApart, SymbolsLieApart};
ghost use Rattle.qr_theorems.specs.Images.{ImagesAreRead};
ghost use Rattle.qr_theorems.specs.Pictures.{IsReadFrom};
ghost use Rattle.qr_theorems.specs.Laws.{OutputsReadBack};

use qr_bits::Rule;
use qr_images::laws::files_are_read_back;
use qr_layout::{Level, Version};
use qr_matrix::Matrix;
use qr_mending::{Mended, mend_series, mend_symbol, mend_symbol_with_unknown};
use qr_pictures::laws::clean_pictures_are_one;
use qr_pictures::{CleanSquare, Picture, clean_square, write_modules};
use qr_symbol::ReadFault;
use std::alloc::Global;

/// Each part into which `encode_series` cuts an input fits a symbol with a structured append header. The rest of this
/// law is about rules without kanji mode. With such a rule, no other way to cut the input into parts that fit yields
/// fewer parts. So the series of a nonempty input has the least possible number of symbols. And an input without a
/// series cannot be cut into 16 or fewer parts that fit.
pub fn series_are_shortest()
    ensures fit { (v : ℕ) (l : Level) (rule : Rule) (i : Interpretation) (x : List ℕ)
        (parts : List (List ℕ)) → AreParts v l rule i x parts → FitParts v l rule i x parts }
    ensures parts { (v : ℕ) (l : Level) (rule : Rule) (i : Interpretation) (x : List ℕ)
        (parts : List (List ℕ)) → MayWrite i x → may_use rule Mode.Kanji ≡ false
        → AreParts v l rule i x parts → NeedsParts v l rule i x (length parts) }
    ensures series { (x : List ℕ) (l : Level) (rule : Rule) (i : Interpretation) (v : ℕ) (ss : List Symbol)
        → MayWrite i x → may_use rule Mode.Kanji ≡ false → 0 < length x
        → IsSeries v l rule i x ss → NeedsParts v l rule i x (length ss) }
    ensures none { (x : List ℕ) (l : Level) (rule : Rule) (i : Interpretation) (v : ℕ) → 1 ≤ v → v ≤ 40
        → MayWrite i x → may_use rule Mode.Kanji ≡ false → HasNoSeries v l rule i x → NeedsParts v l rule i x 17 }
{}

/// A run that returns 0 wrote a drawing, and this drawing alone suffices to read the input. The drawing belongs to one
/// type, one margin and one list of squares only: the type and the margin of the settings, and the symbols of the
/// input. Read and joined, these symbols yield the input, folded if `-i` is given. `parse_drawing` of `qr_parsing`
/// returns the squares of such a drawing.
pub fn outputs_read_back()
    ensures { OutputsReadBack }
{}

/// Reading the symbol of an input yields the bytes of the input, the interpretation, the segments of fewest bits, and
/// the structured append header, if the symbol has one.
pub fn symbols_are_read(version: Version)
    ensures { (x : List ℕ) (l : Level) (rule : Rule) (i : Interpretation) (h : Option Header) (mask : ℕ) (g : Grid)
        → MayWrite i x → (s : IsSymbolAt version l rule i x h mask g)
        → IsReading g (interpreted_content i h s.segments x) }
{}

/// Whoever has made a symbol that can be read, it contains at most 7,089 bytes and at most 1,970 ECI headers.
pub fn readings_are_short()
    ensures { (g : Grid) (c : Content) → IsReading g c → (length c.bytes ≤ 7089) × (length c.ecis ≤ 1970) }
{}

/// If two squares of one version and level contain different data codewords, there is a block in which they differ in
/// more codewords than the block has error correction codewords.
#[tactic(auto, using(crate::proofs::Named::distances))]
pub fn messages_lie_apart(version: Version, level: Level)
    ensures { MessagesLieApart version level }
{}

/// At a given version and level, the codewords of a damaged symbol belong to at most one list of data codewords, if the
/// damage is limited. A codeword is misread if its value is wrong, and erased if it is known to be unreadable. In each
/// block, count an erased codeword once and a misread one twice. The sum has to be at most the number of error
/// correction codewords of the block.
pub fn damaged_messages_are_one(version: Version, level: Level)
    ensures { DamagedMessagesAreOne version level }
{}

/// Take two symbols of one version with different data codewords or levels. They differ in at least seven modules of
/// each copy of the format information, or they differ in more than 2t codewords of some block, where t is the number
/// of misread codewords that can be corrected in this block.
#[tactic(auto, using(crate::proofs::Named::distances))]
pub fn symbols_lie_apart(version: Version)
    ensures { SymbolsLieApart version }
{}

/// Unless memory is refused, a damaged symbol is mended to exactly its input if its blocks can be mended, and if its
/// level and mask are found. The symbol may be one of a series, with a structured append header. (`formats_are_found` states two cases in which they are found.) Modules that belong
/// neither to a codeword nor to the format information may have any colour. The counts of misread and erased codewords
/// and the number of wrong modules are exact.
pub fn damaged_symbols_are_mended(
    alloc: Global,
    damaged: &Matrix,
    unknown: &Matrix,
) -> Result<Mended, ReadFault>
    requires { unknown.now.side ≡ damaged.now.side }
    ensures { (v : ℕ) (l : Level) (rule : Rule) (i : Interpretation) (x : List ℕ) (h : Option Header) (mask : ℕ) (g : Grid)
        (changed : List Changes) → 1 ≤ v → v ≤ 40 → MayWrite i x → (s : IsSymbolAt v l rule i x h mask g)
        → damaged.now.side ≡ g.side → HasFormat unknown.now v damaged.now l mask
        → HoldsDamaged unknown.now v l mask damaged.now s.message changed
        → MatchResult result
        (λ m. (m.version ≡ v) × (m.level ≡ l) × (m.mask ≡ mask)
        × (m.parsed ≡ interpreted_content i h s.segments x)
        × (m.changed.items ≡ changed) × (m.wrong_modules ≡ wrong_modules unknown.now damaged.now g)
        × (m.wrong_format_modules ≡ wrong_format_modules unknown.now damaged.now l mask)
        × (m.wrong_format_least ≡ wrong_format_least unknown.now damaged.now l mask)) (λ e. e ≡ ReadFault.Memory) }
{
    mend_symbol_with_unknown(alloc, damaged, unknown)
}

/// There are two cases in which a damaged symbol has to be read with a certain level and mask (`HasFormat`). In the
/// first case, both copies together cost at most 13 with this pair of level and mask. In the second case, the pair is
/// near to one copy, whatever the other copy shows, and with no other pair that is near to a copy can all blocks be
/// mended.
pub fn formats_are_found()
    ensures sure { (unknown : Grid) (v : ℕ) (g : Grid) (l : Level) (mask : ℕ) → mask < 8 → format_cost unknown g l mask ≤ 13
        → HasFormat unknown v g l mask }
    ensures alone { (unknown : Grid) (v : ℕ) (g : Grid) (l : Level) (mask : ℕ) (copy : FormatCopy)
        → IsNearFormat unknown copy g l mask
        → ((other : FormatCopy) (k : Level) (n : ℕ) → IsNearFormat unknown other g k n → (message : List ℕ) (changed : List Changes)
        → HoldsDamaged unknown v k n g message changed → (k ≡ l) × (n ≡ mask))
        → HasFormat unknown v g l mask }
{}

/// Unless memory is refused, a symbol is mended to exactly its input if few of its modules are wrong: at most six of
/// the 30 modules of format information, and in each block at most as many modules as `Version::correctable` returns.
/// The symbol may be one of a series, with a structured append header.
/// Modules of function patterns, version information and remainder bits may have any colour.
pub fn few_wrong_modules_are_mended(alloc: Global, damaged: &Matrix) -> Result<Mended, ReadFault>
    ensures { (v : ℕ) (l : Level) (rule : Rule) (i : Interpretation) (x : List ℕ) (h : Option Header) (mask : ℕ) (g : Grid)
        → 1 ≤ v → v ≤ 40 → MayWrite i x → (s : IsSymbolAt v l rule i x h mask g) → damaged.now.side ≡ g.side
        → DifferInFewModules v l damaged.now g
        → MatchResult result
        (λ m. (m.version ≡ v) × (m.level ≡ l) × (m.mask ≡ mask)
        × (m.parsed ≡ interpreted_content i h s.segments x)) (λ e. e ≡ ReadFault.Memory) }
{
    mend_symbol(alloc, damaged)
}

/// If the symbols of a series are damaged, each within what can be mended, mending yields exactly the input, or memory
/// is refused. The symbols may also be those of another encoder. Then mending yields the bytes that joining the
/// undamaged symbols would yield, or memory is refused.
pub fn damaged_series_are_mended(alloc: Global, damaged: &[Matrix]) -> Result<Vec<u8>, ReadFault>
    ensures series { (v : ℕ) (l : Level) (rule : Rule) (i : Interpretation) (x : List ℕ) (ss : List Symbol) → 1 ≤ v → v ≤ 40
        → MayWrite i x → IsSeries v l rule i x ss → AreDamagedSquares damaged.now (squares_of ss)
        → MatchResult result (λ bytes. bytes.items ≡ x) (λ e. e ≡ ReadFault.Memory) }
    ensures joined { (whole : List Grid) (x : List ℕ) → IsJoined whole x → AreDamagedSquares damaged.now whole
        → MatchResult result (λ bytes. bytes.items ≡ x) (λ e. e ≡ ReadFault.Memory) }
{
    mend_series(alloc, damaged)
}

/// From the bytes of a PNG file to the bytes of the input: the file that `write_image` of `qr_images` writes for a symbol,
/// in black on white or in two other colours, is a picture by the rules of PNG. Reading the square in this picture yields
/// the bytes of the input, the interpretation, the segments of fewest bits, and the structured append header, if the symbol
/// has one.
pub fn images_are_read(version: Version)
    ensures { ImagesAreRead version }
{
    files_are_read_back();
}

/// From the bytes of a PNG file to the bytes of the input, by the code that reads pictures. Take the file that
/// `write_image` of `qr_images` writes for a symbol, and the pixels of the picture that this file is by the rules of PNG, in
/// grey. If its two colours are different greys, `clean_square` finds the symbol in these pixels. Reading the modules that `write_modules` then writes yields the bytes
/// of the input, the interpretation, the segments of fewest bits, and the structured append header, if the symbol has one.
pub fn pictures_are_read(
    version: Version,
    picture: &Picture,
    modules: &mut [u8],
) -> Option<CleanSquare>
    requires { 177 * 177 ≤ length modules.old }
    ensures { IsReadFrom version picture.now result modules.new }
{
    files_are_read_back();
    clean_pictures_are_one();
    let square = clean_square(picture)?;
    write_modules(picture, &square, modules);
    Some(square)
}

/// A symbol that is drawn once more under another mask has the version, the level and the codewords that it had, and its
/// content is the same. `with_mask` of `qr_symbol` draws a symbol once more, and `qrproved_set_mask` of the library calls it.
pub fn redrawn_symbols_keep_their_content(version: Version, level: Level)
    ensures drawn { (former mask : ℕ) (cw : List ℕ) (g : Grid) → former < 8 → length cw ≡ total_codewords_of version
        → All (λ x. x < 256) cw → IsRedrawn (grid_of version level former cw) mask g → g ≡ grid_of version level mask cw }
    ensures read { (from g : Grid) (mask : ℕ) (c : Content) → mask < 8 → IsReading from c → IsRedrawn from mask g
        → IsReading g c }
{}
