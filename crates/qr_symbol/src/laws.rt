//! Laws of masks, interleaving, reading and series. The contract of each function is the law. Where a function has
//! code, the law is about what this code returns. The theorems that the README claims are in `qr_theorems`. The laws
//! here are called by code, refuse wrong definitions, or say how definitions of this crate belong together.

ghost use Rattle.std.specs.Prelude.{◌≡◌, ◌<◌, ◌≤◌, ◌+◌, ◌%◌, ◌⊎◌, ℕ, List, length, map, [], ◌∷◌, IfOk, IfErr, ◌≢◌, ◌↔◌, Err};
ghost use Rattle.std.specs.List.{All};
ghost use Rattle.qr_layout.specs.declared.level.Level.{Level};
ghost use Rattle.qr_layout.specs.declared.region.Module.{Module};
ghost use Rattle.qr_layout.specs.declared.role.Role.TheVariants.{FormatBit, VersionBit};
ghost use Rattle.qr_layout.specs.Order.{IsOrder};
ghost use Rattle.qr_bits.specs.declared.fault.ParseFault.{ParseFault};
ghost use Rattle.qr_bits.specs.Bits.{bits_of};
ghost use Rattle.qr_bits.specs.Parsing.{Content};
ghost use Rattle.qr_symbol.specs.declared.fault.EncodeFault.{EncodeFault};
ghost use Rattle.qr_symbol.specs.declared.fault.ReadFault.{ReadFault};
ghost use Rattle.qr_symbol.specs.declared.symbol.Symbol.{Symbol};
ghost use Rattle.qr_matrix.specs.Grid.{Grid};
ghost use Rattle.qr_symbol.specs.Choice.{mask_penalty, IsMask};
ghost use Rattle.qr_symbol.specs.Fault.{read_fault_number};
ghost use Rattle.qr_symbol.specs.Mask.{inverts};
ghost use Rattle.qr_symbol.specs.Symbol.{colour_by, grid_of};
ghost use Rattle.qr_symbol.specs.Reading.{read_bits, IsRead, IsMessage, IsFormat, IsReading, IsUnread};
ghost use Rattle.qr_symbol.specs.Encoding.{BoostedSymbolsAreOne, IsBoostedSymbol, IsSymbol, SymbolsAreOne};
ghost use Rattle.qr_symbol.specs.VersionChoice.{level_rank, FitsVersion, HasNoVersion, IsVersion};
ghost use Rattle.qr_symbol.specs.Series.{squares_of, AreParts, IsSeries, HasNoSeries};
ghost use Rattle.qr_symbol.specs.Joining.{AreInterpreted, IsJoined, IsUnjoined};
ghost use Rattle.qr_layout.specs.Version.{side_of, total_codewords_of};
ghost use Rattle.qr_layout.specs.Blocks.{data_codewords_of, blocks_of};
ghost use Rattle.qr_bits.specs.declared.modes.Rule.{Rule};
ghost use Rattle.qr_bits.specs.declared.interpretation.Interpretation.{Interpretation};
ghost use Rattle.qr_bits.specs.Interpretation.{MayWrite};
ghost use Rattle.qr_symbol.specs.Interleaving.{block_count, block_len, start_of, codeword_count, data_sizes, IsInterleaved};
ghost use Rattle.qr_symbol.specs.Laws.{all_masks, bits_down, computed_rows, first_rows};

use crate::fault::{EncodeFault, ReadFault};
use crate::joining::read_series;
use crate::mask::build;
use crate::reading::read_symbol;
use crate::symbol::{Symbol, build_masked};
use qr_bits::{INPUT_MAX, Parsed};
use qr_layout::{Level, Version};
use qr_matrix::Matrix;
use std::alloc::Global;

/// Each mask repeats every twelve rows and six columns, and its first twelve rows are those that were worked out by
/// hand from Table 10.
pub fn masks_compute()
    ensures repeated { (mask r c : ℕ) → mask < 8 → inverts mask r c ≡ inverts mask (r % 12) (c % 6) }
    ensures rows { map first_rows all_masks ≡ computed_rows }
{}

/// `build_masked` draws the codewords module by module, and `build` draws several modules at once. Under the mask that
/// `build` has chosen, both make the same symbol.
///
/// # Errors
///
/// Returns `Memory` if an allocation is refused.
pub fn slow_and_fast_symbols_are_one(
    alloc: Global,
    version: Version,
    level: Level,
    codewords: &[u8],
) -> Result<(Symbol, Symbol), EncodeFault>
    requires whole { length codewords.now ≡ total_codewords_of version }
    ensures version { IfOk result (λ s. s.0.version ≡ s.1.version) }
    ensures level { IfOk result (λ s. s.0.level ≡ s.1.level) }
    ensures mask { IfOk result (λ s. s.0.mask ≡ s.1.mask) }
    ensures matrix { IfOk result (λ s. s.0.matrix ≡ s.1.matrix) }
    ensures best { IfOk result (λ s. IsMask version level codewords.now s.1.mask) }
    ensures fault { IfErr result (λ e. e ≡ EncodeFault.Memory) }
{
    let fast = build(alloc, version, level, codewords)?;
    let slow = build_masked(alloc, version, level, codewords, fast.mask)?;
    Ok((slow, fast))
}

/// The blocks divide the data codewords without a gap. The first block begins at the first data codeword, each other
/// block begins where the one before it ends, and the last block ends at the last data codeword.
#[tactic(auto, using(crate::proofs::Named::laws_of_blocks))]
pub fn blocks_are_cut_exactly(version: Version, level: Level)
    ensures first { start_of (data_sizes (blocks_of version level)) 0 ≡ 0 }
    ensures next { (i : ℕ) → i < block_count (data_sizes (blocks_of version level))
        → start_of (data_sizes (blocks_of version level)) (i + 1)
        ≡ start_of (data_sizes (blocks_of version level)) i
        + block_len (data_sizes (blocks_of version level)) i }
    ensures whole { codeword_count (data_sizes (blocks_of version level)) ≡ data_codewords_of version level }
{}

/// Data codewords have at most one final sequence, which has as many codewords as a symbol of the version. Different
/// data codewords of a version and level have different final sequences.
pub fn interleaving_is_one(version: Version, level: Level)
    ensures interleaved { (d xs ys : List ℕ) → IsInterleaved version level d xs
        → IsInterleaved version level d ys → xs ≡ ys }
    ensures many { (d xs : List ℕ) → IsInterleaved version level d xs
        → length xs ≡ total_codewords_of version }
    ensures message { (d e xs : List ℕ) → length d ≡ data_codewords_of version level
        → length e ≡ data_codewords_of version level
        → IsInterleaved version level d xs → IsInterleaved version level e xs → d ≡ e }
{}

/// Reading the codeword bits of a square yields the bits of the codewords from which the square was drawn.
#[tactic(auto, using(crate::proofs::Named::laws_of_reading))]
pub fn squares_give_their_bits(version: Version)
    ensures { (l : Level) (mask : ℕ) (cw : List ℕ) (ms : List Module) → IsOrder version ms
        → length cw ≡ total_codewords_of version
        → read_bits version mask (grid_of version l mask cw) ms ≡ bits_of cw }
{}

/// From a square and a mask exactly one list of codewords is read. At a given level this list is the final sequence of
/// at most one list of data codewords.
pub fn reading_is_one(version: Version, level: Level)
    ensures some { (mask : ℕ) (g : Grid) → (cw : List ℕ) × IsRead version mask g cw }
    ensures codewords { (mask : ℕ) (g : Grid) (cw ds : List ℕ) → IsRead version mask g cw
        → IsRead version mask g ds → cw ≡ ds }
    ensures message { (mask : ℕ) (g : Grid) (d e : List ℕ) → IsMessage version level mask g d
        → IsMessage version level mask g e → d ≡ e }
{}

/// The format information of a square belongs to at most one level and mask.
pub fn format_is_one()
    ensures { (g : Grid) (l k : Level) (m n : ℕ) → IsFormat g l m → IsFormat g k n
        → (l ≡ k) × (m ≡ n) }
{}

/// A square is read as at most one content. A content is an optional structured append header, the items (segments, ECI
/// headers and FNC1), the bytes, and the ECI headers with the number of bytes before each of them.
pub fn contents_are_one()
    ensures { (g : Grid) (p q : Content) → IsReading g p → IsReading g q → p ≡ q }
{}

/// A square that can be read is refused only for lack of memory. For any other square, at most one fault is possible
/// besides lack of memory.
pub fn refusals_are_one()
    ensures read { (g : Grid) (p : Content) (e : ReadFault) → IsReading g p → IsUnread g e
        → e ≡ ReadFault.Memory }
    ensures one { (g : Grid) (e f : ReadFault) → IsUnread g e → IsUnread g f
        → (e ≡ ReadFault.Memory) ⊎ (f ≡ ReadFault.Memory) ⊎ (e ≡ f) }
{}

/// `read_symbol` returns a fault other than `Memory` exactly if no allocation is refused and `IsUnread` holds for the
/// square and this fault.
pub fn readings_are_refused_exactly(alloc: Global, matrix: &Matrix) -> Result<Parsed, ReadFault>
    ensures { (e : ReadFault) → e ≢ ReadFault.Memory
        → (result ≡ Err e) ↔ ((result ≢ Err ReadFault.Memory) × IsUnread matrix.now e) }
{
    read_symbol(alloc, matrix)
}

/// A list of squares is read and joined as at most one list of bytes.
pub fn joinings_are_one()
    ensures { (gs : List Grid) (x y : List ℕ) → IsJoined gs x → IsJoined gs y → x ≡ y }
{}

/// A list of squares that can be read and joined is refused only for lack of memory. For any other list, at most one
/// fault is possible besides lack of memory.
pub fn joining_refusals_are_one()
    ensures joined { (gs : List Grid) (x : List ℕ) (e : ReadFault) → IsJoined gs x
        → IsUnjoined gs e → e ≡ ReadFault.Memory }
    ensures one { (gs : List Grid) (e f : ReadFault) → IsUnjoined gs e → IsUnjoined gs f
        → (e ≡ ReadFault.Memory) ⊎ (f ≡ ReadFault.Memory) ⊎ (e ≡ f) }
{}

/// `read_series` returns a fault other than `Memory` exactly if no allocation is refused and `IsUnjoined` holds for the
/// squares and this fault.
pub fn joinings_are_refused_exactly(alloc: Global, symbols: &[Symbol]) -> Result<Vec<u8>, ReadFault>
    ensures { (e : ReadFault) → e ≢ ReadFault.Memory
        → (result ≡ Err e) ↔ ((result ≢ Err ReadFault.Memory) × IsUnjoined (squares_of symbols.now) e) }
{
    read_series(alloc, symbols)
}

/// For a given level, rule, interpretation and smallest version, an input has at most one symbol.
pub fn symbols_are_one()
    ensures { SymbolsAreOne }
{}

/// For a given lowest level, rule, interpretation and smallest version, `encode_as` with `boost` can make at most one
/// symbol of an input. This symbol has the least version, from the smallest on, that the input fits at the lowest
/// level, and the highest level at which the input fits this version.
pub fn boosted_symbols_are_one()
    ensures { BoostedSymbolsAreOne }
{}

/// Take a symbol that `encode_as` makes with `boost`. If `encode` is given the level of this symbol, and the version of
/// this symbol as the smallest, it makes the same symbol of the same input. So the laws about symbols that `encode`
/// makes hold for this symbol too.
pub fn boosted_symbols_are_symbols()
    ensures { (x : List ℕ) (l k : Level) (smallest : ℕ) (rule : Rule) (i : Interpretation) (v mask : ℕ) (g : Grid)
        → IsBoostedSymbol smallest l rule i x v k mask g → IsSymbol v k rule i x v mask g }
{}

/// The ranks of the levels L, M, Q and H are 0 to 3. In every version, a level of a higher rank has fewer data codewords
/// than one of a lower rank, so more of the codewords are for error correction (ISO/IEC 18004:2015, 7.4.10, 7.5.1).
pub fn levels_are_ranked()
    ensures ranks { map level_rank (Level.L ∷ Level.M ∷ Level.Q ∷ Level.H ∷ []) ≡ 0 ∷ 1 ∷ 2 ∷ 3 ∷ [] }
    ensures fewer { (v : ℕ) (l k : Level) → 1 ≤ v → v ≤ 40 → level_rank l < level_rank k
        → data_codewords_of v k < data_codewords_of v l }
{}

/// For a given version, level, rule and interpretation, an input has at most one series.
pub fn series_are_one()
    ensures { (x : List ℕ) (l : Level) (rule : Rule) (i : Interpretation) (v : ℕ)
        (ss ts : List Symbol) → IsSeries v l rule i x ss → IsSeries v l rule i x ts → ss ≡ ts }
{}

/// Every input can be cut into parts, because each symbol has room for a structured append header and at least one
/// byte.
#[tactic(auto, using(crate::proofs::Named::laws_of_parts))]
pub fn parts_are_there(version: Version, level: Level)
    ensures { (rule : Rule) (i : Interpretation) (x : List ℕ)
        → (parts : List (List ℕ)) × AreParts version level rule i x parts }
{}

/// If an input with `Interpretation::Default` is cut into parts, each part except the last has at least five bytes.
#[tactic(auto, using(crate::proofs::Named::laws_of_parts))]
pub fn parts_are_long(version: Version, level: Level)
    ensures { (rule : Rule) (x p : List ℕ) (ps : List (List ℕ))
        → AreParts version level rule Interpretation.Default x (p ∷ ps) → (5 ≤ length p) ⊎ (p ≡ x) }
{}

/// All symbols of a series have the side of the version, and a series has at most 16 symbols.
pub fn series_have_one_side(version: Version)
    ensures side { (x : List ℕ) (l : Level) (rule : Rule) (i : Interpretation) (ss : List Symbol)
        → IsSeries version l rule i x ss → All (λ g. g.side ≡ side_of version) (squares_of ss) }
    ensures few { (x : List ℕ) (l : Level) (rule : Rule) (i : Interpretation) (ss : List Symbol)
        → IsSeries version l rule i x ss → length ss ≤ 16 }
{}

/// If the symbols of the series of an input are read and their bytes are joined, the result is this input.
pub fn series_are_joined(version: Version)
    ensures { (x : List ℕ) (l : Level) (rule : Rule) (i : Interpretation) (ss : List Symbol)
        → MayWrite i x → IsSeries version l rule i x ss → IsJoined (squares_of ss) x }
{}

/// Each symbol of the series of an input is read with the interpretation of the input.
pub fn series_keep_their_interpretation(version: Version)
    ensures { (x : List ℕ) (l : Level) (rule : Rule) (i : Interpretation) (ss : List Symbol)
        → MayWrite i x → IsSeries version l rule i x ss → AreInterpreted i (squares_of ss) }
{}

/// An input of `INPUT_MAX` bytes or more fits no version, and has no series, because it would be cut into more than 16
/// parts.
pub fn long_inputs_have_none(version: Version)
    ensures symbol { (x : List ℕ) (l : Level) (rule : Rule) (i : Interpretation) → INPUT_MAX ≤ length x
        → HasNoVersion version l rule i x }
    ensures series { (x : List ℕ) (l : Level) (rule : Rule) (i : Interpretation) (ss : List Symbol)
        → INPUT_MAX ≤ length x → IsSeries version l rule i x ss → ⊥ }
    ensures refused { (x : List ℕ) (l : Level) (rule : Rule) (i : Interpretation) → INPUT_MAX ≤ length x
        → HasNoSeries version l rule i x }
{}

/// For two examples of the standard, the bits that are drawn are those that the standard prints, with the highest bit
/// first. The examples are the format information of level M with mask 101 (binary), and the version information of
/// version 7.
#[tactic(auto, unfolding(qr_layout::specs::Format::format_word_of, qr_layout::specs::Format::version_word_of, qr_layout::specs::Format::word_remainder, qr_matrix::specs::BitRow::has_bit))]
pub fn drawn_bits_compute()
    ensures format { (v r c : ℕ) (cw : List ℕ) → bits_down 15 (λ i. colour_by v Level.M 5 cw r c (FormatBit i))
        ≡ 0b100000011001110 }
    ensures version { (l : Level) (mask r c : ℕ) (cw : List ℕ)
        → bits_down 18 (λ i. colour_by 7 l mask cw r c (VersionBit i)) ≡ 0b000111110010010100 }
{}

/// Of several masks with the least penalty, the smallest is chosen.
pub fn ties_go_to_the_smallest()
    ensures { (v : ℕ) (l : Level) (cw : List ℕ) (mask other : ℕ) → IsMask v l cw mask → other < 8
        → mask_penalty v l cw other ≡ mask_penalty v l cw mask → mask ≤ other }
{}

/// The chosen version is at most 40, and an input that fits version 40 is not refused as too long.
pub fn the_last_version_is_40(smallest: Version)
    ensures chosen { (l : Level) (rule : Rule) (i : Interpretation) (x : List ℕ) (v : ℕ)
        → IsVersion smallest l rule i x v → v ≤ 40 }
    ensures tried { (l : Level) (rule : Rule) (i : Interpretation) (x : List ℕ) → HasNoVersion smallest l rule i x
        → FitsVersion 40 l rule i x → ⊥ }
{}

/// An input that is cut into at most 16 parts is not refused as too long for a series.
pub fn sixteen_parts_are_a_series()
    ensures { (v : ℕ) (l : Level) (rule : Rule) (i : Interpretation) (x : List ℕ) (parts : List (List ℕ))
        → AreParts v l rule i x parts → length parts ≤ 16 → HasNoSeries v l rule i x → ⊥ }
{}

/// The faults of reading are numbered from 1 to 6, in the order in which `ReadFault` lists them.
pub fn read_faults_are_numbered()
    ensures memory { read_fault_number ReadFault.Memory ≡ 1 }
    ensures side { read_fault_number ReadFault.Side ≡ 2 }
    ensures format { read_fault_number ReadFault.Format ≡ 3 }
    ensures check { read_fault_number ReadFault.Check ≡ 4 }
    ensures segments { (why : ParseFault) → read_fault_number (ReadFault.Segments why) ≡ 5 }
    ensures series { read_fault_number ReadFault.Series ≡ 6 }
{}

/// Returns the discriminant of `fault`: 1 for `Empty`, 2 for `TooLong`, 3 for `TooMany`, 4 for `Memory`.
///
/// # Notes
///
/// Later versions of this crate keep the discriminants.
pub fn encode_fault_numbers(fault: EncodeFault) -> u8
    ensures empty { fault ≡ EncodeFault.Empty → result ≡ 1 }
    ensures too_long { fault ≡ EncodeFault.TooLong → result ≡ 2 }
    ensures too_many { fault ≡ EncodeFault.TooMany → result ≡ 3 }
    ensures memory { fault ≡ EncodeFault.Memory → result ≡ 4 }
{
    fault as u8
}
