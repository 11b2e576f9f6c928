//! Laws of this crate's definitions. A function with an empty body does nothing: its contract is the law. If its name
//! ends in `compute`, the law has examples that the standard prints, or that were worked out by hand.
//!
//! The functions with a body state laws of the public types. They say which numbers the faults have, and that `==` is
//! true exactly for equal modes and rules.

ghost use Rattle.std.specs.Prelude.{◌≡◌, ◌-◌, ◌/◌, ◌%◌, ℕ, List, [], ◌∷◌, ◌++◌, true, false, length, map, replicate, codes, ◌↔◌, IsTrue};
ghost use Rattle.qr_layout.specs.declared.level.Level.{Level};
ghost use Rattle.qr_bits.specs.declared.modes.Mode.TheVariants.{Alphanumeric, Byte, Kanji, Numeric};
ghost use Rattle.qr_bits.specs.declared.modes.Rule.{Rule};
ghost use Rattle.qr_bits.specs.declared.segmentation.Segment.{Segment};
ghost use Rattle.qr_bits.specs.declared.stream.Header.{Header};
ghost use Rattle.qr_bits.specs.declared.interpretation.Fnc1.{Fnc1};
ghost use Rattle.qr_bits.specs.declared.interpretation.Interpretation.{Interpretation};
ghost use Rattle.qr_bits.specs.declared.interpretation.Item.{Item};
ghost use Rattle.qr_bits.specs.Interpretation.{are_fields, characters_in, designator_codewords, doubled, escaped, fnc1_of, interpretation_bits, is_application_indicator, items_in, MayAllowKanji, meant_bytes};
ghost use Rattle.qr_bits.specs.Bits.{bits_of, field};
ghost use Rattle.qr_bits.specs.Header.{header_bits, header_stream, parity_of};
ghost use Rattle.qr_bits.specs.Padding.{capacity_of, padded, room_of};
ghost use Rattle.qr_bits.specs.Room.{IsMostCharacters};
ghost use Rattle.qr_bits.specs.Folding.{folded};
ghost use Rattle.qr_bits.specs.Segmentation.{IsLeastSegmentation, least_bits, runs_of};
ghost use Rattle.qr_bits.specs.Modes.{count_width, is_kanji_pair, character_value, kanji_value, may_use};
ghost use Rattle.qr_bits.specs.Parsing.{kanji_pair, parse, plain_content};
ghost use Rattle.qr_bits.specs.Stream.{character_bits, digit_bits, segments_stream};
ghost use Rattle.qr_bits.specs.Laws.{BitsAreCodewordBits, ContentsAreParsed, ContentsAreShort, CountsFitWhereBitsFit, DataAreOne, DataAreParsed, DataAreThere, DataFillTheSymbol, FieldsAreRead, FittingInputsAreShort, ItemsAreParsed, LeastSegmentationsFit, PiecesNeedNoMore, PlainDataAreParsed, SegmentationsMeanTheirInput, StreamsAreParsed, StreamsHaveTheirBits};
ghost use Rattle.qr_bits.specs.Examples.{all_modes, eight_digits, eleven_characters, interpreted, middle, middle_data, one, modes_of_fields, segments_of_fields, three_fields, two_kanji, two_kanji_data, unreadable};

use crate::fault::{BitFault, ParseFault};
use crate::interpretation::{Fnc1, Interpretation, Item};
use crate::modes::{INPUT_MAX, Mode, Rule};
use crate::segmentation::Segment;
use crate::stream::Header;

/// Bits are parsed as an optional structured append header and segments, without other items, exactly if they are the
/// bit stream of this header and these segments, followed by an end. An end is fewer than four bits, or the terminator
/// and anything after it. Segments may be empty, and need not take the fewest bits.
#[tactic(auto, using(crate::proofs::lemmas::parsing::ItemLemmas::parse_plain, crate::proofs::lemmas::parsing::ItemLemmas::parse_takes))]
pub fn streams_are_parsed()
    ensures { StreamsAreParsed }
{}

/// Data codewords are parsed as the header, interpretation and segments that they were made from. If there is neither
/// an ECI header nor FNC1, the bytes that are read are also the bytes that the data codewords were made from.
pub fn data_are_parsed()
    ensures whole { DataAreParsed }
    ensures plain { PlainDataAreParsed }
{}

/// Bits are read as items exactly if they are the bits of these items, in an order that the standard allows, followed
/// by an end. An end is fewer than four bits, or the terminator and anything after it.
pub fn items_are_parsed()
    ensures { ItemsAreParsed }
{}

/// Bits are parsed as a content exactly if they are the bits of its header and items, followed by an end. Then the
/// bytes of the content are those that the characters of the items stand for, and its ECIs are those of the items.
pub fn contents_are_parsed()
    ensures { ContentsAreParsed }
{}

/// What is parsed from the data codewords of a symbol has at most 7,089 bytes and at most 1,970 ECI headers, whoever has
/// made the symbol.
pub fn contents_are_short()
    ensures { ContentsAreShort }
{}

/// For bytes that all have alphanumeric mode, GS1 data write `%` as `%%` and the separator as `%`. If the bytes are
/// fields, what is written is read as these fields.
#[tactic(auto, using(crate::proofs::lemmas::parsing::FieldLemmas::escaped_written, crate::proofs::lemmas::parsing::FieldLemmas::fields_again))]
pub fn fields_are_read()
    ensures written { (xs : List ℕ) → characters_in Interpretation.Gs1 xs (replicate (length xs) Alphanumeric) ≡ escaped xs }
    ensures read { FieldsAreRead }
{}

/// A bit stream that is not longer than the capacity of a symbol has exactly one list of data codewords. This list has
/// as many codewords as the standard requires for the version and the level.
pub fn data_are_one()
    ensures there { DataAreThere }
    ensures one { DataAreOne }
    ensures full { DataFillTheSymbol }
{}

/// A bit stream has as many bits as its header, the ECI header or FNC1 of its interpretation, and its segments
/// together.
#[tactic(auto, using(crate::proofs::Named::lengths))]
pub fn streams_have_their_bits()
    ensures { StreamsHaveTheirBits }
{}

/// If the modes of segments suit their bytes, and the bits of all segments fit a symbol, then the number of characters
/// of each segment fits its character count indicator.
#[tactic(auto, using(crate::proofs::lemmas::padding::counts_fit))]
pub fn counts_fit_where_bits_fit()
    ensures { CountsFitWhereBitsFit }
{}

/// An input that fits one symbol has at most 7,089 bytes.
pub fn fitting_inputs_are_short()
    ensures { FittingInputsAreShort }
{}

/// The least segmentation of an input is what `segments` returns: segments, and the characters that they contain. The
/// segments cover these characters, and no valid assignment of modes takes fewer bits.
#[tactic(auto, using(crate::proofs::lemmas::segmentation::SegmentLemmas::least_fits))]
pub fn least_segmentations_fit()
    ensures { LeastSegmentationsFit }
{}

/// For a given interpretation, version and rule, an input has at most one least segmentation, which `segments` returns.
pub fn segmentations_are_one()
    ensures { (i : Interpretation) (v : ℕ) (r : Rule) (xs ys zs : List ℕ) (ss ts : List Segment)
        → IsLeastSegmentation i v r xs ys ss → IsLeastSegmentation i v r xs zs ts → (ys ≡ zs) × (ss ≡ ts) }
{}

/// If an input can be written with an interpretation, what is written for it is read as this input and this
/// interpretation. The characters that `segments` returns are read as the bytes of the input. The ECI header or FNC1
/// that comes before the segments is read as the interpretation.
pub fn segmentations_mean_their_input()
    ensures { SegmentationsMeanTheirInput }
{}

/// Folding does not change the number of bytes.
#[tactic(auto, using(crate::proofs::Named::lengths))]
pub fn foldings_keep_lengths()
    ensures { (r : Rule) (xs : List ℕ) → length (folded r xs) ≡ length xs }
{}

/// Under a rule without kanji mode, a piece of an input needs no more bits than the whole input.
pub fn pieces_need_no_more()
    ensures { PiecesNeedNoMore }
{}

/// In the list of all bits of codewords, the bit with the index k is the one that `codeword_bit` defines.
#[tactic(auto, using(crate::proofs::lemmas::bits::BitLemmas::bits_at))]
pub fn bits_are_codeword_bits()
    ensures { BitsAreCodewordBits }
{}

/// The greatest length of an input is 113,425 bytes.
pub fn limits()
    ensures { INPUT_MAX ≡ 113425 }
{}

/// The widths of character count indicators, at both ends of the three ranges of versions (ISO/IEC 18004:2015, 7.4.1,
/// Table 3).
pub fn widths_compute()
    ensures digits { map (λ v. count_width v Numeric) (1 ∷ 9 ∷ 10 ∷ 26 ∷ 27 ∷ 40 ∷ [])
        ≡ 10 ∷ 10 ∷ 12 ∷ 12 ∷ 14 ∷ 14 ∷ [] }
    ensures characters { map (λ v. count_width v Alphanumeric) (1 ∷ 9 ∷ 10 ∷ 26 ∷ 27 ∷ 40 ∷ [])
        ≡ 9 ∷ 9 ∷ 11 ∷ 11 ∷ 13 ∷ 13 ∷ [] }
    ensures bytes { map (λ v. count_width v Byte) (1 ∷ 9 ∷ 10 ∷ 26 ∷ 27 ∷ 40 ∷ [])
        ≡ 8 ∷ 8 ∷ 16 ∷ 16 ∷ 16 ∷ 16 ∷ [] }
    ensures kanji { map (λ v. count_width v Kanji) (1 ∷ 9 ∷ 10 ∷ 26 ∷ 27 ∷ 40 ∷ [])
        ≡ 8 ∷ 8 ∷ 10 ∷ 10 ∷ 12 ∷ 12 ∷ [] }
{}

/// The data bits of `01234567` and `AC-42`, which are examples that the standard prints, and the data bits of `0123`.
/// The last clause has the values of the last nine characters of Table 5 (ISO/IEC 18004:2015, 7.4.3, 7.4.4).
#[tactic(auto, unfolding(crate::specs::Modes::characters, crate::specs::Stream::digit_bits, crate::specs::Modes::character_value, crate::specs::Stream::character_bits, crate::specs::Bits::field))]
pub fn payloads_compute()
    ensures digits { digit_bits (codes "01234567") ≡ field 10 12 ++ (field 10 345 ++ field 7 67) }
    ensures last_digit { digit_bits (codes "0123") ≡ field 10 12 ++ field 4 3 }
    ensures characters { character_bits (codes "AC-42")
        ≡ field 11 462 ++ (field 11 1849 ++ field 6 2) }
    ensures last { map character_value (codes " $%*+-./:")
        ≡ 36 ∷ 37 ∷ 38 ∷ 39 ∷ 40 ∷ 41 ∷ 42 ∷ 43 ∷ 44 ∷ [] }
{}

/// The data codewords of four symbols of version 1: of digits, of characters of alphanumeric mode, of kanji pairs, and
/// of the second symbol in a series of three (ISO/IEC 18004:2015, 7.4.1 to 7.4.10, 8.1).
#[tactic(auto, unfolding(crate::specs::Modes::characters, crate::specs::Modes::character_value, crate::specs::Modes::kanji_value, crate::specs::Stream::digit_bits, crate::specs::Stream::character_bits, crate::specs::Stream::kanji_bits, crate::specs::Stream::payload, crate::specs::Stream::segment_stream, crate::specs::Stream::segments_stream, crate::specs::Header::header_stream, crate::specs::Padding::padded, crate::specs::Padding::pads, crate::specs::Bits::field, crate::specs::Bits::bits_of))]
pub fn streams_compute()
    ensures digits { padded 16 (segments_stream 1 (codes "01234567") (one Numeric 8)) ≡ bits_of eight_digits }
    ensures characters { padded 16 (segments_stream 1 (codes "HELLO WORLD") (one Alphanumeric 11)) ≡ bits_of eleven_characters }
    ensures kanji { padded 9 (segments_stream 1 two_kanji (one Kanji 4)) ≡ bits_of two_kanji_data }
    ensures series { padded 9 (header_stream (Some middle) ++ segments_stream 1 (codes "FGH") (one Byte 3)) ≡ bits_of middle_data }
{}

/// How codewords are parsed: those of the second symbol in a series of three, and those of seven symbols with ECI
/// headers or FNC1. The last clause has sixteen lists of codewords that cannot be parsed, each with its fault.
#[tactic(auto, unfolding(crate::specs::Interpretation::separated, crate::specs::Interpretation::meant_bytes, crate::specs::Interpretation::eci_changes, crate::specs::Parsing::parse, crate::specs::Parsing::first_header, crate::specs::Parsing::begins_header, crate::specs::Parsing::header_at, crate::specs::Parsing::items_of, crate::specs::Parsing::items_at, crate::specs::Parsing::item_at, crate::specs::Parsing::designator_at, crate::specs::Parsing::application_at, crate::specs::Parsing::segment_at, crate::specs::Parsing::leading_number, crate::specs::Parsing::payload_at, crate::specs::Parsing::values_of, crate::specs::Parsing::digits_of, crate::specs::Parsing::characters_of, crate::specs::Parsing::character, crate::specs::Parsing::bytes_of, crate::specs::Parsing::pairs_of, crate::specs::Parsing::kanji_pair, crate::specs::Parsing::mode_of, crate::specs::Parsing::ends, crate::specs::Modes::characters, crate::specs::Bits::field, crate::specs::Bits::bits_of))]
pub fn parses_compute()
    ensures series { parse 1 (bits_of middle_data)
        ≡ Ok (plain_content (Some middle) (one Byte 3) (codes "FGH")) }
    ensures interpreted { map (λ row. parse 1 (bits_of row.0)) interpreted
        ≡ map (λ row. Ok (record { header = None; items = row.1; ecis = row.2; bytes = row.3 })) interpreted }
    ensures faults { map (λ row. parse 1 (bits_of row.0)) unreadable ≡ map (λ row. Err row.1) unreadable }
{}

/// How three fields of GS1 data are written: alphanumeric mode writes `%` as two characters and the separator as `%`,
/// and byte mode writes each byte as itself. What is written stands for these fields (ISO/IEC 18004:2015, 7.4.8.2). The
/// last clause says which of five inputs are fields: a separator may come after `%`, but neither before `%` nor before
/// another separator.
#[tactic(auto, unfolding(crate::specs::Interpretation::characters_gs1, crate::specs::Interpretation::doubled_gs1, crate::specs::Segmentation::runs_of, crate::specs::Interpretation::separated, crate::specs::Interpretation::meant_bytes, crate::specs::Interpretation::are_fields))]
pub fn fields_compute()
    ensures characters { characters_in Interpretation.Gs1 three_fields modes_of_fields
        ≡ codes "12A%%B%3C" ++ 0x1D ∷ codes "d%" }
    ensures segments { runs_of (doubled Interpretation.Gs1 three_fields modes_of_fields) ≡ segments_of_fields }
    ensures meant { meant_bytes false (items_in Interpretation.Gs1 segments_of_fields) (codes "12A%%B%3C" ++ 0x1D ∷ codes "d%")
        ≡ three_fields }
    ensures fields { map are_fields (three_fields ∷ codes "%%" ∷ (codes "%" ++ 0x1D ∷ []) ∷ (0x1D ∷ 0x1D ∷ []) ∷ (0x1D ∷ codes "%") ∷ [])
        ≡ true ∷ true ∷ true ∷ false ∷ false ∷ [] }
{}

/// Examples of what says how bytes are meant: which numbers are application indicators, how many codewords the shortest
/// designator of an ECI has, that FNC1 may come after an ECI header, that after FNC1 in second position `%` stands for the
/// separator, as it does after FNC1 in first position (ISO/IEC 18004:2015, 7.4.2, 7.4.8), and that kanji mode may be allowed
/// with ECI 20, and not with ECI 26.
#[tactic(auto, unfolding(crate::specs::Interpretation::fnc1_of, crate::specs::Interpretation::meant_bytes, crate::specs::Interpretation::separated))]
pub fn interpretations_compute()
    ensures indicators { map is_application_indicator (0 ∷ 99 ∷ 100 ∷ 164 ∷ 165 ∷ 190 ∷ 191 ∷ 196 ∷ 197 ∷ 222 ∷ 223 ∷ 255 ∷ [])
        ≡ true ∷ true ∷ false ∷ false ∷ true ∷ true ∷ false ∷ false ∷ true ∷ true ∷ false ∷ false ∷ [] }
    ensures designators { map designator_codewords (0 ∷ 127 ∷ 128 ∷ 16383 ∷ 16384 ∷ 999999 ∷ []) ≡ 1 ∷ 1 ∷ 2 ∷ 2 ∷ 3 ∷ 3 ∷ [] }
    ensures position { fnc1_of (Item.Eci (record { number = 3; codewords = 1 }) ∷ Item.Fnc1First ∷ []) ≡ Some Fnc1.First }
    ensures second { meant_bytes false (Item.Fnc1Second 37 ∷ Item.Data (record { mode = Alphanumeric; len = 3 }) ∷ []) (codes "A%B")
        ≡ 0x41 ∷ 0x1D ∷ 0x42 ∷ [] }
    ensures shift_jis { MayAllowKanji (Interpretation.Eci 20) }
    ensures utf8 { MayAllowKanji (Interpretation.Eci 26) → ⊥ }
{}

/// The room that a structured append header leaves is the capacity, less the bits of the header and of the ECI header
/// or FNC1 of the interpretation (ISO/IEC 18004:2015, 7.4.2, 7.4.8.2, 8.1).
pub fn headers_take_room()
    ensures { (v : ℕ) (l : Level) (h : Header) (i : Interpretation)
        → room_of v l i ≡ capacity_of v l - header_bits (Some h) - interpretation_bits i }
{}

/// How many characters fit: of each mode in version 40 at level L, and kanji in GS1 data of a series in version 1 at level
/// H (ISO/IEC 18004:2015, 7.4.10, Table 7).
#[tactic(auto, using(crate::proofs::lemmas::room::digits_up, crate::proofs::lemmas::room::characters_up, crate::proofs::lemmas::room::kanji_up), unfolding(qr_layout::specs::Blocks::data_codewords_of, qr_layout::specs::Blocks::block_count_of, qr_layout::specs::Blocks::correction_len_of, qr_layout::specs::Version::total_codewords_of))]
pub fn rooms_compute()
    ensures digits { IsMostCharacters 40 Level.L Numeric Interpretation.Default false 7089 }
    ensures characters { IsMostCharacters 40 Level.L Alphanumeric Interpretation.Default false 4296 }
    ensures bytes { IsMostCharacters 40 Level.L Byte Interpretation.Default false 2953 }
    ensures kanji { IsMostCharacters 40 Level.L Kanji Interpretation.Default false 1817 }
    ensures least { IsMostCharacters 1 Level.H Kanji Interpretation.Gs1 true 2 }
{}

/// The parity data of `ABCDEFGH`, of no byte, and of three bytes of which two are equal (ISO/IEC 18004:2015, 8.3).
pub fn parities_compute()
    ensures capitals { parity_of (codes "ABCDEFGH") ≡ 0x08 }
    ensures empty { parity_of [] ≡ 0 }
    ensures twice { parity_of (0xA5 ∷ 0xA5 ∷ 0x3C ∷ []) ≡ 0x3C }
{}

/// `Auto` allows all modes but kanji mode, `BytesOnly` allows byte mode alone, and `WithKanji` allows all four modes.
pub fn rules_compute()
    ensures auto { map (may_use Rule.Auto) all_modes ≡ true ∷ true ∷ true ∷ false ∷ [] }
    ensures bytes { map (may_use Rule.BytesOnly) all_modes ≡ false ∷ false ∷ true ∷ false ∷ [] }
    ensures kanji { map (may_use Rule.WithKanji) all_modes ≡ true ∷ true ∷ true ∷ true ∷ [] }
{}

/// Examples of folding. Under `Auto` and `BytesOnly` the input has the letters `A`, `Z`, `a` and `z`, and the bytes
/// just before `A`, after `Z`, before `a` and after `z`. Under `WithKanji` a kanji pair stays as it is although its
/// second byte is a small letter, and a last byte that could begin a pair stays as it is too.
#[tactic(auto, unfolding(crate::specs::Folding::folded_around_pairs, crate::specs::Modes::is_kanji_pair))]
pub fn foldings_compute()
    ensures auto { folded Rule.Auto (codes "@AZ[`az{") ≡ codes "@AZ[`AZ{" }
    ensures bytes { folded Rule.BytesOnly (codes "@AZ[`az{") ≡ codes "@AZ[`az{" }
    ensures kanji { folded Rule.WithKanji (0x61 ∷ 0x93 ∷ 0x61 ∷ 0x61 ∷ 0x93 ∷ [])
        ≡ 0x41 ∷ 0x93 ∷ 0x61 ∷ 0x41 ∷ 0x93 ∷ [] }
{}

/// The lower bounds on the bits of five inputs. The bound for a single byte changes between `/` and `0`, between `9`
/// and `:`, and between `Z` and `[`, and the inputs contain all of these bytes.
#[tactic(auto, unfolding(crate::specs::Segmentation::least_bits))]
pub fn least_bits_compute()
    ensures { map least_bits (codes "012" ∷ codes "/9:" ∷ codes "AZ" ∷ codes "[z" ∷ codes "1A[" ∷ [])
        ≡ 10 ∷ 14 ∷ 11 ∷ 13 ∷ 15 ∷ [] }
{}

/// Returns the number of a fault: 1 for `Memory`, 2 for `TooLong`.
pub fn bit_fault_numbers(fault: BitFault) -> u8
    ensures memory { fault ≡ BitFault.Memory → result ≡ 1 }
    ensures too_long { fault ≡ BitFault.TooLong → result ≡ 2 }
{
    fault as u8
}

/// Returns the number of a fault: 1 for `Memory`, 2 for `BadMode`, 3 for `Cut`, 4 for `BadValue`.
pub fn parse_fault_numbers(fault: ParseFault) -> u8
    ensures memory { fault ≡ ParseFault.Memory → result ≡ 1 }
    ensures bad_mode { fault ≡ ParseFault.BadMode → result ≡ 2 }
    ensures cut { fault ≡ ParseFault.Cut → result ≡ 3 }
    ensures bad_value { fault ≡ ParseFault.BadValue → result ≡ 4 }
{
    fault as u8
}

/// The values of three kanji pairs, and the pairs that have these values. Two of the pairs are the examples of the
/// standard, and the third is the greatest pair (ISO/IEC 18004:2015, 7.4.6). The clause `pairs` lists kanji pairs, and
/// the clause `others` lists bytes that are none, at the ends of the two ranges and elsewhere.
#[tactic(auto, unfolding(crate::specs::Modes::is_kanji_pair, crate::specs::Modes::kanji_value, crate::specs::Parsing::kanji_pair))]
pub fn kanji_compute()
    ensures first { kanji_value 0x93 0x5F ≡ 0xD9F }
    ensures second { kanji_value 0xE4 0xAA ≡ 0x1AAA }
    ensures last { kanji_value 0xEB 0xBF ≡ 0x1FFF }
    ensures back { map kanji_pair (0xD9F ∷ 0x1AAA ∷ 0x1FFF ∷ []) ≡ 0x935F ∷ 0xE4AA ∷ 0xEBBF ∷ [] }
    ensures pairs { map (λ n. is_kanji_pair (n / 256) (n % 256))
        (0x8140 ∷ 0x817F ∷ 0x81FC ∷ 0x9FFC ∷ 0xE040 ∷ 0xEBBF ∷ [])
        ≡ true ∷ true ∷ true ∷ true ∷ true ∷ true ∷ [] }
    ensures others { map (λ n. is_kanji_pair (n / 256) (n % 256))
        (0x80FC ∷ 0x813F ∷ 0x81FD ∷ 0xA040 ∷ 0xDFFC ∷ 0xEBC0 ∷ 0xFC40 ∷ [])
        ≡ false ∷ false ∷ false ∷ false ∷ false ∷ false ∷ false ∷ [] }
{}

/// `==` says whether the two are the same `Mode`.
pub fn modes_are_equal(a: Mode, b: Mode) -> bool
    ensures { IsTrue result ↔ (a ≡ b) }
{
    a == b
}

/// `==` says whether the two are the same `Rule`.
pub fn rules_are_equal(a: Rule, b: Rule) -> bool
    ensures { IsTrue result ↔ (a ≡ b) }
{
    a == b
}
