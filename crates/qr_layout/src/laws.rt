//! Laws of the layout. The contract of each function is the law; most functions do nothing. The first laws say what
//! follows from the definitions. Others say that the definitions have the values that the standard prints, and the last
//! ones are about `==` and default values.

ghost use Rattle.std.specs.Prelude.{◌≡◌, ◌<◌, ◌≤◌, ◌-◌, ◌*◌, ◌/◌, ◌⊎◌, ◌↔◌, ◌||◌, not, true, ℕ, List, ◌∷◌, ◌++◌, length, map, slice_get, IsTrue};
ghost use Rattle.std.specs.List.{list_any, range_with_len};
ghost use Rattle.qr_layout.specs.declared.region.Module.{Module};
ghost use Rattle.qr_layout.specs.declared.level.Level.{Level};
ghost use Rattle.qr_layout.specs.declared.level.Level.TheVariants.{L, M, Q, H};
ghost use Rattle.qr_layout.specs.declared.role.Role.TheVariants.{Fixed, FormatBit, VersionBit, Region};
ghost use Rattle.qr_layout.specs.Version.{side_of, module_count_of};
ghost use Rattle.qr_layout.specs.Blocks.{correction_len_of, data_codewords_of, blocks_of, longest_of, damage_of, protection_of, spare_of, correctable_of, AreWhole};
ghost use Rattle.qr_layout.specs.Format.{five_bits, format_word_of, version_word_of, IsFormatWord, IsVersionWord};
ghost use Rattle.qr_layout.specs.Alignment.{centres_of};
ghost use Rattle.qr_layout.specs.Region.{is_alignment, is_in_region, InRegion};
ghost use Rattle.qr_layout.specs.Rectangles.{AreFixed, is_in_rectangle};
ghost use Rattle.qr_layout.specs.declared.region.Rectangle.{Rectangle};
ghost use Rattle.qr_layout.specs.Order.{IsOrder, index_of, places_passing};
ghost use Rattle.qr_layout.specs.Role.{role_of};
ghost use Rattle.qr_layout.specs.Format.{first_place, second_place, version_place, mirror_of};
ghost use Rattle.qr_layout.specs.Laws.{all_versions, printed_correction, printed_data, printed_errors, spaced_centres, region_size, row_6, row_8, column_8, alignment_figure, finder_figure, version_figure};

use crate::blocks::Blocks;
use crate::level::Level;
use crate::order::walk;
use crate::region::{Module, Rectangle};
use crate::role::Role;
use crate::version::Version;

/// The region of a version has at most one order.
pub fn order_is_one(version: Version)
    ensures { (ms ns : List Module) → IsOrder version ms → IsOrder version ns → ms ≡ ns }
{}

/// The order has a module for each bit of the codewords and for each remainder bit. It has at most 29,648 modules,
/// which is its length in version 40.
pub fn order_is_full(version: Version)
    ensures count { (ms : List Module) → IsOrder version ms → length ms ≡ module_count_of version }
    ensures most { module_count_of version ≤ 29648 }
{}

/// The region has as many modules as the symbol without the three corners, the timing patterns, the alignment patterns
/// and the version information. The corners have the finder patterns, the separators, the format information and the
/// dark module. By Table 1 of the standard, codewords and remainder bits together have as many bits as the region has
/// modules.
pub fn region_is_counted(version: Version)
    ensures region { places_passing (side_of version) (is_in_region version) ≡ region_size version }
    ensures filled { module_count_of version ≡ region_size version }
{}

/// If rectangles meet the contract of `fixed_rectangles`, the region consists of all modules of the symbol that are in
/// none of these rectangles and in no alignment pattern.
#[tactic(auto, using(crate::proofs::lemmas::alignment::region_outside))]
pub fn region_is_outside(version: Version)
    ensures { (bs : List Rectangle) → AreFixed version bs → (r c : ℕ) → r < side_of version → c < side_of version → is_in_region version r c
        ≡ not (list_any (is_in_rectangle r c) bs || is_alignment version r c) }
{}

/// If rows and columns are exchanged, the region stays the same.
pub fn region_is_symmetric(version: Version)
    ensures { (r c : ℕ) → is_in_region version r c ≡ is_in_region version c r }
{}

/// `index_of` is how many modules come before a module in the order.
pub fn index_counts(version: Version)
    ensures { (front back : List Module) (m : Module) → IsOrder version (front ++ m ∷ back)
        → index_of version m ≡ length front }
{}

/// The indices of the modules of the region begin with 0 and have no gaps: each index below the number of these modules
/// is that of exactly one of them.
pub fn indices_are_places(version: Version)
    ensures below { (m : Module) → InRegion version m → index_of version m < module_count_of version }
    ensures one_place { (m n : Module) → InRegion version m → InRegion version n
        → index_of version m ≡ index_of version n → m ≡ n }
    ensures each_index { (n : ℕ) → n < module_count_of version
        → (m : Module) × InRegion version m × (index_of version m ≡ n) }
{}

/// Returns the place with this index in the order of a version, or `None` if the order is shorter.
pub fn nth_place(version: Version, index: usize) -> Option<Module>
    ensures { (ms : List Module) → IsOrder version ms → result ≡ slice_get ms index }
{
    walk(version).nth(index)
}

/// For the versions 2 to 40, the rows of the centres of alignment patterns are those that a rule gives. The first of
/// these rows is row 6, and the last of them is the seventh row from the bottom of the symbol. From the second row of
/// centres on, neighbouring rows are at equal distances. This distance is the least even number that, multiplied by the
/// number of rows of centres less 1, is at least the distance from row 6 to the last row of centres. Version 32 is an
/// exception: its distance is 26, where the rule would give 28.
#[tactic(auto, unfolding(crate::specs::Alignment::centres_of))]
pub fn centres_are_spaced()
    ensures { map centres_of (range_with_len 2 39) ≡ map spaced_centres (range_with_len 2 39) }
{}

/// The numbers of data codewords are those that Table 7 of the standard prints.
#[tactic(auto, unfolding(crate::specs::Blocks::data_codewords_of, crate::specs::Blocks::block_count_of, crate::specs::Blocks::correction_len_of, crate::specs::Version::total_codewords_of))]
pub fn data_codewords_compute()
    ensures l { map (λ v. data_codewords_of v L) all_versions ≡ printed_data L }
    ensures m { map (λ v. data_codewords_of v M) all_versions ≡ printed_data M }
    ensures q { map (λ v. data_codewords_of v Q) all_versions ≡ printed_data Q }
    ensures h { map (λ v. data_codewords_of v H) all_versions ≡ printed_data H }
{}

/// A block has two error correction codewords for each misread codeword that can be corrected, and in versions 1 to 3
/// up to three more that only detect errors (misdecode protection). If the number of error correction codewords is
/// computed in this way from the numbers of correctable codewords that Table 9 of the standard prints, the result is
/// `correction_len_of`.
#[tactic(auto, unfolding(crate::specs::Blocks::correction_len_of))]
pub fn correction_lens_compute()
    ensures l { map (λ v. correction_len_of v L) all_versions ≡ map (printed_correction L) all_versions }
    ensures m { map (λ v. correction_len_of v M) all_versions ≡ map (printed_correction M) all_versions }
    ensures q { map (λ v. correction_len_of v Q) all_versions ≡ map (printed_correction Q) all_versions }
    ensures h { map (λ v. correction_len_of v H) all_versions ≡ map (printed_correction H) all_versions }
{}

/// For every version and level, `correctable_of` is the number that Table 9 of the standard prints: how many misread
/// codewords of a block can be corrected.
#[tactic(auto, unfolding(crate::specs::Blocks::correction_len_of))]
pub fn correctable_numbers_compute()
    ensures l { map (λ v. correctable_of v L) all_versions ≡ printed_errors L }
    ensures m { map (λ v. correctable_of v M) all_versions ≡ printed_errors M }
    ensures q { map (λ v. correctable_of v Q) all_versions ≡ printed_errors Q }
    ensures h { map (λ v. correctable_of v H) all_versions ≡ printed_errors H }
{}

/// For six pairs of version and level, some error correction codewords of a block only detect errors; from version 4
/// on, and at the levels M, Q and H of the versions 2 and 3, all of them correct errors.
#[tactic(auto, unfolding(crate::specs::Blocks::correction_len_of))]
pub fn protection_computes()
    ensures protection_one { protection_of 1 L ≡ 3 × protection_of 1 M ≡ 2 }
    ensures protection_one_more { protection_of 1 Q ≡ 1 × protection_of 1 H ≡ 1 }
    ensures protection_more { protection_of 2 L ≡ 2 × protection_of 3 L ≡ 1 }
    ensures protection { (v : ℕ) (l : Level) → 4 ≤ v → protection_of v l ≡ 0 }
    ensures protection_two { protection_of 2 M ≡ 0 × protection_of 2 Q ≡ 0 × protection_of 2 H ≡ 0 }
    ensures protection_three { protection_of 3 M ≡ 0 × protection_of 3 Q ≡ 0 × protection_of 3 H ≡ 0 }
    ensures spare_one { spare_of 1 L ≡ 4 × spare_of 1 M ≡ 8 × spare_of 1 Q ≡ 12 × spare_of 1 H ≡ 16 }
    ensures spare_more { spare_of 2 M ≡ 16 × spare_of 3 L ≡ 14 × spare_of 40 H ≡ 30 }
{}

/// The blocks together contain all data codewords and all error correction codewords of the symbol; each block has at
/// least one data codeword and from 1 to 30 error correction codewords.
pub fn blocks_are_whole(version: Version, level: Level)
    ensures { AreWhole version level (blocks_of version level) }
{}

/// A block has at most 153 codewords in all, as the longest blocks of version 27 at level L have.
#[tactic(auto, unfolding(crate::specs::Blocks::data_codewords_of, crate::specs::Blocks::block_count_of, crate::specs::Blocks::correction_len_of, crate::specs::Version::total_codewords_of))]
pub fn blocks_are_short(version: Version, level: Level)
    ensures most { longest_of (blocks_of version level) ≤ 153 }
    ensures reached { longest_of (blocks_of 27 L) ≡ 153 }
{}

/// Let t be half of the number of error correction codewords of a block, rounded down. Then t is at least 9 % of all
/// codewords of the block at level L, 17 % at M, 23 % at Q and 30 % at H. By the laws of `qr_field`, what was read
/// determines the block if at most t codewords are misread and none is erased.
pub fn blocks_stand_damage(version: Version, level: Level)
    ensures { damage_of level * longest_of (blocks_of version level)
        ≤ 100 * ((blocks_of version level).ec_len / 2) }
{}

/// A symbol has at most 232 data codewords up to version 9, at most 1,370 up to version 26, and at most 2,956 in all
/// versions. Some character count indicators have more bits from version 10 on, and again more from version 27 on.
pub fn data_is_bounded(version: Version, level: Level)
    ensures small { version ≤ 9 → data_codewords_of version level ≤ 232 }
    ensures middle { version ≤ 26 → data_codewords_of version level ≤ 1370 }
    ensures most { data_codewords_of version level ≤ 2956 }
{}

/// The 15 bits of the format information are five data bits, for the level and the mask, and ten error correction bits,
/// which are the remainder that Annex C of the standard defines. All 15 are combined with 101010000010010 by exclusive
/// or.
pub fn format_words_are_remainders(level: Level, mask: u8)
    ensures { mask < 8 → IsFormatWord (five_bits level mask) (format_word_of level mask) }
{}

/// The 18 bits of the version information are six bits for the version, and twelve error correction bits, which are the
/// remainder that Annex D of the standard defines.
pub fn version_words_are_remainders(version: Version)
    ensures { IsVersionWord version (version_word_of version) }
{}

/// `format_word_of` and `version_word_of` have the values that Annexes C and D of the standard print for six examples.
/// The standard works out two of these step by step.
#[tactic(auto, unfolding(crate::specs::Format::format_word_of, crate::specs::Format::version_word_of, crate::specs::Format::word_remainder))]
pub fn words_compute()
    ensures l { format_word_of L 0 ≡ 0x77C4 }
    ensures m { format_word_of M 5 ≡ 0x40CE }
    ensures q { format_word_of Q 0 ≡ 0x355F }
    ensures h { format_word_of H 7 ≡ 0x083B }
    ensures version_7 { version_word_of 7 ≡ 0x07C94 }
    ensures version_40 { version_word_of 40 ≡ 0x28C69 }
{}

/// In version 1, the modules of row 8, column 8 and row 6 have the roles that the standard's figures show (7.9.1 and
/// 6.3.5).
#[tactic(auto, unfolding(crate::specs::Role::role_of, crate::specs::Role::pattern_colour, crate::specs::Role::is_alignment_light, crate::specs::Format::format_bit_at, crate::specs::Format::version_bit_at, crate::specs::Alignment::centres_of))]
pub fn roles_compute()
    ensures row_8 { map (role_of 1 8) (range_with_len 0 21) ≡ row_8 }
    ensures column_8 { map (λ r. role_of 1 r 8) (range_with_len 0 21) ≡ column_8 }
    ensures row_6 { map (role_of 1 6) (range_with_len 0 21) ≡ row_6 }
{}

/// The modules of a finder pattern in version 1, an alignment pattern in version 2 and the version information in
/// version 7 have the roles that the standard's figures show (6.3.3 to 6.3.6 and 7.10).
#[tactic(auto, unfolding(crate::specs::Role::role_of, crate::specs::Role::pattern_colour, crate::specs::Role::is_alignment_light, crate::specs::Format::format_bit_at, crate::specs::Format::version_bit_at, crate::specs::Alignment::centres_of))]
pub fn patterns_compute()
    ensures finder { map (λ r. map (role_of 1 r) (range_with_len 0 8)) (range_with_len 0 8) ≡ finder_figure }
    ensures alignment { map (λ r. map (role_of 2 r) (range_with_len 15 7)) (range_with_len 15 7) ≡ alignment_figure }
    ensures version_right { map (λ r. map (role_of 7 r) (range_with_len 34 3)) (range_with_len 0 6) ≡ version_figure }
    ensures version_below { map (λ c. map (λ r. role_of 7 r c) (range_with_len 34 3)) (range_with_len 0 6) ≡ version_figure }
{}

/// Each bit of the format information is at exactly two places: one in the first copy (`first_place`), and one in the
/// second (`second_place`).
pub fn format_bits_have_places(version: Version)
    ensures first { (i : ℕ) → i < 15
        → role_of version (first_place i).row (first_place i).col ≡ FormatBit i }
    ensures second { (i : ℕ) → i < 15
        → role_of version (second_place (side_of version) i).row (second_place (side_of version) i).col
        ≡ FormatBit i }
    ensures no_other { (m : Module) (i : ℕ) → role_of version m.row m.col ≡ FormatBit i
        → (i < 15) × ((m ≡ first_place i) ⊎ (m ≡ second_place (side_of version) i)) }
{}

/// From version 7 on, each bit of the version information is at exactly two places: `version_place`, and the same with
/// row and column exchanged. Symbols of the versions 1 to 6 have no such bits.
pub fn version_bits_have_places(version: Version)
    ensures first { (i : ℕ) → 7 ≤ version → i < 18
        → role_of version (version_place (side_of version) i).row (version_place (side_of version) i).col
        ≡ VersionBit i }
    ensures second { (i : ℕ) → 7 ≤ version → i < 18
        → role_of version (version_place (side_of version) i).col (version_place (side_of version) i).row
        ≡ VersionBit i }
    ensures no_other { (m : Module) (i : ℕ) → role_of version m.row m.col ≡ VersionBit i
        → (7 ≤ version) × (i < 18)
        × ((m ≡ version_place (side_of version) i) ⊎ (m ≡ mirror_of (version_place (side_of version) i))) }
{}

/// The dark module, in column 8 beside the bottom left finder pattern, is dark in every symbol.
pub fn dark_module_is_dark(version: Version)
    ensures { role_of version (side_of version - 8) 8 ≡ Fixed true }
{}

/// The region consists of all modules that have no fixed colour and contain no bit of the format or version
/// information.
pub fn region_is_the_rest(version: Version)
    ensures { (r c : ℕ) → r < side_of version → c < side_of version
        → (role_of version r c ≡ Region) ↔ (is_in_region version r c ≡ true) }
{}

/// Returns version 1.
pub fn first_version() -> Version
    ensures { result ≡ 1 }
{
    Version::FIRST
}

/// Returns the default place, row 0 and column 0.
pub fn default_module() -> Module
    ensures { result ≡ record { row = 0; col = 0 } }
{
    Module::default()
}

/// Returns the default rectangle, which has no rows and no columns.
pub fn default_rectangle() -> Rectangle
    ensures { result ≡ record { top = 0; bottom = 0; left = 0; right = 0 } }
{
    Rectangle::default()
}

/// `==` says whether the two are the same `Level`.
pub fn levels_are_equal(a: Level, b: Level) -> bool
    ensures { IsTrue result ↔ (a ≡ b) }
{
    a == b
}
