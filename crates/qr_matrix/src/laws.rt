//! Laws of the penalty (ISO/IEC 18004:2015, 7.8.3.1, Table 11), of differences and of bytes. A function without
//! a parameter does nothing: its contract is the law.

ghost use Rattle.std.specs.Prelude.{◌≡◌, ◌↔◌, ◌<◌, ℕ, Bool};
ghost use Rattle.qr_matrix.specs.Penalty.{over_lines, run_cost, square_count, window_count, penalty_of};
ghost use Rattle.qr_matrix.specs.Runs.{place_cost};
ghost use Rattle.qr_matrix.specs.Grid.{colour, Grid};
ghost use Rattle.qr_matrix.specs.Difference.{difference_count};
ghost use Rattle.qr_matrix.specs.Laws.{all_dark, all_light, chequered, ratio_in_a_row, ratio_in_a_column, BytesAreTheirSquare};

use crate::matrix::Matrix;
use crate::penalties::count_all;

/// For some squares, the definition of the penalty gives the points that were counted by hand from Table 11. It finds
/// the ratio 1:1:3:1:1 both before four light modules and after them.
#[tactic(auto, unfolding(crate::specs::Penalty::penalty_of, crate::specs::Penalty::over_lines, crate::specs::Penalty::run_cost, crate::specs::Penalty::is_run, crate::specs::Penalty::window_count, crate::specs::Penalty::is_window, crate::specs::Penalty::square_count, crate::specs::Penalty::is_square_of_two, crate::specs::Sums::places_passing, crate::specs::Penalty::dark_cost))]
pub fn penalties_compute()
    ensures one { penalty_of 1 all_light ≡ 100 }
    ensures dark { penalty_of 5 all_dark ≡ 178 }
    ensures light { penalty_of 21 all_light ≡ 2098 }
    ensures chequers { penalty_of 21 chequered ≡ 0 }
    ensures row { penalty_of 11 (ratio_in_a_row 0) ≡ 593 }
    ensures column { penalty_of 11 (ratio_in_a_column 4) ≡ 593 }
    ensures inside { over_lines 75 (ratio_in_a_row 60) (window_count 75) ≡ 2 }
{}

/// The points for the runs of a row or column can be counted module by module: 1 point for each module at which five
/// modules of one colour begin, and 2 more points if this module is also the first of its run.
pub fn runs_cost_by_places()
    ensures { (side : ℕ) (line : ℕ → Bool) → run_cost side line ≡ place_cost side line }
{}

/// Returns the points for the runs in all rows and columns. They are counted 64 modules at a time, and are as many as
/// the definition counts run by run.
pub fn runs_on_words(m: &Matrix) -> u32
    ensures { result ≡ over_lines m.now.side (colour m.now) (run_cost m.now.side) }
{
    count_all(m).runs
}

/// Returns the number of two by two squares of one colour. It is counted 64 modules at a time, and is the number that
/// the definition gives.
pub fn squares_on_words(m: &Matrix) -> u32
    ensures { result ≡ square_count m.now.side (colour m.now) }
{
    count_all(m).squares
}

/// Returns the number of windows in all rows and columns. It is counted 64 modules at a time, and is the number that
/// the definition gives.
pub fn windows_on_words(m: &Matrix) -> u32
    ensures { result ≡ over_lines m.now.side (colour m.now) (window_count m.now.side) }
{
    count_all(m).windows
}

/// The number of differences, `difference_count`, is 0 exactly if two squares have the same colour in every place of
/// the first square.
pub fn differences_tell_squares_apart()
    ensures { (g h : Grid) → (difference_count g h ≡ 0)
        ↔ ((r c : ℕ) → r < g.side → c < g.side → colour g r c ≡ colour h r c) }
{}

/// A square that is written as bytes is read as the same square.
pub fn bytes_are_their_square()
    ensures { BytesAreTheirSquare }
{}
