//! Computes the penalty of a symbol, by which its mask is chosen (ISO/IEC 18004:2015, 7.8.3).

ghost use Rattle.std.specs.Prelude.{◌≡◌, ℕ, Bool, ◌*◌, ◌≤◌};
ghost use Rattle.qr_matrix.specs.Grid.{colour};
ghost use Rattle.qr_matrix.specs.Sums.{places_passing};
ghost use Rattle.qr_matrix.specs.Penalty.{penalty_of};
ghost use Rattle.qr_matrix.specs.Steps.{IsCounted, NeedsWords};

use crate::matrix::Matrix;
use crate::matrix_pair::MatrixPair;
use crate::rows::{Rows, Squares, added};
use crate::runs::runs_and_squares;
use crate::windows::window_count;

// The points of Table 11 for a square, which here is two by two modules of one colour.
const SQUARE_POINTS: u32 = 3;

// The points of Table 11 for a window.
const WINDOW_POINTS: u32 = 40;

// The points for each whole 5 % by which the share of dark modules differs from a half.
const BALANCE_POINTS: u32 = 10;

// The number of dark modules. Four rows at a time are added column by column before their bits are counted. The last
// rows, at most three, are counted one by one.
#[inline(never)]
fn dark_count<S: Squares, const WORDS: u8>(squares: &S) -> <S::Row as Rows>::Counts
    requires width { NeedsWords (S.size squares.now) WORDS }
    ensures value { (second : Bool) → S.Row.number result second
        ≡ places_passing (S.size squares.now) (S.dark squares.now second) }
    ensures bound { (second : Bool) → S.Row.number result second ≤ 192 * 177 }
{
    let side = usize::from(squares.side());
    let none = S::Row::below_in(0, 1);
    let (mut ones, mut twos) = (none, none);
    let mut fours = <S::Row as Rows>::Counts::default();
    for quarter in 0..side / 4 {
        let row = 4 * quarter;
        let (a, b) = (squares.row_in(row, WORDS), squares.row_in(row + 1, WORDS));
        let (upper, carry) = added(a, b, ones);
        let (a, b) = (
            squares.row_in(row + 2, WORDS),
            squares.row_in(row + 3, WORDS),
        );
        let (lower, other) = added(a, b, upper);
        let (sum, carries) = added(carry, other, twos);
        ones = lower;
        twos = sum;
        fours = carries.add_to(fours);
    }
    let pairs = twos.add_to(S::Row::plus(fours, fours));
    let mut total = ones.add_to(S::Row::plus(pairs, pairs));
    for row in side / 4 * 4..side {
        total = squares.row_in(row, WORDS).add_to(total);
    }
    total
}

// What is counted in each square: the points for runs, and the numbers of two by two squares of one colour, of windows
// and of dark modules.
#[derive(Drop)]
pub(crate) struct Counted<N> {
    pub runs: N,
    pub squares: N,
    pub windows: N,
    pub dark: N,
}

fn count_in<S: Squares, const WORDS: u8>(squares: &S) -> Counted<<S::Row as Rows>::Counts>
    requires width { NeedsWords (S.size squares.now) WORDS }
    ensures { (second : Bool) → IsCounted (S.size squares.now) (S.dark squares.now second)
        (S.Row.number result.runs second) (S.Row.number result.squares second)
        (S.Row.number result.windows second) (S.Row.number result.dark second) }
{
    let (runs, of_two) = runs_and_squares::<S, WORDS>(squares);
    Counted {
        runs,
        squares: of_two,
        windows: window_count::<S, WORDS>(squares),
        dark: dark_count::<S, WORDS>(squares),
    }
}

// Loops over rows are compiled once for each number of words that a row takes, and leave out the words that are always
// empty.
pub(crate) fn count_all<S: Squares>(squares: &S) -> Counted<<S::Row as Rows>::Counts>
    ensures { (second : Bool) → IsCounted (S.size squares.now) (S.dark squares.now second)
        (S.Row.number result.runs second) (S.Row.number result.squares second)
        (S.Row.number result.windows second) (S.Row.number result.dark second) }
{
    match squares.side().div_ceil(64) {
        1 => count_in::<S, 1>(squares),
        2 => count_in::<S, 2>(squares),
        _ => count_in::<S, 3>(squares),
    }
}

// The penalty of a square whose numbers are in `counted`. The bounds on these numbers follow from how they were
// counted. For each row of the square, and there are at most 177, the set bits of one bit row were counted, which has
// 192 bits. For runs and windows the set bits of two bit rows were counted: one for the runs or windows in the row, and
// one for those in columns.
fn points(side: u8, counted: Counted<u32>) -> u32
    requires least { 1 ≤ side }
    requires most { side ≤ 177 }
    requires runs { counted.runs ≤ 384 * 177 }
    requires squares { counted.squares ≤ 192 * 177 }
    requires windows { counted.windows ≤ 384 * 177 }
    requires dark { counted.dark ≤ 192 * 177 }
    ensures { (dark : ℕ → ℕ → Bool) → IsCounted side dark counted.runs counted.squares counted.windows counted.dark
        → result ≡ penalty_of side dark }
{
    let modules = u32::from(side) * u32::from(side);
    // A twentieth of all modules is 5 %. The dark modules are `20 * dark / modules` twentieths of all modules, and a
    // half is 10 twentieths. So `excess / modules` is the number of whole twentieths by which the share of dark modules
    // differs from a half.
    let excess = (20 * counted.dark).abs_diff(10 * modules);
    counted.runs
        + SQUARE_POINTS * counted.squares
        + WINDOW_POINTS * counted.windows
        + BALANCE_POINTS * (excess / modules)
}

/// Returns the penalty of a square: the points for runs of five or more modules of one colour, for two by two squares
/// of one colour, for windows (the ratio 1:1:3:1:1 before or after four light modules), and for the share of dark
/// modules (ISO/IEC 18004:2015, 7.8.3.1, Table 11).
pub fn penalty(m: &Matrix) -> u32
    ensures { result ≡ penalty_of m.now.side (colour m.now) }
{
    points(m.side(), count_all(m))
}

impl MatrixPair {
    /// Returns the penalty of each of the two squares. Each is what `penalty` returns for the square.
    pub fn penalties(&self) -> (u32, u32)
        ensures first { result.0 ≡ penalty_of self.now.first.side (colour self.now.first) }
        ensures second { result.1 ≡ penalty_of self.now.second.side (colour self.now.second) }
    {
        let side = self.side();
        let Counted {
            runs,
            squares,
            windows,
            dark,
        } = count_all(self);
        let first = Counted {
            runs: runs.0,
            squares: squares.0,
            windows: windows.0,
            dark: dark.0,
        };
        let second = Counted {
            runs: runs.1,
            squares: squares.1,
            windows: windows.1,
            dark: dark.1,
        };
        (points(side, first), points(side, second))
    }
}
