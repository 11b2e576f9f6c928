//! The brightness of the modules of a symbol in a picture.

ghost use Rattle.std.specs.Prelude.{◌≡◌, ℕ, ◌<◌, ◌≤◌, ◌+◌, ◌-◌, ◌*◌, ◌/◌, ◌^◌, min, length};
ghost use Rattle.qr_sampling.specs.Brightness.{shown};
ghost use Rattle.qr_sampling.specs.Sampling.{mean_at, rounded_mean, row_sum, sharpened, square_sum, value_at};
ghost use Rattle.qr_sampling.specs.Tables.{IsTable};

use crate::map::Map;
use crate::picture::Picture;
use crate::sampling::Sampling;

// Returns the sum of the brightness at places in a row, a pixel apart, up to `reach` to each side of the column `x`.
#[tactic(auto, using(crate::proofs::Named::sum_facts), unfolding(crate::specs::Sampling::row_sum))]
fn row_sum(picture: &Picture, reach: u32, x: u32, y: u32) -> u32
    requires reach_in { reach ≤ 4 }
    requires x_in { x < 2 ^ 19 }
    ensures value { result ≡ row_sum (shown picture.now) reach x y }
    ensures bound { result ≤ 255 * (2 * reach + 1) }
{
    let mut sum = 0u32;
    for i in 0..2 * reach + 1 {
        sum += u32::from(picture.brightness((x + 16 * i).saturating_sub(16 * reach + 8), y));
    }
    sum
}

// Returns the sum of the brightness at places in a square, a pixel apart, around the place `x`, `y`.
#[tactic(auto, using(crate::proofs::Named::sum_facts), unfolding(crate::specs::Sampling::square_sum))]
fn square_sum(picture: &Picture, reach: u32, x: u32, y: u32) -> u32
    requires reach_in { reach ≤ 4 }
    requires x_in { x < 2 ^ 19 }
    requires y_in { y < 2 ^ 19 }
    ensures value { result ≡ square_sum (shown picture.now) reach x y }
    ensures bound { result ≤ 255 * (2 * reach + 1) * (2 * reach + 1) }
{
    let mut sum = 0u32;
    for j in 0..2 * reach + 1 {
        sum += row_sum(
            picture,
            reach,
            x,
            (y + 16 * j).saturating_sub(16 * reach + 8),
        );
    }
    sum
}

// Returns the mean of numbers with this sum, rounded.
#[tactic(auto, using(crate::proofs::Named::mean_facts))]
fn rounded_mean(sum: u32, count: u32) -> u8
    requires count_in { 0 < count }
    requires count_high { count ≤ 81 }
    requires sum_in { sum ≤ 255 * count }
    ensures { result ≡ rounded_mean sum count }
{
    ((sum + count / 2) / count) as u8
}

// Returns the brightness of a module.
#[tactic(auto, using(crate::proofs::Named::mean_facts), unfolding(crate::specs::Sampling::mean_at))]
fn mean_at(picture: &Picture, map: &Map, reach: u32, column: u32, row: u32) -> u8
    requires reach_in { reach ≤ 4 }
    requires column_in { column < 177 }
    requires row_in { row < 177 }
    ensures { result ≡ mean_at (shown picture.now) map.now reach column row }
{
    let u = 8 * column + 4;
    let v = 8 * row + 4;
    let sum = square_sum(picture, reach, map.column_of(u, v), map.row_of(u, v));
    rounded_mean(sum, (2 * reach + 1) * (2 * reach + 1))
}

// Writes the brightness of each module.
#[tactic(auto, using(crate::proofs::Named::table_facts))]
fn write_means(picture: &Picture, map: &Map, side: usize, reach: u32, means: &mut [u8])
    requires side_in { side ≤ 177 }
    requires reach_in { reach ≤ 4 }
    requires room { side * side ≤ length means.old }
    ensures { IsTable side (mean_at (shown picture.now) map.now reach) means.new }
{
    for k in 0..side * side {
        means[k] = mean_at(picture, map, reach, (k % side) as u32, (k / side) as u32);
    }
}

// Returns the value in a column and a row.
#[tactic(auto, using(crate::proofs::Named::table_facts))]
pub(crate) fn entry(values: &[u8], side: usize, column: usize, row: usize) -> u8
    requires side_in { side ≤ 177 }
    requires column_in { column < side }
    requires row_in { row < side }
    requires room { side * side ≤ length values.now }
    ensures { (f : ℕ → ℕ → ℕ) → IsTable side f values.now → result ≡ f column row }
{
    values[row * side + column]
}

// Returns the sum of the values of the four modules beside a module, or of the module itself at the border.
#[tactic(auto, using(crate::proofs::Named::table_facts))]
fn beside(values: &[u8], side: usize, column: usize, row: usize) -> u32
    requires side_in { side ≤ 177 }
    requires column_in { column < side }
    requires row_in { row < side }
    requires room { side * side ≤ length values.now }
    ensures value { (f : ℕ → ℕ → ℕ) → IsTable side f values.now
        → result ≡ f column (row - 1) + f column (min (row + 1) (side - 1)) + f (column - 1) row + f (min (column + 1) (side - 1)) row }
    ensures bound { result ≤ 4 * 255 }
{
    let above = entry(values, side, column, row.saturating_sub(1));
    let below = entry(values, side, column, (row + 1).min(side - 1));
    let left = entry(values, side, column.saturating_sub(1), row);
    let right = entry(values, side, (column + 1).min(side - 1), row);
    u32::from(above) + u32::from(below) + u32::from(left) + u32::from(right)
}

// Returns a value that stands out from the four beside it.
fn sharpened_value(value: u8, others: u32) -> u8
    requires { others ≤ 4 * 255 }
    ensures { result ≡ min ((7 * value - others) / 3) 255 }
{
    ((7 * u32::from(value)).saturating_sub(others) / 3).min(255) as u8
}

// Writes the values that stand out from the values beside them.
#[tactic(auto, using(crate::proofs::Named::table_facts), unfolding(crate::specs::Sampling::sharpened))]
fn write_sharpened(values: &[u8], side: usize, sharp: &mut [u8])
    requires side_in { side ≤ 177 }
    requires room { side * side ≤ length values.now }
    requires sharp_room { side * side ≤ length sharp.old }
    ensures { (f : ℕ → ℕ → ℕ) → IsTable side f values.now → IsTable side (sharpened side f) sharp.new }
{
    for k in 0..side * side {
        let others = beside(values, side, k % side, k / side);
        sharp[k] = sharpened_value(entry(values, side, k % side, k / side), others);
    }
}

// Writes the values of the modules. `raw` is room for the means.
#[tactic(auto, unfolding(crate::specs::Sampling::value_at))]
pub(crate) fn write_values(picture: &Picture, how: &Sampling, raw: &mut [u8], values: &mut [u8])
    requires side_in { how.now.side ≤ 177 }
    requires reach_in { how.now.reach ≤ 4 }
    requires raw_room { how.now.side * how.now.side ≤ length raw.old }
    requires room { how.now.side * how.now.side ≤ length values.old }
    ensures { IsTable how.now.side (value_at (shown picture.now) how.now) values.new }
{
    if how.is_sharpened {
        write_means(picture, &how.map, how.side, how.reach, raw);
        write_sharpened(raw, how.side, values);
    } else {
        write_means(picture, &how.map, how.side, how.reach, values);
    }
}
