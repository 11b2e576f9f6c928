//! Which modules of a square are dark, by the brightness of those around them.

ghost use Rattle.std.specs.Prelude.{◌≡◌, ℕ, ◌<◌, ◌≤◌, ◌+◌, ◌-◌, ◌*◌, ◌/◌, ◌%◌, ◌^◌, length, slice_index, if◌then◌else◌};
ghost use Rattle.qr_sampling.specs.Levels.{across, area, around, count_around, light_of, mark, mean_level, module_of};
ghost use Rattle.qr_sampling.specs.Sampling.{module_in, placed};
ghost use Rattle.qr_sampling.specs.Steps.{AreSums};
ghost use Rattle.qr_sampling.specs.Tables.{IsTable};

use crate::means::entry;
use crate::sampling::Sampling;

// Returns the number of columns around a column, or of rows around a row.
fn count_around(side: usize, k: usize) -> usize
    requires side_in { side ≤ 177 }
    requires k_in { k < side }
    ensures value { result ≡ count_around side k }
    ensures bound { result ≤ 13 }
    ensures within { k - 6 + result ≤ side }
{
    side.min(k + 7) - k.saturating_sub(6)
}

// Returns the sum of the values around a column in a row.
#[tactic(auto, using(crate::proofs::Named::sum_table_facts))]
fn across(values: &[u8], side: usize, column: usize, row: usize) -> u16
    requires side_in { side ≤ 177 }
    requires column_in { column < side }
    requires row_in { row < side }
    requires room { side * side ≤ length values.now }
    ensures { (f : ℕ → ℕ → ℕ) → IsTable side f values.now → result ≡ across side f column row }
{
    let first = column.saturating_sub(6);
    let mut sum = 0u16;
    for i in 0..count_around(side, column) {
        sum += u16::from(values[row * side + (first + i)]);
    }
    sum
}

// Returns the sum of the values around a module, if `sums` has for each module the sum around its column in its row.
#[tactic(auto, using(crate::proofs::Named::sum_table_facts))]
fn around(sums: &[u16], side: usize, column: usize, row: usize) -> u32
    requires side_in { side ≤ 177 }
    requires column_in { column < side }
    requires row_in { row < side }
    requires room { side * side ≤ length sums.now }
    ensures value { (f : ℕ → ℕ → ℕ) → IsTable side (across side f) sums.now → result ≡ around side f column row }
    ensures bound { result ≤ 13 * 65535 }
{
    let first = row.saturating_sub(6);
    let mut sum = 0u32;
    for j in 0..count_around(side, row) {
        sum += u32::from(sums[(first + j) * side + column]);
    }
    sum
}

// Writes for each module the sum of the values around its column in its row.
#[tactic(auto, using(crate::proofs::Named::table_facts))]
pub(crate) fn write_across(values: &[u8], side: usize, sums: &mut [u16])
    requires side_in { side ≤ 177 }
    requires room { side * side ≤ length values.now }
    requires sums_room { side * side ≤ length sums.old }
    ensures { (f : ℕ → ℕ → ℕ) → IsTable side f values.now → IsTable side (across side f) sums.new }
{
    for k in 0..side * side {
        sums[k] = across(values, side, k % side, k / side);
    }
}

// Returns the number of modules around a module.
#[tactic(auto, unfolding(crate::specs::Levels::area))]
fn area(side: usize, column: usize, row: usize) -> u32
    requires side_in { side ≤ 177 }
    requires column_in { column < side }
    requires row_in { row < side }
    ensures value { result ≡ area side column row }
    ensures bound { result ≤ 169 }
{
    count_around(side, column) as u32 * count_around(side, row) as u32
}

// Writes the values of the modules that are brighter than the mean of those around them, and 0 for the others.
#[tactic(auto, using(crate::proofs::Named::table_facts), unfolding(crate::specs::Levels::light_of))]
pub(crate) fn write_lights(values: &[u8], sums: &[u16], side: usize, lights: &mut [u8])
    requires side_in { side ≤ 177 }
    requires room { side * side ≤ length values.now }
    requires sums_room { side * side ≤ length sums.now }
    requires lights_room { side * side ≤ length lights.old }
    ensures { (f : ℕ → ℕ → ℕ) → IsTable side f values.now → IsTable side (across side f) sums.now
        → IsTable side (light_of side f) lights.new }
{
    for k in 0..side * side {
        let (column, row) = (k % side, k / side);
        let is_light = around(sums, side, column, row)
            < u32::from(values[k]) * area(side, column, row);
        lights[k] = if is_light { values[k] } else { 0 };
    }
}

// Writes 1 for each value that is not 0.
#[tactic(auto, using(crate::proofs::Named::table_facts))]
pub(crate) fn write_marks(values: &[u8], side: usize, marks: &mut [u8])
    requires side_in { side ≤ 177 }
    requires room { side * side ≤ length values.now }
    requires marks_room { side * side ≤ length marks.old }
    ensures { (f : ℕ → ℕ → ℕ) → IsTable side f values.now → IsTable side (λ c r. mark (f c r)) marks.new }
{
    for k in 0..side * side {
        marks[k] = values[k].min(1);
    }
}

// Returns sixteen times the mean of `count` numbers with this sum, or `otherwise` if there is no number.
fn mean_level(sum: u32, count: u32, otherwise: u32) -> u32
    requires sum_in { sum ≤ 13 * 65535 }
    requires otherwise_in { otherwise ≤ 4080 }
    ensures value { result ≡ mean_level sum count otherwise }
    ensures bound { result < 2 ^ 24 }
{
    if count == 0 {
        otherwise
    } else {
        16 * sum / count
    }
}

// Returns what a module is. `twice` is 32 times its brightness.
#[tactic(auto, unfolding(crate::specs::Levels::module_of))]
fn module_of(how: &Sampling, twice: u32, light: u32, dark: u32) -> u8
    requires twice_in { twice ≤ 32 * 255 }
    requires light_in { light < 2 ^ 24 }
    requires dark_in { dark < 2 ^ 24 }
    ensures { result ≡ module_of how.now.is_inverse how.now.is_decided twice light dark }
{
    let middle = light + dark;
    let distance = twice.saturating_sub(middle) + middle.saturating_sub(twice);
    if !how.is_decided && 4 * distance < light.saturating_sub(dark) {
        2
    } else {
        u8::from((twice < middle) != how.is_inverse)
    }
}

/// The sums around each module in its row: of all values, of the light ones, and of the marks of the light ones.
#[derive(Clone, Copy)]
pub(crate) struct RowSums<'a> {
    pub(crate) all: &'a [u16],
    pub(crate) light: &'a [u16],
    pub(crate) count: &'a [u16],
}

// Returns what the module in a column and a row is, where its value is given.
#[tactic(auto, unfolding(crate::specs::Levels::light_level, crate::specs::Levels::dark_level, crate::specs::Levels::lights, crate::specs::Sampling::module_in))]
fn module_in(value: u8, sums: &RowSums, how: &Sampling, column: usize, row: usize) -> u8
    requires side_in { how.now.side ≤ 177 }
    requires column_in { column < how.now.side }
    requires row_in { row < how.now.side }
    requires all_room { how.now.side * how.now.side ≤ length sums.now.all.now }
    requires light_room { how.now.side * how.now.side ≤ length sums.now.light.now }
    requires count_room { how.now.side * how.now.side ≤ length sums.now.count.now }
    ensures { (f : ℕ → ℕ → ℕ) → value ≡ f column row → AreSums how.now.side f sums.now.all.now sums.now.light.now sums.now.count.now
        → result ≡ module_in how.now f column row }
{
    let side = how.side;
    let all = around(sums.all, side, column, row);
    let light = around(sums.light, side, column, row);
    let count = around(sums.count, side, column, row);
    let light_level = mean_level(light, count, 4080);
    let others = area(side, column, row).saturating_sub(count);
    let dark_level = mean_level(all.saturating_sub(light), others, 0);
    module_of(how, 32 * u32::from(value), light_level, dark_level)
}

// Returns what the module at an index is. In a mirrored symbol columns and rows are exchanged.
#[tactic(auto, using(crate::proofs::Named::table_facts), unfolding(crate::specs::Sampling::placed))]
fn module_at(values: &[u8], sums: &RowSums, how: &Sampling, k: usize) -> u8
    requires side_in { how.now.side ≤ 177 }
    requires k_in { k < how.now.side * how.now.side }
    requires room { how.now.side * how.now.side ≤ length values.now }
    requires all_room { how.now.side * how.now.side ≤ length sums.now.all.now }
    requires light_room { how.now.side * how.now.side ≤ length sums.now.light.now }
    requires count_room { how.now.side * how.now.side ≤ length sums.now.count.now }
    ensures { (f : ℕ → ℕ → ℕ) → IsTable how.now.side f values.now → AreSums how.now.side f sums.now.all.now sums.now.light.now sums.now.count.now
        → result ≡ placed how.now f (k % how.now.side) (k / how.now.side) }
{
    let side = how.side;
    let (column, row) = (k % side, k / side);
    if how.is_mirrored {
        module_in(entry(values, side, row, column), sums, how, row, column)
    } else {
        module_in(entry(values, side, column, row), sums, how, column, row)
    }
}

// Writes what the modules are.
#[tactic(auto, using(crate::proofs::Named::table_facts))]
pub(crate) fn write_modules(values: &[u8], sums: &RowSums, how: &Sampling, modules: &mut [u8])
    requires side_in { how.now.side ≤ 177 }
    requires room { how.now.side * how.now.side ≤ length values.now }
    requires all_room { how.now.side * how.now.side ≤ length sums.now.all.now }
    requires light_room { how.now.side * how.now.side ≤ length sums.now.light.now }
    requires count_room { how.now.side * how.now.side ≤ length sums.now.count.now }
    requires modules_room { how.now.side * how.now.side ≤ length modules.old }
    ensures { (f : ℕ → ℕ → ℕ) → IsTable how.now.side f values.now → AreSums how.now.side f sums.now.all.now sums.now.light.now sums.now.count.now
        → IsTable how.now.side (placed how.now f) modules.new }
{
    for k in 0..how.side * how.side {
        modules[k] = module_at(values, sums, how, k);
    }
}
