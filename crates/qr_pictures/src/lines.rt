//! Ends of runs in a row of pixels.

ghost use Rattle.std.specs.Prelude.{◌≡◌, ◌≢◌, ◌-◌, ◌<◌, ◌≤◌, length, slice_index_or};
ghost use Rattle.std.specs.Bool.{Decides};
ghost use Rattle.qr_pictures.specs.Steps.{AreAll};

/// Returns the index of the first byte that is not `value`, or the length if there is none.
pub(crate) fn first_other(line: &[u8], value: u8) -> usize
    ensures most { result ≤ length line.now }
    ensures before { AreAll line.now 0 result value }
    ensures at { result < length line.now → slice_index_or line.now result 0 ≢ value }
{
    for (i, byte) in line.iter().enumerate() {
        if *byte != value {
            return i;
        }
    }
    line.len()
}

/// Returns the index after the last byte that is not `value`, or 0 if there is none.
pub(crate) fn end_of_others(line: &[u8], value: u8) -> usize
    ensures most { result ≤ length line.now }
    ensures after { AreAll line.now result (length line.now) value }
    ensures at { 0 < result → slice_index_or line.now (result - 1) 0 ≢ value }
{
    let mut end = line.len();
    'back: while end > 0 && line[end - 1] == value {
        end -= 1;
    }
    end
}

/// Returns whether all bytes from index `from` to index `end - 1` are `value`.
pub(crate) fn are_all(line: &[u8], from: usize, end: usize, value: u8) -> bool
    requires order { from ≤ end }
    requires room { end ≤ length line.now }
    ensures { Decides result (AreAll line.now from end value) }
{
    first_other(&line[from..end], value) == end - from
}
