//! Bytes of a table. An index outside the table reads 0 and writes nothing.

pub(crate) fn byte_at(table: &[u8], index: usize) -> u8 {
    if index < table.len() { table[index] } else { 0 }
}

pub(crate) fn put(table: &mut [u8], index: usize, byte: u8) {
    if index < table.len() {
        table[index] = byte;
    }
}

// Returns the bytes from one index to another, or none if the table does not have them.
pub(crate) fn part(table: &[u8], start: usize, end: usize) -> &[u8] {
    if start <= end && end <= table.len() {
        &table[start..end]
    } else {
        &table[..0]
    }
}
