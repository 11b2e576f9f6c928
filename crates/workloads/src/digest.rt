//! A number that depends on all results of a job.

/// The digest depends on each byte and each number that was added, and on their order. Eight bytes are added at once,
/// so that the digest takes little of a job's time.
#[derive(Clone, Copy, Drop)]
pub struct Digest {
    state: u64,
}

impl Digest {
    pub const NONE: Digest = Digest {
        state: 0xCBF2_9CE4_8422_2325,
    };

    pub fn add(&mut self, number: u64) {
        self.state = (self.state ^ number)
            .wrapping_mul(0x9E37_79B9_7F4A_7C15)
            .rotate_left(23);
    }

    /// Adds the number of bytes, and then the bytes.
    pub fn add_bytes(&mut self, bytes: &[u8]) {
        self.add(bytes.len() as u64);
        let words = bytes.len() / 8;
        for word in 0..words {
            let at = 8 * word;
            self.add(u64::from_le_bytes([
                bytes[at],
                bytes[at + 1],
                bytes[at + 2],
                bytes[at + 3],
                bytes[at + 4],
                bytes[at + 5],
                bytes[at + 6],
                bytes[at + 7],
            ]));
        }
        for at in 8 * words..bytes.len() {
            self.add(u64::from(bytes[at]));
        }
    }

    pub fn value(self) -> u64 {
        self.state
    }
}
