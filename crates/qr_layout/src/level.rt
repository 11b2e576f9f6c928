//! The four error correction levels (ISO/IEC 18004:2015, 7.5.1).

/// An error correction level. In a given version, a symbol of a higher level has more error correction codewords, so
/// that more damage can be corrected: by the standard's rounded figures 7 % of its codewords at L, 15 % at M, 25 % at Q
/// and 30 % at H.
#[derive(Clone, Copy, Debug, PartialEq, Eq)]
pub enum Level {
    L,
    M,
    Q,
    H,
}
