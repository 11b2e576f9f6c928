//! The version and the level of a symbol together.

use crate::level::Level;
use crate::version::Version;

/// The version and the error correction level of a symbol, which together determine its capacity (ISO/IEC 18004:2015,
/// 7.4.10, Table 7).
#[derive(Clone, Copy, Debug, PartialEq, Eq)]
pub struct Size {
    pub version: Version,
    pub level: Level,
}
