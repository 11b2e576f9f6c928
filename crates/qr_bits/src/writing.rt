//! How the bytes of an input are written: the rule and the interpretation together.

use crate::interpretation::Interpretation;
use crate::modes::Rule;

/// How bytes are written: in which modes, and what the symbol says of them (ISO/IEC 18004:2015, 7.3, 7.4.2, 7.4.8.2).
#[derive(Clone, Copy, Debug)]
pub struct Writing {
    pub rule: Rule,
    pub interpretation: Interpretation,
}
