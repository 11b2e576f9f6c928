//! What was read of a square of modules, some of which may be unknown.

ghost use Rattle.std.specs.Prelude.{◌≡◌, ◌≤◌};
ghost use Rattle.qr_layout.specs.Version.{side_of};

use qr_layout::Version;
use qr_matrix::Matrix;

// A module of `matrix` was not read if it is dark in `unknown`. Both squares have the side of the version.
#[derive(Clone, Copy)]
pub(crate) struct Scan<'a, 'b> {
    pub(crate) version: Version,
    pub(crate) matrix: &'a Matrix,
    pub(crate) unknown: &'b Matrix,
    ghost least: { 1 ≤ version },
    ghost most: { version ≤ 40 },
    ghost side: { matrix.now.side ≡ side_of version },
    ghost unknown_side: { unknown.now.side ≡ side_of version },
}
