//! The modules of a symbol in a picture.

ghost use Rattle.std.specs.Prelude.{◌≡◌, ℕ, ◌<◌, ◌≤◌, ◌*◌, length, true, false};
ghost use Rattle.qr_sampling.specs.Brightness.{shown};
ghost use Rattle.qr_sampling.specs.Sampling.{IsEnough, sampled};
ghost use Rattle.qr_sampling.specs.Tables.{IsTable};

use crate::levels::{RowSums, write_across, write_lights, write_marks, write_modules};
use crate::map::Map;
use crate::means::write_values;
use crate::picture::Picture;

/// The greatest number of modules on a side.
pub const SIDE_MAX: usize = 177;

/// The greatest distance from the middle of a module at which a place is sampled, in pixels.
pub const REACH_MAX: u32 = 4;

/// How the modules of a symbol are sampled.
#[derive(Clone, Copy)]
pub struct Sampling {
    /// Where the places of the symbol are in the picture.
    pub map: Map,
    /// The number of modules on a side.
    pub side: usize,
    /// The brightness of a module is the mean at places up to so many pixels from its middle.
    pub reach: u32,
    /// Whether modules stand out from their neighbours, against blur.
    pub is_sharpened: bool,
    /// Whether a module that is neither dark nor light is taken for the one to which it is nearer.
    pub is_decided: bool,
    /// Whether the symbol is light on dark.
    pub is_inverse: bool,
    /// Whether columns and rows are exchanged.
    pub is_mirrored: bool,
}

/// Writes what the modules of a symbol are: 1 for dark, 0 for light, and 2 where this is not known. Returns whether it did:
/// not if the side is above `SIDE_MAX` or the reach above `REACH_MAX`, if `modules` has no room for each module, or if one
/// of the tables has no room for three numbers for each module. The tables are work memory.
#[tactic(auto, unfolding(crate::specs::Sampling::sampled))]
pub fn sample(
    picture: &Picture,
    how: &Sampling,
    bytes: &mut [u8],
    sums: &mut [u16],
    modules: &mut [u8],
) -> bool
    ensures modules { result ≡ true → IsTable how.now.side (sampled (shown picture.now) how.now) modules.new }
    ensures enough { IsEnough how.now.side how.now.reach (length bytes.old) (length sums.old) (length modules.old) → result ≡ true }
    ensures unchanged { result ≡ false → modules.new ≡ modules.old }
{
    let side = how.side;
    if side > SIDE_MAX || how.reach > REACH_MAX {
        return false;
    }
    let n = side * side;
    if bytes.len() < 3 * n || sums.len() < 3 * n || modules.len() < n {
        return false;
    }
    let (values, rest) = bytes.split_at_mut(n);
    let (lights, marks) = rest.split_at_mut(n);
    let (all, others) = sums.split_at_mut(n);
    let (light, count) = others.split_at_mut(n);
    write_values(picture, how, lights, values);
    write_across(values, side, all);
    write_lights(values, all, side, lights);
    write_marks(lights, side, marks);
    write_across(lights, side, light);
    write_across(marks, side, count);
    let sums = RowSums { all, light, count };
    write_modules(values, &sums, how, modules);
    true
}
