//! The dark runs of a row. A dark run begins where the colour changes to dark, and ends where it changes back to light.

ghost use Rattle.std.specs.Prelude.{◌<◌};
ghost use Rattle.std.specs.Iterator.{YieldsFirst, item_count};
ghost use Rattle.qr_matrix.specs.DarkRuns.{AreDarkRuns};

use crate::bit_row::BitRow;
use crate::matrix::Matrix;
use std::marker::Model;

/// A dark run of a row: the columns `start..end`.
#[derive(Clone, Copy)]
pub struct Run {
    pub start: u8,
    pub end: u8,
}

/// An iterator over the dark runs of a row, from left to right. Contracts see it as the list of the runs that are still
/// to come.
#[derive(Drop)]
pub struct DarkRuns {
    // The columns at which the runs that are still to come start or end. The end of a run is the column after its last
    // module. From left to right, starts and ends take turns.
    changes: BitRow,
}

impl Model for DarkRuns {
    ghost use Rattle.std.specs.Prelude.{List};
    ghost use Rattle.qr_matrix.specs.Steps.{runs_between, set_bits};
    ghost use Rattle.qr_matrix.specs.declared.dark_runs.Run.{Run};

    ghost Value = { List Run };

    ghost view = { λ s. runs_between (set_bits s.changes) };
}

impl Matrix {
    /// Returns the dark runs of row `row`, from left to right.
    pub fn dark_runs(&self, row: u8) -> DarkRuns
        requires { row < self.now.side }
        ensures { AreDarkRuns self.now row result }
    {
        DarkRuns {
            changes: self.changes(row),
        }
    }
}

impl Iterator for DarkRuns {
    type Item = Run;

    ghost next_gives = { YieldsFirst (λ s. s) };

    ghost remaining = { item_count (λ s. s) };

    #[inline(always)]
    fn next(&mut self) -> Option<Run> {
        let start = self.changes.take_first()?;
        let end = self.changes.take_first()?;
        Some(Run { start, end })
    }
}
