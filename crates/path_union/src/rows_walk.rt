ghost use Rattle.std.specs.Prelude.{◌≡◌};

use step_count::{Reads, Steps};
use track_types::{Lazy, Row, Stop, StopWalk};

/// A walk over the stops of an object's rows, which are at hand: it makes no read.
#[derive(Drop)]
pub struct RowsWalk<'a> {
    rows: &'a [Row],
}

impl<'a> RowsWalk<'a> {
    /// The walk over these rows.
    pub fn over(rows: &'a [Row]) -> RowsWalk<'a>
        ensures { result.rows.now ≡ rows.now }
    {
        RowsWalk { rows }
    }
}

impl<'a> Lazy for RowsWalk<'a> {
    ghost use Rattle.std.specs.Prelude.{false, map};
    ghost use Rattle.track_types.specs.ByFilter.{stop_of};

    type Item = Stop;

    ghost left = { λ w. map stop_of w.rows.now };

    ghost budget = { λ w. 0 };

    ghost needs = { λ _ _. false };

    fn draw<L: Reads>(&mut self, _steps: &mut Steps<L>) -> Option<Stop> {
        let (row, rest) = self.rows.split_first()?;
        self.rows = rest;
        Some(Stop {
            instant: row.instant,
            cell: row.cell,
        })
    }
}

impl<'a> StopWalk for RowsWalk<'a> {
    ghost reads_past = { λ w _. 0 };

    fn next<L: Reads>(&mut self, steps: &mut Steps<L>) -> Option<Stop> {
        self.draw(steps)
    }
}
