ghost use Rattle.std.specs.Prelude.{◌≡◌};

use crate::small_rows::SmallRows;
use path_union::UnionWalk;
use step_count::{Reads, Steps};
use track_types::{Lazy, Stop, StopWalk};

/// A walk over the stops of an object in a window, with the rows that a tail has of the object there.
/// If both have an instant, it gives the tail's row.
///
/// It keeps one stop of the walk and one of the rows, and takes no memory of its own. The reads are those
/// of the walk, from which each draw takes at most one stop.
pub type TailWalk<'a, W> = UnionWalk<TrackWalk<'a>, W>;

/// A walk over the stops of an object's rows in a tail, which are at hand: it makes no read.
#[derive(Drop)]
pub struct TrackWalk<'a> {
    rows: SmallRows<'a>,
}

impl<'a> TrackWalk<'a> {
    /// The walk over these rows.
    pub(crate) fn over(rows: SmallRows<'a>) -> TrackWalk<'a>
        ensures { result.rows ≡ rows.entry }
    {
        TrackWalk { rows }
    }
}

impl<'a> Lazy for TrackWalk<'a> {
    ghost use Rattle.std.specs.Prelude.{false, map};
    ghost use Rattle.track_types.specs.ByFilter.{stop_of};
    ghost use Rattle.live_tail.specs.SmallRows.{rows_in};

    type Item = Stop;

    ghost left = { λ w. map stop_of (rows_in w.rows) };

    ghost budget = { λ w. 0 };

    ghost needs = { λ _ _. false };

    fn draw<L: Reads>(&mut self, _steps: &mut Steps<L>) -> Option<Stop> {
        match self.rows.take_first() {
            Some(row) => Some(Stop {
                instant: row.instant,
                cell: row.cell,
            }),
            None => None,
        }
    }
}

impl<'a> StopWalk for TrackWalk<'a> {
    ghost reads_past = { λ w _. 0 };

    fn next<L: Reads>(&mut self, steps: &mut Steps<L>) -> Option<Stop> {
        self.draw(steps)
    }
}
