ghost use Rattle.std.specs.Prelude.{◌≡◌, ◌<◌, ◌≤◌, ◌+◌, length, IsTrue, Some};
ghost use Rattle.step_count.specs.Reads.{ofPeriod, ReadsWithin};
ghost use Rattle.track_types.specs.Frame.{periods_of};
ghost use Rattle.log_cursor.specs.Seek.{cell_among};
ghost use Rattle.snapshots.specs.IndexCost.{position_cost_in};
ghost use Rattle.snapshots.specs.Parts.{snapshot_in, stops_in};
ghost use Rattle.snapshots.specs.View.{block_of};
ghost use Rattle.object_track.specs.Needs.{seek_needs};

use crate::placing::Placed;
use log_cursor::seek;
use snapshots::Stores;
use step_count::{Reads, Steps};
use track_types::Cell;

/// The cell of the object at a place among all objects, at an instant, by its block of a period, which
/// is one of the header's. `None` if and only if the period has no stop of it at the instant. It takes
/// no memory.
pub fn cell_in<L: Reads>(
    stores: &Stores,
    place: u32,
    period: u32,
    instant: i64,
    steps: &mut Steps<L>,
) -> Option<Cell>
    requires place { place < length stores.now.objects }
    requires period { period < periods_of stores.now.frame }
    requires may { IsTrue (L.may (ofPeriod period)) }
    requires log { ReadsWithin (seek_needs stores.now period instant
        (block_of (snapshot_in stores.now period) place)) L.may }
    ensures value { result ≡ cell_among (stops_in stores.now place period) instant }
    ensures cost { steps.new
        ≤ steps.old + position_cost_in stores.now (Some place) (Some period) }
{
    let block = stores.find(period, place, steps)?;
    let placed = Placed::new(stores, period, &block);
    seek(placed.log, placed.start, instant, steps)
}
