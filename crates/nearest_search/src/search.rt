ghost use Rattle.std.specs.Prelude.{◌≡◌, ◌+◌, ◌<◌, ◌≤◌, ℕ, IfOk, IsTrue};
ghost use Rattle.step_count.specs.Reads.{ofPeriod, ReadsWithin};
ghost use Rattle.track_types.specs.ByFilter.{nears_of};
ghost use Rattle.track_types.specs.Near.{IsAsked, IsCellAsked};
ghost use Rattle.snapshots.specs.Parts.{chart_in};
ghost use Rattle.nearest_search.specs.Cost.{nearest_cost, period_near_cost};
ghost use Rattle.nearest_search.specs.Needs.{nearest_needs, period_near_needs};
ghost use Rattle.nearest_search.specs.Seeking.{IsSearch};

use crate::closest::Closest;
use crate::near_search::NearSearch;
use crate::vantage::Vantage;
use crate::waiting::Waiting;
use snapshots::Stores;
use std::alloc::Global;
use step_count::{Reads, Steps};
use track_types::{Cell, Memory, Near};

/// The objects that are nearest to a cell at an instant, at most `count` of them, by squared distance,
/// then by object.
///
/// There are none at an instant outside the index. The instant and the cell's coordinates are at most
/// 2^41 away from 0. `Memory` is the only refusal. At no time are more than `count` objects kept, and
/// what waits is taken before what is farther.
pub fn nearest<L: Reads>(
    alloc: Global,
    stores: &Stores,
    count: u32,
    instant: i64,
    cell: Cell,
    steps: &mut Steps<L>,
) -> Result<Vec<Near>, Memory>
    requires instant { IsAsked instant }
    requires cell { IsCellAsked cell }
    requires may { ReadsWithin (nearest_needs stores.now instant) L.may }
    ensures ok { IfOk result (λ found.
        found.items ≡ nears_of (chart_in stores.now).rows count instant cell) }
    ensures cost { steps.new ≤ steps.old + nearest_cost stores.now count instant cell }
{
    if count == 0 {
        return Ok(Vec::new(alloc));
    }
    let Some(period) = stores.period_of(instant) else {
        return Ok(Vec::new(alloc));
    };
    let Some(kept) = stores.kept(period) else {
        return Ok(Vec::new(alloc));
    };
    let near_search = NearSearch {
        stores,
        period,
        kept,
        instant,
        vantage: Vantage::new(stores, period, instant, cell),
    };
    near_search.nearest(alloc, count, steps)
}

impl<'a> NearSearch<'a> {
    // The nearest, at most `count` of them, which is at least one.
    fn nearest<L: Reads>(
        &self,
        alloc: Global,
        count: u32,
        steps: &mut Steps<L>,
    ) -> Result<Vec<Near>, Memory>
        requires search { IsSearch self.now }
        requires some { 0 < count }
        requires may { IsTrue (L.may (ofPeriod self.now.period)) }
        requires logs { ReadsWithin (period_near_needs self.now.stores.now self.now.period
            self.now.instant) L.may }
        ensures ok { IfOk result (λ found. found.items
            ≡ nears_of (chart_in self.now.stores.now).rows count self.now.instant
            self.now.vantage.cell) }
        ensures cost { steps.new ≤ steps.old + period_near_cost self.now.stores.now count
            self.now.period self.now.instant self.now.vantage.cell }
    {
        let mut closest = Closest::new(alloc, count);
        let mut queue = self.begin(alloc, steps)?;
        while let Some(taken) = queue.take() {
            if !closest.has_room_for(taken.key) {
                return closest.into_vec(alloc);
            }
            match taken.waiting {
                Waiting::Node(node) => self.open(node, &mut queue, steps)?,
                Waiting::Place(place) => {
                    if let Some(near) = self.near(place, steps) {
                        closest.offer(near)?;
                    }
                }
            }
        }
        closest.into_vec(alloc)
    }
}
