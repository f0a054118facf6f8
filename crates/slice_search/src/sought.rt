ghost use Rattle.std.specs.Prelude.{◌≡◌, ◌+◌, ◌<◌, ◌≤◌, length};
ghost use Rattle.step_count.specs.Reads.{is_of_period, ReadsWithin};
ghost use Rattle.std.specs.List.{sum_by};
ghost use Rattle.track_types.specs.Frame.{periods_of};
ghost use Rattle.track_types.specs.Region.{intersects_region};
ghost use Rattle.snapshots.specs.Parts.{rules_in, snapshot_in};
ghost use Rattle.snapshots.specs.Sound.{IsBlock};
ghost use Rattle.snapshots.specs.TrackWalk.{tracks_needs};
ghost use Rattle.slice_search.specs.Cost.{period_search_cost};
ghost use Rattle.slice_search.specs.Needs.{period_needs};
ghost use Rattle.slice_search.specs.Reach.{may_reach};
ghost use Rattle.slice_search.specs.Sought.{first_stop_in, latest_in, log_reads, AreSought};
ghost use Rattle.slice_search.specs.Walk.{sought_budget, sought_left};

use crate::reach::{Reach, latest_of};
use log_cursor::{Pending, first_hit_with};
use object_track::Placed;
use region_test::RegionTest;
use snapshots::{Anchored, Stores, Tracks};
use step_count::{Reads, Steps};
use track_types::Stop;

/// What is sought in one period: the objects that are in a region at some instant of a window, and
/// where each of them is first.
#[derive(Drop)]
pub struct Sought<'a> {
    pub stores: &'a Stores,
    /// One of the index's periods.
    pub period: u32,
    /// The first instant of the window.
    pub from: i64,
    /// Its last one. Both count.
    pub to: i64,
    pub test: &'a RegionTest,
    ghost known: { period < periods_of stores.now.frame },
}

impl<'a> Sought<'a> {
    /// The blocks of the period that may have what is sought, in leaf order. Each block that has it
    /// is among them once. The reads of the walk, and those of `first_stop` for each block, come to at
    /// most `period_search_cost`, with the reach at the last instant of the window in the period. It
    /// takes no memory.
    pub fn blocks(&self) -> Tracks<'a, Reach<'a>>
        ensures sought { AreSought self.now.stores.now self.now.period self.now.from self.now.to
            self.now.test.now.region (sought_left result
            (λ r. may_reach r.test.now.region r.grid r.width)
            (λ r. intersects_region r.test.now.region)) }
        ensures cost { sought_budget result
            (λ r. may_reach r.test.now.region r.grid r.width)
            (λ r. intersects_region r.test.now.region)
            + sum_by (log_reads self.now.stores.now self.now.period self.now.from self.now.to
            self.now.test.now.region) (sought_left result
            (λ r. may_reach r.test.now.region r.grid r.width)
            (λ r. intersects_region r.test.now.region))
            ≤ period_search_cost self.now.stores.now self.now.period self.now.from self.now.to
            self.now.test.now.region
            (latest_in self.now.stores.now.frame self.now.period self.now.to) }
        ensures needs { ReadsWithin (tracks_needs result) (is_of_period self.now.period) }
    {
        let latest = latest_of(self.stores.frame(), self.period, self.to);
        let reach = Reach::new(self.stores, self.period, latest, self.test);
        self.stores.tracks(self.period, reach)
    }

    /// The first stop of a block in the window and the region. The stack is the caller's, of the
    /// stores' rules, and serves one block after another. No memory is taken.
    pub fn first_stop<L: Reads>(
        &self,
        block: &Anchored,
        pending: &mut Pending<'a>,
        steps: &mut Steps<L>,
    ) -> Option<Stop>
        requires block { IsBlock (snapshot_in self.now.stores.now self.now.period) block.now }
        requires rules { pending.old.rules ≡ rules_in self.now.stores.now }
        requires may { ReadsWithin (period_needs self.now.stores.now self.now.period self.now.from
            self.now.to self.now.test.now.region) L.may }
        ensures value { result ≡ first_stop_in self.now.stores.now self.now.period self.now.from
            self.now.to self.now.test.now.region block.now }
        ensures rules { pending.new.rules ≡ pending.old.rules }
        ensures object { block.now.index < length self.now.stores.now.objects }
        ensures cost { steps.new ≤ steps.old + log_reads self.now.stores.now self.now.period
            self.now.from self.now.to self.now.test.now.region block.now }
    {
        let _ = self.stores.frame(); // says what holds of every index
        let placed = Placed::new(self.stores, self.period, block);
        first_hit_with(
            pending,
            placed.log,
            placed.start,
            self.from,
            self.to,
            self.test,
            steps,
        )
    }
}
