ghost use Rattle.std.specs.Prelude.{◌≡◌, ◌+◌, ◌≤◌, IfSome};
ghost use Rattle.step_count.specs.Reads.{ReadsWithin};
ghost use Rattle.track_types.specs.ByFilter.{cell_at};
ghost use Rattle.track_types.specs.Near.{IsAsked};
ghost use Rattle.track_types.specs.declared.question.Question.TheVariants as asked;
ghost use Rattle.snapshots.specs.Parts.{chart_in};
ghost use Rattle.live_tail.specs.Cost.{cost_with};
ghost use Rattle.live_tail.specs.Join.{joint_chart, rows_of_tail};
ghost use Rattle.track_index.specs.Cost.{needs_of};

use crate::interval::interval;
use crate::nearest::nearest;
use crate::slice::slice;
use crate::tail_walk::{TailWalk, TrackWalk};
use crate::tailed::TailRef;
use path_union::UnionWalk;
use std::alloc::Global;
use step_count::{Reads, Steps};
use track_index::PathWalk;
use track_types::{Answerer, Cell, Facts, Hit, Memory, Near, Region, Sighting};

impl<'a> Answerer for TailRef<'a> {
    ghost use Rattle.snapshots.specs.Parts.{chart_in};
    ghost use Rattle.live_tail.specs.Cost.{cost_with};
    ghost use Rattle.live_tail.specs.Facts.{facts_with};
    ghost use Rattle.live_tail.specs.Join.{joint_chart};
    ghost use Rattle.track_index.specs.Cost.{needs_of, path_cost_until};

    type Walk = TailWalk<'a, PathWalk<'a>>;

    ghost chart = { λ a. joint_chart (chart_in a.tailed.now.parts) a.tailed.now.tail };

    ghost facts = { λ a. facts_with a.tailed.now.parts a.tailed.now.tail };

    ghost cost = { λ a. cost_with a.tailed.now.parts a.tailed.now.tail };

    ghost needs = { λ a. needs_of a.tailed.now.parts };

    ghost path_cost_until = { λ a. path_cost_until a.tailed.now.parts };

    fn facts(self) -> Facts {
        let facts = self.tailed.index().view().facts();
        let objects = self.tailed.objects();
        let Some(time) = self.tailed.tail().time() else {
            return Facts { objects, ..facts };
        };
        Facts {
            objects,
            first: facts.first.min(time.least),
            last: facts.last.max(time.greatest),
            ..facts
        }
    }

    fn position<L: Reads>(self, object: u32, instant: i64, steps: &mut Steps<L>) -> Option<Cell>
        requires instant { IsAsked instant }
        requires may { ReadsWithin (needs_of self.tailed.now.parts (asked.Position object instant)) L.may }
        ensures value { result ≡ cell_at
            (joint_chart (chart_in self.entry.tailed.now.parts) self.entry.tailed.now.tail).rows object instant }
        ensures cost { steps.new ≤ steps.old
            + cost_with self.entry.tailed.now.parts self.entry.tailed.now.tail (asked.Position object instant) }
        ensures at_hand { IfSome (cell_at (rows_of_tail self.entry.tailed.now.tail) object instant)
            (λ _. steps.new ≡ steps.old) }
    {
        let index = self.tailed.index().view();
        match self.tailed.tail().cell_at(object, instant) {
            Some(cell) => Some(cell),
            None => index.position(object, instant, steps),
        }
    }

    fn walk(
        self,
        alloc: Global,
        object: u32,
        from: i64,
        to: i64,
    ) -> Result<TailWalk<'a, PathWalk<'a>>, Memory> {
        let index = self.tailed.index().view();
        let tail = self.tailed.tail();
        let _ = tail.rows(); // says that these ascend
        let walk = index.walk(alloc, object, from, to)?;
        let own = TrackWalk::over(tail.track(object, from, to));
        Ok(UnionWalk::of(Some(own), Some(walk)))
    }

    fn slice<L: Reads>(
        self,
        alloc: Global,
        instant: i64,
        region: &Region,
        steps: &mut Steps<L>,
    ) -> Result<Vec<Sighting>, Memory> {
        let index = self.tailed.index().view();
        slice(alloc, index, self.tailed.tail(), instant, region, steps)
    }

    fn interval<L: Reads>(
        self,
        alloc: Global,
        from: i64,
        to: i64,
        region: &Region,
        steps: &mut Steps<L>,
    ) -> Result<Vec<Hit>, Memory> {
        let index = self.tailed.index().view();
        interval(alloc, index, self.tailed.tail(), from, to, region, steps)
    }

    fn nearest<L: Reads>(
        self,
        alloc: Global,
        count: u32,
        instant: i64,
        cell: Cell,
        steps: &mut Steps<L>,
    ) -> Result<Vec<Near>, Memory> {
        let view = self.tailed.index().view();
        nearest(alloc, view, self.tailed.tail(), count, instant, cell, steps)
    }
}
