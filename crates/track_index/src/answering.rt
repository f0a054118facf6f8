ghost use Rattle.std.specs.Prelude.{◌≡◌, ◌≤◌, ℤ, IfOk};
ghost use Rattle.step_count.specs.Reads.{ReadsWithin};
ghost use Rattle.track_types.specs.ByFilter.{path_of};
ghost use Rattle.track_types.specs.declared.question.Question.TheVariants as asked;
ghost use Rattle.track_types.specs.declared.region.Region.{Region as RegionView};
ghost use Rattle.log_cursor.specs.Touching.{touches_at};
ghost use Rattle.log_cursor.specs.Turn.{has_hull};
ghost use Rattle.snapshots.specs.IndexCost.{path_cost};
ghost use Rattle.slice_search.specs.Needs.{interval_needs};

use crate::index::IndexRef;
use crate::path_walk::PathWalk;
use crate::searching::{interval_of, slice_of};
use nearest_search::nearest;
use object_track::{Periods, cell_in, last_of};
use std::alloc::Global;
use step_count::{Reads, Steps};
use track_types::{Answerer, Cell, Facts, Hit, Memory, Near, Region, Sighting, Stop};

impl<'a> Answerer for IndexRef<'a> {
    ghost use Rattle.snapshots.specs.Parts.{chart_in};
    ghost use Rattle.track_index.specs.Cost.{cost_of, needs_of, path_cost_until};
    ghost use Rattle.track_index.specs.Facts.{facts_of};
    ghost use Rattle.track_index.specs.Path.{path_needs, path_reads_past, path_reads_to};

    type Walk = PathWalk<'a>;

    ghost chart = { λ a. chart_in a.index.now };

    ghost facts = { λ a. facts_of a.index.now };

    ghost cost = { λ a. cost_of a.index.now };

    ghost needs = { λ a. needs_of a.index.now };

    ghost path_cost_until = { λ a. path_cost_until a.index.now };

    fn facts(self) -> Facts {
        let stores = self.index.stores();
        let frame = stores.frame();
        let rules = stores.rules();
        let (alphabet, rule_count, entries) = rules.sizes();
        Facts {
            objects: stores.objects(),
            first: frame.first,
            last: last_of(frame),
            period: frame.period,
            cell: frame.cell,
            tick: frame.tick,
            height: frame.height,
            alphabet,
            rules: rule_count,
            entries,
            depth: rules.depth(),
        }
    }

    fn position<L: Reads>(self, object: u32, instant: i64, steps: &mut Steps<L>) -> Option<Cell> {
        let stores = self.index.stores();
        let place = stores.index_of(object)?;
        let period = stores.period_of(instant)?;
        cell_in(stores, place, period, instant, steps)
    }

    fn walk(self, alloc: Global, object: u32, from: i64, to: i64) -> Result<PathWalk<'a>, Memory>
        ensures left { IfOk result (λ walk.
            walk.stops ≡ path_of (chart_in self.entry.index.now).rows object from to) }
        ensures budget { IfOk result (λ walk.
            walk.reads ≤ cost_of self.entry.index.now (asked.Path object from to)) }
        ensures needs { IfOk result (λ walk. ReadsWithin (path_needs has_hull walk)
            (needs_of self.entry.index.now (asked.Path object from to))) }
        ensures within { IfOk result (λ walk. (region : RegionView) →
            ReadsWithin (path_needs (touches_at region) walk)
            (interval_needs self.entry.index.now from to region)) }
        ensures budget_to { IfOk result (λ walk. (instant : ℤ) →
            path_reads_to walk instant ≤ path_cost self.entry.index.now object from instant) }
        ensures in_time { IfOk result (λ walk. (instant : ℤ) → path_reads_past walk instant
            ≤ path_cost_until self.entry.index.now object from to instant) }
    {
        let stores = self.index.stores();
        let Some(place) = stores.index_of(object) else {
            return PathWalk::new(alloc, self.index, 0, Periods::none(), from, to);
        };
        let periods = Periods::met(stores, from, to);
        PathWalk::new(alloc, self.index, place, periods, from, to)
    }

    fn slice<L: Reads>(
        self,
        alloc: Global,
        instant: i64,
        region: &Region,
        steps: &mut Steps<L>,
    ) -> Result<Vec<Sighting>, Memory> {
        slice_of(alloc, self.index.stores(), instant, region, steps)
    }

    fn interval<L: Reads>(
        self,
        alloc: Global,
        from: i64,
        to: i64,
        region: &Region,
        steps: &mut Steps<L>,
    ) -> Result<Vec<Hit>, Memory> {
        interval_of(alloc, self.index.stores(), (from, to), region, steps)
    }

    fn nearest<L: Reads>(
        self,
        alloc: Global,
        count: u32,
        instant: i64,
        cell: Cell,
        steps: &mut Steps<L>,
    ) -> Result<Vec<Near>, Memory> {
        nearest(alloc, self.index.stores(), count, instant, cell, steps)
    }
}
