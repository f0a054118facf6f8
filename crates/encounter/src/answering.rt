use crate::index_meets::IndexMeets;
use crate::walked::Walked;
use std::alloc::Global;
use step_count::{Reads, Steps};
use track_index::PathWalk;
use track_types::{Answerer, Cell, Facts, Hit, Memory, Near, Region, Sighting};

// Both hand each question but a meeting on to the answerer under them.

impl<'a> Answerer for IndexMeets<'a> {
    ghost use Rattle.encounter.specs.IndexCost.{meets_cost, meets_needs};
    ghost use Rattle.snapshots.specs.Parts.{chart_in};
    ghost use Rattle.track_index.specs.Cost.{path_cost_until};
    ghost use Rattle.track_index.specs.Facts.{facts_of};

    type Walk = PathWalk<'a>;

    ghost chart = { λ m. chart_in m.view.index.now };

    ghost facts = { λ m. facts_of m.view.index.now };

    ghost cost = { λ m. meets_cost m.view.index.now };

    ghost needs = { λ m. meets_needs m.view.index.now };

    ghost path_cost_until = { λ m. path_cost_until m.view.index.now };

    fn facts(self) -> Facts {
        self.view.facts()
    }

    fn position<L: Reads>(self, object: u32, instant: i64, steps: &mut Steps<L>) -> Option<Cell> {
        self.view.position(object, instant, steps)
    }

    fn walk(self, alloc: Global, object: u32, from: i64, to: i64) -> Result<PathWalk<'a>, Memory> {
        self.view.walk(alloc, object, from, to)
    }

    fn slice<L: Reads>(
        self,
        alloc: Global,
        instant: i64,
        region: &Region,
        steps: &mut Steps<L>,
    ) -> Result<Vec<Sighting>, Memory> {
        self.view.slice(alloc, instant, region, steps)
    }

    fn interval<L: Reads>(
        self,
        alloc: Global,
        from: i64,
        to: i64,
        region: &Region,
        steps: &mut Steps<L>,
    ) -> Result<Vec<Hit>, Memory> {
        self.view.interval(alloc, from, to, region, steps)
    }

    fn nearest<L: Reads>(
        self,
        alloc: Global,
        count: u32,
        instant: i64,
        cell: Cell,
        steps: &mut Steps<L>,
    ) -> Result<Vec<Near>, Memory> {
        self.view.nearest(alloc, count, instant, cell, steps)
    }
}

impl<A: Answerer> Answerer for Walked<A> {
    ghost use Rattle.encounter.specs.WalkedCost.{walked_cost, walked_needs};

    type Walk = A::Walk;

    ghost chart = { λ w. A.chart w.answerer };

    ghost facts = { λ w. A.facts w.answerer };

    ghost cost = { λ w. walked_cost (A.cost w.answerer) };

    ghost needs = { λ w. walked_needs (A.needs w.answerer) };

    ghost path_cost_until = { λ w. A.path_cost_until w.answerer };

    fn facts(self) -> Facts {
        self.answerer.facts()
    }

    fn position<L: Reads>(self, object: u32, instant: i64, steps: &mut Steps<L>) -> Option<Cell> {
        self.answerer.position(object, instant, steps)
    }

    fn walk(self, alloc: Global, object: u32, from: i64, to: i64) -> Result<A::Walk, Memory> {
        self.answerer.walk(alloc, object, from, to)
    }

    fn slice<L: Reads>(
        self,
        alloc: Global,
        instant: i64,
        region: &Region,
        steps: &mut Steps<L>,
    ) -> Result<Vec<Sighting>, Memory> {
        self.answerer.slice(alloc, instant, region, steps)
    }

    fn interval<L: Reads>(
        self,
        alloc: Global,
        from: i64,
        to: i64,
        region: &Region,
        steps: &mut Steps<L>,
    ) -> Result<Vec<Hit>, Memory> {
        self.answerer.interval(alloc, from, to, region, steps)
    }

    fn nearest<L: Reads>(
        self,
        alloc: Global,
        count: u32,
        instant: i64,
        cell: Cell,
        steps: &mut Steps<L>,
    ) -> Result<Vec<Near>, Memory> {
        self.answerer.nearest(alloc, count, instant, cell, steps)
    }
}
