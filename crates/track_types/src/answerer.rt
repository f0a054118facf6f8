ghost use Rattle.std.specs.Prelude.{◌≡◌, ℕ, ℤ, ◌+◌, ◌≤◌, Bool, IfOk};
ghost use Rattle.step_count.specs.Reads.{Read, ReadsWithin};
ghost use Rattle.track_types.specs.ByFilter.{cell_at, hits_of, nears_of, path_of, sightings_of};
ghost use Rattle.track_types.specs.Chart.{ChartView};
ghost use Rattle.track_types.specs.Near.{IsAsked, IsCellAsked};
ghost use Rattle.track_types.specs.Region.{IsRegionAsked};
ghost use Rattle.track_types.specs.Table.{IsTable};
ghost use Rattle.track_types.specs.declared.facts.Facts.{Facts as FactsView};
ghost use Rattle.track_types.specs.declared.question.Question.{Question as Asked};
ghost use Rattle.track_types.specs.declared.question.Question.TheVariants as asked;

use crate::cell::Cell;
use crate::facts::Facts;
use crate::hit::Hit;
use crate::memory::Memory;
use crate::near::Near;
use crate::region::Region;
use crate::sighting::Sighting;
use crate::stop_walk::StopWalk;
use std::alloc::Global;
use step_count::{Reads, Steps};

/// Whatever answers questions about a chart.
///
/// Its meaning is a chart, its facts, and for each question a cost and the reads that it needs. Each
/// answer is the one that filtering the chart's rows gives. It makes at most as many reads as its
/// question costs, and of named reads only those that its question needs. A path that is left early
/// costs what `path_cost_until` says of its object, its window and an instant: until a stop at that
/// instant or after it is drawn, or none is left. For an unknown object, an instant outside the chart
/// or an empty window it is `None` or the empty list. Instants and coordinates that are asked for are
/// at most `MAX_ASKED` away from 0, and a radius is at most `MAX_REACH`.
pub trait Answerer: Copy {
    type Walk: StopWalk + Drop;

    ghost chart: { Self → ChartView };

    ghost facts: { Self → FactsView };

    ghost cost: { Self → Asked → ℕ };

    ghost needs: { Self → Asked → Read → Bool };

    ghost path_cost_until: { Self → ℕ → ℤ → ℤ → ℤ → ℕ };

    /// The facts. It takes no memory and makes no read.
    fn facts(self) -> Facts
        ensures value { result ≡ facts self }
        ensures table { IsTable (chart self) };

    /// The cell of an object at an instant, and `None` if and only if it is absent. It takes no memory.
    fn position<L: Reads>(self, object: u32, instant: i64, steps: &mut Steps<L>) -> Option<Cell>
        requires instant { IsAsked instant }
        requires may { ReadsWithin (needs self (asked.Position object instant)) L.may }
        ensures value { result ≡ cell_at (chart self).rows object instant }
        ensures cost { steps.new ≤ steps.old + cost self (asked.Position object instant) };

    /// A walk over the stops of an object from one instant to another, both counted, ascending. It
    /// makes its first read at its first draw, and takes no memory after it is made.
    fn walk(self, alloc: Global, object: u32, from: i64, to: i64) -> Result<Self::Walk, Memory>
        requires from { IsAsked from }
        requires to { IsAsked to }
        ensures left { IfOk result (λ walk.
            Self.Walk.left walk ≡ path_of (chart self).rows object from to) }
        ensures budget { IfOk result (λ walk.
            Self.Walk.budget walk ≤ cost self (asked.Path object from to)) }
        ensures needs { IfOk result (λ walk.
            ReadsWithin (Self.Walk.needs walk) (needs self (asked.Path object from to))) }
        ensures in_time { IfOk result (λ walk. (instant : ℤ) →
            Self.Walk.reads_past walk instant ≤ path_cost_until self object from to instant) };

    /// The rows of an instant in a region, by object.
    fn slice<L: Reads>(
        self,
        alloc: Global,
        instant: i64,
        region: &Region,
        steps: &mut Steps<L>,
    ) -> Result<Vec<Sighting>, Memory>
        requires instant { IsAsked instant }
        requires region { IsRegionAsked region.now }
        requires may { ReadsWithin (needs self (asked.Slice instant region.now)) L.may }
        ensures ok { IfOk result (λ found.
            found.items ≡ sightings_of (chart self).rows instant region.now) }
        ensures cost { steps.new ≤ steps.old + cost self (asked.Slice instant region.now) };

    /// For each object that has a row from one instant to another, both counted, in a region, the
    /// first such row, by object.
    fn interval<L: Reads>(
        self,
        alloc: Global,
        from: i64,
        to: i64,
        region: &Region,
        steps: &mut Steps<L>,
    ) -> Result<Vec<Hit>, Memory>
        requires from { IsAsked from }
        requires to { IsAsked to }
        requires region { IsRegionAsked region.now }
        requires may { ReadsWithin (needs self (asked.Interval from to region.now)) L.may }
        ensures ok { IfOk result (λ found.
            found.items ≡ hits_of (chart self).rows from to region.now) }
        ensures cost { steps.new ≤ steps.old + cost self (asked.Interval from to region.now) };

    /// The rows of an instant that are nearest to a cell, by squared distance, then by object: the
    /// first `count` of them in this order.
    fn nearest<L: Reads>(
        self,
        alloc: Global,
        count: u32,
        instant: i64,
        cell: Cell,
        steps: &mut Steps<L>,
    ) -> Result<Vec<Near>, Memory>
        requires instant { IsAsked instant }
        requires cell { IsCellAsked cell }
        requires may { ReadsWithin (needs self (asked.Nearest count instant cell)) L.may }
        ensures ok { IfOk result (λ found.
            found.items ≡ nears_of (chart self).rows count instant cell) }
        ensures cost { steps.new ≤ steps.old + cost self (asked.Nearest count instant cell) };
}
