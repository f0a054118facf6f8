ghost use Rattle.std.specs.Prelude.{◌≡◌, ◌++◌, ◌+◌, ◌≤◌, ◌<◌, ℤ, Bool, Option};
ghost use Rattle.step_count.specs.Reads.{ReadsWithin};
ghost use Rattle.std.specs.Prelude.{[], length, IfNone, IfOk, IfSome, option_to_list};
ghost use Rattle.track_types.specs.Frame.{periods_of};
ghost use Rattle.track_types.specs.declared.cell.Cell.{Cell as CellView};
ghost use Rattle.track_types.specs.declared.cell_box.CellBox.{CellBox as BoxView};
ghost use Rattle.log_cursor.specs.Touching.{IsDrawnIn, touches_at};
ghost use Rattle.log_cursor.specs.Turn.{has_hull};
ghost use Rattle.log_cursor.specs.Walk.{IsDrawnInTime};
ghost use Rattle.object_track.specs.Between.{cost_between, stops_between};
ghost use Rattle.track_index.specs.Path.{cost_until, left_needs, path_needs, path_reads_to};

use crate::index::Index;
use log_cursor::BlockWalk;
use object_track::{Periods, Placed};
use region_test::RegionTest;
use std::alloc::Global;
use std::marker::Model;
use step_count::{Reads, Steps};
use track_types::{Lazy, Memory, Stop, StopWalk};

/// A walk over the stops of an object in a window, period by period.
///
/// It looks for the object's block in the periods that the window meets, and in no other. Contracts
/// see the stops that are left, and a bound on the reads that are still to be made for them: for all
/// of them, and for those up to an instant.
#[derive(Drop)]
pub struct PathWalk<'a> {
    index: &'a Index,
    // The place of the object among all objects.
    object: u32,
    // The periods that are still to be looked into.
    periods: Periods,
    from: i64,
    to: i64,
    block: BlockWalk<'a>,
}

impl<'a> Model for PathWalk<'a> {
    ghost use Rattle.track_index.specs.Path.{path_walk_of, IsPathWalk, PathView};

    ghost Value = { PathView };

    ghost view = { λ w. path_walk_of w.index.now w.object w.from w.to
        w.periods.next w.periods.end w.block };

    ghost invariant = { λ w. IsPathWalk w.index.now w.object w.from
        w.periods.next w.periods.end w.block };
}

impl<'a> PathWalk<'a> {
    // A walk over the stops of the object at a place, in some periods, from one instant to another,
    // both counted. It takes the memory of a `BlockWalk`, and makes no read.
    pub(crate) fn new(
        alloc: Global,
        index: &'a Index,
        object: u32,
        periods: Periods,
        from: i64,
        to: i64,
    ) -> Result<PathWalk<'a>, Memory>
        requires object { object < length index.now.objects }
        requires periods { periods.end ≤ periods_of index.now.frame }
        ensures left { IfOk result (λ walk. walk.stops
            ≡ stops_between index.now object from to periods.next periods.end) }
        ensures budget { IfOk result (λ walk. walk.reads
            ≡ cost_between index.now object from to periods.next periods.end) }
        ensures needs { IfOk result (λ walk. (may : CellView → Option BoxView → Bool)
            → ReadsWithin (path_needs may walk)
            (left_needs may index.now object from to periods.next periods.end)) }
        ensures budget_to { IfOk result (λ walk. (instant : ℤ) → path_reads_to walk instant
            ≡ cost_until index.now object from instant periods.next periods.end) }
    {
        let block = BlockWalk::new(alloc, index.stores().rules())?;
        Ok(PathWalk {
            index,
            object,
            periods,
            from,
            to,
            block,
        })
    }

    /// Draws the stops that are left up to the first one in a region, that one included. Where none is
    /// in the region, it draws all.
    ///
    /// It passes over what has no cell of the region. Of a block of which it has opened many rules, it
    /// passes over a rule that it meets again at the cell where it was opened, as long as it remembers
    /// that. It takes no memory.
    pub fn draw_in<L: Reads>(&mut self, test: &RegionTest, steps: &mut Steps<L>) -> Option<Stop>
        requires may { ReadsWithin (path_needs (touches_at test.now.region) self.old) L.may }
        ensures drawn { IsDrawnIn test.now.region self.old.stops self.new.stops result }
        ensures cost { steps.new + self.new.reads ≤ steps.old + self.old.reads }
        ensures needs { ReadsWithin (path_needs (touches_at test.now.region) self.new)
            (path_needs (touches_at test.now.region) self.old) }
    {
        let index = self.index;
        let stores = index.stores();
        loop {
            if let Some(stop) = self.block.draw_in(test, steps) {
                return Some(stop);
            }
            if self.periods.next >= self.periods.end {
                return None;
            }
            let period = self.periods.next;
            self.periods.next = period + 1;
            if let Some(block) = stores.find(period, self.object, steps) {
                let placed = Placed::new(stores, period, &block);
                self.block
                    .begin(placed.log, placed.start, self.from, self.to);
            }
        }
    }
}

impl<'a> Lazy for PathWalk<'a> {
    ghost use Rattle.log_cursor.specs.Turn.{has_hull};
    ghost use Rattle.track_index.specs.Path.{path_needs};

    type Item = Stop;

    ghost left = { λ w. w.stops };

    ghost budget = { λ w. w.reads };

    ghost needs = { path_needs has_hull };

    fn draw<L: Reads>(&mut self, steps: &mut Steps<L>) -> Option<Stop>
        requires may { ReadsWithin (path_needs has_hull self.old) L.may }
        ensures found { self.old.stops ≡ option_to_list result ++ self.new.stops }
        ensures none { IfNone result (self.old.stops ≡ []) }
        ensures cost { steps.new + self.new.reads ≤ steps.old + self.old.reads }
        ensures in_time { IfSome result
            (IsDrawnInTime (path_reads_to self.old) (path_reads_to self.new) steps.old steps.new) }
        ensures needs { ReadsWithin (path_needs has_hull self.new) (path_needs has_hull self.old) }
    {
        let index = self.index;
        let stores = index.stores();
        loop {
            if let Some(stop) = self.block.draw(steps) {
                return Some(stop);
            }
            if self.periods.next >= self.periods.end {
                return None;
            }
            let period = self.periods.next;
            self.periods.next += 1;
            if let Some(block) = stores.find(period, self.object, steps) {
                let placed = Placed::new(stores, period, &block);
                self.block
                    .begin(placed.log, placed.start, self.from, self.to);
            }
        }
    }
}

impl<'a> StopWalk for PathWalk<'a> {
    ghost use Rattle.track_index.specs.Path.{path_reads_past};

    ghost reads_past = { λ w. path_reads_past w };

    fn next<L: Reads>(&mut self, steps: &mut Steps<L>) -> Option<Stop> {
        self.draw(steps)
    }
}
