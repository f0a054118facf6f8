ghost use Rattle.std.specs.Prelude.{◌≡◌, ◌++◌, ◌+◌, ◌≤◌, ℤ, ◌≤ℤ◌, [], ◌∷◌, IfNone, IfOk, IfSome, option_to_list};
ghost use Rattle.step_count.specs.Reads.{ReadsWithin};
ghost use Rattle.rule_store.specs.Log.{in_window, log_of, stop_at};
ghost use Rattle.rule_store.specs.Needs.{places_of};
ghost use Rattle.rule_store.specs.Nodes.{block_budget};
ghost use Rattle.log_cursor.specs.Needs.{walk_needs};
ghost use Rattle.log_cursor.specs.Start.{IsPlaced};
ghost use Rattle.log_cursor.specs.Touching.{IsDrawnIn, touches_at};
ghost use Rattle.log_cursor.specs.Turn.{has_hull};
ghost use Rattle.log_cursor.specs.Walk.{at_rest, IsDrawnInTime, reads_to, walk_from};

use crate::pending::Pending;
use crate::searching::hit_after;
use crate::start::Start;
use region_test::RegionTest;
use rule_store::{Entry, LogView, RuleStore};
use std::alloc::Global;
use std::marker::Model;
use step_count::{Reads, Steps};
use track_types::{Cell, Lazy, Memory, Stop};

/// A walk over the stops of a block whose instants are in a window, in their order. One walk serves
/// one block after the other, of the same rules.
///
/// It passes over each symbol whose instants miss the window, and each in which the object is absent
/// throughout. It keeps the parts of rules that are still to come; `new` takes all the memory for
/// these.
///
/// Contracts see the rules, where the symbols of the log stand, the stops that are left, and a
/// bound on the reads that are still to be made: for all these stops, and for those up to an
/// instant. They see the rule nodes that are still to be opened, and so which rules may be read.
#[derive(Drop)]
pub struct BlockWalk<'a> {
    pending: Pending<'a>,
    // The anchor, while it is still to come.
    anchor: Option<Stop>,
    at: Start,
    from: i64,
    to: i64,
}

impl<'a> Model for BlockWalk<'a> {
    ghost use Rattle.log_cursor.specs.Walk.{IsGoing, WalkView, walk_of};

    ghost Value = { WalkView };

    ghost view = { λ w. walk_of w.pending w.anchor w.at w.from w.to };

    ghost invariant = { λ w. IsGoing w.pending w.anchor w.at w.from w.to };
}

impl<'a> BlockWalk<'a> {
    /// A walk over blocks of these rules, with nothing left. It takes memory for the parts of the
    /// deepest rule, 4 bytes for each, and only where the grammar is deep.
    pub fn new(alloc: Global, rules: &'a RuleStore) -> Result<BlockWalk<'a>, Memory>
        ensures ok { IfOk result (λ walk. walk ≡ at_rest rules.now (0, 0)) }
    {
        let pending = Pending::new(alloc, rules)?;
        let at = Start {
            instant: 0,
            cell: Cell { x: 0, y: 0 },
        };
        Ok(BlockWalk {
            pending,
            anchor: None,
            at,
            from: 0,
            to: 0,
        })
    }

    /// Begins the walk over the stops of a block from one instant to another, both counted. What was
    /// left of the block before is gone.
    ///
    /// The log is one of the walk's rules. The instant and the cell of the anchor, and each symbol's
    /// box where it is placed, are at most `MAX_ASKED` away from 0. It takes no memory.
    pub fn begin(&mut self, view: LogView<'a>, start: Start, from: i64, to: i64)
        requires rules { view.rules.now ≡ self.old.rules }
        requires placed { IsPlaced view.rules.now start (log_of view) }
        ensures walk { self.new ≡ walk_from view.entry.rules.now (places_of view.entry)
            (log_of view.entry) start from to }
        ensures budget_to { (instant : ℤ) → from ≤ℤ instant → reads_to self.new instant
            ≤ block_budget view.entry.rules.now start.instant (log_of view.entry) from instant }
    {
        self.pending.begin(view);
        if to < from {
            self.pending.end(); // a window with no instant needs no read
            self.anchor = None;
            return;
        }
        self.anchor = stop_within(start, from, to);
        self.at = start;
        self.from = from;
        self.to = to;
    }

    /// Draws the stops that are left up to the first one in a region, that one included. Where none is
    /// in the region, it draws all.
    ///
    /// It passes over what `first_hit` does, and takes no memory.
    pub fn draw_in<L: Reads>(&mut self, test: &RegionTest, steps: &mut Steps<L>) -> Option<Stop>
        requires may { ReadsWithin (walk_needs (touches_at test.now.region) self.old) L.may }
        ensures drawn { IsDrawnIn test.now.region self.old.stops self.new.stops result }
        ensures cost { steps.new + self.new.reads ≤ steps.old + self.old.reads }
        ensures rules { self.new.rules ≡ self.old.rules }
        ensures places { self.new.places ≡ self.old.places }
        ensures needs { ReadsWithin (walk_needs (touches_at test.now.region) self.new)
            (walk_needs (touches_at test.now.region) self.old) }
    {
        if let Some(stop) = self.anchor.take() {
            if test.holds(stop.cell) {
                return Some(stop);
            }
        }
        let found = hit_after(&mut self.pending, self.at, self.from, self.to, test, steps);
        let Some(hit) = found else {
            self.pending.end();
            return None;
        };
        self.at = Start {
            instant: hit.instant,
            cell: hit.cell,
        };
        Some(hit)
    }
}

impl<'a> Lazy for BlockWalk<'a> {
    ghost use Rattle.log_cursor.specs.Needs.{walk_needs};
    ghost use Rattle.log_cursor.specs.Turn.{has_hull};

    type Item = Stop;

    ghost left = { λ w. w.stops };

    ghost budget = { λ w. w.reads };

    ghost needs = { walk_needs has_hull };

    fn draw<L: Reads>(&mut self, steps: &mut Steps<L>) -> Option<Stop>
        requires may { ReadsWithin (walk_needs has_hull self.old) L.may }
        ensures found { self.old.stops ≡ option_to_list result ++ self.new.stops }
        ensures none { IfNone result (self.old.stops ≡ []) }
        ensures cost { steps.new + self.new.reads ≤ steps.old + self.old.reads }
        ensures in_time { IfSome result
            (IsDrawnInTime (reads_to self.old) (reads_to self.new) steps.old steps.new) }
        ensures rules { self.new.rules ≡ self.old.rules }
        ensures places { self.new.places ≡ self.old.places }
        ensures needs { ReadsWithin (walk_needs has_hull self.new) (walk_needs has_hull self.old) }
    {
        if let Some(anchor) = self.anchor.take() {
            return Some(anchor);
        }
        while self.at.instant < self.to {
            let entry = self.pending.next(steps)?;
            let next = self.at.after(&entry);
            if next.instant < self.from || entry.hull.is_none() {
                self.at = next;
                continue;
            }
            if self.pending.is_rule(entry.symbol) {
                self.pending.open(entry.symbol, steps);
                continue;
            }
            self.at = next;
            return Some(Stop {
                instant: next.instant,
                cell: next.cell,
            });
        }
        None
    }
}

/// The stop at an anchor, if its instant is in a window.
pub(crate) fn stop_within(start: Start, from: i64, to: i64) -> Option<Stop>
    ensures value { option_to_list result
        ≡ in_window from to (stop_at start.instant start.cell ∷ []) }
    ensures cell { IfSome result (λ stop. stop.cell ≡ start.cell) }
{
    if start.instant < from || to < start.instant {
        return None;
    }
    Some(Stop {
        instant: start.instant,
        cell: start.cell,
    })
}
