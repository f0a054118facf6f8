ghost use Rattle.std.specs.Prelude.{◌≡◌, ◌+◌, ◌≤◌, ◌≤ℤ◌, ◌<ℤ◌, [], ◌∷◌, length, IfOk, IfSome};
ghost use Rattle.step_count.specs.Reads.{ReadsWithin};
ghost use Rattle.track_types.specs.Near.{IsBoxWithin, IsCellAsked};
ghost use Rattle.rule_store.specs.Log.{in_window, log_of, stop_at};
ghost use Rattle.rule_store.specs.Needs.{places_of};
ghost use Rattle.log_cursor.specs.Needs.{search_needs};
ghost use Rattle.log_cursor.specs.Start.{IsBoxAsked, IsHullAsked, IsPlaced, IsWayOf};
ghost use Rattle.track_types.specs.Boxes.{moved_box};
ghost use Rattle.log_cursor.specs.Walk.{opened_left};
ghost use Rattle.log_cursor.specs.Touching.{
  first_among,
  first_hit_of,
  hit_left,
  IsHitOf,
  touches_at,
  touching_count,
  touching_left,
  touching_rule,
};

use crate::opened::Opened;
use crate::pending::Pending;
use crate::start::Start;
use crate::walk::stop_within;
use region_test::RegionTest;
use rule_store::LogView;
use std::alloc::Global;
use step_count::{Reads, Steps};
use track_types::{Cell, CellBox, Memory, Stop};

// How many rules a search opens before it remembers any: a short one makes no table.
const FORGOTTEN: u32 = 64;

/// The first stop of a block in a window, whose ends count, and in a region, the anchor included.
/// `None` if and only if there is none.
///
/// The instant and the cell of the anchor, and each symbol's box where it is placed, are at most
/// `MAX_ASKED` away from 0. A symbol whose instants miss the window, or whose placed box has no
/// cell of the region, is passed over unopened. It makes at most one read for each symbol of the log
/// and for each rule node of its parse trees that is not passed over. In a window that ends before it
/// begins it makes none. Where the grammar is deep, it takes memory for the parts of opened rules.
pub fn first_hit<L: Reads>(
    alloc: Global,
    view: LogView<'_>,
    start: Start,
    from: i64,
    to: i64,
    test: &RegionTest,
    steps: &mut Steps<L>,
) -> Result<Option<Stop>, Memory>
    requires placed { IsPlaced view.rules.now start (log_of view) }
    requires may { ReadsWithin (search_needs (places_of view) (touching_rule view.rules.now start
        (log_of view) from to test.now.region)) L.may }
    ensures value { IfOk result (λ found. found
        ≡ first_hit_of view.entry.rules.now (log_of view.entry) start from to test.now.region) }
    ensures cost { steps.new ≤ steps.old + (length (log_of view.entry)
        + touching_count view.entry.rules.now start (log_of view.entry) from to test.now.region) }
    ensures empty { to <ℤ from → steps.new ≡ steps.old }
{
    let mut pending = Pending::new(alloc, view.rules())?;
    Ok(first_hit_with(&mut pending, view, start, from, to, test, steps))
}

/// The same, on a stack that the caller lends, of the same rules. What it holds of an earlier block
/// changes nothing, so that it serves one block after another. No memory is taken.
pub fn first_hit_with<'a, L: Reads>(
    pending: &mut Pending<'a>,
    view: LogView<'a>,
    start: Start,
    from: i64,
    to: i64,
    test: &RegionTest,
    steps: &mut Steps<L>,
) -> Option<Stop>
    requires rules { view.rules.now ≡ pending.old.rules }
    requires placed { IsPlaced view.rules.now start (log_of view) }
    requires may { ReadsWithin (search_needs (places_of view) (touching_rule view.rules.now start
        (log_of view) from to test.now.region)) L.may }
    ensures value { result
        ≡ first_hit_of view.entry.rules.now (log_of view.entry) start from to test.now.region }
    ensures rules { pending.new.rules ≡ pending.old.rules }
    ensures cost { steps.new ≤ steps.old + (length (log_of view.entry)
        + touching_count view.entry.rules.now start (log_of view.entry) from to test.now.region) }
    ensures empty { to <ℤ from → steps.new ≡ steps.old }
{
    if to < from {
        return None;
    }
    let anchor = anchor_hit(start, from, to, test);
    if anchor.is_some() || to <= start.instant {
        return anchor;
    }
    pending.begin(view);
    hit_after(pending, start, from, to, test, steps)
}

// The anchor of a block, if it is in a window and in a region.
pub(crate) fn anchor_hit(start: Start, from: i64, to: i64, test: &RegionTest) -> Option<Stop>
    requires { IsCellAsked start.cell }
    ensures { result ≡ first_among test.now.region
        (in_window from to (stop_at start.instant start.cell ∷ [])) }
{
    let anchor = stop_within(start, from, to)?;
    if !test.holds(start.cell) {
        return None;
    }
    Some(anchor)
}

/// The first hit of symbols that begin after a start. No symbol after it is taken off. It remembers
/// the rules that it opens once they are many.
pub(crate) fn hit_after<L: Reads>(
    pending: &mut Pending<'_>,
    start: Start,
    from: i64,
    to: i64,
    test: &RegionTest,
    steps: &mut Steps<L>,
) -> Option<Stop>
    requires way { IsWayOf pending.old.rules start pending.old.symbols }
    requires window { from ≤ℤ to }
    requires may { ReadsWithin (search_needs pending.old.places (touching_rule pending.old.rules
        start pending.old.symbols from to test.now.region)) L.may }
    ensures value { result ≡ hit_left pending.old.rules from to test.now.region start
        pending.old.symbols }
    ensures left { IfSome result (IsHitOf test.now.region from to start pending.old pending.new
        steps.old steps.new) }
    ensures rules { pending.new.rules ≡ pending.old.rules }
    ensures places { pending.new.places ≡ pending.old.places }
    ensures cost { steps.new ≤ steps.old + (pending.old.unread + touching_left
        pending.old.rules from to test.now.region start pending.old.symbols) }
    ensures budget { steps.new ≤ steps.old + (pending.old.unread + opened_left
        pending.old.rules from to start pending.old.symbols) }
{
    let mut at = start;
    let mut opened = 0;
    while at.instant < to {
        let entry = pending.next(steps)?;
        let next = at.after(&entry);
        if next.instant < from || !touches(at.cell, entry.hull, test) {
            at = next;
            continue;
        }
        if !pending.is_rule(entry.symbol) {
            return Some(Stop {
                instant: next.instant,
                cell: next.cell,
            });
        }
        pending.open(entry.symbol, steps);
        opened += 1;
        if opened >= FORGOTTEN {
            return hit_beyond(pending, at, from, to, test, steps);
        }
    }
    None
}

// The same for a search that opens many rules. It passes over a rule that it meets again at the cell
// where it was opened within the window, as long as it remembers that.
fn hit_beyond<L: Reads>(
    pending: &mut Pending<'_>,
    start: Start,
    from: i64,
    to: i64,
    test: &RegionTest,
    steps: &mut Steps<L>,
) -> Option<Stop>
    requires way { IsWayOf pending.old.rules start pending.old.symbols }
    requires window { from ≤ℤ to }
    requires may { ReadsWithin (search_needs pending.old.places (touching_rule pending.old.rules
        start pending.old.symbols from to test.now.region)) L.may }
    ensures value { result ≡ hit_left pending.old.rules from to test.now.region start
        pending.old.symbols }
    ensures left { IfSome result (IsHitOf test.now.region from to start pending.old pending.new
        steps.old steps.new) }
    ensures rules { pending.new.rules ≡ pending.old.rules }
    ensures places { pending.new.places ≡ pending.old.places }
    ensures cost { steps.new ≤ steps.old + (pending.old.unread + touching_left
        pending.old.rules from to test.now.region start pending.old.symbols) }
    ensures budget { steps.new ≤ steps.old + (pending.old.unread + opened_left
        pending.old.rules from to start pending.old.symbols) }
{
    let mut at = start;
    let mut opened = Opened::new();
    while at.instant < to {
        let entry = pending.next(steps)?;
        let next = at.after(&entry);
        if next.instant < from
            || !touches(at.cell, entry.hull, test)
            || opened.has(entry.symbol, at.cell)
        {
            at = next;
            continue;
        }
        if !pending.is_rule(entry.symbol) {
            return Some(Stop {
                instant: next.instant,
                cell: next.cell,
            });
        }
        if from <= at.instant {
            opened.add(entry.symbol, at.cell);
        }
        pending.open(entry.symbol, steps);
    }
    None
}

// Whether a symbol's box, moved to the cell where the symbol begins, has a cell of a region.
pub(crate) fn touches(cell: Cell, hull: Option<CellBox>, test: &RegionTest) -> bool
    requires { IsHullAsked cell hull }
    ensures { result ≡ touches_at test.now.region cell hull }
{
    match hull {
        Some(hull) => test.may(&placed(cell, hull)),
        None => false,
    }
}

/// A symbol's box, moved from (0, 0) to the cell where the symbol begins.
pub fn placed(cell: Cell, hull: CellBox) -> CellBox
    requires { IsBoxAsked cell hull }
    ensures value { result ≡ moved_box cell hull }
    ensures within { IsBoxWithin result }
{
    hull.moved(cell)
}
