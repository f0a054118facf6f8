ghost use Rattle.std.specs.Prelude.{◌≡◌, ◌+◌, ◌≤◌, ◌<ℤ◌, ◌≤ℤ◌, ◌+ℤ◌, pos, ◌<◌, [], ◌∷◌, length};
ghost use Rattle.step_count.specs.Reads.{ofRule, ReadsWithin};
ghost use Rattle.rule_store.specs.View.{symbols_in};
ghost use Rattle.rule_store.specs.Expansion.{depth_in, depth_of};
ghost use Rattle.rule_store.specs.Entry.{entry_of};
ghost use Rattle.rule_store.specs.Flaws.{AreRules};
ghost use Rattle.rule_store.specs.Log.{block_stops, log_of, stops_after};
ghost use Rattle.rule_store.specs.Needs.{places_of};
ghost use Rattle.log_cursor.specs.Needs.{search_needs, RulesWithin};
ghost use Rattle.log_cursor.specs.Start.{IsPlaced, IsWayOf};
ghost use Rattle.log_cursor.specs.Seek.{cell_among};
ghost use Rattle.log_cursor.specs.Cost.{seek_reads};
ghost use Rattle.log_cursor.specs.Touching.{holding_rule};

use crate::start::Start;
use rule_store::{Entry, LogView, RuleStore};
use step_count::{Reads, Steps};
use track_types::Cell;

/// The cell of a block's object at an instant, by the block's log and its anchor. `None` if and only if
/// the instant is before the anchor, beyond the log, or an absence.
///
/// The instant and the cell of the anchor, and each symbol's box where it is placed, are at most
/// `MAX_ASKED` away from 0. It passes over each symbol that ends before the instant, opens one rule
/// at each depth below the symbol that has it, and takes no memory. It makes at most one read for
/// each symbol of the log and one for each depth of the grammar. For an instant up to the anchor's
/// it makes none.
pub fn seek<L: Reads>(
    view: LogView<'_>,
    start: Start,
    instant: i64,
    steps: &mut Steps<L>,
) -> Option<Cell>
    requires placed { IsPlaced view.rules.now start (log_of view) }
    requires may { ReadsWithin (search_needs (places_of view) (holding_rule view.rules.now start
        (log_of view) instant)) L.may }
    ensures value { result ≡ cell_among (block_stops view.entry.rules.now start.instant start.cell
        (log_of view.entry)) instant }
    ensures cost { steps.new ≤ steps.old
        + seek_reads (length (log_of view.entry)) (depth_in view.entry.rules.now) }
    ensures early { instant ≤ℤ start.instant → steps.new ≡ steps.old }
{
    if instant <= start.instant {
        return if instant == start.instant {
            Some(start.cell)
        } else {
            None
        };
    }
    let rules = view.rules();
    let _ = rules.sizes(); // tells what holds of all rules, which bounds the instants
    let mut at = start;
    for i in 0..view.len() {
        let entry = view.entry(i, steps);
        let next = at.after(&entry);
        if instant <= next.instant {
            return cell_within(rules, entry, at, instant, steps);
        }
        at = next;
    }
    None // beyond the log
}

// The cell at an instant of a symbol that begins after a start.
fn cell_within<L: Reads>(
    rules: &RuleStore,
    entry: Entry,
    start: Start,
    instant: i64,
    steps: &mut Steps<L>,
) -> Option<Cell>
    requires rules { AreRules rules.now }
    requires known { entry.symbol < symbols_in rules.now }
    requires entry { entry ≡ entry_of rules.now entry.symbol }
    requires way { IsWayOf rules.now start (entry.symbol ∷ []) }
    requires after { start.instant <ℤ instant }
    requires within { instant ≤ℤ (start.instant +ℤ pos entry.duration) }
    requires may { RulesWithin (holding_rule rules.now start (entry.symbol ∷ []) instant)
        (λ rule. L.may (ofRule rule)) }
    ensures value { result ≡ cell_among (stops_after rules.now start.instant start.cell
        (entry.symbol ∷ [])) instant }
    ensures cost { steps.new ≤ steps.old + depth_of rules.now entry.symbol }
{
    let mut inner = entry;
    let mut at = start;
    while inner.hull.is_some() {
        if !rules.is_rule(inner.symbol) {
            return Some(at.after(&inner).cell);
        }
        let (left, right) = rules.parts(inner.symbol, steps);
        let middle = at.after(&left);
        if instant <= middle.instant {
            inner = left;
        } else {
            at = middle;
            inner = right;
        }
    }
    None // absent at each of its instants
}
