ghost use Rattle.std.specs.Prelude.{◌≡◌, ◌++◌, ◌+◌, ◌≤◌, ℕ, ℤ, [], ◌∷◌, List, None, Some, IfNone, option_to_list};
ghost use Rattle.step_count.specs.Reads.{ReadsWithin};
ghost use Rattle.path_union.specs.Reads.{IsDrawnOnce, front_past, past_of};
ghost use Rattle.path_union.specs.Walk.{budget_of, front_left, left_of, needs_of_both, stops_of_both};
ghost use Rattle.track_types.specs.StopWalk.{IsDrawnInTime, unless_past};
ghost use Rattle.track_types.specs.declared.stop.Stop.{Stop as StopView};

use crate::front::Front;
use step_count::{Reads, Steps};
use track_types::{Lazy, Stop, StopWalk};

/// A walk over the stops of an object in two walks, by instant: where both have an instant, the later
/// walk's stop is given.
///
/// It keeps one stop of each walk, and takes no memory of its own. The reads are those of both walks.
#[derive(Drop)]
pub struct UnionWalk<W: StopWalk, V: StopWalk> {
    later: Front<W>,
    older: Front<V>,
}

impl<W: StopWalk, V: StopWalk> UnionWalk<W, V> {
    /// The walk over the stops of both, each of which may be missing.
    pub fn of(later: Option<W>, older: Option<V>) -> UnionWalk<W, V>
        ensures left { stops_of_both
            (front_left W.left result.later.ahead result.later.walk)
            (front_left V.left result.older.ahead result.older.walk)
            ≡ stops_of_both (left_of W.left later) (left_of V.left older) }
        ensures budget { budget_of W.budget result.later.walk + budget_of V.budget result.older.walk
            ≡ budget_of W.budget later + budget_of V.budget older }
        ensures reads_past { (instant : ℤ) →
            front_past W.reads_past result.later.ahead result.later.walk instant
            + front_past V.reads_past result.older.ahead result.older.walk instant
            ≡ past_of W.reads_past later instant + past_of V.reads_past older instant }
        ensures needs { ReadsWithin (needs_of_both W.needs V.needs result.later.walk result.older.walk)
            (needs_of_both W.needs V.needs later older) }
    {
        UnionWalk {
            later: Front::of(later),
            older: Front::of(older),
        }
    }
}

impl<W: StopWalk, V: StopWalk> Lazy for UnionWalk<W, V> {
    ghost use Rattle.std.specs.Prelude.{◌+◌};
    ghost use Rattle.path_union.specs.Walk.{budget_of, front_left, needs_of_both, stops_of_both};

    type Item = Stop;

    ghost left = { λ w. stops_of_both (front_left W.left w.later.ahead w.later.walk)
        (front_left V.left w.older.ahead w.older.walk) };

    ghost budget = { λ w. budget_of W.budget w.later.walk + budget_of V.budget w.older.walk };

    ghost needs = { λ w. needs_of_both W.needs V.needs w.later.walk w.older.walk };

    fn draw<L: Reads>(&mut self, steps: &mut Steps<L>) -> Option<Stop>
        requires may { ReadsWithin
            (needs_of_both W.needs V.needs self.old.later.walk self.old.older.walk) L.may }
        ensures found { stops_of_both
            (front_left W.left self.old.later.ahead self.old.later.walk)
            (front_left V.left self.old.older.ahead self.old.older.walk)
            ≡ option_to_list result ++ stops_of_both
            (front_left W.left self.new.later.ahead self.new.later.walk)
            (front_left V.left self.new.older.ahead self.new.older.walk) }
        ensures none { IfNone result (stops_of_both
            (front_left W.left self.old.later.ahead self.old.later.walk)
            (front_left V.left self.old.older.ahead self.old.older.walk) ≡ []) }
        ensures cost { steps.new
            + (budget_of W.budget self.new.later.walk + budget_of V.budget self.new.older.walk) ≤ steps.old
            + (budget_of W.budget self.old.later.walk + budget_of V.budget self.old.older.walk) }
        ensures in_time { IsDrawnInTime
            (λ instant. front_past W.reads_past self.old.later.ahead self.old.later.walk instant
            + front_past V.reads_past self.old.older.ahead self.old.older.walk instant)
            (λ instant. front_past W.reads_past self.new.later.ahead self.new.later.walk instant
            + front_past V.reads_past self.new.older.ahead self.new.older.walk instant)
            steps.old steps.new result }
        ensures later_once { IsDrawnOnce W.left self.old.later.walk self.new.later.walk }
        ensures older_once { IsDrawnOnce V.left self.old.older.walk self.new.older.walk }
        ensures needs { ReadsWithin
            (needs_of_both W.needs V.needs self.new.later.walk self.new.older.walk)
            (needs_of_both W.needs V.needs self.old.later.walk self.old.older.walk) }
    {
        let later = self.later.next(steps);
        let older = self.older.next(steps);
        let choice = first_of(later, older);
        self.later.put_back(choice.later);
        self.older.put_back(choice.older);
        choice.first
    }
}

impl<W: StopWalk, V: StopWalk> StopWalk for UnionWalk<W, V> {
    ghost use Rattle.std.specs.Prelude.{◌+◌};
    ghost use Rattle.path_union.specs.Reads.{front_past};

    ghost reads_past = { λ w instant.
        front_past W.reads_past w.later.ahead w.later.walk instant
        + front_past V.reads_past w.older.ahead w.older.walk instant };

    fn next<L: Reads>(&mut self, steps: &mut Steps<L>) -> Option<Stop> {
        self.draw(steps)
    }
}

// Which of two next stops is given, and which are put back.
#[derive(Drop)]
struct Choice {
    first: Option<Stop>,
    later: Option<Stop>,
    older: Option<Stop>,
}

// The first of the next stops of two walks: where both are of one instant, the later walk's.
fn first_of(later: Option<Stop>, older: Option<Stop>) -> Choice
    ensures merged { (laters olders : List StopView)
        → IfNone later (laters ≡ []) → IfNone older (olders ≡ [])
        → stops_of_both (option_to_list later ++ laters) (option_to_list older ++ olders)
        ≡ option_to_list result.first ++ stops_of_both
        (option_to_list result.later ++ laters) (option_to_list result.older ++ olders) }
    ensures none { IfNone result.first (later ≡ None) }
    ensures neither { IfNone result.first (older ≡ None) }
    ensures in_time { (instant : ℤ) (reads more : ℕ) → unless_past instant result.first
        (unless_past instant result.later reads + unless_past instant result.older more)
        ≤ unless_past instant later reads + unless_past instant older more }
{
    match (later, older) {
        (Some(own), Some(other)) => first_of_two(own, other),
        (None, _) => Choice {
            first: older,
            later: None,
            older: None,
        },
        (_, None) => Choice {
            first: later,
            later: None,
            older: None,
        },
    }
}

// The first of two stops: where both are of one instant, the later walk's.
fn first_of_two(own: Stop, other: Stop) -> Choice
    ensures merged { (laters olders : List StopView) → stops_of_both (own ∷ laters) (other ∷ olders)
        ≡ option_to_list result.first ++ stops_of_both
        (option_to_list result.later ++ laters) (option_to_list result.older ++ olders) }
    ensures some { IfNone result.first ⊥ }
    ensures in_time { (instant : ℤ) (reads more : ℕ) → unless_past instant result.first
        (unless_past instant result.later reads + unless_past instant result.older more)
        ≤ unless_past instant (Some own) reads + unless_past instant (Some other) more }
{
    if other.instant < own.instant {
        return Choice {
            first: Some(other),
            later: Some(own),
            older: None,
        };
    }
    if own.instant < other.instant {
        return Choice {
            first: Some(own),
            later: None,
            older: Some(other),
        };
    }
    Choice {
        first: Some(own),
        later: None,
        older: None,
    }
}
