ghost use Rattle.std.specs.Prelude.{◌≡◌, ◌++◌, ◌+◌, ◌≤◌, [], None, Some, IfNone, option_to_list};
ghost use Rattle.step_count.specs.Reads.{ReadsWithin};
ghost use Rattle.path_union.specs.Reads.{IsDrawnOnce, front_past, past_of};
ghost use Rattle.path_union.specs.Walk.{budget_of, front_left, left_of, needs_of};
ghost use Rattle.track_types.specs.StopWalk.{IsDrawnInTime};

use step_count::{Reads, Steps};
use track_types::{Stop, StopWalk};

/// What is left of a walk, if there is one: a stop may have been drawn from it that is still to be given.
#[derive(Drop)]
pub struct Front<W: StopWalk> {
    walk: Option<W>,
    ahead: Option<Stop>,
}

impl<W: StopWalk> Front<W> {
    /// A walk before anything was drawn from it.
    pub fn of(walk: Option<W>) -> Front<W>
        ensures walk { result.walk ≡ walk }
        ensures ahead { result.ahead ≡ None }
    {
        Front { walk, ahead: None }
    }

    /// Takes the next stop. It draws from the walk at most once.
    pub fn next<L: Reads>(&mut self, steps: &mut Steps<L>) -> Option<Stop>
        requires may { ReadsWithin (needs_of W.needs self.old.walk) L.may }
        ensures next { front_left W.left self.old.ahead self.old.walk
            ≡ option_to_list result ++ left_of W.left self.new.walk }
        ensures none { IfNone result (left_of W.left self.new.walk ≡ []) }
        ensures ahead { self.new.ahead ≡ None }
        ensures cost { steps.new + budget_of W.budget self.new.walk
            ≤ steps.old + budget_of W.budget self.old.walk }
        ensures in_time { IsDrawnInTime
            (front_past W.reads_past self.old.ahead self.old.walk)
            (past_of W.reads_past self.new.walk) steps.old steps.new result }
        ensures once { IsDrawnOnce W.left self.old.walk self.new.walk }
        ensures needs { ReadsWithin (needs_of W.needs self.new.walk) (needs_of W.needs self.old.walk) }
    {
        if let Some(stop) = self.ahead.take() {
            return Some(stop);
        }
        match &mut self.walk {
            Some(walk) => walk.next(steps),
            None => None,
        }
    }

    /// Puts a stop back, if there is one, before all that are left. No stop is ahead before.
    pub fn put_back(&mut self, stop: Option<Stop>)
        requires { self.old.ahead ≡ None }
        ensures walk { self.new.walk ≡ self.old.walk }
        ensures ahead { self.new.ahead ≡ stop }
    {
        self.ahead = stop;
    }
}
