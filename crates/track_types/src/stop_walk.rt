ghost use Rattle.std.specs.Prelude.{◌≡◌, ◌++◌, ◌+◌, ◌≤◌, ℕ, ℤ, [], IfNone, option_to_list};
ghost use Rattle.step_count.specs.Reads.{ReadsWithin};
ghost use Rattle.track_types.specs.StopWalk.{IsDrawnInTime};

use crate::lazy::Lazy;
use crate::stop::Stop;
use step_count::{Reads, Steps};

/// A `Lazy` over stops whose reads are also bounded where it is left early.
///
/// `reads_past` bounds the reads until a stop at an instant or after it is drawn, or none is left.
pub trait StopWalk: Lazy<Item = Stop> {
    ghost reads_past: { Self → ℤ → ℕ };

    /// Takes the first stop of `left` off and answers it, or `None` if and only if `left` is empty. It
    /// takes no memory.
    fn next<L: Reads>(&mut self, steps: &mut Steps<L>) -> Option<Stop>
        requires may { ReadsWithin (Self.needs self.old) L.may }
        ensures found { Self.left self.old ≡ option_to_list result ++ Self.left self.new }
        ensures none { IfNone result (Self.left self.old ≡ []) }
        ensures cost { steps.new + Self.budget self.new ≤ steps.old + Self.budget self.old }
        ensures in_time { IsDrawnInTime (reads_past self.old) (reads_past self.new)
            steps.old steps.new result }
        ensures needs { ReadsWithin (Self.needs self.new) (Self.needs self.old) };
}
