ghost use Rattle.std.specs.Prelude.{◌≡◌, ◌+◌, ◌≤◌, IfOk};
ghost use Rattle.step_count.specs.Reads.{ReadsWithin};
ghost use Rattle.track_types.specs.Meeting.{meeting_of};
ghost use Rattle.track_types.specs.Near.{IsAsked};
ghost use Rattle.track_types.specs.declared.limit.TheConstants.{MAX_REACH};
ghost use Rattle.track_types.specs.declared.question.Question.TheVariants as asked;

use crate::answerer::Answerer;
use crate::meeting::Meeting;
use crate::memory::Memory;
use std::alloc::Global;
use step_count::{Reads, Steps};

/// An answerer that also tells when two objects first met.
pub trait Meets: Answerer {
    /// The first instant from one to another, both counted, at which two objects have a row within `reach` cells of
    /// each other, and their cells. `None` if and only if there is no such instant, as for an unknown object. A
    /// distance is that of the centres of cells: its square is at most the square of `reach`, which is at most
    /// `MAX_REACH`. One object with itself is its first row in the window.
    fn meet<L: Reads>(
        self,
        alloc: Global,
        left: u32,
        right: u32,
        from: i64,
        to: i64,
        reach: u64,
        steps: &mut Steps<L>,
    ) -> Result<Option<Meeting>, Memory>
        requires from { IsAsked from }
        requires to { IsAsked to }
        requires reach { reach ≤ MAX_REACH }
        requires may { ReadsWithin (Self.needs self (asked.Meet left right from to reach)) L.may }
        ensures ok { IfOk result (λ found. found
            ≡ meeting_of (Self.chart self).rows left right from to reach) }
        ensures cost { steps.new
            ≤ steps.old + Self.cost self (asked.Meet left right from to reach) };
}
