ghost use Rattle.std.specs.Prelude.{◌≡◌, ◌+◌, ◌≤◌, IfOk, IfSome};
ghost use Rattle.step_count.specs.Reads.{ReadsWithin};
ghost use Rattle.track_types.specs.ByFilter.{path_of};
ghost use Rattle.track_types.specs.Meeting.{meeting_of};
ghost use Rattle.track_types.specs.Near.{IsAsked};
ghost use Rattle.track_types.specs.declared.limit.TheConstants.{MAX_REACH};
ghost use Rattle.track_types.specs.declared.meeting.Meeting.{Meeting as MeetingView};
ghost use Rattle.track_types.specs.declared.question.Question.TheVariants as asked;
ghost use Rattle.encounter.specs.Walked.{EndAt};

use crate::side_by_side::first_of_walks;
use std::alloc::Global;
use step_count::{Reads, Steps};
use track_types::{Answerer, Meeting, Meets, Memory};

/// Any answerer, made to tell meetings too, by two paths that are drawn side by side. Its chart,
/// facts, costs and walks are those of the answerer.
#[derive(Clone, Copy)]
pub struct Walked<A: Answerer> {
    pub(crate) answerer: A,
}

impl<A: Answerer> Walked<A> {
    /// This answerer, with meetings. It takes no memory.
    pub fn new(answerer: A) -> Walked<A>
        ensures { result.answerer ≡ answerer }
    {
        Walked { answerer }
    }
}

impl<A: Answerer> Meets for Walked<A> {
    fn meet<L: Reads>(
        self,
        alloc: Global,
        left: u32,
        right: u32,
        from: i64,
        to: i64,
        reach: u64,
        steps: &mut Steps<L>,
    ) -> Result<Option<Meeting>, Memory>
        requires from { IsAsked from }
        requires to { IsAsked to }
        requires reach { reach ≤ MAX_REACH }
        requires may { ReadsWithin (A.needs self.answerer (asked.Path left from to)) L.may }
        requires also { ReadsWithin (A.needs self.answerer (asked.Path right from to)) L.may }
        ensures ok { IfOk result (λ found. found
            ≡ meeting_of (A.chart self.answerer).rows left right from to reach) }
        ensures cost { steps.new ≤ steps.old + (A.cost self.answerer (asked.Path left from to)
            + A.cost self.answerer (asked.Path right from to)) }
        ensures ended { IfOk result (λ found. IfSome found (λ (meeting : MeetingView).
            EndAt A.Walk.left A.Walk.budget meeting.instant
            (path_of (A.chart self.answerer).rows left from to)
            (path_of (A.chart self.answerer).rows right from to)
            (steps.old + (A.cost self.answerer (asked.Path left from to)
            + A.cost self.answerer (asked.Path right from to))) steps.new)) }
        ensures sooner { IfOk result (λ found. IfSome found (λ (meeting : MeetingView). steps.new
            ≤ steps.old + (A.path_cost_until self.answerer left from to meeting.instant
            + A.path_cost_until self.answerer right from to meeting.instant))) }
    {
        let _ = self.answerer.facts(); // says that the chart is a table
        let mut one = self.answerer.walk(alloc, left, from, to)?;
        let mut other = self.answerer.walk(alloc, right, from, to)?;
        Ok(first_of_walks(&mut one, &mut other, reach, steps))
    }
}
