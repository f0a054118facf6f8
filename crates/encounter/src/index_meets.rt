ghost use Rattle.std.specs.Prelude.{◌≡◌, ◌+◌, ◌≤◌, IfOk, IfSome};
ghost use Rattle.step_count.specs.Reads.{ReadsWithin};
ghost use Rattle.track_types.specs.Meeting.{meeting_of};
ghost use Rattle.track_types.specs.Near.{IsAsked};
ghost use Rattle.track_types.specs.declared.limit.TheConstants.{MAX_REACH};
ghost use Rattle.track_types.specs.declared.meeting.Meeting.{Meeting as MeetingView};
ghost use Rattle.snapshots.specs.Parts.{chart_in};
ghost use Rattle.encounter.specs.MeetCost.{meet_cost, meet_cost_until};
ghost use Rattle.encounter.specs.Needs.{meet_needs};

use crate::search::meet;
use crate::window::Window;
use std::alloc::Global;
use step_count::{Reads, Steps};
use track_index::{Index, IndexRef};
use track_types::{Meeting, Meets, Memory};

/// An index that also tells meetings, by going through two blocks of each period together. Its
/// chart, facts, walks and other costs are those of the index.
#[derive(Clone, Copy)]
pub struct IndexMeets<'a> {
    pub view: IndexRef<'a>,
}

impl<'a> IndexMeets<'a> {
    /// This index, with meetings. It takes no memory.
    pub fn new(index: &'a Index) -> IndexMeets<'a>
        ensures { result.view.index.now ≡ index.now }
    {
        IndexMeets { view: index.view() }
    }
}

impl<'a> Meets for IndexMeets<'a> {
    fn meet<L: Reads>(
        self,
        alloc: Global,
        left: u32,
        right: u32,
        from: i64,
        to: i64,
        reach: u64,
        steps: &mut Steps<L>,
    ) -> Result<Option<Meeting>, Memory>
        requires from { IsAsked from }
        requires to { IsAsked to }
        requires reach { reach ≤ MAX_REACH }
        requires may { ReadsWithin (meet_needs self.view.index.now left right from to reach) L.may }
        ensures ok { IfOk result (λ found. found
            ≡ meeting_of (chart_in self.entry.view.index.now).rows left right from to reach) }
        ensures cost { steps.new ≤ steps.old + meet_cost self.entry.view.index.now left right from to reach }
        ensures sooner { IfOk result (λ found. IfSome found (λ (meeting : MeetingView). steps.new
            ≤ steps.old + meet_cost_until self.entry.view.index.now left right from to reach
            meeting.instant)) }
    {
        let window = Window { from, to, reach };
        meet(alloc, self.view.index.stores(), left, right, &window, steps)
    }
}
