ghost use Rattle.std.specs.Prelude.{◌≡◌, ◌+◌, ◌*◌, ◌≤◌, option_map, IfSome};
ghost use Rattle.step_count.specs.Reads.{ReadsWithin};
ghost use Rattle.track_types.specs.Near.{IsCellWithin};
ghost use Rattle.track_types.specs.Meeting.{are_together, first_together, meeting_at};
ghost use Rattle.track_types.specs.declared.limit.TheConstants.{MAX_REACH};
ghost use Rattle.track_types.specs.declared.meeting.Meeting.{Meeting as MeetingView};
ghost use Rattle.encounter.specs.Walked.{AreAfter, IsTrack};

use step_count::{Reads, Steps};
use track_types::{Meeting, Stop, StopWalk, dist2};

/// The first meeting of two walks, each over the stops of one object. The walk that is at the
/// earlier instant is drawn from, until both are at one instant within the distance. No stop after
/// that instant is drawn, and no more is read than until both walks give one there.
pub fn first_of_walks<W: StopWalk, L: Reads>(
    one: &mut W,
    other: &mut W,
    reach: u64,
    steps: &mut Steps<L>,
) -> Option<Meeting>
    requires reach { reach ≤ MAX_REACH }
    requires one { IsTrack (W.left one.old) }
    requires other { IsTrack (W.left other.old) }
    requires may { ReadsWithin (W.needs one.old) L.may }
    requires also { ReadsWithin (W.needs other.old) L.may }
    ensures value { result
        ≡ option_map meeting_at (first_together reach (W.left one.old) (W.left other.old)) }
    ensures ended { IfSome result (λ (meeting : MeetingView).
        AreAfter meeting.instant (W.left one.old) (W.left one.new)
        × AreAfter meeting.instant (W.left other.old) (W.left other.new)) }
    ensures rest { steps.new + (W.budget one.new + W.budget other.new)
        ≤ steps.old + (W.budget one.old + W.budget other.old) }
    ensures cost { steps.new ≤ steps.old + (W.budget one.old + W.budget other.old) }
    ensures sooner { IfSome result (λ (meeting : MeetingView). steps.new ≤ steps.old
        + (W.reads_past one.old meeting.instant + W.reads_past other.old meeting.instant)) }
{
    let mut here = one.next(steps)?;
    let mut there = other.next(steps)?;
    'drawn: loop {
        if there.instant < here.instant {
            there = other.next(steps)?;
            continue;
        }
        if are_together(here, there, reach) {
            return Some(Meeting {
                instant: here.instant,
                left: here.cell,
                right: there.cell,
            });
        }
        here = one.next(steps)?;
    }
}

// Whether two stops are at one instant, within a distance of each other.
fn are_together(here: Stop, there: Stop, reach: u64) -> bool
    requires reach { reach ≤ MAX_REACH }
    requires here { IsCellWithin here.cell }
    requires there { IsCellWithin there.cell }
    ensures { result ≡ are_together reach here there }
{
    here.instant == there.instant
        && dist2(here.cell, there.cell) <= u128::from(reach) * u128::from(reach)
}
