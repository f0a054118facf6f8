ghost use Rattle.std.specs.Prelude.{◌≡◌, ◌+◌, ◌≤◌, option_map, true, false};
ghost use Rattle.step_count.specs.Reads.{ReadsWithin};
ghost use Rattle.track_types.specs.Meeting.{meeting_at};
ghost use Rattle.track_types.specs.declared.limit.TheConstants.{MAX_REACH};
ghost use Rattle.log_cursor.specs.Needs.{search_needs};
ghost use Rattle.encounter.specs.Turn.{IsTurned, meeting_ahead, parties, reads_ahead, rule_ahead};

use crate::block_node::BlockNode;
use crate::party::Party;
use crate::window::Window;
use step_count::{Reads, Steps};
use track_types::Meeting;

/// What a turn came to: a node was passed or opened, there is no meeting, or this is the first.
#[derive(Clone, Copy)]
pub enum Turn {
    GoesOn,
    Ends,
    Meets(Meeting),
}

/// The first meeting of two blocks of the same rules. It reads the symbols of both logs, and the
/// rules that are close to a node of the other block.
pub fn first_meeting<L: Reads>(
    left: &mut Party<'_>,
    right: &mut Party<'_>,
    window: &Window,
    steps: &mut Steps<L>,
) -> Option<Meeting>
    requires reach { window.now.reach ≤ MAX_REACH }
    requires same { left.old.rules ≡ right.old.rules }
    requires may { ReadsWithin (search_needs left.old.places (rule_ahead
        window.now.from window.now.to window.now.reach left.old right.old)) L.may }
    requires also { ReadsWithin (search_needs right.old.places (rule_ahead
        window.now.from window.now.to window.now.reach left.old right.old)) L.may }
    ensures value { result ≡ option_map meeting_at (meeting_ahead
        window.now.from window.now.to window.now.reach left.old right.old) }
    ensures cost { steps.new ≤ steps.old + reads_ahead
        window.now.from window.now.to window.now.reach left.old right.old }
{
    loop {
        match take_turn(left, right, window, steps) {
            Turn::GoesOn => {}
            Turn::Ends => return None,
            Turn::Meets(meeting) => return Some(meeting),
        }
    }
}

// Where the next nodes cannot meet, the one that ends first is passed, and at a tie the left. Else a
// rule among them is opened; two stops are a meeting.
fn take_turn<L: Reads>(
    left: &mut Party<'_>,
    right: &mut Party<'_>,
    window: &Window,
    steps: &mut Steps<L>,
) -> Turn
    requires reach { window.now.reach ≤ MAX_REACH }
    requires same { left.old.rules ≡ right.old.rules }
    requires may { ReadsWithin (search_needs left.old.places (rule_ahead
        window.now.from window.now.to window.now.reach left.old right.old)) L.may }
    requires also { ReadsWithin (search_needs right.old.places (rule_ahead
        window.now.from window.now.to window.now.reach left.old right.old)) L.may }
    ensures turned { IsTurned window.now.from window.now.to window.now.reach
        (parties left.old right.old steps.old) (parties left.new right.new steps.new) result }
    ensures places { left.new.places ≡ left.old.places }
    ensures others { right.new.places ≡ right.old.places }
    ensures rules { left.new.rules ≡ left.old.rules }
    ensures grammar { right.new.rules ≡ right.old.rules }
{
    let one = left.node();
    let other = right.node();
    if window.to <= one.begin || window.to <= other.begin {
        return Turn::Ends;
    }
    if !window.may_meet(&one, &other) {
        let more = if one.end <= other.end {
            left.pass(steps)
        } else {
            right.pass(steps)
        };
        return if more { Turn::GoesOn } else { Turn::Ends };
    }
    if opens_first(&one, &other) {
        left.open(steps);
        return Turn::GoesOn;
    }
    if other.opens {
        right.open(steps);
        return Turn::GoesOn;
    }
    Turn::Meets(Meeting {
        instant: one.end,
        left: one.cell,
        right: other.cell,
    })
}

// Whether the first of two nodes is opened, and not the second: the rule that ends last, and the
// first at a tie.
fn opens_first(one: &BlockNode, other: &BlockNode) -> bool
    ensures yes { result ≡ true → one.now.opens ≡ true }
    ensures no { result ≡ false → one.now.opens ≡ true → other.now.opens ≡ true }
{
    one.opens && (!other.opens || other.end <= one.end)
}
