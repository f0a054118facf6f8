ghost use Rattle.std.specs.Prelude.{◌≡◌, ◌+◌, ◌<◌, ◌≤◌, length, option_map, IfOk, IfSome, IsTrue};
ghost use Rattle.step_count.specs.Reads.{ofPeriod, ReadsWithin};
ghost use Rattle.track_types.specs.Frame.{periods_of};
ghost use Rattle.track_types.specs.Meeting.{meeting_at, meeting_of};
ghost use Rattle.track_types.specs.declared.limit.TheConstants.{MAX_REACH};
ghost use Rattle.track_types.specs.declared.meeting.Meeting.{Meeting as MeetingView};
ghost use Rattle.log_cursor.specs.Needs.{search_needs};
ghost use Rattle.snapshots.specs.Needs.{block_places};
ghost use Rattle.snapshots.specs.Parts.{chart_in, snapshot_in, stops_in};
ghost use Rattle.snapshots.specs.View.{block_of};
ghost use Rattle.track_index.specs.Path.{is_left};
ghost use Rattle.encounter.specs.MeetCost.{meet_cost, meet_cost_until, period_meet_cost};
ghost use Rattle.encounter.specs.Needs.{meet_needs, pair_needs, period_rule};
ghost use Rattle.encounter.specs.Seeking.{EndsAt, meet_cost_between, meeting_between};
ghost use Rattle.encounter.specs.Window.{meeting_among};

use crate::pairing::first_meeting;
use crate::party::Party;
use crate::window::Window;
use object_track::{Periods, Placed};
use snapshots::Stores;
use std::alloc::Global;
use step_count::{Reads, Steps};
use track_types::{Meeting, Memory};

/// The first instant of a window, whose ends count, at which two objects have a row within its
/// distance, and their cells. `None` if and only if there is no such instant, as for an unknown
/// object.
///
/// The distance is at most `MAX_REACH`. Both blocks of each period that the window meets are gone
/// through together, up to the meeting. `Memory` is the only refusal: memory is taken where the
/// grammar is deep, for the parts of rules.
pub fn meet<L: Reads>(
    alloc: Global,
    stores: &Stores,
    left: u32,
    right: u32,
    window: &Window,
    steps: &mut Steps<L>,
) -> Result<Option<Meeting>, Memory>
    requires reach { window.now.reach ≤ MAX_REACH }
    requires may { ReadsWithin (meet_needs stores.now left right
        window.now.from window.now.to window.now.reach) L.may }
    ensures ok { IfOk result (λ found. found ≡ meeting_of (chart_in stores.now).rows left right
        window.now.from window.now.to window.now.reach) }
    ensures cost { steps.new ≤ steps.old + meet_cost stores.now left right
        window.now.from window.now.to window.now.reach }
    ensures sooner { IfOk result (λ found. IfSome found (λ (meeting : MeetingView). steps.new
        ≤ steps.old + meet_cost_until stores.now left right
        window.now.from window.now.to window.now.reach meeting.instant)) }
{
    let _ = stores.frame(); // says what holds of every index
    let Some(one) = stores.index_of(left) else {
        return Ok(None);
    };
    let Some(other) = stores.index_of(right) else {
        return Ok(None);
    };
    let places = Places {
        left: one,
        right: other,
    };
    let periods = Periods::met(stores, window.from, window.to);
    meet_in_periods(alloc, stores, places, window, periods, steps)
}

// Two objects, by their places among all objects.
#[derive(Clone, Copy)]
struct Places {
    left: u32,
    right: u32,
}

// The first meeting in some periods.
fn meet_in_periods<L: Reads>(
    alloc: Global,
    stores: &Stores,
    places: Places,
    window: &Window,
    periods: Periods,
    steps: &mut Steps<L>,
) -> Result<Option<Meeting>, Memory>
    requires reach { window.now.reach ≤ MAX_REACH }
    requires left { places.left < length stores.now.objects }
    requires right { places.right < length stores.now.objects }
    requires periods { periods.end ≤ periods_of stores.now.frame }
    requires may { ReadsWithin (pair_needs stores.now places.left places.right
        window.now.from window.now.to window.now.reach (is_left periods.next periods.end)) L.may }
    ensures ok { IfOk result (λ found. found ≡ option_map meeting_at (meeting_between stores.now
        places.left places.right window.now.from window.now.to window.now.reach
        periods.next periods.end)) }
    ensures cost { steps.new ≤ steps.old + meet_cost_between stores.now places.left places.right
        window.now.from window.now.to window.now.reach periods.next periods.end }
    ensures sooner { IfOk result (λ found. IfSome found (λ (meeting : MeetingView). EndsAt
        meeting.instant stores.now places.left places.right
        window.now.from window.now.to window.now.reach periods.next periods.end
        steps.old steps.new)) }
{
    let _ = stores.frame(); // says what holds of every index
    for period in periods.next..periods.end {
        let found = meet_in_period(alloc, stores, places, window, period, steps)?;
        if let Some(meeting) = found {
            return Ok(Some(meeting));
        }
    }
    Ok(None)
}

// The first meeting in one period: both blocks are looked for, and gone through together.
fn meet_in_period<L: Reads>(
    alloc: Global,
    stores: &Stores,
    places: Places,
    window: &Window,
    period: u32,
    steps: &mut Steps<L>,
) -> Result<Option<Meeting>, Memory>
    requires reach { window.now.reach ≤ MAX_REACH }
    requires left { places.left < length stores.now.objects }
    requires right { places.right < length stores.now.objects }
    requires period { period < periods_of stores.now.frame }
    requires may { IsTrue (L.may (ofPeriod period)) }
    requires log { ReadsWithin (search_needs
        (block_places (block_of (snapshot_in stores.now period) places.left))
        (period_rule stores.now places.left places.right
        window.now.from window.now.to window.now.reach period)) L.may }
    requires also { ReadsWithin (search_needs
        (block_places (block_of (snapshot_in stores.now period) places.right))
        (period_rule stores.now places.left places.right
        window.now.from window.now.to window.now.reach period)) L.may }
    ensures ok { IfOk result (λ found. found ≡ option_map meeting_at (meeting_among
        window.now.from window.now.to window.now.reach
        (stops_in stores.now places.left period) (stops_in stores.now places.right period))) }
    ensures cost { steps.new ≤ steps.old + period_meet_cost stores.now places.left places.right
        window.now.from window.now.to window.now.reach period }
{
    let Some(one) = stores.find(period, places.left, steps) else {
        return Ok(None);
    };
    let Some(other) = stores.find(period, places.right, steps) else {
        return Ok(None);
    };
    let mine = Placed::new(stores, period, &one);
    let theirs = Placed::new(stores, period, &other);
    let mut left = Party::new(alloc, mine.log, mine.start)?;
    let mut right = Party::new(alloc, theirs.log, theirs.start)?;
    Ok(first_meeting(&mut left, &mut right, window, steps))
}
