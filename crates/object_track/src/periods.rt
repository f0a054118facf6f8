ghost use Rattle.std.specs.Prelude.{◌≡◌};
ghost use Rattle.track_types.specs.Frame.{IsFrame};
ghost use Rattle.snapshots.specs.Parts.{last_in};
ghost use Rattle.object_track.specs.Met.{AreMet};

use snapshots::Stores;
use track_types::Frame;

/// The periods from one to before another.
#[derive(Clone, Copy)]
pub struct Periods {
    pub next: u32,
    pub end: u32,
}

impl Periods {
    /// No period.
    pub fn none() -> Periods
        ensures next { result.next ≡ 0 }
        ensures end { result.end ≡ 0 }
    {
        Periods { next: 0, end: 0 }
    }

    /// The periods that have an instant in a window, whose ends count.
    pub fn met(stores: &Stores, from: i64, to: i64) -> Periods
        ensures { AreMet stores.now.frame from to result.next result.end }
    {
        let timeline = stores.frame().timeline();
        let low = from.max(timeline.first);
        let high = to.min(timeline.last());
        if low > high {
            return Periods::none();
        }
        Periods {
            next: timeline.period_at(low),
            end: timeline.period_at(high) + 1,
        }
    }
}

/// The last instant of an index.
pub fn last_of(frame: &Frame) -> i64
    requires { IsFrame frame.now }
    ensures { result ≡ last_in frame.now }
{
    frame.timeline().last()
}
