ghost use Rattle.std.specs.Prelude.{◌≡◌, ◌<◌, ◌≤◌};
ghost use Rattle.track_types.specs.Near.{IsRawInRange};
ghost use Rattle.track_types.specs.declared.limit.TheConstants.{MAX_ROWS};
ghost use Rattle.sample_rows.specs.Sample.{first_spot, is_absent, raw_row_of, shifted, spot_after};

use track_types::RawRow;

/// A place on the grid: both coordinates are from 0 to 1,023.
#[derive(Clone, Copy, Debug, PartialEq, Eq)]
pub struct Spot {
    pub x: u16,
    pub y: u16,
}

/// The greatest coordinate.
const EDGE: u32 = 1_023;

impl Spot {
    // Where an object is at the first instant.
    pub(crate) fn first(object: u32) -> Self
        requires { object < MAX_ROWS }
        ensures { result ≡ first_spot object }
    {
        Spot {
            x: (37 * object % 1_024) as u16,
            y: (101 * object % 1_024) as u16,
        }
    }

    // Where an object is after this value was drawn for it.
    pub(crate) fn after(self, value: u32) -> Self
        ensures { result ≡ spot_after value self }
    {
        if is_absent(value) {
            return self;
        }
        Spot {
            x: shifted(self.x, value / 16 % 3),
            y: shifted(self.y, value / 48 % 3),
        }
    }

    // The row of an object that is here at an instant.
    pub(crate) fn row(self, instant: u32, object: u32) -> RawRow
        ensures value { result ≡ raw_row_of instant object self }
        ensures near { IsRawInRange result }
    {
        RawRow {
            object,
            time: i64::from(instant),
            x: i64::from(self.x),
            y: i64::from(self.y),
        }
    }
}

// Whether an object has no row where this value was drawn for it.
pub(crate) fn is_absent(value: u32) -> bool
    ensures { result ≡ is_absent value }
{
    value % 16 == 0
}

// A coordinate one cell back, as it was, or one cell on, for a third of 0, 1 and 2. It stays on the grid.
fn shifted(coordinate: u16, third: u32) -> u16
    requires { third < 3 }
    ensures { result ≡ shifted coordinate third }
{
    let moved = (u32::from(coordinate) + third).saturating_sub(1);
    moved.min(EDGE) as u16
}
