use crate::cell::Cell;
use crate::region::Region;

/// What a question line asks.
#[derive(Clone, Copy, Debug, PartialEq, Eq)]
pub enum Question {
    /// Where the object was at the instant (an object-position query).
    Position {
        object: u32,
        instant: i64,
    },
    /// Where it was from one instant to another, both counted (a trajectory query).
    Path {
        object: u32,
        from: i64,
        to: i64,
    },
    /// Which objects were in the region at the instant (a time-slice query).
    Slice {
        instant: i64,
        region: Region,
    },
    /// Which objects were in the region at some instant of the window, and where first (a time-interval
    /// query).
    Interval {
        from: i64,
        to: i64,
        region: Region,
    },
    /// Which objects were nearest to the cell at the instant, at most `count` of them (a k-nearest-
    /// neighbour query).
    Nearest {
        count: u32,
        instant: i64,
        cell: Cell,
    },
    /// When two objects were first within `reach` cells of each other in the window (an encounter).
    Meet {
        left: u32,
        right: u32,
        from: i64,
        to: i64,
        reach: u64,
    },
    /// The facts.
    Info,
    /// To hold a cursor over a path in a slot, 0 to 15.
    Hold {
        slot: u8,
        object: u32,
        from: i64,
        to: i64,
    },
    /// The next stops of the cursor in a slot, at most `count`.
    More {
        slot: u8,
        count: u32,
    },
    /// To let the cursor in a slot go.
    Free {
        slot: u8,
    },
}
