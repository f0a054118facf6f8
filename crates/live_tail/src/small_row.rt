ghost use Rattle.std.specs.Prelude.{◌≡◌, ◌+ℤ◌, pos};
ghost use Rattle.live_tail.specs.Counted.{IsCounted};
ghost use Rattle.track_types.specs.Near.{IsNear};

use track_types::{Cell, Extents, Row};

/// A row in sixteen bytes: its instant and its cell are counted from those of an `Origin`.
#[derive(Clone, Copy)]
pub struct SmallRow {
    pub object: u32,
    pub instant: u32,
    pub x: u32,
    pub y: u32,
}

/// The instant and the cell from which those of small rows are counted.
#[derive(Clone, Copy)]
pub struct Origin {
    pub instant: i64,
    pub x: i64,
    pub y: i64,
    ghost near_instant: { IsNear instant },
    ghost near_x: { IsNear x },
    ghost near_y: { IsNear y },
}

impl Origin {
    ghost use Rattle.live_tail.specs.SmallRows.{IsCountedFrom, row_from};

    /// The least instant, column and line of some rows.
    pub fn of(extents: Extents) -> Origin
        requires instant { IsNear extents.time.least }
        requires x { IsNear extents.columns.least }
        requires y { IsNear extents.lines.least }
        ensures instant { result.instant ≡ extents.time.least }
        ensures x { result.x ≡ extents.columns.least }
        ensures y { result.y ≡ extents.lines.least }
    {
        Origin {
            instant: extents.time.least,
            x: extents.columns.least,
            y: extents.lines.least,
        }
    }

    /// The origin of no rows.
    pub fn zero() -> Origin {
        Origin {
            instant: 0,
            x: 0,
            y: 0,
        }
    }

    /// A row as a small one.
    pub fn small(&self, row: &Row) -> SmallRow
        requires { IsCountedFrom self.now row.now }
        ensures { row_from self.now result ≡ row.now }
    {
        SmallRow {
            object: row.object,
            instant: distance(self.instant, row.instant),
            x: distance(self.x, row.cell.x),
            y: distance(self.y, row.cell.y),
        }
    }

    /// The row that a small one stands for.
    pub fn row(&self, small: &SmallRow) -> Row
        ensures { result ≡ row_from self.now small.now }
    {
        Row {
            object: small.object,
            instant: self.instant_of(small),
            cell: Cell {
                x: behind(self.x, small.x),
                y: behind(self.y, small.y),
            },
        }
    }

    /// The instant of that row.
    pub fn instant_of(&self, small: &SmallRow) -> i64
        ensures { result ≡ (row_from self.now small.now).instant }
    {
        behind(self.instant, small.instant)
    }
}

/// How far a number is behind another, which is no greater and less than 2^32 away.
pub fn distance(from: i64, to: i64) -> u32
    requires { IsCounted from to }
    ensures { (from +ℤ pos result) ≡ to }
{
    (to - from) as u32
}

// The number that is so far behind another.
fn behind(from: i64, distance: u32) -> i64
    requires { IsNear from }
    ensures { result ≡ (from +ℤ pos distance) }
{
    from + i64::from(distance)
}
