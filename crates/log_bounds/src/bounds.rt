ghost use Rattle.std.specs.Prelude.{◌≡◌, ◌^◌, ◌<◌, max, ◌+ℤ◌, IfSome};
ghost use Rattle.track_types.specs.Boxes.{cell_box};
ghost use Rattle.track_types.specs.Near.{IsBoxWithin, IsCellWithin, IsWithin};
ghost use Rattle.log_bounds.specs.Bounds.{far_of, gap, hull_speed, with_hull, IsReachable};

use track_types::{Cell, CellBox};

/// What bounds a log, or its first symbols.
#[derive(Clone, Copy, Debug, PartialEq, Eq)]
pub struct LogBounds {
    /// The cell of the anchor, from which the log begins.
    pub from: Cell,
    /// How many cells an instant the object gets away from its anchor at most: how far the placed box of a symbol gets
    /// from the anchor, divided by how many instants after the anchor the symbol begins, rounded up.
    pub speed: u64,
    /// The least box with the anchor's cell and the placed boxes of the symbols.
    pub area: CellBox,
}

impl LogBounds {
    /// The bounds of no symbol, from the cell of an anchor.
    pub fn of(cell: Cell) -> LogBounds
        ensures from { result.from ≡ cell }
        ensures speed { result.speed ≡ 0 }
        ensures area { result.area ≡ cell_box cell }
    {
        LogBounds {
            from: cell,
            speed: 0,
            area: CellBox::of(cell),
        }
    }

    /// The bounds with one symbol more, whose box is moved to the cell after the symbols before it. These stand for
    /// `before` instants.
    pub fn with(self, cell: Cell, before: u64, hull: &Option<CellBox>) -> LogBounds
        requires from { IsCellWithin self.from }
        requires column { IsReachable cell.x }
        requires line { IsReachable cell.y }
        requires before { before < 2 ^ 60 }
        requires hull { IfSome hull.now IsBoxWithin }
        ensures from { result.from ≡ self.from }
        ensures speed { result.speed ≡ max self.speed (hull_speed self.from cell before hull.now) }
        ensures area { result.area ≡ with_hull self.area cell hull.now }
    {
        LogBounds {
            from: self.from,
            speed: raised(self.speed, self.from, cell, before, hull),
            area: with_hull(self.area, cell, hull),
        }
    }
}

// The least box with an area and with a hull, if there is one, that is moved to a cell.
fn with_hull(area: CellBox, cell: Cell, hull: &Option<CellBox>) -> CellBox
    requires column { IsReachable cell.x }
    requires line { IsReachable cell.y }
    requires hull { IfSome hull.now IsBoxWithin }
    ensures { result ≡ with_hull area cell hull.now }
{
    match hull {
        Some(hull) => area.joined(&hull.moved(cell)),
        None => area,
    }
}

// The greater of two speeds: the given one, and that at which an object gets from a cell to the farthest
// cell of a box in so many instants and one more. The box is moved to another cell; without one the
// second speed is 0.
fn raised(speed: u64, from: Cell, cell: Cell, before: u64, hull: &Option<CellBox>) -> u64
    requires from { IsCellWithin from }
    requires column { IsReachable cell.x }
    requires line { IsReachable cell.y }
    requires before { before < 2 ^ 60 }
    requires hull { IfSome hull.now IsBoxWithin }
    ensures { result ≡ max speed (hull_speed from cell before hull.now) }
{
    let Some(hull) = hull else {
        return speed;
    };
    let far = far_of(from, cell, hull);
    // A division takes longer than all else here, so it is made only where the speed rises.
    if far <= speed.saturating_mul(before + 1) {
        return speed;
    }
    far.div_ceil(before + 1)
}

// How far a cell is from the farthest cell of a box, which is moved to another cell: by columns or by
// lines, whichever is more.
fn far_of(from: Cell, cell: Cell, hull: &CellBox) -> u64
    requires from { IsCellWithin from }
    requires column { IsReachable cell.x }
    requires line { IsReachable cell.y }
    requires hull { IsBoxWithin hull.now }
    ensures { result ≡ far_of from cell hull.now }
{
    let columns = far_along(from.x, cell.x, hull.x1, hull.x2);
    let lines = far_along(from.y, cell.y, hull.y1, hull.y2);
    columns.max(lines)
}

// How far a number is from the farther one of two, which are moved by an amount.
fn far_along(from: i64, amount: i64, first: i64, last: i64) -> u64
    requires from { IsWithin from }
    requires amount { IsReachable amount }
    requires first { IsWithin first }
    requires last { IsWithin last }
    ensures { result ≡ max (gap (amount +ℤ first) from) (gap (amount +ℤ last) from) }
{
    let before = (amount + first - from).unsigned_abs();
    let behind = (amount + last - from).unsigned_abs();
    before.max(behind)
}
