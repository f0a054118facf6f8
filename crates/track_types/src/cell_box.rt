ghost use Rattle.std.specs.Prelude.{◌≤ℤ◌};

use crate::cell::Cell;
use crate::shape::overlaps;

/// A box of cells: the columns `x1` to `x2` and the lines `y1` to `y2`, all ends counted.
///
/// It holds at least one cell, since `x1 <= x2` and `y1 <= y2` belong to its type.
#[derive(Clone, Copy, Debug, PartialEq, Eq)]
pub struct CellBox {
    pub x1: i64,
    pub y1: i64,
    pub x2: i64,
    pub y2: i64,
    ghost wide: { x1 ≤ℤ x2 },
    ghost high: { y1 ≤ℤ y2 },
}

impl CellBox {
    ghost use Rattle.std.specs.Prelude.{◌≡◌, ◌≤◌};
    ghost use Rattle.track_types.specs.Boxes.{cell_box, cut_box, joined_box, moved_box, touches, IsMovable};
    ghost use Rattle.track_types.specs.Near.{IsBoxWithin};
    ghost use Rattle.track_types.specs.Widening.{widened};
    ghost use Rattle.track_types.specs.declared.limit.TheConstants.{MAX_REACH};

    /// The box of one cell.
    pub fn of(cell: Cell) -> CellBox
        ensures { result ≡ cell_box cell }
    {
        CellBox {
            x1: cell.x,
            y1: cell.y,
            x2: cell.x,
            y2: cell.y,
        }
    }

    /// The box, moved from (0, 0) to a cell, which leaves all bounds within 2^61 of 0.
    pub fn moved(&self, to: Cell) -> CellBox
        requires { IsMovable to self.now }
        ensures { result ≡ moved_box to self.now }
    {
        CellBox {
            x1: to.x + self.x1,
            y1: to.y + self.y1,
            x2: to.x + self.x2,
            y2: to.y + self.y2,
        }
    }

    /// The least box with the cells of both.
    pub fn joined(&self, other: &CellBox) -> CellBox
        ensures { result ≡ joined_box self.now other.now }
    {
        CellBox {
            x1: self.x1.min(other.x1),
            y1: self.y1.min(other.y1),
            x2: self.x2.max(other.x2),
            y2: self.y2.max(other.y2),
        }
    }

    /// The box with so many columns more on the left and on the right, and so many lines more below and above. `width`
    /// is at most `MAX_REACH`, and its bounds are at most that far from 0.
    pub fn widened(&self, width: u64) -> CellBox
        requires area { IsBoxWithin self.now }
        requires width { width ≤ MAX_REACH }
        ensures { result ≡ widened width self.now }
    {
        CellBox {
            x1: self.x1 - width as i64,
            y1: self.y1 - width as i64,
            x2: self.x2 + width as i64,
            y2: self.y2 + width as i64,
        }
    }

    /// Whether it has a cell in common with another.
    pub fn meets(&self, other: &CellBox) -> bool
        ensures { result ≡ touches self.now other.now }
    {
        overlaps(self.x1, self.x2, other.x1, other.x2)
            && overlaps(self.y1, self.y2, other.y1, other.y2)
    }

    /// The box with its bounds cut to those of another: the cells of both, if they have one in common.
    pub fn cut_to(&self, whole: &CellBox) -> CellBox
        ensures value { result ≡ cut_box whole.now self.now }
        ensures within { IsBoxWithin whole.now → IsBoxWithin result }
    {
        CellBox {
            x1: self.x1.clamp(whole.x1, whole.x2),
            y1: self.y1.clamp(whole.y1, whole.y2),
            x2: self.x2.clamp(whole.x1, whole.x2),
            y2: self.y2.clamp(whole.y1, whole.y2),
        }
    }
}
