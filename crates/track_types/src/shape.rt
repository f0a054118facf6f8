ghost use Rattle.std.specs.Prelude.{◌≡◌, ◌*◌, ◌≤◌, ◌^◌};
ghost use Rattle.track_types.specs.Near.{IsBoxWithin, IsCellWithin};
ghost use Rattle.track_types.specs.Region.{IsShapeWithin, in_shape, intersects_shape, is_between, nearest_cell, overlaps, squared_distance};

use crate::cell::Cell;
use crate::cell_box::CellBox;

/// A simple set of cells. Regions are made of these.
#[derive(Clone, Copy, Debug, PartialEq, Eq)]
pub enum Shape {
    /// The cells of the columns `x1` to `x2` and the lines `y1` to `y2`, all ends counted. None where
    /// `x1 > x2` or `y1 > y2`.
    Rect { x1: i64, y1: i64, x2: i64, y2: i64 },
    /// The cells whose squared distance from (x, y) is at most `r * r`.
    Disc { x: i64, y: i64, r: u64 },
}

impl Shape {
    // Whether a cell is in the shape.
    pub(crate) fn contains(&self, cell: Cell) -> bool
        requires shape { IsShapeWithin self.now }
        requires near { IsCellWithin cell }
        ensures { result ≡ in_shape self.now cell }
    {
        match *self {
            Shape::Rect { x1, y1, x2, y2 } => {
                is_between(x1, x2, cell.x) && is_between(y1, y2, cell.y)
            }
            Shape::Disc { x, y, r } => dist2(Cell { x, y }, cell) <= square(r),
        }
    }

    // Whether any cell of the box is in the shape.
    pub(crate) fn intersects(&self, area: &CellBox) -> bool
        requires shape { IsShapeWithin self.now }
        requires near { IsBoxWithin area.now }
        ensures { result ≡ intersects_shape self.now area.now }
    {
        match *self {
            Shape::Rect { x1, y1, x2, y2 } => {
                overlaps(x1, x2, area.x1, area.x2) && overlaps(y1, y2, area.y1, area.y2)
            }
            Shape::Disc { x, y, r } => {
                let centre = Cell { x, y };
                dist2(centre, nearest(area, centre)) <= square(r)
            }
        }
    }
}

/// The squared Euclidean distance of two cells, whose coordinates are at most `MAX_REACH` away from 0.
pub fn dist2(a: Cell, b: Cell) -> u128
    requires first { IsCellWithin a }
    requires second { IsCellWithin b }
    ensures { result ≡ squared_distance a b }
{
    square(a.x.abs_diff(b.x)) + square(a.y.abs_diff(b.y))
}

// The square of a length.
fn square(length: u64) -> u128
    requires { length ≤ 2 ^ 43 }
    ensures exact { result ≡ length * length }
    ensures within { result ≤ 2 ^ 86 }
{
    u128::from(length) * u128::from(length)
}

fn is_between(low: i64, high: i64, value: i64) -> bool
    ensures { result ≡ is_between low high value }
{
    low <= value && value <= high
}

// Whether some number is from `low` to `high` and from `first` to `last`.
pub(crate) fn overlaps(low: i64, high: i64, first: i64, last: i64) -> bool
    ensures { result ≡ overlaps low high first last }
{
    low.max(first) <= high.min(last)
}

// The cell of the box that is nearest to a cell.
fn nearest(area: &CellBox, cell: Cell) -> Cell
    requires near { IsBoxWithin area.now }
    ensures value { result ≡ nearest_cell area.now cell }
    ensures within { IsCellWithin result }
{
    Cell {
        x: cell.x.clamp(area.x1, area.x2),
        y: cell.y.clamp(area.y1, area.y2),
    }
}
