ghost use Rattle.std.specs.Prelude.{◌≡◌, ◌+ℤ◌, ◌-ℤ◌, ◌≤ℤ◌, ◌<◌, ◌≤◌, ◌*◌, ◌^◌, pos, unsigned_abs};
ghost use Rattle.std.specs.Int.{int_max, int_min};
ghost use Rattle.track_types.specs.Near.{IsAsked, IsBoxWithin, IsCellAsked, IsWithin};
ghost use Rattle.track_types.specs.Widening.{widened};
ghost use Rattle.track_types.specs.Frame.{periods_of};
ghost use Rattle.nearest_search.specs.Cost.{box_dist2};
ghost use Rattle.nearest_search.specs.Vantage.{queue_key, width_in_64_bits};

use snapshots::Stores;
use track_types::{Cell, CellBox};

/// Where a search asks from, and how far objects get from their anchors by its instant.
#[derive(Clone, Copy)]
pub(crate) struct Vantage {
    pub(crate) cell: Cell,
    // In cells, by columns and by lines alike.
    pub(crate) width: u64,
}

impl Vantage {
    /// The vantage of a cell that is asked from, in a period at one of its instants.
    pub(crate) fn new(stores: &Stores, period: u32, instant: i64, cell: Cell) -> Vantage
        requires period { period < periods_of stores.now.frame }
        requires instant { IsAsked instant }
        ensures cell { result.cell ≡ cell }
        ensures width { result.width ≡ width_in_64_bits stores.now period instant }
    {
        let elapsed = instant.abs_diff(stores.frame().timeline().first_of(period));
        let width = stores.speed(period).saturating_mul(elapsed);
        Vantage { cell, width }
    }

    /// The greater of two least squared distances from the asked cell: to the cells of a box, and to
    /// those that are within reach of a square.
    pub(crate) fn key(&self, area: &CellBox, square: &CellBox) -> u128
        requires cell { IsCellAsked self.now.cell }
        requires area { IsBoxWithin area.now }
        requires square { IsBoxWithin square.now }
        ensures { result ≡ queue_key self.now.cell self.now.width area.now square.now }
    {
        let near = dist2_to(self.cell, area, 0);
        near.max(dist2_to(self.cell, square, self.width))
    }
}

// The least squared distance from a cell to those of a box that is widened on all sides.
fn dist2_to(cell: Cell, area: &CellBox, width: u64) -> u128
    requires cell { IsCellAsked cell }
    requires area { IsBoxWithin area.now }
    ensures { result ≡ box_dist2 cell (widened width area.now) }
{
    square(gap(cell.x, area.x1, area.x2, width)) + square(gap(cell.y, area.y1, area.y2, width))
}

// How far a number is from the nearest one of those from `low - width` to `high + width`.
fn gap(value: i64, low: i64, high: i64, width: u64) -> u64
    requires value { IsAsked value }
    requires low { IsWithin low }
    requires high { IsWithin high }
    requires order { low ≤ℤ high }
    ensures value { result ≡ unsigned_abs
        (value -ℤ int_max (low -ℤ pos width) (int_min value (high +ℤ pos width))) }
    ensures few { result ≤ 2 ^ 43 }
{
    if value < low {
        return low.abs_diff(value).saturating_sub(width);
    }
    if high < value {
        return value.abs_diff(high).saturating_sub(width);
    }
    0
}

// The square of a length.
fn square(length: u64) -> u128
    requires { length ≤ 2 ^ 43 }
    ensures exact { result ≡ length * length }
    ensures within { result ≤ 2 ^ 86 }
{
    u128::from(length) * u128::from(length)
}
