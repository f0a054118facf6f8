ghost use Rattle.std.specs.Prelude.{◌≡◌, ◌↔◌, Bool, IsTrue};
ghost use Rattle.track_types.specs.Near.{IsBoxWithin, IsCellWithin};
ghost use Rattle.track_types.specs.Region.{Intersects, in_region, intersects_region};
ghost use Rattle.track_types.specs.declared.cell.Cell.{Cell as CellView};

use track_types::{Cell, CellBox, Region};

/// A closure that is asked of a cell whether it is in a region.
pub type Contains = Box<dyn Fn(Cell) -> bool>;

/// A closure that is asked of a box whether a cell of it is in a region.
pub type MayTouch = Box<dyn Fn(&CellBox) -> bool>;

/// A region, and two closures that answer it for all cells and boxes at most 2^42 away from 0.
///
/// That both closures may be called on every such cell and box, and
/// what they answer, belongs to the type.
#[derive(Drop)]
pub struct RegionTest {
    region: Region,
    contains: Contains,
    may_touch: MayTouch,
    ghost cells: { (cell : CellView) → IsCellWithin cell → Contains.pre contains cell },
    ghost held: { (cell : CellView) (answer : Bool) → IsCellWithin cell
        → Contains.post contains cell answer → answer ≡ in_region region cell },
    ghost boxes: { (area : _) → IsBoxWithin area.now → MayTouch.pre may_touch area },
    ghost touched: { (area : _) (answer : Bool) → IsBoxWithin area.now
        → MayTouch.post may_touch area answer → answer ≡ intersects_region region area.now },
}

impl RegionTest {
    /// Keeps a region and the two closures that answer it, which the caller makes.
    ///
    /// Each may be called on every cell or box at most 2^42 away from 0. The first answers what
    /// `Region::contains` does, the second what `Region::touches` does. It takes no memory.
    pub fn new(region: Region, contains: Contains, may_touch: MayTouch) -> RegionTest
        requires cells { (cell : CellView) → IsCellWithin cell → Contains.pre contains cell }
        requires held { (cell : CellView) (answer : Bool) → IsCellWithin cell
            → Contains.post contains cell answer → answer ≡ in_region region cell }
        requires boxes { (area : _) → IsBoxWithin area.now → MayTouch.pre may_touch area }
        requires touched { (area : _) (answer : Bool) → IsBoxWithin area.now
            → MayTouch.post may_touch area answer → answer ≡ intersects_region region area.now }
        ensures { result.region ≡ region }
    {
        RegionTest {
            region,
            contains,
            may_touch,
        }
    }

    /// Whether a cell is in the region. Its coordinates are at most 2^42 away from 0. It takes no
    /// memory.
    pub fn holds(&self, cell: Cell) -> bool
        requires near { IsCellWithin cell }
        ensures { result ≡ in_region self.now.region cell }
    {
        (self.contains)(cell)
    }

    /// Whether any cell of the box is in the region. Its bounds are at most 2^42 away from 0. It
    /// takes no memory.
    pub fn may(&self, area: &CellBox) -> bool
        requires near { IsBoxWithin area.now }
        ensures value { result ≡ intersects_region self.now.region area.now }
        ensures exact { IsTrue result ↔ Intersects self.now.region area.now }
    {
        self.ask_box(area)
    }

    fn ask_box(&self, area: &CellBox) -> bool
        requires near { IsBoxWithin area.now }
        ensures { result ≡ intersects_region self.now.region area.now }
    {
        (self.may_touch)(area)
    }

    /// The region that it was made from.
    pub fn region(&self) -> &Region
        ensures { result.now ≡ self.now.region }
    {
        &self.region
    }
}
