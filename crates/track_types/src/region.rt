ghost use Rattle.std.specs.Prelude.{◌≡◌, ◌↔◌, All, IsTrue};
ghost use Rattle.std.specs.List.{list_any};
ghost use Rattle.track_types.specs.Near.{IsBoxWithin, IsCellWithin};
ghost use Rattle.track_types.specs.Region.{AreAll, IsRegionWithin, IsShapeWithin, Intersects, OneShape};
ghost use Rattle.track_types.specs.Region.{borrowed_shapes, in_region, in_shape, intersects_region};
ghost use Rattle.track_types.specs.Region.{intersects_shape, region_one, region_shapes};

use crate::cell::Cell;
use crate::cell_box::CellBox;
use crate::shape::Shape;
use crate::shapes::Shapes;

/// A set of cells about which searches ask.
#[derive(Clone, Copy, Debug, PartialEq, Eq)]
pub enum Region {
    /// The cells of the columns `x1` to `x2` and the lines `y1` to `y2`, all ends counted. None where
    /// `x1 > x2` or `y1 > y2`.
    Rect { x1: i64, y1: i64, x2: i64, y2: i64 },
    /// The cells whose squared distance from (x, y) is at most `r * r`.
    Disc { x: i64, y: i64, r: u64 },
    /// The cells of any of these shapes.
    Any { shapes: Shapes },
}

impl Region {
    /// Whether a cell is in the region. All coordinates are at most `MAX_REACH` away from 0, and
    /// so are radii. It takes no memory.
    pub fn contains(&self, cell: Cell) -> bool
        requires region { IsRegionWithin self.now }
        requires near { IsCellWithin cell }
        ensures { result ≡ in_region self.now cell }
    {
        match self.shapes() {
            ShapesRef::One(shape) => shape.contains(cell),
            ShapesRef::Any(shapes) => any_contains(shapes, cell),
        }
    }

    /// Whether any cell of the box is in the region. Elsewhere this is called "intersects", and
    /// "touches" is said of borders alone. All coordinates are at most `MAX_REACH` away from 0, and
    /// so are radii. It takes no memory.
    pub fn touches(&self, area: &CellBox) -> bool
        requires region { IsRegionWithin self.now }
        requires near { IsBoxWithin area.now }
        ensures value { result ≡ intersects_region self.now area.now }
        ensures exact { IsTrue result ↔ Intersects self.now area.now }
    {
        self.intersects(area)
    }

    fn intersects(&self, area: &CellBox) -> bool
        requires region { IsRegionWithin self.now }
        requires near { IsBoxWithin area.now }
        ensures { result ≡ intersects_region self.now area.now }
    {
        match self.shapes() {
            ShapesRef::One(shape) => shape.intersects(area),
            ShapesRef::Any(shapes) => any_intersects(shapes, area),
        }
    }

    // What it is made of. It is inlined, so that no shape is copied.
    #[inline(always)]
    fn shapes(&self) -> ShapesRef<'_>
        requires { IsRegionWithin self.now }
        ensures value { borrowed_shapes result ≡ region_shapes self.now }
        ensures within { AreAll IsShapeWithin (borrowed_shapes result) }
    {
        match *self {
            Region::Rect { x1, y1, x2, y2 } => ShapesRef::One(Shape::Rect { x1, y1, x2, y2 }),
            Region::Disc { x, y, r } => ShapesRef::One(Shape::Disc { x, y, r }),
            Region::Any { ref shapes } => ShapesRef::Any(shapes.as_slice()),
        }
    }
}

/// The region of one shape.
impl From<Shape> for Region {
    ghost from_gives = { λ shape region.
        (region ≡ region_one shape) × (region_shapes region ≡ OneShape shape) };

    fn from(shape: Shape) -> Self {
        match shape {
            Shape::Rect { x1, y1, x2, y2 } => Region::Rect { x1, y1, x2, y2 },
            Shape::Disc { x, y, r } => Region::Disc { x, y, r },
        }
    }
}

/// What a region is made of.
#[derive(Clone, Copy)]
pub enum ShapesRef<'a> {
    /// One shape.
    One(Shape),
    /// Shapes in any of which its cells are.
    Any(&'a [Shape]),
}

// Whether a cell is in some of the shapes.
fn any_contains(shapes: &[Shape], cell: Cell) -> bool
    requires shapes { All IsShapeWithin shapes.now }
    requires near { IsCellWithin cell }
    ensures { result ≡ list_any (λ shape. in_shape shape cell) shapes.now }
{
    for shape in shapes {
        if shape.contains(cell) {
            return true;
        }
    }
    false
}

// Whether a cell of the box is in some of the shapes.
fn any_intersects(shapes: &[Shape], area: &CellBox) -> bool
    requires shapes { All IsShapeWithin shapes.now }
    requires near { IsBoxWithin area.now }
    ensures { result ≡ list_any (λ shape. intersects_shape shape area.now) shapes.now }
{
    for shape in shapes {
        if shape.intersects(area) {
            return true;
        }
    }
    false
}
