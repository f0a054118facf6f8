ghost use Rattle.std.specs.Prelude.{◌≡◌, ◌<◌, ◌≤◌, ◌∷◌, [], ◌++◌, Some, length, slice_get};

use crate::shape::Shape;
use std::marker::Model;

// What stands in a place that no shape has.
const NO_SHAPE: Shape = Shape::Rect {
    x1: 0,
    y1: 0,
    x2: 0,
    y2: 0,
};

/// A list of 1 to 16 shapes, which takes no memory. Lists of the same shapes are equal.
#[derive(Clone, Copy, Debug, PartialEq, Eq)]
pub struct Shapes {
    // Places that no shape has hold `rect 0 0 0 0`.
    places: [Shape; 16],
    count: u32,
}

impl Model for Shapes {
    ghost use Rattle.std.specs.Prelude.{List, length, take};
    ghost use Rattle.track_types.specs.declared.shape.Shape.{Shape as ShapeView};

    ghost Value = { List ShapeView };

    ghost use Rattle.track_types.specs.Shapes.{AreShapes, filled, filled-inside};

    ghost view = { λ s. take s.count s.places };

    ghost invariant = { λ s. AreShapes s.places s.count };

    ghost inverse = { λ shapes. record { places = filled shapes; count = length shapes } };

    ghost inverse_ok = { filled-inside };
}

impl Shapes {
    /// One shape.
    pub fn new(first: Shape) -> Shapes
        ensures { result ≡ first ∷ [] }
    {
        let mut places = [NO_SHAPE; 16];
        places[0] = first;
        Shapes { places, count: 1 }
    }

    /// Adds a shape after the others, which are fewer than 16.
    pub fn add(&mut self, shape: Shape)
        requires { length self.old < 16 }
        ensures { self.new ≡ self.old ++ shape ∷ [] }
    {
        self.places[self.count as usize] = shape;
        self.count += 1;
    }

    /// How many shapes there are, 1 to 16.
    pub fn len(&self) -> u32
        ensures value { result ≡ length self.now }
        ensures some { 1 ≤ result }
        ensures few { result ≤ 16 }
    {
        self.count
    }

    /// The shape at a place below their number, counted from 0.
    pub fn at(&self, place: u32) -> Shape
        requires { place < length self.now }
        ensures { slice_get self.now place ≡ Some result }
    {
        self.places[place as usize]
    }

    // The shapes.
    pub(crate) fn as_slice(&self) -> &[Shape]
        ensures value { result.now ≡ self.now }
        ensures some { 1 ≤ length result.now }
    {
        &self.places[..self.count as usize]
    }
}
