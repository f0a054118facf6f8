ghost use Rattle.std.specs.Prelude.{◌≡◌, ◌≤◌, ◌∷◌, All, IfOk, length, map};
ghost use Rattle.track_types.specs.Region.{IsShapeAsked};
ghost use Rattle.question_shell.specs.RegionWords.{shape_texts, shapes_of};

use crate::bad::Bad;
use crate::shape_words::{ShapeWords, read_shape};
use track_types::Shapes;

// Reads the numbers of shapes, where the name of the first stands at that place of the line.
pub(crate) fn read_shapes(
    first: &ShapeWords,
    more: &[ShapeWords],
    place: u32,
) -> Result<Shapes, Bad>
    requires few { length more.now ≤ 15 }
    requires short { place ≤ 18 }
    ensures value { result ≡ shapes_of place (shape_texts first.now ∷ map shape_texts more.now) }
    ensures asked { IfOk result (λ shapes. All IsShapeAsked shapes) }
{
    let mut shapes = Shapes::new(read_shape(first, place)?);
    let mut next = place + first.count();
    for words in more {
        shapes.add(read_shape(words, next)?);
        next += words.count();
    }
    Ok(shapes)
}
