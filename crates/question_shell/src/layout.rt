ghost use Rattle.std.specs.Prelude.{◌≡◌, ◌≤◌, Ok, Err, IfOk, IfErr};
ghost use Rattle.question_shell.specs.Lines.{words_of};
ghost use Rattle.question_shell.specs.RegionWords.{layout_texts, shapes_cut};

use crate::bad::Bad;
use crate::shape_words::{ShapeWords, cut_shape};
use crate::words::next_word;
use arrayvec::ArrayVec;

/// The words of the shapes after `any N`, 1 to 16, as they are laid out.
#[derive(Drop)]
pub struct Layout<'a> {
    pub first: ShapeWords<'a>,
    pub more: ArrayVec<ShapeWords<'a>, 15>,
}

// Lays out the words of so many shapes, after which no word comes.
pub(crate) fn lay_shapes(count: u32, line: &[u8]) -> Result<Layout<'_>, Bad>
    requires some { 1 ≤ count }
    requires few { count ≤ 16 }
    ensures ok { IfOk result (λ layout. shapes_cut count (words_of line.now) ≡ Ok (layout_texts layout)) }
    ensures err { IfErr result (λ bad. shapes_cut count (words_of line.now) ≡ Err bad) }
{
    let (first, mut left) = cut_shape(line)?;
    let mut more = ArrayVec::new();
    for _ in 1..count {
        let (shape, after) = cut_shape(left)?;
        more.push(shape);
        left = after;
    }
    let None = next_word(left) else {
        return Err(Bad::Count);
    };
    Ok(Layout { first, more })
}
