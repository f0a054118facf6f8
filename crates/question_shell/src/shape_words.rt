ghost use Rattle.std.specs.Prelude.{◌≡◌, ◌≤◌, ◌∷◌, Ok, Err, IfOk, IfErr};
ghost use Rattle.track_types.specs.Region.{IsShapeAsked};
ghost use Rattle.question_shell.specs.Lines.{words_of};
ghost use Rattle.question_shell.specs.RegionWords.{disc_form, form_cut, rect_form, shape_cut};
ghost use Rattle.question_shell.specs.RegionWords.{shape_of, shape_size, shape_texts};

use crate::bad::Bad;
use crate::number_word::{read_place, read_radius};
use crate::words::cut_word;
use track_types::Shape;

/// The words of a shape, after its name.
#[derive(Drop)]
pub enum ShapeWords<'a> {
    /// `rect X1 Y1 X2 Y2`
    Rect {
        x1: &'a [u8],
        y1: &'a [u8],
        x2: &'a [u8],
        y2: &'a [u8],
    },
    /// `disc X Y R`
    Disc {
        x: &'a [u8],
        y: &'a [u8],
        r: &'a [u8],
    },
}

impl<'a> Default for ShapeWords<'a> {
    // Empty words, which stand in the unused places of a list.
    fn default() -> Self {
        ShapeWords::Disc {
            x: Default::default(),
            y: Default::default(),
            r: Default::default(),
        }
    }
}

impl<'a> ShapeWords<'a> {
    // How many words it has, its name among them.
    pub(crate) fn count(&self) -> u32
        ensures value { result ≡ shape_size (shape_texts self.now) }
        ensures few { result ≤ 5 }
    {
        match self {
            ShapeWords::Rect { .. } => 5,
            ShapeWords::Disc { .. } => 4,
        }
    }
}

// Cuts the first shape off a line, and gives what comes after it.
pub(crate) fn cut_shape(line: &[u8]) -> Result<(ShapeWords<'_>, &[u8]), Bad>
    ensures ok { IfOk result (λ cut. shape_cut (words_of line.now) ≡ Ok (shape_texts cut.0, words_of cut.1.now)) }
    ensures err { IfErr result (λ bad. shape_cut (words_of line.now) ≡ Err bad) }
{
    let (name, numbers) = cut_word(line)?;
    cut_named(name, numbers)
}

// The same after the name of the shape.
pub(crate) fn cut_named<'a>(name: &[u8], line: &'a [u8]) -> Result<(ShapeWords<'a>, &'a [u8]), Bad>
    ensures ok { IfOk result (λ cut. shape_cut (name.now ∷ words_of line.now)
        ≡ Ok (shape_texts cut.0, words_of cut.1.now)) }
    ensures err { IfErr result (λ bad. shape_cut (name.now ∷ words_of line.now) ≡ Err bad) }
{
    if name == b"rect".as_slice() {
        cut_rect(line)
    } else if name == b"disc".as_slice() {
        cut_disc(line)
    } else {
        Err(Bad::Word)
    }
}

fn cut_rect(line: &[u8]) -> Result<(ShapeWords<'_>, &[u8]), Bad>
    ensures ok { IfOk result (λ cut. form_cut rect_form (words_of line.now)
        ≡ Ok (shape_texts cut.0, words_of cut.1.now)) }
    ensures err { IfErr result (λ bad. form_cut rect_form (words_of line.now) ≡ Err bad) }
{
    let (x1, line) = cut_word(line)?;
    let (y1, line) = cut_word(line)?;
    let (x2, line) = cut_word(line)?;
    let (y2, line) = cut_word(line)?;
    Ok((ShapeWords::Rect { x1, y1, x2, y2 }, line))
}

fn cut_disc(line: &[u8]) -> Result<(ShapeWords<'_>, &[u8]), Bad>
    ensures ok { IfOk result (λ cut. form_cut disc_form (words_of line.now)
        ≡ Ok (shape_texts cut.0, words_of cut.1.now)) }
    ensures err { IfErr result (λ bad. form_cut disc_form (words_of line.now) ≡ Err bad) }
{
    let (x, line) = cut_word(line)?;
    let (y, line) = cut_word(line)?;
    let (r, line) = cut_word(line)?;
    Ok((ShapeWords::Disc { x, y, r }, line))
}

// Reads the numbers of a shape, whose name stands at that place of the line.
pub(crate) fn read_shape(words: &ShapeWords, place: u32) -> Result<Shape, Bad>
    requires short { place ≤ 1024 }
    ensures value { result ≡ shape_of place (shape_texts words.now) }
    ensures asked { IfOk result IsShapeAsked }
{
    match words {
        ShapeWords::Rect { x1, y1, x2, y2 } => {
            let x1 = read_place(x1, place + 1)?;
            let y1 = read_place(y1, place + 2)?;
            let x2 = read_place(x2, place + 3)?;
            let y2 = read_place(y2, place + 4)?;
            Ok(Shape::Rect { x1, y1, x2, y2 })
        }
        ShapeWords::Disc { x, y, r } => {
            let x = read_place(x, place + 1)?;
            let y = read_place(y, place + 2)?;
            let r = read_radius(r, place + 3)?;
            Ok(Shape::Disc { x, y, r })
        }
    }
}
