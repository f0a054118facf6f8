ghost use Rattle.std.specs.Prelude.{◌≡◌, ◌+◌, ◌≤◌, IfOk, OnOk};
ghost use Rattle.question_shell.specs.Grammar.{AreAsked, IsTimeAsked, asks_of, laid_question, place_told};
ghost use Rattle.question_shell.specs.Lines.{words_of};
ghost use Rattle.question_shell.specs.RegionWords.{any_layout, layout_of};

use crate::bad::Bad;
use crate::layout::lay_shapes;
use crate::number_word::read_shape_count;
use crate::shape_reading::read_shapes;
use crate::shape_words::{cut_named, read_shape};
use crate::time::Time;
use crate::words::{cut_word, next_word};
use track_types::{Question, Region};

// Reads the rest of a line, a region, whose first word stands at that place of the line, into a
// question's place. It judges how the words are laid out before the time that was read, and the
// numbers after that.
#[inline(always)]
pub(crate) fn read_region(
    line: &[u8],
    place: u32,
    time: Result<Time, Bad>,
    question: &mut Question,
) -> Result<(), Bad>
    requires place { place ≤ 16 }
    requires time { IfOk time IsTimeAsked }
    ensures value { place_told result question.new
        ≡ laid_question (layout_of place (words_of line.now)) (asks_of time) place }
    ensures asked { OnOk result (AreAsked question.new) }
{
    let (name, after) = cut_word(line)?;
    if name == b"any".as_slice() {
        return read_any(after, place, time, question);
    }
    let (words, rest) = cut_named(name, after)?;
    let None = next_word(rest) else {
        return Err(Bad::Count);
    };
    let time = time?;
    let shape = read_shape(&words, place)?;
    time.ask(&Region::from(shape), question);
    Ok(())
}

// The same after the word `any`, which stands at that place.
fn read_any(
    line: &[u8],
    place: u32,
    time: Result<Time, Bad>,
    question: &mut Question,
) -> Result<(), Bad>
    requires place { place ≤ 16 }
    requires time { IfOk time IsTimeAsked }
    ensures value { place_told result question.new
        ≡ laid_question (any_layout (place + 1) (words_of line.now)) (asks_of time) place }
    ensures asked { OnOk result (AreAsked question.new) }
{
    let (count, shapes) = cut_word(line)?;
    let count = read_shape_count(count, place + 1)?;
    let layout = lay_shapes(count, shapes)?;
    let time = time?;
    let shapes = read_shapes(&layout.first, layout.more.as_slice(), place + 2)?;
    time.ask(&Region::Any { shapes }, question);
    Ok(())
}
