ghost use Rattle.std.specs.Prelude.{◌≡◌, IfOk, IfSome, Ok, true};
ghost use Rattle.question_shell.specs.Grammar.{line_told, question_of};
ghost use Rattle.question_shell.specs.Kinds.{AreAsked};

use crate::bad::Bad;
use crate::form::{Form, read_form};
use crate::words::next_word;
use track_types::Question;

/// How many bytes a question line may have, without its line feed.
pub(crate) const LONGEST_LINE: usize = 1024;

/// Reads a question line, without its line feed. It answers `Ok(None)` if and only if the line has
/// no word, however long it is, and else what it asks, or the first thing that is wrong with it.
/// Only a desk knows whether a slot is held or empty, so that is not judged here.
pub fn read_question(line: &[u8]) -> Result<Option<Question>, Bad>
    ensures value { result ≡ question_of line.now }
    ensures asked { IfOk result (λ asked. IfSome asked AreAsked) }
{
    let mut question = Question::Info;
    if read_line(line, &mut question)? {
        Ok(Some(question))
    } else {
        Ok(None)
    }
}

// Reads a line into the place of a question. Whether it has a word, so that its question is there.
pub(crate) fn read_line(line: &[u8], question: &mut Question) -> Result<bool, Bad>
    ensures value { line_told result question.new ≡ question_of line.now }
    ensures asked { result ≡ Ok true → AreAsked question.new }
{
    let Some((first, rest)) = next_word(line) else {
        return Ok(false);
    };
    if line.len() > LONGEST_LINE {
        return Err(Bad::Long);
    }
    let form = Form::named(first)?;
    read_form(form, rest, question)?;
    Ok(true)
}
