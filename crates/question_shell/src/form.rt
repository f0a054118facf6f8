ghost use Rattle.std.specs.Prelude.{◌≡◌, OnOk};
ghost use Rattle.question_shell.specs.Grammar.{place_told};
ghost use Rattle.question_shell.specs.Kinds.{AreAsked, form_of, form_question};
ghost use Rattle.question_shell.specs.Lines.{words_of};
ghost use Rattle.question_shell.specs.declared.form.Form.TheVariants as form;

use crate::bad::Bad;
use crate::number_word::{read_object, read_place, read_radius, read_slot};
use crate::region_reading::read_region;
use crate::time::{read_instant, read_window};
use crate::words::{cut_word, next_word};
use track_types::{Cell, Question};

/// A form of question, by its first word.
#[derive(Clone, Copy, Debug, PartialEq, Eq)]
pub enum Form {
    /// `position O T`
    Position,
    /// `path O T1 T2`
    Path,
    /// `slice T REGION`
    Slice,
    /// `interval T1 T2 REGION`
    Interval,
    /// `nearest K T X Y`
    Nearest,
    /// `meet A B T1 T2 D`
    Meet,
    /// `info`
    Info,
    /// `hold S O T1 T2`
    Hold,
    /// `more S N`
    More,
    /// `free S`
    Free,
}

impl Form {
    // The form of a line with this first word.
    pub(crate) fn named(word: &[u8]) -> Result<Form, Bad>
        ensures { result ≡ form_of word.now }
    {
        if word == b"position".as_slice() {
            Ok(Form::Position)
        } else if word == b"path".as_slice() {
            Ok(Form::Path)
        } else if word == b"slice".as_slice() {
            Ok(Form::Slice)
        } else if word == b"interval".as_slice() {
            Ok(Form::Interval)
        } else if word == b"nearest".as_slice() {
            Ok(Form::Nearest)
        } else if word == b"meet".as_slice() {
            Ok(Form::Meet)
        } else if word == b"info".as_slice() {
            Ok(Form::Info)
        } else if word == b"hold".as_slice() {
            Ok(Form::Hold)
        } else if word == b"more".as_slice() {
            Ok(Form::More)
        } else if word == b"free".as_slice() {
            Ok(Form::Free)
        } else {
            Err(Bad::Word)
        }
    }
}

// Reads the rest of a line, after its first word, which names that form, into the place of a
// question. A question has room for 16 shapes, so passing it from call to call would cost much.
pub(crate) fn read_form(form: Form, line: &[u8], question: &mut Question) -> Result<(), Bad>
    ensures value { place_told result question.new ≡ form_question form (words_of line.now) }
    ensures asked { OnOk result (AreAsked question.new) }
{
    match form {
        Form::Position => read_position(line, question),
        Form::Path => read_path(line, question),
        Form::Slice => read_slice(line, question),
        Form::Interval => read_interval(line, question),
        Form::Nearest => read_nearest(line, question),
        Form::Meet => read_meet(line, question),
        Form::Info => read_info(line, question),
        Form::Hold => read_hold(line, question),
        Form::More => read_more(line, question),
        Form::Free => read_free(line, question),
    }
}

fn read_position(line: &[u8], question: &mut Question) -> Result<(), Bad>
    ensures value { place_told result question.new ≡ form_question form.Position (words_of line.now) }
    ensures asked { OnOk result (AreAsked question.new) }
{
    let (object, line) = cut_word(line)?;
    let (instant, line) = cut_word(line)?;
    let None = next_word(line) else {
        return Err(Bad::Count);
    };
    let object = read_object(object, 2)?;
    let instant = read_place(instant, 3)?;
    *question = Question::Position { object, instant };
    Ok(())
}

fn read_path(line: &[u8], question: &mut Question) -> Result<(), Bad>
    ensures value { place_told result question.new ≡ form_question form.Path (words_of line.now) }
    ensures asked { OnOk result (AreAsked question.new) }
{
    let (object, line) = cut_word(line)?;
    let (from, line) = cut_word(line)?;
    let (to, line) = cut_word(line)?;
    let None = next_word(line) else {
        return Err(Bad::Count);
    };
    let object = read_object(object, 2)?;
    let from = read_place(from, 3)?;
    let to = read_place(to, 4)?;
    *question = Question::Path { object, from, to };
    Ok(())
}

fn read_slice(line: &[u8], question: &mut Question) -> Result<(), Bad>
    ensures value { place_told result question.new ≡ form_question form.Slice (words_of line.now) }
    ensures asked { OnOk result (AreAsked question.new) }
{
    let (instant, region) = cut_word(line)?;
    read_region(region, 3, read_instant(instant), question)
}

fn read_interval(line: &[u8], question: &mut Question) -> Result<(), Bad>
    ensures value { place_told result question.new ≡ form_question form.Interval (words_of line.now) }
    ensures asked { OnOk result (AreAsked question.new) }
{
    let (from, line) = cut_word(line)?;
    let (to, region) = cut_word(line)?;
    read_region(region, 4, read_window(from, to), question)
}

fn read_nearest(line: &[u8], question: &mut Question) -> Result<(), Bad>
    ensures value { place_told result question.new ≡ form_question form.Nearest (words_of line.now) }
    ensures asked { OnOk result (AreAsked question.new) }
{
    let (count, line) = cut_word(line)?;
    let (instant, line) = cut_word(line)?;
    let (x, line) = cut_word(line)?;
    let (y, line) = cut_word(line)?;
    let None = next_word(line) else {
        return Err(Bad::Count);
    };
    let count = read_object(count, 2)?;
    let instant = read_place(instant, 3)?;
    let x = read_place(x, 4)?;
    let y = read_place(y, 5)?;
    *question = Question::Nearest {
        count,
        instant,
        cell: Cell { x, y },
    };
    Ok(())
}

fn read_meet(line: &[u8], question: &mut Question) -> Result<(), Bad>
    ensures value { place_told result question.new ≡ form_question form.Meet (words_of line.now) }
    ensures asked { OnOk result (AreAsked question.new) }
{
    let (left, line) = cut_word(line)?;
    let (right, line) = cut_word(line)?;
    let (from, line) = cut_word(line)?;
    let (to, line) = cut_word(line)?;
    let (reach, line) = cut_word(line)?;
    let None = next_word(line) else {
        return Err(Bad::Count);
    };
    let left = read_object(left, 2)?;
    let right = read_object(right, 3)?;
    let from = read_place(from, 4)?;
    let to = read_place(to, 5)?;
    let reach = read_radius(reach, 6)?;
    *question = Question::Meet {
        left,
        right,
        from,
        to,
        reach,
    };
    Ok(())
}

fn read_info(line: &[u8], question: &mut Question) -> Result<(), Bad>
    ensures value { place_told result question.new ≡ form_question form.Info (words_of line.now) }
    ensures asked { OnOk result (AreAsked question.new) }
{
    let None = next_word(line) else {
        return Err(Bad::Count);
    };
    *question = Question::Info;
    Ok(())
}

fn read_hold(line: &[u8], question: &mut Question) -> Result<(), Bad>
    ensures value { place_told result question.new ≡ form_question form.Hold (words_of line.now) }
    ensures asked { OnOk result (AreAsked question.new) }
{
    let (slot, line) = cut_word(line)?;
    let (object, line) = cut_word(line)?;
    let (from, line) = cut_word(line)?;
    let (to, line) = cut_word(line)?;
    let None = next_word(line) else {
        return Err(Bad::Count);
    };
    let slot = read_slot(slot, 2)?;
    let object = read_object(object, 3)?;
    let from = read_place(from, 4)?;
    let to = read_place(to, 5)?;
    *question = Question::Hold {
        slot,
        object,
        from,
        to,
    };
    Ok(())
}

fn read_more(line: &[u8], question: &mut Question) -> Result<(), Bad>
    ensures value { place_told result question.new ≡ form_question form.More (words_of line.now) }
    ensures asked { OnOk result (AreAsked question.new) }
{
    let (slot, line) = cut_word(line)?;
    let (count, line) = cut_word(line)?;
    let None = next_word(line) else {
        return Err(Bad::Count);
    };
    let slot = read_slot(slot, 2)?;
    let count = read_object(count, 3)?;
    *question = Question::More { slot, count };
    Ok(())
}

fn read_free(line: &[u8], question: &mut Question) -> Result<(), Bad>
    ensures value { place_told result question.new ≡ form_question form.Free (words_of line.now) }
    ensures asked { OnOk result (AreAsked question.new) }
{
    let (slot, line) = cut_word(line)?;
    let None = next_word(line) else {
        return Err(Bad::Count);
    };
    let slot = read_slot(slot, 2)?;
    *question = Question::Free { slot };
    Ok(())
}
