ghost use Rattle.std.specs.Prelude.{◌≡◌, ◌≢◌, ℕ, ◌≤◌, [], List, Err, OnOk, ◌⊎◌};
ghost use Rattle.step_count.specs.Reads.{AllMay, ReadsWithin};
ghost use Rattle.host_ports.specs.Faults.{Rose};
ghost use Rattle.host_ports.specs.Counting.{SinkCounts};
ghost use Rattle.question_shell.specs.Desk.{NeedsWithin, slot_needs};
ghost use Rattle.question_shell.specs.Grammar.{question_of};
ghost use Rattle.question_shell.specs.LineKept.{kept_of};
ghost use Rattle.question_shell.specs.Lines.{input_lines};
ghost use Rattle.question_shell.specs.Needs.{asked_needs, needs_after_line};
ghost use Rattle.question_shell.specs.Says.{voice};
ghost use Rattle.question_shell.specs.Session.{meaning_by};
ghost use Rattle.question_shell.specs.Turns.{Heard, AnswerTold, AnswersLines, Moment, AnswersBytes, Flushes};
ghost use Rattle.question_shell.specs.Turns.{moment};
ghost use Rattle.question_shell.specs.declared.turn_fault.TurnFault.TheVariants as fault;

use crate::answering::answer_question;
use crate::desk::Desk;
use crate::held_text::HeldText;
use crate::line_buffer::LineBuffer;
use crate::line_cut::cut_line;
use crate::reply::bad_line;
use crate::saying::answer_line;
use crate::turn_fault::TurnFault;
use host_ports::Sink;
use std::alloc::Global;
use step_count::{Reads, Steps};
use track_types::{Meets, Question};

/// The line that is coming, what the last one asked, and the text of replies that is held back.
#[derive(Drop)]
pub(crate) struct Talk {
    line: LineBuffer,
    // Each line's question is written here, since it is large and moving it would cost much.
    question: Question,
    text: HeldText,
}

impl Talk {
    pub(crate) fn new() -> Self
        ensures line { result.line ≡ kept_of [] }
        ensures text { result.text ≡ [] }
    {
        Talk {
            line: LineBuffer::new(),
            question: Question::Info,
            text: HeldText::new(),
        }
    }
}

// Answers one more piece of question input, and says all that was held back.
pub(crate) fn take_piece<A: Meets, K: Sink, L: Reads>(
    alloc: Global,
    answerer: A,
    talk: &mut Talk,
    piece: &[u8],
    desk: &mut Desk<A::Walk>,
    sink: &mut K,
    steps: &mut Steps<L>,
) -> Result<(), TurnFault>
    requires may { AllMay L.may }
    ensures told { AnswersBytes (meaning_by A.Answerer answerer)
        (moment (K.said sink.old) talk.old.text desk.old.view steps.old) talk.old.line piece.now
        (moment (K.said sink.new) [] desk.new.view steps.new) talk.new.line result }
    ensures said { OnOk result (talk.new.text ≡ []) }
    ensures faults { SinkCounts K.Sink sink.old sink.new (result ≡ Err fault.Say) }
{
    let answered = take_bytes(alloc, answerer, talk, piece, desk, sink, steps);
    say_rest(answered, &mut talk.text, sink)
}

// Answers more bytes of question input, line by line.
fn take_bytes<A: Meets, K: Sink, L: Reads>(
    alloc: Global,
    answerer: A,
    talk: &mut Talk,
    bytes: &[u8],
    desk: &mut Desk<A::Walk>,
    sink: &mut K,
    steps: &mut Steps<L>,
) -> Result<(), TurnFault>
    requires may { AllMay L.may }
    ensures told { AnswersBytes (meaning_by A.Answerer answerer)
        (moment (K.said sink.old) talk.old.text desk.old.view steps.old) talk.old.line bytes.now
        (moment (K.said sink.new) talk.new.text desk.new.view steps.new) talk.new.line result }
    ensures faults { SinkCounts K.Sink sink.old sink.new (result ≡ Err fault.Say) }
{
    let mut left = bytes;
    while let Some((line, after)) = cut_line(left) {
        talk.line.extend(line);
        take_line(alloc, answerer, talk, desk, sink, steps)?;
        left = after;
    }
    talk.line.extend(left);
    Ok(())
}

// Answers the line that has come, and begins another.
#[inline(always)]
fn take_line<A: Meets, K: Sink, L: Reads>(
    alloc: Global,
    answerer: A,
    talk: &mut Talk,
    desk: &mut Desk<A::Walk>,
    sink: &mut K,
    steps: &mut Steps<L>,
) -> Result<(), TurnFault>
    requires may { (line : List ℕ) → talk.old.line ≡ kept_of line →
        ReadsWithin (asked_needs (A.needs answerer) (slot_needs A.Walk.needs desk.old.walks)
        (question_of line)) L.may }
    ensures told { (line : List ℕ) → talk.old.line ≡ kept_of line →
        AnswerTold (meaning_by A.Answerer answerer)
        (moment (K.said sink.old) talk.old.text desk.old.view steps.old)
        (moment (K.said sink.new) talk.new.text desk.new.view steps.new) (question_of line) result }
    ensures line { talk.new.line ≡ kept_of [] }
    ensures faults { SinkCounts K.Sink sink.old sink.new (result ≡ Err fault.Say) }
    ensures needs { (line : List ℕ) → talk.old.line ≡ kept_of line →
        NeedsWithin A.Walk.needs desk.new.walks (needs_after_line (A.needs answerer)
        (slot_needs A.Walk.needs desk.old.walks) (question_of line)) }
{
    let read = talk.line.read(&mut talk.question);
    talk.line.clear();
    let text = &mut talk.text;
    match read {
        Ok(true) => answer_question(alloc, answerer, &talk.question, desk, text, sink, steps),
        Ok(false) => Ok(()),
        Err(bad) => answer_line(&bad_line(bad), text, sink),
    }
}

// Answers a last line that no line feed ends, and says all that was held back.
pub(crate) fn take_end<A: Meets, K: Sink, L: Reads>(
    alloc: Global,
    answerer: A,
    talk: &mut Talk,
    desk: &mut Desk<A::Walk>,
    sink: &mut K,
    steps: &mut Steps<L>,
) -> Result<(), TurnFault>
    requires may { AllMay L.may }
    ensures told { (start : Moment) (came : List ℕ) →
        let meaning = meaning_by A.Answerer answerer in
        let now = moment (K.said sink.new) [] desk.new.view steps.new in
        Heard meaning start (moment (K.said sink.old) talk.old.text desk.old.view steps.old)
        came talk.old.line →
        AnswersLines meaning start now (input_lines came) result }
    ensures faults { SinkCounts K.Sink sink.old sink.new (result ≡ Err fault.Say) }
{
    let answered = take_line(alloc, answerer, talk, desk, sink, steps);
    say_rest(answered, &mut talk.text, sink)
}

// Says what is held back after an answer, unless the sink failed, and passes on how that went.
fn say_rest<K: Sink>(
    answered: Result<(), TurnFault>,
    text: &mut HeldText,
    sink: &mut K,
) -> Result<(), TurnFault>
    ensures told { Flushes (voice (K.said sink.old) text.old) (K.said sink.new) answered result }
    ensures said { OnOk result (text.new ≡ []) }
    ensures passed { answered ≡ Err fault.Say → result ≡ Err fault.Say }
    ensures cause { result ≡ Err fault.Say →
        ((answered ≡ Err fault.Say) × (K.faults sink.new ≡ K.faults sink.old))
        ⊎ Rose (K.faults sink.old) (K.faults sink.new) }
    ensures untouched { result ≢ Err fault.Say → K.faults sink.new ≡ K.faults sink.old }
    ensures faults { K.faults sink.old ≤ K.faults sink.new }
{
    match answered {
        Err(TurnFault::Say) => {}
        Ok(()) | Err(TurnFault::Memory) => text.say(sink)?,
    }
    answered
}
