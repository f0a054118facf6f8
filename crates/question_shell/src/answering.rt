ghost use Rattle.std.specs.Prelude.{◌≡◌, ◌≢◌, ◌≤◌, [], Some, Ok, Err};
ghost use Rattle.step_count.specs.Reads.{ReadsWithin};
ghost use Rattle.host_ports.specs.Faults.{Rose};
ghost use Rattle.host_ports.specs.Counting.{SinkCounts};
ghost use Rattle.question_shell.specs.Desk.{NeedsWithin, slot_needs};
ghost use Rattle.question_shell.specs.Kinds.{AreAsked};
ghost use Rattle.question_shell.specs.Needs.{needs_after, question_needs};
ghost use Rattle.question_shell.specs.Session.{meaning_by};
ghost use Rattle.question_shell.specs.Turns.{AnswerTold, moment};
ghost use Rattle.question_shell.specs.declared.turn_fault.TurnFault.TheVariants as fault;

use crate::asking::ask;
use crate::desk::Desk;
use crate::held_text::HeldText;
use crate::saying::say_answer;
use crate::turn_fault::TurnFault;
use host_ports::Sink;
use std::alloc::Global;
use step_count::{Reads, Steps};
use track_types::{Meets, Question};

/// Says the reply to a question, as `run` does for its line.
///
/// `Say` comes only where the sink failed, and then a front of the reply was said. At `Memory`
/// nothing was said, and the desk is as it was. The count of faults is as it was, unless the answer
/// is `Say`.
pub fn say_reply<A: Meets, K: Sink, L: Reads>(
    alloc: Global,
    answerer: A,
    question: Question,
    desk: &mut Desk<A::Walk>,
    sink: &mut K,
    steps: &mut Steps<L>,
) -> Result<(), TurnFault>
    requires asked { AreAsked question }
    requires may { ReadsWithin (question_needs (A.needs answerer)
        (slot_needs A.Walk.needs desk.old.walks) question) L.may }
    ensures told { AnswerTold (meaning_by A.Answerer answerer)
        (moment (K.said sink.old) [] desk.old.view steps.old)
        (moment (K.said sink.new) [] desk.new.view steps.new) (Ok (Some question)) result }
    ensures cause { result ≡ Err fault.Say → Rose (K.faults sink.old) (K.faults sink.new) }
    ensures untouched { result ≢ Err fault.Say → K.faults sink.new ≡ K.faults sink.old }
    ensures faults { K.faults sink.old ≤ K.faults sink.new }
    ensures needs { NeedsWithin A.Walk.needs desk.new.walks (needs_after (A.needs answerer)
        (slot_needs A.Walk.needs desk.old.walks) question) }
{
    let mut text = HeldText::new();
    answer_question(alloc, answerer, &question, desk, &mut text, sink, steps)?;
    Ok(text.say(sink)?)
}

// Answers a question. Walks and lists take memory, and are made before anything is said.
pub(crate) fn answer_question<A: Meets, K: Sink, L: Reads>(
    alloc: Global,
    answerer: A,
    question: &Question,
    desk: &mut Desk<A::Walk>,
    text: &mut HeldText,
    sink: &mut K,
    steps: &mut Steps<L>,
) -> Result<(), TurnFault>
    requires asked { AreAsked question.now }
    requires may { ReadsWithin (question_needs (A.needs answerer)
        (slot_needs A.Walk.needs desk.old.walks) question.now) L.may }
    ensures told { AnswerTold (meaning_by A.Answerer answerer)
        (moment (K.said sink.old) text.old desk.old.view steps.old)
        (moment (K.said sink.new) text.new desk.new.view steps.new)
        (Ok (Some question.now)) result }
    ensures faults { SinkCounts K.Sink sink.old sink.new (result ≡ Err fault.Say) }
    ensures needs { NeedsWithin A.Walk.needs desk.new.walks (needs_after (A.needs answerer)
        (slot_needs A.Walk.needs desk.old.walks) question.now) }
{
    let mut answer = ask(alloc, answerer, question, desk, steps)?;
    Ok(say_answer(&mut answer, desk, text, sink, steps)?)
}
