ghost use Rattle.std.specs.Prelude.{true, is_err, ◌≡◌, ◌+◌, ◌≤◌, All, Err, OnOk, OnErr};
ghost use Rattle.step_count.specs.Reads.{AllMay};
ghost use Rattle.host_ports.specs.Histories.{Gains};
ghost use Rattle.std.specs.List.{sum_by};
ghost use Rattle.host_ports.specs.Counting.{SinkCounts};
ghost use Rattle.question_shell.specs.Desk.{budget_of, empty_desk, held_of};
ghost use Rattle.question_shell.specs.Reply.{ok_line};
ghost use Rattle.question_shell.specs.declared.turn_fault.TurnFault.TheVariants as fault;
ghost use Rattle.gract_top.specs.Sampling.{SaysFront};
ghost use Rattle.gract_top.specs.Summary.{IsSlotless, counts_of, summary_cost, summary_of};

use crate::counting::counted_questions;
use arrayvec::ArrayString;
use host_ports::{Cut, Sink};
use itoa::Buffer;
use question_shell::{Desk, TurnFault, count_found, say_reply};
use std::alloc::Global;
use step_count::{Reads, Steps};
use track_types::{Meets, Question};

// Says the summary of a sample of so many instants: all of the reply to `info`, and of the other
// replies the last lines.
pub(crate) fn say_summary<A: Meets, K: Sink, L: Reads>(
    alloc: Global,
    answerer: A,
    instants: u32,
    sink: &mut K,
    steps: &mut Steps<L>,
) -> Result<(), TurnFault>
    requires known { 1 ≤ instants }
    requires may { AllMay L.may }
    ensures ok { OnOk result (Gains (K.said sink.old) (K.said sink.new)
        (summary_of (A.chart answerer) (A.facts answerer) instants)) }
    ensures err { OnErr result (SaysFront (K.said sink.old) (K.said sink.new)
        (summary_of (A.chart answerer) (A.facts answerer) instants)) }
    ensures cost { steps.new ≤ steps.old + summary_cost (A.cost answerer) instants }
    ensures faults { SinkCounts K.Sink sink.old sink.new (result ≡ Err fault.Say) }
{
    let Ok(mut desk) = Desk::new(alloc) else {
        return Err(TurnFault::Memory);
    };
    say_reply(alloc, answerer, Question::Info, &mut desk, sink, steps)?;
    let questions = counted_questions(instants);
    say_counts(alloc, answerer, &questions, &mut desk, sink, steps)
}

// Says the last line of the reply to each question.
fn say_counts<A: Meets, K: Sink, L: Reads>(
    alloc: Global,
    answerer: A,
    questions: &[Question],
    desk: &mut Desk<A::Walk>,
    sink: &mut K,
    steps: &mut Steps<L>,
) -> Result<(), TurnFault>
    requires counted { All IsSlotless questions.now }
    requires empty { held_of desk.old.view ≡ held_of empty_desk }
    requires may { AllMay L.may }
    ensures ok { OnOk result (Gains (K.said sink.old) (K.said sink.new)
        (counts_of (A.chart answerer) (A.facts answerer) questions.now)) }
    ensures err { OnErr result (SaysFront (K.said sink.old) (K.said sink.new)
        (counts_of (A.chart answerer) (A.facts answerer) questions.now)) }
    ensures cost { steps.new + budget_of desk.new.view
        ≤ steps.old + budget_of desk.old.view + sum_by (A.cost answerer) questions.now }
    ensures faults { SinkCounts K.Sink sink.old sink.new (result ≡ Err fault.Say) }
{
    for question in questions {
        let Ok(count) = count_found(alloc, answerer, *question, desk, steps) else {
            return Err(TurnFault::Memory);
        };
        let Ok(()) = say_count(count, sink) else {
            return Err(TurnFault::Say);
        };
    }
    Ok(())
}

// Says the last line of a reply that has so many lines before it.
fn say_count<K: Sink>(count: u64, sink: &mut K) -> Result<(), Cut>
    ensures ok { OnOk result (Gains (K.said sink.old) (K.said sink.new) (ok_line count)) }
    ensures err { OnErr result (SaysFront (K.said sink.old) (K.said sink.new) (ok_line count)) }
    ensures faults { SinkCounts K.Sink sink.old sink.new (is_err result ≡ true) }
{
    sink.say(ok_line(count).as_bytes())
}

// ok N
fn ok_line(count: u64) -> ArrayString<24>
    ensures { result.bytes ≡ ok_line count }
{
    let mut line = ArrayString::new();
    line.push_str("ok ");
    line.push_str(Buffer::new().format(count));
    line.push_str("\n");
    line
}
