ghost use Rattle.std.specs.Prelude.{true, is_err, ◌≡◌, ◌+◌, ◌<◌, ◌^◌, ◌≤◌, Err, None, OnOk, length, map};
ghost use Rattle.step_count.specs.Reads.{ReadsWithin};
ghost use Rattle.host_ports.specs.Counting.{SinkCounts};
ghost use Rattle.question_shell.specs.Desk.{NeedsNoMore, budget_of, held_of};
ghost use Rattle.question_shell.specs.Drawing.{IsOfDesk, desk_left, needs_left};
ghost use Rattle.question_shell.specs.Items.{items_left};
ghost use Rattle.question_shell.specs.Drawing.{reads_left, refusal_left};
ghost use Rattle.question_shell.specs.Reply.{listed};
ghost use Rattle.question_shell.specs.Says.{Puts, voice};
ghost use Rattle.question_shell.specs.Turns.{LineTold};
ghost use Rattle.question_shell.specs.declared.item.Item.TheVariants as item;
ghost use Rattle.question_shell.specs.declared.turn_fault.TurnFault.TheVariants as fault;

use crate::answer::Answer;
use crate::desk::Desk;
use crate::held_text::HeldText;
use crate::item::Item;
use crate::reply::ok_line;
use crate::reply_line::ReplyLine;
use crate::turn_fault::TurnFault;
use host_ports::{Cut, Sink};
use step_count::{Reads, Steps};
use track_types::{Lazy, Stop};

// Answers by one line.
pub(crate) fn answer_line<K: Sink>(
    line: &ReplyLine,
    text: &mut HeldText,
    sink: &mut K,
) -> Result<(), TurnFault>
    ensures told { LineTold (voice (K.said sink.old) text.old)
        (voice (K.said sink.new) text.new) line.now result }
    ensures faults { SinkCounts K.Sink sink.old sink.new (result ≡ Err fault.Say) }
{
    Ok(text.put(line, sink)?)
}

// Says an answer: a line for each item, as it is drawn, and then the last line.
pub(crate) fn say_answer<W: Lazy<Item = Stop> + Drop, K: Sink, L: Reads>(
    answer: &mut Answer<W>,
    desk: &mut Desk<W>,
    text: &mut HeldText,
    sink: &mut K,
    steps: &mut Steps<L>,
) -> Result<(), Cut>
    requires slot { IsOfDesk answer.old }
    requires few { length (items_left W.left answer.old desk.old.view) < 2 ^ 64 }
    requires may { ReadsWithin (needs_left W.needs answer.old desk.old.walks) L.may }
    ensures told { Puts (voice (K.said sink.old) text.old) (voice (K.said sink.new) text.new)
        (listed (items_left W.left answer.old desk.old.view)
        (refusal_left answer.old)) result }
    ensures desk { OnOk result (
        held_of desk.new.view ≡ desk_left W.left W.budget answer.old desk.old.view) }
    ensures reads { steps.new + budget_of desk.new.view
        ≤ steps.old + reads_left W.left W.budget answer.old desk.old.view }
    ensures needs { NeedsNoMore W.needs desk.old.walks desk.new.walks }
    ensures faults { SinkCounts K.Sink sink.old sink.new (is_err result ≡ true) }
{
    match answer {
        Answer::Walk(walk) => say_stops(walk, text, sink, steps),
        _ => say_items(answer, desk, text, sink, steps),
    }
}

// Says the stops of a walk. A path can have many, so its loop tells no kinds of items apart.
fn say_stops<W: Lazy<Item = Stop> + Drop, K: Sink, L: Reads>(
    walk: &mut W,
    text: &mut HeldText,
    sink: &mut K,
    steps: &mut Steps<L>,
) -> Result<(), Cut>
    requires few { length (W.left walk.old) < 2 ^ 64 }
    requires may { ReadsWithin (W.needs walk.old) L.may }
    ensures told { Puts (voice (K.said sink.old) text.old) (voice (K.said sink.new) text.new)
        (listed (map item.Stop (W.left walk.old)) None) result }
    ensures reads { steps.new + W.budget walk.new ≤ steps.old + W.budget walk.old }
    ensures faults { SinkCounts K.Sink sink.old sink.new (is_err result ≡ true) }
{
    let mut count = 0u64;
    while let Some(stop) = walk.draw(steps) {
        text.put_item(&Item::Stop(stop), sink)?;
        count += 1;
    }
    text.put(&ok_line(count), sink)
}

// Says the items of any answer.
fn say_items<W: Lazy<Item = Stop> + Drop, K: Sink, L: Reads>(
    answer: &mut Answer<W>,
    desk: &mut Desk<W>,
    text: &mut HeldText,
    sink: &mut K,
    steps: &mut Steps<L>,
) -> Result<(), Cut>
    requires slot { IsOfDesk answer.old }
    requires few { length (items_left W.left answer.old desk.old.view) < 2 ^ 64 }
    requires may { ReadsWithin (needs_left W.needs answer.old desk.old.walks) L.may }
    ensures told { Puts (voice (K.said sink.old) text.old) (voice (K.said sink.new) text.new)
        (listed (items_left W.left answer.old desk.old.view)
        (refusal_left answer.old)) result }
    ensures desk { OnOk result (
        held_of desk.new.view ≡ desk_left W.left W.budget answer.old desk.old.view) }
    ensures reads { steps.new + budget_of desk.new.view
        ≤ steps.old + reads_left W.left W.budget answer.old desk.old.view }
    ensures needs { NeedsNoMore W.needs desk.old.walks desk.new.walks }
    ensures faults { SinkCounts K.Sink sink.old sink.new (is_err result ≡ true) }
{
    let mut count = 0u64;
    while let Some(item) = answer.draw(desk, steps) {
        text.put_item(&item, sink)?;
        count += 1;
    }
    text.put(&answer.last_line(count), sink)
}
