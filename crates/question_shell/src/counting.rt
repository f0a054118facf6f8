ghost use Rattle.std.specs.Prelude.{◌≡◌, ◌+◌, ◌<◌, ◌^◌, ◌≤◌, IfOk, OnOk, OnErr, Ok, Some, length};
ghost use Rattle.step_count.specs.Reads.{ReadsWithin};
ghost use Rattle.question_shell.specs.Desk.{NeedsNoMore, NeedsWithin, budget_of, held_of};
ghost use Rattle.question_shell.specs.Desk.{slot_needs};
ghost use Rattle.question_shell.specs.Drawing.{IsOfDesk, desk_left, needs_left};
ghost use Rattle.question_shell.specs.Items.{items_left, items_of};
ghost use Rattle.question_shell.specs.Drawing.{reads_left};
ghost use Rattle.question_shell.specs.Kinds.{AreAsked};
ghost use Rattle.question_shell.specs.Needs.{needs_after, question_needs};
ghost use Rattle.question_shell.specs.Reply.{asked_cost, desk_of};

use crate::answer::Answer;
use crate::asking::ask;
use crate::desk::Desk;
use std::alloc::Global;
use step_count::{Reads, Steps};
use track_types::{Lazy, Meets, Memory, Question, Stop};

/// How many items a question finds. They are drawn as for its reply, but not said.
///
/// Where memory is refused, the desk is as it was.
pub fn count_found<A: Meets, L: Reads>(
    alloc: Global,
    answerer: A,
    question: Question,
    desk: &mut Desk<A::Walk>,
    steps: &mut Steps<L>,
) -> Result<u64, Memory>
    requires asked { AreAsked question }
    requires may { ReadsWithin (question_needs (A.needs answerer)
        (slot_needs A.Walk.needs desk.old.walks) question) L.may }
    ensures ok { IfOk result (λ count. count ≡ length
        (items_of (A.chart answerer) (A.facts answerer) (held_of desk.old.view) question)) }
    ensures desk { OnOk result (
        held_of desk.new.view ≡ desk_of (A.chart answerer) (held_of desk.old.view) question) }
    ensures untouched { OnErr result (desk.new ≡ desk.old) }
    ensures cost { steps.new + budget_of desk.new.view ≤ steps.old + budget_of desk.old.view
        + asked_cost (A.cost answerer) (held_of desk.old.view) (Ok (Some question)) }
    ensures needs { NeedsWithin A.Walk.needs desk.new.walks (needs_after (A.needs answerer)
        (slot_needs A.Walk.needs desk.old.walks) question) }
{
    let mut answer = ask(alloc, answerer, &question, desk, steps)?;
    Ok(count_left(&mut answer, desk, steps))
}

// How many items are left of an answer.
fn count_left<W: Lazy<Item = Stop> + Drop, L: Reads>(
    answer: &mut Answer<W>,
    desk: &mut Desk<W>,
    steps: &mut Steps<L>,
) -> u64
    requires slot { IsOfDesk answer.old }
    requires few { length (items_left W.left answer.old desk.old.view) < 2 ^ 64 }
    requires may { ReadsWithin (needs_left W.needs answer.old desk.old.walks) L.may }
    ensures count { result ≡ length (items_left W.left answer.old desk.old.view) }
    ensures desk { held_of desk.new.view ≡ desk_left W.left W.budget answer.old desk.old.view }
    ensures reads { steps.new + budget_of desk.new.view
        ≤ steps.old + reads_left W.left W.budget answer.old desk.old.view }
    ensures needs { NeedsNoMore W.needs desk.old.walks desk.new.walks }
{
    let mut count = 0u64;
    'items: while let Some(_) = answer.draw(desk, steps) {
        count += 1;
    }
    count
}
