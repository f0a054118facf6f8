ghost use Rattle.std.specs.Prelude.{◌≡◌, ℕ, ◌+◌, ◌<◌, ◌≤◌, IfOk, OnErr, Ok, Some, true};
ghost use Rattle.std.specs.Prelude.{Bool, List, Option};
ghost use Rattle.step_count.specs.Reads.{Read, ReadsWithin};
ghost use Rattle.std.specs.Prelude.{map, option_to_list};
ghost use Rattle.track_types.specs.declared.question.Question.{Question};
ghost use Rattle.track_types.specs.declared.question.Question.TheVariants as question;
ghost use Rattle.question_shell.specs.Desk.{DeskView, held_of, no_needs, slot_needs};
ghost use Rattle.question_shell.specs.Drawing.{AnswerWithin, IsAnswer};
ghost use Rattle.question_shell.specs.Kinds.{AreAsked};
ghost use Rattle.question_shell.specs.Needs.{needs_after, question_needs};
ghost use Rattle.question_shell.specs.Reply.{asked_cost};
ghost use Rattle.question_shell.specs.Session.{Meaning, meaning_by, takes_memory};
ghost use Rattle.question_shell.specs.SlotParts.{OfNoSlot, slot_part};
ghost use Rattle.question_shell.specs.declared.item.Item.TheVariants as item;

use crate::answer::Answer;
use crate::desk::Desk;
use crate::found::Found;
use crate::item::Item;
use crate::named_fact::NamedFacts;
use std::alloc::Global;
use step_count::{Reads, Steps};
use track_types::{Cell, Lazy, Meeting, Meets, Memory, Question, Stop};

// Asks a question. Walks and lists take memory, and are made before anything changes.
#[inline(always)]
pub(crate) fn ask<A: Meets, L: Reads>(
    alloc: Global,
    answerer: A,
    question: &Question,
    desk: &mut Desk<A::Walk>,
    steps: &mut Steps<L>,
) -> Result<Answer<A::Walk>, Memory>
    requires asked { AreAsked question.now }
    requires may { ReadsWithin (question_needs (A.needs answerer)
        (slot_needs A.Walk.needs desk.old.walks) question.now) L.may }
    ensures ok { IfOk result (λ answer. IsAnswer A.Walk.left A.Walk.budget
        (meaning_by A.Answerer answerer)
        question.now desk.old.view steps.old answer desk.new.view steps.new) }
    ensures takes { OnErr result
        (takes_memory (held_of desk.old.view) (Ok (Some question.now)) ≡ true) }
    ensures desk { OnErr result (desk.new ≡ desk.old) }
    ensures reads { OnErr result (steps.new ≤ steps.old
        + asked_cost (A.cost answerer) (held_of desk.old.view) (Ok (Some question.now))) }
    ensures needs { IfOk result (λ answer. AnswerWithin A.Walk.needs
        (question_needs (A.needs answerer) (slot_needs A.Walk.needs desk.old.walks) question.now)
        (needs_after (A.needs answerer) (slot_needs A.Walk.needs desk.old.walks) question.now)
        answer desk.new.walks) }
{
    match question {
        Question::Hold {
            slot,
            object,
            from,
            to,
        } => hold(alloc, answerer, desk, *slot, *object, *from, *to),
        Question::More { slot, count } => Ok(more(desk, *slot, *count)),
        Question::Free { slot } => Ok(free(desk, *slot)),
        _ => ask_chart(alloc, answerer, question, steps),
    }
}

// Asks a question that is about no slot, whatever the desk holds.
#[inline(always)]
fn ask_chart<A: Meets, L: Reads>(
    alloc: Global,
    answerer: A,
    question: &Question,
    steps: &mut Steps<L>,
) -> Result<Answer<A::Walk>, Memory>
    requires asked { AreAsked question.now }
    requires part { slot_part question.now ≡ OfNoSlot }
    requires may { (held : ℕ → Read → Bool)
        × ReadsWithin (question_needs (A.needs answerer) held question.now) L.may }
    ensures ok { (desk : DeskView) → IfOk result (λ answer. IsAnswer A.Walk.left A.Walk.budget
        (meaning_by A.Answerer answerer)
        question.now desk steps.old answer desk steps.new) }
    ensures takes { (desk : DeskView) → OnErr result
        (takes_memory (held_of desk) (Ok (Some question.now)) ≡ true) }
    ensures reads { (desk : DeskView) → OnErr result (steps.new
        ≤ steps.old + asked_cost (A.cost answerer) (held_of desk) (Ok (Some question.now))) }
    ensures needs { (walks : List (Option A.Walk)) → IfOk result (λ answer.
        AnswerWithin A.Walk.needs
        (question_needs (A.needs answerer) (slot_needs A.Walk.needs walks) question.now)
        (needs_after (A.needs answerer) (slot_needs A.Walk.needs walks) question.now)
        answer walks) }
{
    // The rows of an answerer ascend, so that a count of stops fits.
    let facts = answerer.facts();
    match question {
        Question::Position { object, instant } => {
            let found = answerer.position(*object, *instant, steps);
            Ok(Answer::One(one_cell(found)))
        }
        Question::Path { object, from, to } => {
            let stops = answerer.walk(alloc, *object, *from, *to)?;
            Ok(Answer::Walk(stops))
        }
        Question::Slice { instant, region } => {
            let found = answerer.slice(alloc, *instant, region, steps)?;
            Ok(Answer::Sightings(Found::new(found)))
        }
        Question::Interval { from, to, region } => {
            let found = answerer.interval(alloc, *from, *to, region, steps)?;
            Ok(Answer::Hits(Found::new(found)))
        }
        Question::Nearest {
            count,
            instant,
            cell,
        } => {
            let found = answerer.nearest(alloc, *count, *instant, *cell, steps)?;
            Ok(Answer::Nears(Found::new(found)))
        }
        Question::Meet {
            left,
            right,
            from,
            to,
            reach,
        } => {
            let found = answerer.meet(alloc, *left, *right, *from, *to, *reach, steps)?;
            Ok(Answer::One(one_meeting(found)))
        }
        Question::Info => Ok(Answer::Facts(NamedFacts::new(facts))),
        Question::Hold { .. } | Question::More { .. } | Question::Free { .. } => unreachable!(),
    }
}

// The item that a cell is, where there is one.
fn one_cell(found: Option<Cell>) -> Option<Item>
    ensures { option_to_list result ≡ map item.Cell (option_to_list found) }
{
    Some(Item::Cell(found?))
}

// The item that a meeting is, where there is one.
fn one_meeting(found: Option<Meeting>) -> Option<Item>
    ensures { option_to_list result ≡ map item.Meeting (option_to_list found) }
{
    Some(Item::Meeting(found?))
}

// Holds a walk over a path in an empty slot.
fn hold<A: Meets>(
    alloc: Global,
    answerer: A,
    desk: &mut Desk<A::Walk>,
    slot: u8,
    object: u32,
    from: i64,
    to: i64,
) -> Result<Answer<A::Walk>, Memory>
    requires { AreAsked (question.Hold slot object from to) }
    ensures ok { (steps : ℕ) → IfOk result (λ answer. IsAnswer A.Walk.left A.Walk.budget
        (meaning_by A.Answerer answerer)
        (question.Hold slot object from to) desk.old.view steps answer desk.new.view steps) }
    ensures takes { OnErr result (takes_memory (held_of desk.old.view)
        (Ok (Some (question.Hold slot object from to))) ≡ true) }
    ensures desk { OnErr result (desk.new ≡ desk.old) }
    ensures needs { IfOk result (λ answer. AnswerWithin A.Walk.needs no_needs
        (needs_after (A.needs answerer) (slot_needs A.Walk.needs desk.old.walks)
        (question.Hold slot object from to)) answer desk.new.walks) }
{
    if desk.is_held(slot) {
        return Ok(Answer::Held);
    }
    let walk = answerer.walk(alloc, object, from, to)?;
    desk.hold(slot, walk);
    Ok(Answer::Done)
}

// The next stops of a slot.
fn more<W: Lazy<Item = Stop> + Drop>(desk: &Desk<W>, slot: u8, count: u32) -> Answer<W>
    requires { slot < 16 }
    ensures value { (meaning : Meaning) → (steps : ℕ) → IsAnswer W.left W.budget meaning
        (question.More slot count) desk.now.view steps result desk.now.view steps }
    ensures needs { AnswerWithin W.needs (slot_needs W.needs desk.now.walks slot)
        (slot_needs W.needs desk.now.walks) result desk.now.walks }
{
    if desk.is_held(slot) {
        Answer::More { slot, count }
    } else {
        Answer::Free
    }
}

// Empties a slot.
fn free<W: Lazy<Item = Stop> + Drop>(desk: &mut Desk<W>, slot: u8) -> Answer<W>
    requires { slot < 16 }
    ensures value { (meaning : Meaning) → (steps : ℕ) → IsAnswer W.left W.budget meaning
        (question.Free slot) desk.old.view steps result desk.new.view steps }
    ensures needs { (needs : Question → Read → Bool) → AnswerWithin W.needs no_needs
        (needs_after needs (slot_needs W.needs desk.old.walks) (question.Free slot))
        result desk.new.walks }
{
    let Some(_) = desk.release(slot) else {
        return Answer::Free;
    };
    Answer::Done
}
