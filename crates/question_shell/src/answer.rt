ghost use Rattle.std.specs.Prelude.{◌≡◌, ◌<◌, ◌++◌, [], IfNone, drop, option_to_list, take};
ghost use Rattle.step_count.specs.Reads.{ReadsWithin};
ghost use Rattle.question_shell.specs.Desk.{Draws, NeedsNoMore, slot_needs, slot_stops};
ghost use Rattle.question_shell.specs.Drawing.{AnswerNeeds, GivesItems, IsDrawn, IsOfDesk};
ghost use Rattle.question_shell.specs.Drawing.{needs_left, refusal_left};
ghost use Rattle.question_shell.specs.Reply.{last_line};

use crate::desk::Desk;
use crate::found::Found;
use crate::item::Item;
use crate::named_fact::NamedFacts;
use crate::reply::{free_line, held_line, ok_line};
use crate::reply_line::ReplyLine;
use step_count::{Reads, Steps};
use track_types::{Hit, Lazy, Near, Sighting, Stop};

/// An answer to a question. Its items are drawn one after another.
#[derive(Drop)]
pub enum Answer<W> {
    /// One item, where there is one.
    One(Option<Item>),
    /// Stops that are read as they are drawn.
    Walk(W),
    /// Objects with their cells.
    Sightings(Found<Sighting>),
    /// Objects with their instants and cells.
    Hits(Found<Hit>),
    /// Objects with their cells and distances.
    Nears(Found<Near>),
    /// The facts.
    Facts(NamedFacts),
    /// At most so many stops of the walk that a slot holds.
    More { slot: u8, count: u32 },
    /// Nothing: a slot was held or emptied.
    Done,
    /// Nothing: the slot is held that should be empty.
    Held,
    /// Nothing: the slot is empty that should be held.
    Free,
}

impl<W: Lazy<Item = Stop> + Drop> Answer<W> {
    // Takes the first item off. What is read is taken from the budget of its walk.
    #[inline(always)]
    pub(crate) fn draw<L: Reads>(
        &mut self,
        desk: &mut Desk<W>,
        steps: &mut Steps<L>,
    ) -> Option<Item>
        requires slot { IsOfDesk self.old }
        requires may { ReadsWithin (needs_left W.needs self.old desk.old.walks) L.may }
        ensures gives { GivesItems W.left W.budget self.old self.new desk.old.view desk.new.view
            steps.old steps.new (option_to_list result) }
        ensures needs { AnswerNeeds W.needs self.old self.new desk.old.walks desk.new.walks }
        ensures none { IfNone result (IsDrawn W.left W.budget self.new desk.new.view) }
    {
        match self {
            Answer::One(item) => item.take(),
            Answer::Walk(walk) => Some(Item::Stop(walk.draw(steps)?)),
            Answer::Sightings(found) => Some(Item::Sighting(found.draw()?)),
            Answer::Hits(found) => Some(Item::Hit(found.draw()?)),
            Answer::Nears(found) => Some(Item::Near(found.draw()?)),
            Answer::Facts(facts) => Some(Item::Fact(facts.draw()?)),
            Answer::More { slot, count } => Some(Item::Stop(draw_more(desk, *slot, count, steps)?)),
            Answer::Done | Answer::Held | Answer::Free => None,
        }
    }

    // The last line of its reply, which has so many lines before it.
    pub(crate) fn last_line(&self, count: u64) -> ReplyLine
        ensures { result ≡ last_line (refusal_left self.now) count }
    {
        match self {
            Answer::Held => held_line(),
            Answer::Free => free_line(),
            _ => ok_line(count),
        }
    }
}

// Takes the first stop off the walk in a slot, while fewer than so many were drawn.
fn draw_more<W: Lazy<Item = Stop> + Drop, L: Reads>(
    desk: &mut Desk<W>,
    slot: u8,
    count: &mut u32,
    steps: &mut Steps<L>,
) -> Option<Stop>
    requires slot { slot < 16 }
    requires may { ReadsWithin (slot_needs W.needs desk.old.walks slot) L.may }
    ensures found { take count.old (slot_stops desk.old.view slot)
        ≡ option_to_list result ++ take count.new (slot_stops desk.new.view slot) }
    ensures left { drop count.new (slot_stops desk.new.view slot)
        ≡ drop count.old (slot_stops desk.old.view slot) }
    ensures none { IfNone result (take count.new (slot_stops desk.new.view slot) ≡ []) }
    ensures draws { Draws desk.old.view desk.new.view slot steps.old steps.new }
    ensures needs { NeedsNoMore W.needs desk.old.walks desk.new.walks }
{
    if *count == 0 {
        return None;
    }
    let stop = desk.draw(slot, steps)?;
    *count -= 1;
    Some(stop)
}
