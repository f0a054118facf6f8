ghost use Rattle.std.specs.Prelude.{◌≡◌, ◌+◌, ◌++◌, ◌<◌, ◌≤◌, [], IfNone, IfOk, None, Some, length};
ghost use Rattle.step_count.specs.Reads.{ReadsWithin};
ghost use Rattle.std.specs.Prelude.{option_map, option_to_list, slice_index_or, slice_set};
ghost use Rattle.question_shell.specs.Desk.{NeedsNoMore, budget_in, empty_state, is_held_in};
ghost use Rattle.question_shell.specs.Desk.{slot_needs, slot_stops, slot_walk};

use std::alloc::Global;
use std::marker::Model;
use step_count::{Reads, Steps};
use track_types::{Lazy, Memory, Stop};

/// How many walks a desk can hold.
const PLACES: usize = 16;

/// A desk of 16 places, each empty or a walk that is held (a session table of cursors).
#[derive(Drop)]
pub struct Desk<W: Lazy<Item = Stop>> {
    places: Vec<Option<W>>,
}

impl<W: Lazy<Item = Stop>> Model for Desk<W> {
    ghost use Rattle.std.specs.Prelude.{◌≡◌, map, length, option_map};
    ghost use Rattle.question_shell.specs.Desk.{DeskState};

    ghost Value = { DeskState W };

    ghost view = { λ d. record {
      view = map (option_map (λ walk. (W.left walk, W.budget walk))) d.places.items;
      walks = d.places.items;
    } };

    ghost invariant = { λ d. length d.places.items ≡ 16 };
}

impl<W: Lazy<Item = Stop> + Drop> Desk<W> {
    /// A desk of 16 empty places. Only this takes memory for the desk.
    pub fn new(alloc: Global) -> Result<Desk<W>, Memory>
        ensures { IfOk result (λ desk. desk ≡ empty_state) }
    {
        let mut places = Vec::with_capacity(alloc, PLACES)?;
        for _ in 0..PLACES {
            places.push(None)?;
        }
        Ok(Desk { places })
    }
    /// Whether the place of this slot holds a walk. A desk has 16 places.
    pub fn is_held(&self, slot: u8) -> bool
        requires { slot < 16 }
        ensures value { result ≡ is_held_in self.now.view slot }
        ensures places { length self.now.view ≡ 16 }
    {
        self.places[slot as usize].is_some()
    }

    /// Puts a walk into the empty place of this slot. The other places stay.
    pub fn hold(&mut self, slot: u8, walk: W)
        requires slot { slot < 16 }
        requires empty { slot_walk self.old.view slot ≡ None }
        ensures view { self.new.view
            ≡ slice_set self.old.view slot (Some (W.left walk, W.budget walk)) }
        ensures walks { self.new.walks ≡ slice_set self.old.walks slot (Some walk) }
    {
        self.places[slot as usize] = Some(walk);
    }

    /// Takes the first stop off the walk in the place of this slot and answers it, or `None`
    /// exactly where the place is empty or its walk has no stop left. A walk that has ended stays
    /// held. What is read is taken from the budget of that walk, and is among what that walk needs.
    /// The other places stay.
    pub fn draw<L: Reads>(&mut self, slot: u8, steps: &mut Steps<L>) -> Option<Stop>
        requires slot { slot < 16 }
        requires may { ReadsWithin (slot_needs W.needs self.old.walks slot) L.may }
        ensures found { slot_stops self.old.view slot
            ≡ option_to_list result ++ slot_stops self.new.view slot }
        ensures none { IfNone result (slot_stops self.old.view slot ≡ []) }
        ensures cost { steps.new + budget_in self.new.view slot
            ≤ steps.old + budget_in self.old.view slot }
        ensures held { is_held_in self.new.view slot ≡ is_held_in self.old.view slot }
        ensures others { self.new.view
            ≡ slice_set self.old.view slot (slot_walk self.new.view slot) }
        ensures needs { NeedsNoMore W.needs self.old.walks self.new.walks }
        ensures stays { self.new.walks
            ≡ slice_set self.old.walks slot (slice_index_or self.new.walks slot None) }
    {
        let Some(walk) = &mut self.places[slot as usize] else {
            return None;
        };
        walk.draw(steps)
    }

    /// Empties the place of this slot and answers the walk that it held, `None` if and only if it was
    /// empty. The other places stay.
    pub fn release(&mut self, slot: u8) -> Option<W>
        requires { slot < 16 }
        ensures walk { option_map (λ walk. (W.left walk, W.budget walk)) result
            ≡ slot_walk self.old.view slot }
        ensures own { result ≡ slice_index_or self.old.walks slot None }
        ensures emptied { self.new.view ≡ slice_set self.old.view slot None }
        ensures walks { self.new.walks ≡ slice_set self.old.walks slot None }
    {
        self.places[slot as usize].take()
    }
}
