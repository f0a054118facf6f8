ghost use Rattle.std.specs.Prelude.{◌≡◌};
ghost use Rattle.track_types.specs.Lazy.{drawn_lenders, drawn_steps, drawn_walk};

use super::Lazy;
use step_count::{Reads, Steps};

/// An iterator over what is left of a walk: exactly these items, in order, and then `None`.
#[derive(Drop)]
pub struct Drawn<'a, W, L: Reads> {
    walk: &'a mut W,
    steps: &'a mut Steps<L>,
}

impl<'a, W: Lazy, L: Reads> Drawn<'a, W, L> {
    pub(super) fn new(walk: &'a mut W, steps: &'a mut Steps<L>) -> Self
        ensures walk { drawn_walk result ≡ walk.old }
        ensures steps { drawn_steps result ≡ steps.old }
        ensures lenders { drawn_lenders result ≡ (walk.entry.ghost_name, steps.entry.ghost_name) }
    {
        Drawn { walk, steps }
    }
}

impl<'a, W: Lazy, L: Reads> Iterator for Drawn<'a, W, L> {
    ghost use Rattle.std.specs.Iterator.{item_count};
    ghost use Rattle.track_types.specs.Lazy.{DrawsFirst, MayDraw, drawn_left};

    type Item = W::Item;

    ghost can_next = { MayDraw W.needs L.may };

    ghost next_gives = { DrawsFirst W.left W.budget W.needs };

    ghost remaining = { item_count (drawn_left W.left) };

    fn next(&mut self) -> Option<W::Item> {
        self.walk.draw(self.steps)
    }
}
