ghost use Rattle.std.specs.Prelude.{◌≡◌, ◌++◌, ◌+◌, ◌≤◌, ℕ, List, [], Bool, IfNone, option_to_list};
ghost use Rattle.std.specs.Iterator.Runs.{YieldsInOrder};
ghost use Rattle.step_count.specs.Reads.{Read, ReadsWithin};
ghost use Rattle.track_types.specs.Lazy.{DrawsAlong, DrawsFirst, drawn_left, drawn_lenders, drawn_steps, drawn_walk};

use step_count::{Reads, Steps};

pub mod drawn_items;

use self::drawn_items::Drawn;

/// A list whose items are found one by one, as they are asked for.
///
/// It has three meanings. `left` is the list of the items still to come. `budget` bounds the reads that
/// are still to be made for them. `needs` has each read that may be one of them.
pub trait Lazy {
    type Item;

    ghost left: { Self → List Self.Item };

    ghost budget: { Self → ℕ };

    ghost needs: { Self → Read → Bool };

    /// Takes the first item of `left` off and answers it, or `None` if and only if `left` is empty, and
    /// then it stays empty. What is read is taken from the budget. What is needed may be read, and
    /// nothing is needed later that is not needed now. It takes no memory.
    fn draw<L: Reads>(&mut self, steps: &mut Steps<L>) -> Option<Self::Item>
        requires may { ReadsWithin (needs self.old) L.may }
        ensures found { left self.old ≡ option_to_list result ++ left self.new }
        ensures none { IfNone result (left self.old ≡ []) }
        ensures cost { steps.new + budget self.new ≤ steps.old + budget self.old }
        ensures needs { ReadsWithin (needs self.new) (needs self.old) };
}

/// The items of a walk as an iterator, which gives exactly those that are left, and ends. What it reads
/// is taken from the walk's budget.
pub fn drawn<'a, W: Lazy, L: Reads>(walk: &'a mut W, steps: &'a mut Steps<L>) -> Drawn<'a, W, L>
    requires may { ReadsWithin (W.needs walk.old) L.may }
    ensures walk { drawn_walk result ≡ walk.old }
    ensures steps { drawn_steps result ≡ steps.old }
    ensures lenders { drawn_lenders result ≡ (walk.entry.ghost_name, steps.entry.ghost_name) }
    ensures exact { YieldsInOrder (DrawsFirst {W = W} {L = L} W.left W.budget W.needs) (drawn_left W.left) }
    ensures cost { DrawsAlong W.left W.budget W.needs result }
{
    Drawn::new(walk, steps)
}
