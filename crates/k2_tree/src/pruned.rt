ghost use Rattle.std.specs.Prelude.{◌≡◌, ◌++◌, ◌+◌, ◌≤◌, [], false, IfNone, IfSome, option_to_list};
ghost use Rattle.k2_tree.specs.TreeSquares.{area_of};

use crate::keep::Keep;
use crate::square::Square;
use crate::square_walk::SquareWalk;
use step_count::{Reads, Steps};
use track_types::{Cell, Lazy};

/// The leaves of a tree for which a test is true on each square from the whole grid to the cell, in
/// Morton order. An item is a leaf and its cell.
///
/// Squares that fail the test are skipped with all that is in them. A square that passes costs one
/// window and one rank of the tree's bits. The walk keeps one entry for each level and takes no
/// memory.
#[derive(Drop)]
pub struct Pruned<'a, F> {
    walk: SquareWalk<'a>,
    keep: F,
}

impl<'a, F> Pruned<'a, F> {
    pub(crate) fn new(walk: SquareWalk<'a>, keep: F) -> Self
        ensures walk { result.walk ≡ walk.entry }
        ensures keep { result.keep ≡ keep }
    {
        Pruned { walk, keep }
    }
}

impl<'a, F: Keep> Pruned<'a, F> {
    fn passes(&self, square: &Square) -> bool
        ensures { result ≡ F.keeps self.now.keep (area_of square.now) }
    {
        self.keep.keep(&square.area())
    }
}

impl<'a, F: Keep> Lazy for Pruned<'a, F> {
    ghost use Rattle.k2_tree.specs.Pruning.{IsLeafOf};
    ghost use Rattle.k2_tree.specs.Pruned.{pruned_budget, pruned_left, pruned_tree};

    type Item = (u32, Cell);

    ghost left = { pruned_left F.keeps };

    ghost budget = { pruned_budget F.keeps };

    // The reads of a tree have no names.
    ghost needs = { λ _ _. false };

    fn draw<L: Reads>(&mut self, steps: &mut Steps<L>) -> Option<(u32, Cell)>
        ensures found { pruned_left F.keeps self.old
            ≡ option_to_list result ++ pruned_left F.keeps self.new }
        ensures none { IfNone result (pruned_left F.keeps self.old ≡ []) }
        ensures cost { steps.new + pruned_budget F.keeps self.new
            ≤ steps.old + pruned_budget F.keeps self.old }
        ensures tree { pruned_tree self.new ≡ pruned_tree self.old }
        ensures leaf { IfSome result (λ leaf. IsLeafOf (pruned_tree self.old) leaf) }
    {
        while let Some(square) = self.walk.next_square() {
            if !self.passes(&square) {
                continue;
            }
            if square.is_leaf() {
                return Some(self.walk.leaf(&square, steps));
            }
            self.walk.open(square, steps);
        }
        None
    }
}
