ghost use Rattle.std.specs.Prelude.{◌≡◌, ◌+◌, ◌≤◌, ◌++◌, [], ℕ, List, IfNone, IfSome, length, true};
ghost use Rattle.track_types.specs.declared.cell.Cell.{Cell};
ghost use Rattle.k2_tree.specs.Squares.{Node};
ghost use Rattle.k2_tree.specs.Tree.{IsTree};
ghost use Rattle.k2_tree.specs.TreeSquares.{level_of, node_of, prefix_of, IsSquareOf};
ghost use Rattle.k2_tree.specs.SquareWalk.{AreOpen, IsTakenChild, found_nodes, open_nodes, top_nodes};
ghost use Rattle.k2_tree.specs.Pruning.{child_nodes, leaf_of, IsLeafOf};
ghost use Rattle.k2_tree.specs.Cost.{child_reads};

use crate::pending_children::PendingChildren;
use crate::square::Square;
use crate::tree::K2Tree;
use arrayvec::ArrayVec;
use std::marker::Model;
use std::sync::ledger::Ledger;
use step_count::Steps;
use track_types::{Cell, MAX_HEIGHT};

// One open square for each level above the cells.
const LEVELS: usize = MAX_HEIGHT as usize;

/// A walk over the squares of a tree in Morton order. A square that is opened is followed by its
/// children, and any other by what comes after these.
///
/// It keeps one entry for each level. Contracts see the tree, the squares that are still to be
/// visited, the next one first, and how many squares are open.
#[derive(Drop)]
pub struct SquareWalk<'a> {
    tree: &'a K2Tree,
    // The square of the whole grid, until it was visited.
    whole: Option<Square>,
    stack: ArrayVec<PendingChildren, LEVELS>,
}

impl<'a> Model for SquareWalk<'a> {
    ghost use Rattle.k2_tree.specs.SquareWalk.{SquareWalkView, square_walk_of, IsSquareWalk};

    ghost Value = { SquareWalkView };

    ghost view = { λ w. square_walk_of w.tree.now w.whole w.stack.items };

    ghost invariant = { λ w. IsSquareWalk w.tree.now w.whole w.stack.items };
}

impl<'a> SquareWalk<'a> {
    /// The walk over all squares of a tree.
    pub fn new(tree: &'a K2Tree) -> SquareWalk<'a>
        ensures tree { result.tree ≡ tree.now }
        ensures pending { result.pending ≡ top_nodes tree.now }
        ensures is_tree { IsTree tree.now }
    {
        SquareWalk {
            tree,
            whole: tree.root(),
            stack: ArrayVec::new(),
        }
    }

    /// Takes the next square off and answers it.
    pub fn next_square(&mut self) -> Option<Square>
        ensures tree { self.new.tree ≡ self.old.tree }
        ensures none { IfNone result (self.old.pending ≡ []) }
        ensures pending { self.old.pending ≡ found_nodes result ++ self.new.pending }
        ensures of { IfSome result (λ square. IsSquareOf self.old.tree square) }
        ensures begun { self.new.begun ≡ true }
        ensures depth { IfSome result (λ square.
            level_of square + self.new.depth ≤ self.old.tree.height) }
    {
        if let Some(whole) = self.whole.take() {
            return Some(whole);
        }
        next_child(&mut self.stack)
    }

    /// Puts the children of the square that was visited last before all others. It is no cell.
    pub fn open<L: Ledger>(&mut self, square: Square, steps: &mut Steps<L>)
        requires of { IsSquareOf self.old.tree square }
        requires inner { 1 ≤ level_of square }
        requires depth { level_of square + self.old.depth ≤ self.old.tree.height }
        requires begun { self.old.begun ≡ true }
        ensures tree { self.new.tree ≡ self.old.tree }
        ensures pending { self.new.pending
            ≡ child_nodes self.old.tree (node_of square) ++ self.old.pending }
        ensures cost { steps.new ≤ steps.old + child_reads }
    {
        self.stack.push(self.tree.pending_children(square, steps));
    }

    /// The leaf that a square is, and its cell. It reads nothing that is counted.
    pub fn leaf<L: Ledger>(&self, square: &Square, steps: &mut Steps<L>) -> (u32, Cell)
        requires of { IsSquareOf self.now.tree square.now }
        requires leaf { level_of square.now ≡ 0 }
        ensures value { result ≡ leaf_of self.now.tree (prefix_of square.now) }
        ensures found { IsLeafOf self.now.tree result }
        ensures cost { steps.new ≤ steps.old }
    {
        (self.tree.leaf_number(square, steps), square.corner())
    }
}

// Takes the next child of the squares that are open, of the one opened last first.
fn next_child(stack: &mut ArrayVec<PendingChildren, LEVELS>) -> Option<Square>
    requires fits { length stack.old.items ≤ LEVELS }
    ensures none { IfNone result (open_nodes stack.old.items ≡ []) }
    ensures nodes { open_nodes stack.old.items ≡ found_nodes result ++ open_nodes stack.new.items }
    ensures taken { IfSome result (λ child. (squares : List Node) (base : Cell) (level : ℕ)
        → AreOpen squares base level stack.old.items
        → IsTakenChild squares base level child stack.new.items) }
    ensures empty { IfNone result (stack.new.items ≡ []) }
{
    while let Some(mut pending) = stack.pop() {
        if let Some(child) = pending.next() {
            stack.push(pending);
            return Some(child);
        }
    }
    None
}
