ghost use Rattle.std.specs.Prelude.{◌≡◌, ℕ, ◌+◌, ◌-◌, ◌*◌, ◌^◌, ◌<◌, ◌≤◌, ◌++◌, ◌∷◌, [], length};
ghost use Rattle.std.specs.Prelude.{reverse, IfNone, IfSome};
ghost use Rattle.track_types.specs.declared.limit.TheConstants.{MAX_HEIGHT};
ghost use Rattle.k2_tree.specs.Morton.{IsBase};
ghost use Rattle.box_tree.specs.Cost.{link_reads};
ghost use Rattle.box_tree.specs.Held.{mask_digits};
ghost use Rattle.box_tree.specs.Tree.{IsNodeOf, levels_of, node_square, slots, whole};
ghost use Rattle.box_tree.specs.Places.{ArePlaces};
ghost use Rattle.box_tree.specs.Walk.{child_refs, OpensSquare};

use crate::node_kind::NodeKind;
use crate::node_ref::{NodeRef, SLOTS};
use crate::tree::BoxTree;
use arrayvec::ArrayVec;
use k2_tree::{child_column, child_row, fan_of};
use std::marker::Model;
use std::sync::ledger::Ledger;
use step_count::Steps;

// A walk over the nodes of a tree: those that wait, and what is left of an open bucket.
#[derive(Drop)]
pub(crate) struct NodeWalk<'a> {
    tree: &'a BoxTree,
    stack: ArrayVec<NodeRef, SLOTS>,
    low: u32,
    high: u32,
}

impl<'a> Model for NodeWalk<'a> {
    ghost use Rattle.box_tree.specs.Walk.{NodeWalkView, node_walk_of, IsNodeWalk};

    ghost Value = { NodeWalkView };

    ghost view = { λ w. node_walk_of w.tree.now w.stack.items w.low w.high };

    ghost invariant = { λ w. IsNodeWalk w.tree.now w.stack.items w.low w.high };
}

impl<'a> NodeWalk<'a> {
    // The walk over a tree from one of its nodes on, if there is one.
    pub(crate) fn new(tree: &'a BoxTree, first: Option<NodeRef>) -> NodeWalk<'a>
        requires of { IfSome first (λ node. IsNodeOf tree.now node) }
        requires whole { IfSome first (λ node. node_square tree.now.narrow node ≡ whole tree.now) }
        ensures tree { result.tree ≡ tree.now }
        ensures none { IfNone first (result.pending ≡ []) }
        ensures pending { IfSome first (λ node. result.pending ≡ whole tree.now ∷ []) }
        ensures low { result.low ≡ 0 }
        ensures high { result.high ≡ 0 }
    {
        let _ = tree.root(); // says what holds of every tree
        let mut stack = ArrayVec::new();
        if let Some(node) = first {
            stack.push(node);
        }
        NodeWalk {
            tree,
            stack,
            low: 0,
            high: 0,
        }
    }

    // The tree.
    pub(crate) fn tree(&self) -> &'a BoxTree
        ensures value { result.now ≡ self.now.tree }
        ensures are { ArePlaces self.now.tree.places }
        ensures base { IsBase self.now.tree.base }
    {
        self.tree
    }

    // Takes the next place of the open bucket off.
    pub(crate) fn next_place(&mut self) -> Option<u32>
        ensures tree { self.new.tree ≡ self.old.tree }
        ensures none { IfNone result (self.new ≡ self.old) }
        ensures empty { IfNone result (self.old.high ≤ self.old.low) }
        ensures within { IfSome result (λ place. place < length self.old.tree.places.codes) }
        ensures first { IfSome result (λ place. place ≡ self.old.low) }
        ensures some { IfSome result (λ place. self.old.low < self.old.high) }
        ensures low { IfSome result (λ place. self.new.low ≡ self.old.low + 1) }
        ensures high { self.new.high ≡ self.old.high }
        ensures pending { self.new.pending ≡ self.old.pending }
    {
        if self.low < self.high {
            let place = self.low;
            self.low += 1;
            return Some(place);
        }
        None
    }

    // Takes the next node off.
    pub(crate) fn next_node(&mut self) -> Option<NodeRef>
        ensures tree { self.new.tree ≡ self.old.tree }
        ensures low { self.new.low ≡ self.old.low }
        ensures high { self.new.high ≡ self.old.high }
        ensures none { IfNone result (self.old.pending ≡ []) }
        ensures stays { IfNone result (self.new ≡ self.old) }
        ensures pending { IfSome result (λ node.
            self.old.pending ≡ node_square self.old.tree.narrow node ∷ self.new.pending) }
        ensures of { IfSome result (λ node. IsNodeOf self.old.tree node) }
        ensures room { IfSome result (λ node.
            self.new.depth + slots (levels_of self.old.tree.narrow node)
            ≤ slots self.old.tree.places.levels) }
    {
        self.stack.pop()
    }

    // Opens a node that was taken off, where no bucket is open.
    pub(crate) fn open<L: Ledger>(&mut self, taken: NodeRef, steps: &mut Steps<L>)
        requires of { IsNodeOf self.old.tree taken }
        requires room { self.old.depth + slots (levels_of self.old.tree.narrow taken)
            ≤ slots self.old.tree.places.levels }
        requires done { self.old.high ≤ self.old.low }
        ensures tree { self.new.tree ≡ self.old.tree }
        ensures opened { OpensSquare self.old self.new (node_square self.old.tree.narrow taken) }
        ensures cost { steps.new ≤ steps.old + link_reads }
    {
        match self.tree.kind(&taken, steps) {
            NodeKind::Bucket { low, high } => {
                self.low = low;
                self.high = high;
            }
            NodeKind::Branch { end, mask } => {
                self.tree.push_children(&taken, end, mask, &mut self.stack);
            }
        }
    }
}

// Pushes the children of a node, one for each bit of the mask that is 1, the last first.
pub(crate) fn push_children(
    stack: &mut ArrayVec<NodeRef, SLOTS>,
    parent: &NodeRef,
    width: u32,
    end: u32,
    mask: u32,
)
    requires some { 1 ≤ width }
    requires few { width ≤ 2 }
    requires inner { 1 ≤ parent.now.below }
    requires level { width ≤ parent.now.level }
    requires right { (parent.now.column + 1) * 2 ^ width ≤ 2 ^ MAX_HEIGHT }
    requires upper { (parent.now.row + 1) * 2 ^ width ≤ 2 ^ MAX_HEIGHT }
    requires mask { mask < 2 ^ 16 }
    requires stand { length (mask_digits width mask) ≤ end }
    requires room { length stack.old.items + length (mask_digits width mask) ≤ SLOTS }
    ensures { reverse stack.new.items
        ≡ child_refs parent.now width (end - length (mask_digits width mask)) (mask_digits width mask)
        ++ reverse stack.old.items }
{
    let fan = fan_of(width);
    let mut number = end;
    for digit in (0..fan).rev() {
        if (mask >> digit) % 2 == 1 {
            number -= 1;
            stack.push(NodeRef {
                node: number,
                below: parent.below - 1,
                level: parent.level - width,
                column: child_column(parent.column, width, digit),
                row: child_row(parent.row, width, digit),
            });
        }
    }
}
