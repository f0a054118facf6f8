ghost use Rattle.std.specs.Prelude.{◌≡◌, ◌+◌, ◌++◌, ◌≤◌, ◌<◌, ◌⊎◌, [], length, option_to_list};
ghost use Rattle.std.specs.Prelude.{true, false, IfNone, IfSome};
ghost use Rattle.box_tree.specs.BoxWalk.{walk_tests, box_budget, box_left, found_places, search_reads};
ghost use Rattle.box_tree.specs.BoxWalk.{walked_tree};
ghost use Rattle.box_tree.specs.Cost.{place_reads};
ghost use Rattle.k2_tree.specs.Morton.{IsBase};
ghost use Rattle.box_tree.specs.Levels.{digits};
ghost use Rattle.box_tree.specs.Places.{place_passes, ArePlaces};
ghost use Rattle.track_types.specs.declared.limit.TheConstants.{MAX_HEIGHT};
ghost use Rattle.box_tree.specs.Tests.{squares_at};
ghost use Rattle.box_tree.specs.Tree.{grid_node, levels_of, node_square, slots, whole, IsNodeOf};
ghost use Rattle.box_tree.specs.Walk.{IsScanned, IsVisited};

use crate::node_ref::NodeRef;
use crate::node_walk::NodeWalk;
use crate::search::Search;
use crate::tree::BoxTree;
use std::sync::ledger::Ledger;
use step_count::{Reads, Steps};
use track_types::Lazy;

/// The places of a tree whose cell and whose box meet what is asked, in order. An item is the
/// number of a place.
///
/// A square that does not meet it, or with a box that does not, is skipped with all that is in it.
/// The walk takes no memory.
#[derive(Drop)]
pub struct BoxWalk<'a, S> {
    walk: NodeWalk<'a>,
    search: S,
}

impl<'a, S: Search> BoxWalk<'a, S> {
    /// The places of a tree that are sought. It reads nothing.
    pub fn new(tree: &'a BoxTree, search: S) -> BoxWalk<'a, S>
        ensures left { box_left S.squares S.boxes result
            ≡ found_places (S.squares search) (S.boxes search) tree.now }
        ensures budget { box_budget S.squares S.boxes result
            ≤ search_reads (S.squares search) tree.now }
        ensures tree { walked_tree result ≡ tree.now }
    {
        let root = wanted(tree, &search);
        BoxWalk {
            walk: NodeWalk::new(tree, root),
            search,
        }
    }

    // Whether a place is sought.
    fn meets<L: Ledger>(&self, place: u32, steps: &mut Steps<L>) -> bool
        requires { place < length self.now.walk.tree.places.codes }
        ensures value { result
            ≡ place_passes (walk_tests S.squares S.boxes self.now) self.now.walk.tree.places place }
        ensures cost { steps.new ≤ steps.old + place_reads }
    {
        let tree = self.walk.tree();
        let area = tree.place_box(place, steps);
        if !self.search.meets_box(&area) {
            return false;
        }
        let cell = tree.place_cell(place, steps);
        self.search.meets_square(&cell)
    }

    // The next place of the open bucket that is sought.
    fn scan<L: Ledger>(&mut self, steps: &mut Steps<L>) -> Option<u32>
        ensures search { self.new.search ≡ self.old.search }
        ensures scanned { IsScanned (walk_tests S.squares S.boxes self.old) self.old.walk self.new.walk
            result steps.old steps.new }
        ensures within { IfSome result (λ place. place < length self.old.walk.tree.places.codes) }
        ensures done { IfNone result (self.new.walk.high ≤ self.new.walk.low) }
    {
        while let Some(place) = self.walk.next_place() {
            if self.meets(place, steps) {
                return Some(place);
            }
        }
        None
    }

    // Opens a node that was taken off, where its box and its square meet what is asked.
    fn visit<L: Ledger>(&mut self, taken: NodeRef, steps: &mut Steps<L>)
        requires of { IsNodeOf self.old.walk.tree taken }
        requires room { self.old.walk.depth + slots (levels_of self.old.walk.tree.narrow taken)
            ≤ slots self.old.walk.tree.places.levels }
        requires done { self.old.walk.high ≤ self.old.walk.low }
        ensures search { self.new.search ≡ self.old.search }
        ensures visited { IsVisited (walk_tests S.squares S.boxes self.old) self.old.walk self.new.walk
            (node_square self.old.walk.tree.narrow taken) steps.old steps.new }
    {
        let tree = self.walk.tree();
        let area = tree.area(&taken, steps);
        if !self.search.meets_box(&area) {
            return;
        }
        let square = tree.square(&taken);
        if !self.search.meets_square(&square) {
            return;
        }
        self.walk.open(taken, steps);
    }
}

impl<'a, S: Search> Lazy for BoxWalk<'a, S> {
    type Item = u32;

    ghost left = { box_left S.squares S.boxes };

    ghost budget = { box_budget S.squares S.boxes };

    // The reads of a tree have no names.
    ghost needs = { λ _ _. false };

    fn draw<L: Reads>(&mut self, steps: &mut Steps<L>) -> Option<u32>
        ensures found { box_left S.squares S.boxes self.old
            ≡ option_to_list result ++ box_left S.squares S.boxes self.new }
        ensures none { IfNone result (box_left S.squares S.boxes self.old ≡ []) }
        ensures cost { steps.new + box_budget S.squares S.boxes self.new
            ≤ steps.old + box_budget S.squares S.boxes self.old }
        ensures tree { walked_tree self.new ≡ walked_tree self.old }
        ensures within { IfSome result (λ place. place < length (walked_tree self.old).places.codes) }
    {
        loop {
            if let Some(place) = self.scan(steps) {
                return Some(place);
            }
            let Some(taken) = self.walk.next_node() else {
                return None;
            };
            self.visit(taken, steps);
        }
    }
}

// The node of the whole grid, where there is a place and the grid meets what is asked.
fn wanted<S: Search>(tree: &BoxTree, search: &S) -> Option<NodeRef>
    ensures none { IfNone result ((tree.now.places.codes ≡ [])
        ⊎ (squares_at tree.now.base (S.squares search.now) (grid_node tree.now) ≡ false)) }
    ensures places { ArePlaces tree.now.places }
    ensures base { IsBase tree.now.base }
    ensures deep { digits tree.now.places.levels ≤ MAX_HEIGHT }
    ensures node { IfSome result (λ node. IsNodeOf tree.now node) }
    ensures whole { IfSome result (λ node. node_square tree.now.narrow node ≡ whole tree.now) }
    ensures some { IfSome result (λ node. 0 < length tree.now.places.codes) }
    ensures holds { IfSome result (λ node.
        squares_at tree.now.base (S.squares search.now) (grid_node tree.now) ≡ true) }
{
    let root = tree.root()?;
    let square = tree.square(&root);
    if !search.meets_square(&square) {
        return None;
    }
    Some(root)
}
