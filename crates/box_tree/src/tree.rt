ghost use Rattle.std.specs.Prelude.{◌≡◌, ◌+◌, ◌-◌, ◌∷◌, ◌<◌, ◌≤◌, ◌^◌, [], length, reverse};
ghost use Rattle.std.specs.Prelude.{slice_index, All, IfNone, IfOk, IfSome};
ghost use Rattle.track_types.specs.Near.{IsBoxWithin};
ghost use Rattle.k2_tree.specs.Areas.{area_at, IsBoxInside};
ghost use Rattle.k2_tree.specs.Squares.{node};
ghost use Rattle.k2_tree.specs.Morton.{IsBase};
ghost use Rattle.box_tree.specs.Boxes.{IsFrom};
ghost use Rattle.box_tree.specs.Cost.{box_reads, cell_reads, link_reads};
ghost use Rattle.box_tree.specs.Held.{IsKindFor};
ghost use Rattle.box_tree.specs.Walk.{IsGivenWay};
ghost use Rattle.box_tree.specs.declared.node_kind.NodeKind.TheVariants.{Branch};
ghost use Rattle.box_tree.specs.declared.node_ref.TheConstants.{SLOTS};
ghost use Rattle.box_tree.specs.Tree.{AreLevels, IsNodeOf, child_limit, levels_below, levels_of};
ghost use Rattle.box_tree.specs.Tree.{node_at, node_square, places_with, node_prefix, slots, whole};
ghost use Rattle.box_tree.specs.Levels.{digits};
ghost use Rattle.box_tree.specs.Places.{box_at, square_places, ArePlaces};
ghost use Rattle.track_types.specs.declared.limit.TheConstants.{MAX_HEIGHT};

use crate::boxes::Boxes;
use crate::building::{begin, cells_of, make, width_of};
use crate::node_kind::{NodeKind, kind_of};
use crate::node_ref::{NodeRef, SLOTS};
use crate::node_walk::push_children;
use arrayvec::ArrayVec;
use k2_tree::square_area;
use std::alloc::Global;
use std::marker::Model;
use std::sync::ledger::Ledger;
use step_count::{CountedList, Steps};
use track_types::{Cell, CellBox, Memory};

/// Places in Morton order, each with a cell of a square grid and a box. A tree of squares stands
/// over them, and the box of a node has the boxes of all places in its square.
///
/// A square is split level by level. A level takes one digit of the Morton numbers, and splits a
/// square into 4, or two digits, and splits it into 16. A square with few places is not split.
#[derive(Drop)]
pub struct BoxTree {
    base: Cell,
    // How many levels there are, how many of them, the lowest, take one digit while the others take
    // two, and how many digits all take together.
    height: u32,
    narrow: u32,
    digits: u32,
    // The column and the row of each place's cell.
    cells: CountedList<(u32, u32)>,
    boxes: Boxes,
    areas: Boxes,
    links: CountedList<(u32, u32)>,
}

impl Model for BoxTree {
    ghost use Rattle.box_tree.specs.Tree.{AreCells, IsBoxTree, TreeView, box_tree_of};

    ghost Value = { TreeView };

    ghost view = { λ t. box_tree_of t.base t.height t.narrow t.cells t.boxes t.areas t.links };

    ghost invariant = { λ t. AreCells t.cells
        × IsBoxTree t.digits (box_tree_of t.base t.height t.narrow t.cells t.boxes t.areas t.links) };
}

impl BoxTree {
    /// The tree of places in Morton order, given by the Morton numbers of their cells and by their
    /// boxes, in the grid from a base. The grid has `height` levels: the `narrow` lowest take one
    /// digit each and the others two, `digits` in all. It fails where memory runs out.
    pub fn build(
        alloc: Global,
        height: u32,
        narrow: u32,
        digits: u32,
        base: Cell,
        codes: &[u64],
        boxes: &[CellBox],
    ) -> Result<BoxTree, Memory>
        requires levels { AreLevels height narrow digits }
        requires places { ArePlaces (places_with height narrow codes.now boxes.now) }
        requires base { IsBase base }
        requires from { All (IsFrom base) boxes.now }
        requires short { length codes.now < 2 ^ 31 }
        ensures places { IfOk result (λ tree.
            tree.places ≡ places_with height narrow codes.now boxes.now) }
        ensures base { IfOk result (λ tree. tree.base ≡ base) }
    {
        let mut tasks = begin(alloc, codes, height, digits)?;
        let made = make(alloc, codes, boxes, narrow, &mut tasks)?;
        let cells = cells_of(alloc, codes)?;
        let boxes = Boxes::new(alloc, base, boxes)?;
        let areas = Boxes::new(alloc, base, made.areas.as_slice())?;
        Ok(BoxTree {
            base,
            height,
            narrow,
            digits,
            cells: CountedList::new(cells),
            boxes,
            areas,
            links: CountedList::new(made.links),
        })
    }

    /// The node of the whole grid, if there is a place. It reads nothing.
    pub fn root(&self) -> Option<NodeRef>
        ensures none { IfNone result (self.now.places.codes ≡ []) }
        ensures node { IfSome result (λ node. IsNodeOf self.now node) }
        ensures whole { IfSome result (λ node. node_square self.now.narrow node ≡ whole self.now) }
        ensures some { IfSome result (λ node. 0 < length self.now.places.codes) }
        ensures places { ArePlaces self.now.places }
        ensures base { IsBase self.now.base }
        ensures deep { digits self.now.places.levels ≤ MAX_HEIGHT }
        ensures room { slots self.now.places.levels < SLOTS }
    {
        if self.cells.len() == 0 {
            return None;
        }
        Some(NodeRef {
            node: 0,
            below: self.height,
            level: self.digits,
            column: 0,
            row: 0,
        })
    }

    /// The cells of a node's square, as a box. It reads nothing.
    pub fn square(&self, node: &NodeRef) -> CellBox
        requires { IsNodeOf self.now node.now }
        ensures value { result ≡ area_at self.now.base (node_at node.now) }
        ensures within { IsBoxWithin result }
    {
        square_area(self.base, node.level, node.column, node.row)
    }

    /// A box with the boxes of all places of a node.
    pub fn area<L: Ledger>(&self, node: &NodeRef, steps: &mut Steps<L>) -> CellBox
        requires { IsNodeOf self.now node.now }
        ensures covers { All (λ place. IsBoxInside (box_at self.now.places.boxes place) result)
            (square_places self.now.places (node_square self.now.narrow node.now)) }
        ensures within { IsBoxWithin result }
        ensures cost { steps.new ≤ steps.old + box_reads }
    {
        self.areas.at(node.node, steps)
    }

    /// What a node is.
    pub fn kind<L: Ledger>(&self, node: &NodeRef, steps: &mut Steps<L>) -> NodeKind
        requires { IsNodeOf self.now node.now }
        ensures kind { IsKindFor self.now.places self.now.nodes (levels_of self.now.narrow node.now)
            (node_prefix node.now) result }
        ensures cost { steps.new ≤ steps.old + link_reads }
    {
        kind_of(self.links.at(node.node as usize, steps))
    }

    /// The box of a place.
    pub fn place_box<L: Ledger>(&self, place: u32, steps: &mut Steps<L>) -> CellBox
        requires { place < length self.now.places.codes }
        ensures value { box_at self.now.places.boxes place ≡ result }
        ensures within { IsBoxWithin result }
        ensures cost { steps.new ≤ steps.old + box_reads }
    {
        self.boxes.at(place, steps)
    }

    /// The cell of a place, as a box.
    pub fn place_cell<L: Ledger>(&self, place: u32, steps: &mut Steps<L>) -> CellBox
        requires { place < length self.now.places.codes }
        ensures value { result
            ≡ area_at self.now.base (node 0 (slice_index self.now.places.codes place)) }
        ensures within { IsBoxWithin result }
        ensures cost { steps.new ≤ steps.old + cell_reads }
    {
        let cell = self.cells.at(place as usize, steps);
        square_area(self.base, 0, cell.0, cell.1)
    }

    /// Pushes the children of a branch that hold a place, the last first. It reads nothing.
    pub fn push_children(
        &self,
        node: &NodeRef,
        end: u32,
        mask: u32,
        stack: &mut ArrayVec<NodeRef, SLOTS>,
    )
        requires of { IsNodeOf self.now node.now }
        requires kind { IsKindFor self.now.places self.now.nodes
            (levels_of self.now.narrow node.now) (node_prefix node.now) (Branch end mask) }
        requires room { length stack.old.items
            + child_limit (levels_of self.now.narrow node.now) ≤ SLOTS }
        ensures pushed { IsGivenWay self.now node.now (reverse stack.old.items)
            (reverse stack.new.items) }
    {
        let width = self.width(node.below);
        push_children(stack, node, width, end, mask);
    }

    // How many digits the level below a square takes.
    fn width(&self, below: u32) -> u32
        requires { 1 ≤ below }
        ensures value { levels_below self.now.narrow below
            ≡ result ∷ levels_below self.now.narrow (below - 1) }
        ensures some { 1 ≤ result }
        ensures few { result ≤ 2 }
    {
        width_of(self.narrow, below)
    }
}
