ghost use Rattle.std.specs.Prelude.{◌≡◌, ◌+◌, ◌*◌, ◌<◌, ◌≤◌, length, map, All, Contains, [], false, IfErr, IfNone, IfOk, IfSome, OnOk, MatchOption, None, Some, slice_get, ℕ, Bool, if◌then◌else◌};
ghost use Rattle.std.specs.List.{sum_by};
ghost use Rattle.std.specs.List.Sorted.{IsStrictlyIncreasing};
ghost use Rattle.k2_tree.specs.Morton.{morton_of, IsGrid, IsInGrid};
ghost use Rattle.k2_tree.specs.Widths.{widths_of, fan_of};
ghost use Rattle.k2_tree.specs.Squares.{node};
ghost use Rattle.k2_tree.specs.Areas.{IsBoxInside};
ghost use Rattle.k2_tree.specs.Tree.{codes_of, tree_bits, tree_with, IsTree};
ghost use Rattle.k2_tree.specs.TreeSquares.{holds_cell, squares_of, node_width, area_of, child_at, least_cell_of, level_of, node_of, IsSquareOf};
ghost use Rattle.k2_tree.specs.PendingChildren.{StandsAt, nodes_of};
ghost use Rattle.k2_tree.specs.Flaws.{tree_flaw, StandsFor, IsTreeFault};
ghost use Rattle.k2_tree.specs.Pruning.{child_nodes, kept_leaves, leaves_of, passes_at, square_count, wanted_of, IsKeptFor};
ghost use Rattle.k2_tree.specs.Pruned.{pruned_budget, pruned_left, pruned_tree};
ghost use Rattle.track_types.specs.declared.cell.Cell.{Cell};
ghost use Rattle.track_types.specs.declared.limit.TheConstants.{MAX_OBJECTS, MAX_TREE};
ghost use Rattle.bit_rank.specs.Cost.{window_reads};
ghost use Rattle.k2_tree.specs.Cost.{child_reads, climb_reads, descent_reads};

use crate::building::split_by_codes;
use crate::checking::find_flaw;
use crate::climb::code_of_leaf;
use crate::counting::upper_of;
use crate::descent::{child_at, find_leaf};
use crate::fault::TreeFault;
use crate::groups::{fan_of, group_start, square_at, width_below};
use crate::keep::Keep;
use crate::listing::{Listing, cells_of_spots, codes_of_spots, spots_in};
use crate::morton_code::{cell_at, codes_of_cells, is_in_grid, morton};
use crate::pending_children::PendingChildren;
use crate::pruned::Pruned;
use crate::square::Square;
use crate::square_walk::SquareWalk;
use arrayvec::ArrayVec;
use bit_rank::{Bits, NoRoom};
use std::alloc::Global;
use std::marker::Model;
use std::sync::ledger::Ledger;
use step_count::Steps;
use track_types::{BitList, Cell, Memory};

// The most squares that a square is split in.
const MOST_CHILDREN: usize = 16;

/// A set of cells in the grid of side `2^height` whose least corner is a base cell.
///
/// The bits are those of a k2-tree (Brisaboa, Ladra and Navarro, "Compact representation of web
/// graphs with extended functionality", 2014). Level by level from the top, each square that holds
/// a cell has a group of bits, one for each of its children. The upper levels may be wide: they
/// split a square in sixteen, the others in four. The cells are the tree's leaves, numbered from 0
/// in Morton order, whatever the levels.
#[derive(Drop)]
pub struct K2Tree {
    bits: Bits,
    height: u32,
    // How many levels are wide. They stand at the top, and take two binary digits of a coordinate.
    wide: u32,
    // How many squares these levels split.
    upper: u32,
    base: Cell,
}

impl Model for K2Tree {
    ghost use Rattle.k2_tree.specs.Tree.{Tree, tree_of, IsStoredTree};

    ghost Value = { Tree };

    ghost view = { λ t. tree_of t.height t.wide t.base t.bits };

    ghost invariant = { λ t. IsStoredTree t.height t.wide t.base t.bits t.upper };
}

impl K2Tree {
    /// The tree of a set of cells, in one pass over them for each level.
    ///
    /// The cells ascend in Morton order, so that none stands twice, and there are at most
    /// `MAX_OBJECTS`. The height is from 1 to `MAX_HEIGHT`, and the base's coordinates are within
    /// `MAX_ASKED` of 0. The `wide` upper levels split a square in sixteen; each takes two of the
    /// height. Memory is taken for the Morton numbers, the bits and their directory.
    pub fn build(
        alloc: Global,
        cells: &[Cell],
        height: u32,
        wide: u32,
        base: Cell,
    ) -> Result<K2Tree, Memory>
        requires grid { IsGrid height base }
        requires fits { 2 * wide ≤ height }
        requires few { length cells.now ≤ MAX_OBJECTS }
        requires inside { All (IsInGrid height base) cells.now }
        requires ascending { IsStrictlyIncreasing (map (morton_of height base) cells.now) }
        ensures ok { IfOk result (λ t. t ≡ tree_with height wide base cells.now) }
    {
        let codes = codes_of_cells(alloc, cells, height, base)?;
        let (list, upper) = split_by_codes(alloc, codes.as_slice(), height, wide)?;
        match Bits::from_list(alloc, list) {
            Ok(bits) => Ok(K2Tree {
                bits,
                height,
                wide,
                upper,
                base,
            }),
            Err(NoRoom) => Err(Memory),
        }
    }

    /// Takes bits as a tree with `wide` wide levels, in two passes over them and a third over those of
    /// the wide levels.
    ///
    /// There are at most `MAX_TREE` bits. The height is from 1 to `MAX_HEIGHT`, each wide level takes
    /// two of it, and the base's coordinates are within `MAX_ASKED` of 0. `Flaw` says at which place
    /// the bits first fail to be such a tree's. Memory is taken for the directory alone.
    pub fn check(
        alloc: Global,
        bits: BitList,
        height: u32,
        wide: u32,
        base: Cell,
    ) -> Result<K2Tree, TreeFault>
        requires grid { IsGrid height base }
        requires fits { 2 * wide ≤ height }
        requires few { length bits ≤ MAX_TREE }
        ensures ok { IfOk result (λ t. StandsFor height wide base bits t) }
        ensures exact { OnOk result (tree_flaw (widths_of height wide) bits ≡ None) }
        ensures flaw { IfErr result (λ fault. IsTreeFault height wide bits fault) }
    {
        if let Some(place) = find_flaw(&bits, height, wide) {
            return Err(TreeFault::Flaw { place });
        }
        match K2Tree::of_bits(alloc, bits, height, wide, base) {
            Ok(tree) => Ok(tree),
            Err(Memory) => Err(TreeFault::Memory),
        }
    }

    /// The same for bits that are known to be such a tree's, which are not judged again: of the bits, those of the wide
    /// levels are counted. `Memory` is its only refusal.
    pub fn of_bits(
        alloc: Global,
        bits: BitList,
        height: u32,
        wide: u32,
        base: Cell,
    ) -> Result<K2Tree, Memory>
        requires grid { IsGrid height base }
        requires fits { 2 * wide ≤ height }
        requires few { length bits ≤ MAX_TREE }
        requires flawless { tree_flaw (widths_of height wide) bits ≡ None }
        ensures ok { IfOk result (λ t. StandsFor height wide base bits t) }
    {
        let upper = upper_of(&bits, wide);
        match Bits::from_list(alloc, bits) {
            Ok(bits) => Ok(K2Tree {
                bits,
                height,
                wide,
                upper,
                base,
            }),
            Err(NoRoom) => Err(Memory),
        }
    }

    /// The tree bits. The tree is given up, so that none of them can be read uncounted while it is
    /// lent.
    pub fn bits(self) -> BitList
        ensures { result ≡ tree_bits self }
    {
        self.bits.into_list()
    }

    /// The number of leaves.
    pub fn leaves(&self) -> u32
        ensures value { result ≡ length self.now.cells }
        ensures tree { IsTree self.now }
    {
        if self.bits.len() == 0 {
            return 0;
        }
        self.bits.ones() + 1 - square_at(self.upper, self.bits.len())
    }

    /// The cell of a leaf, which is one of this tree's. It climbs to the top by one `select1` for
    /// each level, and takes no memory.
    pub fn leaf_cell<L: Ledger>(&self, leaf: u32, steps: &mut Steps<L>) -> Cell
        requires { leaf < length self.now.cells }
        ensures value { slice_get self.now.cells leaf ≡ Some result }
        ensures cost { steps.new ≤ steps.old + climb_reads self.now.height }
    {
        let code = code_of_leaf(&self.bits, self.height, self.wide, self.upper, leaf, steps);
        cell_at(code, self.height, self.base)
    }

    /// The number of a cell, and `None` if and only if the set does not have it, also outside the
    /// grid. It goes down from the top by one bit and one `rank1` for each level, and takes no
    /// memory.
    pub fn leaf_of<L: Ledger>(&self, cell: Cell, steps: &mut Steps<L>) -> Option<u32>
        ensures value { MatchOption result (Contains self.now.cells cell → ⊥)
            (λ leaf. slice_get self.now.cells leaf ≡ Some cell) }
        ensures cost { steps.new ≤ steps.old + descent_reads self.now.height }
    {
        if self.bits.len() == 0 {
            return None;
        }
        if !is_in_grid(cell, self.height, self.base) {
            return None;
        }
        let code = morton(cell, self.height, self.base);
        find_leaf(&self.bits, self.height, self.wide, self.upper, code, steps)
    }

    /// The square of the whole grid, if the set has a cell. It reads nothing that is counted.
    pub fn root(&self) -> Option<Square>
        ensures none { IfNone result (self.now.cells ≡ []) }
        ensures found { IfSome result (λ square. IsSquareOf self.now square) }
        ensures node { IfSome result (λ square. node_of square ≡ node self.now.height 0) }
        ensures tree { IsTree self.now }
    {
        if self.bits.len() == 0 {
            return None;
        }
        Some(Square::whole(self.base, self.height))
    }

    /// The child of a square, by its digit: the last digit to base 4 of its Morton number, or the
    /// last two where the square is split in sixteen. `None` if and only if it holds no cell of the
    /// set. Its cells lie within the square, which is one of this tree's and no cell. The digit is
    /// below `fan`.
    pub fn child<L: Ledger>(
        &self,
        square: &Square,
        digit: u32,
        steps: &mut Steps<L>,
    ) -> Option<Square>
        requires of { IsSquareOf self.now square.now }
        requires inner { 1 ≤ level_of square.now }
        requires small { digit < fan_of (node_width self.now (node_of square.now)) }
        ensures none { IfNone result (holds_cell self.now
            (child_at (node_width self.now (node_of square.now)) (node_of square.now) digit) ≡ false) }
        ensures found { IfSome result (λ child. IsSquareOf self.now child) }
        ensures node { IfSome result (λ child.
            node_of child ≡ child_at (node_width self.now (node_of square.now)) (node_of square.now) digit) }
        ensures inside { IfSome result (λ child.
            IsBoxInside (area_of child) (area_of square.now)) }
        ensures cost { steps.new ≤ steps.old + child_reads }
    {
        let place = group_start(self.upper, square.number()) + digit;
        let Some(number) = child_at(&self.bits, place, steps) else {
            return None;
        };
        Some(square.child(self.width(square), digit, number))
    }

    /// The children of a square that hold a cell, by digit: at most 16, in Morton order. Their cells
    /// lie within the square, which is one of this tree's and no cell. All of them are found by one
    /// window of the bits and one rank, and no memory is taken.
    pub fn children<L: Ledger>(
        &self,
        square: &Square,
        steps: &mut Steps<L>,
    ) -> ArrayVec<Square, MOST_CHILDREN>
        requires of { IsSquareOf self.now square.now }
        requires inner { 1 ≤ level_of square.now }
        ensures nodes { map node_of result.items ≡ child_nodes self.now (node_of square.now) }
        ensures found { All (IsSquareOf self.now) result.items }
        ensures inside { All (λ child.
            IsBoxInside (area_of child) (area_of square.now)) result.items }
        ensures cost { steps.new ≤ steps.old + child_reads }
    {
        let mut pending = self.pending_children(*square, steps);
        let mut children = ArrayVec::new();
        while let Some(child) = pending.next() {
            children.push(child);
        }
        children
    }

    /// The number of the leaf that a square is, which is one of this tree's. It reads nothing that
    /// is counted.
    pub fn leaf_number<L: Ledger>(&self, square: &Square, steps: &mut Steps<L>) -> u32
        requires of { IsSquareOf self.now square.now }
        requires leaf { level_of square.now ≡ 0 }
        ensures value { slice_get self.now.cells result ≡ Some (least_cell_of square.now) }
        ensures tree { IsTree self.now }
        ensures cost { steps.new ≤ steps.old }
    {
        square.number() - square_at(self.upper, self.bits.len())
    }

    /// How many children a square is split in that is no cell: 4 or 16. It reads nothing.
    pub fn fan(&self, square: &Square) -> u32
        requires { 1 ≤ level_of square.now }
        ensures { result ≡ fan_of (node_width self.now (node_of square.now)) }
    {
        fan_of(self.width(square))
    }

    // The width of the level below a square.
    fn width(&self, square: &Square) -> u32
        requires { 1 ≤ level_of square.now }
        ensures value { result ≡ node_width self.now (node_of square.now) }
        ensures some { 1 ≤ result }
        ensures narrow { result ≤ 2 }
        ensures inner { result ≤ level_of square.now }
    {
        width_below(self.height - 2 * self.wide, square.level())
    }

    /// The cells with their Morton numbers, in Morton order. It goes down level by level, by one window of the bits for
    /// each square, and takes memory for the lists and for the squares of two levels at a time.
    pub fn listing<L: Ledger>(&self, alloc: Global, steps: &mut Steps<L>) -> Result<Listing, Memory>
        ensures codes { IfOk result (λ listing. listing.codes.items ≡ codes_of self.now) }
        ensures cells { IfOk result (λ listing. listing.cells.items ≡ self.now.cells) }
        ensures cost { steps.new ≤ steps.old + window_reads * length (squares_of self.now) }
    {
        let spots = spots_in(alloc, &self.bits, self.height, self.wide, steps)?;
        let codes = codes_of_spots(alloc, &spots)?;
        let cells = cells_of_spots(alloc, &spots, self.base)?;
        Ok(Listing { codes, cells })
    }

    /// The leaves for which `keep` is true on every square from the whole grid to the cell itself,
    /// in Morton order, each with its cell. A square that fails is skipped with all that is in it,
    /// so that nothing is lost where `keep` is false only on boxes in which nothing wanted lies. It
    /// takes no memory, and its draws read at most one window and one rank for each square with a
    /// cell on which `keep` is true.
    pub fn pruned<F: Keep>(&self, keep: F) -> Pruned<'_, F>
        ensures tree { pruned_tree result ≡ self.now }
        ensures left { pruned_left F.keeps result ≡ kept_leaves (F.keeps keep) self.now }
        ensures weights { (weight : ℕ × Cell → ℕ) → sum_by weight (pruned_left F.keeps result)
            ≡ sum_by (λ leaf. if passes_at (F.keeps keep) self.now leaf.1 then weight leaf else 0)
            (leaves_of self.now) }
        ensures budget { pruned_budget F.keeps result ≡ child_reads * square_count (F.keeps keep) self.now }
        ensures wanted { (wanted : Cell → Bool) → IsKeptFor (F.keeps keep) wanted
            → wanted_of wanted (pruned_left F.keeps result)
            ≡ wanted_of wanted (leaves_of self.now) }
    {
        Pruned::new(SquareWalk::new(self), keep)
    }

    // The children that hold a cell, in order, of a square of this tree that is no cell. One window
    // says which there are, and one rank their numbers.
    pub(crate) fn pending_children<L: Ledger>(
        &self,
        square: Square,
        steps: &mut Steps<L>,
    ) -> PendingChildren
        requires of { IsSquareOf self.now square }
        requires inner { 1 ≤ level_of square }
        ensures square { result.square ≡ square }
        ensures nodes { nodes_of result ≡ child_nodes self.now (node_of square) }
        ensures stands { StandsAt (squares_of self.now) result.number (nodes_of result) }
        ensures cost { steps.new ≤ steps.old + child_reads }
    {
        let bits = &self.bits;
        let width = self.width(&square);
        let place = group_start(self.upper, square.number());
        let digits = bits.window(place, fan_of(width), steps);
        let number = bits.rank1(place, steps) + 1;
        PendingChildren::new(square, width, digits, number)
    }
}
