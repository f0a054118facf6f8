ghost use Rattle.std.specs.Prelude.{◌≡◌, ◌<◌, ◌≤◌, [], ◌∷◌, length, map, IfOk};
ghost use Rattle.k2_tree.specs.Morton.{cell_of};
ghost use Rattle.k2_tree.specs.Tree.{tree_with};
ghost use Rattle.track_types.specs.declared.limit.TheConstants.{MAX_TREE};

use k2_tree::{K2Tree, TreeFault, morton};
use std::alloc::Global;
use std::marker::Brand;
use std::sync::ledger::{Blank, Ledger};
use std::test::Fail;
use step_count::Steps;
use track_types::{BitList, Cell, Memory};

mod random;
mod walks;

const O: bool = false;

const I: bool = true;

const ORIGIN: Cell = Cell { x: 0, y: 0 };

const BASE: Cell = Cell { x: 10, y: -20 };

// A cell so far from the base.
fn at(x: i64, y: i64) -> Cell {
    Cell {
        x: x.wrapping_add(10),
        y: y.wrapping_sub(20),
    }
}

// The tree of three cells of a grid of side 4.
fn three_cells(alloc: Global) -> Result<K2Tree, Memory>
    ensures ok { IfOk result (λ t. t ≡ tree_with 2 0 BASE (map (cell_of 2 BASE) (0 ∷ 3 ∷ 5 ∷ []))) }
{
    let cells = [
        Cell { x: 10, y: -20 },
        Cell { x: 11, y: -19 },
        Cell { x: 13, y: -20 },
    ];
    K2Tree::build(alloc, cells.as_slice(), 2, 0, BASE)
}

// Whether each leaf is found from its cell.
fn are_ways_back<L: Ledger>(tree: &K2Tree, steps: &mut Steps<L>) -> bool {
    for leaf in 0..tree.leaves() {
        let cell = tree.leaf_cell(leaf, steps);
        if tree.leaf_of(cell, steps) != Some(leaf) {
            return false;
        }
    }
    true
}

// Whether the leaves of three cells are found, and none where no cell is, in the grid and outside.
fn are_leaves_found<L: Ledger>(host: &HostRuntime, tree: &K2Tree, blank: Blank) -> bool
    requires name { blank.name ≡ L.name }
    requires parts { blank.parts ≡ L.parts }
    requires some { 0 < L.parts }
{
    let mut steps = Steps::<L>::new(host, blank);
    let first = tree.leaf_of(at(0, 0), &mut steps);
    let last = tree.leaf_of(at(3, 0), &mut steps);
    let within = tree.leaf_of(at(2, 0), &mut steps);
    let outside = tree.leaf_of(at(4, 0), &mut steps);
    let are_found = first == Some(0) && last == Some(2) && within.is_none() && outside.is_none();
    are_found && are_ways_back(tree, &mut steps)
}

// Whether a set has so many leaves, and these bits, in one word or none.
fn are_bits(tree: K2Tree, leaves: u32, len: u32, words: &[u64]) -> bool {
    let count = tree.leaves();
    let bits = tree.bits();
    count == leaves && bits.len() == len && bits.into_words().as_slice() == words
}

// The bits as a list.
fn list_of(alloc: Global, bits: &[bool]) -> Result<BitList, Memory>
    requires { length bits.now ≤ MAX_TREE }
    ensures { IfOk result (λ list. list ≡ bits.now) }
{
    Ok(BitList::pack(alloc, bits)?)
}

// Bits, the height and the wide levels of a tree, and the first flaw that they have as one.
type Case = (&'static str, &'static [bool], (u32, u32), Option<u32>);

const CASES: [Case; 8] = [
    ("a group is missing", &[O, I, O, O], (2, 0), Some(4)),
    ("an empty group", &[O, I, O, O, O, O, O, O], (2, 0), Some(4)),
    (
        "a group too many",
        &[O, I, O, O, O, I, O, O, I, O, O, O],
        (2, 0),
        Some(8),
    ),
    ("an empty root", &[O, O, O, O], (1, 0), Some(0)),
    (
        "three cells",
        &[I, I, O, O, I, O, O, I, O, I, O, O],
        (2, 0),
        None,
    ),
    ("no bits", &[], (2, 0), None),
    ("an empty wide root", &[O; 16], (4, 1), Some(0)),
    (
        "a wide root alone",
        &[O, I, O, O, O, O, O, O, O, O, O, O, O, O, O, O],
        (4, 1),
        Some(16),
    ),
];

// What bits are as a tree of this height, at most 20, with so many wide levels; `Memory` where they are too many.
fn checked(alloc: Global, bits: &[bool], (height, wide): (u32, u32)) -> Result<K2Tree, TreeFault> {
    if bits.len() > 100 || height < 1 || height > 20 || wide > 10 || 2 * wide > height {
        return Err(TreeFault::Memory);
    }
    let Ok(list) = list_of(alloc, bits) else {
        return Err(TreeFault::Memory);
    };
    K2Tree::check(alloc, list, height, wide, BASE)
}

// Whether bits are a tree, or have this first flaw.
fn has_flaw(alloc: Global, (_what, bits, levels, want): Case) -> Result<bool, TreeFault> {
    match checked(alloc, bits, levels) {
        Ok(_tree) => Ok(want.is_none()),
        Err(TreeFault::Flaw { place }) => Ok(want == Some(place)),
        Err(TreeFault::Memory) => Err(TreeFault::Memory),
    }
}

// Whether checked bits stay as they are.
fn do_bits_stay(alloc: Global) -> Result<bool, TreeFault> {
    let bits = [I, I, O, O, I, O, O, I, O, I, O, O];
    let tree = checked(alloc, &bits, (2, 0))?;
    Ok(are_bits(tree, 3, 12, &[0b0010_1001_0011]))
}

#[test]
fn bits_are_a_tree_or_have_their_first_flaw(rt: HostRuntime) -> Result<(), Fail> {
    for case in CASES {
        let (what, ..) = case;
        assert!(rt; has_flaw(rt.alloc(), case)?, "{what}");
    }
    assert!(rt; do_bits_stay(rt.alloc())?, "checked bits stay");
    let text = format!(in rt.alloc(); "{}", TreeFault::Flaw { place: 4 })?;
    let want = "no tree has these bits: the first flaw is at place 4";
    assert!(rt; text.as_str() == want, "a flaw's text");
    Ok(())
}

fn corner(alloc: Global) -> Result<K2Tree, Memory> {
    K2Tree::build(alloc, [Cell { x: 3, y: 0 }].as_slice(), 2, 0, ORIGIN)
}

fn diagonal(alloc: Global) -> Result<K2Tree, Memory> {
    let cells = [ORIGIN, Cell { x: 1, y: 1 }];
    K2Tree::build(alloc, cells.as_slice(), 1, 0, ORIGIN)
}

fn wide_level(alloc: Global) -> Result<K2Tree, Memory> {
    K2Tree::build(alloc, [Cell { x: 5, y: 0 }].as_slice(), 4, 1, ORIGIN)
}

fn no_cell(alloc: Global) -> Result<K2Tree, Memory> {
    K2Tree::build(alloc, [].as_slice(), 2, 0, BASE)
}

// Whether the bits of a corner, a diagonal, a wide level and no cell are these.
fn have_sets_their_bits(alloc: Global) -> Result<bool, Memory> {
    let is_corner = are_bits(corner(alloc)?, 1, 8, &[0b0010_0010]);
    let is_diagonal = are_bits(diagonal(alloc)?, 2, 4, &[0b1001]);
    let words = [0b0010_0001_0000_0000_0000_0010];
    let is_wide = are_bits(wide_level(alloc)?, 1, 24, &words);
    Ok(is_corner && is_diagonal && is_wide && are_bits(no_cell(alloc)?, 0, 0, &[]))
}

// Whether the row's bit is above the column's.
fn is_row_above() -> bool {
    let above = morton(Cell { x: 10, y: -19 }, 2, BASE);
    above == 2 && morton(Cell { x: 13, y: -20 }, 2, BASE) == 5
}

#[test]
fn sets_have_their_bits(rt: HostRuntime) -> Result<(), Fail> {
    assert!(rt; is_row_above(), "the row's bit above");
    let tree = three_cells(rt.alloc())?;
    assert!(rt;
        are_leaves_found::<Brand>(&rt, &tree, Blank::new(1)),
        "leaves"
    );
    assert!(rt; are_bits(tree, 3, 12, &[0b0010_1001_0011]), "three cells");
    assert!(rt; have_sets_their_bits(rt.alloc())?, "other sets");
    Ok(())
}
