ghost use Rattle.std.specs.Prelude.{◌≡◌, ◌^◌, ◌<◌, ◌≤◌, length, map, All, IfOk};
ghost use Rattle.std.specs.List.Sorted.{IsStrictlyIncreasing};
ghost use Rattle.k2_tree.specs.Morton.{cell_of, morton_of, IsGrid, IsInGrid};
ghost use Rattle.track_types.specs.declared.limit.TheConstants.{MAX_HEIGHT};

use super::{BASE, at};
use crate::random::next;
use crate::touching::Touching;
use k2_tree::{K2Tree, cell_at};
use std::alloc::{AllocError, Global};
use std::marker::Brand;
use std::sync::ledger::Blank;
use std::test::Fail;
use step_count::{Reads, Steps};
use track_types::{Cell, Lazy};

// A tree is built of at most so many cells.
const CELLS: usize = 1 << 16;

// Ascending Morton numbers of a grid, about one in so many.
fn random_codes(alloc: Global, height: u32, seed: u64, one_in: u64) -> Result<Vec<u64>, AllocError>
    requires low { height ≤ MAX_HEIGHT }
    requires some { 1 ≤ one_in }
    ensures few { IfOk result (λ codes. length codes.items ≤ 2 ^ 16) }
    ensures small { IfOk result (λ codes. All (λ code. code < 4 ^ height) codes.items) }
    ensures ascending { IfOk result (λ codes. IsStrictlyIncreasing codes.items) }
{
    let mut codes = Vec::new(alloc);
    let mut state = seed;
    for code in 0..1 << (2 * height) {
        if codes.len() == CELLS {
            break;
        }
        state = next(state);
        if (state >> 33) % one_in == 0 {
            codes.push(code)?;
        }
    }
    Ok(codes)
}

// The cells of such numbers.
fn random_cells(alloc: Global, height: u32, seed: u64, one_in: u64) -> Result<Vec<Cell>, AllocError>
    requires grid { IsGrid height BASE }
    requires some { 1 ≤ one_in }
    ensures few { IfOk result (λ cells. length cells.items ≤ 2 ^ 16) }
    ensures inside { IfOk result (λ cells. All (IsInGrid height BASE) cells.items) }
    ensures ascending { IfOk result (λ cells.
        IsStrictlyIncreasing (map (morton_of height BASE) cells.items)) }
{
    let codes = random_codes(alloc, height, seed, one_in)?;
    cells_of(alloc, codes.as_slice(), height)
}

// The cells of the numbers.
fn cells_of(alloc: Global, codes: &[u64], height: u32) -> Result<Vec<Cell>, AllocError>
    requires { IsGrid height BASE }
    ensures ok { IfOk result (λ cells. cells.items ≡ map (cell_of height BASE) codes.now) }
{
    codes
        .iter()
        .map(|code| cell_at(*code, height, BASE))
        .collect(alloc)
}

// The place of a cell in the list.
fn place_in(cells: &[Cell], cell: Cell) -> Option<usize> {
    cells.iter().position(|other| *other == cell)
}

// Whether each leaf has the cell at its place in the list, and is found from it.
fn do_leaf_cells_agree<L: Reads>(tree: &K2Tree, cells: &[Cell], steps: &mut Steps<L>) -> bool {
    for leaf in 0..tree.leaves() {
        let cell = tree.leaf_cell(leaf, steps);
        if tree.leaf_of(cell, steps) != Some(leaf)
            || cells.get(leaf as usize).copied() != Some(cell)
        {
            return false;
        }
    }
    tree.leaves() as usize == cells.len()
}

// Whether each cell has its leaf, from one left of the grid and below it up to another, which may lie beyond it.
fn do_leaves_of_cells_agree<L: Reads>(
    tree: &K2Tree,
    cells: &[Cell],
    far: i64,
    steps: &mut Steps<L>,
) -> bool {
    for y in -2..far {
        for x in -2..far {
            let leaf = tree.leaf_of(at(x, y), steps).map(|leaf| leaf as usize);
            if leaf != place_in(cells, at(x, y)) {
                return false;
            }
        }
    }
    true
}

// Whether the leaves that a walk draws are those whose cells the region has.
fn does_walk_agree<L: Reads>(
    tree: &K2Tree,
    cells: &[Cell],
    touching: Touching,
    steps: &mut Steps<L>,
) -> bool
    requires { All (IsInGrid tree.now.height BASE) cells.now }
{
    let region = touching.region();
    let mut walk = tree.pruned(touching);
    let mut leaf: u32 = 0;
    for cell in cells {
        if region.contains(*cell) && walk.draw(steps) != Some((leaf, *cell)) {
            return false;
        }
        leaf = leaf.wrapping_add(1);
    }
    walk.draw(steps).is_none()
}

// Rects, an inverted and a far one among them.
const RECTS: [[i32; 4]; 5] = [
    [10, -20, 73, 43],
    [20, -5, 45, 9],
    [-9, -90, 31, 12],
    [30, 9, 29, 20],
    [80, -20, 90, 43],
];

const DISCS: [(i32, i32, u32); 4] = [(42, 11, 0), (42, 11, 9), (0, -30, 40), (-7, 60, 20)];

// Whether the walks over the leaves of all rects and discs agree.
fn do_walks_agree<L: Reads>(tree: &K2Tree, cells: &[Cell], steps: &mut Steps<L>) -> bool
    requires { All (IsInGrid tree.now.height BASE) cells.now }
{
    for [x1, y1, x2, y2] in RECTS {
        if !does_walk_agree(tree, cells, Touching::rect(x1, y1, x2, y2), steps) {
            return false;
        }
    }
    for (x, y, r) in DISCS {
        if !does_walk_agree(tree, cells, Touching::disc(x, y, r), steps) {
            return false;
        }
    }
    true
}

// Whether all agree, over steps of its own.
fn does_all_agree<L: Reads>(
    host: &HostRuntime,
    tree: &K2Tree,
    cells: &[Cell],
    far: i64,
    blank: Blank,
) -> bool
    requires name { blank.name ≡ L.name }
    requires parts { blank.parts ≡ L.parts }
    requires some { 0 < L.parts }
    requires inside { All (IsInGrid tree.now.height BASE) cells.now }
{
    let mut steps = Steps::<L>::new(host, blank);
    do_leaf_cells_agree(tree, cells, &mut steps)
        && do_leaves_of_cells_agree(tree, cells, far, &mut steps)
        && do_walks_agree(tree, cells, &mut steps)
}

#[test]
fn walks_and_leaves_agree_with_a_plain_list(rt: HostRuntime) -> Result<(), Fail> {
    for (height, wide, seed, one_in, least, far) in [
        (6, 0, 1, 13, 250, 66),
        (6, 2, 2026, 4, 900, 66),
        (7, 3, 5, 40, 250, 130),
        (9, 0, 7, 3, CELLS, 2),
    ] {
        let cells = random_cells(rt.alloc(), height, seed, one_in)?;
        assert!(rt; least <= cells.len(), "few cells");
        let tree = K2Tree::build(rt.alloc(), cells.as_slice(), height, wide, BASE)?;
        let agrees = does_all_agree::<Brand>(&rt, &tree, cells.as_slice(), far, Blank::new(1));
        assert!(rt; agrees, "one in {one_in}");
    }
    Ok(())
}
