ghost use Rattle.std.specs.Prelude.{◌≡◌, ◌<◌, ◌≤◌, None, IfOk};
ghost use Rattle.k2_tree.specs.TreeSquares.{level_of, IsSquareOf};

use super::{ORIGIN, at, no_cell, three_cells};
use crate::touching::Touching;
use k2_tree::{K2Tree, Square};
use std::alloc::{AllocError, Global};
use std::marker::Brand;
use std::sync::ledger::Blank;
use std::test::Fail;
use step_count::{Reads, Steps};
use track_types::{Cell, Lazy, Memory, drawn};

// A leaf with its cell.
type Leaf = (u32, Cell);

// What a walk over the leaves that a rect touches draws, leaf by leaf, and after them.
fn three_drawn<L: Reads>(
    tree: &K2Tree,
    steps: &mut Steps<L>,
) -> (Option<Leaf>, Option<Leaf>, bool) {
    let mut walk = tree.pruned(Touching::rect(11, -20, 13, -17));
    let first = walk.draw(steps);
    let second = walk.draw(steps);
    let ends = walk.draw(steps).is_none();
    (first, second, ends && walk.draw(steps).is_none())
}

// The leaves that a rect touches, by a walk as an iterator.
fn leaves_drawn<L: Reads>(
    alloc: Global,
    tree: &K2Tree,
    steps: &mut Steps<L>,
) -> Result<Vec<(u32, Cell)>, AllocError> {
    let mut walk = tree.pruned(Touching::rect(11, -20, 13, -17));
    drawn(&mut walk, steps).collect(alloc)
}

// The first leaf of three cells that a far rect touches. It reads nothing that is counted.
fn far_leaf<L: Reads>(alloc: Global, steps: &mut Steps<L>) -> Result<Option<(u32, Cell)>, Memory>
    ensures none { IfOk result (λ found. found ≡ None) }
    ensures cost { steps.new ≤ steps.old }
{
    let tree = three_cells(alloc)?;
    let mut walk = tree.pruned(Touching::rect(15, -15, 16, -14));
    Ok(walk.draw(steps))
}

// The bounds of a square's area.
fn bounds(square: &Square) -> (i64, i64, i64, i64) {
    let area = square.area();
    (area.x1, area.y1, area.x2, area.y2)
}

// Whether a walk leads from the whole grid by the first child's last child to a cell, beside a child and none.
fn is_led_to_a_leaf<L: Reads>(tree: &K2Tree, steps: &mut Steps<L>) -> bool {
    let Some(whole) = tree.root() else {
        return false;
    };
    if whole.is_leaf() || bounds(&whole) != (10, -20, 13, -17) {
        return false;
    }
    let Some(second) = tree.child(&whole, 1, steps) else {
        return false;
    };
    if bounds(&second) != (12, -20, 13, -19) || tree.child(&whole, 2, steps).is_some() {
        return false;
    }
    let Some(first) = tree.child(&whole, 0, steps) else {
        return false;
    };
    if first.is_leaf() || bounds(&first) != (10, -20, 11, -19) {
        return false;
    }
    is_last_child_a_leaf(tree, &first, steps)
}

fn is_last_child_a_leaf<L: Reads>(tree: &K2Tree, first: &Square, steps: &mut Steps<L>) -> bool
    requires of { IsSquareOf tree.now first.now }
    requires inner { 1 ≤ level_of first.now }
{
    let Some(cell) = tree.child(first, 3, steps) else {
        return false;
    };
    if !cell.is_leaf() || bounds(&cell) != (11, -19, 11, -19) {
        return false;
    }
    tree.leaf_number(&cell, steps) == 1
}

// The children of a root that is split in sixteen.
const AREAS: [(i64, i64, i64, i64); 3] = [(0, 0, 3, 3), (4, 0, 7, 3), (12, 12, 15, 15)];

// Whether a square has so many children in all, and these areas are those of its children there.
fn has_children<L: Reads>(
    tree: &K2Tree,
    square: &Square,
    fan: u32,
    areas: &[(i64, i64, i64, i64)],
    steps: &mut Steps<L>,
) -> bool
    requires { IsSquareOf tree.now square.now }
{
    if square.is_leaf() || tree.fan(square) != fan {
        return false;
    }
    let children = tree.children(square, steps);
    let children = children.as_slice();
    children.len() == areas.len()
        && children
            .iter()
            .zip(areas)
            .all(|(child, area)| bounds(child) == *area)
}

// A root that is split in sixteen, and one of its children, which is split in four.
fn is_wide_root_walked<L: Reads>(tree: &K2Tree, steps: &mut Steps<L>) -> bool {
    let Some(whole) = tree.root() else {
        return false;
    };
    if whole.is_leaf() || !has_children(tree, &whole, 16, &AREAS, steps) {
        return false;
    }
    let Some(second) = tree.child(&whole, 1, steps) else {
        return false;
    };
    bounds(&second) == (4, 0, 7, 3) && has_children(tree, &second, 4, &[(4, 0, 5, 1)], steps)
}

// The same over a tree and steps of its own.
fn wide_root_walked<L: Reads>(host: &HostRuntime, blank: Blank) -> Result<bool, Memory>
    requires name { blank.name ≡ L.name }
    requires parts { blank.parts ≡ L.parts }
    requires some { 0 < L.parts }
{
    let mut steps = Steps::<L>::new(host, blank);
    let cells = [
        Cell { x: 3, y: 2 },
        Cell { x: 5, y: 0 },
        Cell { x: 15, y: 15 },
    ];
    let tree = K2Tree::build(host.alloc(), cells.as_slice(), 4, 1, ORIGIN)?;
    Ok(is_wide_root_walked(&tree, &mut steps))
}

// Whether three cells are walked over steps of their own.
fn are_walked<L: Reads>(host: &HostRuntime, tree: &K2Tree, blank: Blank) -> Result<bool, Memory>
    requires name { blank.name ≡ L.name }
    requires parts { blank.parts ≡ L.parts }
    requires some { 0 < L.parts }
{
    let mut steps = Steps::<L>::new(host, blank);
    let (first, last) = ((1, at(1, 1)), (2, at(3, 0)));
    let are_drawn = three_drawn(tree, &mut steps) == (Some(first), Some(last), true);
    let leaves = leaves_drawn(host.alloc(), tree, &mut steps)?;
    let are_collected = leaves.as_slice() == [first, last].as_slice();
    let is_far = far_leaf(host.alloc(), &mut steps)?.is_none();
    let is_led = is_led_to_a_leaf(tree, &mut steps);
    Ok(are_drawn && are_collected && is_far && is_led)
}

#[test]
fn three_cells_are_walked_square_by_square(rt: HostRuntime) -> Result<(), Fail> {
    let tree = three_cells(rt.alloc())?;
    assert!(rt;
        are_walked::<Brand>(&rt, &tree, Blank::new(1))?,
        "three cells"
    );
    assert!(rt;
        wide_root_walked::<Brand>(&rt, Blank::new(1))?,
        "a wide root"
    );
    let empty = no_cell(rt.alloc())?;
    assert!(rt; empty.root().is_none(), "no root");
    Ok(())
}
