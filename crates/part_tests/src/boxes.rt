ghost use Rattle.std.specs.Prelude.{◌≡◌, ◌^◌, ◌<◌, ◌≤◌, All, IfOk};
ghost use Rattle.k2_tree.specs.TreeBits.{code_limit};
ghost use Rattle.box_tree.specs.Boxes.{IsFrom};
ghost use Rattle.box_tree.specs.Places.{Ascends};
ghost use Rattle.box_tree.specs.Tree.{AreLevels};

use crate::random::next;
use box_tree::{BoxTree, BoxWalk};
use std::alloc::{AllocError, Global};
use std::marker::Brand;
use std::sync::ledger::Blank;
use std::test::Fail;
use step_count::{Reads, Steps};
use touching::Touching;
use track_types::{Cell, CellBox, Lazy, Memory};

mod touching;

const BASE: Cell = Cell { x: -30, y: 7 };

// Made-up places: a tree, and the numbers of their cells and their boxes as plain lists.
#[derive(Drop)]
struct Made {
    tree: BoxTree,
    codes: Vec<u64>,
    boxes: Vec<CellBox>,
}

// Numbers below a limit, each up to `most` above the one before, so that some are the same.
fn some_codes(alloc: Global, limit: u64, most: u32) -> Result<Vec<u64>, AllocError>
    requires { limit ≤ code_limit }
    ensures ascend { IfOk result (λ codes. Ascends 0 codes.items) }
    ensures inside { IfOk result (λ codes. All (λ code. code < limit) codes.items) }
{
    let mut codes = Vec::new(alloc);
    let mut state = limit;
    let mut code: u64 = 0;
    'made: for _ in 0..300 {
        if code >= limit {
            break;
        }
        codes.push(code)?;
        state = next(state);
        code += (state >> 33) % (u64::from(most) + 1);
    }
    Ok(codes)
}

// So many boxes near the base, of up to nine columns and rows.
fn some_boxes(alloc: Global, count: usize) -> Result<Vec<CellBox>, AllocError>
    ensures { IfOk result (λ boxes. All (IsFrom BASE) boxes.items) }
{
    let mut boxes = Vec::new(alloc);
    let mut state = 1;
    'made: for _ in 0..count {
        state = next(state);
        boxes.push(box_of(state))?;
    }
    Ok(boxes)
}

// A box near the base, of the bits of a number.
fn box_of(state: u64) -> CellBox
    ensures { IsFrom BASE result }
{
    let x = BASE.x + ((state >> 10) % 60) as i64;
    let y = BASE.y + ((state >> 20) % 60) as i64;
    CellBox {
        x1: x,
        y1: y,
        x2: x + ((state >> 30) % 9) as i64,
        y2: y + ((state >> 40) % 9) as i64,
    }
}

// The cell with a number: the lower bits of its digits are the column, the upper ones the row.
fn cell_of(code: u64) -> CellBox {
    let mut x: i64 = 0;
    let mut y: i64 = 0;
    let mut side: i64 = 1;
    let mut rest = code;
    for _ in 0..20 {
        x = x.wrapping_add(side.wrapping_mul((rest % 2) as i64));
        y = y.wrapping_add(side.wrapping_mul((rest / 2 % 2) as i64));
        side = side.wrapping_mul(2);
        rest /= 4;
    }
    let x = x.wrapping_add(BASE.x);
    let y = y.wrapping_add(BASE.y);
    CellBox {
        x1: x,
        y1: y,
        x2: x,
        y2: y,
    }
}

// The tree of a few places at such numbers.
fn tree_of(
    alloc: Global,
    height: u32,
    narrow: u32,
    digits: u32,
    codes: &[u64],
    boxes: &[CellBox],
) -> Result<BoxTree, Memory>
    requires levels { AreLevels height narrow digits }
    requires ascend { Ascends 0 codes.now }
    requires inside { All (λ code. code < 4 ^ digits) codes.now }
    requires from { All (IsFrom BASE) boxes.now }
{
    if codes.len() > 1000 {
        return Err(Memory);
    }
    if boxes.len() != codes.len() {
        return Err(Memory);
    }
    BoxTree::build(alloc, height, narrow, digits, BASE, codes, boxes)
}

// Made-up places in a grid of such levels.
fn make_places(
    alloc: Global,
    height: u32,
    narrow: u32,
    digits: u32,
    limit: u64,
    most: u32,
) -> Result<Made, Memory>
    requires levels { AreLevels height narrow digits }
    requires limit { limit ≡ 4 ^ digits }
    requires few { limit ≤ code_limit }
{
    let codes = some_codes(alloc, limit, most)?;
    let boxes = some_boxes(alloc, codes.len())?;
    let tree = tree_of(
        alloc,
        height,
        narrow,
        digits,
        codes.as_slice(),
        boxes.as_slice(),
    )?;
    Ok(Made { tree, codes, boxes })
}

// Whether a walk draws the places that a plain filter keeps, in order.
fn does_walk_agree<L: Reads>(made: &Made, search: Touching, steps: &mut Steps<L>) -> bool {
    let mut walk = BoxWalk::new(&made.tree, search);
    let mut place: u32 = 0;
    for (code, area) in made.codes.iter().zip(&made.boxes) {
        if search.square.meets(&cell_of(*code))
            && search.area.meets(area)
            && walk.draw(steps) != Some(place)
        {
            return false;
        }
        place = place.wrapping_add(1);
    }
    walk.draw(steps).is_none()
}

const GRID: CellBox = CellBox {
    x1: -99,
    y1: -99,
    x2: 99,
    y2: 99,
};

// Whether the searches of a cell and of a box agree, and those of what lies around them.
fn do_searches_agree<L: Reads>(
    made: &Made,
    square: CellBox,
    area: CellBox,
    steps: &mut Steps<L>,
) -> bool {
    for (square, area) in [(square, area), (square, GRID), (GRID, area), (area, area)] {
        if !does_walk_agree(made, Touching { square, area }, steps) {
            return false;
        }
    }
    true
}

// Whether those of each place do.
fn do_all_agree<L: Reads>(host: &HostRuntime, made: &Made, blank: Blank) -> bool
    requires name { blank.name ≡ L.name }
    requires parts { blank.parts ≡ L.parts }
    requires some { 0 < L.parts }
{
    let mut steps = Steps::<L>::new(host, blank);
    for (code, area) in made.codes.iter().zip(&made.boxes) {
        if !do_searches_agree(made, cell_of(*code), *area, &mut steps) {
            return false;
        }
    }
    true
}

#[test]
fn a_walk_finds_what_a_filter_finds(rt: HostRuntime) -> Result<(), Fail> {
    for most in [0, 1, 40] {
        let places = make_places(rt.alloc(), 4, 4, 4, 1 << 8, most)?;
        assert!(rt;
            do_all_agree::<Brand>(&rt, &places, Blank::new(1)),
            "{most}"
        );
    }
    Ok(())
}

#[test]
fn levels_may_take_two_digits(rt: HostRuntime) -> Result<(), Fail> {
    for most in [0, 1, 40] {
        let places = make_places(rt.alloc(), 3, 1, 5, 1 << 10, most)?;
        assert!(rt;
            do_all_agree::<Brand>(&rt, &places, Blank::new(1)),
            "{most}"
        );
    }
    Ok(())
}
