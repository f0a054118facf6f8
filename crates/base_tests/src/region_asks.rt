ghost use Rattle.std.specs.Prelude.{◌≡◌, ◌+ℤ◌, pos};
ghost use Rattle.track_types.specs.Near.{IsBoxWithin, IsCellWithin, IsWithin};
ghost use Rattle.track_types.specs.Region.{IsRegionWithin, in_region, intersects_region};

use region_test::RegionTest;
use std::alloc::Global;
use std::test::Fail;
use track_types::{Cell, CellBox, Memory, Region, Shape, Shapes};

// A cell, and whether it is in the region.
type CellRow = (i8, i8, bool);

// The lower left cell of a box, how many columns and lines it has after its first ones, and whether
// one of its cells is in the region. This was found by trying all of its cells.
type BoxRow = (i8, i8, u8, u8, bool);

fn cell_at(x: i8, y: i8) -> Cell
    ensures { IsCellWithin result }
{
    Cell {
        x: i64::from(x),
        y: i64::from(y),
    }
}

fn sum(place: i8, more: u8) -> i64
    ensures exact { result ≡ place +ℤ pos more }
    ensures within { IsWithin result }
{
    i64::from(place) + i64::from(more)
}

fn box_from(x: i8, y: i8, columns: u8, lines: u8) -> CellBox
    ensures { IsBoxWithin result }
{
    CellBox {
        x1: sum(x, 0),
        y1: sum(y, 0),
        x2: sum(x, columns),
        y2: sum(y, lines),
    }
}

// Whether a borrowed test answers, as a search asks it, about each cell.
fn holds_cells(test: &RegionTest, cells: &[CellRow]) -> bool {
    for &(x, y, held) in cells {
        if test.holds(cell_at(x, y)) != held {
            return false;
        }
    }
    true
}

// Whether a borrowed test answers, as a search asks it, about each box.
fn touches_boxes(test: &RegionTest, boxes: &[BoxRow]) -> bool {
    for &(x, y, columns, lines, touched) in boxes {
        if test.may(&box_from(x, y, columns, lines)) != touched {
            return false;
        }
    }
    true
}

// Makes both closures from a region, and asks the test that keeps them.
fn is_answered(
    alloc: Global,
    region: Region,
    cells: &[CellRow],
    boxes: &[BoxRow],
) -> Result<bool, Memory>
    requires { IsRegionWithin region }
{
    let contains = Box::new(
        alloc,
        move |cell: Cell| -> bool
            requires region { IsRegionWithin region }
            requires near { IsCellWithin cell }
            ensures { result ≡ in_region region cell }
        { region.contains(cell) },
    )?;
    let may_touch = Box::new(
        alloc,
        move |area: &CellBox| -> bool
            requires region { IsRegionWithin region }
            requires near { IsBoxWithin area.now }
            ensures { result ≡ intersects_region region area.now }
        { region.touches(area) },
    )?;
    let test = RegionTest::new(region, contains, may_touch);
    let is_kept = *test.region() == region;
    Ok(is_kept && holds_cells(&test, cells) && touches_boxes(&test, boxes))
}

const RECT_CELLS: [CellRow; 5] = [
    (-2, 0, true),
    (3, 0, true),
    (4, 0, false),
    (3, 1, false),
    (-3, 0, false),
];

const RECT_BOXES: [BoxRow; 7] = [
    (3, 3, 2, 2, false),
    (-9, -9, 18, 18, true),
    (-9, 0, 6, 0, false),
    (-9, 0, 7, 0, true),
    (-2, -9, 1, 8, false),
    (-2, -9, 1, 9, true),
    (0, 1, 9, 9, false),
];

const DISC_CELLS: [CellRow; 6] = [
    (3, 3, true),
    (4, 3, false),
    (5, -1, true),
    (5, 0, false),
    (0, 4, true),
    (0, 5, false),
];

const DISC_BOXES: [BoxRow; 7] = [
    (3, 3, 2, 2, true),
    (4, 3, 5, 5, false),
    (-9, -9, 3, 3, false),
    (-8, -8, 4, 4, true),
    (-9, -9, 18, 18, true),
    (-1, -2, 2, 2, true),
    (6, -9, 3, 18, false),
];

// One cell, and another one apart from it.
const BOTH_CELLS: [CellRow; 4] = [(2, 0, true), (0, 3, true), (-2, 0, false), (2, 3, false)];

const BOTH_BOXES: [BoxRow; 5] = [
    (2, 0, 0, 0, true),
    (0, 0, 1, 2, false),
    (-1, 3, 2, 2, true),
    (0, 0, 9, 9, true),
    (3, 0, 9, 9, false),
];

#[test]
fn regions_are_asked_through_their_closures(rt: HostRuntime) -> Result<(), Fail> {
    let rect = Region::Rect {
        x1: -2,
        y1: 0,
        x2: 3,
        y2: 0,
    };
    assert!(rt;
        is_answered(rt.alloc(), rect, &RECT_CELLS, &RECT_BOXES)?,
        "a rect"
    );
    let disc = Region::Disc { x: 0, y: -1, r: 5 };
    assert!(rt;
        is_answered(rt.alloc(), disc, &DISC_CELLS, &DISC_BOXES)?,
        "a disc"
    );
    let mut shapes = Shapes::new(Shape::Rect {
        x1: 2,
        y1: 0,
        x2: 2,
        y2: 0,
    });
    shapes.add(Shape::Disc { x: 0, y: 3, r: 0 });
    let both = Region::Any { shapes };
    assert!(rt;
        is_answered(rt.alloc(), both, &BOTH_CELLS, &BOTH_BOXES)?,
        "both"
    );
    Ok(())
}
