use track_types::{Cell, CellBox, Region, Shape, Shapes, dist2};

const FAR: i64 = 0x400_0000_0000;

// The cells of columns and lines 3 to 5.
const NEAR: CellBox = CellBox {
    x1: 3,
    y1: 3,
    x2: 5,
    y2: 5,
};

fn is_line_right() -> bool {
    let line = Region::Rect {
        x1: -2,
        y1: 0,
        x2: 3,
        y2: 0,
    };
    let first = line.contains(Cell { x: -2, y: 0 });
    let last = line.contains(Cell { x: 3, y: 0 });
    let above = line.contains(Cell { x: 3, y: 1 });
    first && last && !above
}

fn is_great_disc_right() -> bool {
    let great = Region::Disc {
        x: -FAR,
        y: 0,
        r: 0x400_0000_0000,
    };
    let edge = great.contains(Cell { x: 0, y: 0 });
    let above = great.contains(Cell { x: 0, y: 1 });
    edge && !above
}

// Discs around a cell below the near box. The greater one has the box's corner.
fn do_discs_touch() -> bool {
    let short = Region::Disc { x: 0, y: -1, r: 4 };
    let long = Region::Disc { x: 0, y: -1, r: 5 };
    !short.touches(&NEAR) && long.touches(&NEAR)
}

// Rects across the near box, beside it, and with no cell.
fn do_rects_touch() -> bool {
    let across = Region::Rect {
        x1: 0,
        y1: 4,
        x2: 9,
        y2: 4,
    };
    let beside = Region::Rect {
        x1: 6,
        y1: 3,
        x2: 9,
        y2: 5,
    };
    let inverted = Region::Rect {
        x1: 5,
        y1: 4,
        x2: 4,
        y2: 4,
    };
    across.touches(&NEAR) && !beside.touches(&NEAR) && !inverted.touches(&NEAR)
}

// A cell, and a disc of one cell, with a gap between them.
fn are_shapes_right() -> bool {
    let mut shapes = Shapes::new(Shape::Rect {
        x1: 2,
        y1: 0,
        x2: 2,
        y2: 0,
    });
    let one = shapes.len();
    shapes.add(Shape::Disc { x: 0, y: 3, r: 0 });
    let is_added = one == 1
        && shapes.len() == 2
        && shapes.at(1) == Shape::Disc { x: 0, y: 3, r: 0 };
    let two = Region::Any { shapes };
    let first = two.contains(Cell { x: 2, y: 0 });
    let other = two.contains(Cell { x: 0, y: 3 });
    let between = two.contains(Cell { x: -2, y: 0 });
    is_added && first && other && !between && !two.touches(&NEAR)
}

fn are_distances_right() -> bool {
    let low = Cell { x: -FAR, y: -FAR };
    let high = Cell { x: FAR, y: FAR };
    let greatest = dist2(low, high);
    let five = dist2(Cell { x: -1, y: 2 }, Cell { x: 2, y: -2 });
    greatest == 0x80_0000_0000_0000_0000_0000 && five == 25
}

#[test]
fn regions_and_distances_at_their_edges(rt: HostRuntime) {
    assert!(rt; is_line_right(), "a line");
    assert!(rt; is_great_disc_right(), "a great disc");
    assert!(rt; do_discs_touch(), "discs");
    assert!(rt; do_rects_touch(), "rects");
    assert!(rt; are_shapes_right(), "two shapes");
    assert!(rt; are_distances_right(), "distances");
}
