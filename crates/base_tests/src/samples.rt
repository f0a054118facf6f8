use sample_rows::sample_rows;
use std::alloc::Global;
use std::test::Fail;
use track_types::{MAX_ROWS, Memory, RawRow};

// The rows of a sample of at least one object and one instant, where it may have so many.
fn rows_of(alloc: Global, objects: u32, instants: u32, seed: u64) -> Result<Vec<RawRow>, Memory> {
    let (objects, instants) = (objects.max(1), instants.max(1));
    if u64::from(objects) * u64::from(instants) > MAX_ROWS {
        return Err(Memory);
    }
    sample_rows(alloc, objects, instants, seed)
}

// An object, a time, and coordinates.
type Place = (u32, i64, i64, i64);

const PLACES: [Place; 9] = [
    (0, 0, 0, 0),
    (1, 0, 37, 101),
    (2, 0, 74, 202),
    (0, 1, 0, 0),
    (1, 1, 38, 102),
    (2, 1, 75, 202),
    (0, 2, 0, 1),
    (1, 2, 38, 102),
    (2, 2, 76, 201),
];

fn place(row: &RawRow) -> Place {
    (row.object, row.time, row.x, row.y)
}

#[test]
fn three_objects_are_where_the_draws_lead(rt: HostRuntime) -> Result<(), Fail> {
    let rows = rows_of(rt.alloc(), 3, 3, 7)?;
    let has_places = rows
        .iter()
        .zip(&PLACES)
        .all(|(row, want)| place(row) == *want);
    assert!(rt; rows.len() == PLACES.len() && has_places);
    Ok(())
}

// Objects, instants and seed; how many rows there are, the last of them, and the sums of all x and y.
// These numbers are those of another program.
type Case = (u32, u32, u64, usize, Place, i64, i64);

const CASES: [Case; 4] = [
    (2, 18, 9, 36, (1, 17, 44, 102), 743, 1_877),
    (64, 64, 9, 3_841, (63, 63, 278, 220), 1_776_554, 1_893_297),
    (
        30,
        200,
        4_611_686_018_427_387_904,
        5_658,
        (29, 199, 51, 869),
        2_650_326,
        2_882_013,
    ),
    (
        255,
        40,
        u64::MAX,
        9_551,
        (254, 39, 183, 50),
        4_830_714,
        4_883_632,
    ),
];

// Whether a sample has these.
fn adds_up(alloc: Global, case: Case) -> Result<bool, Memory> {
    let (objects, instants, seed, count, last, across, up) = case;
    let rows = rows_of(alloc, objects, instants, seed)?;
    let (mut x, mut y) = (0i64, 0i64);
    for row in &rows {
        x = x.wrapping_add(row.x);
        y = y.wrapping_add(row.y);
    }
    let ended = rows.last().map(|row| place(row));
    Ok(rows.len() == count && ended == Some(last) && (x, y) == (across, up))
}

#[test]
fn samples_add_up(rt: HostRuntime) -> Result<(), Fail> {
    for case in CASES {
        let (objects, instants, ..) = case;
        assert!(rt; adds_up(rt.alloc(), case)?, "{objects} {instants}");
    }
    Ok(())
}
