ghost use Rattle.std.specs.Prelude.{◌<◌, ◌≤◌, All, length};
ghost use Rattle.track_types.specs.Limits.{IsResolution, limit_of};
ghost use Rattle.track_types.specs.Near.{IsRawInRange};

use crate::charts::{Place, chart_of, gridded, raws, row};
use gridding::{GridFault, GriddedRows};
use std::alloc::{AllocError, Global};
use std::test::Fail;
use track_types::{Chart, LimitKind, RawRow};

const END: i32 = 4_194_303;

// Eight objects, of which one has a row at the last instant of the longest period.
const LONGEST: [Place; 9] = [
    (0, 0, 0, 0),
    (1, 0, 0, 0),
    (2, 0, 0, 0),
    (3, 0, 0, 0),
    (4, 0, 0, 0),
    (5, 0, 0, 0),
    (6, 0, 0, 0),
    (7, 0, 0, 0),
    (0, END, 0, 0),
];

#[test]
fn as_many_symbols_as_may_be_have_a_chart(rt: HostRuntime) -> Result<(), Fail> {
    let chart = chart_of(rt.alloc(), &LONGEST, 4_194_304)?;
    assert!(rt; chart.rows().len() == 9);
    Ok(())
}

// So many raw rows of each object, in order of their times; x is the time.
fn tracks(alloc: Global, objects: u32, count: i32) -> Result<Vec<Place>, AllocError> {
    let mut rows = Vec::new(alloc);
    for time in 0..count {
        for object in 0..objects {
            rows.push((object, time, time, 0))?;
        }
    }
    Ok(rows)
}

// The chart of at most 1,000 rows that come so many at a time.
fn in_pieces(alloc: Global, places: &[Place], count: usize, tick: u8) -> Result<Chart, GridFault> {
    if places.len() > 1000 || count < 1 || tick < 1 {
        return Err(GridFault::Memory);
    }
    let raws = raws(alloc, places)?;
    taken(alloc, raws.as_slice(), count, u64::from(tick))
}

fn taken(alloc: Global, rows: &[RawRow], count: usize, tick: u64) -> Result<Chart, GridFault>
    requires few { length rows.now ≤ limit_of LimitKind.Rows }
    requires near { All IsRawInRange rows.now }
    requires some { 0 < count }
    requires tick { IsResolution tick }
{
    let mut gridded = GriddedRows::new(alloc, 1, tick);
    for piece in rows.chunks(count) {
        gridded.append(piece)?;
    }
    gridded.chart(alloc, 8)
}

// Of each of 3 objects, whose rows come by turns, so many rows. Two rows of an object are of one instant, and come in
// one piece or in several.
fn are_pieces_alike(alloc: Global, count: i32) -> Result<bool, GridFault> {
    let rows = tracks(alloc, 3, count)?;
    let whole = gridded(alloc, rows.as_slice(), (1, 2), 8)?;
    let last = count.wrapping_sub(1);
    if whole.rows().last() != Some(&row((2, last / 2, last, 0))) {
        return Ok(false);
    }
    for size in [1usize, 3, 31, 105] {
        let chart = in_pieces(alloc, rows.as_slice(), size, 2)?;
        if chart.rows() != whole.rows() {
            return Ok(false);
        }
    }
    Ok(true)
}

// More rows of each object than one and than two blocks have.
#[test]
fn rows_may_come_in_pieces(rt: HostRuntime) -> Result<(), Fail> {
    for count in [63, 80, 140] {
        assert!(rt; are_pieces_alike(rt.alloc(), count)?, "{count} rows");
    }
    Ok(())
}

// Rows whose instants reach from the least to the greatest that a chart may have.
const INSTANTS: [Place; 7] = [
    (1, 5, 1, 0),
    (2, 4_100_000, 0, 0),
    (1, 5, 2, 0),
    (1, -90_000, 3, 0),
    (2, 5, 4, 0),
    (1, 4_104_303, 9, 0),
    (2, 4_100_000, 7, 0),
];

// How many rows have no block.
fn loose_among(alloc: Global, places: &[Place]) -> Result<usize, AllocError> {
    let mut gridded = GriddedRows::new(alloc, 1, 1);
    gridded.append(raws(alloc, places)?.as_slice())?;
    Ok(gridded.loose_count())
}

#[test]
fn rows_from_the_least_to_the_greatest_instant_have_blocks(rt: HostRuntime) -> Result<(), Fail> {
    assert!(rt; loose_among(rt.alloc(), &INSTANTS)? == 0);
    Ok(())
}
