ghost use Rattle.std.specs.Prelude.{◌≡◌, All, IfOk, length};
ghost use Rattle.track_types.specs.Near.{IsRawInRange};

use gridding::{GridFault, grid};
use std::alloc::{AllocError, Global};
use track_types::{Cell, Chart, RawRow, Row};

// An object, an instant, and a cell's column and line.
pub type Place = (u32, i32, i32, i32);

fn raw(place: Place) -> RawRow
    ensures { IsRawInRange result }
{
    let (object, time, x, y) = place;
    RawRow {
        object,
        time: i64::from(time),
        x: i64::from(x),
        y: i64::from(y),
    }
}

pub fn raws(alloc: Global, places: &[Place]) -> Result<Vec<RawRow>, AllocError>
    ensures near { IfOk result (λ raws. All IsRawInRange raws.items) }
    ensures few { IfOk result (λ raws. length raws.items ≡ length places.now) }
{
    let mut raws = Vec::new(alloc);
    for &place in places {
        let raw = raw(place);
        raws.push(raw)?;
    }
    Ok(raws)
}

// The chart of at most 200,000 rows, by CELL and TICK up to 100, in periods of at most 2^22 instants; else `Memory`.
pub fn gridded(
    alloc: Global,
    places: &[Place],
    (cell, tick): (u8, u8),
    period: u32,
) -> Result<Chart, GridFault> {
    if places.len() > 200_000 || cell < 1 || tick < 1 || period < 1 || period > 1 << 22 {
        return Err(GridFault::Memory);
    }
    let raws = raws(alloc, places)?;
    grid(
        alloc,
        raws.as_slice(),
        u64::from(cell),
        u64::from(tick),
        period,
    )
}

// The chart of rows that have cells for their coordinates and instants for their times.
pub fn chart_of(alloc: Global, places: &[Place], period: u32) -> Result<Chart, GridFault> {
    gridded(alloc, places, (1, 1), period)
}

fn cell(x: i32, y: i32) -> Cell {
    Cell {
        x: i64::from(x),
        y: i64::from(y),
    }
}

pub fn row(place: Place) -> Row {
    let (object, instant, x, y) = place;
    Row {
        object,
        instant: i64::from(instant),
        cell: cell(x, y),
    }
}

// Whether the rows of a chart are these.
pub fn has_rows(chart: &Chart, places: &[Place]) -> bool {
    let rows = chart.rows();
    rows.len() == places.len()
        && rows
            .iter()
            .zip(places)
            .all(|(found, place)| *found == row(*place))
}
