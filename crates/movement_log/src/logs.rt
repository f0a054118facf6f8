ghost use Rattle.std.specs.Prelude.{◌≡◌, ◌<◌, ◌++◌, ◌-ℤ◌, All, IfOk, OnOk, length, map, unsigned_abs};
ghost use Rattle.std.specs.List.{flat_map};
ghost use Rattle.track_types.specs.declared.limit.TheConstants.{MAX_EXTENT};
ghost use Rattle.movement_log.specs.Blocks.{IsBlockIn, anchor_in, is_in_log, log_length_of, row_at};
ghost use Rattle.movement_log.specs.Logs.{values_after};
ghost use Rattle.movement_log.specs.Values.{move_value};
ghost use Rattle.spiral_code.specs.Spiral.{ring_of};

use crate::blocks::{Block, log_length};
use spiral_code::encode_move;
use std::alloc::{AllocError, Global};
use track_types::{Chart, Row};

/// How many terminals the log of each block has.
pub(crate) fn lengths_of(
    alloc: Global,
    chart: &Chart,
    blocks: &[Block],
) -> Result<Vec<u32>, AllocError>
    requires { All (IsBlockIn chart.now) blocks.now }
    ensures { IfOk result (λ lengths. lengths.items
        ≡ map (λ block. log_length_of chart.now (anchor_in chart.now.rows block)) blocks.now) }
{
    let mut lengths = Vec::with_capacity(alloc, blocks.len())?;
    for block in blocks {
        lengths.push(length_at(chart, block.at))?;
    }
    Ok(lengths)
}

// How many terminals the log of the block has whose anchor stands at this place.
fn length_at(chart: &Chart, at: usize) -> u32
    requires { at < length chart.now.rows }
    ensures { result ≡ log_length_of chart.now (row_at chart.now.rows at) }
{
    let rows = chart.rows();
    log_length(chart, &rows[at]) as u32
}

/// The logs of blocks, one after the other, as values: 0 for an absence, and a movement's code and
/// one. There are `count` values.
pub(crate) fn values_of(
    alloc: Global,
    chart: &Chart,
    blocks: &[Block],
    count: usize,
) -> Result<Vec<u64>, AllocError>
    requires { All (IsBlockIn chart.now) blocks.now }
    ensures { IfOk result (λ values. values.items
        ≡ flat_map (λ block. values_after chart.now (anchor_in chart.now.rows block)) blocks.now) }
{
    let mut values = Vec::with_capacity(alloc, count)?;
    for block in blocks {
        append_log(chart, block.at, &mut values)?;
    }
    Ok(values)
}

// Appends the values of the block whose anchor stands at this place.
fn append_log(chart: &Chart, at: usize, values: &mut Vec<u64>) -> Result<(), AllocError>
    requires { at < length chart.now.rows }
    ensures { OnOk result (values.new.items
        ≡ values.old.items ++ values_after chart.now (row_at chart.now.rows at)) }
{
    let rows = chart.rows();
    let anchor = &rows[at];
    let len = log_length(chart, anchor);
    let start = values.len();
    let mut last = at;
    while last + 1 < rows.len() && is_in_log(anchor, &rows[last + 1], len) {
        let row = &rows[last + 1];
        // The object is absent at each instant between its rows.
        values.resize(start + (instants_between(anchor, row) - 1), 0)?;
        values.push(move_value(&rows[last], row))?;
        last += 1;
    }
    values.resize(start + len, 0)?;
    Ok(())
}

// Whether a later row is of the anchor's object, and among the `len` instants after the anchor's.
fn is_in_log(anchor: &Row, row: &Row, len: usize) -> bool
    ensures { result ≡ is_in_log len anchor.now row.now }
{
    row.object == anchor.object && row.instant.abs_diff(anchor.instant) <= len as u64
}

// How many instants after an anchor a row is.
fn instants_between(anchor: &Row, row: &Row) -> usize
    ensures { result ≡ unsigned_abs (row.now.instant -ℤ anchor.now.instant) }
{
    row.instant.abs_diff(anchor.instant) as usize
}

// The value of a row: the movement from the cell of the row before, as its code and one.
fn move_value(before: &Row, row: &Row) -> u64
    requires { ring_of (row.now.cell.x -ℤ before.now.cell.x) (row.now.cell.y -ℤ before.now.cell.y) < MAX_EXTENT }
    ensures { result ≡ move_value before.now.cell row.now.cell }
{
    encode_move(row.cell.x - before.cell.x, row.cell.y - before.cell.y) + 1
}
