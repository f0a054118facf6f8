ghost use Rattle.std.specs.Prelude.{◌≡◌, ◌+◌, ◌-◌, ◌*◌, ◌<◌, ◌≤◌, IfOk, OnOk, length, sum_by};
ghost use Rattle.gridding.specs.BlockRange.{IsInSpan};
ghost use Rattle.movement_log.specs.Blocks.{AreBlocks, anchors_by_object, log_length_of, object_place, period_end_of, place_of_object, row_at};
ghost use Rattle.movement_log.specs.Logs.{block_anchors, head_of};
ghost use Rattle.track_types.specs.Chart.{IsChart};
ghost use Rattle.track_types.specs.Limits.{limit_of};
ghost use Rattle.track_types.specs.Quantities.{elapsed, first_of, is_anchor, is_same_block, object_count, span_of};
ghost use Rattle.track_types.specs.Row.{IsAscending};

use crate::head::Head;
use std::alloc::{AllocError, Global};
use track_types::{Chart, LimitKind, Row};

/// A block: its header, and its anchor's place among the chart's rows.
#[derive(Clone, Copy)]
pub(crate) struct Block {
    pub(crate) head: Head,
    pub(crate) at: usize,
}

/// The blocks of a chart, by period, then object.
pub(crate) fn blocks_of(alloc: Global, chart: &Chart) -> Result<Vec<Block>, AllocError>
    ensures ok { IfOk result (λ blocks. AreBlocks chart.now (block_anchors chart.now) blocks.items) }
    ensures few { OnOk result (sum_by (log_length_of chart.now) (block_anchors chart.now) ≤ limit_of LimitKind.Symbols) }
{
    let mut blocks = blocks_by_object(alloc, chart)?;
    // A stable sort: the blocks of a period stay in the order of their objects.
    blocks.sort_by_key(|block| block.head.period)?;
    Ok(blocks)
}

// The blocks by object, then period.
fn blocks_by_object(alloc: Global, chart: &Chart) -> Result<Vec<Block>, AllocError>
    ensures ok { IfOk result (λ blocks. AreBlocks chart.now (anchors_by_object chart.now) blocks.items) }
    ensures chart { OnOk result (IsChart chart.now) }
{
    let rows = chart.rows();
    let mut blocks = Vec::new(alloc);
    let mut index = 0;
    let mut period_end = 0;
    for at in 0..rows.len() {
        index = object_index(rows, at, index);
        if is_anchor(chart, at, period_end) {
            let head = head_of(chart, &rows[at], index);
            // The block's later rows are compared with this, and take no division.
            period_end = end_of_period(chart, head.period);
            blocks.push(Block { head, at })?;
        }
    }
    Ok(blocks)
}

// The place of a row's object among all objects, where `before` is that of the row before.
fn object_index(rows: &[Row], at: usize, before: u32) -> u32
    requires within { at < length rows.now }
    requires ascending { IsAscending rows.now }
    requires few { object_count rows.now ≤ limit_of LimitKind.Objects }
    requires before { before ≡ object_place rows.now (at - 1) }
    ensures { result ≡ object_place rows.now at }
{
    if at > 0 && rows[at - 1].object != rows[at].object {
        before + 1
    } else {
        before
    }
}

// Whether a row is its block's anchor: the row before it, if there is one, is of another block.
// That row's period ends after `period_end` instants from the chart's first on.
fn is_anchor(chart: &Chart, at: usize, period_end: u64) -> bool
    requires within { at < length chart.now.rows }
    requires end { 0 < at → period_end ≡ period_end_of chart.now (row_at chart.now.rows (at - 1)) }
    ensures { result ≡ is_anchor (first_of chart.now.rows) chart.now.period chart.now.rows (row_at chart.now.rows at) }
{
    let rows = chart.rows();
    at == 0 || !is_same_block(chart, &rows[at - 1], &rows[at], period_end)
}

// The header of an anchor's block.
fn head_of(chart: &Chart, anchor: &Row, index: u32) -> Head
    requires inside { IsInSpan (first_of chart.now.rows) (span_of chart.now.rows) anchor.now }
    requires index { index ≡ place_of_object chart.now.rows anchor.now.object }
    ensures { result ≡ head_of chart.now anchor.now }
{
    let timeline = chart.timeline();
    Head {
        period: timeline.period_at(anchor.instant),
        index,
        offset: timeline.elapsed(anchor.instant) % timeline.period,
        cell: anchor.cell,
    }
}

// Whether a row is of the block of an earlier one. Periods follow each other, so that it is of the
// same period if and only if it comes before that period's end.
fn is_same_block(chart: &Chart, before: &Row, row: &Row, period_end: u64) -> bool
    requires period { 0 < chart.now.period }
    requires end { period_end ≡ period_end_of chart.now before.now }
    requires later { before.now.object ≡ row.now.object → elapsed (first_of chart.now.rows) before.now ≤ elapsed (first_of chart.now.rows) row.now }
    ensures { result ≡ is_same_block (first_of chart.now.rows) chart.now.period before.now row.now }
{
    before.object == row.object && elapsed(chart, row) < period_end
}

// How many instants come before a row's, from the chart's first on.
fn elapsed(chart: &Chart, row: &Row) -> u64
    ensures { result ≡ elapsed (first_of chart.now.rows) row.now }
{
    row.instant.abs_diff(chart.first())
}

// How many instants come before the end of a period, from the chart's first on.
fn end_of_period(chart: &Chart, period: u32) -> u64
    ensures { result ≡ (period + 1) * chart.now.period }
{
    (u64::from(period) + 1) * u64::from(chart.period())
}

/// How many terminals a block's log has: one for each later instant of its period.
pub(crate) fn log_length(chart: &Chart, anchor: &Row) -> usize
    requires inside { IsInSpan (first_of chart.now.rows) (span_of chart.now.rows) anchor.now }
    ensures { result ≡ log_length_of chart.now anchor.now }
{
    chart.timeline().log_length(anchor.instant) as usize
}
