ghost use Rattle.std.specs.Prelude.{◌≡◌, ◌++◌, ◌+◌, ◌-◌, ◌^◌, ◌≤◌, All, ℕ, IfOk, OnOk, filter, length, map, min};
ghost use Rattle.step_count.specs.Reads.{ReadsWithin};
ghost use Rattle.track_types.specs.ByFilter.{is_row_at, near_of, nears_of};
ghost use Rattle.track_types.specs.Near.{IsAsked, IsCellAsked, IsCellWithin};
ghost use Rattle.track_types.specs.declared.question.Question.TheVariants as asked;
ghost use Rattle.track_types.specs.declared.row.Row.{Row as RowView};
ghost use Rattle.live_tail.specs.Cost.{nearest_cost_beside};
ghost use Rattle.live_tail.specs.Join.{rows_of_tail, rows_of_both};
ghost use Rattle.live_tail.specs.SmallRows.{rows_in};

use crate::small_rows::SmallRows;
use crate::tail::Tail;
use std::alloc::Global;
use step_count::{Reads, Steps};
use track_types::{Answerer, Cell, Memory, Near, dist2};

/// The `count` rows of an instant that are nearest to a cell, of an answerer's chart with a tail, in
/// order. They are all rows of the instant if there are no more than `count`.
///
/// The answerer is asked for `count`, and for one more for each row that the tail has of the instant,
/// since as many of its rows may give way to the tail's. `Memory` is the only refusal.
pub fn nearest<A: Answerer, L: Reads>(
    alloc: Global,
    answerer: A,
    tail: &Tail,
    count: u32,
    instant: i64,
    cell: Cell,
    steps: &mut Steps<L>,
) -> Result<Vec<Near>, Memory>
    requires instant { IsAsked instant }
    requires cell { IsCellAsked cell }
    requires few { length (filter (is_row_at instant) (A.chart answerer).rows) ≤ 2 ^ 32 - 1 }
    requires may { (wanted : ℕ) →
        ReadsWithin (A.needs answerer (asked.Nearest wanted instant cell)) L.may }
    ensures ok { IfOk result (λ found. found.items ≡ nears_of
        (rows_of_both (A.chart answerer).rows (rows_of_tail tail.now)) count instant cell) }
    ensures cost { steps.new ≤ steps.old
        + nearest_cost_beside (A.cost answerer) (rows_of_tail tail.now) count instant cell }
{
    if count == 0 {
        return Ok(Vec::new(alloc));
    }
    let _ = answerer.facts(); // says that the chart is a table
    let _ = tail.rows(); // says that these ascend
    let own = tail.rows_at(instant);
    let raised = raised_count(count, own.len());
    let mut found = answerer.nearest(alloc, raised, instant, cell, steps)?;
    found.retain(|near| !own.has_object(near.object));
    push_nears(&mut found, own, cell)?;
    found.sort_unstable_by_key(|near| (near.dist2, near.object));
    found.truncate(count as usize);
    Ok(found)
}

// A count and so many more, or the greatest count that there is.
fn raised_count(count: u32, more: usize) -> u32
    ensures { result ≡ min (count + more) (2 ^ 32 - 1) }
{
    count.saturating_add(u32::try_from(more).unwrap_or(u32::MAX))
}

// Appends to what was found how near rows are to a cell.
fn push_nears(found: &mut Vec<Near>, rows: SmallRows<'_>, cell: Cell) -> Result<(), Memory>
    requires cell { IsCellWithin cell }
    requires near { All (λ (row : RowView). IsCellWithin row.cell) (rows_in rows) }
    ensures { OnOk result (found.new.items ≡ found.old.items ++ map (near_of cell) (rows_in rows.entry)) }
{
    for small in rows.rows {
        let row = rows.origin.row(small);
        found.push(Near {
            object: row.object,
            cell: row.cell,
            dist2: dist2(cell, row.cell),
        })?;
    }
    Ok(())
}
