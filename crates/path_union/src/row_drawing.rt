ghost use Rattle.std.specs.Prelude.{◌≡◌, ◌⊎◌, ◌++◌, ◌+◌, ◌-◌, ◌<◌, ◌≤◌, [], ◌∷◌, None, Some, IfErr, IfNone, IfOk, IfSome, OnOk, length, map, slice_get};
ghost use Rattle.step_count.specs.Reads.{ReadsWithin};
ghost use Rattle.gridding.specs.GridLimit.{IsGridFaultFor};
ghost use Rattle.track_types.specs.Limits.{limit_of};
ghost use Rattle.path_union.specs.Fault.{count_fault};
ghost use Rattle.path_union.specs.Paths.{IsFirstPath};
ghost use Rattle.path_union.specs.Reads.{IsTaken, past_of};
ghost use Rattle.path_union.specs.Walk.{budget_of, left_of, row_at, stop_order};
ghost use Rattle.std.specs.List.Sorted.{IsStrictlySortedBy};
ghost use Rattle.track_types.specs.StopWalk.{up_to};
ghost use Rattle.track_types.specs.declared.stop.Stop.{Stop as StopView};

use crate::paths::Paths;
use gridding::GridFault;
use std::alloc::{AllocError, Global};
use step_count::{Reads, Steps};
use track_types::{LimitKind, MAX_ROWS, Row, Stop, StopWalk};

/// The lesser of two objects, each of which may be missing.
pub fn least(one: Option<u32>, other: Option<u32>) -> Option<u32>
    ensures one { IfSome result (λ object. IfSome one (λ next. object ≤ next)) }
    ensures other { IfSome result (λ object. IfSome other (λ next. object ≤ next)) }
    ensures among { IfSome result (λ object. (one ≡ Some object) ⊎ (other ≡ Some object)) }
    ensures none { IfNone result (one ≡ None) }
    ensures neither { IfNone result (other ≡ None) }
{
    match (one, other) {
        (Some(own), Some(also)) => Some(if own <= also { own } else { also }),
        (Some(own), None) => Some(own),
        (None, _) => other,
    }
}

/// The path of an object, if it is the next one. No path of a lesser object is to come.
pub fn path_if<P: Paths>(
    alloc: Global,
    paths: &mut P,
    object: u32,
) -> Result<Option<P::Walk>, GridFault>
    requires { IfSome (P.next paths.old) (λ next. object ≤ next) }
    ensures path { IfOk result (λ walk.
        IsFirstPath object (left_of P.Walk.left walk) (P.rows paths.old) (P.rows paths.new)) }
    ensures cost { IfOk result (λ walk.
        budget_of P.Walk.budget walk + P.budget paths.new ≤ P.budget paths.old) }
    ensures in_time { IfOk result (λ walk. IsTaken object (budget_of P.Walk.budget walk)
        (past_of P.Walk.reads_past walk) (P.reads_past paths.old) (P.reads_past paths.new)) }
    ensures count { OnOk result (P.count paths.new ≤ P.count paths.old) }
    ensures fewer { OnOk result (P.next paths.old ≡ Some object → P.count paths.new < P.count paths.old) }
    ensures err { IfErr result (λ fault. fault ≡ GridFault.Memory) }
{
    match paths.object() {
        Some(next) => {
            if next == object {
                return match paths.take_path(alloc, object) {
                    Ok(walk) => Ok(Some(walk)),
                    Err(_) => Err(GridFault::Memory),
                };
            }
            Ok(None)
        }
        None => Ok(None),
    }
}

/// Puts the rows of an object's stops after others. It refuses more than 2^24 rows as soon as one more
/// is drawn, and reads nothing beyond it.
pub fn append_stops<W: StopWalk + Drop, L: Reads>(
    object: u32,
    walk: W,
    rows: &mut Vec<Row>,
    steps: &mut Steps<L>,
) -> Result<(), GridFault>
    requires few { length rows.old.items ≤ limit_of LimitKind.Rows }
    requires ascending { IsStrictlySortedBy stop_order (W.left walk) }
    requires may { ReadsWithin (W.needs walk) L.may }
    ensures rows { OnOk result (rows.new.items ≡ rows.old.items ++ map (row_at object) (W.left walk)) }
    ensures few { OnOk result (length rows.new.items ≤ limit_of LimitKind.Rows) }
    ensures fault { IfErr result (IsGridFaultFor
        (count_fault (length rows.old.items + length (W.left walk)))) }
    ensures cost { steps.new ≤ steps.old
        + up_to (λ (stop : StopView). W.reads_past walk stop.instant) (W.budget walk)
        (slice_get (W.left walk) (limit_of LimitKind.Rows - length rows.old.items)) }
{
    let mut walk = walk;
    while let Some(stop) = walk.next(steps) {
        if rows.len() as u64 >= MAX_ROWS {
            return Err(GridFault::Limit {
                kind: LimitKind::Rows,
                value: MAX_ROWS + 1,
            });
        }
        push_row(rows, object, stop)?;
    }
    Ok(())
}

// Puts the row of an object's stop after others.
fn push_row(rows: &mut Vec<Row>, object: u32, stop: Stop) -> Result<(), AllocError>
    ensures { OnOk result (rows.new.items ≡ rows.old.items ++ (row_at object stop ∷ [])) }
{
    rows.push(Row {
        object,
        instant: stop.instant,
        cell: stop.cell,
    })?;
    Ok(())
}
