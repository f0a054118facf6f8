ghost use Rattle.std.specs.Prelude.{◌≡◌, ◌+◌, ◌≤◌, None, All, IfErr, IfOk, OnOk, length};
ghost use Rattle.step_count.specs.Reads.{AllMay};
ghost use Rattle.gridding.specs.GridLimit.{IsGridFaultFor};
ghost use Rattle.track_types.specs.Chart.{chart_with};
ghost use Rattle.track_types.specs.Frame.{IsFrame};
ghost use Rattle.track_types.specs.Limits.{limit_of};
ghost use Rattle.track_types.specs.Near.{IsNear};
ghost use Rattle.track_types.specs.Row.{IsAscending};
ghost use Rattle.track_types.specs.StopWalk.{up_to};
ghost use Rattle.path_union.specs.AsBuilt.{AreRowsAsBuilt};
ghost use Rattle.path_union.specs.Fault.{count_fault, rows_fault};
ghost use Rattle.path_union.specs.Paths.{AreTimely};
ghost use Rattle.path_union.specs.Reads.{first_beyond};
ghost use Rattle.path_union.specs.Union.{rows_of_both};

use crate::paths::Paths;
use crate::row_drawing::{append_stops, least, path_if};
use crate::union_walk::UnionWalk;
use gridding::{GridFault, chart};
use std::alloc::Global;
use step_count::{Reads, Steps};
use track_types::{Chart, Frame, LimitKind, Row};

/// The chart of the rows of both, by the settings of a header: where both have a row of an object and an
/// instant, the later counts.
///
/// It refuses, in this order:
/// - more than 2^24 rows, by the value 2^24 + 1 (`Limit`), as soon as one more is drawn;
/// - no row (`Empty`);
/// - the first quantity of the rows that passes its limit, as `gridding::chart` judges them.
///
/// `Memory` may be answered to any rows. Memory is taken for the rows of the chart, and for the walks of one object.
pub fn chart_of_both<O: Paths + Drop, P: Paths + Drop, L: Reads>(
    alloc: Global,
    older: O,
    later: P,
    frame: &Frame,
    steps: &mut Steps<L>,
) -> Result<Chart, GridFault>
    requires older { AreTimely (O.rows older) }
    requires later { AreTimely (P.rows later) }
    requires frame { IsFrame frame.now }
    requires may { AllMay L.may }
    ensures ok { IfOk result (λ chart. chart ≡ chart_with
        (rows_of_both (O.rows older) (P.rows later)) frame.now.cell frame.now.tick frame.now.period) }
    ensures exact { OnOk result
        (rows_fault (rows_of_both (O.rows older) (P.rows later)) frame.now.period ≡ None) }
    ensures fault { IfErr result (IsGridFaultFor
        (rows_fault (rows_of_both (O.rows older) (P.rows later)) frame.now.period)) }
    ensures as_built { AreRowsAsBuilt (O.rows older) (P.rows later) frame.now.cell frame.now.tick }
    ensures cost { steps.new ≤ steps.old + (up_to (O.reads_past older) (O.budget older)
        (first_beyond (limit_of LimitKind.Rows) (rows_of_both (O.rows older) (P.rows later)))
        + up_to (P.reads_past later) (P.budget later)
        (first_beyond (limit_of LimitKind.Rows) (rows_of_both (O.rows older) (P.rows later)))) }
{
    let rows = drawn_rows(alloc, older, later, steps)?;
    chart(alloc, rows, frame.cell, frame.tick, frame.period)
}

// The rows of both, object by object.
fn drawn_rows<O: Paths + Drop, P: Paths + Drop, L: Reads>(
    alloc: Global,
    older: O,
    later: P,
    steps: &mut Steps<L>,
) -> Result<Vec<Row>, GridFault>
    requires older { AreTimely (O.rows older) }
    requires later { AreTimely (P.rows later) }
    requires may { AllMay L.may }
    ensures rows { IfOk result (λ rows. rows.items ≡ rows_of_both (O.rows older) (P.rows later)) }
    ensures timely { IfOk result (λ rows. AreTimely rows.items) }
    ensures few { IfOk result (λ rows. length rows.items ≤ limit_of LimitKind.Rows) }
    ensures fault { IfErr result (IsGridFaultFor
        (count_fault (length (rows_of_both (O.rows older) (P.rows later))))) }
    ensures cost { steps.new ≤ steps.old + (up_to (O.reads_past older) (O.budget older)
        (first_beyond (limit_of LimitKind.Rows) (rows_of_both (O.rows older) (P.rows later)))
        + up_to (P.reads_past later) (P.budget later)
        (first_beyond (limit_of LimitKind.Rows) (rows_of_both (O.rows older) (P.rows later)))) }
{
    let mut older = older;
    let mut later = later;
    let mut rows = Vec::new(alloc);
    while let Some(object) = least(older.object(), later.object()) {
        let own = path_if(alloc, &mut later, object)?;
        let other = path_if(alloc, &mut older, object)?;
        append_stops(object, UnionWalk::of(own, other), &mut rows, steps)?;
    }
    Ok(rows)
}
