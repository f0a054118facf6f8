ghost use Rattle.std.specs.Prelude.{◌≡◌, ◌≢◌, ◌^◌, ◌≤◌, All, IfErr, IfOk, None, OnOk, [], length};
ghost use Rattle.gridding.specs.ChartOf.{chart_of};
ghost use Rattle.gridding.specs.GridLimit.{chart_fault, IsGridFaultFor, IsGridFault, grid_limit};
ghost use Rattle.track_types.specs.Chart.{chart_with};
ghost use Rattle.track_types.specs.Limits.{IsPeriod, IsResolution, limit_of};
ghost use Rattle.track_types.specs.Near.{IsNear, IsRawInRange};
ghost use Rattle.track_types.specs.Row.{IsAscending};

use crate::fault::GridFault;
use crate::gridded_rows::GriddedRows;
use crate::limits::{check_base, check_limits};
use crate::survey::Survey;
use std::alloc::Global;
use track_types::{Chart, LimitKind, RawRow, Row};

/// Makes the chart of raw rows, which may come in any order. A row's instant is its time over `tick` and its cell its
/// place over `cell`, each rounded towards minus infinity. Of an object's rows in one instant the last in the order of
/// `rows` counts.
///
/// Without a row the answer is `Empty`. Else the chart's quantities are judged in the order objects,
/// span, extent, blocks and symbols, and the first that passes its limit is refused with its value.
/// `Memory` may be answered to any rows.
pub fn grid(
    alloc: Global,
    rows: &[RawRow],
    cell: u64,
    tick: u64,
    period: u32,
) -> Result<Chart, GridFault>
    requires few { length rows.now ≤ limit_of LimitKind.Rows }
    requires near { All IsRawInRange rows.now }
    requires cell { IsResolution cell }
    requires tick { IsResolution tick }
    requires period { IsPeriod period }
    ensures some { IfOk result (λ _. rows.now ≢ []) }
    ensures ok { IfOk result (λ chart. (grid_limit rows.now cell tick period ≡ None)
        × (chart ≡ chart_of rows.now cell tick period)) }
    ensures fault { IfErr result (IsGridFault rows.now cell tick period) }
{
    let mut gridded = GriddedRows::new(alloc, cell, tick);
    gridded.append(rows)?;
    gridded.chart(alloc, period)
}

/// Makes the chart of rows that are gridded already. They ascend by object, then instant, without two
/// of one object and instant. Their instants are at most 2^40 away from 0; their cells may be farther.
///
/// Without a row the answer is `Empty`. Else the greatest absolute coordinate of a cell is refused as
/// `Base` where it passes 2^40, and then the quantities are judged as `grid` does. `Memory` may be
/// answered to any rows.
pub fn chart(
    alloc: Global,
    rows: Vec<Row>,
    cell: u64,
    tick: u64,
    period: u32,
) -> Result<Chart, GridFault>
    requires ascending { IsAscending rows.items }
    requires few { length rows.items ≤ limit_of LimitKind.Rows }
    requires near { All (λ row. IsNear row.instant) rows.items }
    requires cell { IsResolution cell }
    requires tick { IsResolution tick }
    requires period { IsPeriod period }
    ensures ok { IfOk result (λ chart. chart ≡ chart_with rows.items cell tick period) }
    ensures exact { OnOk result (chart_fault rows.items period ≡ None) }
    ensures fault { IfErr result (IsGridFaultFor (chart_fault rows.items period)) }
{
    let _ = alloc; // the rows become those of the chart
    if rows.is_empty() {
        return Err(GridFault::Empty);
    }
    check_base(rows.as_slice())?;
    let survey = Survey::of(rows.as_slice());
    check_limits(rows.as_slice(), survey, period)?;
    Ok(Chart::with_extents(rows, survey.extents, cell, tick, period))
}
