ghost use Rattle.std.specs.Prelude.{◌≡◌, ◌^◌, ◌<◌, ◌≤◌, max, unsigned_abs};
ghost use Rattle.std.specs.Prelude.{All, IfErr, None, OnOk, false, length, true};
ghost use Rattle.gridding.specs.GridLimit.{base_of, IsRefusal, first_past, is_past};
ghost use Rattle.gridding.specs.Survey.{IsMeasureOf};
ghost use Rattle.track_types.specs.Limits.{IsPeriod, limit_of};
ghost use Rattle.track_types.specs.Near.{IsNear, IsRowInRange};
ghost use Rattle.track_types.specs.Row.{IsAscending};

use crate::counts::symbol_count;
use crate::fault::GridFault;
use crate::survey::Survey;
use track_types::{Cell, LimitKind, Row, Timeline};

/// Refuses the greatest absolute coordinate of the rows' cells where it passes its limit. It is asked of rows that are
/// gridded already: the cells of raw rows are within it.
pub fn check_base(rows: &[Row]) -> Result<(), GridFault>
    ensures ok { OnOk result (is_past (LimitKind.Base, base_of rows.now) ≡ false) }
    ensures err { IfErr result (λ fault. (fault ≡ GridFault.Limit LimitKind.Base (base_of rows.now))
        × (is_past (LimitKind.Base, base_of rows.now) ≡ true)) }
{
    let mut farthest = 0;
    for row in rows {
        farthest = farthest.max(distance(row.cell));
    }
    within(LimitKind::Base, farthest)
}

// How many cells a cell is away from 0, along the axis along which it is farther.
fn distance(cell: Cell) -> u64
    ensures { result ≡ max (unsigned_abs cell.x) (unsigned_abs cell.y) }
{
    cell.x.unsigned_abs().max(cell.y.unsigned_abs())
}

/// Refuses the first quantity that passes its limit, for rows in order. `survey` is that of the rows.
pub fn check_limits(rows: &[Row], survey: Survey, period: u32) -> Result<(), GridFault>
    requires some { 0 < length rows.now }
    requires few { length rows.now ≤ limit_of LimitKind.Rows }
    requires ascending { IsAscending rows.now }
    requires in_range { All IsRowInRange rows.now }
    requires survey { IsMeasureOf rows.now survey }
    requires period { IsPeriod period }
    ensures ok { OnOk result (first_past rows.now period ≡ None) }
    ensures limit { IfErr result (IsRefusal (first_past rows.now period)) }
{
    let span = survey.extents.span();
    within(LimitKind::Objects, survey.objects)?;
    within(LimitKind::Span, span)?;
    within(LimitKind::Extent, survey.extents.width())?;
    let timeline = Timeline {
        first: survey.extents.time.least,
        span: span as u32,
        period,
    };
    let periods = u64::from(timeline.periods());
    within(LimitKind::Blocks, survey.objects * periods)?;
    let symbols = symbol_count(rows, timeline);
    within(LimitKind::Symbols, symbols)
}

fn within(kind: LimitKind, value: u64) -> Result<(), GridFault>
    ensures ok { OnOk result (is_past (kind, value) ≡ false) }
    ensures err { IfErr result (λ fault. (fault ≡ GridFault.Limit kind value)
        × (is_past (kind, value) ≡ true)) }
{
    if value > kind.greatest() {
        return Err(GridFault::Limit { kind, value });
    }
    Ok(())
}
