ghost use Rattle.std.specs.Prelude.{◌≡◌, ◌≤◌};
ghost use Rattle.chart_parts.specs.Header.{frame_of, height_for};
ghost use Rattle.track_types.specs.Limits.{limit_of};

use track_types::{Cell, Chart, Frame, LimitKind, MAX_HEIGHT, MAX_VERSION};

/// The header of a chart's index, in the newest version of the format.
///
/// The grid's base is the least column and the least line of the chart's cells. Its height is the least whose grid holds them all.
pub(crate) fn frame_of(chart: &Chart) -> Frame
    ensures { result ≡ frame_of chart.now }
{
    let extents = chart.extents();
    let timeline = chart.timeline();
    Frame {
        version: MAX_VERSION,
        first: timeline.first,
        span: timeline.span,
        period: timeline.period,
        height: height_for(extents.width()),
        base: Cell {
            x: extents.columns.least,
            y: extents.lines.least,
        },
        cell: chart.cell(),
        tick: chart.tick(),
    }
}

// The least height, from 1 on, whose grid is as wide as this.
fn height_for(extent: u64) -> u32
    requires { extent ≤ limit_of LimitKind.Extent }
    ensures { result ≡ height_for extent }
{
    for height in 1..MAX_HEIGHT {
        if extent <= 1 << height {
            return height;
        }
    }
    MAX_HEIGHT
}
