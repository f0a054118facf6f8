ghost use Rattle.std.specs.Prelude.{◌≡◌, Some};

use track_types::{Chart, Extent};

/// All that a chart has beside its rows: its first and last instant, and how it was gridded.
#[derive(Clone, Copy)]
pub struct Outline {
    pub time: Extent,
    pub period: u32,
    pub cell: u64,
    pub tick: u64,
}

impl Outline {
    ghost use Rattle.live_tail.specs.Tail.{chart_from};

    /// The outline of a chart.
    pub fn of(chart: &Chart) -> Outline
        ensures { chart_from (Some result) chart.now.rows ≡ Some chart.now }
    {
        Outline {
            time: Extent {
                least: chart.first(),
                greatest: chart.last(),
            },
            period: chart.period(),
            cell: chart.cell(),
            tick: chart.tick(),
        }
    }
}
