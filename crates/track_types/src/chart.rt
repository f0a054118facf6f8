ghost use Rattle.std.specs.Prelude.{◌≡◌};
ghost use Rattle.track_types.specs.Chart.{IsChart, chart_with};
ghost use Rattle.track_types.specs.Extents.{AreExtentsOf};
ghost use Rattle.track_types.specs.Quantities.{span_of};

use crate::extents::Extents;
use crate::row::Row;
use crate::timeline::Timeline;
use std::marker::Model;

/// A chart: the table of gridded rows, ascending by object, then instant, with at most one row for each
/// pair. An object is absent at an instant for which it has no row.
///
/// It has 1 to `MAX_ROWS` rows, whose instants and coordinates lie within `MAX_PLACE` of 0. It has at most
/// - `MAX_OBJECTS` objects,
/// - `MAX_SPAN` instants from the first to the last,
/// - `MAX_EXTENT` cells from the least to the greatest of each axis,
/// - `MAX_BLOCKS` blocks (objects times periods), and
/// - `MAX_SYMBOLS` terminals in the logs of all blocks.
#[derive(Debug, Drop)]
pub struct Chart {
    rows: Vec<Row>,
    // The extents of the rows, as they were found when the chart was made.
    extents: Extents,
    period: u32,
    cell: u64,
    tick: u64,
}

impl Model for Chart {
    ghost use Rattle.track_types.specs.Chart.{ChartView, IsChart};
    ghost use Rattle.track_types.specs.Extents.{AreExtentsOf};

    ghost Value = { ChartView };

    ghost view = { λ c. record { rows = c.rows.items; first = c.extents.time.least; last = c.extents.time.greatest; period = c.period; cell = c.cell; tick = c.tick } };

    ghost invariant = { λ c. IsChart (record { rows = c.rows.items; first = c.extents.time.least; last = c.extents.time.greatest; period = c.period; cell = c.cell; tick = c.tick }) × AreExtentsOf c.rows.items c.extents };
}

impl Chart {
    /// The chart of these rows. The caller sees to it that all holds which a chart keeps. `cell` is
    /// how many units a cell is wide, `tick` how many units of time an instant lasts (1 to
    /// `MAX_RESOLUTION` each), and `period` how many instants lie between two snapshots (1 to
    /// `MAX_PERIOD`).
    pub fn new(rows: Vec<Row>, cell: u64, tick: u64, period: u32) -> Self
        requires { IsChart (chart_with rows.items cell tick period) }
        ensures { result ≡ chart_with rows.items cell tick period }
    {
        let extents = Extents::of(&rows);
        Chart::with_extents(rows, extents, cell, tick, period)
    }

    /// The same chart, for rows whose extents are known: it does not look at the rows.
    pub fn with_extents(rows: Vec<Row>, extents: Extents, cell: u64, tick: u64, period: u32) -> Self
        requires chart { IsChart (chart_with rows.items cell tick period) }
        requires extents { AreExtentsOf rows.items extents }
        ensures { result ≡ chart_with rows.items cell tick period }
    {
        Chart {
            rows,
            extents,
            period,
            cell,
            tick,
        }
    }

    /// The rows, ascending by object, then instant.
    pub fn rows(&self) -> &[Row]
        ensures value { result.now ≡ self.now.rows }
        ensures chart { IsChart self.now }
    {
        self.rows.as_slice()
    }

    /// The least instant of a row.
    pub fn first(&self) -> i64
        ensures value { result ≡ self.now.first }
        ensures chart { IsChart self.now }
    {
        self.extents.time.least
    }

    /// The greatest instant of a row.
    pub fn last(&self) -> i64
        ensures value { result ≡ self.now.last }
        ensures chart { IsChart self.now }
    {
        self.extents.time.greatest
    }

    /// The least and the greatest instant, column and line of its rows.
    pub fn extents(&self) -> Extents
        ensures value { AreExtentsOf self.now.rows result }
        ensures chart { IsChart self.now }
    {
        self.extents
    }

    /// Its instants from the first to the last, and its periods.
    pub fn timeline(&self) -> Timeline
        ensures first { result.first ≡ self.now.first }
        ensures span { result.span ≡ span_of self.now.rows }
        ensures period { result.period ≡ self.now.period }
        ensures chart { IsChart self.now }
    {
        let time = self.extents.time;
        let span = time.width();
        Timeline {
            first: time.least,
            span: span as u32,
            period: self.period,
        }
    }

    /// How many instants lie between two snapshots, 1 to `MAX_PERIOD`.
    pub fn period(&self) -> u32
        ensures value { result ≡ self.now.period }
        ensures chart { IsChart self.now }
    {
        self.period
    }

    /// How many units a cell is wide, 1 to `MAX_RESOLUTION`.
    pub fn cell(&self) -> u64
        ensures value { result ≡ self.now.cell }
        ensures chart { IsChart self.now }
    {
        self.cell
    }

    /// How many units of time an instant lasts, 1 to `MAX_RESOLUTION`.
    pub fn tick(&self) -> u64
        ensures value { result ≡ self.now.tick }
        ensures chart { IsChart self.now }
    {
        self.tick
    }
}
