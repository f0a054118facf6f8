ghost use Rattle.std.specs.Prelude.{◌≡◌, ◌↔◌, ◌≤◌, filter, All, IfNone, IfOk, IfSome, None, Some};
ghost use Rattle.std.specs.List.{Contains, list_any};
ghost use Rattle.track_types.specs.ByFilter.{cell_at, is_row_at, is_row_between};
ghost use Rattle.track_types.specs.Limits.{limit_of};
ghost use Rattle.track_types.specs.Near.{IsCellWithin};
ghost use Rattle.track_types.specs.Quantities.{object_count};
ghost use Rattle.track_types.specs.Region.{IsRegionWithin};
ghost use Rattle.track_types.specs.Row.{IsAscending, is_row_of};
ghost use Rattle.track_types.specs.declared.limit.LimitKind.TheVariants as LimitKind;
ghost use Rattle.track_types.specs.declared.row.Row.{Row as RowView};
ghost use Rattle.live_tail.specs.ByInstant.{AreByInstant};
ghost use Rattle.live_tail.specs.Cost.{rows_between};
ghost use Rattle.live_tail.specs.Hits.{HaveFirst};
ghost use Rattle.live_tail.specs.Join.{rows_of_tail};
ghost use Rattle.live_tail.specs.SmallRows.{rows_in};

use crate::chunk::{Chunk, chunks_of};
use crate::outline::Outline;
use crate::packing::{by_instant, small_rows};
use crate::row_search::RowSearch;
use crate::small_row::{Origin, SmallRow, distance};
use crate::small_rows::SmallRows;
use std::alloc::Global;
use std::marker::Model;
use track_types::{Cell, Chart, Extent, Hit, Memory, Region};

// While one row of an instant is looked at, about so many chunks are passed over.
const CHUNKS_FOR_A_ROW: usize = 16;

/// The chart of later rows, if there are any, with its rows by instant, and their chunks.
///
/// Contracts see the chart. It is kept in 35 bytes a row. None but `new` and `hits` takes memory.
#[derive(Drop)]
pub struct Tail {
    outline: Option<Outline>,
    origin: Origin,
    // The chart's rows.
    by_object: Vec<SmallRow>,
    // The same by instant, those of one instant by object: the rows of an instant are found without a
    // look at all others, and stand together.
    by_instant: Vec<SmallRow>,
    // The chunks of the chart's rows: a search for hits passes over those that cannot have one.
    chunks: Vec<Chunk>,
}

impl Model for Tail {
    ghost use Rattle.std.specs.Prelude.{Option};
    ghost use Rattle.track_types.specs.Chart.{ChartView};
    ghost use Rattle.live_tail.specs.SmallRows.{rows_from};
    ghost use Rattle.live_tail.specs.Tail.{IsKept, chart_from};

    ghost Value = { Option ChartView };

    ghost view = { λ t. chart_from t.outline (rows_from t.origin t.by_object.items) };

    ghost invariant = { λ t. IsKept t.outline t.origin (rows_from t.origin t.by_object.items)
        (rows_from t.origin t.by_instant.items) t.chunks.items };
}

impl Tail {
    ghost use Rattle.live_tail.specs.Tail.{IsTimeOf};

    /// The tail of this chart, which is let go before the rows are taken once more, by instant. It takes
    /// memory for both lists, for sorting one, and for the chunks.
    pub fn new(alloc: Global, chart: Option<Chart>) -> Result<Tail, Memory>
        ensures ok { IfOk result (λ tail. tail ≡ chart) }
    {
        match chart {
            Some(chart) => Tail::of(alloc, chart),
            None => Ok(Tail::empty(alloc)),
        }
    }

    // The tail of a chart.
    fn of(alloc: Global, chart: Chart) -> Result<Tail, Memory>
        ensures ok { IfOk result (λ tail. tail ≡ Some chart) }
    {
        let outline = Outline::of(&chart);
        let origin = Origin::of(chart.extents());
        let chunks = chunks_of(alloc, chart.rows())?;
        let by_object = small_rows(alloc, origin, chart.rows())?;
        drop(chart);
        let by_instant = by_instant(alloc, origin, by_object.as_slice())?;
        Ok(Tail {
            outline: Some(outline),
            origin,
            by_object,
            by_instant,
            chunks,
        })
    }

    // The tail without a row.
    fn empty(alloc: Global) -> Tail
        ensures { result ≡ None }
    {
        Tail {
            outline: None,
            origin: Origin::zero(),
            by_object: Vec::new(alloc),
            by_instant: Vec::new(alloc),
            chunks: Vec::new(alloc),
        }
    }

    /// The first and the last instant, if there is a row.
    pub fn time(&self) -> Option<Extent>
        ensures some { IfSome result (IsTimeOf self.now) }
        ensures none { IfNone result (self.now ≡ None) }
    {
        let outline = self.outline?;
        Some(outline.time)
    }

    /// The rows, by object, then instant.
    pub fn rows(&self) -> SmallRows<'_>
        ensures value { rows_in result ≡ rows_of_tail self.now }
        ensures ascending { IsAscending (rows_in result) }
        ensures near { All (λ (row : RowView). IsCellWithin row.cell) (rows_in result) }
        ensures few { object_count (rows_in result) ≤ limit_of LimitKind.Objects }
        ensures first { IfSome self.now (λ chart. result.origin.instant ≡ chart.first) }
    {
        SmallRows {
            origin: self.origin,
            rows: self.by_object.as_slice(),
        }
    }

    // The same by instant.
    fn sorted(&self) -> SmallRows<'_>
        ensures { AreByInstant (rows_of_tail self.now) (rows_in result) }
    {
        SmallRows {
            origin: self.origin,
            rows: self.by_instant.as_slice(),
        }
    }

    /// Hits of the rows in a window and a region, the first of each object among them.
    ///
    /// It looks at the rows of the window where these are few, and else at those of all chunks that may
    /// have a hit. It takes memory for the hits.
    pub fn hits(
        &self,
        alloc: Global,
        from: i64,
        to: i64,
        region: &Region,
    ) -> Result<Vec<Hit>, Memory>
        requires { IsRegionWithin region.now }
        ensures { IfOk result (λ hits. HaveFirst (rows_of_tail self.now) from to region.now hits.items) }
    {
        let search = RowSearch { from, to, region };
        let between = self.rows_between(from, to);
        let mut found = Vec::new(alloc);
        if between.len() < self.chunks.len() / CHUNKS_FOR_A_ROW {
            search.push_hits_of(between, &mut found)?;
        } else {
            search.push_hits(self.chunks.as_slice(), self.rows(), &mut found)?;
        }
        Ok(found)
    }

    // The rows from one instant to another, both counted, by instant.
    fn rows_between(&self, from: i64, to: i64) -> SmallRows<'_>
        ensures members { (row : RowView) → Contains (rows_in result) row
            ↔ Contains (rows_between (rows_of_tail self.now) from to) row }
        ensures near { All (λ (row : RowView). IsCellWithin row.cell) (rows_in result) }
    {
        let _ = self.rows(); // says that their cells are near
        self.sorted().between(from, to)
    }

    /// The rows of an instant, by object.
    pub fn rows_at(&self, instant: i64) -> SmallRows<'_>
        ensures value { rows_in result ≡ filter (is_row_at instant) (rows_of_tail self.now) }
        ensures ascending { IsAscending (rows_in result) }
        ensures near { All (λ (row : RowView). IsCellWithin row.cell) (rows_in result) }
    {
        let _ = self.rows(); // says that they ascend, in near cells
        self.sorted().between(instant, instant)
    }

    /// The rows of an object from one instant to another, both counted, by instant.
    pub fn track(&self, object: u32, from: i64, to: i64) -> SmallRows<'_>
        ensures { rows_in result ≡ filter (is_row_between object from to) (rows_of_tail self.now) }
    {
        self.rows().of_object(object).between(from, to)
    }

    /// Whether there is a row of an object and an instant.
    pub fn has_row(&self, object: u32, instant: i64) -> bool
        ensures { result ≡ list_any (is_row_of object instant) (rows_of_tail self.now) }
    {
        self.cell_at(object, instant).is_some()
    }

    /// The cell of the row of an object and an instant, and none if and only if there is no such row. Where the
    /// instant is not one of the tail's, as those of most hits of an index are not, it looks for none.
    pub fn cell_at(&self, object: u32, instant: i64) -> Option<Cell>
        ensures { result ≡ cell_at (rows_of_tail self.now) object instant }
    {
        let time = self.time()?;
        if instant < time.least {
            return None;
        }
        if time.greatest < instant {
            return None;
        }
        self.rows().cell_at(object, distance(time.least, instant))
    }
}
