ghost use Rattle.std.specs.Prelude.{◌≡◌, ◌≢◌, ◌≤◌, ◌<◌, ℕ, List, [], ◌∷◌, ◌++◌, length, All, None, IfErr, IfOk, OnOk};
ghost use Rattle.track_types.specs.Limits.{IsPeriod, IsResolution};
ghost use Rattle.track_types.specs.Near.{IsRawInRange, IsRowInRange};
ghost use Rattle.track_types.specs.declared.raw_row.RawRow.{RawRow};
ghost use Rattle.track_types.specs.declared.row.Row.{Row};

use crate::fault::GridFault;
use crate::limits::check_limits;
use crate::merging::merged_rows;
use crate::row_gridding::Grid;
use crate::track_blocks::TrackBlocks;
use std::alloc::{AllocError, Global};
use track_types::{Chart, RawRow, Row};

/// Raw rows that are gridded as they come. Where objects have many rows, a row takes some 9 bytes, and 41 with the chart.
///
/// A row has no block where it is too far from the others, or where there are more objects than a chart may have. From
/// the first such row on, rows take 32 bytes each. Such a file is refused in the end, unless the far row gives way to a
/// later one of its object and instant. All of its rows are needed to tell the count or the extent.
#[derive(Drop)]
pub struct GriddedRows {
    tracks: TrackBlocks,
    // The rows from the first that had no block, in their order.
    loose: Vec<Row>,
    // How many rows came, for the memory of their chart.
    count: usize,
    cell: u64,
    tick: u64,
    ghost wide: { IsResolution cell },
    ghost long: { IsResolution tick },
}

impl GriddedRows {
    ghost use Rattle.gridding.specs.ChartOf.{chart_of};
    ghost use Rattle.gridding.specs.GriddedRows.{AreFew, HoldsRows, HasGridded};
    ghost use Rattle.gridding.specs.GridLimit.{IsGridFault, grid_limit};

    /// No rows yet, to be gridded by `cell` and `tick`.
    pub fn new(alloc: Global, cell: u64, tick: u64) -> Self
        requires cell { IsResolution cell }
        requires tick { IsResolution tick }
        ensures { HasGridded cell tick [] result }
    {
        GriddedRows {
            tracks: TrackBlocks::new(alloc),
            loose: Vec::new(alloc),
            count: 0,
            cell,
            tick,
        }
    }

    /// Takes rows that come after those before. After an `Err` the rows in hand must not be used any more.
    pub fn append(&mut self, rows: &[RawRow]) -> Result<(), AllocError>
        requires { All IsRawInRange rows.now }
        ensures { OnOk result ((cell tick : ℕ) (raws : List RawRow) → HasGridded cell tick raws self.old →
            HasGridded cell tick (raws ++ rows.now) self.new) }
    {
        let grid = Grid::new(self.cell, self.tick);
        for raw in rows {
            self.add(grid.row(raw))?;
        }
        self.count = self.count.saturating_add(rows.len());
        Ok(())
    }

    // Puts a row after those before: into a block, as long as every row before it has one.
    fn add(&mut self, row: Row) -> Result<(), AllocError>
        requires { IsRowInRange row }
        ensures cell { self.new.cell ≡ self.old.cell }
        ensures tick { self.new.tick ≡ self.old.tick }
        ensures count { self.new.count ≡ self.old.count }
        ensures rows { OnOk result ((rows : List Row) → HoldsRows rows self.old →
            HoldsRows (rows ++ (row ∷ [])) self.new) }
    {
        if self.loose.is_empty() && self.tracks.add(row)? {
            return Ok(());
        }
        self.loose.push(row)?;
        Ok(())
    }

    /// How many rows have no block: those from the first one without a block on.
    pub fn loose_count(&self) -> usize
        ensures { result ≡ length self.now.loose.items }
    {
        self.loose.len()
    }

    /// The chart of the rows, as `grid` answers it.
    pub fn chart(self, alloc: Global, period: u32) -> Result<Chart, GridFault>
        requires few { AreFew self }
        requires period { IsPeriod period }
        ensures some { IfOk result (λ _. (cell tick : ℕ) (raws : List RawRow) →
            HasGridded cell tick raws self → raws ≢ []) }
        ensures ok { IfOk result (λ chart. (cell tick : ℕ) (raws : List RawRow) →
            HasGridded cell tick raws self → (grid_limit raws cell tick period ≡ None)
            × (chart ≡ chart_of raws cell tick period)) }
        ensures fault { IfErr result (λ fault. (cell tick : ℕ) (raws : List RawRow) →
            HasGridded cell tick raws self → IsGridFault raws cell tick period fault) }
    {
        let runs = self.tracks.runs(alloc)?;
        let made = merged_rows(alloc, self.tracks.origin(), runs, &self.loose, self.count)?;
        if made.rows.is_empty() {
            return Err(GridFault::Empty);
        }
        check_limits(made.rows.as_slice(), made.survey, period)?;
        Ok(Chart::with_extents(made.rows, made.survey.extents, self.cell, self.tick, period))
    }
}
