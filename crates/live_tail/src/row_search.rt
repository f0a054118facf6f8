ghost use Rattle.std.specs.Prelude.{◌≡◌, ◌++◌, List, All, OnOk};
ghost use Rattle.std.specs.Option.{option_copied};
ghost use Rattle.track_types.specs.ByFilter.{hit_of, is_hit};
ghost use Rattle.track_types.specs.Near.{IsBoxWithin, IsCellWithin};
ghost use Rattle.track_types.specs.Region.{IsRegionWithin, overlaps};
ghost use Rattle.track_types.specs.declared.row.Row.{Row as RowView};
ghost use Rattle.live_tail.specs.Chunks.{AreChunksOf, may_have};
ghost use Rattle.live_tail.specs.Hits.{HaveFirst, is_passed};
ghost use Rattle.live_tail.specs.SmallRows.{rows_in};

use crate::chunk::{CHUNK_ROWS, Chunk};
use crate::small_rows::SmallRows;
use track_types::{Extent, Hit, Memory, Region, Row};

/// A search for rows in a window, whose ends count, and in a region.
#[derive(Clone, Copy)]
pub struct RowSearch<'a> {
    pub from: i64,
    pub to: i64,
    pub region: &'a Region,
}

impl<'a> RowSearch<'a> {
    /// Appends hits to those of rows before, so that the first of each object is among them. A chunk
    /// that does not meet the window and the region is passed over.
    pub fn push_hits(
        &self,
        chunks: &[Chunk],
        rows: SmallRows<'_>,
        found: &mut Vec<Hit>,
    ) -> Result<(), Memory>
        requires region { IsRegionWithin self.now.region.now }
        requires chunks { AreChunksOf (rows_in rows) chunks.now }
        ensures { OnOk result ((before : List RowView)
            → HaveFirst before self.now.from self.now.to self.now.region.now found.old.items
            → HaveFirst (before ++ rows_in rows.entry) self.now.from self.now.to self.now.region.now found.new.items) }
    {
        let mut left = chunks;
        let mut rest = rows;
        while let Some((chunk, others)) = left.split_first() {
            let (own, behind) = rest.cut(CHUNK_ROWS);
            if self.may_have(chunk) {
                self.push_hits_of(own, found)?;
            }
            left = others;
            rest = behind;
        }
        Ok(())
    }

    /// The same for rows that are looked at one by one.
    pub fn push_hits_of(&self, rows: SmallRows<'_>, found: &mut Vec<Hit>) -> Result<(), Memory>
        requires region { IsRegionWithin self.now.region.now }
        requires near { All (λ (row : RowView). IsCellWithin row.cell) (rows_in rows) }
        ensures { OnOk result ((before : List RowView)
            → HaveFirst before self.now.from self.now.to self.now.region.now found.old.items
            → HaveFirst (before ++ rows_in rows.entry) self.now.from self.now.to self.now.region.now found.new.items) }
    {
        for small in rows.rows {
            let row = rows.origin.row(small);
            if self.has(&row) && !is_passed(&row, found.last()) {
                found.push(hit_of(&row))?;
            }
        }
        Ok(())
    }

    // Whether a row is in the window and in the region.
    fn has(&self, row: &Row) -> bool
        requires region { IsRegionWithin self.now.region.now }
        requires near { IsCellWithin row.now.cell }
        ensures { result ≡ is_hit self.now.from self.now.to self.now.region.now row.now }
    {
        self.from <= row.instant && row.instant <= self.to && self.region.contains(row.cell)
    }

    // Whether a chunk may have a row in the window and in the region.
    fn may_have(&self, chunk: &Chunk) -> bool
        requires region { IsRegionWithin self.now.region.now }
        requires near { IsBoxWithin chunk.now.area }
        ensures { result ≡ may_have self.now.from self.now.to self.now.region.now chunk.now }
    {
        overlaps(self.from, self.to, chunk.time) && self.region.touches(&chunk.area)
    }
}

// Whether some instant is from one to another and in an extent, all ends counted.
fn overlaps(from: i64, to: i64, time: Extent) -> bool
    ensures { result ≡ overlaps from to time.least time.greatest }
{
    from.max(time.least) <= to.min(time.greatest)
}

// Whether there is a last hit, and it is of a row's object, and no later.
fn is_passed(row: &Row, last: Option<&Hit>) -> bool
    ensures { result ≡ is_passed row.now (option_copied last.entry) }
{
    match last {
        Some(hit) => row.object == hit.object && hit.instant <= row.instant,
        None => false,
    }
}

// The hit that a row is.
fn hit_of(row: &Row) -> Hit
    ensures { result ≡ hit_of row.now }
{
    Hit {
        object: row.object,
        instant: row.instant,
        cell: row.cell,
    }
}
