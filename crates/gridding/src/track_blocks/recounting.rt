// Blocks whose places are counted from another origin, since a row has no place from theirs.

ghost use Rattle.std.specs.Prelude.{◌≡◌, ◌<◌, ◌≤ℤ◌, ◌+ℤ◌, pos, ◌++◌, List, All, true, false, fold, IfNone, IfOk, IfSome, Ok};
ghost use Rattle.gridding.specs.Blocks.{rows_of_run, rows_of_runs, runs_in};
ghost use Rattle.track_types.specs.Extents.{extent_over, widened};
ghost use Rattle.gridding.specs.Recounting.{IsCentred, IsExtentWithin, IsOfExtent};
ghost use Rattle.gridding.specs.declared.packed_place.TheConstants.{INSTANTS};
ghost use Rattle.track_types.specs.Near.{IsRowInRange};
ghost use Rattle.track_types.specs.Quantities.{instants_of};
ghost use Rattle.track_types.specs.declared.row.Row.{Row};

use super::{Run, TrackBlocks};
use crate::packed_place::{INSTANTS, Origin, PackedPlace};
use std::alloc::AllocError;
use track_types::{Extent, Row};

impl TrackBlocks {
    ghost use Rattle.gridding.specs.GriddedRows.{AreBlocksOf, HasKept, HasPut, IsApart};
    ghost use Rattle.gridding.specs.PackedPlace.{HasPlace};

    // Puts a row that is far from the origin, and answers whether it could: where all rows have places from another
    // origin, they are counted from there.
    #[cold]
    #[inline(never)]
    pub(super) fn add_far(&mut self, row: Row) -> Result<bool, AllocError>
        requires { IsRowInRange row }
        ensures put { result ≡ Ok true → HasPut row self.old self.new }
        ensures left_out { result ≡ Ok false → HasKept self.old self.new }
        ensures apart { result ≡ Ok false → IsApart row self.old }
    {
        let Some(moved) = self.recounted(row)? else {
            return Ok(false);
        };
        *self = moved;
        let Some(place) = self.origin.place(row) else {
            return Ok(false);
        };
        self.put_known(row.object, place)?;
        Ok(true)
    }

    // The same rows with their places counted from an origin from which this row has a place too, or none where there
    // is no such origin. As many instants are free before the first as after the last. The next time at most half as
    // many are, so that rows are counted anew at most 22 times.
    fn recounted(&self, row: Row) -> Result<Option<TrackBlocks>, AllocError>
        requires { IsRowInRange row }
        ensures kept { IfOk result (λ made. IfSome made (HasKept self.now)) }
        ensures reached { IfOk result (λ made. IfSome made (λ tracks. HasPlace tracks.origin row)) }
        ensures apart { IfOk result (λ made. IfNone made (IsApart row self.now)) }
    {
        let alloc = *self.blocks.allocator();
        let runs = self.runs(alloc)?;
        let extent = extent_of(self.origin, runs.as_slice()).widened(row.instant);
        let Some(before) = instants_before(extent, row.instant) else {
            return Ok(None);
        };
        let origin = self.origin.reaching(row.instant, before);
        let Some(_place) = origin.place(row) else {
            // Its cell is far away.
            return Ok(None);
        };
        let mut tracks = TrackBlocks::counted_from(alloc, origin);
        for &(object, places) in runs.iter() {
            if !tracks.add_run(self.origin, object, places)? {
                return Ok(None);
            }
        }
        Ok(Some(tracks))
    }

    // Puts the rows of a run that is counted from another origin, and answers whether all have places.
    fn add_run(
        &mut self,
        origin: Origin,
        object: u32,
        places: &[PackedPlace],
    ) -> Result<bool, AllocError>
        ensures put { result ≡ Ok true → (rows : List Row) → AreBlocksOf rows self.old →
            AreBlocksOf (rows ++ rows_of_run origin (object, places.now)) self.new }
        ensures far { result ≡ Ok false →
            All (HasPlace self.old.origin) (rows_of_run origin (object, places.now)) → ⊥ }
        ensures origin { self.new.origin ≡ self.old.origin }
    {
        for place in places {
            let Some(place) = self.origin.place(origin.row(object, *place)) else {
                return Ok(false);
            };
            // The places of a run go to one block, so that nothing is hashed for most of them.
            if self.put(object, self.recent, place) {
                continue;
            }
            self.put_known(object, place)?;
        }
        Ok(true)
    }
}

// How many instants an origin leaves before one of an extent, so that as many are free on both sides of the extent;
// none if the extent is too wide.
fn instants_before(extent: Extent, instant: i64) -> Option<u64>
    requires near { IsExtentWithin extent }
    requires inside { IsOfExtent extent instant }
    ensures within { IfSome result (λ before. before < INSTANTS) }
    ensures exact { IfSome result (IsCentred extent instant) }
    ensures none { IfNone result ((extent.least +ℤ pos INSTANTS) ≤ℤ extent.greatest) }
{
    let last = extent.greatest.abs_diff(extent.least);
    if last >= INSTANTS {
        return None;
    }
    Some(instant.abs_diff(extent.least) + (INSTANTS - 1 - last) / 2)
}

// The extent of the instants of runs that are counted from an origin.
fn extent_of(origin: Origin, runs: &[Run<'_>]) -> Extent
    ensures exact { result ≡ extent_over (instants_of (rows_of_runs origin (runs_in runs.now))) }
    ensures near { IsExtentWithin result }
{
    let mut extent = Extent::empty();
    for &(object, places) in runs {
        extent = extent_with(extent, origin, object, places);
    }
    extent
}

// An extent, widened so that the instants of a run are in it.
fn extent_with(extent: Extent, origin: Origin, object: u32, places: &[PackedPlace]) -> Extent
    requires near { IsExtentWithin extent }
    ensures exact { result ≡ fold widened extent (instants_of (rows_of_run origin (object, places.now))) }
    ensures near { IsExtentWithin result }
{
    let mut extent = extent;
    for place in places {
        extent = extent.widened(origin.row(object, *place).instant);
    }
    extent
}
