ghost use Rattle.std.specs.Prelude.{◌≡◌, ◌+◌, ◌≤◌, IfOk};
ghost use Rattle.step_count.specs.Reads.{ReadsWithin};
ghost use Rattle.track_types.specs.ByFilter.{hits_of, sightings_of};
ghost use Rattle.track_types.specs.Near.{IsAsked, IsBoxWithin, IsCellWithin};
ghost use Rattle.track_types.specs.Region.{in_region, intersects_region};
ghost use Rattle.track_types.specs.Region.{IsRegionAsked, IsRegionWithin};
ghost use Rattle.snapshots.specs.Parts.{chart_in};
ghost use Rattle.interval_search.specs.Cost.{interval_cost};
ghost use Rattle.slice_search.specs.Cost.{slice_cost};
ghost use Rattle.slice_search.specs.Needs.{interval_needs, slice_needs};

use interval_search::interval;
use region_test::RegionTest;
use slice_search::slice;
use snapshots::Stores;
use std::alloc::Global;
use step_count::{Reads, Steps};
use track_types::{Cell, CellBox, Hit, Memory, Region, Sighting};

// Both searches of a region make the closures that answer it themselves: a function that makes them
// can hand neither them nor a `RegionTest` on to its caller.

// The slice of an instant in a region.
pub(crate) fn slice_of<L: Reads>(
    alloc: Global,
    stores: &Stores,
    instant: i64,
    region: &Region,
    steps: &mut Steps<L>,
) -> Result<Vec<Sighting>, Memory>
    requires instant { IsAsked instant }
    requires region { IsRegionAsked region.now }
    requires may { ReadsWithin (slice_needs stores.now instant region.now) L.may }
    ensures ok { IfOk result (λ found.
        found.items ≡ sightings_of (chart_in stores.now).rows instant region.now) }
    ensures cost { steps.new ≤ steps.old + slice_cost stores.now instant region.now }
{
    // Each closure has a region of its own, since what one takes is gone for the others.
    let held = near_region(region);
    let contains = Box::new(
        alloc,
        move |cell: Cell| -> bool
            requires region { IsRegionWithin held }
            requires near { IsCellWithin cell }
            ensures { result ≡ in_region held cell }
        { held.contains(cell) },
    )?;
    let touched = near_region(region);
    let may_touch = Box::new(
        alloc,
        move |area: &CellBox| -> bool
            requires region { IsRegionWithin touched }
            requires near { IsBoxWithin area.now }
            ensures { result ≡ intersects_region touched area.now }
        { touched.touches(area) },
    )?;
    let test = RegionTest::new(near_region(region), contains, may_touch);
    slice(alloc, stores, instant, &test, steps)
}

// The interval of a window in a region.
pub(crate) fn interval_of<L: Reads>(
    alloc: Global,
    stores: &Stores,
    window: (i64, i64),
    region: &Region,
    steps: &mut Steps<L>,
) -> Result<Vec<Hit>, Memory>
    requires from { IsAsked window.0 }
    requires to { IsAsked window.1 }
    requires region { IsRegionAsked region.now }
    requires may { ReadsWithin (interval_needs stores.now window.0 window.1 region.now) L.may }
    ensures ok { IfOk result (λ found.
        found.items ≡ hits_of (chart_in stores.now).rows window.0 window.1 region.now) }
    ensures cost { steps.new
        ≤ steps.old + interval_cost stores.now window.0 window.1 region.now }
{
    // Each closure has a region of its own, since what one takes is gone for the others.
    let held = near_region(region);
    let contains = Box::new(
        alloc,
        move |cell: Cell| -> bool
            requires region { IsRegionWithin held }
            requires near { IsCellWithin cell }
            ensures { result ≡ in_region held cell }
        { held.contains(cell) },
    )?;
    let touched = near_region(region);
    let may_touch = Box::new(
        alloc,
        move |area: &CellBox| -> bool
            requires region { IsRegionWithin touched }
            requires near { IsBoxWithin area.now }
            ensures { result ≡ intersects_region touched area.now }
        { touched.touches(area) },
    )?;
    let test = RegionTest::new(near_region(region), contains, may_touch);
    interval(alloc, stores, window.0, window.1, &test, steps)
}

// The region of a question, shown to be near enough for both of its tests.
fn near_region(region: &Region) -> Region
    requires { IsRegionAsked region.now }
    ensures value { result ≡ region.now }
    ensures within { IsRegionWithin result }
{
    *region
}
