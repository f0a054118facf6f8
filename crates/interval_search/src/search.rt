ghost use Rattle.std.specs.Prelude.{◌≡◌, ◌+◌, ◌≤◌, IfOk};
ghost use Rattle.step_count.specs.Reads.{ReadsWithin};
ghost use Rattle.track_types.specs.ByFilter.{hits_of};
ghost use Rattle.track_types.specs.Near.{IsAsked};
ghost use Rattle.track_types.specs.Region.{IsRegionAsked};
ghost use Rattle.snapshots.specs.Parts.{chart_in};
ghost use Rattle.slice_search.specs.Needs.{interval_needs};
ghost use Rattle.interval_search.specs.Cost.{interval_cost};

use crate::first_hits::FirstHits;
use log_cursor::Pending;
use object_track::Periods;
use region_test::RegionTest;
use slice_search::{Sought, meets_grid};
use snapshots::Stores;
use std::alloc::Global;
use step_count::{Reads, Steps};
use track_types::{Hit, Memory};

/// For each object that is in the test's region at some instant of a window, whose ends count, the
/// first such instant and its cell there, by object.
///
/// The instants and the region's coordinates are at most 2^41 away from 0, and its radius is at most
/// 2^42. `Memory` is the only refusal: memory is taken for the answer, for a bool for each object,
/// and once, where the grammar is deep, for the parts of opened rules. Where the region has no cell
/// of the grid, no period is gone through.
pub fn interval<'a, L: Reads>(
    alloc: Global,
    stores: &'a Stores,
    from: i64,
    to: i64,
    test: &'a RegionTest,
    steps: &mut Steps<L>,
) -> Result<Vec<Hit>, Memory>
    requires from { IsAsked from }
    requires to { IsAsked to }
    requires region { IsRegionAsked test.now.region }
    requires may { ReadsWithin (interval_needs stores.now from to test.now.region) L.may }
    ensures ok { IfOk result (λ found.
        found.items ≡ hits_of (chart_in stores.now).rows from to test.now.region) }
    ensures cost { steps.new ≤ steps.old + interval_cost stores.now from to test.now.region }
{
    let _ = stores.frame(); // says what holds of every index
    if !meets_grid(stores, test) {
        return Ok(Vec::new(alloc));
    }
    let mut hits = FirstHits::none(alloc, stores.objects())?;
    let mut pending = Pending::new(alloc, stores.rules())?;
    let periods = Periods::met(stores, from, to);
    for period in periods.next..periods.end {
        let sought = Sought {
            stores,
            period,
            from,
            to,
            test,
        };
        let mut blocks = sought.blocks();
        hits.look(&mut pending, &sought, &mut blocks, steps)?;
    }
    Ok(hits.in_order())
}
