ghost use Rattle.std.specs.Prelude.{◌≡◌, ◌+◌, ◌≤◌, IfOk};
ghost use Rattle.step_count.specs.Reads.{ReadsWithin};
ghost use Rattle.track_types.specs.ByFilter.{sightings_of};
ghost use Rattle.track_types.specs.Near.{IsAsked};
ghost use Rattle.track_types.specs.Region.{IsRegionAsked};
ghost use Rattle.snapshots.specs.Parts.{chart_in};
ghost use Rattle.slice_search.specs.Cost.{slice_cost};
ghost use Rattle.slice_search.specs.Needs.{slice_needs};

use crate::sightings::sightings;
use crate::sought::Sought;
use region_test::RegionTest;
use snapshots::Stores;
use std::alloc::Global;
use step_count::{Reads, Steps};
use track_types::{Memory, Sighting};

/// The objects that are in the test's region at an instant, by object, each with its cell.
///
/// There are none at an instant outside the index. The instant and the region's coordinates are at most
/// `MAX_ASKED` away from 0, and its radius is at most `MAX_REACH`. `Memory` is the only refusal;
/// nothing is allocated for a square or a block that is passed over.
pub fn slice<L: Reads>(
    alloc: Global,
    stores: &Stores,
    instant: i64,
    test: &RegionTest,
    steps: &mut Steps<L>,
) -> Result<Vec<Sighting>, Memory>
    requires instant { IsAsked instant }
    requires region { IsRegionAsked test.now.region }
    requires may { ReadsWithin (slice_needs stores.now instant test.now.region) L.may }
    ensures ok { IfOk result (λ found.
        found.items ≡ sightings_of (chart_in stores.now).rows instant test.now.region) }
    ensures cost { steps.new ≤ steps.old + slice_cost stores.now instant test.now.region }
{
    let Some(period) = stores.period_of(instant) else {
        return Ok(Vec::new(alloc));
    };
    let sought = Sought {
        stores,
        period,
        from: instant,
        to: instant,
        test,
    };
    let mut blocks = sought.blocks();
    let mut found = sightings(alloc, &sought, &mut blocks, steps)?;
    found.sort_unstable_by_key(|sighting| sighting.object);
    Ok(found)
}
