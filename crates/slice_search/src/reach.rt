ghost use Rattle.std.specs.Prelude.{◌≡◌, ◌<◌, ◌≤◌, ◌^◌};
ghost use Rattle.track_types.specs.Frame.{grid_of, periods_of, IsFrame};
ghost use Rattle.track_types.specs.Near.{IsBoxWithin};
ghost use Rattle.track_types.specs.declared.limit.TheConstants.{MAX_REACH};
ghost use Rattle.track_types.specs.Region.{intersects_region};
ghost use Rattle.slice_search.specs.Reach.{may_reach, short_width};
ghost use Rattle.slice_search.specs.Sought.{latest_in};

use box_tree::Search;
use region_test::RegionTest;
use snapshots::Stores;
use track_types::{CellBox, Frame, MAX_REACH};

/// The reach of a period at an instant, as a search judges it: the squares from which an object may get
/// into a region by then, and the boxes that the region touches.
#[derive(Drop)]
pub struct Reach<'a> {
    test: &'a RegionTest,
    // All cells of the index's grid; no object is outside it.
    grid: CellBox,
    // How many cells a square is widened by on each side.
    width: u64,
    ghost near: { IsBoxWithin grid },
    ghost narrow: { width ≤ MAX_REACH },
}

impl<'a> Reach<'a> {
    // The reach of a period at an instant.
    pub(crate) fn new(stores: &Stores, period: u32, instant: i64, test: &'a RegionTest) -> Reach<'a>
        requires { period < periods_of stores.now.frame }
        ensures region { result.test.now.region ≡ test.now.region }
        ensures grid { result.grid ≡ grid_of stores.now.frame }
        ensures width { result.width ≡ short_width stores.now period instant }
    {
        let frame = stores.frame();
        let elapsed = instant.abs_diff(frame.timeline().first_of(period));
        let width = stores.speed(period).saturating_mul(elapsed);
        Reach {
            test,
            grid: frame.grid(),
            width: width.min(MAX_REACH), // all cells of a grid are nearer to each other
        }
    }
}

impl<'a> Search for Reach<'a> {
    ghost use Rattle.slice_search.specs.Monotone.{monotone-reach};

    ghost squares = { λ r. may_reach r.test.now.region r.grid r.width };

    ghost boxes = { λ r. intersects_region r.test.now.region };

    ghost monotone = { λ r. monotone-reach r.test.now.region r.grid r.width };

    fn meets_square(&self, area: &CellBox) -> bool {
        let wide = area.widened(self.width);
        self.grid.meets(&wide) && self.test.may(&wide.cut_to(&self.grid))
    }

    fn meets_box(&self, area: &CellBox) -> bool {
        self.test.may(area)
    }
}

/// Whether the region of a test has a cell of an index's grid. Where it has none, nothing is in it.
pub fn meets_grid(stores: &Stores, test: &RegionTest) -> bool
    ensures { result ≡ intersects_region test.now.region (grid_of stores.now.frame) }
{
    test.may(&stores.frame().grid())
}

// The last instant of a window in a period, or of the period where the window ends after it.
pub(crate) fn latest_of(frame: &Frame, period: u32, to: i64) -> i64
    requires header { IsFrame frame.now }
    requires period { period < periods_of frame.now }
    ensures { result ≡ latest_in frame.now period to }
{
    to.min(frame.timeline().end_of(period))
}
