ghost use Rattle.std.specs.Prelude.{◌≡◌};
ghost use Rattle.track_types.specs.Region.{intersects_region, IsRegionWithin};
ghost use Rattle.track_types.specs.declared.region.Region.{Region};
ghost use Rattle.track_types.specs.declared.region.Region.TheVariants.{Disc, Rect};

use k2_tree::Keep;
use std::marker::Model;
use track_types::{CellBox, Region};

// A region as a test of squares: those that it touches are kept. Contracts see the region.
#[derive(Drop)]
pub struct Touching {
    region: Region,
}

impl Model for Touching {
    ghost Value = { Region };

    ghost view = { λ t. t.region };

    ghost invariant = { λ t. IsRegionWithin t.region };
}

impl Touching {
    // The cells of these columns and lines.
    pub fn rect(x1: i32, y1: i32, x2: i32, y2: i32) -> Touching
        ensures { result ≡ Rect x1 y1 x2 y2 }
    {
        let region = Region::Rect {
            x1: i64::from(x1),
            y1: i64::from(y1),
            x2: i64::from(x2),
            y2: i64::from(y2),
        };
        Touching { region }
    }

    // The cells around a centre.
    pub fn disc(x: i32, y: i32, r: u32) -> Touching
        ensures { result ≡ Disc x y r }
    {
        let region = Region::Disc {
            x: i64::from(x),
            y: i64::from(y),
            r: u64::from(r),
        };
        Touching { region }
    }

    pub fn region(&self) -> Region
        ensures value { result ≡ self.now }
        ensures within { IsRegionWithin result }
    {
        self.region
    }
}

impl Keep for Touching {
    ghost keeps = { intersects_region };

    fn keep(&self, area: &CellBox) -> bool {
        self.region.touches(area)
    }
}
