ghost use Rattle.std.specs.Prelude.{◌≡◌, ◌≤ℤ◌, false, IfSome};
ghost use Rattle.track_types.specs.Near.{IsBoxWithin};
ghost use Rattle.track_types.specs.declared.limit.TheConstants.{MAX_HEIGHT};

use track_types::CellBox;

/// The box of an entry in 16 bytes. Where there is none, the bounds of its columns cross.
#[derive(Clone, Copy)]
pub(crate) struct PackedBox {
    pub(crate) x1: i32,
    pub(crate) y1: i32,
    pub(crate) x2: i32,
    pub(crate) y2: i32,
    ghost high: { x1 ≤ℤ x2 → y1 ≤ℤ y2 },
}

impl PackedBox {
    ghost use Rattle.rule_store.specs.Flaws.{box_passes};
    ghost use Rattle.rule_store.specs.Stored.{IsHull};

    /// Packs a box that stays within the reach of the highest grid.
    pub(crate) fn pack(hull: Option<CellBox>) -> PackedBox
        requires { box_passes MAX_HEIGHT hull ≡ false }
        ensures { IsHull result hull }
    {
        let Some(hull) = hull else {
            return PackedBox {
                x1: 1,
                y1: 0,
                x2: 0,
                y2: 0,
            };
        };
        PackedBox {
            x1: hull.x1 as i32,
            y1: hull.y1 as i32,
            x2: hull.x2 as i32,
            y2: hull.y2 as i32,
        }
    }

    /// The box, if there is one.
    pub(crate) fn unpack(self) -> Option<CellBox>
        ensures value { IsHull self result }
        ensures within { IfSome result IsBoxWithin }
    {
        if self.x2 < self.x1 {
            return None;
        }
        Some(CellBox {
            x1: i64::from(self.x1),
            y1: i64::from(self.y1),
            x2: i64::from(self.x2),
            y2: i64::from(self.y2),
        })
    }
}
