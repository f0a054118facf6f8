ghost use Rattle.std.specs.Prelude.{◌≡◌, ◌+◌, ◌≤◌, ◌<◌, length, ◌-◌, ◌^◌, slice_get, Some, IfOk};
ghost use Rattle.std.specs.Prelude.{All, pos, ◌+ℤ◌, ◌≤ℤ◌};
ghost use Rattle.k2_tree.specs.Morton.{IsBase};
ghost use Rattle.box_tree.specs.Boxes.{IsFrom};
ghost use Rattle.track_types.specs.Near.{IsBoxWithin, IsWithin};

use std::alloc::Global;
use std::marker::Model;
use std::sync::ledger::Ledger;
use step_count::{CountedList, Steps};
use track_types::{Cell, CellBox, Memory};

/// Boxes, each in two words: its least cell as it lies from a base, and how far it reaches from
/// there.
#[derive(Drop)]
pub struct Boxes {
    base: Cell,
    corners: CountedList<(u32, u32)>,
    reaches: CountedList<(u32, u32)>,
}

impl Model for Boxes {
    ghost use Rattle.box_tree.specs.Boxes.{boxes_of, AreBoxes};
    ghost use Rattle.std.specs.Prelude.{List};
    ghost use Rattle.track_types.specs.declared.cell_box.CellBox.{CellBox};

    ghost Value = { List CellBox };

    ghost view = { λ b. boxes_of b.base b.corners b.reaches };

    ghost invariant = { λ b. AreBoxes b.base b.corners b.reaches };
}

impl Boxes {
    /// The boxes of a list, which lie from a base on.
    pub fn new(alloc: Global, base: Cell, list: &[CellBox]) -> Result<Boxes, Memory>
        requires base { IsBase base }
        requires near { All IsBoxWithin list.now }
        requires from { All (IsFrom base) list.now }
        ensures ok { IfOk result (λ boxes. boxes ≡ list.now) }
    {
        let mut corners = Vec::with_capacity(alloc, list.len())?;
        let mut reaches = Vec::with_capacity(alloc, list.len())?;
        for area in list {
            corners.push((offset(area.x1, base.x), offset(area.y1, base.y)))?;
            reaches.push((offset(area.x2, area.x1), offset(area.y2, area.y1)))?;
        }
        Ok(Boxes {
            base,
            corners: CountedList::new(corners),
            reaches: CountedList::new(reaches),
        })
    }

    /// The box at a place, by two reads.
    pub fn at<L: Ledger>(&self, place: u32, steps: &mut Steps<L>) -> CellBox
        requires { place < length self.now }
        ensures value { slice_get self.now place ≡ Some result }
        ensures within { IsBoxWithin result }
        ensures cost { steps.new ≤ steps.old + 2 }
    {
        let corner = self.corners.at(place as usize, steps);
        let reach = self.reaches.at(place as usize, steps);
        let x = self.base.x + i64::from(corner.0);
        let y = self.base.y + i64::from(corner.1);
        CellBox {
            x1: x,
            y1: y,
            x2: x + i64::from(reach.0),
            y2: y + i64::from(reach.1),
        }
    }
}

// How far a coordinate is above another.
fn offset(place: i64, base: i64) -> u32
    requires low { base ≤ℤ place }
    requires high { place ≤ℤ (base +ℤ pos (2 ^ 32 - 1)) }
    requires near { IsWithin base }
    ensures { base +ℤ pos result ≡ place }
{
    (place - base) as u32
}
