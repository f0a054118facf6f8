ghost use Rattle.std.specs.Prelude.{◌≡◌, ◌+◌, ◌+ℤ◌, ◌≤◌, fold, map, max, All, IfOk, IsTrue, OnOk};
ghost use Rattle.step_count.specs.Reads.{ofPeriod};
ghost use Rattle.track_types.specs.Boxes.{moved_box};
ghost use Rattle.track_types.specs.Near.{IsNear};
ghost use Rattle.box_tree.specs.Boxes.{IsFrom};
ghost use Rattle.rule_store.specs.Cells.{cell_with};
ghost use Rattle.rule_store.specs.View.{RulesView};
ghost use Rattle.snapshots.specs.Bounded.{blocks_bounds, AreFromAnchors};
ghost use Rattle.snapshots.specs.IndexCost.{blocks_reads};
ghost use Rattle.snapshots.specs.Sound.{IsSnapshot};
ghost use Rattle.snapshots.specs.Speed.{blocks_speed};
ghost use Rattle.snapshots.specs.TrackTree.{IsKept, IsOfPeriod};
ghost use Rattle.snapshots.specs.Tracks.{blocks_by_leaf};

use crate::finding::find_bounded;
use crate::judged::Judged;
use crate::keeping::keep_tracks;
use crate::snapshot::Snapshot;
use log_bounds::PackedBounds;
use std::alloc::Global;
use step_count::{Reads, Steps};
use track_types::{Cell, CellBox, Memory};

/// Finds by what bounds the logs of a period's blocks, which have no flaw, what is kept of the period. The bounds are
/// given by object, and their cells are counted from the base of the grid. It reads no symbol, and what leads to the
/// blocks.
pub fn keep_bounded<L: Reads>(
    alloc: Global,
    snapshot: &Snapshot,
    number: u32,
    bounds: &[PackedBounds],
    steps: &mut Steps<L>,
) -> Result<Judged, Memory>
    requires bounds { AreFromAnchors snapshot.now bounds.now }
    requires may { IsTrue (L.may (ofPeriod snapshot.now.number)) }
    ensures snapshot { OnOk result (IsSnapshot snapshot.now) }
    ensures speed { IfOk result (λ judged. (rules : RulesView)
        → bounds.now ≡ blocks_bounds rules snapshot.now
        → judged.speed ≡ blocks_speed rules snapshot.now) }
    ensures tracks { IfOk result (λ judged. (rules : RulesView)
        → bounds.now ≡ blocks_bounds rules snapshot.now
        → IsKept snapshot.now.frame rules (blocks_by_leaf snapshot.now) judged.tracks) }
    ensures period { IfOk result (λ judged. IsOfPeriod number judged.tracks) }
    ensures cost { steps.new ≤ steps.old + blocks_reads snapshot.now }
{
    // First, since it takes the bounds in order: after it all are near, in whatever order they are
    // taken.
    let areas = areas_of(alloc, bounds, snapshot.frame().base)?;
    let found = find_bounded(alloc, snapshot, bounds, steps)?;
    let tracks = keep_tracks(alloc, snapshot, number, &found, &areas)?;
    let speed = greatest_speed(bounds);
    Ok(Judged { speed, tracks })
}

// The areas that some bounds have from the base of a grid on.
fn areas_of(alloc: Global, bounds: &[PackedBounds], base: Cell) -> Result<Vec<CellBox>, Memory>
    requires column { IsNear base.x }
    requires line { IsNear base.y }
    ensures ok { IfOk result (λ areas.
        areas.items ≡ map (λ log. moved_box base log.area) bounds.now) }
    ensures from { IfOk result (λ areas. All (IsFrom base) areas.items) }
{
    let mut areas = Vec::with_capacity(alloc, bounds.len())?;
    for log in bounds {
        areas.push(log.unpack().area.moved(base))?;
    }
    Ok(areas)
}

// The greatest speed of some bounds, and 0 where there are none.
fn greatest_speed(bounds: &[PackedBounds]) -> u64
    ensures { result ≡ fold max 0 (map (λ log. log.speed) bounds.now) }
{
    let mut greatest = 0;
    for log in bounds {
        greatest = greatest.max(log.unpack().speed);
    }
    greatest
}

/// The cell from which a log begins, whose bounds are counted from the base of the grid.
pub fn anchor_of(bounds: PackedBounds, base: Cell) -> Cell
    requires column { IsNear base.x }
    requires line { IsNear base.y }
    ensures { result ≡ cell_with (bounds.from.x +ℤ base.x) (bounds.from.y +ℤ base.y) }
{
    let from = bounds.unpack().from;
    Cell {
        x: from.x + base.x,
        y: from.y + base.y,
    }
}
