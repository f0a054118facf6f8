ghost use Rattle.std.specs.Prelude.{◌≡◌, ◌+◌, ◌^◌, ◌<◌, ◌≤◌, length, map, All, IfOk, IsTrue};
ghost use Rattle.step_count.specs.Reads.{ofPeriod};
ghost use Rattle.track_types.specs.Frame.{IsFrame};
ghost use Rattle.box_tree.specs.Boxes.{IsFrom};
ghost use Rattle.box_tree.specs.Places.{box_at, ArePlaces};
ghost use Rattle.box_tree.specs.Tree.{places_with};
ghost use Rattle.rule_store.specs.View.{RulesView};
ghost use Rattle.snapshots.specs.Cost.{record_reads};
ghost use Rattle.snapshots.specs.TrackTree.{begin_of, morton_of_block, level_count, length_and_index, narrow_count, IsKept, IsOfPeriod};
ghost use Rattle.snapshots.specs.Found.{AreFound};
ghost use Rattle.snapshots.specs.TrackWalk.{block_kept};
ghost use Rattle.snapshots.specs.Tracks.{blocks_by_leaf, track_box};
ghost use Rattle.snapshots.specs.View.{all_blocks};

use crate::anchored::Anchored;
use crate::finding::FoundBlocks;
use crate::snapshot::Snapshot;
use crate::track_tree::TrackTree;
use box_tree::BoxTree;
use std::alloc::Global;
use step_count::{CountedList, Reads, Steps};
use track_types::{Cell, CellBox, Frame, Memory};

impl TrackTree {
    /// Keeps the blocks of the period with a number in leaf order, with the Morton numbers of their cells and the boxes
    /// of their tracks, and nothing where there is none.
    pub fn store(
        alloc: Global,
        frame: &Frame,
        number: u32,
        blocks: &[Anchored],
        codes: &[u64],
        boxes: &[CellBox],
    ) -> Result<Option<Box<TrackTree>>, Memory>
        requires header { IsFrame frame.now }
        requires places { ArePlaces (places_with (level_count frame.now) (narrow_count frame.now)
            (map (morton_of_block frame.now) blocks.now) boxes.now) }
        requires from { All (IsFrom frame.now.base) boxes.now }
        requires codes { codes.now ≡ map (morton_of_block frame.now) blocks.now }
        requires few { length blocks.now < 2 ^ 31 }
        ensures period { IfOk result (IsOfPeriod number) }
        ensures tracks { IfOk result (λ kept. (rules : RulesView)
            → boxes.now ≡ map (track_box rules) blocks.now
            → IsKept frame.now rules blocks.now kept) }
    {
        if blocks.is_empty() {
            return Ok(None);
        }
        let height = frame.height;
        let wide = frame.wide_levels();
        let levels = height - wide;
        let narrow = height - 2 * wide;
        let tree = BoxTree::build(alloc, levels, narrow, height, frame.base, codes, boxes)?;
        let begins = CountedList::new(begins_of(alloc, blocks)?);
        let logs = CountedList::new(logs_of(alloc, blocks)?);
        let kept = TrackTree {
            number: std::snapshot::Snapshot::of(&number),
            tree,
            begins,
            logs,
        };
        Ok(Some(Box::new(alloc, kept)?))
    }

    /// The block at a place.
    pub fn block<L: Reads>(&self, place: u32, steps: &mut Steps<L>) -> Anchored
        requires within { place < length self.now.tree.places.codes }
        requires may { IsTrue (L.may (ofPeriod self.now.number.value)) }
        ensures value { result ≡ block_kept self.now place }
        ensures cost { steps.new ≤ steps.old + record_reads }
    {
        let cell = self.tree.place_cell(place, steps);
        let (offset, from) = self.begins.at(place as usize, steps);
        let (len, index) = self.logs.at(place as usize, steps);
        Anchored {
            index,
            offset,
            cell: Cell {
                x: cell.x1,
                y: cell.y1,
            },
            from,
            len,
        }
    }
}

/// Keeps the blocks that were found of the period with a number with the boxes of their tracks, which are given by object. The boxes lie
/// from the grid's base on.
pub fn keep_tracks(
    alloc: Global,
    snapshot: &Snapshot,
    number: u32,
    found: &FoundBlocks,
    areas: &[CellBox],
) -> Result<Option<Box<TrackTree>>, Memory>
    requires found { AreFound snapshot.now found.now }
    requires long { length areas.now ≡ length snapshot.now.parts.perm }
    requires from { All (IsFrom snapshot.now.frame.base) areas.now }
    ensures period { IfOk result (IsOfPeriod number) }
    ensures tracks { IfOk result (λ kept. (rules : RulesView)
        → areas.now ≡ map (track_box rules) (all_blocks snapshot.now)
        → IsKept snapshot.now.frame rules (blocks_by_leaf snapshot.now) kept) }
{
    let frame = snapshot.frame();
    let boxes = picked(alloc, areas, &found.ranks)?;
    TrackTree::store(alloc, frame, number, &found.by_leaf, &found.codes, &boxes)
}

// The areas at some places.
fn picked(alloc: Global, areas: &[CellBox], places: &[u32]) -> Result<Vec<CellBox>, Memory>
    requires { All (λ place. place < length areas.now) places.now }
    ensures { IfOk result (λ boxes. boxes.items ≡ map (box_at areas.now) places.now) }
{
    let mut boxes = Vec::with_capacity(alloc, places.len())?;
    for place in places {
        boxes.push(areas[*place as usize])?;
    }
    Ok(boxes)
}

// Where the blocks and their logs begin.
fn begins_of(alloc: Global, blocks: &[Anchored]) -> Result<Vec<(u32, u32)>, Memory>
    ensures { IfOk result (λ begins. begins.items ≡ map begin_of blocks.now) }
{
    let mut begins = Vec::with_capacity(alloc, blocks.len())?;
    for block in blocks {
        begins.push((block.offset, block.from))?;
    }
    Ok(begins)
}

// How long their logs are, and whose they are.
fn logs_of(alloc: Global, blocks: &[Anchored]) -> Result<Vec<(u32, u32)>, Memory>
    ensures { IfOk result (λ logs. logs.items ≡ map length_and_index blocks.now) }
{
    let mut logs = Vec::with_capacity(alloc, blocks.len())?;
    for block in blocks {
        logs.push((block.len, block.index))?;
    }
    Ok(logs)
}
