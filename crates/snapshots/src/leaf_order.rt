ghost use Rattle.std.specs.Prelude.{◌≡◌, ◌+◌, ◌<◌, ◌≤◌, ◌^◌, ◌∷◌, false, if◌then◌else◌, length, None, Some, slice_get, slice_index, IfNone, IfSome, IsTrue};
ghost use Rattle.step_count.specs.Reads.{ofPeriod};
ghost use Rattle.bit_rank.specs.Cost.{get_reads, select_reads};
ghost use Rattle.object_perm.specs.Cost.{at_reads};
ghost use Rattle.snapshots.specs.Bounded.{AreFromAnchors};
ghost use Rattle.snapshots.specs.Cost.{first_reads, place_reads};
ghost use Rattle.snapshots.specs.Members.{blocks_from, members_left, IsAt};
ghost use Rattle.snapshots.specs.Ones.{first_ones};
ghost use Rattle.snapshots.specs.Sound.{IsSnapshot};
ghost use Rattle.snapshots.specs.View.{block_at, block_of, blocks_in, leaf_at, tree_in, IsPlaced};
ghost use Rattle.snapshots.specs.declared.next.Next.TheVariants.{End, Place};

use crate::anchored::Anchored;
use crate::bounded::anchor_of;
use crate::snapshot::Snapshot;
use log_bounds::PackedBounds;
use step_count::{Reads, Steps};
use track_types::Cell;

// Leaf order: the present objects by the leaf of their anchor, and those of one leaf by their place.
impl Snapshot {
    // The place of an object's block in leaf order, and its place among those by object. `None` if and only if the
    // object has no block in this period.
    pub(crate) fn places_of<L: Reads>(&self, index: u32, steps: &mut Steps<L>) -> Option<(u32, u32)>
        requires within { index < self.now.objects }
        requires may { IsTrue (L.may (ofPeriod self.now.number)) }
        ensures none { IfNone result (block_of self.now index ≡ None) }
        ensures placed { IfSome result (λ found. IsPlaced self.now index found.0 found.1) }
        ensures snapshot { IsSnapshot self.now }
        ensures cost { steps.new ≤ steps.old + place_reads }
    {
        if !self.is_present(index, steps) {
            return None;
        }
        let blocks = self.blocks();
        let rank = blocks.present.rank1(index, steps);
        let place = blocks.perm.inverse(rank, steps);
        Some((place, rank))
    }

    // The first place of a leaf in leaf order.
    pub(crate) fn first_place<L: Reads>(&self, leaf: u32, steps: &mut Steps<L>) -> u32
        requires within { leaf < length (tree_in self.now).cells }
        requires may { IsTrue (L.may (ofPeriod self.now.number)) }
        ensures within { result < length self.now.parts.perm }
        ensures leaf { leaf_at self.now result ≡ leaf }
        ensures places { blocks_in self.now leaf ≡ blocks_from self.now leaf result }
        ensures cost { steps.new ≤ steps.old + first_reads }
    {
        let _ = self.tree(); // says what holds of every snapshot
        if leaf == 0 {
            return 0;
        }
        self.blocks().lasts.select1(leaf, steps) + 1
    }

    // The block at a place in leaf order, in whose leaf's cell its anchor is.
    pub(crate) fn block_in<L: Reads>(
        &self,
        place: u32,
        cell: Cell,
        steps: &mut Steps<L>,
    ) -> Anchored
        requires within { place < length self.now.parts.perm }
        requires cell { slice_get (tree_in self.now).cells (leaf_at self.now place) ≡ Some cell }
        requires may { IsTrue (L.may (ofPeriod self.now.number)) }
        ensures value { result ≡ block_at self.now place }
        ensures cost { steps.new ≤ steps.old + (at_reads + select_reads) }
    {
        let blocks = self.blocks();
        let rank = blocks.perm.at(place, steps);
        let index = blocks.present.select1(rank + 1, steps);
        self.block(index, rank, cell)
    }

    // The block at a place in leaf order, in whose leaf's cell its anchor is, by the places of the present objects.
    // Its place by object comes before it.
    pub(crate) fn block_among<L: Reads>(
        &self,
        present: &[u32],
        place: u32,
        cell: Cell,
        steps: &mut Steps<L>,
    ) -> (u32, Anchored)
        requires within { place < length self.now.parts.perm }
        requires cell { slice_get (tree_in self.now).cells (leaf_at self.now place) ≡ Some cell }
        requires present { present.now ≡ first_ones self.now.parts.present (length self.now.parts.perm) }
        requires may { IsTrue (L.may (ofPeriod self.now.number)) }
        ensures rank { result.0 ≡ slice_index self.now.parts.perm place }
        ensures value { result.1 ≡ block_at self.now place }
        ensures cost { steps.new ≤ steps.old + at_reads }
    {
        let rank = self.blocks().perm.at(place, steps);
        (rank, self.block(present[rank as usize], rank, cell))
    }

    // The same by bounds that begin at the anchors of all blocks, by object, counted from the base of the grid.
    pub(crate) fn block_bounded<L: Reads>(
        &self,
        present: &[u32],
        bounds: &[PackedBounds],
        place: u32,
        steps: &mut Steps<L>,
    ) -> (u32, Anchored)
        requires within { place < length self.now.parts.perm }
        requires present { present.now ≡ first_ones self.now.parts.present (length self.now.parts.perm) }
        requires bounds { AreFromAnchors self.now bounds.now }
        requires may { IsTrue (L.may (ofPeriod self.now.number)) }
        ensures rank { result.0 ≡ slice_index self.now.parts.perm place }
        ensures value { result.1 ≡ block_at self.now place }
        ensures cost { steps.new ≤ steps.old + at_reads }
    {
        let rank = self.blocks().perm.at(place, steps);
        let cell = anchor_of(bounds[rank as usize], self.frame().base);
        (rank, self.block(present[rank as usize], rank, cell))
    }

    // Whether the object at a place in leaf order is the last of its cell.
    pub(crate) fn is_last<L: Reads>(&self, place: u32, steps: &mut Steps<L>) -> bool
        requires within { place < length self.now.parts.perm }
        requires may { IsTrue (L.may (ofPeriod self.now.number)) }
        ensures room { place + 1 < 2 ^ 32 }
        ensures next { leaf_at self.now (place + 1) ≡ leaf_at self.now place + (if result then 1 else 0) }
        ensures more { result ≡ false → IsAt self.now (leaf_at self.now place) (Place (place + 1)) }
        ensures left { blocks_from self.now (leaf_at self.now place) place
            ≡ block_at self.now place ∷ members_left self.now (leaf_at self.now place)
            (if result then End else Place (place + 1)) }
        ensures cost { steps.new ≤ steps.old + get_reads }
    {
        self.blocks().lasts.get(place, steps)
    }
}
