ghost use Rattle.std.specs.Prelude.{◌≡◌, ◌+◌, ◌≤◌, ◌++◌, ◌∷◌, [], length, IfOk, IsTrue, OnOk};
ghost use Rattle.step_count.specs.Reads.{ofPeriod};
ghost use Rattle.object_perm.specs.Permutation.{PermutesPlaces};
ghost use Rattle.snapshots.specs.Bounded.{AreFromAnchors};
ghost use Rattle.snapshots.specs.Found.{AreFound, ArePut};
ghost use Rattle.snapshots.specs.IndexCost.{blocks_reads};

use crate::anchored::Anchored;
use crate::snapshot::Snapshot;
use k2_tree::morton;
use log_bounds::PackedBounds;
use std::alloc::Global;
use step_count::{Reads, Steps};
use track_types::{Frame, Memory};

/// The blocks of a period.
#[derive(Drop)]
pub struct FoundBlocks {
    /// By leaf, then by object.
    pub by_leaf: Vec<Anchored>,
    /// The Morton numbers of these blocks' cells.
    pub codes: Vec<u64>,
    /// The places of these blocks by object.
    pub ranks: Vec<u32>,
}

impl FoundBlocks {
    // No block, with room for so many.
    fn with_capacity(alloc: Global, count: usize) -> Result<FoundBlocks, Memory>
        ensures by_leaf { IfOk result (λ found. found.by_leaf.items ≡ []) }
        ensures codes { IfOk result (λ found. found.codes.items ≡ []) }
        ensures ranks { IfOk result (λ found. found.ranks.items ≡ []) }
    {
        Ok(FoundBlocks {
            by_leaf: Vec::with_capacity(alloc, count)?,
            codes: Vec::with_capacity(alloc, count)?,
            ranks: Vec::with_capacity(alloc, count)?,
        })
    }

    // Adds the block at the next place in leaf order, with its place by object and its cell's Morton number.
    fn push(&mut self, rank: u32, block: Anchored, code: u64) -> Result<(), Memory>
        ensures by_leaf { OnOk result (self.new.by_leaf.items ≡ self.old.by_leaf.items ++ block ∷ []) }
        ensures codes { OnOk result (self.new.codes.items ≡ self.old.codes.items ++ code ∷ []) }
        ensures ranks { OnOk result (self.new.ranks.items ≡ self.old.ranks.items ++ rank ∷ []) }
    {
        self.by_leaf.push(block)?;
        self.codes.push(code)?;
        self.ranks.push(rank)?;
        Ok(())
    }
}

/// Finds the blocks of a period, by the list of the tree's cells, which is made level by level. This makes fewer
/// reads than a search for each object. Memory is taken for the lists, and while the call runs for those of the cells
/// and of the objects that are present.
pub fn find_blocks<L: Reads>(
    alloc: Global,
    snapshot: &Snapshot,
    steps: &mut Steps<L>,
) -> Result<FoundBlocks, Memory>
    requires may { IsTrue (L.may (ofPeriod snapshot.now.number)) }
    ensures found { IfOk result (AreFound snapshot.now) }
    ensures cost { steps.new ≤ steps.old + blocks_reads snapshot.now }
{
    let listing = snapshot.tree().listing(alloc, steps)?;
    let present = snapshot.present(alloc, steps)?;
    let mut found = FoundBlocks::with_capacity(alloc, present.len())?;
    let mut leaf = 0;
    for place in 0..present.len() as u32 {
        let (rank, block) = snapshot.block_among(&present, place, listing.cells[leaf], steps);
        found.push(rank, block, listing.codes[leaf])?;
        if snapshot.is_last(place, steps) {
            leaf += 1;
        }
    }
    Ok(found)
}

/// Finds the same blocks by bounds that begin at their anchors, by object, counted from the base of the grid. So it does
/// not go over the tree. Memory is taken for the lists, and while the call runs for that of the objects that are present.
pub fn find_bounded<L: Reads>(
    alloc: Global,
    snapshot: &Snapshot,
    bounds: &[PackedBounds],
    steps: &mut Steps<L>,
) -> Result<FoundBlocks, Memory>
    requires bounds { AreFromAnchors snapshot.now bounds.now }
    requires may { IsTrue (L.may (ofPeriod snapshot.now.number)) }
    ensures found { IfOk result (AreFound snapshot.now) }
    ensures cost { steps.new ≤ steps.old + blocks_reads snapshot.now }
{
    let Frame { height, base, .. } = *snapshot.frame();
    let present = snapshot.present(alloc, steps)?;
    let mut found = FoundBlocks::with_capacity(alloc, present.len())?;
    for place in 0..present.len() as u32 {
        let (rank, block) = snapshot.block_bounded(&present, bounds, place, steps);
        found.push(rank, block, morton(block.cell, height, base))?;
    }
    Ok(found)
}

/// Blocks in another order, in which their places are given.
pub fn reordered(
    alloc: Global,
    blocks: &[Anchored],
    places: &[u32],
) -> Result<Vec<Anchored>, Memory>
    requires places { PermutesPlaces places.now }
    requires long { length blocks.now ≡ length places.now }
    ensures { IfOk result (λ table.
        ArePut places.now blocks.now (length places.now) table.items) }
{
    let mut table = blocks.to_vec(alloc)?;
    for (k, place) in places.iter().enumerate() {
        table[*place as usize] = blocks[k];
    }
    Ok(table)
}
