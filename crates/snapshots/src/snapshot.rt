ghost use Rattle.std.specs.Prelude.{◌≡◌, ◌+◌, ◌*◌, ◌<◌, ◌≤◌, length, sum, Some, slice_get};
ghost use Rattle.std.specs.Prelude.{All, Bool, None, map, IfErr, IfOk, IfSome, IsTrue, OnOk};
ghost use Rattle.step_count.specs.Reads.{is_of_period, ofPeriod, ReadsWithin};
ghost use Rattle.snapshots.specs.View.{all_blocks, block_by, block_of, blocks_in, objects_at, tree_in, view_with};
ghost use Rattle.snapshots.specs.Flaws.{flaw_of, IsSnapFaultFor, IsShapedView};
ghost use Rattle.snapshots.specs.Sound.{IsBlock, IsSnapshot, IsSoundPeriod};
ghost use Rattle.snapshots.specs.Stored.{AreStoredBlocks};
ghost use Rattle.snapshots.specs.Objects.{blocks_of, objects_budget, objects_left, objects_needs, objects_of_leaves};
ghost use Rattle.snapshots.specs.Objects.{passing_blocks, wanted_blocks, WeighSame};
ghost use Rattle.std.specs.List.Sorted.{IsStrictlyIncreasing};
ghost use Rattle.k2_tree.specs.Pruning.{kept_leaves, square_count, IsKeptFor};
ghost use Rattle.track_types.specs.declared.cell.Cell.{Cell};
ghost use Rattle.bit_rank.specs.Cost.{get_reads, select_reads};
ghost use Rattle.snapshots.specs.Ones.{first_ones};
ghost use Rattle.snapshots.specs.Cost.{block_reads, find_reads, first_reads, square_reads};

use crate::anchored::Anchored;
use crate::blocks::{Blocks, without_blocks};
use crate::checking::{check_perm, check_tree, find_late, flaw, has_cells, instants_in, total};
use crate::fault::SnapFault;
use crate::members::Members;
use crate::objects_in::ObjectsIn;
use crate::ones::places_of_ones;
use crate::period_store::PeriodStore;
use crate::shared_header::SharedHeader;
use k2_tree::{K2Tree, Keep};
use object_perm::Perm;
use std::alloc::Global;
use std::marker::Model;
use std::rc::Rc;
use step_count::{Reads, Steps};
use track_types::{Cell, Frame, Kind, Memory, PeriodParts, Section};

/// A period of an index: which objects have a block in it, and where each of them stands first.
///
/// Contracts see the parts that it was checked from, with the header, the period's number, the
/// number of objects, and where its logs begin among all symbols.
#[derive(Drop)]
pub struct Snapshot {
    store: PeriodStore,
    // Contracts alone speak of the next two: they take no bytes.
    number: std::snapshot::Snapshot<u32>,
    start: std::snapshot::Snapshot<u32>,
}

impl Model for Snapshot {
    ghost use Rattle.snapshots.specs.View.{SnapshotView};
    ghost use Rattle.snapshots.specs.Stored.{blocks_stored, frame_stored, objects_stored};
    ghost use Rattle.snapshots.specs.Stored.{starts_in, tree_stored, snapshot_view, IsStoredSnapshot};

    ghost Value = { SnapshotView };

    ghost view = { λ s. snapshot_view (frame_stored s.store) s.number.value (objects_stored s.store)
        s.start.value (blocks_stored s.store) };

    ghost invariant = { λ s. IsStoredSnapshot
        (snapshot_view (frame_stored s.store) s.number.value (objects_stored s.store)
        s.start.value (blocks_stored s.store))
        (tree_stored (frame_stored s.store) (blocks_stored s.store))
        (starts_in (blocks_stored s.store)) };
}

impl Snapshot {
    /// Takes the parts of a period as its snapshot, in time linear in their lengths.
    ///
    /// It judges in this order:
    /// - each offset is below the number of the period's instants;
    /// - the tree bits are those of a set of cells;
    /// - as many objects are the last of their cell as there are cells, and the last object of all is one of them;
    /// - `perm` is a permutation;
    /// - the objects of each cell ascend.
    ///
    /// `Flaw` is the first flaw in this order, and of one kind the one at the first place. That of the cells stands at
    /// the end of `lasts`.
    ///
    /// The header is in its ranges, and the number is that of one of its periods. There are 1 to
    /// `MAX_OBJECTS` objects and at most `MAX_TREE` tree bits. `present` has a bit for each object,
    /// and the other lists have a member for each of its ones. `start` and all lengths add up to at
    /// most `MAX_SYMBOLS`. Memory is taken for the directories of the three lists of bits, the
    /// shortcuts of the permutation, where each log begins, the header, and marks while the call
    /// runs.
    pub fn check(
        alloc: Global,
        frame: &Frame,
        number: u32,
        objects: u32,
        start: u32,
        parts: PeriodParts,
    ) -> Result<Snapshot, SnapFault>
        requires { IsShapedView (view_with frame.now number objects start parts) }
        ensures ok { IfOk result (λ snapshot.
            snapshot ≡ view_with frame.now number objects start parts) }
        ensures exact { OnOk result
            (flaw_of (view_with frame.now number objects start parts) ≡ None) }
        ensures sound { OnOk result
            (IsSoundPeriod (view_with frame.now number objects start parts)) }
        ensures flaw { IfErr result (λ fault.
            IsSnapFaultFor (flaw_of (view_with frame.now number objects start parts)) fault) }
    {
        let header = SharedHeader::new(alloc, frame)?;
        Snapshot::check_under(alloc, &header, number, objects, start, parts)
    }

    /// The same for a header that is kept already, as that of an index is for all its periods.
    pub fn check_under(
        alloc: Global,
        header: &Rc<SharedHeader>,
        number: u32,
        objects: u32,
        start: u32,
        parts: PeriodParts,
    ) -> Result<Snapshot, SnapFault>
        requires { IsShapedView (view_with header.now.value number objects start parts) }
        ensures ok { IfOk result (λ snapshot.
            snapshot ≡ view_with header.now.value number objects start parts) }
        ensures exact { OnOk result
            (flaw_of (view_with header.now.value number objects start parts) ≡ None) }
        ensures sound { OnOk result
            (IsSoundPeriod (view_with header.now.value number objects start parts)) }
        ensures flaw { IfErr result (λ fault.
            IsSnapFaultFor (flaw_of (view_with header.now.value number objects start parts)) fault) }
    {
        let frame = header.frame();
        let PeriodParts {
            present,
            offsets,
            tree,
            lasts,
            perm,
            lengths,
        } = parts;
        if let Some(place) = find_late(offsets.as_slice(), instants_in(frame, number)) {
            return Err(flaw(number, Section::Offsets, Kind::Offset, place));
        }
        let tree = check_tree(alloc, tree, frame, number)?;
        if !has_cells(&lasts, tree.leaves()) {
            return Err(flaw(number, Section::Lasts, Kind::Cells, lasts.len()));
        }
        let perm = check_perm(alloc, perm, &lasts, number)?;
        let header = header.clone()?;
        let store = Blocks::store(
            alloc, header, tree, present, offsets, lasts, perm, lengths, start,
        )?;
        Ok(Snapshot {
            store,
            number: std::snapshot::Snapshot::of(&number),
            start: std::snapshot::Snapshot::of(&start),
        })
    }

    /// The same for parts that are known to have no flaw, which are not judged again. `Memory` is its only refusal.
    ///
    /// Memory is taken as by `check_under`, but for the marks of the permutation's values.
    pub fn of_flawless(
        alloc: Global,
        header: &Rc<SharedHeader>,
        number: u32,
        objects: u32,
        start: u32,
        parts: PeriodParts,
    ) -> Result<Snapshot, Memory>
        requires shaped { IsShapedView (view_with header.now.value number objects start parts) }
        requires flawless { flaw_of (view_with header.now.value number objects start parts) ≡ None }
        ensures ok { IfOk result (λ snapshot.
            snapshot ≡ view_with header.now.value number objects start parts) }
        ensures sound { OnOk result
            (IsSoundPeriod (view_with header.now.value number objects start parts)) }
    {
        let PeriodParts {
            present,
            offsets,
            tree,
            lasts,
            perm,
            lengths,
        } = parts;
        let frame = header.frame();
        let tree = K2Tree::of_bits(alloc, tree, frame.height, frame.wide_levels(), frame.base)?;
        let perm = Perm::of_permutation(alloc, perm)?;
        let header = header.clone()?;
        let store = Blocks::store(
            alloc, header, tree, present, offsets, lasts, perm, lengths, start,
        )?;
        Ok(Snapshot {
            store,
            number: std::snapshot::Snapshot::of(&number),
            start: std::snapshot::Snapshot::of(&start),
        })
    }

    /// The block of an object, and `None` if and only if the object has none in this period. The
    /// object is given by its place among all objects, which is below their number.
    ///
    /// It goes from the object to its place among the present ones, and by the inverse permutation to its place in leaf
    /// order. Then it climbs the tree from its leaf to the cell. It makes at most `find_reads` of the tree's height. It
    /// takes no memory.
    pub fn find<L: Reads>(&self, index: u32, steps: &mut Steps<L>) -> Option<Anchored>
        requires within { index < self.now.objects }
        requires may { IsTrue (L.may (ofPeriod self.now.number)) }
        ensures value { result ≡ block_of self.now index }
        ensures block { IfSome result (IsBlock self.now) }
        ensures cost { steps.new ≤ steps.old + find_reads self.now.frame.height }
    {
        let (place, rank) = self.places_of(index, steps)?;
        let leaf = self.blocks().lasts.rank1(place, steps);
        let cell = self.tree().leaf_cell(leaf, steps);
        Some(self.block(index, rank, cell))
    }

    /// The header.
    pub(crate) fn frame(&self) -> &Frame
        ensures value { result.now ≡ self.now.frame }
        ensures snapshot { IsSnapshot self.now }
    {
        match &self.store {
            PeriodStore::Empty { header, .. } => header.frame(),
            PeriodStore::Filled { blocks, .. } => blocks.header.frame(),
        }
    }

    /// How many objects there are.
    pub(crate) fn objects(&self) -> u32
        ensures value { result ≡ self.now.objects }
        ensures snapshot { IsSnapshot self.now }
    {
        match &self.store {
            PeriodStore::Empty { objects, .. } => *objects,
            PeriodStore::Filled { objects, .. } => *objects,
        }
    }

    /// The tree of the cells in which the anchors are. It reads nothing that is counted.
    pub fn tree(&self) -> &K2Tree
        ensures value { result.now ≡ tree_in self.now }
        ensures snapshot { IsSnapshot self.now }
    {
        match &self.store {
            PeriodStore::Empty { header, .. } => header.no_cells(),
            PeriodStore::Filled { blocks, .. } => &blocks.tree,
        }
    }

    /// The blocks whose anchors are in the cell of a leaf, by object. The leaf is one of the
    /// tree's, and the cell is its own. It takes no memory, and its draws make at most `first_reads`, and
    /// `block_reads` for each block.
    pub fn members(&self, leaf: u32, cell: Cell) -> Members<'_>
        requires { slice_get (tree_in self.now).cells leaf ≡ Some cell }
        ensures left { result.blocks ≡ blocks_in self.now leaf }
        ensures objects { result.blocks ≡ objects_at self.now leaf }
        ensures order { IsStrictlyIncreasing (map (λ block. block.index) result.blocks) }
        ensures cell { All (λ block. block.cell ≡ cell) result.blocks }
        ensures blocks { All (IsBlock self.now) result.blocks }
        ensures period { result.period ≡ self.now.number }
        ensures budget { result.reads
            ≡ first_reads + block_reads * length (blocks_in self.now leaf) }
    {
        let _ = self.tree(); // says what holds of every snapshot
        Members::new(self, leaf, cell)
    }

    /// The blocks whose anchors lie in squares on which `keep` is true, from the whole grid to the
    /// anchor's cell: by leaf, then by object. It takes no memory, and its draws make at most
    /// `square_reads` for each square with an anchor on which `keep` is true, and `block_reads` for
    /// each block.
    pub fn objects_in<F: Keep>(&self, keep: F) -> ObjectsIn<'_, F>
        ensures left { objects_left F.keeps result
            ≡ blocks_of self.now (kept_leaves (F.keeps keep) (tree_in self.now)) }
        ensures objects { objects_left F.keeps result
            ≡ objects_of_leaves self.now (kept_leaves (F.keeps keep) (tree_in self.now)) }
        ensures blocks { All (IsBlock self.now) (objects_left F.keeps result) }
        ensures weights { WeighSame
            (objects_left F.keeps result) (passing_blocks (F.keeps keep) self.now) }
        ensures wanted { (wanted : Cell → Bool) → IsKeptFor (F.keeps keep) wanted
            → WeighSame (wanted_blocks wanted (objects_left F.keeps result))
            (wanted_blocks wanted (all_blocks self.now)) }
        ensures needs { ReadsWithin (objects_needs result) (is_of_period self.now.number) }
        ensures budget { objects_budget F.keeps result
            ≤ square_reads * square_count (F.keeps keep) (tree_in self.now)
            + block_reads * length (objects_left F.keeps result) }
    {
        ObjectsIn::new(self, self.tree().pruned(keep))
    }

    /// Gives back the parts that the snapshot was checked from, and the snapshot is gone. Memory is
    /// taken where the period has no block, for its presence bits, which are not kept there.
    pub fn into_parts(self, alloc: Global) -> Result<PeriodParts, Memory>
        ensures { IfOk result (λ parts. parts ≡ self.parts) }
    {
        let Snapshot { store, .. } = self;
        match store {
            PeriodStore::Empty { objects, .. } => without_blocks(alloc, objects),
            PeriodStore::Filled { blocks, .. } => Ok(Box::into_inner(blocks).into_parts()),
        }
    }

    // Where the logs of the period begin, if it has a block, and how many symbols they have together.
    pub(crate) fn logs(&self) -> (u32, u32)
        ensures from { 0 < length self.now.parts.perm → result.0 ≡ self.now.start }
        ensures len { result.1 ≡ sum self.now.parts.lengths }
        ensures none { length self.now.parts.perm ≡ 0 → result.0 ≡ 0 }
        ensures snapshot { IsSnapshot self.now }
    {
        match &self.store {
            PeriodStore::Empty { .. } => (0, 0),
            PeriodStore::Filled { blocks, .. } => {
                let len = total(blocks.lengths.as_slice());
                match blocks.starts.as_slice().first() {
                    Some(from) => (*from, len),
                    None => (0, len),
                }
            }
        }
    }

    // The places of the present objects among all, ascending.
    pub(crate) fn present<L: Reads>(
        &self,
        alloc: Global,
        steps: &mut Steps<L>,
    ) -> Result<Vec<u32>, Memory>
        requires may { IsTrue (L.may (ofPeriod self.now.number)) }
        ensures ok { IfOk result (λ places. places.items
            ≡ first_ones self.now.parts.present (length self.now.parts.perm)) }
        ensures snapshot { IsSnapshot self.now }
        ensures cost { steps.new ≤ steps.old + select_reads * length self.now.parts.perm }
    {
        match &self.store {
            PeriodStore::Empty { .. } => Ok(Vec::new(alloc)),
            PeriodStore::Filled { blocks, .. } => places_of_ones(alloc, &blocks.present, steps),
        }
    }

    // The block of the object at a place among the present ones, whose anchor is in this cell.
    pub(crate) fn block(&self, index: u32, rank: u32, cell: Cell) -> Anchored
        requires { rank < length self.now.parts.perm }
        ensures { result ≡ block_by self.now index rank cell }
    {
        let blocks = self.blocks();
        let rank = rank as usize;
        Anchored {
            index,
            offset: blocks.offsets.as_slice()[rank],
            cell,
            from: blocks.starts.as_slice()[rank],
            len: blocks.lengths.as_slice()[rank],
        }
    }

    // Whether an object has a block.
    pub(crate) fn is_present<L: Reads>(&self, index: u32, steps: &mut Steps<L>) -> bool
        requires within { index < self.now.objects }
        requires may { IsTrue (L.may (ofPeriod self.now.number)) }
        ensures value { slice_get self.now.parts.present index ≡ Some result }
        ensures snapshot { IsSnapshot self.now }
        ensures cost { steps.new ≤ steps.old + get_reads }
    {
        match &self.store {
            PeriodStore::Empty { .. } => false,
            PeriodStore::Filled { blocks, .. } => blocks.present.get(index, steps),
        }
    }

    // What is stored of the blocks of a period that has one.
    pub(crate) fn blocks(&self) -> &Blocks
        requires { 0 < length self.now.parts.perm }
        ensures blocks { AreStoredBlocks self.now result.now }
        ensures snapshot { IsSnapshot self.now }
    {
        match &self.store {
            PeriodStore::Empty { .. } => unreachable!(),
            PeriodStore::Filled { blocks, .. } => blocks,
        }
    }
}
