ghost use Rattle.std.specs.Prelude.{◌≡◌, ◌+◌, ◌≤◌, length, sum, IfOk, IfSome};
ghost use Rattle.packed_bits.specs.Bits.{ones_of};
ghost use Rattle.track_types.specs.declared.limit.TheConstants.{MAX_SYMBOLS};
ghost use Rattle.k2_tree.specs.Tree.{tree_bits};
ghost use Rattle.std.specs.Prelude.{None};
ghost use Rattle.snapshots.specs.Stored.{blocks_stored, frame_stored, objects_stored};
ghost use Rattle.snapshots.specs.Stored.{parts_of_blocks, parts_with, starts_in, starts_of};

use crate::checking::{indexed, starts_of};
use crate::period_store::PeriodStore;
use crate::shared_header::SharedHeader;
use bit_rank::Bits;
use k2_tree::K2Tree;
use object_perm::Perm;
use std::alloc::Global;
use std::rc::Rc;
use track_types::{BitList, List32, Memory, PeriodParts};

/// What is stored of a period that has a block: its parts, where each log begins, and the header.
#[derive(Drop)]
pub struct Blocks {
    /// The header of the index.
    pub header: Rc<SharedHeader>,
    /// The tree of the anchors' cells.
    pub tree: K2Tree,
    /// For each object whether it has a block.
    pub present: Bits,
    /// By object: how many instants each anchor is after the period's first.
    pub offsets: List32,
    /// In leaf order: whether the object is the last of its cell.
    pub lasts: Bits,
    /// In leaf order: the object's place among the present ones.
    pub perm: Perm,
    /// By object: how many symbols each log has.
    pub lengths: List32,
    /// By object: where each log begins.
    pub starts: List32,
}

impl Blocks {
    /// Stores a period of these parts, whose logs begin at `start`, and nothing of blocks where no
    /// object is present. As many objects are the last of their cell as the tree has cells. The start
    /// and all lengths add up to at most `MAX_SYMBOLS`.
    pub fn store(
        alloc: Global,
        header: Rc<SharedHeader>,
        tree: K2Tree,
        present: BitList,
        offsets: List32,
        lasts: BitList,
        perm: Perm,
        lengths: List32,
        start: u32,
    ) -> Result<PeriodStore, Memory>
        requires offsets { length offsets ≡ ones_of present }
        requires lasts { length lasts ≡ ones_of present }
        requires cells { ones_of lasts ≡ length tree.cells }
        requires perm { length perm ≡ ones_of present }
        requires lengths { length lengths ≡ ones_of present }
        requires total { start + sum lengths ≤ MAX_SYMBOLS }
        ensures header { IfOk result (λ store. frame_stored store ≡ header.value) }
        ensures objects { IfOk result (λ store. objects_stored store ≡ length present) }
        ensures parts { IfOk result (λ store. parts_with (length present) (blocks_stored store) ≡ record {
          present = present;
          offsets = offsets;
          tree = tree_bits tree;
          lasts = lasts;
          perm = perm;
          lengths = lengths;
        }) }
        ensures tree { IfOk result (λ store.
            IfSome (blocks_stored store) (λ blocks. blocks.value.tree ≡ tree)) }
        ensures starts { IfOk result (λ store.
            starts_in (blocks_stored store) ≡ starts_of start lengths) }
    {
        let objects = present.len();
        if offsets.as_slice().is_empty() {
            return Ok(PeriodStore::Empty { objects, header });
        }
        let starts = starts_of(alloc, start, lengths.as_slice())?;
        let blocks = Blocks {
            header,
            tree,
            present: indexed(alloc, present)?,
            offsets,
            lasts: indexed(alloc, lasts)?,
            perm,
            lengths,
            starts,
        };
        Ok(PeriodStore::Filled {
            objects,
            blocks: Box::new(alloc, blocks)?,
        })
    }

    /// The parts that are stored. They are given up, and no memory is taken.
    pub fn into_parts(self) -> PeriodParts
        ensures { result ≡ parts_of_blocks self }
    {
        let Blocks {
            tree,
            present,
            offsets,
            lasts,
            perm,
            lengths,
            ..
        } = self;
        PeriodParts {
            present: present.into_list(),
            offsets,
            tree: tree.bits(),
            lasts: lasts.into_list(),
            perm: perm.into_list(),
            lengths,
        }
    }
}

/// The parts of a period in which none of so many objects has a block. Memory is taken for their
/// presence bits.
pub fn without_blocks(alloc: Global, objects: u32) -> Result<PeriodParts, Memory>
    ensures { IfOk result (λ parts. parts ≡ parts_with objects None) }
{
    let absent = vec![in alloc; false; objects as usize]?;
    Ok(PeriodParts {
        present: BitList::pack(alloc, absent.as_slice())?,
        offsets: List32::new(Vec::new(alloc)),
        tree: BitList::pack(alloc, &[])?,
        lasts: BitList::pack(alloc, &[])?,
        perm: List32::new(Vec::new(alloc)),
        lengths: List32::new(Vec::new(alloc)),
    })
}
