ghost use Rattle.std.specs.Prelude.{◌≡◌, ◌^◌, ◌<◌, ◌≤◌, ◌==◌, IfOk, length, map};
ghost use Rattle.std.specs.List.{dedup, range_with_len};
ghost use Rattle.chart_parts.specs.LeafOrder.{ends_of, leaf_order};
ghost use Rattle.chart_parts.specs.PeriodWith.{ArePlaced, codes_of_heads, is_end, block_leaf};
ghost use Rattle.snapshots.specs.View.{widths_in};
ghost use Rattle.k2_tree.specs.TreeBits.{Rises, morton_bits};
ghost use Rattle.track_types.specs.declared.limit.TheConstants.{MAX_HEIGHT, MAX_OBJECTS};

use crate::digit_sort::{dealt, rises};
use crate::leaf::Leaf;
use k2_tree::{bits_of_codes, morton};
use movement_log::Head;
use std::alloc::{AllocError, Global};
use track_types::{BitList, Frame, Memory};

// So many leaves are sorted faster by their digits than by comparisons.
const MANY: usize = 512;

/// The leaves of a period's blocks, by Morton number, then by object.
pub(crate) fn leaves_of(
    alloc: Global,
    frame: Frame,
    heads: &[Head],
) -> Result<Vec<Leaf>, AllocError>
    requires { ArePlaced frame heads.now }
    ensures ok { IfOk result (λ leaves. leaves.items
        ≡ map (block_leaf frame heads.now) (leaf_order (codes_of_heads frame heads.now))) }
    ensures few { IfOk result (λ leaves. length leaves.items ≡ length heads.now) }
{
    if heads.len() >= MANY {
        let by_object = leaves_by_object(alloc, frame, heads)?;
        let leaves = dealt(alloc, by_object, frame.height)?;
        // It always does; this is how it is proved.
        if rises(leaves.as_slice()) {
            return Ok(leaves);
        }
    }
    let mut leaves = leaves_by_object(alloc, frame, heads)?;
    // By place too, so that the blocks of one cell stand in the order of their objects.
    leaves.sort_unstable_by_key(|leaf| leaf.number());
    Ok(leaves)
}

// The leaves of a period's blocks, by object.
fn leaves_by_object(alloc: Global, frame: Frame, heads: &[Head]) -> Result<Vec<Leaf>, AllocError>
    requires { ArePlaced frame heads.now }
    ensures { IfOk result (λ leaves. leaves.items
        ≡ map (block_leaf frame heads.now) (range_with_len 0 (length heads.now))) }
{
    let mut leaves = Vec::with_capacity(alloc, heads.len())?;
    for place in 0..heads.len() {
        let code = morton(heads[place].cell, frame.height, frame.base);
        leaves.push(Leaf::new(code, place as u32))?;
    }
    Ok(leaves)
}

/// For each leaf the place of its block.
pub(crate) fn places_of(alloc: Global, leaves: &[Leaf]) -> Result<Vec<u32>, AllocError>
    ensures { IfOk result (λ places. places.items ≡ map (λ leaf. leaf.place) leaves.now) }
{
    leaves.iter().map(|leaf| leaf.place()).collect(alloc)
}

/// A bit for each leaf: whether it is the last of its cell.
pub(crate) fn ends_of(alloc: Global, leaves: &[Leaf]) -> Result<BitList, AllocError>
    requires { length leaves.now < 2 ^ 32 }
    ensures { IfOk result (λ bits. bits ≡ ends_of (map (λ leaf. leaf.code) leaves.now)) }
{
    let mut bits = Vec::with_capacity(alloc, leaves.len())?;
    for place in 0..leaves.len() {
        bits.push(is_end(leaves, place))?;
    }
    BitList::pack(alloc, bits.as_slice())
}

// Whether the leaf at a place is the last of its cell: the next one has another number, or there is none.
fn is_end(leaves: &[Leaf], place: usize) -> bool
    requires { place < length leaves.now }
    ensures { result ≡ is_end (map (λ leaf. leaf.code) leaves.now) place }
{
    place + 1 == leaves.len() || leaves[place].code() != leaves[place + 1].code()
}

/// The bits of the tree of the leaves' cells, each once.
pub(crate) fn tree_of(alloc: Global, frame: Frame, leaves: Vec<Leaf>) -> Result<BitList, Memory>
    requires low { frame.height ≤ MAX_HEIGHT }
    requires few { length leaves.items ≤ MAX_OBJECTS }
    requires ascending { Rises 0 (dedup (λ a b. a == b) (map (λ leaf. leaf.code) leaves.items)) }
    ensures ok { IfOk result (λ bits. bits
        ≡ morton_bits (widths_in frame) (dedup (λ a b. a == b) (map (λ leaf. leaf.code) leaves.items))) }
{
    let mut leaves = leaves;
    leaves.dedup_by_key(|leaf| leaf.code());
    let codes = codes_of(alloc, leaves.as_slice())?;
    let wide = frame.wide_levels();
    bits_of_codes(alloc, codes.as_slice(), frame.height, wide)
}

// The Morton number of each leaf.
fn codes_of(alloc: Global, leaves: &[Leaf]) -> Result<Vec<u64>, AllocError>
    ensures { IfOk result (λ codes. codes.items ≡ map (λ leaf. leaf.code) leaves.now) }
{
    leaves.iter().map(|leaf| leaf.code()).collect(alloc)
}
