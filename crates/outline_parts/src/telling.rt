ghost use Rattle.std.specs.Prelude.{◌≡◌, ℕ, ◌+◌, ◌<◌, ◌≤◌, ◌++◌, length, map, slice_index, sum, take, IfOk};
ghost use Rattle.std.specs.Option.{option_to_list};
ghost use Rattle.bit_rank.specs.Bits.{rank_of};
ghost use Rattle.object_perm.specs.Permutation.{PermutesPlaces};
ghost use Rattle.snapshots.specs.Sound.{IsSnapshot};
ghost use Rattle.snapshots.specs.SoundParts.{IsValid};
ghost use Rattle.snapshots.specs.View.{block_of};
ghost use Rattle.outline_parts.specs.Marks.{AreMarks};
ghost use Rattle.outline_parts.specs.Told.{AreByRank, period_view, placed_block, placed_blocks_of, told_placed};

use crate::descending::codes_of_bits;
use crate::opening::PlacedBlock;
use index_format::OutlineBlock;
use k2_tree::cell_at;
use log_bounds::GridCell;
use std::alloc::{AllocError, Global};
use track_types::{BitList, Cell, Frame, Parts, PeriodParts};

/// The blocks of parts by period, then object, with the places of their logs.
pub(crate) fn told_blocks(alloc: Global, parts: &Parts) -> Result<Vec<PlacedBlock>, AllocError>
    requires { IsValid parts.now }
    ensures { IfOk result (λ placed. placed.items ≡ told_placed parts.now) }
{
    let periods = parts.periods.as_slice();
    let mut placed = Vec::new(alloc);
    let mut start = 0;
    for number in 0..periods.len() {
        let at = PeriodPlace {
            frame: parts.frame,
            number: number as u32,
            start,
        };
        start = push_period(alloc, at, &periods[number], &mut placed)?;
    }
    Ok(placed)
}

/// Which period of an index is being gone through.
#[derive(Clone, Copy)]
pub(crate) struct PeriodPlace {
    /// The header of the index.
    pub(crate) frame: Frame,
    /// The period, from 0.
    pub(crate) number: u32,
    /// Where its logs begin among all symbols.
    pub(crate) start: u32,
}

// Pushes the blocks of a period, and answers where their logs end.
fn push_period(
    alloc: Global,
    at: PeriodPlace,
    period: &PeriodParts,
    placed: &mut Vec<PlacedBlock>,
) -> Result<u32, AllocError>
    requires { IsSnapshot (period_view at.frame at.number at.start period.now) }
    ensures ok { IfOk result (λ end. placed.new.items
        ≡ placed.old.items ++ placed_blocks_of (period_view at.frame at.number at.start period.now)) }
    ensures end { IfOk result (λ end. end ≡ at.start + sum period.now.lengths) }
{
    let codes = codes_by_rank(alloc, at, period)?;
    let mut next = Cursor {
        rank: 0,
        start: at.start,
    };
    for index in 0..period.present.len() {
        next = push_object(at, period, codes.as_slice(), index, next, placed)?;
    }
    Ok(next.start)
}

/// How far the present objects of a period were gone through.
#[derive(Clone, Copy)]
pub(crate) struct Cursor {
    /// How many have their blocks already.
    pub(crate) rank: u32,
    /// Where the log of the next one begins.
    pub(crate) start: u32,
}

// Pushes the block of an object, if it has one.
fn push_object(
    at: PeriodPlace,
    period: &PeriodParts,
    codes: &[u64],
    index: u32,
    next: Cursor,
    placed: &mut Vec<PlacedBlock>,
) -> Result<Cursor, AllocError>
    requires snapshot { IsSnapshot (period_view at.frame at.number at.start period.now) }
    requires codes { AreByRank (period_view at.frame at.number at.start period.now) codes.now }
    requires within { index < length period.now.present }
    requires rank { next.rank ≡ rank_of period.now.present index }
    requires start { next.start ≡ at.start + sum (take next.rank period.now.lengths) }
    ensures ok { IfOk result (λ _. placed.new.items ≡ placed.old.items
        ++ map (placed_block at.frame at.number) (option_to_list (block_of (period_view at.frame at.number at.start period.now) index))) }
    ensures rank { IfOk result (λ to. to.rank ≡ rank_of period.now.present (index + 1)) }
    ensures start { IfOk result (λ to. to.start ≡ at.start + sum (take to.rank period.now.lengths)) }
{
    if !period.present.get(index) {
        return Ok(next);
    }
    let rank = next.rank as usize;
    let length = period.lengths.as_slice()[rank];
    let cell = cell_at(codes[rank], at.frame.height, Cell { x: 0, y: 0 });
    placed.push(PlacedBlock {
        block: OutlineBlock {
            period: at.number,
            index,
            offset: period.offsets.as_slice()[rank],
            cell: GridCell::pack(cell),
            length,
        },
        start: next.start,
    })?;
    Ok(Cursor {
        rank: next.rank + 1,
        start: next.start + length,
    })
}

// The Morton numbers of the cells of a period's present objects, by object.
fn codes_by_rank(
    alloc: Global,
    at: PeriodPlace,
    period: &PeriodParts,
) -> Result<Vec<u64>, AllocError>
    requires { IsSnapshot (period_view at.frame at.number at.start period.now) }
    ensures { IfOk result (λ codes. AreByRank (period_view at.frame at.number at.start period.now) codes.items) }
{
    let leaves = codes_of_bits(alloc, &period.tree, at.frame.height, at.frame.wide_levels())?;
    let codes = by_rank(
        alloc,
        leaves.as_slice(),
        &period.lasts,
        period.perm.as_slice(),
    )?;
    Ok(codes)
}

// The number of each leaf, put where its objects stand by rank.
fn by_rank(
    alloc: Global,
    leaves: &[u64],
    lasts: &BitList,
    perm: &[u32],
) -> Result<Vec<u64>, AllocError>
    requires permutes { PermutesPlaces perm.now }
    requires same { length lasts.now ≡ length perm.now }
    requires marks { AreMarks lasts.now leaves.now }
    ensures long { IfOk result (λ codes. length codes.items ≡ length perm.now) }
    ensures each { IfOk result (λ codes. (place : ℕ) → place < length perm.now
        → slice_index codes.items (slice_index perm.now place) ≡ slice_index leaves.now (rank_of lasts.now place)) }
{
    let mut codes = vec![in alloc; 0; perm.len()]?;
    let mut leaf = 0;
    for place in 0..lasts.len() {
        codes[perm[place as usize] as usize] = leaves[leaf];
        leaf += lasts.get(place) as usize;
    }
    Ok(codes)
}
