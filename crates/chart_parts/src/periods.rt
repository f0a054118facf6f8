ghost use Rattle.std.specs.Prelude.{◌≡◌, ◌<◌, ◌≤◌, All, IfOk, length, map};
ghost use Rattle.std.specs.List.{zip};
ghost use Rattle.track_types.specs.Frame.{IsFrame};
ghost use Rattle.chart_parts.specs.PeriodWith.{AreBlocksByPeriod, ArePlaced, period_of_blocks, period_with, period_run_length, without_blocks};
ghost use Rattle.snapshots.specs.Parts.{numbers_in};

use crate::leaves::{ends_of, leaves_of, places_of, tree_of};
use crate::presence::presence_of;
use movement_log::Head;
use std::alloc::{AllocError, Global};
use track_types::{BitList, Frame, List32, Memory, PeriodParts};

/// The parts of each period, from the headers of all blocks and the lengths of their logs.
///
/// The headers come by period, at most 2^16 of each, with one length each. Each is of one of so many
/// objects, and its cell is in the grid. The lists of a period's parts keep the order of its headers,
/// so these come by object. Headers of periods after the frame's last one are left out. It takes time
/// for the blocks, the periods' presence bits and one sort of each period's anchors.
pub fn periods_of(
    alloc: Global,
    frame: Frame,
    objects: u32,
    heads: &[Head],
    lengths: &[u32],
) -> Result<Vec<PeriodParts>, Memory>
    requires frame { IsFrame frame }
    requires same { length lengths.now ≡ length heads.now }
    requires blocks { AreBlocksByPeriod frame objects (zip heads.now lengths.now) }
    ensures { IfOk result (λ periods. periods.items
        ≡ map (period_of_blocks frame objects (zip heads.now lengths.now)) (numbers_in frame)) }
{
    let count = frame.timeline().periods();
    let mut periods = Vec::with_capacity(alloc, count as usize)?;
    let mut start = 0;
    for number in 0..count {
        let end = start + run_of(&heads[start..], number);
        periods.push(period_with(
            alloc,
            frame,
            objects,
            &heads[start..end],
            &lengths[start..end],
        )?)?;
        start = end;
    }
    Ok(periods)
}

// How many headers of a period there are before one of another.
fn run_of(heads: &[Head], number: u32) -> usize
    ensures exact { result ≡ period_run_length number heads.now }
    ensures within { result ≤ length heads.now }
{
    let mut run = 0;
    while run < heads.len() && heads[run].period == number {
        run += 1;
    }
    run
}

/// The parts of a period whose blocks have these headers and logs of these lengths.
///
/// The headers come by object, and the cell of each is in the grid. It takes time for the blocks, the presence bits and a sort
/// of the anchors.
pub fn period_with(
    alloc: Global,
    frame: Frame,
    objects: u32,
    heads: &[Head],
    lengths: &[u32],
) -> Result<PeriodParts, Memory>
    requires placed { ArePlaced frame heads.now }
    requires objects { All (λ head. head.index < objects) heads.now }
    requires same { length lengths.now ≡ length heads.now }
    ensures { IfOk result (λ period. period ≡ period_with frame objects heads.now lengths.now) }
{
    let present = presence_of(alloc, objects, heads)?;
    if heads.is_empty() {
        return without_blocks(alloc, present);
    }
    let leaves = leaves_of(alloc, frame, heads)?;
    Ok(PeriodParts {
        present,
        offsets: List32::new(offsets_of(alloc, heads)?),
        lasts: ends_of(alloc, leaves.as_slice())?,
        perm: List32::new(places_of(alloc, leaves.as_slice())?),
        lengths: List32::new(lengths.to_vec(alloc)?),
        tree: tree_of(alloc, frame, leaves)?,
    })
}

// The parts of a period without a block. They take no memory beside the presence bits.
fn without_blocks(alloc: Global, present: BitList) -> Result<PeriodParts, Memory>
    ensures { IfOk result (λ period. period ≡ without_blocks present) }
{
    Ok(PeriodParts {
        present,
        offsets: List32::new(Vec::new(alloc)),
        tree: BitList::pack(alloc, &[])?,
        lasts: BitList::pack(alloc, &[])?,
        perm: List32::new(Vec::new(alloc)),
        lengths: List32::new(Vec::new(alloc)),
    })
}

// How many instants of the period come before each anchor.
fn offsets_of(alloc: Global, heads: &[Head]) -> Result<Vec<u32>, AllocError>
    ensures { IfOk result (λ offsets. offsets.items ≡ map (λ head. head.offset) heads.now) }
{
    heads.iter().map(|head| head.offset).collect(alloc)
}
