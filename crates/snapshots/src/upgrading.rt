ghost use Rattle.std.specs.Prelude.{◌≡◌, ◌+◌, ◌≤◌, IfOk};
ghost use Rattle.k2_tree.specs.Tree.{tree_bits};
ghost use Rattle.snapshots.specs.Upgrade.{newest, newest_tree, tree_reads, upgraded_parts};

use crate::snapshot::Snapshot;
use k2_tree::bits_of_codes;
use std::alloc::Global;
use step_count::{Reads, Steps};
use track_types::{BitList, Frame, MAX_VERSION, Memory, PeriodParts};

/// The header in the newest version of the format.
pub fn newest(frame: &Frame) -> Frame
    ensures { result ≡ newest frame.now }
{
    Frame {
        version: MAX_VERSION,
        ..*frame
    }
}

/// The parts of a period, which is given up, in the newest version of the format: its tree is made
/// anew from the listing of its cells. Memory is taken for this, for the tree, and for the presence
/// bits of a period without a block.
pub fn upgraded<L: Reads>(
    alloc: Global,
    snapshot: Snapshot,
    steps: &mut Steps<L>,
) -> Result<PeriodParts, Memory>
    ensures ok { IfOk result (λ parts. parts ≡ upgraded_parts snapshot) }
    ensures cost { steps.new ≤ steps.old + tree_reads snapshot }
{
    let bits = newest_tree(alloc, &snapshot, steps)?;
    let PeriodParts {
        present,
        offsets,
        lasts,
        perm,
        lengths,
        ..
    } = snapshot.into_parts(alloc)?;
    Ok(PeriodParts {
        present,
        offsets,
        tree: bits,
        lasts,
        perm,
        lengths,
    })
}

// The bits of the tree of the same cells in the newest version.
fn newest_tree<L: Reads>(
    alloc: Global,
    snapshot: &Snapshot,
    steps: &mut Steps<L>,
) -> Result<BitList, Memory>
    ensures ok { IfOk result (λ bits.
        bits ≡ tree_bits (newest_tree snapshot.now.frame snapshot.now.parts.tree)) }
    ensures cost { steps.new ≤ steps.old + tree_reads snapshot.now }
{
    let frame = newest(snapshot.frame());
    let listing = snapshot.tree().listing(alloc, steps)?;
    bits_of_codes(
        alloc,
        listing.codes.as_slice(),
        frame.height,
        frame.wide_levels(),
    )
}
