ghost use Rattle.std.specs.Prelude.{◌≡◌, false, length, map, IfOk};
ghost use Rattle.track_types.specs.Spelling.{holds_parts, spelling_of};
ghost use Rattle.snapshots.specs.SoundParts.{IsValid};
ghost use Rattle.index_format.specs.IsOutline.{AreInOrder, IsOutline};
ghost use Rattle.outline_parts.specs.OutlineOf.{outline_of};
ghost use Rattle.outline_parts.specs.Placed.{placed_by_object};
ghost use Rattle.outline_parts.specs.Told.{told_placed};

use crate::opening::{PlacedBlock, symbols_of};
use crate::telling::told_blocks;
use index_format::{BlockList, Outline, OutlineBlock};
use std::alloc::{AllocError, Global};
use track_types::{List32, Memory, Parts};

/// The outline of parts: their blocks by object, then period, and their logs in this order.
///
/// The parts are those of an index whose file holds an outline, and their rules are in order. So the
/// outline is that of an index.
/// It takes memory for the outline, for a list of the blocks, and for the cells of a period.
pub fn outline_of(alloc: Global, parts: Parts) -> Result<Outline, Memory>
    requires valid { IsValid parts }
    requires spelling { holds_parts (spelling_of parts.frame.version) ≡ false }
    requires order { AreInOrder (length parts.alphabet) parts.rules }
    ensures ok { IfOk result (λ outline. outline ≡ outline_of parts) }
    ensures outline { IfOk result (λ outline. IsOutline outline) }
{
    let placed = blocks_by_object(alloc, &parts)?;
    let Parts {
        frame,
        objects,
        alphabet,
        rules,
        periods,
        symbols,
    } = parts;
    drop(periods);
    let sorted = symbols_of(alloc, placed.as_slice(), symbols.as_slice())?;
    let blocks = blocks_of(alloc, placed.as_slice())?;
    Ok(Outline {
        frame,
        objects,
        alphabet,
        rules,
        blocks: BlockList::new(blocks),
        symbols: List32::new(sorted),
    })
}

// The blocks of parts by object, then period, with the places of their logs.
fn blocks_by_object(alloc: Global, parts: &Parts) -> Result<Vec<PlacedBlock>, AllocError>
    requires { IsValid parts.now }
    ensures { IfOk result (λ placed. placed.items
        ≡ placed_by_object (length parts.now.objects) (told_placed parts.now)) }
{
    let mut placed = told_blocks(alloc, parts)?;
    // A stable sort: the blocks of an object stay in the order of their periods.
    placed.sort_by_key(|one| one.block.index)?;
    Ok(placed)
}

// The blocks alone.
fn blocks_of(alloc: Global, placed: &[PlacedBlock]) -> Result<Vec<OutlineBlock>, AllocError>
    ensures { IfOk result (λ blocks. blocks.items ≡ map (λ one. one.block) placed.now) }
{
    let mut blocks = Vec::with_capacity(alloc, placed.len())?;
    for one in placed {
        blocks.push(one.block)?;
    }
    Ok(blocks)
}
