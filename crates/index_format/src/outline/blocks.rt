ghost use Rattle.std.specs.Prelude.{◌≡◌, ◌^◌, ◌<◌, ◌≤◌, map, IfOk, IfSome, OnOk};
ghost use Rattle.rule_store.specs.Table.{symbols_of};
ghost use Rattle.rule_store.specs.View.{RulesView};
ghost use Rattle.track_types.specs.declared.limit.TheConstants.{MAX_HEIGHT, MAX_PERIOD, MAX_SPAN};
ghost use Rattle.index_format.specs.Answers.{GivesElement};
ghost use Rattle.index_format.specs.OutlineBlocks.{block_in, further_in, object_blocks_in, blocks_in};
ghost use Rattle.rule_store.specs.Table.{IsWholeTable};
ghost use Rattle.index_format.specs.BlockSteps.{GivesBlocks, IsKept, next_anchor_in, nothing_told, told_of};
ghost use Rattle.index_format.specs.IsOutline.{blocks_with_logs};
ghost use Rattle.index_format.specs.OutlineBounds.{block_bounds};
ghost use Rattle.index_format.specs.LogReading.{StaysBounded};

use crate::outline::anchors::anchor_in;
use crate::outline::entries::{LogRest, log_in};
use crate::outline::ground::Ground;
use crate::outline::told::told;
use crate::outline::{BlockList, OutlineBlock};
use crate::place::Place;
use bit_stream::BitReader;
use log_bounds::{GridCell, PackedBounds};
use rule_store::EntryTable;
use std::alloc::Global;
use track_types::{Cell, FormatFault, Frame, Kind, List32, Section};

/// What was read so far: the blocks, the bounds of their logs, the symbols of these, the first instant of an object that is not
/// yet told, and its last cell.
#[derive(Drop)]
struct Progress {
    blocks: Vec<OutlineBlock>,
    bounds: Vec<PackedBounds>,
    symbols: Vec<u32>,
    next: u32,
    last: Option<Cell>,
}

/// The blocks of all objects, with the symbols and the bounds of their logs.
#[derive(Drop)]
pub struct ReadBlocks {
    pub blocks: BlockList,
    pub symbols: List32,
    pub bounds: Vec<PackedBounds>,
}

/// The blocks of so many objects, with the symbols and the bounds of their logs, over the `symbols` symbols of a table. Memory is
/// taken as they are read.
pub fn blocks_in(
    alloc: Global,
    frame: &Frame,
    table: &EntryTable,
    symbols: u32,
    objects: u32,
    reader: &mut BitReader<'_>,
) -> Result<ReadBlocks, FormatFault>
    requires some { 0 < frame.now.period }
    requires period_fits { frame.now.period ≤ MAX_PERIOD }
    requires height_fits { frame.now.height ≤ MAX_HEIGHT }
    requires span_fits { frame.now.span ≤ MAX_SPAN }
    requires all { symbols ≡ symbols_of table.now }
    requires few { symbols ≤ 2 ^ 26 }
    ensures exact { (view : RulesView) → IsWholeTable view table.now → GivesBlocks result reader.new
        (blocks_in objects frame.now view 0 nothing_told reader.old) }
    ensures bounds { IfOk result (λ read. (view : RulesView) → IsWholeTable view table.now
        → read.bounds.items ≡ map (block_bounds view) (blocks_with_logs read.blocks read.symbols)) }
{
    let ground = Ground::of(frame, table, symbols);
    let mut progress = Progress {
        blocks: Vec::new(alloc),
        bounds: Vec::new(alloc),
        symbols: Vec::new(alloc),
        next: 0,
        last: None,
    };
    for index in 0..objects {
        object_blocks_in(ground, index, &mut progress, reader)?;
    }
    Ok(ReadBlocks {
        blocks: BlockList::new(progress.blocks),
        symbols: List32::new(progress.symbols),
        bounds: progress.bounds,
    })
}

// All blocks of an object, after those of the objects before it.
fn object_blocks_in(
    ground: Ground<'_>,
    index: u32,
    progress: &mut Progress,
    reader: &mut BitReader<'_>,
) -> Result<(), FormatFault>
    ensures exact { (view : RulesView) → IsWholeTable view ground.entry.table.now
        → GivesElement (λ _. told_of progress.new) result reader.new
        (object_blocks_in ground.entry.frame view index (told_of progress.old) reader.old) }
    ensures bounds { OnOk result (StaysBounded ground.entry.table.now progress.old progress.new) }
{
    let place = Place::of(Section::Starts, 0);
    let start = told(reader, place, index as usize)?;
    if start > u64::from(ground.frame.span) {
        return Err(FormatFault::Flaw(place.flaw(index as usize, Kind::Offset)));
    }
    progress.next = 0;
    progress.last = None;
    if start == u64::from(ground.frame.span) {
        return Ok(());
    }
    block_in(ground, index, progress, start as u32, reader)?;
    further_in(ground, index, progress, reader)?;
    Ok(())
}

// Further blocks of an object, until its last one or the span is told.
fn further_in(
    ground: Ground<'_>,
    index: u32,
    progress: &mut Progress,
    reader: &mut BitReader<'_>,
) -> Result<(), FormatFault>
    requires { IsKept ground.frame.height progress.old.last }
    ensures exact { (view : RulesView) → IsWholeTable view ground.entry.table.now
        → GivesElement (λ _. told_of progress.new) result reader.new
        (further_in ground.entry.frame.span ground.entry.frame view index (told_of progress.old) reader.old) }
    ensures bounds { OnOk result (StaysBounded ground.entry.table.now progress.old progress.new) }
{
    for _ in 0..ground.frame.span {
        if progress.next >= ground.frame.span {
            return Ok(());
        }
        let Some(at) = next_anchor(&ground.frame, index, progress.next, reader)? else {
            return Ok(());
        };
        block_in(ground, index, progress, at, reader)?;
    }
    Ok(())
}

// The instant of an object's next anchor, if there is one, where all instants before `next` are told.
fn next_anchor(
    frame: &Frame,
    index: u32,
    next: u32,
    reader: &mut BitReader<'_>,
) -> Result<Option<u32>, FormatFault>
    requires some { 0 < frame.now.period }
    requires span_fits { frame.now.span ≤ MAX_SPAN }
    requires next { next < frame.now.span }
    ensures exact { GivesElement (λ at. at) result reader.new (next_anchor_in frame.now index next reader.old) }
    ensures within { IfOk result (λ at. IfSome at (λ at. at < frame.now.span)) }
{
    let place = Place::of(Section::Gaps, next / frame.period);
    let gap = told(reader, place, index as usize)?;
    if gap == 1 {
        return Ok(None);
    }
    let at = u64::from(next) + gap.saturating_sub(1);
    if at >= u64::from(frame.span) {
        return Err(FormatFault::Flaw(place.flaw(index as usize, Kind::Offset)));
    }
    Ok(Some(at as u32))
}

// A block of an object whose anchor is at an instant.
fn block_in(
    ground: Ground<'_>,
    index: u32,
    progress: &mut Progress,
    at: u32,
    reader: &mut BitReader<'_>,
) -> Result<(), FormatFault>
    requires last { IsKept ground.frame.height progress.old.last }
    requires at { at < ground.frame.span }
    ensures exact { (view : RulesView) → IsWholeTable view ground.entry.table.now
        → GivesElement (λ _. told_of progress.new) result reader.new
        (block_in ground.entry.frame view index (told_of progress.old) at reader.old) }
    ensures last { OnOk result (IsKept ground.entry.frame.height progress.new.last) }
    ensures bounds { OnOk result (StaysBounded ground.entry.table.now progress.old progress.new) }
{
    let period = at / ground.frame.period;
    let end = ground.frame.span.min((period + 1) * ground.frame.period);
    let cell = anchor_in(&ground.frame, period, index, progress.last, reader)?;
    let before = progress.symbols.len();
    let start = LogRest {
        rest: end - 1 - at,
        cell,
    };
    let log = log_in(ground, period, &mut progress.symbols, start, reader)?;
    progress.blocks.push(OutlineBlock {
        period,
        index,
        offset: at - period * ground.frame.period,
        cell: GridCell::pack(cell),
        length: (progress.symbols.len() - before) as u32,
    })?;
    progress.bounds.push(PackedBounds::pack(log.bounds))?;
    progress.next = end;
    progress.last = Some(log.at.cell);
    Ok(())
}
