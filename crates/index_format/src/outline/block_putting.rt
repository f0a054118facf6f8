ghost use Rattle.std.specs.Prelude.{◌≡◌, ◌++◌, ◌+◌, ◌*◌, ◌^◌, ◌<◌, ◌≤◌, ◌-ℤ◌, ◌≢◌, true, drop, take, slice_index_or, length, All, None, Some, IfOk, OnOk};
ghost use Rattle.std.specs.List.{flat_map, range_with_len, sum_by};
ghost use Rattle.packed_bits.specs.Words.{low_bits};
ghost use Rattle.spiral_code.specs.Spiral.{code_of};
ghost use Rattle.rule_store.specs.View.{RulesView};
ghost use Rattle.track_types.specs.declared.limit.TheConstants.{MAX_HEIGHT, MAX_PERIOD, MAX_SPAN};
ghost use Rattle.index_format.specs.OutlineBlocks.{anchor_bits, anchor_instant, blocks_bits, cell_after, end_bits, entry_width, is_in_grid, object_bits, period_end, when_bits};
ghost use Rattle.rule_store.specs.Table.{IsWholeTable};
ghost use Rattle.index_format.specs.BlockSteps.{IsKept, IsLogFrom, IsPlaced, block_bits, no_block};
ghost use Rattle.index_format.specs.IsOutline.{all_follow, blocks_with_logs, comes_after};
ghost use Rattle.rule_store.specs.Table.{symbols_of};

use crate::outline::OutlineBlock;
use crate::outline::grid::cell_past;
use crate::outline::ground::Ground;
use bit_stream::BitWriter;
use rule_store::EntryTable;
use spiral_code::encode_move;
use track_types::{Cell, Frame, Memory};

/// How far an object is put: the first instant that is not yet told, and its last cell.
#[derive(Clone, Copy)]
struct Reached {
    next: u64,
    last: Option<Cell>,
}

/// Puts the blocks of so many objects and the symbols of their logs. The table has `symbols` symbols. The blocks stand
/// by object, then period.
pub fn put_blocks(
    writer: &mut BitWriter,
    frame: &Frame,
    table: &EntryTable,
    symbols: u32,
    objects: u32,
    blocks: &[OutlineBlock],
    log: &[u32],
) -> Result<(), Memory>
    requires some { 0 < frame.now.period }
    requires period_fits { frame.now.period ≤ MAX_PERIOD }
    requires height_fits { frame.now.height ≤ MAX_HEIGHT }
    requires span_fits { frame.now.span ≤ MAX_SPAN }
    requires all { symbols ≡ symbols_of table.now }
    requires few { symbols ≤ 2 ^ 26 }
    requires order { all_follow comes_after blocks.now ≡ true }
    requires placed { (view : RulesView) × IsWholeTable view table.now × All (IsPlaced frame.now.height view) (blocks_with_logs blocks.now log.now) }
    ensures { (view : RulesView) → IsWholeTable view table.now → OnOk result (writer.new
        ≡ writer.old ++ blocks_bits frame.now view blocks.now (range_with_len 0 objects) log.now) }
{
    let ground = Ground::of(frame, table, symbols);
    let mut blocks = blocks;
    let mut log = log;
    for index in 0..objects {
        let (own, others) = blocks.split_at(own_count(blocks, index));
        log = put_object(writer, ground, own, log)?;
        blocks = others;
    }
    Ok(())
}

// How many blocks at the front are those of one object.
fn own_count(blocks: &[OutlineBlock], index: u32) -> usize
    ensures within { result ≤ length blocks.now }
    ensures own { All (λ block. block.index ≡ index) (take result blocks.now) }
    ensures others { result < length blocks.now → (slice_index_or blocks.now result no_block).index ≢ index }
{
    let mut count = 0;
    for block in blocks {
        if block.index != index {
            return count;
        }
        count += 1;
    }
    count
}

// Puts the blocks of one object, whose logs stand at the front of `log`, and gives what is left of it.
fn put_object<'a>(
    writer: &mut BitWriter,
    ground: Ground<'_>,
    blocks: &[OutlineBlock],
    log: &'a [u32],
) -> Result<&'a [u32], Memory>
    requires { (view : RulesView) × IsWholeTable view ground.table.now
        × All (IsPlaced ground.frame.height view) (blocks_with_logs blocks.now log.now) }
    ensures bits { (view : RulesView) → IsWholeTable view ground.entry.table.now → OnOk result (writer.new
        ≡ writer.old ++ object_bits ground.entry.frame view 0 None blocks.now log.now) }
    ensures rest { IfOk result (λ rest. rest.now ≡ drop (sum_by (λ block. block.length) blocks.now) log.now) }
{
    let mut reached = Reached {
        next: 0,
        last: None,
    };
    let mut log = log;
    for block in blocks {
        let (own, rest) = log.split_at(block.length as usize);
        reached = put_block(writer, ground, reached, block, own)?;
        log = rest;
    }
    put_end(writer, &ground.frame, reached.next)?;
    Ok(log)
}

// Puts the next block of an object, and gives what the object has then reached.
fn put_block(
    writer: &mut BitWriter,
    ground: Ground<'_>,
    reached: Reached,
    block: &OutlineBlock,
    log: &[u32],
) -> Result<Reached, Memory>
    requires last { IsKept ground.frame.height reached.last }
    requires log { (view : RulesView) × IsWholeTable view ground.table.now × IsLogFrom ground.frame.height view block.now.cell log.now }
    ensures bits { (view : RulesView) → IsWholeTable view ground.entry.table.now → OnOk result (writer.new
        ≡ writer.old ++ block_bits ground.entry.frame view reached.next reached.last block.now log.now) }
    ensures next { IfOk result (λ after. after.next ≡ period_end ground.entry.frame (anchor_instant ground.entry.frame block.now)) }
    ensures last { (view : RulesView) → IsWholeTable view ground.entry.table.now
        → IfOk result (λ after. after.last ≡ Some (cell_after view block.now.cell log.now)) }
    ensures kept { IfOk result (λ after. IsKept ground.entry.frame.height after.last) }
{
    let period = u64::from(ground.frame.period);
    let at = instant_at(ground.frame.period, block.period, block.offset);
    let anchor = block.cell.unpack();
    put_when(writer, reached.next, at)?;
    put_anchor(writer, ground.frame.height, reached.last, anchor)?;
    let cell = put_log(writer, ground, anchor, log)?;
    Ok(Reached {
        next: u64::from(ground.frame.span).min((at / period + 1) * period),
        last: Some(cell),
    })
}

// The instant that is so many instants after the first of a period, counted from the first of all.
// A period has `period` instants.
fn instant_at(period: u32, number: u32, offset: u32) -> u64
    requires { period ≤ MAX_PERIOD }
    ensures value { result ≡ number * period + offset }
    ensures within { result < 2 ^ 55 }
{
    u64::from(number) * u64::from(period) + u64::from(offset)
}

// Puts when a block begins, counted from the first instant that is not yet told.
#[tactic(auto, unfolding(crate::specs::OutlineBlocks::when_bits))]
fn put_when(writer: &mut BitWriter, next: u64, at: u64) -> Result<(), Memory>
    requires { at < 2 ^ 55 }
    ensures { OnOk result (writer.new ≡ writer.old ++ when_bits next at) }
{
    if next == 0 {
        writer.put_number(at)?;
    } else if at == next {
        writer.put_number(0)?;
    } else {
        writer.put_number(at.saturating_sub(next) + 1)?;
    }
    Ok(())
}

// Puts the cell of an anchor: by a movement from the last cell, if there is one.
#[tactic(auto, unfolding(crate::specs::OutlineBlocks::anchor_bits))]
fn put_anchor(
    writer: &mut BitWriter,
    height: u32,
    last: Option<Cell>,
    cell: Cell,
) -> Result<(), Memory>
    requires height { height ≤ MAX_HEIGHT }
    requires last { IsKept height last }
    requires cell { is_in_grid height cell ≡ true }
    ensures { OnOk result (writer.new ≡ writer.old ++ anchor_bits height last cell) }
{
    match last {
        None => {
            writer.put_low(cell.x as u64, height)?;
            writer.put_low(cell.y as u64, height)?;
        }
        Some(last) => {
            writer.put_number(code_between(height, last, cell))?;
        }
    }
    Ok(())
}

// The code of the movement from a cell of the grid to another one.
fn code_between(height: u32, from: Cell, to: Cell) -> u64
    requires height { height ≤ MAX_HEIGHT }
    requires from { is_in_grid height from ≡ true }
    requires to { is_in_grid height to ≡ true }
    ensures exact { result ≡ code_of (to.x -ℤ from.x) (to.y -ℤ from.y) }
    ensures within { result + 2 ≤ 2 ^ 56 }
{
    encode_move(to.x - from.x, to.y - from.y)
}

// Puts the symbols of a log that begins at a cell, and gives the cell at its end.
fn put_log(
    writer: &mut BitWriter,
    ground: Ground<'_>,
    start: Cell,
    log: &[u32],
) -> Result<Cell, Memory>
    requires { (view : RulesView) × IsWholeTable view ground.table.now × IsLogFrom ground.frame.height view start log.now }
    ensures bits { (view : RulesView) → IsWholeTable view ground.entry.table.now → OnOk result (writer.new
        ≡ writer.old ++ flat_map (low_bits (entry_width view)) log.now) }
    ensures cell { (view : RulesView) → IsWholeTable view ground.entry.table.now
        → IfOk result (λ cell. cell ≡ cell_after view start log.now) }
    ensures inside { IfOk result (λ cell. is_in_grid ground.entry.frame.height cell ≡ true) }
{
    let mut cell = start;
    for &symbol in log {
        writer.put_low(u64::from(symbol), ground.width)?;
        cell = cell_past(ground.frame.height, cell, &ground.table.entry(symbol));
    }
    Ok(cell)
}

// Puts the end of an object's blocks, if the span is not yet told.
#[tactic(auto, unfolding(crate::specs::OutlineBlocks::end_bits))]
fn put_end(writer: &mut BitWriter, frame: &Frame, next: u64) -> Result<(), Memory>
    ensures { OnOk result (writer.new ≡ writer.old ++ end_bits frame.now next) }
{
    if next == 0 {
        writer.put_number(u64::from(frame.span))?;
    } else if next < u64::from(frame.span) {
        writer.put_number(1)?;
    }
    Ok(())
}
