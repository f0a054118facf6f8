ghost use Rattle.std.specs.Prelude.{◌≡◌, ◌+◌, ◌<◌, ◌≤◌, ◌^◌, None, Some, length, IfErr, IfOk, OnOk};
ghost use Rattle.std.specs.Prelude.{map, max, sum, pos, ◌≤ℤ◌, IfSome, IsTrue};
ghost use Rattle.step_count.specs.Reads.{ofPeriod, ReadsWithin};
ghost use Rattle.track_types.specs.Frame.{instants_in, periods_of, IsFrame};
ghost use Rattle.track_types.specs.Near.{IsBoxWithin, IsCellWithin, IsNear, IsWithin};
ghost use Rattle.track_types.specs.declared.limit.TheConstants.{MAX_HEIGHT, MAX_SYMBOLS};
ghost use Rattle.rule_store.specs.Needs.{log_needs};
ghost use Rattle.snapshots.specs.Ahead.{IsReadOn};
ghost use Rattle.snapshots.specs.Flaws.{IsSnapFaultFor};
ghost use Rattle.snapshots.specs.Parts.{block_log};
ghost use Rattle.snapshots.specs.Sound.{IsSnapshot};
ghost use Rattle.snapshots.specs.IndexCost.{blocks_reads};
ghost use Rattle.log_bounds.specs.Bounds.{duration_of_log, IsReachable};
ghost use Rattle.snapshots.specs.JoinFlaws.{blocks_flaw, has_columns, has_lines, is_along, log_flaw};
ghost use Rattle.snapshots.specs.JoinFlaws.{off_grid_at, passes_grid};
ghost use Rattle.snapshots.specs.Needs.{log_places};
ghost use Rattle.snapshots.specs.TrackTree.{IsKept, IsOfPeriod};
ghost use Rattle.snapshots.specs.Tracks.{blocks_by_leaf, track_box};
ghost use Rattle.snapshots.specs.Speed.{block_speed, blocks_speed};
ghost use Rattle.snapshots.specs.View.{all_blocks};

use crate::ahead::Ahead;
use crate::anchored::Anchored;
use crate::checking::{flaw, instants_in};
use crate::fault::SnapFault;
use crate::finding::{find_blocks, reordered};
use crate::judged::Judged;
use crate::keeping::keep_tracks;
use crate::snapshot::Snapshot;
use log_bounds::LogBounds;
use rule_store::RuleStore;
use std::alloc::Global;
use step_count::{Reads, Steps};
use track_types::{Cell, CellBox, Frame, Kind, Memory, Section};

/// What is found of a block by the symbols of its log, which stays in the grid.
#[derive(Clone, Copy)]
pub struct LogSummary {
    /// How many instants they stand for.
    pub duration: u64,
    /// The box of its track, and how many cells an instant its object gets away from its anchor at most, or a greater
    /// number that was given.
    pub bounds: LogBounds,
}

// What is found of the logs of a period's blocks.
#[derive(Drop)]
struct JudgedLogs {
    // The greatest speed of a block, in cells an instant.
    speed: u64,
    // The boxes of the blocks' tracks, by object.
    areas: Vec<CellBox>,
}

/// Judges the logs of all blocks of a snapshot by object, and answers the first flaw, or what is found of the
/// period, which has this number. It reads each symbol of these logs once, and what leads to the blocks.
pub fn judge_snapshot<L: Reads>(
    alloc: Global,
    rules: &RuleStore,
    snapshot: &Snapshot,
    number: u32,
    steps: &mut Steps<L>,
) -> Result<Judged, SnapFault>
    requires number { number ≡ snapshot.now.number }
    requires symbols { snapshot.now.start + sum snapshot.now.parts.lengths
        ≤ length rules.now.symbols }
    requires period { IsTrue (L.may (ofPeriod number)) }
    requires may { ReadsWithin (log_needs (log_places snapshot.now)) L.may }
    ensures exact { OnOk result (blocks_flaw rules.now snapshot.now ≡ None) }
    ensures snapshot { OnOk result (IsSnapshot snapshot.now) }
    ensures speed { IfOk result (λ judged. judged.speed ≡ blocks_speed rules.now snapshot.now) }
    ensures tracks { IfOk result (λ judged.
        IsKept snapshot.now.frame rules.now (blocks_by_leaf snapshot.now) judged.tracks) }
    ensures period { IfOk result (λ judged. IsOfPeriod number judged.tracks) }
    ensures flaw { IfErr result (λ fault. IsSnapFaultFor (blocks_flaw rules.now snapshot.now) fault) }
    ensures cost { steps.new
        ≤ steps.old + (blocks_reads snapshot.now + sum snapshot.now.parts.lengths) }
{
    let found = find_blocks(alloc, snapshot, steps)?;
    let blocks = reordered(alloc, &found.by_leaf, &found.ranks)?;
    let logs = judge_logs(alloc, rules, snapshot, number, &blocks, steps)?;
    let tracks = keep_tracks(alloc, snapshot, number, &found, &logs.areas)?;
    Ok(Judged {
        speed: logs.speed,
        tracks,
    })
}

// Judges the logs of a snapshot's blocks, which are given by object.
fn judge_logs<L: Reads>(
    alloc: Global,
    rules: &RuleStore,
    snapshot: &Snapshot,
    number: u32,
    blocks: &[Anchored],
    steps: &mut Steps<L>,
) -> Result<JudgedLogs, SnapFault>
    requires number { number ≡ snapshot.now.number }
    requires symbols { snapshot.now.start + sum snapshot.now.parts.lengths
        ≤ length rules.now.symbols }
    requires blocks { blocks.now ≡ all_blocks snapshot.now }
    requires may { ReadsWithin (log_needs (log_places snapshot.now)) L.may }
    ensures exact { OnOk result (blocks_flaw rules.now snapshot.now ≡ None) }
    ensures speed { IfOk result (λ logs. logs.speed ≡ blocks_speed rules.now snapshot.now) }
    ensures areas { IfOk result (λ logs.
        logs.areas.items ≡ map (track_box rules.now) (all_blocks snapshot.now)) }
    ensures flaw { IfErr result (λ fault. IsSnapFaultFor (blocks_flaw rules.now snapshot.now) fault) }
    ensures cost { steps.new ≤ steps.old + sum snapshot.now.parts.lengths }
{
    let frame = snapshot.frame();
    let (from, len) = snapshot.logs();
    let mut ahead = Ahead::new(rules, from, len);
    let mut speed = 0u64;
    let mut areas = Vec::with_capacity(alloc, blocks.len())?;
    for (rank, block) in blocks.iter().enumerate() {
        let log = judge_log(&mut ahead, frame, number, rank as u32, block, speed, steps)?;
        speed = log.bounds.speed;
        areas.push_reserved(log.bounds.area);
    }
    Ok(JudgedLogs { speed, areas })
}

// Judges the log of a block, which has this place among those of the period with this number. It answers what is
// found of the block, with the greater of its speed and the given one, or the first flaw: a placed box that passes the
// grid comes before a wrong duration.
fn judge_log<L: Reads>(
    ahead: &mut Ahead<'_>,
    frame: &Frame,
    number: u32,
    rank: u32,
    block: &Anchored,
    fastest: u64,
    steps: &mut Steps<L>,
) -> Result<LogSummary, SnapFault>
    requires header { IsFrame frame.now }
    requires period { number < periods_of frame.now }
    requires offset { block.now.offset < instants_in frame.now number }
    requires cell { IsCellWithin block.now.cell }
    requires log { block.now.from + block.now.len ≤ length ahead.old.rules.symbols }
    requires at { ahead.old.place ≡ block.now.from }
    requires end { block.now.from + block.now.len ≤ ahead.old.end }
    requires read { ahead.old.read ≤ ahead.old.end }
    requires long { block.now.from + block.now.len ≤ MAX_SYMBOLS }
    requires may { ReadsWithin (log_needs (ahead.old.read, ahead.old.end)) L.may }
    ensures exact { OnOk result (log_flaw frame.now ahead.old.rules number rank block.now ≡ None) }
    ensures flaw { IfErr result (λ fault.
        IsSnapFaultFor (log_flaw frame.now ahead.old.rules number rank block.now) fault) }
    ensures speed { IfOk result (λ log. log.bounds.speed ≡ max fastest (block_speed ahead.old.rules block.now)) }
    ensures area { IfOk result (λ log. log.bounds.area ≡ track_box ahead.old.rules block.now) }
    ensures place { OnOk result (ahead.new.place ≡ block.now.from + block.now.len) }
    ensures read { IsReadOn ahead.old ahead.new steps.old steps.new }
{
    match read_log(ahead, frame, block, fastest, steps) {
        Err(place) => Err(flaw(number, Section::Log, Kind::OffGrid, block.from + place)),
        Ok(summary) => {
            let lasting = instants_in(frame, number) - 1 - block.offset;
            if summary.duration == u64::from(lasting) {
                Ok(summary)
            } else {
                Err(flaw(number, Section::Lengths, Kind::Duration, rank))
            }
        }
    }
}

// Reads the symbols of a block's log once, from the cell of its anchor on. It answers what is found of the block, with
// the greater of its speed and the given one, or the place of the first symbol whose placed box passes the grid.
fn read_log<L: Reads>(
    ahead: &mut Ahead<'_>,
    frame: &Frame,
    block: &Anchored,
    fastest: u64,
    steps: &mut Steps<L>,
) -> Result<LogSummary, u32>
    requires header { IsFrame frame.now }
    requires cell { IsCellWithin block.now.cell }
    requires log { block.now.from + block.now.len ≤ length ahead.old.rules.symbols }
    requires at { ahead.old.place ≡ block.now.from }
    requires end { block.now.from + block.now.len ≤ ahead.old.end }
    requires read { ahead.old.read ≤ ahead.old.end }
    requires long { block.now.from + block.now.len ≤ MAX_SYMBOLS }
    requires may { ReadsWithin (log_needs (ahead.old.read, ahead.old.end)) L.may }
    ensures inside { OnOk result
        (off_grid_at frame.now ahead.old.rules block.now.cell (block_log ahead.old.rules block.now) ≡ None) }
    ensures ok { IfOk result (λ summary.
        summary.duration ≡ duration_of_log ahead.old.rules (block_log ahead.old.rules block.now)) }
    ensures speed { IfOk result (λ summary.
        summary.bounds.speed ≡ max fastest (block_speed ahead.old.rules block.now)) }
    ensures area { IfOk result (λ summary. summary.bounds.area ≡ track_box ahead.old.rules block.now) }
    ensures err { IfErr result (λ place.
        off_grid_at frame.now ahead.old.rules block.now.cell (block_log ahead.old.rules block.now) ≡ Some place) }
    ensures within { IfErr result (λ place. place < block.now.len) }
    ensures place { OnOk result (ahead.new.place ≡ block.now.from + block.now.len) }
    ensures read { IsReadOn ahead.old ahead.new steps.old steps.new }
{
    let mut cell = block.cell;
    let mut duration = 0;
    let mut bounds = LogBounds {
        from: block.cell,
        speed: fastest,
        area: CellBox::of(block.cell),
    };
    for place in 0..block.len {
        let entry = ahead.next(steps);
        if passes_grid(frame, cell, &entry.hull) {
            return Err(place);
        }
        bounds = bounds.with(cell, duration, &entry.hull);
        cell = Cell {
            x: cell.x + entry.dx,
            y: cell.y + entry.dy,
        };
        duration += u64::from(entry.duration);
    }
    Ok(LogSummary { duration, bounds })
}

// Whether a box, moved to a cell, passes the grid. Where there is no box, nothing does.
fn passes_grid(frame: &Frame, cell: Cell, hull: &Option<CellBox>) -> bool
    requires header { IsFrame frame.now }
    requires column { IsReachable cell.x }
    requires line { IsReachable cell.y }
    requires hull { IfSome hull.now IsBoxWithin }
    ensures { result ≡ passes_grid frame.now cell hull.now }
{
    match hull {
        Some(hull) => !(has_columns(frame, cell, hull) && has_lines(frame, cell, hull)),
        None => false,
    }
}

// Whether the columns of a box, moved to a cell, are in the grid.
fn has_columns(frame: &Frame, cell: Cell, hull: &CellBox) -> bool
    requires header { IsFrame frame.now }
    requires column { IsReachable cell.x }
    requires hull { IsBoxWithin hull.now }
    ensures { result ≡ has_columns frame.now cell hull.now }
{
    is_along(frame, frame.base.x, cell.x, hull.x1, hull.x2)
}

// Whether its lines are.
fn has_lines(frame: &Frame, cell: Cell, hull: &CellBox) -> bool
    requires header { IsFrame frame.now }
    requires line { IsReachable cell.y }
    requires hull { IsBoxWithin hull.now }
    ensures { result ≡ has_lines frame.now cell hull.now }
{
    is_along(frame, frame.base.y, cell.y, hull.y1, hull.y2)
}

// Whether the numbers from one to another, moved by an amount, are in the grid, whose least such number
// is given.
fn is_along(frame: &Frame, least: i64, amount: i64, first: i64, last: i64) -> bool
    requires header { IsFrame frame.now }
    requires least { IsNear least }
    requires amount { IsReachable amount }
    requires first { IsWithin first }
    requires last { IsWithin last }
    ensures { result ≡ is_along frame.now.height least amount first last }
{
    if amount + first < least {
        return false;
    }
    if amount + last >= least + side_of(frame) {
        return false;
    }
    true
}

// How many cells a side of the grid has.
fn side_of(frame: &Frame) -> i64
    requires { IsFrame frame.now }
    ensures value { result ≡ pos (2 ^ frame.now.height) }
    ensures within { result ≤ℤ pos (2 ^ MAX_HEIGHT) }
{
    i64::from(1u32 << frame.height)
}
