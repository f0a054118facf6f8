ghost use Rattle.std.specs.Prelude.{◌≡◌, ℕ, ◌+◌, ◌≤◌, true, List, [], ◌∷◌, ◌++◌, length, IfOk};
ghost use Rattle.rule_store.specs.View.{RulesView};
ghost use Rattle.index_format.specs.Answers.{GivesElement};
ghost use Rattle.index_format.specs.OutlineBlocks.{entry_in, log_in, is_in_grid};
ghost use Rattle.rule_store.specs.Table.{IsWholeTable};
ghost use Rattle.index_format.specs.BlockSteps.{log_after, log_with};
ghost use Rattle.index_format.specs.LogReading.{IsReadBehind, reached};
ghost use Rattle.index_format.specs.declared.outline.entries.LogRest as declared;

use crate::outline::bounded_log::BoundedLog;
use crate::outline::grid::{is_in_grid, stays_in};
use crate::outline::ground::Ground;
use crate::outline::told::wide;
use crate::place::Place;
use bit_stream::BitReader;
use track_types::{Cell, FormatFault, Kind, MAX_SYMBOLS, Section};

/// Where a log has come to: how many instants it has still to fill, and the last cell.
#[derive(Clone, Copy)]
pub struct LogRest {
    pub rest: u32,
    pub cell: Cell,
}

/// The symbols of a log, appended to those before it; where the log has come to in the end, and its bounds.
pub fn log_in(
    ground: Ground<'_>,
    period: u32,
    symbols: &mut Vec<u32>,
    start: LogRest,
    reader: &mut BitReader<'_>,
) -> Result<BoundedLog, FormatFault>
    requires { is_in_grid ground.frame.height start.cell ≡ true }
    ensures exact { (view : RulesView) → IsWholeTable view ground.entry.table.now
        → GivesElement (λ log. log_with symbols.new.items log.at) result reader.new
        (log_in start.rest ground.entry.frame view period (log_with symbols.old.items start) reader.old) }
    ensures within { IfOk result (λ log. is_in_grid ground.entry.frame.height log.at.cell ≡ true) }
    ensures more { IfOk result (λ log. length symbols.old.items ≤ length symbols.new.items) }
    ensures few { IfOk result (λ log. length symbols.new.items ≤ length symbols.old.items + start.rest) }
    ensures read { IfOk result (λ log. (view : RulesView) → IsWholeTable view ground.entry.table.now
        → IsReadBehind view start symbols.old.items symbols.new.items log) }
{
    let mut log = BoundedLog::begun(start);
    for _ in 0..start.rest {
        if log.at.rest == 0 {
            return Ok(log);
        }
        log = entry_in(ground, period, symbols, log, reader)?;
    }
    Ok(log)
}

// One symbol of a log.
fn entry_in(
    ground: Ground<'_>,
    period: u32,
    symbols: &mut Vec<u32>,
    log: BoundedLog,
    reader: &mut BitReader<'_>,
) -> Result<BoundedLog, FormatFault>
    requires { is_in_grid ground.frame.height log.at.cell ≡ true }
    ensures exact { (view : RulesView) → IsWholeTable view ground.entry.table.now
        → GivesElement (λ next. log_with symbols.new.items next.at) result reader.new
        (entry_in ground.entry.frame view period (log_with symbols.old.items log.at) reader.old) }
    ensures within { IfOk result (λ next. is_in_grid ground.entry.frame.height next.at.cell ≡ true) }
    ensures one { IfOk result (λ next. length symbols.new.items ≡ length symbols.old.items + 1) }
    ensures read { IfOk result (λ next. (view : RulesView) (start : declared.LogRest) (before : List ℕ)
        → IsWholeTable view ground.entry.table.now → IsReadBehind view start before symbols.old.items log
        → IsReadBehind view start before symbols.new.items next) }
{
    let place = Place::of(Section::Log, period);
    let index = symbols.len();
    if index as u64 >= MAX_SYMBOLS {
        return Err(FormatFault::Flaw(place.flaw(index, Kind::Total)));
    }
    let symbol = wide(reader, place, index, ground.width)? as u32;
    match entry_after(ground, log, symbol) {
        Ok(next) => {
            symbols.push(symbol)?;
            Ok(next)
        }
        Err(kind) => Err(FormatFault::Flaw(place.flaw(index, kind))),
    }
}

// A log with one symbol more, or what is wrong with that.
fn entry_after(ground: Ground<'_>, log: BoundedLog, symbol: u32) -> Result<BoundedLog, Kind>
    requires { is_in_grid ground.frame.height log.at.cell ≡ true }
    ensures exact { (view : RulesView) → IsWholeTable view ground.entry.table.now
        → reached result ≡ log_after ground.entry.frame.height view log.at symbol }
    ensures within { IfOk result (λ next. is_in_grid ground.entry.frame.height next.at.cell ≡ true) }
    ensures read { IfOk result (λ next. (view : RulesView) (start : declared.LogRest) (before symbols : List ℕ)
        → IsWholeTable view ground.entry.table.now → IsReadBehind view start before symbols log
        → IsReadBehind view start before (symbols ++ symbol ∷ []) next) }
{
    if symbol >= ground.symbols {
        return Err(Kind::Symbol);
    }
    let entry = ground.table.entry(symbol);
    if !stays_in(ground.frame.height, log.at.cell, &entry.hull) {
        return Err(Kind::OffGrid);
    }
    if entry.duration > log.at.rest {
        return Err(Kind::Duration);
    }
    let next = log.with(ground.frame.height, &entry);
    // This never happens: an entry whose box is in the grid ends in that box, or does not move.
    if !is_in_grid(ground.frame.height, next.at.cell) {
        return Err(Kind::OffGrid);
    }
    Ok(next)
}
