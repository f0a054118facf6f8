use crate::stage::{Stage, number};
use std::alloc::{AllocError, Global};
use std::ops::Range;
use track_types::Memory;

/// Lines to be done for each row of a table, in which `$0` to `$4` stand for the row's fields.
///
/// A row's fields are separated by `;`. Where the first is `FROM..TO`, the lines are done for each number
/// from FROM up to but not TO, for which `#` stands.
pub type Part = (&'static str, &'static str);

/// The table for lines that are done once.
pub const ONCE: &str = "-";

// The first row with a line that is not so, and this line; or none. The stage stays from part to part.
pub fn first_wrong(
    rt: &HostRuntime,
    script: &[Part],
) -> Result<Option<(&'static str, &'static str)>, Memory> {
    let mut stage = Stage::new(rt.alloc())?;
    for &(lines, rows) in script {
        let wrong = first_wrong_row(rt, &mut stage, lines, rows)?;
        if wrong.is_some() {
            return Ok(wrong);
        }
    }
    Ok(None)
}

fn first_wrong_row(
    rt: &HostRuntime,
    stage: &mut Stage,
    lines: &'static str,
    rows: &'static str,
) -> Result<Option<(&'static str, &'static str)>, Memory> {
    for row in rows.lines() {
        if let Some(line) = first_wrong_line(rt, stage, lines, row)? {
            return Ok(Some((row, line)));
        }
    }
    Ok(None)
}

fn first_wrong_line(
    rt: &HostRuntime,
    stage: &mut Stage,
    lines: &'static str,
    row: &str,
) -> Result<Option<&'static str>, Memory> {
    for number in numbers_of(row) {
        let wrong = wrong_line_at(rt, stage, lines, row, number)?;
        if wrong.is_some() {
            return Ok(wrong);
        }
    }
    Ok(None)
}

fn wrong_line_at(
    rt: &HostRuntime,
    stage: &mut Stage,
    lines: &'static str,
    row: &str,
    number: u64,
) -> Result<Option<&'static str>, Memory> {
    for line in lines.lines() {
        let text = filled(rt.alloc(), line.trim(), row, number)?;
        if !stage.is_done(rt, text.as_str())? {
            return Ok(Some(line));
        }
    }
    Ok(None)
}

// The numbers that a row counts through, or 0 alone.
fn numbers_of(row: &str) -> Range<u64> {
    let first = row.split(';').next().unwrap_or("");
    match first.split_once("..") {
        Some((from, to)) => number(from.trim())..number(to.trim()),
        None => 0..1,
    }
}

// A line with the number and the fields of a row in place of the marks that stand for them.
fn filled(alloc: Global, line: &str, row: &str, number: u64) -> Result<String, AllocError> {
    let digits = format!(in alloc; "{number}")?;
    let mut text = line.replace(alloc, "#", digits.as_str())?;
    for (mark, field) in ["$0", "$1", "$2", "$3", "$4"]
        .into_iter()
        .zip(row.split(';'))
    {
        text = text.replace(alloc, mark, field.trim())?;
    }
    Ok(text)
}
