ghost use Rattle.std.specs.Prelude.{◌≡◌, ◌^◌, ◌<◌, ◌≤◌, IfOk, length, map};
ghost use Rattle.std.specs.List.Sorted.{IsStrictlyIncreasing};
ghost use Rattle.movement_log.specs.Logs.{ascending_of, terminal_of};

use std::alloc::{AllocError, Global};

// How many values are gathered at least before repeated ones are dropped.
const LEAST_ROOM: usize = 1 << 16;

/// The values that logs use, ascending. It takes the time of one sort of all values, and memory for
/// twice the different ones.
pub(crate) fn alphabet_of(alloc: Global, values: &[u64]) -> Result<Vec<u64>, AllocError>
    ensures ok { IfOk result (λ alphabet. alphabet.items ≡ ascending_of values.now) }
    ensures few { IfOk result (λ alphabet. length alphabet.items ≤ length values.now) }
    ensures ascending { IfOk result (λ alphabet. IsStrictlyIncreasing alphabet.items) }
{
    let mut kept = Vec::new(alloc);
    let mut room = LEAST_ROOM;
    for value in values {
        kept.push(*value)?;
        if kept.len() >= room {
            keep_each_once(&mut kept);
            // As many again must come before the next sort, so that all sorts together take about as long as one.
            room = kept.len().saturating_mul(2).max(LEAST_ROOM);
        }
    }
    keep_each_once(&mut kept);
    Ok(kept)
}

// Brings values into ascending order, each once.
fn keep_each_once(values: &mut Vec<u64>)
    ensures { values.new.items ≡ ascending_of values.old.items }
{
    values.sort_unstable();
    values.dedup();
}

/// The place of each value in an alphabet.
pub(crate) fn terminals_of(
    alloc: Global,
    alphabet: &[u64],
    values: &[u64],
) -> Result<Vec<u32>, AllocError>
    requires few { length alphabet.now < 2 ^ 32 }
    requires ascending { IsStrictlyIncreasing alphabet.now }
    ensures { IfOk result (λ terminals. terminals.items ≡ map (terminal_of alphabet.now) values.now) }
{
    let mut terminals = Vec::with_capacity(alloc, values.len())?;
    for value in values {
        terminals.push(terminal_of(alphabet, *value))?;
    }
    Ok(terminals)
}

// The place of a value, or the alphabet's length where it is not there.
fn terminal_of(alphabet: &[u64], value: u64) -> u32
    requires few { length alphabet.now < 2 ^ 32 }
    requires ascending { IsStrictlyIncreasing alphabet.now }
    ensures { result ≡ terminal_of alphabet.now value }
{
    match alphabet.binary_search(&value) {
        Ok(place) => place as u32,
        Err(_) => alphabet.len() as u32,
    }
}
