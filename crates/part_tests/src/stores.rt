ghost use Rattle.std.specs.Bool.{OnTrue};
ghost use Rattle.std.specs.List.Sorted.{IsStrictlyIncreasing};

use rule_store::{RuleFault, RuleStore};
use std::alloc::Global;
use track_types::{List32, List64, MAX_HEIGHT, MAX_PERIOD, Memory, PairList};

// The movements of the values 1 to 9.
pub const MOVES: [(i64, i64); 9] = [
    (0, 0),
    (1, 0),
    (1, 1),
    (0, 1),
    (-1, 1),
    (-1, 0),
    (-1, -1),
    (0, -1),
    (1, -1),
];

// Absence, and all of these.
pub const ALPHABET: [u64; 10] = [0, 1, 2, 3, 4, 5, 6, 7, 8, 9];

// Whether numbers ascend.
fn ascends(numbers: &[u64]) -> bool
    ensures { OnTrue result (IsStrictlyIncreasing numbers.now) }
{
    for i in 1..numbers.len() {
        if numbers[i] <= numbers[i - 1] {
            return false;
        }
    }
    true
}

// Lists, checked as the rules of an index; `Memory` where they are no lists to be judged.
pub fn store_of(
    alloc: Global,
    alphabet: &[u64],
    rules: &[(u32, u32)],
    symbols: &[u32],
    height: u32,
    period: u32,
) -> Result<RuleStore, RuleFault> {
    if !ascends(alphabet) || alphabet.len() > 100 || rules.len() > 100 || symbols.len() > 100 {
        return Err(RuleFault::Memory);
    }
    if height < 1 || height > MAX_HEIGHT || period < 1 || u64::from(period) > MAX_PERIOD {
        return Err(RuleFault::Memory);
    }
    RuleStore::check(
        alloc,
        List64::new(alphabet.to_vec(alloc).map_err(Memory::from)?),
        PairList::new(rules.to_vec(alloc).map_err(Memory::from)?),
        List32::new(symbols.to_vec(alloc).map_err(Memory::from)?),
        height,
        period,
    )
}

// The same over all movements by up to one cell, on the greatest grid and with the longest period.
pub fn great_store_of(
    alloc: Global,
    rules: &[(u32, u32)],
    symbols: &[u32],
) -> Result<RuleStore, RuleFault> {
    store_of(
        alloc,
        &ALPHABET,
        rules,
        symbols,
        MAX_HEIGHT,
        MAX_PERIOD as u32,
    )
}
