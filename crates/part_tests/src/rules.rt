ghost use Rattle.std.specs.Prelude.{◌≡◌, ◌<◌};
ghost use Rattle.step_count.specs.Reads.{AllMay};

use crate::random::next;
use crate::stores::{ALPHABET, MOVES, great_store_of, store_of};
use rule_store::{Entry, RuleFault, RuleStore};
use std::alloc::Global;
use std::marker::Brand;
use std::sync::ledger::Blank;
use std::test::Fail;
use step_count::{Reads, Steps};
use track_types::{MAX_PERIOD, Memory};

const RULE: Option<RuleFault> = Some(RuleFault::Rule { rule: 0 });

// A name, the one value of the alphabet, rules, symbols, height and period, and the first flaw.
type Case = (
    &'static str,
    u64,
    &'static [(u32, u32)],
    &'static [u32],
    (u32, u32),
    Option<RuleFault>,
);

const CASES: [Case; 6] = [
    ("its own part", 1, &[(1, 0)], &[], (1, 9), RULE),
    ("too far", 2, &[(0, 0)], &[], (1, 9), RULE),
    ("within both", 2, &[(0, 0)], &[], (2, 3), None),
    ("too long", 2, &[(0, 0)], &[], (2, 2), RULE),
    (
        "a movement of two cells",
        10,
        &[],
        &[],
        (1, 9),
        Some(RuleFault::Code { index: 0 }),
    ),
    (
        "no rule",
        1,
        &[],
        &[0, 1],
        (1, 9),
        Some(RuleFault::Symbol { index: 1 }),
    ),
];

// Rules that each stand for twice what the one before does.
fn doubling_rules(alloc: Global) -> Result<Vec<(u32, u32)>, Memory> {
    let mut rules = Vec::new(alloc);
    for part in 0..25u32 {
        rules.push((part, part))?;
    }
    Ok(rules)
}

#[test]
fn flawed_rules_are_refused_at_the_first_flaw(rt: HostRuntime) -> Result<(), Fail> {
    for (what, value, rules, symbols, (height, period), want) in CASES {
        let checked = store_of(rt.alloc(), &[value], rules, symbols, height, period);
        assert!(rt; checked.err() == want, "{what}");
    }
    let rules = doubling_rules(rt.alloc())?;
    let checked = store_of(
        rt.alloc(),
        &[2],
        rules.as_slice(),
        &[],
        20,
        MAX_PERIOD as u32,
    );
    assert!(rt;
        checked.err() == Some(RuleFault::Rule { rule: 19 }),
        "2^20 cells"
    );
    Ok(())
}

// What each symbol stands for, written out.
fn expand(alloc: Global, alphabet: &[u64], rules: &[(u32, u32)]) -> Result<Vec<Vec<u64>>, Memory> {
    let mut expansions: Vec<Vec<u64>> = Vec::new(alloc);
    for value in alphabet {
        let mut alone = Vec::new(alloc);
        alone.push(*value)?;
        expansions.push(alone)?;
    }
    for (left, right) in rules {
        let mut joined = Vec::new(alloc);
        if let Some(values) = expansions.get(*left as usize) {
            joined.extend_from_slice(values.as_slice())?;
        }
        if let Some(values) = expansions.get(*right as usize) {
            joined.extend_from_slice(values.as_slice())?;
        }
        expansions.push(joined)?;
    }
    Ok(expansions)
}

// A duration, a displacement and the bounds of a box.
type Summed = (usize, i64, i64, Option<(i64, i64, i64, i64)>);

// How many values there are, how far they move, and the bounds of the cells that they reach.
fn walk(values: &[u64]) -> Summed {
    let mut x = 0i64;
    let mut y = 0i64;
    let mut hull: Option<(i64, i64, i64, i64)> = None;
    for value in values {
        if let Some((dx, dy)) = MOVES.get(value.wrapping_sub(1) as usize) {
            x = x.wrapping_add(*dx);
            y = y.wrapping_add(*dy);
            hull = match hull {
                Some((x1, y1, x2, y2)) => Some((x1.min(x), y1.min(y), x2.max(x), y2.max(y))),
                None => Some((x, y, x, y)),
            };
        }
    }
    (values.len(), x, y, hull)
}

// The same of an entry.
fn told(entry: Entry) -> Summed {
    let hull = match entry.hull {
        Some(hull) => Some((hull.x1, hull.y1, hull.x2, hull.y2)),
        None => None,
    };
    (entry.duration as usize, entry.dx, entry.dy, hull)
}

// What the entry of a symbol says, if the symbol is in range.
fn told_of(store: &RuleStore, symbol: usize) -> Option<Summed> {
    let (terminals, rules, _symbols) = store.sizes();
    if symbol >= (terminals + rules) as usize {
        return None;
    }
    Some(told(store.entry(symbol as u32)))
}

// The entries of a rule's parts, and of the stored symbol at a place, on a counter of its own.
fn read_at<L: Reads>(
    rt: &HostRuntime,
    store: &RuleStore,
    rule: u32,
    place: u32,
    blank: Blank,
) -> Option<(Summed, Summed, Summed)>
    requires name { blank.name ≡ L.name }
    requires parts { blank.parts ≡ L.parts }
    requires some { 0 < L.parts }
    requires may { AllMay L.may }
{
    let mut steps = Steps::<L>::new(rt, blank);
    let (terminals, rules, symbols) = store.sizes();
    if rule >= rules || place >= symbols {
        return None;
    }
    let (left, right) = store.parts(terminals + rule, &mut steps);
    let log = store.block(0, symbols);
    Some((told(left), told(right), told(log.entry(place, &mut steps))))
}

// A symbol that stands before a rule, and the next state.
fn symbol_before(rule: u32, state: u64) -> (u32, u64) {
    let state = next(state);
    ((state >> 33) as u32 % rule.saturating_add(10), state)
}

// Rules whose parts are drawn at random from the symbols before them.
fn random_rules(alloc: Global, seed: u64) -> Result<Vec<(u32, u32)>, Memory> {
    let mut rules = Vec::new(alloc);
    let mut state = seed;
    for rule in 0..24u32 {
        let (left, between) = symbol_before(rule, state);
        let (right, behind) = symbol_before(rule, between);
        rules.push((left, right))?;
        state = behind;
    }
    Ok(rules)
}

// Whether the entries of random rules are those of their expansions.
fn are_summed_up(alloc: Global, seed: u64) -> Result<bool, RuleFault> {
    let rules = random_rules(alloc, seed)?;
    let store = great_store_of(alloc, rules.as_slice(), &[])?;
    let expansions = expand(alloc, &ALPHABET, rules.as_slice())?;
    for (symbol, values) in expansions.iter().enumerate() {
        if told_of(&store, symbol) != Some(walk(values.as_slice())) {
            return Ok(false);
        }
    }
    Ok(true)
}

#[test]
fn entries_sum_up_expansions(rt: HostRuntime) -> Result<(), Fail> {
    for seed in 0..200u64 {
        assert!(rt; are_summed_up(rt.alloc(), seed)?, "seed {seed}");
    }
    Ok(())
}

// Standing still, to the right and up; rule 3 is right and up, rule 4 is rule 3 twice.
#[test]
fn parts_and_stored_symbols_are_read(rt: HostRuntime) -> Result<(), Fail> {
    let store = store_of(rt.alloc(), &[1, 2, 4], &[(1, 2), (3, 3)], &[0, 4], 4, 9)?;
    assert!(rt; store.sizes() == (3, 2, 2) && store.depth() == 2, "sizes");
    let once = (2, 1, 1, Some((1, 0, 1, 1)));
    let twice = (4, 2, 2, Some((1, 0, 2, 2)));
    let read = read_at::<Brand>(&rt, &store, 1, 1, Blank::new(1));
    assert!(rt; read == Some((once, once, twice)), "entries");
    Ok(())
}
