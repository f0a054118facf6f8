ghost use Rattle.std.specs.Prelude.{◌<◌, ◌≤◌, length, IfOk};
ghost use Rattle.std.specs.List.{AllByRecursion, sum_by};
ghost use Rattle.track_types.specs.declared.limit.TheConstants.{MAX_SYMBOLS};
ghost use Rattle.repair_grammar.specs.RePair.{AreBelow};

mod drawn;
mod plain;
mod sampled;

use crate::words::lists_of;
use drawn::Random;
use plain::{Pair, Search};
use repair_grammar::{Grammar, compress};
use sampled::LOGS;
use std::alloc::Global;
use std::test::Fail;
use track_types::{List32, Lists32, Memory};

// The symbols of a list that are below the alphabet's size, which in these tests are all.
fn block_of(alloc: Global, alphabet: u32, symbols: &[u32]) -> Result<List32, Memory>
    ensures below { IfOk result (AllByRecursion (λ symbol. symbol < alphabet)) }
    ensures few { IfOk result (λ block. length block ≤ length symbols.now) }
{
    let mut block = Vec::new(alloc);
    for symbol in symbols {
        if *symbol < alphabet {
            block.push(*symbol)?;
        }
    }
    Ok(List32::new(block))
}

// The lists as blocks, which in these tests are never too many.
fn blocks_of(alloc: Global, alphabet: u32, lists: &[Vec<u32>]) -> Result<Lists32, Memory>
    ensures below { IfOk result (AreBelow alphabet) }
    ensures few { IfOk result (λ blocks. sum_by length blocks ≤ MAX_SYMBOLS) }
{
    let mut blocks = Vec::new(alloc);
    let mut room = 1 << 25;
    for list in lists {
        if list.len() > room {
            return Err(Memory);
        }
        room -= list.len();
        blocks.push(block_of(alloc, alphabet, list.as_slice())?)?;
    }
    Ok(Lists32::new(blocks))
}

// What `compress` makes of the lists over an alphabet of at most a hundred symbols.
fn compressed(alloc: Global, alphabet: u32, lists: &[Vec<u32>]) -> Result<Grammar, Memory> {
    if alphabet > 100 {
        return Err(Memory);
    }
    compress(alloc, alphabet, &blocks_of(alloc, alphabet, lists)?)
}

// Whether a grammar has these rules and blocks.
fn has(grammar: &Grammar, rules: &[Pair], blocks: &[Vec<u32>]) -> bool {
    let made = grammar.blocks.as_slice();
    grammar.rules.as_slice() == rules
        && made.len() == blocks.len()
        && made
            .iter()
            .zip(blocks)
            .all(|(list, block)| list.as_slice() == block.as_slice())
}

// A name, the size of the alphabet, the blocks, the rules, and the blocks after them.
type Row = (&'static str, u32, &'static str, &'static str, &'static str);

const ROWS: [Row; 9] = [
    ("a run of zeros", 1, "0 0 0 0 0", "0 0", "1 1 0"),
    ("two blocks", 2, "0 1 0 1/0 1", "0 1", "2 2/2"),
    (
        "a rule with a part that is a rule",
        3,
        "0 1 2 0 1 2 0 1 2",
        "0 1/3 2",
        "4 4 4",
    ),
    ("no block", 1, "", "", ""),
    ("blocks without a pair", 7, "-/3", "", "-/3"),
    ("no pair spans two blocks", 2, "0 1/1 0", "", "0 1/1 0"),
    (
        "of pairs that count alike, the smaller left symbol",
        4,
        "2 3 1 0 2 3 1 0",
        "1 0/2 3/5 4",
        "6 6",
    ),
    (
        "of pairs with the same left symbol, the smaller right one",
        3,
        "0 2 0 1 0 2 0 1",
        "0 1/0 2/4 3",
        "5 5",
    ),
    (
        "a pass goes from left to right",
        2,
        "0 0 0 1 0 0 0",
        "0 0/2 0",
        "3 1 3",
    ),
];

// Pairs of numbers between slashes.
fn pairs_of(alloc: Global, words: &str) -> Result<Vec<Pair>, Memory> {
    let mut pairs = Vec::new(alloc);
    for list in lists_of(alloc, words)? {
        if let [left, right] = list.as_slice() {
            pairs.push((*left, *right))?;
        }
    }
    Ok(pairs)
}

// Whether a worked row is what `compress` makes.
fn gives(alloc: Global, row: Row) -> Result<bool, Memory> {
    let (_name, alphabet, blocks, rules, after) = row;
    let grammar = compressed(alloc, alphabet, lists_of(alloc, blocks)?.as_slice())?;
    let rules = pairs_of(alloc, rules)?;
    let after = lists_of(alloc, after)?;
    Ok(has(&grammar, rules.as_slice(), after.as_slice()))
}

#[test]
fn worked_blocks_have_their_rules(rt: HostRuntime) -> Result<(), Fail> {
    for row in ROWS {
        let (name, ..) = row;
        assert!(rt; gives(rt.alloc(), row)?, "{name}");
    }
    Ok(())
}

// Whether `compress` makes what plain programs do, by each of these searches.
fn agrees(
    alloc: Global,
    searches: &[Search],
    alphabet: u32,
    lists: &[Vec<u32>],
) -> Result<bool, Memory> {
    let grammar = compressed(alloc, alphabet, lists)?;
    for &search in searches {
        let plain = plain::compressed(alloc, search, alphabet, lists)?;
        if !has(&grammar, plain.rules.as_slice(), plain.blocks.as_slice()) {
            return Ok(false);
        }
    }
    Ok(true)
}

// So many rounds of random lists of less than so many symbols.
fn rounds_agree(
    alloc: Global,
    random: &mut Random,
    searches: &[Search],
    rounds: u32,
    len: u32,
) -> Result<bool, Memory>
    requires { 0 < len }
{
    for _ in 0..rounds {
        let alphabet = 1 + random.below(4);
        let lists = random.lists(alloc, alphabet, len)?;
        if !agrees(alloc, searches, alphabet, lists.as_slice())? {
            return Ok(false);
        }
    }
    Ok(true)
}

const BOTH: [Search; 2] = [Search::Passes, Search::Counts];

const COUNTS: [Search; 1] = [Search::Counts];

#[test]
fn random_blocks_are_those_of_two_slow_programs(rt: HostRuntime) -> Result<(), Fail> {
    let mut random = Random::new();
    assert!(rt;
        rounds_agree(rt.alloc(), &mut random, &BOTH, 200, 24)?,
        "short lists"
    );
    assert!(rt;
        rounds_agree(rt.alloc(), &mut random, &COUNTS, 60, 400)?,
        "long lists"
    );
    Ok(())
}

// Whether a grammar has so many rules, these for its first and its last, and so many symbols left.
fn has_as_many(grammar: &Grammar, many: usize, ends: (Pair, Pair), left: usize) -> bool {
    let rules = grammar.rules.as_slice();
    let mut symbols = 0usize;
    for block in grammar.blocks.as_slice() {
        symbols = symbols.saturating_add(block.as_slice().len());
    }
    rules.len() == many
        && rules.first().copied() == Some(ends.0)
        && rules.last().copied() == Some(ends.1)
        && symbols == left
}

// Sixteen blocks of 250 symbols at random.
fn many_symbols(alloc: Global) -> Result<Vec<Vec<u32>>, Memory> {
    let mut random = Random::new();
    let mut lists = Vec::new(alloc);
    for _ in 0..16u32 {
        lists.push(random.list(alloc, 6, 250)?)?;
    }
    Ok(lists)
}

// The lists of `LOGS`, each digit a symbol.
fn logs_of(alloc: Global) -> Result<Vec<Vec<u32>>, Memory> {
    let mut lists = Vec::new(alloc);
    for log in LOGS.split('/') {
        lists.push(
            log.bytes()
                .map(|digit| u32::from(digit % 16))
                .collect(alloc)?,
        )?;
    }
    Ok(lists)
}

// Whether random blocks have as many rules as elsewhere.
fn have_random_blocks(alloc: Global) -> Result<bool, Memory> {
    let grammar = compressed(alloc, 6, many_symbols(alloc)?.as_slice())?;
    Ok(has_as_many(&grammar, 171, ((5, 5), (90, 17)), 855))
}

// Whether the logs of 64 objects do, and have those that counting every pair afresh gives.
fn have_logs(alloc: Global) -> Result<bool, Memory> {
    let logs = logs_of(alloc)?;
    let grammar = compressed(alloc, 10, logs.as_slice())?;
    let are_many = has_as_many(&grammar, 282, ((2, 4), (212, 67)), 1721);
    Ok(are_many && agrees(alloc, &COUNTS, 10, logs.as_slice())?)
}

// The numbers are those of a program in another language.
#[test]
fn four_thousand_symbols_have_as_many_rules_as_elsewhere(rt: HostRuntime) -> Result<(), Fail> {
    assert!(rt; have_random_blocks(rt.alloc())?, "blocks at random");
    assert!(rt; have_logs(rt.alloc())?, "logs of 64 objects");
    Ok(())
}
