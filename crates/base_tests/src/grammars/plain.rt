use std::alloc::Global;
use std::collections::HashMap;
use track_types::Memory;

// A left and a right symbol.
pub type Pair = (u32, u32);

// Rules, and the blocks after them.
#[derive(Drop)]
pub struct Plain {
    pub rules: Vec<Pair>,
    pub blocks: Vec<Vec<u32>>,
}

// How a round finds its pair: by a pass for each pair that there may be, or by counting those that there are.
#[derive(Clone, Copy, Drop)]
pub enum Search {
    Passes,
    Counts,
}

// Re-Pair as it is defined, round by round.
pub fn compressed(
    alloc: Global,
    search: Search,
    alphabet: u32,
    lists: &[Vec<u32>],
) -> Result<Plain, Memory> {
    let mut rules = Vec::new(alloc);
    let mut blocks = Vec::new(alloc);
    for list in lists {
        blocks.push(list.as_slice().to_vec(alloc)?)?;
    }
    for symbol in alphabet..u32::MAX {
        let Some(pair) = best_pair(alloc, search, blocks.as_slice(), symbol)? else {
            break;
        };
        rules.push(pair)?;
        blocks = all_passed(alloc, blocks.as_slice(), pair, symbol)?;
    }
    Ok(Plain { rules, blocks })
}

// The first of the pairs below a symbol that count most, if that is two.
fn best_pair(
    alloc: Global,
    search: Search,
    blocks: &[Vec<u32>],
    symbol: u32,
) -> Result<Option<Pair>, Memory> {
    match search {
        Search::Passes => best_of_passes(alloc, blocks, symbol),
        Search::Counts => best_of_counts(alloc, blocks),
    }
}

// The block after a pass that keeps the symbols on a stack. A symbol just put there is closed.
fn passed(alloc: Global, block: &[u32], pair: Pair, symbol: u32) -> Result<Vec<u32>, Memory> {
    let mut stack = Vec::new(alloc);
    let mut open = false;
    for right in block {
        let last = stack.pop();
        if open && last == Some(pair.0) && *right == pair.1 {
            stack.push(symbol)?;
            open = false;
        } else {
            if let Some(left) = last {
                stack.push(left)?;
            }
            stack.push(*right)?;
            open = true;
        }
    }
    Ok(stack)
}

// All blocks after a pass.
fn all_passed(
    alloc: Global,
    blocks: &[Vec<u32>],
    pair: Pair,
    symbol: u32,
) -> Result<Vec<Vec<u32>>, Memory> {
    let mut after = Vec::new(alloc);
    for block in blocks {
        after.push(passed(alloc, block.as_slice(), pair, symbol)?)?;
    }
    Ok(after)
}

// How many symbols the blocks have.
fn symbols_in(blocks: &[Vec<u32>]) -> usize {
    let mut symbols = 0usize;
    for block in blocks {
        symbols = symbols.saturating_add(block.len());
    }
    symbols
}

// The first of all pairs below a symbol, in order, whose passes take the most symbols away, if two.
fn best_of_passes(alloc: Global, blocks: &[Vec<u32>], symbol: u32) -> Result<Option<Pair>, Memory> {
    let mut best = None;
    let mut most = 1;
    for left in 0..symbol {
        for right in 0..symbol {
            let after = all_passed(alloc, blocks, (left, right), symbol)?;
            let saved = symbols_in(blocks).saturating_sub(symbols_in(after.as_slice()));
            if saved > most {
                most = saved;
                best = Some((left, right));
            }
        }
    }
    Ok(best)
}

// How often pairs count.
type Counts = HashMap<Pair, u32>;

// Counts the pairs of a block. In a run of one symbol every second pair overlaps the one before it.
fn count_block(counts: &mut Counts, block: &[u32]) -> Result<(), Memory> {
    let mut before = None;
    let mut taken = false;
    for right in block {
        if let Some(left) = before {
            let overlaps = taken && left == *right;
            if !overlaps {
                let pair = (left, *right);
                let count = counts.get(&pair).copied().unwrap_or(0);
                counts.insert(pair, count.saturating_add(1))?;
            }
            taken = left == *right && !overlaps;
        }
        before = Some(*right);
    }
    Ok(())
}

// The first of the pairs that count most, if that is two.
fn best_of_counts(alloc: Global, blocks: &[Vec<u32>]) -> Result<Option<Pair>, Memory> {
    let mut counts = HashMap::new(alloc);
    for block in blocks {
        count_block(&mut counts, block.as_slice())?;
    }
    Ok(most_counted(&counts))
}

// The pair that counts most, and of those that count alike the first.
fn most_counted(counts: &Counts) -> Option<Pair> {
    let mut best = None;
    let mut most = 1;
    for (pair, count) in counts.iter() {
        if *count > most || *count == most && Some(*pair) < best {
            most = *count;
            best = Some(*pair);
        }
    }
    best
}
