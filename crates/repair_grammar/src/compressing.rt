ghost use Rattle.std.specs.Prelude.{◌≡◌, ◌≤◌, length, IfOk};
ghost use Rattle.std.specs.List.{sum, sum_by};
ghost use Rattle.track_types.specs.declared.limit.TheConstants.{MAX_SYMBOLS};
ghost use Rattle.repair_grammar.specs.Blocks.{blocks_in, joined_grammar};
ghost use Rattle.repair_grammar.specs.RePair.{AreBelow, re_pair};

use crate::blocks::JoinedBlocks;
use crate::choosing::{first_pair, settle};
use crate::grammar::JoinedGrammar;
use crate::keys::Keys;
use crate::passing::replace_all;
use crate::rows::{blocks_from, row};
use crate::symbol_row::SymbolRow;
use crate::tallying::count_row;
use std::alloc::Global;
use track_types::{Memory, PairList};

/// The rules and blocks of Re-Pair, by changing in each round only what its pair's places change.
pub fn by_places(
    alloc: Global,
    alphabet: u32,
    blocks: JoinedBlocks,
) -> Result<JoinedGrammar, Memory>
    requires whole { sum blocks.lengths ≡ length blocks.symbols }
    requires below { AreBelow alphabet (blocks_in blocks) }
    requires few { sum_by length (blocks_in blocks) ≤ MAX_SYMBOLS }
    requires small { alphabet ≤ MAX_SYMBOLS }
    ensures ok { IfOk result (λ grammar. grammar ≡ joined_grammar (re_pair alphabet (blocks_in blocks))) }
{
    let symbols = row(alloc, &blocks)?;
    drop(blocks);
    // Places take 32 bits.
    if symbols.len() >= u32::MAX as usize {
        return Err(Memory);
    }
    let mut pairs = count_row(alloc, symbols.as_slice())?;
    let mut row = SymbolRow::new(alloc, symbols)?;
    let mut keys = Keys::new(alloc);
    settle(&mut pairs, &mut keys)?;
    let mut rules = Vec::new(alloc);
    let mut places = Vec::new(alloc);
    'rounds: while let Some(pair) = first_pair(&pairs, &mut keys)? {
        let symbol = alphabet + rules.len() as u32;
        rules.push(pair)?;
        pairs.copy_places(pair, &mut places)?;
        replace_all(alloc, &mut row, &mut pairs, places.as_slice(), pair, symbol)?;
        settle(&mut pairs, &mut keys)?;
    }
    drop(pairs);
    Ok(JoinedGrammar {
        rules: PairList::new(rules),
        blocks: blocks_from(alloc, row.into_symbols())?,
    })
}
