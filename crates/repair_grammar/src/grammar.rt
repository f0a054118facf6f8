ghost use Rattle.std.specs.Prelude.{◌≡◌, ℕ, ◌<◌, ◌≤◌, length, IfOk};
ghost use Rattle.std.specs.List.{sum, sum_by};
ghost use Rattle.track_types.specs.Limits.{limit_of};
ghost use Rattle.track_types.specs.declared.limit.LimitKind.TheVariants.{Symbols};
ghost use Rattle.track_types.specs.declared.limit.TheConstants.{MAX_SYMBOLS};
ghost use Rattle.repair_grammar.specs.GrammarOf.{IsGrammarOf};
ghost use Rattle.repair_grammar.specs.Blocks.{blocks_in, joined_grammar};
ghost use Rattle.repair_grammar.specs.RePair.{AreBelow, pair_count, re_pair};

use crate::blocks::{JoinedBlocks, blocks_in, joined_blocks};
use crate::compressing::by_places;
use std::alloc::Global;
use track_types::{Lists32, Memory, PairList};

/// Rules, and the blocks of symbols that they shorten. Of an alphabet of `alphabet` symbols, rule j
/// stands for two symbols side by side and has the symbol `alphabet + j`.
#[derive(Debug, Drop)]
pub struct Grammar {
    /// The left and the right symbol that each rule stands for, in the order of their own symbols.
    pub rules: PairList,
    /// The symbols of each block after all rules.
    pub blocks: Lists32,
}

/// A `Grammar` whose blocks stand one after the other.
#[derive(Debug, Drop)]
pub struct JoinedGrammar {
    /// The left and the right symbol that each rule stands for, in the order of their own symbols.
    pub rules: PairList,
    /// The symbols of all blocks after all rules.
    pub blocks: JoinedBlocks,
}

/// The rules and blocks of Re-Pair, round by round: the pair that counts most gets a rule, and its
/// symbol takes the pair's place, until no pair counts two.
///
/// A pair's count is the number of replacements that one pass from left to right through each block
/// makes. Of pairs that count alike the smaller left symbol goes first, and then the smaller right
/// one. Symbols are below `alphabet`. It answers `Memory` where memory runs out, and where blocks and
/// symbols together are 2^32 - 2 or more.
pub fn compress(alloc: Global, alphabet: u32, blocks: &Lists32) -> Result<Grammar, Memory>
    requires below { AreBelow alphabet blocks.now }
    requires few { sum_by length blocks.now ≤ limit_of Symbols }
    requires small { alphabet ≤ MAX_SYMBOLS }
    ensures ok { IfOk result (λ grammar. grammar ≡ re_pair alphabet blocks.now) }
    ensures sound { IfOk result (IsGrammarOf alphabet blocks.now) }
    ensures done { IfOk result (λ grammar. (pair : ℕ × ℕ) → pair_count grammar.blocks pair < 2) }
{
    let joined = joined_blocks(alloc, blocks.as_slice())?;
    let JoinedGrammar { rules, blocks } = compress_joined(alloc, alphabet, joined)?;
    Ok(Grammar {
        rules,
        blocks: Lists32::new(blocks_in(alloc, &blocks)?),
    })
}

/// The rules and blocks that `compress` gives, of and with blocks one after the other. The old blocks
/// are dropped before rules are made, so that they take no memory meanwhile.
pub fn compress_joined(
    alloc: Global,
    alphabet: u32,
    blocks: JoinedBlocks,
) -> Result<JoinedGrammar, Memory>
    requires whole { sum blocks.lengths ≡ length blocks.symbols }
    requires below { AreBelow alphabet (blocks_in blocks) }
    requires few { sum_by length (blocks_in blocks) ≤ limit_of Symbols }
    requires small { alphabet ≤ MAX_SYMBOLS }
    ensures ok { IfOk result (λ grammar. grammar ≡ joined_grammar (re_pair alphabet (blocks_in blocks))) }
{
    by_places(alloc, alphabet, blocks)
}
