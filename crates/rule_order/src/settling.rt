ghost use Rattle.std.specs.Prelude.{◌≡◌, ◌^◌, ◌<◌, IfOk, length, map, slice_index};
ghost use Rattle.std.specs.List.{All, range_with_len};
ghost use Rattle.rule_order.specs.Layers.{AreBelow, symbol_count};
ghost use Rattle.rule_order.specs.Order.{new_symbol, settled_rules};

use crate::grammar::Grammar;
use std::alloc::{AllocError, Global};
use track_types::{List32, Memory, PairList};

/// Rules in order, and symbols by the new numbers.
#[derive(Debug, Drop)]
pub struct Settled {
    pub rules: PairList,
    pub symbols: List32,
}

/// Brings the rules of a grammar into order, and gives stored symbols their new numbers.
///
/// Terminals keep their numbers. The layer of a terminal is 0, and that of a rule one more than the
/// greater of its parts' layers. The rules go by layer, then by the new number of the left part, then
/// by that of the right part, and equal ones stay as they stood. A symbol stands for what it stood
/// for.
///
/// The parts of each rule are below its own symbol, each stored symbol is a terminal or a rule, and
/// there are fewer than 2^32 of both. The time is linear but for sorting. While it runs, memory is
/// taken for 28 bytes a rule and 4 bytes a terminal; what it answers has 8 bytes a rule.
pub fn settle(
    alloc: Global,
    alphabet: u32,
    rules: PairList,
    symbols: List32,
) -> Result<Settled, Memory>
    requires below { AreBelow alphabet rules }
    requires known { All (λ symbol. symbol < symbol_count alphabet rules) symbols }
    requires fits { symbol_count alphabet rules < 2 ^ 32 }
    ensures rules { IfOk result (λ settled. settled.rules ≡ settled_rules alphabet rules) }
    ensures symbols { IfOk result (λ settled. settled.symbols ≡ map (new_symbol alphabet rules) symbols) }
{
    let grammar = Grammar {
        alphabet,
        rules: rules.as_slice(),
    };
    let places = grammar.new_symbols(alloc)?;
    let settled = grammar.settled(alloc, places.as_slice())?;
    let renumbered = renumbered(symbols.into_vec(), places.as_slice());
    Ok(Settled {
        rules: PairList::new(settled),
        symbols: List32::new(renumbered),
    })
}

impl Grammar<'_> {
    // The rules in order, by the new number of each symbol.
    fn settled(&self, alloc: Global, places: &[u32]) -> Result<Vec<(u32, u32)>, AllocError>
        requires below { AreBelow self.now.alphabet self.now.rules.now }
        requires places { places.now ≡ map (new_symbol self.now.alphabet self.now.rules.now)
            (range_with_len 0 (symbol_count self.now.alphabet self.now.rules.now)) }
        ensures { IfOk result (λ settled. settled.items ≡ settled_rules self.now.alphabet self.now.rules.now) }
    {
        let mut settled = vec![in alloc; (0, 0); self.rules.len()]?;
        for rule in 0..self.rules.len() {
            let (left, right) = self.rules[rule];
            let symbol = places[self.alphabet as usize + rule];
            settled[(symbol - self.alphabet) as usize] = (
                places[left as usize],
                places[right as usize],
            );
        }
        Ok(settled)
    }
}

// Symbols by their new numbers.
fn renumbered(symbols: Vec<u32>, places: &[u32]) -> Vec<u32>
    requires { All (λ symbol. symbol < length places.now) symbols.items }
    ensures { result.items ≡ map (slice_index places.now) symbols.items }
{
    let mut renumbered = symbols;
    for place in 0..renumbered.len() {
        renumbered[place] = places[renumbered[place] as usize];
    }
    renumbered
}
