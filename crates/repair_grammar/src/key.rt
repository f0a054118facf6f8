ghost use Rattle.std.specs.Prelude.{◌≡◌};
ghost use Rattle.std.proofs.Common.{rules};
ghost use Rattle.std.specs.Cmp.{partial_order_from_own_ties};
ghost use Rattle.std.specs.Cmp.Rules.{comparing};
ghost use Rattle.std.specs.Ordering.{as_partial_cmp};
ghost use Rattle.repair_grammar.specs.RePair.{key_order, key_cmp};

use std::cmp::Ordering;

/// A pair of symbols with its count. The greater of two keys is the one that a round takes first.
#[derive(Clone, Copy, PartialEq, Eq, Drop)]
pub struct Key {
    pub count: u32,
    pub pair: (u32, u32),
}

impl Key {
    /// `Less` where a round takes this key before the other.
    #[tactic(auto, unfolding(crate::specs::RePair::key_order))]
    pub fn order(self, other: Key) -> Ordering
        ensures { result ≡ key_order self other }
    {
        other.cmp(&self)
    }
}

impl Ord for Key {
    ghost cmp = { key_cmp };

    ghost total = { Prim.search (comparing, rules) };

    ghost matches_partial_cmp = { Prim.search (comparing, rules) };

    ghost matches_eq = { Prim.search (comparing, rules) };

    fn cmp(&self, other: &Key) -> Ordering {
        self.count
            .cmp(&other.count)
            .then(other.pair.cmp(&self.pair))
    }
}

impl PartialOrd for Key {
    ghost partial_cmp = { as_partial_cmp key_cmp };

    ghost laws = { partial_order_from_own_ties (Prim.search (comparing, rules)) (Prim.search (comparing, rules)) };

    fn partial_cmp(&self, other: &Key) -> Option<Ordering> {
        Some(self.cmp(other))
    }
}
