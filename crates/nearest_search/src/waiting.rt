ghost use Rattle.std.specs.Prelude.{◌≡◌};
ghost use Rattle.std.proofs.Common.{rules};
ghost use Rattle.std.specs.Cmp.{partial_order_from_own_ties};
ghost use Rattle.std.specs.Cmp.Rules.{comparing};
ghost use Rattle.std.specs.Ordering.{as_partial_cmp, on};
ghost use Rattle.std.specs.Prelude.{nat_eq};
ghost use Rattle.nearest_search.specs.Waiting.{element_cmp};

use box_tree::NodeRef;
use std::cmp::Ordering;

/// What waits in a search: a node of the tree of squares, or the place of a block.
#[derive(Clone, Copy)]
pub(crate) enum Waiting {
    Node(NodeRef),
    Place(u32),
}

/// What waits, with its key: no answer in it has a squared distance below that. The greatest is the one
/// with the least key.
#[derive(Clone, Copy)]
pub(crate) struct Element {
    pub(crate) key: u128,
    pub(crate) waiting: Waiting,
}

impl PartialEq for Element {
    ghost eq = { on (λ e. e.key) nat_eq };

    ghost laws = { Prim.search (comparing, rules) };

    fn eq(&self, other: &Element) -> bool {
        self.key == other.key
    }
}

impl Eq for Element {
    ghost laws = { Prim.search (comparing, rules) };
}

impl PartialOrd for Element {
    ghost partial_cmp = { as_partial_cmp element_cmp };

    ghost laws = { partial_order_from_own_ties (Prim.search (comparing, rules)) (Prim.search (comparing, rules)) };

    fn partial_cmp(&self, other: &Element) -> Option<Ordering> {
        Some(self.cmp(other))
    }
}

impl Ord for Element {
    ghost cmp = { element_cmp };

    ghost total = { Prim.search (comparing, rules) };

    ghost matches_partial_cmp = { Prim.search (comparing, rules) };

    ghost matches_eq = { Prim.search (comparing, rules) };

    fn cmp(&self, other: &Element) -> Ordering {
        other.key.cmp(&self.key)
    }
}
