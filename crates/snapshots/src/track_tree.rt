ghost use Rattle.std.specs.Prelude.{◌≡◌, length};
ghost use Rattle.std.proofs.Props.{props};

use box_tree::BoxTree;
use step_count::CountedList;

/// What is kept of the blocks of a period for searches, in leaf order.
#[derive(Drop)]
pub struct TrackTree {
    /// The number of the period, for contracts alone: it takes no bytes.
    pub number: std::snapshot::Snapshot<u32>,
    /// Their cells and the boxes of their tracks.
    pub tree: BoxTree,
    /// How many instants after the period's first each begins, and where its log does.
    pub begins: CountedList<(u32, u32)>,
    /// How many symbols its log has, and its object's place.
    pub logs: CountedList<(u32, u32)>,
    ghost begun: { length begins ≡ length tree.places.codes } by { Prim.hlevel props },
    ghost logged: { length logs ≡ length tree.places.codes } by { Prim.hlevel props },
}
