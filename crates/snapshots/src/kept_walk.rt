ghost use Rattle.std.specs.Prelude.{◌≡◌};
ghost use Rattle.box_tree.specs.BoxWalk.{walked_tree};
ghost use Rattle.std.proofs.Props.{props};

use crate::anchored::Anchored;
use crate::track_tree::TrackTree;
use box_tree::{BoxWalk, Search};
use step_count::{Reads, Steps};
use track_types::Lazy;

/// The blocks of those that are kept that may hold what is sought, in leaf order.
#[derive(Drop)]
pub struct KeptWalk<'a, S> {
    pub kept: &'a TrackTree,
    pub walk: BoxWalk<'a, S>,
    ghost same: { walked_tree walk ≡ kept.now.tree } by { Prim.hlevel props },
}

impl<'a, S: Search> Lazy for KeptWalk<'a, S> {
    ghost use Rattle.snapshots.specs.TrackWalk.{kept_budget, kept_left, kept_needs};

    type Item = Anchored;

    ghost left = { kept_left S.squares S.boxes };

    ghost budget = { kept_budget S.squares S.boxes };

    ghost needs = { kept_needs };

    fn draw<L: Reads>(&mut self, steps: &mut Steps<L>) -> Option<Anchored> {
        let place = self.walk.draw(steps)?;
        Some(self.kept.block(place, steps))
    }
}
