ghost use Rattle.std.specs.Prelude.{◌≡◌, None, IfSome};
ghost use Rattle.k2_tree.specs.Pruned.{pruned_tree};
ghost use Rattle.snapshots.specs.View.{tree_in};
ghost use Rattle.std.proofs.Props.{props};

use crate::anchored::Anchored;
use crate::members::Members;
use crate::snapshot::Snapshot;
use k2_tree::{Keep, Pruned};
use step_count::{Reads, Steps};
use track_types::Lazy;

/// The blocks whose anchors lie in squares that pass a test, by leaf, then by object.
#[derive(Drop)]
pub struct ObjectsIn<'a, F> {
    snapshot: &'a Snapshot,
    pruned: Pruned<'a, F>,
    members: Option<Members<'a>>,
    ghost same: { pruned_tree pruned ≡ tree_in snapshot.now } by { Prim.hlevel props },
    ghost begun: { IfSome members (λ m. m.period ≡ snapshot.now.number) } by { Prim.hlevel props },
}

impl<'a, F> ObjectsIn<'a, F> {
    pub(crate) fn new(snapshot: &'a Snapshot, pruned: Pruned<'a, F>) -> Self
        requires { pruned_tree pruned ≡ tree_in snapshot.now }
        ensures snapshot { result.snapshot.now ≡ snapshot.now }
        ensures pruned { result.pruned ≡ pruned.entry }
        ensures members { result.members ≡ None }
    {
        ObjectsIn {
            snapshot,
            pruned,
            members: None,
        }
    }
}

impl<'a, F: Keep> Lazy for ObjectsIn<'a, F> {
    ghost use Rattle.snapshots.specs.Objects.{objects_budget, objects_left, objects_needs};

    type Item = Anchored;

    ghost left = { objects_left F.keeps };

    ghost budget = { objects_budget F.keeps };

    ghost needs = { objects_needs };

    fn draw<L: Reads>(&mut self, steps: &mut Steps<L>) -> Option<Anchored> {
        loop {
            if let Some(members) = &mut self.members {
                if let Some(block) = members.draw(steps) {
                    return Some(block);
                }
            }
            let (leaf, cell) = self.pruned.draw(steps)?;
            self.members = Some(self.snapshot.members(leaf, cell));
        }
    }
}
