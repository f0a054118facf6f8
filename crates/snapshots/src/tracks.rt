ghost use Rattle.std.specs.Prelude.{◌≡◌, ◌+◌, ◌*◌, ◌≤◌, length, map};
ghost use Rattle.box_tree.specs.BoxWalk.{found_places, search_reads};
ghost use Rattle.snapshots.specs.Cost.{record_reads};
ghost use Rattle.snapshots.specs.TrackWalk.{block_kept, kept_budget, kept_left};

use crate::anchored::Anchored;
use crate::kept_walk::KeptWalk;
use crate::track_tree::TrackTree;
use box_tree::{BoxWalk, Search};
use step_count::{Reads, Steps};
use track_types::Lazy;

/// The blocks of a period that may hold what is sought, in leaf order.
#[derive(Drop)]
pub struct Tracks<'a, S> {
    // A period without a block keeps nothing to go through.
    walk: Option<KeptWalk<'a, S>>,
}

impl<'a, S> Tracks<'a, S> {
    pub(crate) fn new(walk: Option<KeptWalk<'a, S>>) -> Tracks<'a, S>
        ensures { result.walk ≡ walk.entry }
    {
        Tracks { walk }
    }
}

impl<'a, S: Search> KeptWalk<'a, S> {
    /// The blocks whose cell and whose track's box meet what is asked.
    pub fn new(kept: &'a TrackTree, search: S) -> KeptWalk<'a, S>
        ensures kept { result.kept.now ≡ kept.now }
        ensures left { kept_left S.squares S.boxes result ≡ map (block_kept kept.now)
            (found_places (S.squares search) (S.boxes search) kept.now.tree) }
        ensures budget { kept_budget S.squares S.boxes result
            ≤ search_reads (S.squares search) kept.now.tree + record_reads
            * length (found_places (S.squares search) (S.boxes search) kept.now.tree) }
    {
        let walk = BoxWalk::new(&kept.tree, search);
        KeptWalk { kept, walk }
    }
}

impl<'a, S: Search> Lazy for Tracks<'a, S> {
    ghost use Rattle.snapshots.specs.TrackWalk.{tracks_budget, tracks_left, tracks_needs};

    type Item = Anchored;

    ghost left = { tracks_left S.squares S.boxes };

    ghost budget = { tracks_budget S.squares S.boxes };

    ghost needs = { tracks_needs };

    fn draw<L: Reads>(&mut self, steps: &mut Steps<L>) -> Option<Anchored> {
        match &mut self.walk {
            Some(walk) => walk.draw(steps),
            None => None,
        }
    }
}
