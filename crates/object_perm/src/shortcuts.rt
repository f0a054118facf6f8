ghost use Rattle.std.specs.Prelude.{◌≡◌, ℕ, ◌+◌, ◌^◌, ◌<◌, ◌≤◌, None, length, slice_index_or, IfOk, MatchOption};
ghost use Rattle.object_perm.specs.Shortcuts.{HoldsShortcuts};

use crate::group::{Group, PLACES, count_before, is_marked, pack_group};
use std::alloc::Global;
use std::marker::Model;
use std::sync::ledger::Ledger;
use step_count::{CountedList, Steps};
use track_types::Memory;

/// The shortcuts of a permutation: for each place the target, if it has one.
///
/// The targets stand packed in the order of their places. A directory has a word for each 32 places:
/// a mark at each place that has a target, and how many targets stand before it. Contracts see the list
/// of all places of the groups.
#[derive(Drop)]
pub struct Shortcuts {
    groups: CountedList<Group>,
    targets: CountedList<u32>,
}

impl Model for Shortcuts {
    ghost use Rattle.std.specs.Prelude.{ℕ, List, Option};
    ghost use Rattle.object_perm.specs.Marks.{shortcuts_of, HasTargets};

    ghost Value = { List (Option ℕ) };

    ghost view = { λ s. shortcuts_of s.groups s.targets };

    ghost invariant = { λ s. HasTargets s.groups s.targets };
}

impl Shortcuts {
    /// The shortcuts of a list, packed, with places without one up to the end of the last group.
    pub fn pack(alloc: Global, places: &[Option<u32>]) -> Result<Shortcuts, Memory>
        requires { length places.now < 2 ^ 32 }
        ensures { IfOk result (HoldsShortcuts places.now) }
    {
        let mut groups = Vec::new(alloc);
        let mut targets = Vec::new(alloc);
        for chunk in places.chunks(PLACES as usize) {
            groups.push(pack_group(chunk, &mut targets)?)?;
        }
        Ok(Shortcuts {
            groups: CountedList::new(groups),
            targets: CountedList::new(targets),
        })
    }

    /// The target of the place's shortcut, if it has one: one read of a group, and where it has, one
    /// of the target.
    pub fn get<L: Ledger>(&self, place: u32, steps: &mut Steps<L>) -> Option<u32>
        requires { place < length self.now }
        ensures value { result ≡ slice_index_or self.now place None }
        ensures cost { MatchOption result (steps.new ≡ steps.old + 1) (λ _. steps.new ≡ steps.old + 2) }
    {
        let (marks, before) = self.groups.at((place / PLACES) as usize, steps);
        let bit = place % PLACES;
        if !is_marked(marks, bit) {
            return None;
        }
        let target = before + count_before(marks, bit);
        Some(self.targets.at(target as usize, steps))
    }
}
