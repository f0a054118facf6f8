ghost use Rattle.std.specs.Prelude.{◌≡◌, ◌++◌, ◌+◌, ◌≤◌, [], Some, slice_get, IfNone, option_to_list};
ghost use Rattle.step_count.specs.Reads.{is_of_period, ReadsWithin};
ghost use Rattle.snapshots.specs.View.{tree_in};
ghost use Rattle.snapshots.specs.Members.{members_of};
ghost use Rattle.snapshots.specs.declared.next.Next.TheVariants.{First};

use crate::anchored::Anchored;
use crate::next::Next;
use crate::snapshot::Snapshot;
use std::marker::Model;
use step_count::{Reads, Steps};
use track_types::{Cell, Lazy};

/// The blocks whose anchors are in one cell, by object.
///
/// Contracts see the period, the blocks that are left and a bound on the reads that are still to be
/// made for them.
#[derive(Drop)]
pub struct Members<'a> {
    snapshot: &'a Snapshot,
    leaf: u32,
    cell: Cell,
    next: Next,
}

impl<'a> Model for Members<'a> {
    ghost use Rattle.snapshots.specs.Members.{MembersView, members_of, AreMembers};

    ghost Value = { MembersView };

    ghost view = { λ m. members_of m.snapshot.now m.leaf m.next };

    ghost invariant = { λ m. AreMembers m.snapshot.now m.leaf m.cell m.next };
}

impl<'a> Members<'a> {
    pub(crate) fn new(snapshot: &'a Snapshot, leaf: u32, cell: Cell) -> Members<'a>
        requires { slice_get (tree_in snapshot.now).cells leaf ≡ Some cell }
        ensures { result ≡ members_of snapshot.now leaf First }
    {
        Members {
            snapshot,
            leaf,
            cell,
            next: Next::First,
        }
    }
}

impl<'a> Lazy for Members<'a> {
    ghost use Rattle.step_count.specs.Reads.{is_of_period};

    type Item = Anchored;

    ghost left = { λ m. m.blocks };

    ghost budget = { λ m. m.reads };

    ghost needs = { λ m. is_of_period m.period };

    fn draw<L: Reads>(&mut self, steps: &mut Steps<L>) -> Option<Anchored>
        requires may { ReadsWithin (is_of_period self.old.period) L.may }
        ensures found { self.old.blocks ≡ option_to_list result ++ self.new.blocks }
        ensures none { IfNone result (self.old.blocks ≡ []) }
        ensures cost { steps.new + self.new.reads ≤ steps.old + self.old.reads }
        ensures period { self.new.period ≡ self.old.period }
        ensures needs { ReadsWithin (is_of_period self.new.period) (is_of_period self.old.period) }
    {
        let place = match self.next {
            Next::First => self.snapshot.first_place(self.leaf, steps),
            Next::Place(place) => place,
            Next::End => return None,
        };
        let block = self.snapshot.block_in(place, self.cell, steps);
        self.next = if self.snapshot.is_last(place, steps) {
            Next::End
        } else {
            Next::Place(place + 1)
        };
        Some(block)
    }
}
