ghost use Rattle.std.specs.Prelude.{◌≡◌, ◌≤◌, [], length, take, false, IfOk, OnOk};
ghost use Rattle.std.specs.List.{list_any};
ghost use Rattle.std.specs.Ordering.{eq_by_cmp};
ghost use Rattle.list_laws.specs.Ordered.{insert_in_order};
ghost use Rattle.track_types.specs.ByFilter.{near_order};
ghost use Rattle.nearest_search.specs.Cost.{is_no_farther, last_answer};

use std::alloc::Global;
use std::collections::BTreeMap;
use std::marker::Model;
use track_types::{Cell, Memory, Near};

/// The nearest of the objects that were offered, no more than are wanted, by squared distance, then by
/// object.
///
/// Contracts see how many are wanted, and the kept ones in order.
#[derive(Drop)]
pub(crate) struct Closest {
    wanted: u32,
    kept: BTreeMap<(u128, u32), Cell>,
}

impl Model for Closest {
    ghost use Rattle.nearest_search.specs.Kept.{kept_nears, KeepsAtMost, ClosestView};

    ghost Value = { ClosestView };

    ghost view = { λ c. record { wanted = c.wanted; nears = kept_nears c.kept.entries } };

    ghost invariant = { λ c. KeepsAtMost c.wanted c.kept.entries };
}

impl Closest {
    /// None yet. It takes no memory.
    pub(crate) fn new(alloc: Global, wanted: u32) -> Closest
        ensures wanted { result.wanted ≡ wanted }
        ensures nears { result.nears ≡ [] }
    {
        Closest {
            wanted,
            kept: BTreeMap::new(alloc),
        }
    }

    /// Keeps an object if it is among the nearest so far, in the place of the farthest where as many are
    /// kept as are wanted.
    pub(crate) fn offer(&mut self, near: Near) -> Result<(), Memory>
        requires apart { list_any (eq_by_cmp near_order near) self.old.nears ≡ false }
        ensures wanted { self.new.wanted ≡ self.old.wanted }
        ensures nears { OnOk result (
            self.new.nears ≡ take self.old.wanted (insert_in_order near_order near self.old.nears)) }
    {
        let rank = (near.dist2, near.object);
        if self.kept.len() >= self.wanted as usize {
            match self.kept.last_key_value() {
                Some((last, _)) if rank.cmp(last).is_lt() => {}
                _ => return Ok(()),
            }
            self.kept.pop_last();
        }
        self.kept.insert(rank, near.cell)?;
        Ok(())
    }

    /// Whether an object at a squared distance may belong to the nearest: fewer are kept than are
    /// wanted, or the last of them is at least as far. Of two that are as far the lesser object comes
    /// first.
    pub(crate) fn has_room_for(&self, dist2: u128) -> bool
        ensures { result ≡ is_no_farther (last_answer self.now.wanted self.now.nears) dist2 }
    {
        if self.kept.len() < self.wanted as usize {
            return true;
        }
        match self.kept.last_key_value() {
            Some((last, _)) => dist2 <= last.0,
            None => true,
        }
    }

    /// The kept ones in order.
    pub(crate) fn into_vec(self, alloc: Global) -> Result<Vec<Near>, Memory>
        ensures { IfOk result (λ nears. nears.items ≡ self.nears) }
    {
        let mut nears = Vec::with_capacity(alloc, self.kept.len())?;
        for ((dist2, object), cell) in self.kept {
            nears.push(Near {
                object,
                cell,
                dist2,
            })?;
        }
        Ok(nears)
    }
}
