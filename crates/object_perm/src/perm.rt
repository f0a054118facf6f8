ghost use Rattle.std.specs.Prelude.{◌≡◌, ◌+◌, ◌^◌, ◌<◌, ◌≤◌, length, slice_index, IfErr, IfOk, OnOk};
ghost use Rattle.object_perm.specs.Cost.{at_reads, inverse_reads};
ghost use Rattle.object_perm.specs.Permutation.{PermutesPlaces, inverse_of};
ghost use Rattle.object_perm.specs.Fault.{IsPermFault};
ghost use Rattle.object_perm.specs.Shortcuts.{LeadsTo, CostsWalk};

use crate::cycles::find_shortcuts;
use crate::fault::PermFault;
use crate::flaws::find_flaw;
use crate::shortcuts::Shortcuts;
use std::alloc::Global;
use std::marker::Model;
use std::sync::ledger::Ledger;
use step_count::{CountedList, Steps};
use track_types::{List32, Memory};

/// A permutation of the places 0 to its length - 1, which are fewer than 2^32.
///
/// By shortcuts `inverse` finds a place without walking its whole cycle. They are the back pointers of Munro, Raman,
/// Raman and Rao ("Succinct representations of permutations", 2003). Along each cycle longer than 16 every 16th
/// element, counted from the cycle's least, leads back to the 16th before it.
#[derive(Drop)]
pub struct Perm {
    values: CountedList<u32>,
    shortcuts: Shortcuts,
}

impl Model for Perm {
    ghost use Rattle.std.specs.Prelude.{ℕ, List};
    ghost use Rattle.object_perm.specs.Shortcuts.{HasShortcuts};

    ghost Value = { List ℕ };

    ghost view = { λ perm. perm.values };

    ghost invariant = { λ perm. HasShortcuts perm.values perm.shortcuts };
}

impl Perm {
    /// Takes a list as a permutation and makes its shortcuts, in time linear in its length.
    ///
    /// `Flaw` says at which place the list first fails to be a permutation. Memory is taken for the
    /// shortcuts, and for marks while the call runs.
    pub fn check(alloc: Global, list: List32) -> Result<Perm, PermFault>
        requires { length list < 2 ^ 32 }
        ensures ok { IfOk result (λ perm. perm ≡ list) }
        ensures exact { OnOk result (PermutesPlaces list) }
        ensures flaw { IfErr result (λ fault. IsPermFault list fault) }
    {
        if let Some(index) = find_flaw(alloc, list.as_slice())? {
            return Err(PermFault::Flaw { index });
        }
        Ok(Perm::of_permutation(alloc, list)?)
    }

    /// The same for a list that is known to be a permutation, which is not judged again. Memory is taken for the shortcuts,
    /// and for marks of the cycles while the call runs; `Memory` is its only refusal.
    pub fn of_permutation(alloc: Global, list: List32) -> Result<Perm, Memory>
        requires short { length list < 2 ^ 32 }
        requires permutes { PermutesPlaces list }
        ensures ok { IfOk result (λ perm. perm ≡ list) }
    {
        let targets = find_shortcuts(alloc, list.as_slice())?;
        let shortcuts = Shortcuts::pack(alloc, targets.as_slice())?;
        Ok(Perm {
            values: CountedList::new(list.into_vec()),
            shortcuts,
        })
    }

    /// How many places there are.
    pub fn len(&self) -> u32
        ensures value { result ≡ length self.now }
        ensures permutes { PermutesPlaces self.now }
    {
        self.values.len() as u32
    }

    /// The value at the place `i`, in one read.
    pub fn at<L: Ledger>(&self, i: u32, steps: &mut Steps<L>) -> u32
        requires { i < length self.now }
        ensures value { result ≡ slice_index self.now i }
        ensures within { result < length self.now }
        ensures cost { steps.new ≤ steps.old + at_reads }
    {
        self.value_at(i, steps)
    }

    /// The place at which the value `v` stands, in at most 33 reads.
    pub fn inverse<L: Ledger>(&self, v: u32, steps: &mut Steps<L>) -> u32
        requires { v < length self.now }
        ensures value { slice_index self.now result ≡ v }
        ensures exact { result ≡ inverse_of self.now v }
        ensures within { result < length self.now }
        ensures cost { steps.new ≤ steps.old + inverse_reads }
    {
        let mut place = v;
        loop {
            if let Some(target) = self.shortcuts.get(place, steps) {
                return self.walk_to(v, target, steps);
            }
            let next = self.value_at(place, steps);
            if next == v {
                return place;
            }
            place = next;
        }
    }

    /// Gives the list back that the permutation was checked from, and the permutation is gone. It
    /// takes no memory.
    pub fn into_list(self) -> List32
        ensures { result ≡ self }
    {
        List32::new(self.values.into_vec())
    }

    // The place at which `v` stands, by a walk from a place that is at most 16 moves before it.
    fn walk_to<L: Ledger>(&self, v: u32, from: u32, steps: &mut Steps<L>) -> u32
        requires within { from < length self.now }
        requires near { LeadsTo self.now from v }
        ensures value { slice_index self.now result ≡ v }
        ensures within { result < length self.now }
        ensures cost { CostsWalk self.now from v steps.old steps.new }
    {
        let mut place = from;
        let mut next = self.value_at(place, steps);
        while next != v {
            place = next;
            next = self.value_at(place, steps);
        }
        place
    }

    // Reads the value at a place.
    fn value_at<L: Ledger>(&self, i: u32, steps: &mut Steps<L>) -> u32
        requires { i < length self.now }
        ensures value { result ≡ slice_index self.now i }
        ensures within { result < length self.now }
        ensures cost { steps.new ≡ steps.old + 1 }
    {
        self.values.at(i as usize, steps)
    }
}
