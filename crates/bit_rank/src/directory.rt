ghost use Rattle.std.specs.Prelude.{◌≡◌, ◌+◌, ◌≤◌, Some, ◌∷◌, IfOk, length, slice_get};

use crate::entries::Entries;
use std::alloc::{AllocError, Global};
use std::marker::Model;
use std::sync::ledger::Ledger;
use step_count::{CountedList, Steps};

/// The directory of a bit vector. Contracts see its counts and its samples.
///
/// A vector of one superblock, or of none, has no entries, and its directory takes no memory.
#[derive(Drop)]
pub struct Directory {
    entries: Option<Box<Entries>>,
}

impl Model for Directory {
    ghost use Rattle.bit_rank.specs.declared.entries.Entries.{Entries};
    ghost use Rattle.bit_rank.specs.Directory.{entries_in};

    ghost Value = { Entries };

    ghost view = { λ directory. entries_in directory.entries };
}

impl Directory {
    /// The directory of these counts and samples.
    pub fn new(alloc: Global, counts: Vec<u32>, samples: Vec<u32>) -> Result<Directory, AllocError>
        ensures counts { IfOk result (λ directory. directory.counts ≡ counts.items) }
        ensures samples { IfOk result (λ directory. directory.samples ≡ samples.items) }
    {
        if counts.is_empty() && samples.is_empty() {
            return Ok(Directory { entries: None });
        }
        let entries = Entries {
            counts: CountedList::new(counts),
            samples: CountedList::new(samples),
        };
        Ok(Directory {
            entries: Some(Box::new(alloc, entries)?),
        })
    }

    /// How many samples there are. Nothing is counted.
    pub fn samples(&self) -> usize
        ensures { result ≡ length self.now.samples }
    {
        match &self.entries {
            Some(entries) => entries.samples.len(),
            None => 0,
        }
    }

    /// The number of ones before a superblock, by at most one read.
    pub fn count_before<L: Ledger>(&self, superblock: u32, steps: &mut Steps<L>) -> u32
        requires { superblock ≤ length self.now.counts }
        ensures value { slice_get (0 ∷ self.now.counts) superblock ≡ Some result }
        ensures cost { steps.new ≤ steps.old + 1 }
    {
        match &self.entries {
            Some(entries) => entry(&entries.counts, superblock, steps),
            None => 0,
        }
    }

    /// The sample of a number, by at most one read. The sample 0 is the first superblock.
    pub fn sample<L: Ledger>(&self, number: u32, steps: &mut Steps<L>) -> u32
        requires { number ≤ length self.now.samples }
        ensures value { slice_get (0 ∷ self.now.samples) number ≡ Some result }
        ensures cost { steps.new ≤ steps.old + 1 }
    {
        match &self.entries {
            Some(entries) => entry(&entries.samples, number, steps),
            None => 0,
        }
    }
}

// Reads a list whose first element, 0, is not stored.
fn entry<L: Ledger>(list: &CountedList<u32>, place: u32, steps: &mut Steps<L>) -> u32
    requires { place ≤ length list.now }
    ensures value { slice_get (0 ∷ list.now) place ≡ Some result }
    ensures cost { steps.new ≤ steps.old + 1 }
{
    if place == 0 {
        return 0;
    }
    list.at(place as usize - 1, steps)
}
