ghost use Rattle.std.specs.Prelude.{◌≡◌, ◌+◌, ◌++◌, ◌<◌, ◌≤◌, [], false, length, option_map};
ghost use Rattle.step_count.specs.Reads.{ReadsWithin};
ghost use Rattle.std.specs.Prelude.{replicate, slice_index, All, IfOk, OnOk};
ghost use Rattle.std.specs.List.{sum_by};
ghost use Rattle.std.specs.List.Sorted.{IsNonDecreasingBy, IsPermutation};
ghost use Rattle.std.specs.Option.{option_to_list};
ghost use Rattle.snapshots.specs.Parts.{rules_in, snapshot_in};
ghost use Rattle.snapshots.specs.Sound.{IsBlock};
ghost use Rattle.slice_search.specs.Needs.{period_needs};
ghost use Rattle.slice_search.specs.Sought.{first_stop_in, log_reads, AreSought};
ghost use Rattle.interval_search.specs.FirstHits.{hit_at, is_known, known_after, AreFirst};

use log_cursor::Pending;
use slice_search::Sought;
use snapshots::Anchored;
use std::alloc::Global;
use step_count::{Reads, Steps};
use track_types::{Hit, Lazy, Memory};

/// The first hits that a search has found, and which objects have one.
#[derive(Drop)]
pub struct FirstHits {
    found: Vec<Hit>,
    // For each object, by its place, whether its first hit is found.
    known: Vec<bool>,
}

impl FirstHits {
    /// No hit of so many objects.
    pub fn none(alloc: Global, objects: u32) -> Result<FirstHits, Memory>
        ensures found { IfOk result (λ hits. hits.found.items ≡ []) }
        ensures known { IfOk result (λ hits. hits.known.items ≡ replicate objects false) }
    {
        let mut known = Vec::new(alloc);
        known.resize(objects as usize, false)?;
        Ok(FirstHits {
            found: Vec::new(alloc),
            known,
        })
    }

    /// Takes the first hits that the blocks of a walk have. It skips the objects that are known:
    /// they have an earlier hit, and their logs are not opened. One stack serves all the logs.
    pub fn look<'a, W: Lazy<Item = Anchored>, L: Reads>(
        &mut self,
        pending: &mut Pending<'a>,
        sought: &Sought<'a>,
        blocks: &mut W,
        steps: &mut Steps<L>,
    ) -> Result<(), Memory>
        requires first { AreFirst sought.now.stores.now sought.now.from sought.now.to
            sought.now.test.now.region sought.now.period self.old.known.items self.old.found.items }
        requires rules { pending.old.rules ≡ rules_in sought.now.stores.now }
        requires blocks { AreSought sought.now.stores.now sought.now.period sought.now.from
            sought.now.to sought.now.test.now.region (W.left blocks.old) }
        requires may { ReadsWithin (W.needs blocks.old) L.may }
        requires logs { ReadsWithin (period_needs sought.now.stores.now sought.now.period
            sought.now.from sought.now.to sought.now.test.now.region) L.may }
        ensures first { OnOk result (AreFirst sought.now.stores.now sought.now.from sought.now.to
            sought.now.test.now.region (sought.now.period + 1) self.new.known.items
            self.new.found.items) }
        ensures rules { pending.new.rules ≡ pending.old.rules }
        ensures cost { steps.new ≤ steps.old + (W.budget blocks.old + sum_by (log_reads
            sought.now.stores.now sought.now.period sought.now.from sought.now.to
            sought.now.test.now.region) (W.left blocks.old)) }
    {
        let _ = sought.stores.frame(); // says what holds of every index
        while let Some(block) = blocks.draw(steps) {
            if !self.known[block.index as usize] {
                self.look_into(pending, sought, &block, steps)?;
            }
        }
        Ok(())
    }

    // Takes the first hit that a block has, if any, of an object that is not known.
    fn look_into<'a, L: Reads>(
        &mut self,
        pending: &mut Pending<'a>,
        sought: &Sought<'a>,
        block: &Anchored,
        steps: &mut Steps<L>,
    ) -> Result<(), Memory>
        requires block { IsBlock (snapshot_in sought.now.stores.now sought.now.period) block.now }
        requires known { block.now.index < length self.old.known.items }
        requires rules { pending.old.rules ≡ rules_in sought.now.stores.now }
        requires may { ReadsWithin (period_needs sought.now.stores.now sought.now.period
            sought.now.from sought.now.to sought.now.test.now.region) L.may }
        ensures known { OnOk result (self.new.known.items ≡ known_after (first_stop_in
            sought.now.stores.now sought.now.period sought.now.from sought.now.to
            sought.now.test.now.region block.now) block.now.index self.old.known.items) }
        ensures found { OnOk result (self.new.found.items ≡ self.old.found.items
            ++ option_to_list (option_map (hit_at (slice_index sought.now.stores.now.objects
            block.now.index)) (first_stop_in sought.now.stores.now sought.now.period
            sought.now.from sought.now.to sought.now.test.now.region block.now))) }
        ensures rules { pending.new.rules ≡ pending.old.rules }
        ensures cost { steps.new ≤ steps.old + log_reads sought.now.stores.now sought.now.period
            sought.now.from sought.now.to sought.now.test.now.region block.now }
    {
        let Some(stop) = sought.first_stop(block, pending, steps) else {
            return Ok(());
        };
        self.found.push(Hit {
            object: sought.stores.object_at(block.index),
            instant: stop.instant,
            cell: stop.cell,
        })?;
        self.known[block.index as usize] = true;
        Ok(())
    }

    /// The hits, by object.
    pub fn in_order(self) -> Vec<Hit>
        ensures same { IsPermutation self.found.items result.items }
        ensures order { IsNonDecreasingBy (λ hit. hit.object) result.items }
    {
        let mut found = self.found;
        found.sort_unstable_by_key(|hit| hit.object);
        found
    }
}
