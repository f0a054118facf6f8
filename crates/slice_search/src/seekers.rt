ghost use Rattle.std.specs.Prelude.{◌≡◌, ◌+◌, ◌<◌, ◌≤◌, ℤ, length, All};
ghost use Rattle.step_count.specs.Reads.{ofRule, ReadsWithin};
ghost use Rattle.std.specs.List.{sum_by};
ghost use Rattle.track_types.specs.declared.region.Region.{Region};
ghost use Rattle.rule_store.specs.View.{RulesView};
ghost use Rattle.log_cursor.specs.Descent.{first_reads, rest_of};
ghost use Rattle.snapshots.specs.Parts.{rules_in, snapshot_in};
ghost use Rattle.snapshots.specs.Sound.{IsBlock};
ghost use Rattle.slice_search.specs.Live.{first_of, AreLive};
ghost use Rattle.slice_search.specs.Needs.{period_needs, period_rule};
ghost use Rattle.slice_search.specs.Seekers.{
  first_in,
  parted_in,
  reads_in,
  rest_in,
  seen_by,
  turning_in,
  weight_in,
  AreTurned,
  IsSeeker,
  OpensNext,
  OpensWithin,
};
ghost use Rattle.slice_search.specs.Sightings.{sighting_in};
ghost use Rattle.slice_search.specs.Sought.{log_reads};

use crate::sought::Sought;
use log_cursor::Descent;
use object_track::Placed;
use region_test::RegionTest;
use rule_store::RuleStore;
use snapshots::Anchored;
use step_count::{Reads, Steps};
use track_types::Sighting;

/// How many blocks are searched side by side.
pub(crate) const GROUP: usize = 16;

/// An object, and the search for it in its block.
#[derive(Clone, Copy, Default)]
pub(crate) struct Seeker {
    object: u32,
    descent: Descent,
}

impl Seeker {
    /// The first symbol of a block's log, if the search for its object begins with it.
    pub(crate) fn first_symbol<L: Reads>(
        sought: &Sought,
        block: &Anchored,
        steps: &mut Steps<L>,
    ) -> Option<u32>
        requires block { IsBlock (snapshot_in sought.now.stores.now sought.now.period) block.now }
        requires may { ReadsWithin (period_needs sought.now.stores.now sought.now.period sought.now.from
            sought.now.from sought.now.test.now.region) L.may }
        ensures value { result ≡ first_in sought.now.stores.now sought.now.period sought.now.from
            block.now }
        ensures cost { steps.new ≡ steps.old + first_reads result }
    {
        let placed = Placed::new(sought.stores, sought.period, block);
        Descent::first_symbol(placed.log, placed.start, sought.from, steps)
    }

    /// The search for the object of a block at the first instant of a window. The first symbol of its
    /// log was read before.
    pub(crate) fn begin<L: Reads>(
        sought: &Sought,
        block: &Anchored,
        first: Option<u32>,
        steps: &mut Steps<L>,
    ) -> Seeker
        requires block { IsBlock (snapshot_in sought.now.stores.now sought.now.period) block.now }
        requires first { first ≡ first_in sought.now.stores.now sought.now.period sought.now.from
            block.now }
        requires may { ReadsWithin (period_needs sought.now.stores.now sought.now.period sought.now.from
            sought.now.from sought.now.test.now.region) L.may }
        ensures sound { IsSeeker (rules_in sought.now.stores.now) sought.now.from result }
        ensures seen { seen_by (rules_in sought.now.stores.now) sought.now.from
            sought.now.test.now.region result ≡ sighting_in sought.now.stores.now
            sought.now.period sought.now.from sought.now.from sought.now.test.now.region block.now }
        ensures cost { steps.new + (first_reads first + reads_in (rules_in sought.now.stores.now)
            sought.now.from sought.now.test.now.region result) ≤ steps.old + log_reads
            sought.now.stores.now sought.now.period sought.now.from sought.now.from
            sought.now.test.now.region block.now }
        ensures opens { OpensWithin (rules_in sought.now.stores.now) sought.now.from
            sought.now.test.now.region (period_rule sought.now.stores.now sought.now.period
            sought.now.from sought.now.from sought.now.test.now.region) result }
    {
        let _ = sought.stores.frame(); // says what holds of every index
        let Placed { log, start } = Placed::new(sought.stores, sought.period, block);
        Seeker {
            object: sought.stores.object_at(block.index),
            descent: Descent::begin(log, start, first, sought.from, sought.test, steps),
        }
    }

    /// The sighting of the object, if the search is over and has found it.
    pub(crate) fn sighting(self) -> Option<Sighting>
        ensures { (rules : RulesView) (instant : ℤ) (region : Region) → rest_in self ≡ 0
            → result ≡ seen_by rules instant region self }
    {
        let cell = self.descent.found()?;
        Some(Sighting {
            object: self.object,
            cell,
        })
    }
}

/// Goes on with all searches side by side, level by level, until each is over: what one waits for in
/// memory comes while the others go on. A list of those that go on spares each level a look at the
/// others.
pub(crate) fn search_all<L: Reads>(
    seekers: &mut [Seeker],
    rules: &RuleStore,
    instant: i64,
    test: &RegionTest,
    steps: &mut Steps<L>,
)
    requires few { length seekers.old ≤ 16 }
    requires sound { All (IsSeeker rules.now instant) seekers.old }
    requires may { All (OpensWithin rules.now instant test.now.region (λ rule. L.may (ofRule rule)))
        seekers.old }
    ensures turned { AreTurned rules.now instant test.now.region seekers.old seekers.new }
    ensures over { sum_by rest_in seekers.new ≡ 0 }
    ensures cost { steps.new ≤ steps.old
        + sum_by (reads_in rules.now instant test.now.region) seekers.old }
{
    let mut live: [u32; GROUP] = [0, 1, 2, 3, 4, 5, 6, 7, 8, 9, 10, 11, 12, 13, 14, 15];
    let mut count = seekers.len();
    while count > 0 {
        count = judge_all(seekers, &mut live, count, rules, instant, test);
        open_all(seekers, &live, count, rules, instant, steps);
        turn_all(seekers, &live, count, rules, instant);
    }
}

// Asks the box of the symbol of each search in a list, and takes those out of the list that are over
// then. How many are left, each at a rule to be opened.
fn judge_all(
    seekers: &mut [Seeker],
    live: &mut [u32; GROUP],
    count: usize,
    rules: &RuleStore,
    instant: i64,
    test: &RegionTest,
) -> usize
    requires few { count ≤ 16 }
    requires live { AreLive live.old count seekers.old }
    requires sound { All (IsSeeker rules.now instant) seekers.old }
    ensures turned { AreTurned rules.now instant test.now.region seekers.old seekers.new }
    ensures few { result ≤ count }
    ensures live { AreLive live.new result seekers.new }
    ensures first { 0 < count
        → result + 1 ≤ count + turning_in (first_of live.new seekers.new) }
    ensures weight { sum_by weight_in seekers.new ≤ sum_by weight_in seekers.old }
    ensures cost { sum_by (reads_in rules.now instant test.now.region) seekers.new
        ≤ sum_by (reads_in rules.now instant test.now.region) seekers.old }
{
    let mut left = 0usize;
    for k in 0..count {
        let place = live[k];
        let i = place as usize;
        let descent = seekers[i].descent.judged(rules, instant, test);
        seekers[i].descent = descent;
        live[left] = place; // without a branch: where the search is over, the next is put here
        left += rest_of(descent);
    }
    left
}

// Opens the rule of each search in a list that is at one.
fn open_all<L: Reads>(
    seekers: &mut [Seeker],
    live: &[u32; GROUP],
    count: usize,
    rules: &RuleStore,
    instant: i64,
    steps: &mut Steps<L>,
)
    requires few { count ≤ 16 }
    requires live { AreLive live.now count seekers.old }
    requires sound { All (IsSeeker rules.now instant) seekers.old }
    requires may { All (OpensNext (λ rule. L.may (ofRule rule))) seekers.old }
    ensures turned { (region : Region) → AreTurned rules.now instant region seekers.old seekers.new }
    ensures live { AreLive live.now count seekers.new }
    ensures first { 0 < count → turning_in (first_of live.now seekers.old)
        ≤ parted_in (first_of live.now seekers.new) }
    ensures weight { sum_by weight_in seekers.new ≤ sum_by weight_in seekers.old }
    ensures cost { (region : Region) → steps.new + sum_by (reads_in rules.now instant region)
        seekers.new ≤ steps.old + sum_by (reads_in rules.now instant region) seekers.old }
{
    for k in 0..count {
        let i = live[k] as usize;
        seekers[i].descent = seekers[i].descent.opened(rules, instant, steps);
    }
}

// 1 for a search that is not over, and 0 for one that is.
fn rest_of(descent: Descent) -> usize
    ensures value { result ≡ rest_of descent }
    ensures few { result ≤ 1 }
{
    if descent.is_over() { 0 } else { 1 }
}

// Turns each search in a list to the part that has the instant.
fn turn_all(
    seekers: &mut [Seeker],
    live: &[u32; GROUP],
    count: usize,
    rules: &RuleStore,
    instant: i64,
)
    requires few { count ≤ 16 }
    requires live { AreLive live.now count seekers.old }
    requires sound { All (IsSeeker rules.now instant) seekers.old }
    ensures turned { (region : Region) → AreTurned rules.now instant region seekers.old seekers.new }
    ensures live { AreLive live.now count seekers.new }
    ensures weight { sum_by weight_in seekers.new ≤ sum_by weight_in seekers.old }
    ensures less { 0 < count → sum_by weight_in seekers.new
        + parted_in (first_of live.now seekers.old) ≤ sum_by weight_in seekers.old }
    ensures cost { (region : Region) → sum_by (reads_in rules.now instant region) seekers.new
        ≤ sum_by (reads_in rules.now instant region) seekers.old }
{
    for k in 0..count {
        let i = live[k] as usize;
        seekers[i].descent = seekers[i].descent.turned(rules, instant);
    }
}
