ghost use Rattle.std.specs.Prelude.{◌≡◌, ◌+◌, ◌++◌, ◌≤◌, ℤ, [], length, map, option_to_list, vec_capacity, All, IfOk, OnOk};
ghost use Rattle.step_count.specs.Reads.{ofRule, ReadsWithin};
ghost use Rattle.std.specs.List.{filter_map, sum_by};
ghost use Rattle.track_types.specs.declared.region.Region.{Region};
ghost use Rattle.rule_store.specs.View.{RulesView};
ghost use Rattle.snapshots.specs.Parts.{rules_in, snapshot_in};
ghost use Rattle.snapshots.specs.Sound.{IsBlock};
ghost use Rattle.slice_search.specs.Needs.{period_needs, period_rule};
ghost use Rattle.slice_search.specs.Sightings.{sighting_in};
ghost use Rattle.slice_search.specs.Seekers.{first_in, first_reads_in, reads_in, rest_in, seen_by};
ghost use Rattle.slice_search.specs.Seekers.{IsSeeker, OpensWithin};
ghost use Rattle.slice_search.specs.Sought.{log_reads};

use crate::seekers::{GROUP, Seeker, search_all};
use crate::sought::Sought;
use arrayvec::ArrayVec;
use snapshots::Anchored;
use std::alloc::Global;
use step_count::{Reads, Steps};
use track_types::{Lazy, Memory, Sighting};

// The sightings of the blocks of a walk at the first instant of a window, in the walk's order.
pub fn sightings<W: Lazy<Item = Anchored>, L: Reads>(
    alloc: Global,
    sought: &Sought,
    blocks: &mut W,
    steps: &mut Steps<L>,
) -> Result<Vec<Sighting>, Memory>
    requires blocks { All (IsBlock (snapshot_in sought.now.stores.now sought.now.period))
        (W.left blocks.old) }
    requires may { ReadsWithin (W.needs blocks.old) L.may }
    requires logs { ReadsWithin (period_needs sought.now.stores.now sought.now.period sought.now.from
        sought.now.from sought.now.test.now.region) L.may }
    ensures ok { IfOk result (λ found. found.items ≡ filter_map (sighting_in sought.now.stores.now
        sought.now.period sought.now.from sought.now.from sought.now.test.now.region)
        (W.left blocks.old)) }
    ensures cost { steps.new ≤ steps.old + (W.budget blocks.old + sum_by (log_reads
        sought.now.stores.now sought.now.period sought.now.from sought.now.from
        sought.now.test.now.region) (W.left blocks.old)) }
{
    let mut found = Vec::new(alloc);
    let mut group = Vec::with_capacity(alloc, GROUP)?;
    let mut seekers: ArrayVec<Seeker, GROUP> = ArrayVec::new();
    while let Some(block) = blocks.draw(steps) {
        group.push_reserved(block);
        if group.len() == GROUP {
            push_group(sought, &mut group, &mut seekers, &mut found, steps)?;
        }
    }
    push_group(sought, &mut group, &mut seekers, &mut found, steps)?;
    Ok(found)
}

// Puts the sightings of some blocks at the end, in their order, and leaves none of the blocks.
fn push_group<L: Reads>(
    sought: &Sought,
    group: &mut Vec<Anchored>,
    seekers: &mut ArrayVec<Seeker, GROUP>,
    found: &mut Vec<Sighting>,
    steps: &mut Steps<L>,
) -> Result<(), Memory>
    requires few { length group.old.items ≤ 16 }
    requires none { seekers.old.items ≡ [] }
    requires blocks { All (IsBlock (snapshot_in sought.now.stores.now sought.now.period))
        group.old.items }
    requires may { ReadsWithin (period_needs sought.now.stores.now sought.now.period sought.now.from
        sought.now.from sought.now.test.now.region) L.may }
    ensures found { OnOk result (found.new.items ≡ found.old.items ++ filter_map (sighting_in
        sought.now.stores.now sought.now.period sought.now.from sought.now.from
        sought.now.test.now.region) group.old.items) }
    ensures none { OnOk result (seekers.new.items ≡ []) }
    ensures empty { OnOk result (group.new.items ≡ []) }
    ensures room { vec_capacity group.new ≡ vec_capacity group.old }
    ensures cost { steps.new ≤ steps.old + sum_by (log_reads sought.now.stores.now
        sought.now.period sought.now.from sought.now.from sought.now.test.now.region)
        group.old.items }
{
    begin_all(sought, group.as_slice(), seekers, steps);
    push_seen(sought, seekers, found, steps)?;
    group.clear();
    Ok(())
}

// Begins the searches of some blocks. Each log stands somewhere else in memory, so the first symbols of
// all of them are read before the first is looked at: then all are on their way at once.
fn begin_all<L: Reads>(
    sought: &Sought,
    group: &[Anchored],
    seekers: &mut ArrayVec<Seeker, GROUP>,
    steps: &mut Steps<L>,
)
    requires few { length group.now ≤ 16 }
    requires none { seekers.old.items ≡ [] }
    requires blocks { All (IsBlock (snapshot_in sought.now.stores.now sought.now.period))
        group.now }
    requires may { ReadsWithin (period_needs sought.now.stores.now sought.now.period sought.now.from
        sought.now.from sought.now.test.now.region) L.may }
    ensures sound { All (IsSeeker (rules_in sought.now.stores.now) sought.now.from)
        seekers.new.items }
    ensures seen { filter_map (seen_by (rules_in sought.now.stores.now) sought.now.from
        sought.now.test.now.region) seekers.new.items ≡ filter_map (sighting_in
        sought.now.stores.now sought.now.period sought.now.from sought.now.from
        sought.now.test.now.region) group.now }
    ensures cost { steps.new + sum_by (reads_in (rules_in sought.now.stores.now) sought.now.from
        sought.now.test.now.region) seekers.new.items ≤ steps.old + sum_by (log_reads
        sought.now.stores.now sought.now.period sought.now.from sought.now.from
        sought.now.test.now.region) group.now }
    ensures opens { All (OpensWithin (rules_in sought.now.stores.now) sought.now.from
        sought.now.test.now.region (period_rule sought.now.stores.now sought.now.period
        sought.now.from sought.now.from sought.now.test.now.region)) seekers.new.items }
{
    let firsts = first_symbols(sought, group, steps);
    begin_each(sought, group, firsts.as_slice(), seekers, steps);
}

// The first symbols of the logs of some blocks, as far as the searches begin with them.
fn first_symbols<L: Reads>(
    sought: &Sought,
    group: &[Anchored],
    steps: &mut Steps<L>,
) -> ArrayVec<Option<u32>, GROUP>
    requires few { length group.now ≤ 16 }
    requires blocks { All (IsBlock (snapshot_in sought.now.stores.now sought.now.period))
        group.now }
    requires may { ReadsWithin (period_needs sought.now.stores.now sought.now.period sought.now.from
        sought.now.from sought.now.test.now.region) L.may }
    ensures value { result.items ≡ map (first_in sought.now.stores.now sought.now.period
        sought.now.from) group.now }
    ensures cost { steps.new ≡ steps.old + sum_by (first_reads_in sought.now.stores.now
        sought.now.period sought.now.from) group.now }
{
    let mut firsts = ArrayVec::new();
    for i in 0..group.len() {
        firsts.push(Seeker::first_symbol(sought, &group[i], steps));
    }
    firsts
}

// Begins the searches of some blocks with these first symbols, one straight after another.
fn begin_each<L: Reads>(
    sought: &Sought,
    group: &[Anchored],
    firsts: &[Option<u32>],
    seekers: &mut ArrayVec<Seeker, GROUP>,
    steps: &mut Steps<L>,
)
    requires few { length group.now ≤ 16 }
    requires none { seekers.old.items ≡ [] }
    requires blocks { All (IsBlock (snapshot_in sought.now.stores.now sought.now.period))
        group.now }
    requires firsts { firsts.now ≡ map (first_in sought.now.stores.now sought.now.period
        sought.now.from) group.now }
    requires may { ReadsWithin (period_needs sought.now.stores.now sought.now.period sought.now.from
        sought.now.from sought.now.test.now.region) L.may }
    ensures sound { All (IsSeeker (rules_in sought.now.stores.now) sought.now.from)
        seekers.new.items }
    ensures seen { filter_map (seen_by (rules_in sought.now.stores.now) sought.now.from
        sought.now.test.now.region) seekers.new.items ≡ filter_map (sighting_in
        sought.now.stores.now sought.now.period sought.now.from sought.now.from
        sought.now.test.now.region) group.now }
    ensures cost { steps.new + (sum_by (first_reads_in sought.now.stores.now sought.now.period
        sought.now.from) group.now + sum_by (reads_in (rules_in sought.now.stores.now)
        sought.now.from sought.now.test.now.region) seekers.new.items) ≤ steps.old + sum_by
        (log_reads sought.now.stores.now sought.now.period sought.now.from sought.now.from
        sought.now.test.now.region) group.now }
    ensures opens { All (OpensWithin (rules_in sought.now.stores.now) sought.now.from
        sought.now.test.now.region (period_rule sought.now.stores.now sought.now.period
        sought.now.from sought.now.from sought.now.test.now.region)) seekers.new.items }
{
    for i in 0..group.len() {
        seekers.push(Seeker::begin(sought, &group[i], firsts[i], steps));
    }
}

// Puts what some searches come to at the end, in their order, and leaves none of them.
fn push_seen<L: Reads>(
    sought: &Sought,
    seekers: &mut ArrayVec<Seeker, GROUP>,
    found: &mut Vec<Sighting>,
    steps: &mut Steps<L>,
) -> Result<(), Memory>
    requires sound { All (IsSeeker (rules_in sought.now.stores.now) sought.now.from) seekers.old.items }
    requires may { All (OpensWithin (rules_in sought.now.stores.now) sought.now.from
        sought.now.test.now.region (λ rule. L.may (ofRule rule))) seekers.old.items }
    ensures found { OnOk result (found.new.items ≡ found.old.items ++ filter_map (seen_by
        (rules_in sought.now.stores.now) sought.now.from sought.now.test.now.region)
        seekers.old.items) }
    ensures none { OnOk result (seekers.new.items ≡ []) }
    ensures cost { steps.new ≤ steps.old + sum_by (reads_in (rules_in sought.now.stores.now)
        sought.now.from sought.now.test.now.region) seekers.old.items }
{
    let rules = sought.stores.rules();
    search_all(
        seekers.as_mut_slice(),
        rules,
        sought.from,
        sought.test,
        steps,
    );
    push_all(seekers.as_slice(), found)?;
    seekers.clear();
    Ok(())
}

// Puts what some searches have found at the end.
fn push_all(seekers: &[Seeker], found: &mut Vec<Sighting>) -> Result<(), Memory>
    requires { sum_by rest_in seekers.now ≡ 0 }
    ensures { OnOk result ((rules : RulesView) (instant : ℤ) (region : Region) → found.new.items
        ≡ found.old.items ++ filter_map (seen_by rules instant region) seekers.now) }
{
    for i in 0..seekers.len() {
        push_found(found, seekers[i].sighting())?;
    }
    Ok(())
}

// Adds a sighting, if there is one, at the end.
fn push_found(found: &mut Vec<Sighting>, sighting: Option<Sighting>) -> Result<(), Memory>
    ensures { OnOk result (found.new.items ≡ found.old.items ++ option_to_list sighting) }
{
    if let Some(sighting) = sighting {
        found.push(sighting)?;
    }
    Ok(())
}
