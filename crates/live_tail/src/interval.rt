ghost use Rattle.std.specs.Prelude.{◌≡◌, ◌++◌, ◌+◌, ◌≤◌, option_to_list, All, IfOk, OnOk};
ghost use Rattle.step_count.specs.Reads.{ReadsWithin};
ghost use Rattle.std.specs.List.{filter_map, sum_by};
ghost use Rattle.std.specs.List.Sorted.{IsStrictlySortedBy};
ghost use Rattle.track_types.specs.ByFilter.{hits_of};
ghost use Rattle.track_types.specs.Near.{IsAsked, IsBoxWithin, IsCellWithin};
ghost use Rattle.track_types.specs.Region.{in_region, intersects_region};
ghost use Rattle.track_types.specs.Region.{IsRegionAsked, IsRegionWithin};
ghost use Rattle.track_types.specs.Table.{IsTable};
ghost use Rattle.track_types.specs.declared.question.Question.TheVariants as asked;
ghost use Rattle.track_types.specs.declared.row.Row.{Row as RowView};
ghost use Rattle.log_cursor.specs.Touching.{first_among, touches_at};
ghost use Rattle.snapshots.specs.Parts.{chart_in};
ghost use Rattle.interval_search.specs.FirstHits.{hit_in};
ghost use Rattle.track_index.specs.Cost.{cost_of, needs_of};
ghost use Rattle.track_index.specs.Path.{path_needs};
ghost use Rattle.live_tail.specs.Cost.{interval_cost_beside, standing_cost};
ghost use Rattle.live_tail.specs.Hits.{standing};
ghost use Rattle.live_tail.specs.Join.{rows_of_tail, rows_of_both};
ghost use Rattle.live_tail.specs.SmallRows.{rows_in};
ghost use Rattle.live_tail.specs.Walk.{is_at, is_before, stop_order, stops_with};

use crate::small_rows::SmallRows;
use crate::tail::Tail;
use region_test::RegionTest;
use std::alloc::Global;
use step_count::{Reads, Steps};
use track_index::{IndexRef, PathWalk};
use track_types::{Answerer, Cell, CellBox, Hit, Memory, Region, Stop};

/// The interval of an index's chart with a tail. For each object that is in a region at some instant
/// of a window, whose ends count, it gives the first such instant and the cell there, by object.
///
/// What the index finds stands unless the tail has a row of the object at that instant: then its path is
/// searched in both. Of this and of the tail's hits the first of each object is the answer. `Memory` is
/// the only refusal.
pub fn interval<L: Reads>(
    alloc: Global,
    index: IndexRef<'_>,
    tail: &Tail,
    from: i64,
    to: i64,
    region: &Region,
    steps: &mut Steps<L>,
) -> Result<Vec<Hit>, Memory>
    requires from { IsAsked from }
    requires to { IsAsked to }
    requires region { IsRegionAsked region.now }
    requires may { ReadsWithin (needs_of index.index.now (asked.Interval from to region.now)) L.may }
    ensures ok { IfOk result (λ found. found.items ≡ hits_of
        (rows_of_both (chart_in index.entry.index.now).rows (rows_of_tail tail.now))
        from to region.now) }
    ensures cost { steps.new ≤ steps.old + interval_cost_beside (cost_of index.entry.index.now)
        (rows_of_tail tail.now) from to region.now }
{
    let _ = index.facts(); // says that the chart is a table
    let _ = tail.rows(); // says that these ascend
    let mut found = tail.hits(alloc, from, to, region)?;
    let hits = index.interval(alloc, from, to, region, steps)?;
    let window = (from, to);
    push_standing(
        alloc,
        index,
        tail,
        window,
        region,
        hits.as_slice(),
        &mut found,
        steps,
    )?;
    found.sort_unstable_by_key(|hit| (hit.object, hit.instant));
    found.dedup_by_key(|hit| hit.object);
    Ok(found)
}

// Appends to what was found what stands of the index's hits in a window and a region. (It makes the
// closures that answer the region, so that none takes them from it.)
fn push_standing<L: Reads>(
    alloc: Global,
    index: IndexRef<'_>,
    tail: &Tail,
    window: (i64, i64),
    region: &Region,
    hits: &[Hit],
    found: &mut Vec<Hit>,
    steps: &mut Steps<L>,
) -> Result<(), Memory>
    requires table { IsTable (chart_in index.index.now) }
    requires from { IsAsked window.0 }
    requires to { IsAsked window.1 }
    requires region { IsRegionAsked region.now }
    requires may { ReadsWithin
        (needs_of index.index.now (asked.Interval window.0 window.1 region.now)) L.may }
    ensures found { OnOk result (found.new.items ≡ found.old.items ++ filter_map (standing
        (chart_in index.entry.index.now).rows (rows_of_tail tail.now) window.0 window.1 region.now)
        hits.now) }
    ensures cost { steps.new ≤ steps.old + sum_by (standing_cost (cost_of index.entry.index.now)
        (rows_of_tail tail.now) window.0 window.1) hits.now }
{
    // Each closure has a region of its own, since what one takes is gone for the others.
    let held = near_region(region);
    let contains = Box::new(
        alloc,
        move |cell: Cell| -> bool
            requires region { IsRegionWithin held }
            requires near { IsCellWithin cell }
            ensures { result ≡ in_region held cell }
        { held.contains(cell) },
    )?;
    let touched = near_region(region);
    let may_touch = Box::new(
        alloc,
        move |area: &CellBox| -> bool
            requires region { IsRegionWithin touched }
            requires near { IsBoxWithin area.now }
            ensures { result ≡ intersects_region touched area.now }
        { touched.touches(area) },
    )?;
    let test = RegionTest::new(near_region(region), contains, may_touch);
    let search = TailInterval {
        index,
        tail,
        from: window.0,
        to: window.1,
        test: &test,
    };
    search.push_standing(alloc, hits, found, steps)
}

// The region of a question, shown to be near enough for both of its tests.
fn near_region(region: &Region) -> Region
    requires { IsRegionAsked region.now }
    ensures value { result ≡ region.now }
    ensures within { IsRegionWithin result }
{
    *region
}

// An interval that an index with a tail is asked for: its window and its region.
#[derive(Clone, Copy)]
struct TailInterval<'a> {
    index: IndexRef<'a>,
    tail: &'a Tail,
    from: i64,
    to: i64,
    test: &'a RegionTest,
}

impl<'a> TailInterval<'a> {
    // Appends to what was found what stands of the index's hits.
    fn push_standing<L: Reads>(
        &self,
        alloc: Global,
        hits: &[Hit],
        found: &mut Vec<Hit>,
        steps: &mut Steps<L>,
    ) -> Result<(), Memory>
        requires table { IsTable (chart_in self.now.index.index.now) }
        requires from { IsAsked self.now.from }
        requires to { IsAsked self.now.to }
        requires may { ReadsWithin (needs_of self.now.index.index.now
            (asked.Interval self.now.from self.now.to self.now.test.now.region)) L.may }
        ensures found { OnOk result (found.new.items ≡ found.old.items ++ filter_map (standing
            (chart_in self.now.index.index.now).rows (rows_of_tail self.now.tail.now)
            self.now.from self.now.to self.now.test.now.region) hits.now) }
        ensures cost { steps.new ≤ steps.old + sum_by (standing_cost (cost_of self.now.index.index.now)
            (rows_of_tail self.now.tail.now) self.now.from self.now.to) hits.now }
    {
        for hit in hits {
            let stands = self.standing(alloc, *hit, steps)?;
            push_found(found, stands)?;
        }
        Ok(())
    }

    // What stands of a hit of the index: if the tail has a row of its object and instant, the object's
    // first hit in both.
    fn standing<L: Reads>(
        &self,
        alloc: Global,
        hit: Hit,
        steps: &mut Steps<L>,
    ) -> Result<Option<Hit>, Memory>
        requires table { IsTable (chart_in self.now.index.index.now) }
        requires from { IsAsked self.now.from }
        requires to { IsAsked self.now.to }
        requires may { ReadsWithin (needs_of self.now.index.index.now
            (asked.Interval self.now.from self.now.to self.now.test.now.region)) L.may }
        ensures ok { IfOk result (λ stands. stands ≡ standing
            (chart_in self.now.index.index.now).rows (rows_of_tail self.now.tail.now)
            self.now.from self.now.to self.now.test.now.region hit) }
        ensures cost { steps.new ≤ steps.old + standing_cost (cost_of self.now.index.index.now)
            (rows_of_tail self.now.tail.now) self.now.from self.now.to hit }
    {
        if self.tail.has_row(hit.object, hit.instant) {
            return self.first_hit(alloc, hit.object, steps);
        }
        Ok(Some(hit))
    }

    // The first hit of an object, if it has one.
    fn first_hit<L: Reads>(
        &self,
        alloc: Global,
        object: u32,
        steps: &mut Steps<L>,
    ) -> Result<Option<Hit>, Memory>
        requires table { IsTable (chart_in self.now.index.index.now) }
        requires from { IsAsked self.now.from }
        requires to { IsAsked self.now.to }
        requires may { ReadsWithin (needs_of self.now.index.index.now
            (asked.Interval self.now.from self.now.to self.now.test.now.region)) L.may }
        ensures ok { IfOk result (λ hit. hit ≡ hit_in
            (rows_of_both (chart_in self.now.index.index.now).rows (rows_of_tail self.now.tail.now))
            self.now.from self.now.to self.now.test.now.region object) }
        ensures cost { steps.new ≤ steps.old + cost_of self.now.index.index.now
            (asked.Path object self.now.from self.now.to) }
    {
        let _ = self.tail.rows(); // says that these ascend, in near cells
        let mut walk = self.index.walk(alloc, object, self.from, self.to)?;
        let own = self.tail.track(object, self.from, self.to);
        let Some(stop) = first_of_both(&mut walk, own, self.test, steps) else {
            return Ok(None);
        };
        Ok(Some(Hit {
            object,
            instant: stop.instant,
            cell: stop.cell,
        }))
    }
}

// Appends a hit to what was found, if there is one.
fn push_found(found: &mut Vec<Hit>, hit: Option<Hit>) -> Result<(), Memory>
    ensures { OnOk result (found.new.items ≡ found.old.items ++ option_to_list hit) }
{
    if let Some(hit) = hit {
        found.push(hit)?;
    }
    Ok(())
}

// The first stop in a region, of an object's rows and of a walk. If both have an instant, the row
// counts, be it in the region or not. Beyond the answer the walk is drawn at most to its next stop in
// the region.
fn first_of_both<L: Reads>(
    walk: &mut PathWalk<'_>,
    own: SmallRows<'_>,
    test: &RegionTest,
    steps: &mut Steps<L>,
) -> Option<Stop>
    requires near { All (λ (row : RowView). IsCellWithin row.cell) (rows_in own) }
    requires ascending { IsStrictlySortedBy stop_order walk.old.stops }
    requires may { ReadsWithin (path_needs (touches_at test.now.region) walk.old) L.may }
    ensures value { result ≡ first_among test.now.region (stops_with (rows_in own.entry) walk.old.stops) }
    ensures cost { steps.new ≤ steps.old + walk.old.reads }
{
    let mut rest = own;
    let mut hit = walk.draw_in(test, steps);
    while let Some(row) = rest.take_first() {
        if comes_before(hit, row.instant) {
            return hit;
        }
        if test.holds(row.cell) {
            return Some(Stop {
                instant: row.instant,
                cell: row.cell,
            });
        }
        if stands_at(hit, row.instant) {
            hit = walk.draw_in(test, steps);
        }
    }
    hit
}

// Whether there is a stop, and it comes before an instant.
fn comes_before(stop: Option<Stop>, instant: i64) -> bool
    ensures { result ≡ is_before stop instant }
{
    match stop {
        Some(stop) => stop.instant < instant,
        None => false,
    }
}

// Whether there is a stop, and it is at an instant.
fn stands_at(stop: Option<Stop>, instant: i64) -> bool
    ensures { result ≡ is_at stop instant }
{
    match stop {
        Some(stop) => stop.instant == instant,
        None => false,
    }
}
