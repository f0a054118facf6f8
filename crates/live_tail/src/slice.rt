ghost use Rattle.std.specs.Prelude.{◌≡◌, ◌++◌, ◌+◌, ◌≤◌, All, IfOk, OnOk, filter, map};
ghost use Rattle.step_count.specs.Reads.{ReadsWithin};
ghost use Rattle.track_types.specs.ByFilter.{sighting_of, sightings_of};
ghost use Rattle.track_types.specs.Near.{IsAsked, IsCellWithin};
ghost use Rattle.track_types.specs.Region.{IsRegionAsked, IsRegionWithin, in_region};
ghost use Rattle.track_types.specs.declared.question.Question.TheVariants as asked;
ghost use Rattle.track_types.specs.declared.row.Row.{Row as RowView};
ghost use Rattle.live_tail.specs.Join.{rows_of_tail, rows_of_both};
ghost use Rattle.live_tail.specs.SmallRows.{rows_in};

use crate::small_rows::SmallRows;
use crate::tail::Tail;
use std::alloc::Global;
use step_count::{Reads, Steps};
use track_types::{Answerer, Memory, Region, Sighting};

/// The rows of an instant in a region, by object, of an answerer's chart with a tail.
///
/// If the tail has a row of an object at the instant, what the answerer finds for it gives way, be the
/// tail's row in the region or not. `Memory` is the only refusal.
pub fn slice<A: Answerer, L: Reads>(
    alloc: Global,
    answerer: A,
    tail: &Tail,
    instant: i64,
    region: &Region,
    steps: &mut Steps<L>,
) -> Result<Vec<Sighting>, Memory>
    requires instant { IsAsked instant }
    requires region { IsRegionAsked region.now }
    requires may { ReadsWithin (A.needs answerer (asked.Slice instant region.now)) L.may }
    ensures ok { IfOk result (λ found. found.items ≡ sightings_of
        (rows_of_both (A.chart answerer).rows (rows_of_tail tail.now)) instant region.now) }
    ensures cost { steps.new ≤ steps.old + A.cost answerer (asked.Slice instant region.now) }
{
    let _ = answerer.facts(); // says that the chart is a table
    let _ = tail.rows(); // says that these ascend
    let own = tail.rows_at(instant);
    let mut found = answerer.slice(alloc, instant, region, steps)?;
    found.retain(|sighting| !own.has_object(sighting.object));
    push_seen(&mut found, own, region)?;
    found.sort_unstable_by_key(|sighting| sighting.object);
    Ok(found)
}

// Appends the rows in a region to what was found.
fn push_seen(found: &mut Vec<Sighting>, rows: SmallRows<'_>, region: &Region) -> Result<(), Memory>
    requires region { IsRegionWithin region.now }
    requires near { All (λ (row : RowView). IsCellWithin row.cell) (rows_in rows) }
    ensures { OnOk result (found.new.items ≡ found.old.items
        ++ map sighting_of (filter (λ (row : RowView). in_region region.now row.cell) (rows_in rows.entry))) }
{
    for small in rows.rows {
        let row = rows.origin.row(small);
        if region.contains(row.cell) {
            found.push(Sighting {
                object: row.object,
                cell: row.cell,
            })?;
        }
    }
    Ok(())
}
