ghost use Rattle.std.specs.Prelude.{◌≡◌, ◌==◌, ◌||◌, ℕ, true, IfOk, OnOk};
ghost use Rattle.std.specs.List.{list_any};
ghost use Rattle.std.specs.List.Sorted.{IsStrictlySortedBy};
ghost use Rattle.std.specs.Ordering.{nat_cmp};
ghost use Rattle.track_types.specs.declared.row.Row.{Row as RowView};
ghost use Rattle.live_tail.specs.SmallRows.{rows_in};

use crate::small_rows::SmallRows;
use std::alloc::Global;
use track_types::Memory;

/// The different objects of rows, ascending. Where the rows of an object stand together, it takes memory for its
/// objects alone.
pub fn objects_in(alloc: Global, rows: SmallRows<'_>) -> Result<Vec<u32>, Memory>
    ensures rising { IfOk result (λ objects. IsStrictlySortedBy nat_cmp objects.items) }
    ensures members { IfOk result (λ objects. (object : ℕ) → list_any (λ o. object == o) objects.items
        ≡ list_any (λ (row : RowView). object == row.object) (rows_in rows.entry)) }
{
    let mut objects = objects_of(alloc, rows)?;
    objects.sort_unstable();
    objects.dedup();
    Ok(objects)
}

// The objects of rows, one for those of one object that stand together.
fn objects_of(alloc: Global, rows: SmallRows<'_>) -> Result<Vec<u32>, Memory>
    ensures { IfOk result (λ objects. (object : ℕ) → list_any (λ o. object == o) objects.items
        ≡ list_any (λ (row : RowView). object == row.object) (rows_in rows.entry)) }
{
    let mut objects = Vec::new(alloc);
    for small in rows.rows {
        push_new(&mut objects, small.object)?;
    }
    Ok(objects)
}

// Puts an object behind others, unless it is the last of them.
fn push_new(objects: &mut Vec<u32>, object: u32) -> Result<(), Memory>
    ensures { OnOk result ((other : ℕ) → list_any (λ o. other == o) objects.new.items
        ≡ (list_any (λ o. other == o) objects.old.items || (other == object))) }
{
    if !ends_with(objects.as_slice(), object) {
        objects.push(object)?;
    }
    Ok(())
}

// Whether an object is the last of some.
fn ends_with(objects: &[u32], object: u32) -> bool
    ensures { result ≡ true → list_any (λ o. object == o) objects.now ≡ true }
{
    match objects.last() {
        Some(last) => *last == object,
        None => false,
    }
}
