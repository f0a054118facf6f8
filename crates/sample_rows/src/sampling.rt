ghost use Rattle.std.specs.Prelude.{◌≡◌, ◌≢◌, ℕ, suc, ◌+◌, ◌*◌, ◌<◌, ◌≤◌, ◌++◌, [], All, IfOk, OnOk, length};
ghost use Rattle.std.specs.List.{flat_map, range_with_len};
ghost use Rattle.track_types.specs.Limits.{limit_of};
ghost use Rattle.track_types.specs.Near.{IsRawInRange};
ghost use Rattle.track_types.specs.declared.limit.TheConstants.{MAX_ROWS};
ghost use Rattle.sample_rows.specs.Sample.{rows_at, sample_rows};
ghost use Rattle.sample_rows.specs.Reached.{AreSpotsAt};

use crate::generator::Generator;
use crate::spot::{Spot, is_absent};
use std::alloc::Global;
use track_types::{LimitKind, Memory, RawRow};

/// Makes the rows of a sample: by instant, from 0 to `instants - 1`, and then by object, from 0 to
/// `objects - 1`.
///
/// At instant 0 each object has a row. At each later one a number is drawn for each object: it has no
/// row and stays, or moves by at most a cell along each axis and has a row there. Coordinates are from 0
/// to 1,023. `Memory` may be answered to any numbers.
pub fn sample_rows(
    alloc: Global,
    objects: u32,
    instants: u32,
    seed: u64,
) -> Result<Vec<RawRow>, Memory>
    requires objects { 0 < objects }
    requires instants { 0 < instants }
    requires few { objects * instants ≤ limit_of LimitKind.Rows }
    ensures exact { IfOk result (λ rows. rows.items ≡ sample_rows objects instants seed) }
    ensures some { IfOk result (λ rows. rows.items ≢ []) }
    ensures few { IfOk result (λ rows. length rows.items ≤ limit_of LimitKind.Rows) }
    ensures ranges { IfOk result (λ rows. All IsRawInRange rows.items) }
{
    let mut rows = Vec::with_capacity(alloc, objects as usize * instants as usize)?;
    let mut spots = push_first(alloc, objects, &mut rows)?;
    let mut generator = Generator::new(seed);
    for instant in 1..instants {
        push_next(instant, &mut spots, &mut generator, &mut rows)?;
    }
    Ok(rows)
}

// Pushes the rows of the first instant, and answers where the objects are.
fn push_first(alloc: Global, objects: u32, rows: &mut Vec<RawRow>) -> Result<Vec<Spot>, Memory>
    requires few { objects ≤ MAX_ROWS }
    requires none { rows.old.items ≡ [] }
    ensures reached { IfOk result (λ spots. (seed : ℕ) → AreSpotsAt seed 0 spots.items seed) }
    ensures many { IfOk result (λ spots. length spots.items ≡ objects) }
    ensures rows { OnOk result ((seed : ℕ) → rows.new.items ≡ rows_at objects seed 0) }
    ensures ranges { OnOk result (All IsRawInRange rows.new.items) }
{
    let mut spots = Vec::with_capacity(alloc, objects as usize)?;
    for object in 0..objects {
        let spot = Spot::first(object);
        spots.push(spot)?;
        rows.push(spot.row(0, object))?;
    }
    Ok(spots)
}

// Moves all objects on to an instant after the first, and pushes their rows.
fn push_next(
    instant: u32,
    spots: &mut [Spot],
    generator: &mut Generator,
    rows: &mut Vec<RawRow>,
) -> Result<(), Memory>
    requires few { length spots.old ≤ MAX_ROWS }
    ensures many { length spots.new ≡ length spots.old }
    ensures reached { OnOk result ((seed before : ℕ) → instant ≡ suc before →
        AreSpotsAt seed before spots.old generator.old.state →
        AreSpotsAt seed instant spots.new generator.new.state) }
    ensures rows { OnOk result ((seed before : ℕ) → instant ≡ suc before →
        AreSpotsAt seed before spots.old generator.old.state →
        rows.new.items ≡ rows.old.items ++ rows_at (length spots.old) seed instant) }
    ensures ranges { OnOk result (All IsRawInRange rows.old.items → All IsRawInRange rows.new.items) }
{
    for object in 0..spots.len() {
        let value = generator.draw();
        let spot = spots[object].after(value);
        spots[object] = spot;
        if !is_absent(value) {
            rows.push(spot.row(instant, object as u32))?;
        }
    }
    Ok(())
}
