ghost use Rattle.std.specs.Prelude.{◌≡◌, All, IfOk};
ghost use Rattle.live_tail.specs.ByInstant.{AreByInstant};
ghost use Rattle.live_tail.specs.SmallRows.{IsCountedFrom, rows_from};

use crate::small_row::{Origin, SmallRow};
use std::alloc::Global;
use track_types::{Memory, Row};

/// Rows as small ones.
pub fn small_rows(alloc: Global, origin: Origin, rows: &[Row]) -> Result<Vec<SmallRow>, Memory>
    requires { All (IsCountedFrom origin) rows.now }
    ensures { IfOk result (λ smalls. rows_from origin smalls.items ≡ rows.now) }
{
    let mut smalls = Vec::with_capacity(alloc, rows.len())?;
    for row in rows {
        smalls.push(origin.small(row))?;
    }
    Ok(smalls)
}

/// The same rows by instant, those of one instant in their order.
pub fn by_instant(alloc: Global, origin: Origin, rows: &[SmallRow]) -> Result<Vec<SmallRow>, Memory>
    ensures { IfOk result (λ sorted. AreByInstant (rows_from origin rows.now) (rows_from origin sorted.items)) }
{
    let mut sorted = Vec::with_capacity(alloc, rows.len())?;
    sorted.extend_from_slice(rows)?;
    sorted.sort_by_key(|small| small.instant)?;
    Ok(sorted)
}
