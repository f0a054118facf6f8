ghost use Rattle.std.specs.Prelude.{◌≡◌, IfOk, drop, nat_le};
ghost use Rattle.std.specs.List.{prefix_len};
ghost use Rattle.track_types.specs.Quantities.{objects_of};
ghost use Rattle.track_types.specs.Row.{IsAscending};
ghost use Rattle.track_types.specs.PartsForm.{AreShort};

use std::alloc::{AllocError, Global};
use track_types::Row;

/// The different objects of rows, ascending. An object's rows stand together, and a search finds where
/// they end.
pub(crate) fn objects_of(alloc: Global, rows: &[Row]) -> Result<Vec<u32>, AllocError>
    requires { IsAscending rows.now }
    ensures ok { IfOk result (λ objects. objects.items ≡ objects_of rows.now) }
    ensures short { IfOk result (λ objects. AreShort objects.items) }
{
    let mut objects = Vec::new(alloc);
    let mut left = rows;
    while let [Row { object, .. }, ..] = left {
        objects.push(*object)?;
        left = after_object(left, *object);
    }
    Ok(objects)
}

// The rows after those of an object, among rows in order that begin with it.
fn after_object(rows: &[Row], object: u32) -> &[Row]
    requires { IsAscending rows.now }
    ensures { result.now ≡ drop (prefix_len (λ row. nat_le row.object object) rows.now) rows.now }
{
    let count = rows.partition_point(|row| row.object <= object);
    &rows[count..]
}
