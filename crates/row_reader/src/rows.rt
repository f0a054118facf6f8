ghost use Rattle.std.specs.Prelude.{◌≡◌, ◌≤◌, length, None, IfOk, IfErr, All, vec_len};
ghost use Rattle.track_types.specs.Limits.{limit_of};
ghost use Rattle.track_types.specs.Near.{IsRawInRange};
ghost use Rattle.row_reader.specs.Rows.{IsRowsFault, csv_fault, raws_of};

use crate::fault::RowsFault;
use crate::reading::{Progress, read_on};
use std::alloc::Global;
use track_types::{LimitKind, RawRow};

/// Reads the rows of a CSV file in file order, or tells the refusal of the first record that has
/// one.
///
/// One byte order mark at the front is dropped. Fields are separated by commas and may stand in
/// double quotes. Lines end with LF, CR or both, blank lines are no records, and nothing is trimmed. A
/// first record `object,instant,x,y` is a heading. Each other record is a row of four numerals: the
/// object, 0 to 2^32 - 1, and the time, x and y, each -2^40 to 2^40.
///
/// `Limit` comes at the row that is one more than 2^24, whatever it is. A record that does not have
/// four fields is refused as `Count`, whatever they are. Else the first field from the left that is
/// no numeral is refused as `NotNumber`, or as `Range` where its value is out of its range. `Memory`
/// may be answered to any file.
pub fn read_rows(alloc: Global, bytes: &[u8]) -> Result<Vec<RawRow>, RowsFault>
    requires { length bytes.now ≤ limit_of LimitKind.Csv }
    ensures ok { IfOk result (λ rows.
        (csv_fault bytes.now ≡ None) × (rows.items ≡ raws_of bytes.now)) }
    ensures few { IfOk result (λ rows. vec_len rows ≤ limit_of LimitKind.Rows) }
    ensures ranges { IfOk result (λ rows. All IsRawInRange rows.items) }
    ensures fault { IfErr result (IsRowsFault bytes.now) }
{
    let mut rows = Vec::new(alloc);
    read_on(alloc, bytes, Progress::start(), &mut rows)?;
    Ok(rows)
}
