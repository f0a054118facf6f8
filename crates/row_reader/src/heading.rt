ghost use Rattle.std.specs.Prelude.{◌≡◌, ◌<◌, [], length, slice_index_or};
ghost use Rattle.std.specs.Str.{bytes_eq};
ghost use Rattle.csv.specs.Records.{fields_of};
ghost use Rattle.row_reader.specs.Rows.{is_data, is_heading};

use crate::field::{FIELDS, field_in};
use csv::ByteRecord;

/// Whether a record is data: it is not the first one, or no heading.
#[inline]
pub fn is_data_record(nth: u64, fields: &ByteRecord) -> bool
    ensures { result ≡ is_data nth (fields_of fields.now) }
{
    nth != 1 || !has_heading(fields)
}

fn has_heading(fields: &ByteRecord) -> bool
    ensures { result ≡ is_heading (fields_of fields.now) }
{
    fields.len() == FIELDS
        && is_named(fields, 0, b"object")
        && is_named(fields, 1, b"instant")
        && is_named(fields, 2, b"x")
        && is_named(fields, 3, b"y")
}

fn is_named(fields: &ByteRecord, place: usize, name: &[u8]) -> bool
    requires { place < length (fields_of fields.now) }
    ensures { result ≡ bytes_eq (slice_index_or (fields_of fields.now) place []) name.now }
{
    field_in(fields, place) == name
}
