ghost use Rattle.std.specs.Prelude.{◌≡◌, ◌<◌, [], length, slice_index_or};
ghost use Rattle.csv.specs.Records.{fields_of};

use csv::ByteRecord;

/// How many fields a row has, and a heading.
pub const FIELDS: usize = 4;

/// The field at a place of a record, counted from 0.
pub fn field_in(fields: &ByteRecord, place: usize) -> &[u8]
    requires { place < length (fields_of fields.now) }
    ensures { result.now ≡ slice_index_or (fields_of fields.now) place [] }
{
    fields.get(place).unwrap()
}
