ghost use Rattle.std.specs.Prelude.{◌≡◌, ◌≢◌, ◌+◌, ◌-◌, ◌*◌, ◌^◌, ◌<◌, ◌≤◌, [], length, pos, neg_ℤ, ◌≤ℤ◌, Some, None, IfOk, IfErr, OnOk, slice_index_or};
ghost use Rattle.track_types.specs.Limits.{limit_of};
ghost use Rattle.track_types.specs.Near.{IsRawInRange};
ghost use Rattle.csv.specs.Records.{fields_of};
ghost use Rattle.row_reader.specs.Row.{field_fault, raw_of, record_fault, field_value};
ghost use Rattle.row_reader.specs.Rows.{record_refusal};

use crate::fault::RowsFault;
use crate::field::{FIELDS, field_in};
use csv::ByteRecord;
use track_types::{LimitKind, MAX_PLACE, MAX_ROWS, RawRow, RowFault, number_within};

// The greatest object, 2^32 - 1.
const MAX_OBJECT: i64 = 4_294_967_295;

// How far from 0 a time and a coordinate may be.
const FAR: i64 = MAX_PLACE as i64;

// Why a record is no row, and at which of its fields, counted from 1.
#[derive(Clone, Copy)]
struct FieldFault {
    field: u32,
    fault: RowFault,
}

/// Reads the data record `nth` as a row, after `count` others. Inlined, as are the two below, so that
/// no value of a row passes through memory before the row stands among the others.
#[inline(always)]
pub fn read_data(fields: &ByteRecord, nth: u64, count: usize) -> Result<RawRow, RowsFault>
    requires { length (fields_of fields.now) < 2 ^ 32 }
    ensures ok { let all = fields_of fields.now in
        IfOk result (λ row. (record_refusal count nth all ≡ None) × (row ≡ raw_of all)) }
    ensures within { OnOk result (count < limit_of LimitKind.Rows) }
    ensures ranges { IfOk result IsRawInRange }
    ensures err { IfErr result (λ fault. record_refusal count nth (fields_of fields.now) ≡ Some fault) }
{
    if count as u64 >= MAX_ROWS {
        return Err(RowsFault::Limit {
            value: MAX_ROWS + 1,
        });
    }
    read_row(fields).map_err(|FieldFault { field, fault }| RowsFault::Row { nth, field, fault })
}

// Reads a record as a row: the number of its fields is judged first, then each from the left.
#[inline(always)]
fn read_row(fields: &ByteRecord) -> Result<RawRow, FieldFault>
    requires { length (fields_of fields.now) < 2 ^ 32 }
    ensures ok { let all = fields_of fields.now in
        IfOk result (λ row. (record_fault all ≡ None) × (row ≡ raw_of all)) }
    ensures ranges { IfOk result IsRawInRange }
    ensures err { IfErr result (λ fault. record_fault (fields_of fields.now) ≡ Some fault) }
{
    if fields.len() != FIELDS {
        return Err(FieldFault {
            field: fields.len() as u32,
            fault: RowFault::Count,
        });
    }
    let object = read_field(fields, 1, 0, MAX_OBJECT)?;
    let time = read_field(fields, 2, -FAR, FAR)?;
    let x = read_field(fields, 3, -FAR, FAR)?;
    let y = read_field(fields, 4, -FAR, FAR)?;
    Ok(RawRow {
        object: object as u32,
        time,
        x,
        y,
    })
}

// The value of a field of a record, counted from 1.
#[inline(always)]
fn read_field(fields: &ByteRecord, field: u32, least: i64, greatest: i64) -> Result<i64, FieldFault>
    requires first { 0 < field }
    requires last { field ≤ length (fields_of fields.now) }
    ensures ok { let word = slice_index_or (fields_of fields.now) (field - 1) [] in
        IfOk result (λ value. (field_fault least greatest word ≡ None) × (value ≡ field_value word)) }
    ensures within { IfOk result (λ value. (least ≤ℤ value) × (value ≤ℤ greatest)) }
    ensures err { let word = slice_index_or (fields_of fields.now) (field - 1) [] in
        IfErr result (λ at.
        (at.field ≡ field) × (field_fault least greatest word ≡ Some at.fault)) }
{
    let word = field_in(fields, field as usize - 1);
    number_within(word, least, greatest).map_err(|fault| FieldFault {
        field,
        fault: RowFault::from(fault),
    })
}
