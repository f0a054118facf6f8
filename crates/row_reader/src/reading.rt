ghost use Rattle.std.specs.Prelude.{◌≡◌, ◌+◌, ◌^◌, ◌≤◌, ℕ, List, [], ◌∷◌, ◌++◌, length, take, Some, IfOk, IfErr, IsSomeAnd};
ghost use Rattle.track_types.specs.Limits.{limit_of};
ghost use Rattle.csv.specs.Records.{fields_of};
ghost use Rattle.row_reader.specs.Pieces.{Adds, AreRowsAfter, IsPast};
ghost use Rattle.row_reader.specs.Reading.{HasRead, ShowsNext};
ghost use Rattle.row_reader.specs.Row.{Fields};
ghost use Rattle.row_reader.specs.Rows.{IsRowsFault, records_of};

use crate::fault::RowsFault;
use crate::heading::is_data_record;
use crate::row::read_data;
use csv::{ByteRecord, Reader, ReaderBuilder};
use std::alloc::Global;
use std::io::Read;
use track_types::{LimitKind, RawRow};

/// How far the reading of a file is: the number of its next record, and how many rows it gave.
#[derive(Clone, Copy)]
pub struct Progress {
    pub next: u64,
    pub given: usize,
}

impl Progress {
    /// Of a file before any of it was read.
    pub fn start() -> Self
        ensures { IsPast [] result }
    {
        Progress { next: 1, given: 0 }
    }
}

/// Reads all records of the text that a source gives, which is a file's from its next record on, and
/// puts their rows after those of `rows`. After a refusal the rows of the records before it are
/// there too. A source that cannot be read is answered as `Memory`.
pub fn read_on<R: Read + Drop>(
    alloc: Global,
    source: R,
    progress: Progress,
    rows: &mut Vec<RawRow>,
) -> Result<Progress, RowsFault>
    requires { IsSomeAnd (R.remaining source) (λ text. length text ≤ limit_of LimitKind.Csv) }
    ensures ok { IfOk result (λ after. (text : List ℕ) → R.remaining source ≡ Some text →
        Adds rows.old.items rows.new.items (λ more.
        (before : List Fields) → IsPast before progress →
        AreRowsAfter before (records_of text) after more)) }
    ensures kept { take (length rows.old.items) rows.new.items ≡ rows.old.items }
    ensures fault { IfErr result (λ fault. (text : List ℕ) → R.remaining source ≡ Some text →
        (bytes : List ℕ) (before : List Fields) → IsPast before progress →
        records_of bytes ≡ before ++ records_of text → IsRowsFault bytes fault) }
{
    let mut reader = reader_of(alloc, source)?;
    let mut fields = ByteRecord::new(alloc);
    let mut given = progress.given;
    for nth in progress.next..u64::MAX {
        if !read_next(&mut reader, &mut fields)? {
            return Ok(Progress { next: nth, given });
        }
        if !is_data_record(nth, &fields) {
            continue;
        }
        let row = read_data(&fields, nth, given)?;
        rows.push(row)?;
        given += 1;
    }
    // No file has so many records.
    Err(RowsFault::Memory)
}

// A reader at the front of a text. It is given a header of no field: without one csv keeps two copies
// of the first record, which may be the whole text.
fn reader_of<R: Read + Drop>(alloc: Global, source: R) -> Result<Reader<R>, RowsFault>
    ensures ok { IfOk result (λ reader. (text : List ℕ) → R.remaining source ≡ Some text →
        HasRead R.remaining text [] reader) }
    ensures err { IfErr result (λ fault. fault ≡ RowsFault.Memory) }
{
    let mut reader = ReaderBuilder::new()
        .flexible(true)
        .from_reader(alloc, source);
    match reader.set_byte_headers(ByteRecord::new(alloc)) {
        Ok(()) => Ok(reader),
        Err(_refused) => Err(RowsFault::Memory),
    }
}

// Reads the next record, where there is one.
fn read_next<R: Read>(reader: &mut Reader<R>, fields: &mut ByteRecord) -> Result<bool, RowsFault>
    ensures found { (bytes : List ℕ) (seen : List Fields) → HasRead R.remaining bytes seen reader.old →
        IfOk result (ShowsNext R.remaining bytes seen (fields_of fields.new) reader.new) }
    ensures err { IfErr result (λ fault. fault ≡ RowsFault.Memory) }
{
    // Records of any length and any bytes are taken, so that csv refuses for want of memory alone.
    // Its contract leaves one more error open: that the source, a slice or two, cannot be read. It
    // is answered alike.
    match reader.read_byte_record(fields) {
        Ok(found) => Ok(found),
        Err(_refused) => Err(RowsFault::Memory),
    }
}
