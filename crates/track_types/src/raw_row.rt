ghost use Rattle.std.specs.Prelude.{◌≡◌};
ghost use Rattle.track_types.specs.Bounds.{row_fault_of};

use crate::bounds::NumberFault;
use std::error::Error;
use std::fmt::{self, Display, Formatter, Write};

/// A row of the CSV file as it was read: where an object was at a time, in the file's own units.
#[derive(Clone, Copy, Debug, PartialEq, Eq)]
pub struct RawRow {
    /// The object's number, 0 to 2^32 - 1.
    pub object: u32,
    /// At most `MAX_PLACE` away from 0, as are the two coordinates.
    pub time: i64,
    pub x: i64,
    pub y: i64,
}

/// Why a record is not a row.
#[derive(Clone, Copy, Debug, PartialEq, Eq)]
pub enum RowFault {
    /// It does not have four fields.
    Count,
    /// A field is no numeral.
    NotNumber,
    /// A field's value is out of its range.
    Range,
}

impl Display for RowFault {
    ghost use Rattle.std.specs.Prelude.{Some};
    ghost use Rattle.track_types.specs.FaultText.{row_fault_text};

    ghost output = { λ fault. Some (row_fault_text fault) };

    fn fmt<W: Write>(&self, f: &mut Formatter<W>) -> fmt::Result {
        f.write_str(match self {
            RowFault::Count => "not four fields",
            RowFault::NotNumber => "not a number",
            RowFault::Range => "out of range",
        })
    }
}

impl Error for RowFault {}

impl From<NumberFault> for RowFault {
    ghost from_gives = { λ fault row. row ≡ row_fault_of fault };

    fn from(fault: NumberFault) -> Self {
        match fault {
            NumberFault::NotNumber => RowFault::NotNumber,
            NumberFault::Range => RowFault::Range,
        }
    }
}
