ghost use Rattle.std.specs.Prelude.{◌≡◌};
ghost use Rattle.row_reader.specs.declared.fault.RowsFault.TheVariants.{Memory};

use std::alloc::AllocFailed;
use track_types::RowFault;

/// Why a file gave no rows.
#[derive(Clone, Copy, Debug, PartialEq, Eq)]
pub enum RowsFault {
    /// A record is no row. Records are numbered from 1, and so are its fields; where their count is
    /// the fault, `field` is how many it has.
    Row {
        nth: u64,
        field: u32,
        fault: RowFault,
    },
    /// The file has more data records than 2^24. `value` is 2^24 + 1.
    Limit {
        value: u64,
    },
    /// Memory was refused. It may be answered to any file.
    Memory,
}

impl RowsFault {
    ghost use Rattle.row_reader.specs.Rows.{is_refusal};

    // Whether it is of the file, and not want of memory.
    pub(crate) fn is_refusal(self) -> bool
        ensures { result ≡ is_refusal self }
    {
        match self {
            RowsFault::Row { .. } | RowsFault::Limit { .. } => true,
            RowsFault::Memory => false,
        }
    }
}

impl<T: Drop> From<AllocFailed<T>> for RowsFault {
    ghost from_gives = { λ _ fault. fault ≡ Memory };

    fn from(_refused: AllocFailed<T>) -> Self {
        RowsFault::Memory
    }
}
