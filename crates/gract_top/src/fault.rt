use index_merge::MergeFault;
use question_shell::ShellFault;
use track_types::{Flaw, LimitKind, RowFault};

/// Why a file was not loaded.
#[derive(Clone, Copy, Debug, PartialEq, Eq)]
pub(crate) enum LoadFault {
    /// The files failed, or there is no such file.
    Failed,
    /// So many bytes came: one more than it may have.
    Long { value: u64 },
    /// Memory was refused.
    Memory,
}

/// Why a CSV file gave no chart.
#[derive(Clone, Copy, Debug, PartialEq, Eq)]
pub(crate) enum ChartFault {
    LoadFailed,
    /// A record is no row.
    Row {
        nth: u64,
        field: u32,
        fault: RowFault,
    },
    /// There is no row.
    Empty,
    /// The file is too long, or a quantity of its chart passes its limit.
    Limit {
        kind: LimitKind,
        value: u64,
    },
    Memory,
}

/// Why an index file was not opened.
#[derive(Clone, Copy, Debug, PartialEq, Eq)]
pub(crate) enum IndexFault {
    LoadFailed,
    /// The file is too long.
    Long { value: u64 },
    /// The first flaw of its bytes.
    Flaw(Flaw),
    Memory,
}

/// Why a command saved nothing, or failed to.
#[derive(Clone, Copy, Debug, PartialEq, Eq)]
pub(crate) enum SaveFault {
    Chart(ChartFault),
    Index(IndexFault),
    Merge(MergeFault),
    /// The files failed.
    Failed,
}

/// Why a command did not answer all questions, or say all of a summary.
#[derive(Clone, Copy, Debug, PartialEq, Eq)]
pub(crate) enum AskFault {
    Chart(ChartFault),
    Index(IndexFault),
    Talk(ShellFault),
}
