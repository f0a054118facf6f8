ghost use Rattle.std.specs.Prelude.{◌≡◌};
ghost use Rattle.index_merge.specs.declared.fault.MergeFault.TheVariants.{Memory as MemoryFault};

use gridding::GridFault;
use std::alloc::{AllocError, AllocFailed};
use track_types::{LimitKind, Memory, Setting};

/// Why two indexes have no union.
#[derive(Clone, Copy, Debug, PartialEq, Eq)]
pub enum MergeFault {
    /// The indexes differ in a setting.
    Settings {
        setting: Setting,
        /// That of the first index.
        left: u64,
        /// That of the second one.
        right: u64,
    },
    /// An object is listed in both.
    Common {
        object: u32,
    },
    /// A quantity passes its limit.
    Limit {
        kind: LimitKind,
        /// The quantity, which is greater than its limit.
        value: u64,
    },
    /// Neither index has a row.
    Empty,
    /// Memory was refused. It may come at any indexes.
    Memory,
}

impl From<Memory> for MergeFault {
    ghost from_gives = { λ _ fault. fault ≡ MemoryFault };

    fn from(_refused: Memory) -> Self {
        MergeFault::Memory
    }
}

impl From<AllocError> for MergeFault {
    ghost from_gives = { λ _ fault. fault ≡ MemoryFault };

    fn from(_refused: AllocError) -> Self {
        MergeFault::Memory
    }
}

impl<T: Drop> From<AllocFailed<T>> for MergeFault {
    ghost from_gives = { λ _ fault. fault ≡ MemoryFault };

    fn from(_refused: AllocFailed<T>) -> Self {
        MergeFault::Memory
    }
}

impl From<GridFault> for MergeFault {
    ghost use Rattle.index_merge.specs.MergeFault.{merge_fault_of};

    ghost from_gives = { λ cause fault. fault ≡ merge_fault_of cause };

    fn from(cause: GridFault) -> Self {
        match cause {
            GridFault::Empty => MergeFault::Empty,
            GridFault::Limit { kind, value } => MergeFault::Limit { kind, value },
            GridFault::Memory => MergeFault::Memory,
        }
    }
}
