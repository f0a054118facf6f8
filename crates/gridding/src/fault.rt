ghost use Rattle.std.specs.Prelude.{◌≡◌};
ghost use Rattle.gridding.specs.declared.fault.GridFault.TheVariants.{Memory};

use std::alloc::AllocError;
use track_types::LimitKind;

/// Why rows have no chart.
#[derive(Clone, Copy, Debug, PartialEq, Eq)]
pub enum GridFault {
    /// There is no row.
    Empty,
    /// A quantity passes its limit.
    Limit {
        kind: LimitKind,
        /// The quantity, which is greater than its limit.
        value: u64,
    },
    /// Memory was refused. It may come at any rows.
    Memory,
}

impl From<AllocError> for GridFault {
    ghost from_gives = { λ _ fault. fault ≡ Memory };

    fn from(_refused: AllocError) -> Self {
        GridFault::Memory
    }
}
