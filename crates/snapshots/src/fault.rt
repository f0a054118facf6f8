ghost use Rattle.std.specs.Prelude.{◌≡◌};
ghost use Rattle.snapshots.specs.Flaws.{format_fault_of_period};
ghost use Rattle.snapshots.specs.declared.fault.SnapFault.TheVariants.{Memory};

use std::alloc::AllocError;
use std::error::Error;
use std::fmt::{self, Display, Formatter, Write};
use track_types::{Flaw, FormatFault};

/// Why parts are not taken as a period's snapshot.
#[derive(Clone, Copy, Debug, PartialEq, Eq)]
pub enum SnapFault {
    /// The parts are not those of a period: the first of their flaws.
    Flaw(Flaw),
    /// Memory was refused. It may be answered to any parts.
    Memory,
}

impl Display for SnapFault {
    fn fmt<W: Write>(&self, f: &mut Formatter<W>) -> fmt::Result {
        match self {
            SnapFault::Flaw(flaw) => write!(
                f,
                "flawed {:?} of period {} at {}: {:?}",
                flaw.section, flaw.period, flaw.index, flaw.kind
            ),
            SnapFault::Memory => f.write_str("out of memory"),
        }
    }
}

impl Error for SnapFault {}

impl From<track_types::Memory> for SnapFault {
    ghost from_gives = { λ _ fault. fault ≡ Memory };

    fn from(_memory: track_types::Memory) -> Self {
        SnapFault::Memory
    }
}

impl From<AllocError> for SnapFault {
    ghost from_gives = { λ _ fault. fault ≡ Memory };

    fn from(_error: AllocError) -> Self {
        SnapFault::Memory
    }
}

impl From<SnapFault> for FormatFault {
    ghost from_gives = { λ cause fault. fault ≡ format_fault_of_period cause };

    fn from(cause: SnapFault) -> Self {
        match cause {
            SnapFault::Flaw(flaw) => FormatFault::Flaw(flaw),
            SnapFault::Memory => FormatFault::Memory,
        }
    }
}
