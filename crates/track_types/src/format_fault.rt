ghost use Rattle.std.specs.Prelude.{◌≡◌};
ghost use Rattle.track_types.specs.declared.format_fault.FormatFault.TheVariants as fault;

use crate::flaw::Flaw;
use crate::memory::Memory;
use std::alloc::{AllocError, AllocFailed};
use std::error::Error;
use std::fmt::{self, Display, Formatter, Write};

/// Why bytes are not taken as those of an index.
#[derive(Clone, Copy, Debug, PartialEq, Eq)]
pub enum FormatFault {
    /// The bytes are not of the format: the first of their flaws.
    Flaw(Flaw),
    /// Memory was refused. It may be answered to any bytes.
    Memory,
}

impl From<Memory> for FormatFault {
    ghost from_gives = { λ _ answer. answer ≡ fault.Memory };

    fn from(_memory: Memory) -> Self {
        FormatFault::Memory
    }
}

impl From<AllocError> for FormatFault {
    ghost from_gives = { λ _ answer. answer ≡ fault.Memory };

    fn from(_error: AllocError) -> Self {
        FormatFault::Memory
    }
}

impl<T: Drop> From<AllocFailed<T>> for FormatFault {
    ghost from_gives = { λ _ answer. answer ≡ fault.Memory };

    fn from(_refused: AllocFailed<T>) -> Self {
        FormatFault::Memory
    }
}

impl Display for FormatFault {
    fn fmt<W: Write>(&self, f: &mut Formatter<W>) -> fmt::Result {
        match self {
            FormatFault::Flaw(flaw) => write!(
                f,
                "{:?} {:?} in period {} at place {}",
                flaw.kind, flaw.section, flaw.period, flaw.index
            ),
            FormatFault::Memory => f.write_str("out of memory"),
        }
    }
}

impl Error for FormatFault {}
