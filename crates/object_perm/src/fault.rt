ghost use Rattle.std.specs.Prelude.{◌≡◌};
ghost use Rattle.object_perm.specs.declared.fault.PermFault.TheVariants.{Memory};

use std::error::Error;
use std::fmt::{self, Display, Formatter, Write};

/// Why a list is not taken as a permutation.
#[derive(Clone, Copy, Debug, PartialEq, Eq)]
pub enum PermFault {
    /// The list is no permutation: `index` is the first place whose value is not below the length
    /// or stood before.
    Flaw { index: u32 },
    /// Memory was refused. It may be answered to any list.
    Memory,
}

impl Display for PermFault {
    fn fmt<W: Write>(&self, f: &mut Formatter<W>) -> fmt::Result {
        match self {
            PermFault::Flaw { index } => write!(f, "no permutation from place {index} on"),
            PermFault::Memory => f.write_str("no memory for the shortcuts of a permutation"),
        }
    }
}

impl Error for PermFault {}

impl From<track_types::Memory> for PermFault {
    ghost from_gives = { λ _ fault. fault ≡ Memory };

    fn from(_memory: track_types::Memory) -> Self {
        PermFault::Memory
    }
}
