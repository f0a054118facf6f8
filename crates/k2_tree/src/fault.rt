use std::error::Error;
use std::fmt::{self, Display, Formatter, Write};

/// Why bits are not taken as a tree.
#[derive(Clone, Copy, Debug, PartialEq, Eq)]
pub enum TreeFault {
    /// The bits are those of no set of cells. `place` is the start of the first group that is not
    /// whole or has no bit 1; a group has sixteen bits in a wide level, and else four. Without such
    /// a group it is the place after the last level, where bits remain.
    Flaw { place: u32 },
    /// Memory was refused. It may be answered to any bits without a flaw.
    Memory,
}

impl Display for TreeFault {
    fn fmt<W: Write>(&self, f: &mut Formatter<W>) -> fmt::Result {
        match self {
            TreeFault::Flaw { place } => write!(
                f,
                "no tree has these bits: the first flaw is at place {place}"
            ),
            TreeFault::Memory => write!(f, "out of memory"),
        }
    }
}

impl Error for TreeFault {}
