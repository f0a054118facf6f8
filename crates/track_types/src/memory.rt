ghost use Rattle.std.specs.Prelude.{Some, codes};

use std::alloc::{AllocError, AllocFailed};
use std::error::Error;
use std::fmt::{self, Display, Formatter, Write};

/// Memory was refused. It is the one answer that may come at any call that allocates.
#[derive(Clone, Copy, Debug, PartialEq, Eq)]
pub struct Memory;

impl Display for Memory {
    ghost output = { λ _. Some (codes "out of memory") };

    fn fmt<W: Write>(&self, f: &mut Formatter<W>) -> fmt::Result {
        f.write_str("out of memory")
    }
}

impl Error for Memory {}

impl From<AllocError> for Memory {
    fn from(_error: AllocError) -> Self {
        Memory
    }
}

impl<T: Drop> From<AllocFailed<T>> for Memory {
    fn from(_refused: AllocFailed<T>) -> Self {
        Memory
    }
}
