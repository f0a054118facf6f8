ghost use Rattle.std.specs.Prelude.{Some, codes, decimal, ◌++◌};

use std::error::Error;
use std::fmt::{self, Display, Formatter, Write};

/// A device failed, or there is no such file.
#[derive(Clone, Copy, Debug, PartialEq, Eq)]
pub struct Failed;

/// A sink took only the first `sent` bytes of a piece.
#[derive(Clone, Copy, Debug, PartialEq, Eq)]
pub struct Cut {
    pub sent: usize,
}

impl Display for Failed {
    ghost output = { λ _. Some (codes "the device failed or has no such file") };

    fn fmt<W: Write>(&self, f: &mut Formatter<W>) -> fmt::Result {
        f.write_str("the device failed or has no such file")
    }
}

impl Error for Failed {}

impl Display for Cut {
    ghost output = { λ cut. Some (codes "cut after " ++ decimal cut.sent ++ codes " bytes") };

    fn fmt<W: Write>(&self, f: &mut Formatter<W>) -> fmt::Result {
        write!(f, "cut after {} bytes", self.sent)
    }
}

impl Error for Cut {}
