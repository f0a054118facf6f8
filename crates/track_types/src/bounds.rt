ghost use Rattle.std.specs.Prelude.{◌≡◌, ◌≤ℤ◌, IfOk};
ghost use Rattle.track_types.specs.Bounds.{number_within};

use crate::numeral::{Numeral, number};
use std::error::Error;
use std::fmt::{self, Display, Formatter, Write};

/// Why a word is no numeral within two bounds.
#[derive(Clone, Copy, Debug, PartialEq, Eq)]
pub enum NumberFault {
    /// It is no numeral.
    NotNumber,
    /// It is one, and its value is out of the bounds.
    Range,
}

impl Display for NumberFault {
    ghost use Rattle.std.specs.Prelude.{Some};
    ghost use Rattle.track_types.specs.FaultText.{number_fault_text};

    ghost output = { λ fault. Some (number_fault_text fault) };

    fn fmt<W: Write>(&self, f: &mut Formatter<W>) -> fmt::Result {
        f.write_str(match self {
            NumberFault::NotNumber => "not a number",
            NumberFault::Range => "out of range",
        })
    }
}

impl Error for NumberFault {}

/// The value of a word that is a numeral from `least` to `greatest`, both counted.
///
/// `NotNumber` where the word is no numeral, and `Range` where it is one whose value is not within the
/// bounds. A value outside -2^62 to 2^62 is within no bounds. It takes no memory.
pub fn number_within(word: &[u8], least: i64, greatest: i64) -> Result<i64, NumberFault>
    ensures exact { result ≡ number_within least greatest word.now }
    ensures within { IfOk result (λ value. (least ≤ℤ value) × (value ≤ℤ greatest)) }
{
    match number(word) {
        Numeral::Not => Err(NumberFault::NotNumber),
        Numeral::Value(value) if least <= value && value <= greatest => Ok(value),
        Numeral::Value(_) | Numeral::Large => Err(NumberFault::Range),
    }
}
