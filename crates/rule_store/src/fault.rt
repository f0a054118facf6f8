ghost use Rattle.std.specs.Prelude.{◌≡◌};
ghost use Rattle.rule_store.specs.Flaws.{format_fault_of_rules};
ghost use Rattle.rule_store.specs.declared.fault.RuleFault.TheVariants.{Memory};

use std::error::Error;
use std::fmt::{self, Display, Formatter, Write};
use track_types::{Flaw, FormatFault, Kind, Section};

/// Why lists are not taken as the rules of an index.
#[derive(Clone, Copy, Debug, PartialEq, Eq)]
pub enum RuleFault {
    /// The value at this place of the alphabet is a movement that leads out of each grid of this
    /// height.
    Code { index: u32 },
    /// This rule, counted from 0, has a part that is not below its own symbol, or lasts longer than a
    /// period does after its first instant, or moves too far.
    Rule { rule: u32 },
    /// The stored symbol at this place is neither a terminal nor a rule.
    Symbol { index: u32 },
    /// Memory was refused. It may be answered to any lists.
    Memory,
}

impl Display for RuleFault {
    fn fmt<W: Write>(&self, f: &mut Formatter<W>) -> fmt::Result {
        match self {
            RuleFault::Code { index } => write!(f, "movement {index} is too long for the grid"),
            RuleFault::Rule { rule } => write!(f, "rule {rule} has wrong parts or goes too far"),
            RuleFault::Symbol { index } => write!(f, "symbol {index} is unknown"),
            RuleFault::Memory => write!(f, "out of memory"),
        }
    }
}

impl Error for RuleFault {}

impl From<track_types::Memory> for RuleFault {
    ghost from_gives = { λ _ fault. fault ≡ Memory };

    fn from(_memory: track_types::Memory) -> Self {
        RuleFault::Memory
    }
}

impl From<RuleFault> for FormatFault {
    ghost from_gives = { λ cause fault. fault ≡ format_fault_of_rules cause };

    fn from(cause: RuleFault) -> Self {
        let (section, kind, index) = match cause {
            RuleFault::Code { index } => (Section::Alphabet, Kind::Code, index),
            RuleFault::Rule { rule } => (Section::Rules, Kind::Rule, rule),
            RuleFault::Symbol { index } => (Section::Log, Kind::Symbol, index),
            RuleFault::Memory => return FormatFault::Memory,
        };
        FormatFault::Flaw(Flaw {
            section,
            period: 0,
            index: u64::from(index),
            kind,
        })
    }
}
