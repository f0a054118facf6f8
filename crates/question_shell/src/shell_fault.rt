ghost use Rattle.std.specs.Prelude.{◌≡◌};
ghost use Rattle.question_shell.specs.declared.shell_fault.ShellFault.TheVariants as shell;

use crate::turn_fault::TurnFault;
use host_ports::Failed;
use track_types::Memory;

/// Why the lines of a source were not all answered.
#[derive(Clone, Copy, Debug, PartialEq, Eq)]
pub enum ShellFault {
    /// The source failed.
    Listen,
    /// The sink failed.
    Say,
    /// This many bytes of question input came: one more than it may have.
    Limit { value: u64 },
    /// Memory was refused.
    Memory,
}

impl From<Failed> for ShellFault {
    ghost from_gives = { λ _ fault. fault ≡ shell.Listen };

    fn from(_failed: Failed) -> Self {
        ShellFault::Listen
    }
}

impl From<Memory> for ShellFault {
    ghost from_gives = { λ _ fault. fault ≡ shell.Memory };

    fn from(_refused: Memory) -> Self {
        ShellFault::Memory
    }
}

impl From<TurnFault> for ShellFault {
    ghost use Rattle.question_shell.specs.RunEnds.{fault_of_turn};

    ghost from_gives = { λ cause fault. fault ≡ fault_of_turn cause };

    fn from(cause: TurnFault) -> Self {
        match cause {
            TurnFault::Say => ShellFault::Say,
            TurnFault::Memory => ShellFault::Memory,
        }
    }
}
