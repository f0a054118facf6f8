ghost use Rattle.std.specs.Prelude.{◌≡◌};
ghost use Rattle.question_shell.specs.declared.turn_fault.TurnFault.TheVariants as turn;

use host_ports::Cut;
use track_types::Memory;

/// Why a line was not answered.
#[derive(Clone, Copy, Debug, PartialEq, Eq)]
pub enum TurnFault {
    /// The sink failed.
    Say,
    /// Memory was refused.
    Memory,
}

impl From<Cut> for TurnFault {
    ghost from_gives = { λ _ fault. fault ≡ turn.Say };

    fn from(_cut: Cut) -> Self {
        TurnFault::Say
    }
}

impl From<Memory> for TurnFault {
    ghost from_gives = { λ _ fault. fault ≡ turn.Memory };

    fn from(_refused: Memory) -> Self {
        TurnFault::Memory
    }
}
