ghost use Rattle.std.specs.Prelude.{◌≡◌};
ghost use Rattle.track_types.specs.declared.limit.LimitKind.TheVariants as limit;
ghost use Rattle.gract_top.specs.Extending.{extension_outcome};
ghost use Rattle.gract_top.specs.Faults.{ask_outcome, chart_outcome, ended, format_outcome, index_outcome, load_outcome};
ghost use Rattle.gract_top.specs.Faults.{rows_outcome, save_outcome, shell_outcome, turn_outcome};
ghost use Rattle.gract_top.specs.Merging.{merge_outcome};
ghost use Rattle.gract_top.specs.declared.fault.AskFault.TheVariants as ask;
ghost use Rattle.gract_top.specs.declared.fault.ChartFault.TheVariants as chart;
ghost use Rattle.gract_top.specs.declared.fault.IndexFault.TheVariants as index;
ghost use Rattle.gract_top.specs.declared.fault.LoadFault.TheVariants as load;
ghost use Rattle.gract_top.specs.declared.fault.SaveFault.TheVariants as save;

use crate::fault::{AskFault, ChartFault, IndexFault, LoadFault, SaveFault};
use crate::outcome::Outcome;
use gridding::GridFault;
use host_ports::Failed;
use index_format::FormatFault;
use index_merge::MergeFault;
use question_shell::{ShellFault, TurnFault};
use row_reader::RowsFault;
use std::alloc::AllocError;
use track_types::{LimitKind, Memory};

impl From<Failed> for LoadFault {
    ghost from_gives = { λ _ fault. fault ≡ load.Failed };

    fn from(_failed: Failed) -> Self {
        LoadFault::Failed
    }
}

impl From<AllocError> for LoadFault {
    ghost from_gives = { λ _ fault. fault ≡ load.Memory };

    fn from(_refused: AllocError) -> Self {
        LoadFault::Memory
    }
}

impl From<LoadFault> for ChartFault {
    ghost from_gives = { λ cause fault. chart_outcome fault ≡ load_outcome limit.Csv cause };

    fn from(cause: LoadFault) -> Self {
        match cause {
            LoadFault::Failed => ChartFault::LoadFailed,
            LoadFault::Long { value } => ChartFault::Limit {
                kind: LimitKind::Csv,
                value,
            },
            LoadFault::Memory => ChartFault::Memory,
        }
    }
}

impl From<RowsFault> for ChartFault {
    ghost from_gives = { λ cause fault. chart_outcome fault ≡ rows_outcome cause };

    fn from(cause: RowsFault) -> Self {
        match cause {
            RowsFault::Row { nth, field, fault } => ChartFault::Row { nth, field, fault },
            RowsFault::Limit { value } => ChartFault::Limit {
                kind: LimitKind::Rows,
                value,
            },
            RowsFault::Memory => ChartFault::Memory,
        }
    }
}

impl From<GridFault> for ChartFault {
    ghost from_gives = { λ cause fault. chart_outcome fault ≡ extension_outcome cause };

    fn from(cause: GridFault) -> Self {
        match cause {
            GridFault::Empty => ChartFault::Empty,
            GridFault::Limit { kind, value } => ChartFault::Limit { kind, value },
            GridFault::Memory => ChartFault::Memory,
        }
    }
}

impl From<Memory> for ChartFault {
    ghost from_gives = { λ _ fault. fault ≡ chart.Memory };

    fn from(_refused: Memory) -> Self {
        ChartFault::Memory
    }
}

impl From<LoadFault> for IndexFault {
    ghost from_gives = { λ cause fault. index_outcome fault ≡ load_outcome limit.Index cause };

    fn from(cause: LoadFault) -> Self {
        match cause {
            LoadFault::Failed => IndexFault::LoadFailed,
            LoadFault::Long { value } => IndexFault::Long { value },
            LoadFault::Memory => IndexFault::Memory,
        }
    }
}

impl From<Memory> for IndexFault {
    ghost from_gives = { λ _ fault. fault ≡ index.Memory };

    fn from(_refused: Memory) -> Self {
        IndexFault::Memory
    }
}

impl From<FormatFault> for IndexFault {
    ghost from_gives = { λ cause fault. index_outcome fault ≡ format_outcome cause };

    fn from(cause: FormatFault) -> Self {
        match cause {
            FormatFault::Flaw(flaw) => IndexFault::Flaw(flaw),
            FormatFault::Memory => IndexFault::Memory,
        }
    }
}

impl From<ChartFault> for SaveFault {
    ghost from_gives = { λ cause fault. fault ≡ save.Chart cause };

    fn from(cause: ChartFault) -> Self {
        SaveFault::Chart(cause)
    }
}

impl From<IndexFault> for SaveFault {
    ghost from_gives = { λ cause fault. fault ≡ save.Index cause };

    fn from(cause: IndexFault) -> Self {
        SaveFault::Index(cause)
    }
}

impl From<MergeFault> for SaveFault {
    ghost from_gives = { λ cause fault. fault ≡ save.Merge cause };

    fn from(cause: MergeFault) -> Self {
        SaveFault::Merge(cause)
    }
}

impl From<Failed> for SaveFault {
    ghost from_gives = { λ _ fault. fault ≡ save.Failed };

    fn from(_failed: Failed) -> Self {
        SaveFault::Failed
    }
}

impl From<ChartFault> for AskFault {
    ghost from_gives = { λ cause fault. fault ≡ ask.Chart cause };

    fn from(cause: ChartFault) -> Self {
        AskFault::Chart(cause)
    }
}

impl From<IndexFault> for AskFault {
    ghost from_gives = { λ cause fault. fault ≡ ask.Index cause };

    fn from(cause: IndexFault) -> Self {
        AskFault::Index(cause)
    }
}

impl From<FormatFault> for AskFault {
    ghost from_gives = { λ cause fault. ask_outcome fault ≡ format_outcome cause };

    fn from(cause: FormatFault) -> Self {
        AskFault::Index(cause.into())
    }
}

impl From<ShellFault> for AskFault {
    ghost from_gives = { λ cause fault. fault ≡ ask.Talk cause };

    fn from(cause: ShellFault) -> Self {
        AskFault::Talk(cause)
    }
}

impl From<TurnFault> for AskFault {
    ghost from_gives = { λ cause fault. ask_outcome fault ≡ turn_outcome cause };

    fn from(cause: TurnFault) -> Self {
        AskFault::Talk(cause.into())
    }
}

impl From<ChartFault> for Outcome {
    ghost from_gives = { λ fault outcome. outcome ≡ chart_outcome fault };

    fn from(fault: ChartFault) -> Self {
        match fault {
            ChartFault::LoadFailed => Outcome::LoadFailed,
            ChartFault::Row { nth, field, fault } => Outcome::Row { nth, field, fault },
            ChartFault::Empty => Outcome::Empty,
            ChartFault::Limit { kind, value } => Outcome::Limit { kind, value },
            ChartFault::Memory => Outcome::Memory,
        }
    }
}

impl From<IndexFault> for Outcome {
    ghost from_gives = { λ fault outcome. outcome ≡ index_outcome fault };

    fn from(fault: IndexFault) -> Self {
        match fault {
            IndexFault::LoadFailed => Outcome::LoadFailed,
            IndexFault::Long { value } => Outcome::Limit {
                kind: LimitKind::Index,
                value,
            },
            IndexFault::Flaw(flaw) => Outcome::Flaw(flaw),
            IndexFault::Memory => Outcome::Memory,
        }
    }
}

impl From<MergeFault> for Outcome {
    ghost from_gives = { λ fault outcome. outcome ≡ merge_outcome fault };

    fn from(fault: MergeFault) -> Self {
        match fault {
            MergeFault::Settings {
                setting,
                left,
                right,
            } => Outcome::Settings {
                setting,
                left,
                right,
            },
            MergeFault::Common { object } => Outcome::Common { object },
            MergeFault::Limit { kind, value } => Outcome::Limit { kind, value },
            MergeFault::Empty => Outcome::Empty,
            MergeFault::Memory => Outcome::Memory,
        }
    }
}

impl From<ShellFault> for Outcome {
    ghost from_gives = { λ fault outcome. outcome ≡ shell_outcome fault };

    fn from(fault: ShellFault) -> Self {
        match fault {
            ShellFault::Listen => Outcome::ListenFailed,
            ShellFault::Say => Outcome::SayFailed,
            ShellFault::Limit { value } => Outcome::Limit {
                kind: LimitKind::Questions,
                value,
            },
            ShellFault::Memory => Outcome::Memory,
        }
    }
}

impl From<Result<(), SaveFault>> for Outcome {
    ghost from_gives = { λ end outcome. outcome ≡ ended save_outcome end };

    fn from(end: Result<(), SaveFault>) -> Self {
        match end {
            Ok(()) => Outcome::Done,
            Err(SaveFault::Chart(fault)) => fault.into(),
            Err(SaveFault::Index(fault)) => fault.into(),
            Err(SaveFault::Merge(fault)) => fault.into(),
            Err(SaveFault::Failed) => Outcome::SaveFailed,
        }
    }
}

impl From<Result<(), AskFault>> for Outcome {
    ghost from_gives = { λ end outcome. outcome ≡ ended ask_outcome end };

    fn from(end: Result<(), AskFault>) -> Self {
        match end {
            Ok(()) => Outcome::Done,
            Err(AskFault::Chart(fault)) => fault.into(),
            Err(AskFault::Index(fault)) => fault.into(),
            Err(AskFault::Talk(fault)) => fault.into(),
        }
    }
}

// The end of a command that ends as its talk does.
pub(crate) fn end_of_talk(talk: Result<(), ShellFault>) -> Result<(), AskFault>
    ensures { ended ask_outcome result ≡ ended shell_outcome talk }
{
    Ok(talk?)
}

// The end of a command that ends as its summary does.
pub(crate) fn end_of_summary(said: Result<(), TurnFault>) -> Result<(), AskFault>
    ensures { ended ask_outcome result ≡ ended turn_outcome said }
{
    Ok(said?)
}
