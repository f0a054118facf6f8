ghost use Rattle.std.specs.Prelude.{◌≡◌, ℕ, ◌+◌, ◌≤◌, false, length};
ghost use Rattle.step_count.specs.Reads.{AllMay};
ghost use Rattle.track_types.specs.declared.limit.TheConstants.{MAX_INDEX};
ghost use Rattle.question_shell.specs.Session.{meaning_by};
ghost use Rattle.track_index.specs.Opening.{IsFile};
ghost use Rattle.track_types.specs.declared.parts.Parts.{Parts};
ghost use Rattle.gract_top.specs.Counting.{CountsTalk};
ghost use Rattle.gract_top.specs.Faults.{ask_outcome, ended, shell_outcome};
ghost use Rattle.gract_top.specs.Outcome.{AnswersSource, EndsOpened, EndsOver, talk_of};
ghost use Rattle.gract_top.specs.Refusal.{is_early};

use crate::fault::AskFault;
use crate::fault_outcomes::end_of_talk;
use encounter::IndexMeets;
use host_ports::{Sink, Source};
use question_shell::{Desk, ShellFault, run};
use std::alloc::Global;
use step_count::{Reads, Steps};
use track_index::open_bytes;
use track_types::Meets;

// Opens the bytes of an index file, and answers the source's lines from the index.
pub(crate) fn answer_bytes<S: Source, K: Sink, L: Reads>(
    alloc: Global,
    bytes: Vec<u8>,
    source: &mut S,
    sink: &mut K,
    steps: &mut Steps<L>,
) -> Result<(), AskFault>
    requires known { length bytes.items ≤ MAX_INDEX }
    requires may { AllMay L.may }
    ensures late { is_early (ended ask_outcome result) ≡ false }
    ensures ended { EndsOpened (ended ask_outcome result) bytes.items ((source.new ≡ source.old) × (sink.new ≡ sink.old))
        (talk_of S.Source K.Sink source.old sink.old steps.old)
        (talk_of S.Source K.Sink source.new sink.new steps.new) }
    ensures decides { (parts : Parts) → IsFile bytes.items parts →
        EndsOver (ended ask_outcome result) bytes.items parts ((source.new ≡ source.old) × (sink.new ≡ sink.old))
        (talk_of S.Source K.Sink source.old sink.old steps.old)
        (talk_of S.Source K.Sink source.new sink.new steps.new) }
    ensures counts { CountsTalk S.Source K.Sink (ended ask_outcome result) source.old source.new sink.old sink.new }
{
    let index = open_bytes(alloc, bytes, steps)?;
    end_of_talk(answer_with(alloc, IndexMeets::new(&index), source, sink, steps))
}

// Answers the source's lines from an empty desk, over whatever answers questions.
pub(crate) fn answer_with<A: Meets, S: Source, K: Sink, L: Reads>(
    alloc: Global,
    answerer: A,
    source: &mut S,
    sink: &mut K,
    steps: &mut Steps<L>,
) -> Result<(), ShellFault>
    requires may { AllMay L.may }
    ensures answers { AnswersSource (ended shell_outcome result) ((source.new ≡ source.old) × (sink.new ≡ sink.old))
        (meaning_by A.Answerer answerer)
        (talk_of S.Source K.Sink source.old sink.old steps.old)
        (talk_of S.Source K.Sink source.new sink.new steps.new) }
    ensures counts { CountsTalk S.Source K.Sink (ended shell_outcome result) source.old source.new sink.old sink.new }
{
    let Ok(mut desk) = Desk::new(alloc) else {
        return Err(ShellFault::Memory);
    };
    run(alloc, answerer, &mut desk, source, sink, steps)
}
