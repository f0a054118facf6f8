ghost use Rattle.std.specs.Prelude.{◌≡◌, ◌+◌, ◌≤◌, IfSome};
ghost use Rattle.step_count.specs.Reads.{AllMay};
ghost use Rattle.host_ports.specs.Meanings.{files_at};
ghost use Rattle.live_tail.specs.Join.{IsAsBuiltTogether};
ghost use Rattle.live_tail.specs.View.{IsOfFrame};
ghost use Rattle.snapshots.specs.Parts.{chart_in};
ghost use Rattle.encounter.specs.WalkedCost.{walked_cost};
ghost use Rattle.question_shell.specs.Session.{meaning_of};
ghost use Rattle.gract_top.specs.Counting.{CountsTalk};
ghost use Rattle.gract_top.specs.Faults.{ask_outcome, ended, shell_outcome};
ghost use Rattle.gract_top.specs.Outcome.{AnswersSource, talk_of};
ghost use Rattle.gract_top.specs.TailAsking.{EndsAskTail, tailed_meaning};

use crate::answering::answer_with;
use crate::fault::AskFault;
use crate::fault_outcomes::end_of_talk;
use crate::index_opening::open_file;
use crate::tail_opening::{load_tail, settings_of};
use encounter::Walked;
use host_ports::{Files, Sink, Source};
use live_tail::Tailed;
use question_shell::ShellFault;
use std::alloc::Global;
use step_count::{Reads, Steps};
use track_index::Index;
use track_types::{Answerer, Chart};

// Answers the source's lines from the index file of one name with the rows of the CSV file of another, which is begun
// once the index is open.
pub(crate) fn ask_tail<F: Files, S: Source, K: Sink, L: Reads>(
    alloc: Global,
    index: &str,
    tail: &str,
    files: &mut F,
    source: &mut S,
    sink: &mut K,
    steps: &mut Steps<L>,
) -> Result<(), AskFault>
    requires may { AllMay L.may }
    ensures ends { EndsAskTail (ended ask_outcome result) index.now tail.now
        ((source.new ≡ source.old) × (sink.new ≡ sink.old))
        (files_at F.Files files.old) (files_at F.Files files.new)
        (talk_of S.Source K.Sink source.old sink.old steps.old)
        (talk_of S.Source K.Sink source.new sink.new steps.new) }
    ensures talk { CountsTalk S.Source K.Sink (ended ask_outcome result) source.old source.new sink.old sink.new }
    ensures given { F.given files.new ≡ F.given files.old }
{
    let index = open_file(alloc, index, files, steps)?;
    let tail = load_tail(alloc, tail, settings_of(&index), files)?;
    end_of_talk(ask_opened(alloc, &index, tail, source, sink, steps))
}

// Answers the source's lines from an index with its tail.
fn ask_opened<S: Source, K: Sink, L: Reads>(
    alloc: Global,
    index: &Index,
    tail: Option<Chart>,
    source: &mut S,
    sink: &mut K,
    steps: &mut Steps<L>,
) -> Result<(), ShellFault>
    requires known { IfSome tail (IsOfFrame index.now.frame) }
    requires may { AllMay L.may }
    ensures together { IsAsBuiltTogether (chart_in index.now) tail }
    ensures answers { AnswersSource (ended shell_outcome result) ((source.new ≡ source.old) × (sink.new ≡ sink.old))
        (tailed_meaning index.now tail)
        (talk_of S.Source K.Sink source.old sink.old steps.old)
        (talk_of S.Source K.Sink source.new sink.new steps.new) }
    ensures counts { CountsTalk S.Source K.Sink (ended shell_outcome result) source.old source.new sink.old sink.new }
{
    let Ok(tailed) = Tailed::join(alloc, index, tail) else {
        return Err(ShellFault::Memory);
    };
    answer_walked(alloc, tailed.view(), source, sink, steps)
}

// Answers the source's lines over whatever answers questions, and a meeting by two of its paths.
fn answer_walked<A: Answerer, S: Source, K: Sink, L: Reads>(
    alloc: Global,
    answerer: A,
    source: &mut S,
    sink: &mut K,
    steps: &mut Steps<L>,
) -> Result<(), ShellFault>
    requires may { AllMay L.may }
    ensures answers { AnswersSource (ended shell_outcome result) ((source.new ≡ source.old) × (sink.new ≡ sink.old))
        (meaning_of (A.chart answerer) (A.facts answerer) (walked_cost (A.cost answerer)))
        (talk_of S.Source K.Sink source.old sink.old steps.old)
        (talk_of S.Source K.Sink source.new sink.new steps.new) }
    ensures counts { CountsTalk S.Source K.Sink (ended shell_outcome result) source.old source.new sink.old sink.new }
{
    answer_with(alloc, Walked::new(answerer), source, sink, steps)
}
