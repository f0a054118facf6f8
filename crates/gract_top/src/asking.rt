ghost use Rattle.std.specs.Prelude.{◌≡◌};
ghost use Rattle.step_count.specs.Reads.{AllMay};
ghost use Rattle.gract_top.specs.Counting.{CountsTalk};
ghost use Rattle.gract_top.specs.Ends.{EndsAsk, EndsOnce, moment_of};
ghost use Rattle.gract_top.specs.Faults.{ask_outcome, ended};
ghost use Rattle.gract_top.specs.Request.{AreSettings};

use crate::answering::answer_bytes;
use crate::chart_writing::chart_bytes;
use crate::fault::AskFault;
use crate::index_opening::load_index;
use crate::request::Settings;
use host_ports::{Files, Sink, Source};
use std::alloc::Global;
use step_count::{Reads, Steps};

// Answers the source's lines from the index of the CSV file of that name. What is opened is what the
// files give for the bytes of that index.
pub(crate) fn once<F: Files, S: Source, K: Sink, L: Reads>(
    alloc: Global,
    csv: &str,
    settings: Settings,
    files: &mut F,
    source: &mut S,
    sink: &mut K,
    steps: &mut Steps<L>,
) -> Result<(), AskFault>
    requires known { AreSettings settings }
    requires may { AllMay L.may }
    ensures ends { EndsOnce (ended ask_outcome result) csv.now settings
        ((source.new ≡ source.old) × (sink.new ≡ sink.old))
        (moment_of F.Files S.Source K.Sink files.old source.old sink.old steps.old)
        (moment_of F.Files S.Source K.Sink files.new source.new sink.new steps.new) }
    ensures talk { CountsTalk S.Source K.Sink (ended ask_outcome result) source.old source.new sink.old sink.new }
{
    let bytes = chart_bytes(alloc, csv, settings, files)?;
    let bytes = files.pass(bytes);
    answer_bytes(alloc, bytes, source, sink, steps)
}

// Answers the source's lines from the index file of that name.
pub(crate) fn ask<F: Files, S: Source, K: Sink, L: Reads>(
    alloc: Global,
    index: &str,
    files: &mut F,
    source: &mut S,
    sink: &mut K,
    steps: &mut Steps<L>,
) -> Result<(), AskFault>
    requires may { AllMay L.may }
    ensures ends { EndsAsk (ended ask_outcome result) index.now
        ((source.new ≡ source.old) × (sink.new ≡ sink.old))
        (moment_of F.Files S.Source K.Sink files.old source.old sink.old steps.old)
        (moment_of F.Files S.Source K.Sink files.new source.new sink.new steps.new) }
    ensures talk { CountsTalk S.Source K.Sink (ended ask_outcome result) source.old source.new sink.old sink.new }
{
    let bytes = load_index(alloc, index, files)?;
    answer_bytes(alloc, bytes, source, sink, steps)
}
