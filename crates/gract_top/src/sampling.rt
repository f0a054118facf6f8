ghost use Rattle.std.specs.Prelude.{◌≡◌, ℕ, ◌<◌, ◌≤◌, ◌⊎◌, None, IfOk, IfErr, OnOk, length};
ghost use Rattle.step_count.specs.Reads.{AllMay};
ghost use Rattle.chart_parts.specs.PartsOf.{parts_of};
ghost use Rattle.track_types.specs.declared.limit.TheConstants.{MAX_INDEX};
ghost use Rattle.host_ports.specs.Counting.{SinkCounts};
ghost use Rattle.host_ports.specs.Meanings.{files_at};
ghost use Rattle.track_index.specs.Opening.{IsFile};
ghost use Rattle.track_types.specs.declared.parts.Parts.{Parts};
ghost use Rattle.gract_top.specs.Faults.{ask_outcome, chart_outcome, ended};
ghost use Rattle.gract_top.specs.Request.{AreSampleSettings};
ghost use Rattle.gract_top.specs.Sampling.{EndsSample, EndsSummed, EndsSummedOver, NotSampled};
ghost use Rattle.gract_top.specs.Sampling.{sample_chart, sample_refusal, speech};
ghost use Rattle.gract_top.specs.declared.outcome.Outcome.TheVariants as outcome;

use crate::chart_writing::index_bytes;
use crate::fault::{AskFault, ChartFault};
use crate::fault_outcomes::end_of_summary;
use crate::request::SampleSettings;
use crate::summarizing::say_summary;
use encounter::IndexMeets;
use gridding::grid;
use host_ports::{Files, Sink};
use sample_rows::sample_rows;
use std::alloc::Global;
use step_count::{Reads, Steps};
use track_index::open_bytes;
use track_types::{LimitKind, MAX_ROWS};

// Says the summary of a sample. What is opened is what the files give for the bytes of its index.
pub(crate) fn sample<F: Files, K: Sink, L: Reads>(
    alloc: Global,
    settings: SampleSettings,
    files: &mut F,
    sink: &mut K,
    steps: &mut Steps<L>,
) -> Result<(), AskFault>
    requires known { AreSampleSettings settings }
    requires may { AllMay L.may }
    ensures ends { EndsSample (ended ask_outcome result) settings (sink.new ≡ sink.old)
        (files_at F.Files files.old) (files_at F.Files files.new)
        (F.given files.old) (speech (K.said sink.old) steps.old)
        (speech (K.said sink.new) steps.new) }
    ensures say_faults { SinkCounts K.Sink sink.old sink.new (ended ask_outcome result ≡ outcome.SayFailed) }
{
    let bytes = sample_bytes(alloc, settings)?;
    let bytes = files.pass(bytes);
    sum_bytes(alloc, bytes, settings.instants, sink, steps)
}

// The bytes of the index file of a sample. Its rows are let go once there is a chart.
fn sample_bytes(alloc: Global, settings: SampleSettings) -> Result<Vec<u8>, ChartFault>
    requires { AreSampleSettings settings }
    ensures accepted { OnOk result (sample_refusal settings ≡ None) }
    ensures file { IfOk result (λ bytes. IsFile bytes.items (parts_of (sample_chart settings))) }
    ensures short { IfOk result (λ bytes. length bytes.items < MAX_INDEX) }
    ensures err { IfErr result (λ fault. NotSampled (chart_outcome fault) settings) }
{
    let most = u64::from(settings.objects) * u64::from(settings.instants);
    if most > MAX_ROWS {
        return Err(ChartFault::Limit {
            kind: LimitKind::Rows,
            value: most,
        });
    }
    let rows = sample_rows(alloc, settings.objects, settings.instants, settings.seed)?;
    let chart = grid(alloc, &rows, 1, 1, settings.period)?;
    drop(rows);
    Ok(index_bytes(alloc, chart)?)
}

// Opens the bytes of an index file, and says the summary of the index.
fn sum_bytes<K: Sink, L: Reads>(
    alloc: Global,
    bytes: Vec<u8>,
    instants: u32,
    sink: &mut K,
    steps: &mut Steps<L>,
) -> Result<(), AskFault>
    requires short { length bytes.items ≤ MAX_INDEX }
    requires instants { 1 ≤ instants }
    requires may { AllMay L.may }
    ensures ended { EndsSummed (ended ask_outcome result) bytes.items instants (sink.new ≡ sink.old)
        (speech (K.said sink.old) steps.old) (speech (K.said sink.new) steps.new) }
    ensures decides { (parts : Parts) → IsFile bytes.items parts →
        EndsSummedOver (ended ask_outcome result) bytes.items parts instants (sink.new ≡ sink.old)
        (speech (K.said sink.old) steps.old) (speech (K.said sink.new) steps.new) }
    ensures say_faults { SinkCounts K.Sink sink.old sink.new (ended ask_outcome result ≡ outcome.SayFailed) }
{
    let index = open_bytes(alloc, bytes, steps)?;
    end_of_summary(say_summary(alloc, IndexMeets::new(&index), instants, sink, steps))
}
