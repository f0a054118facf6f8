ghost use Rattle.std.specs.Prelude.{◌≡◌, IfOk, length};
ghost use Rattle.track_types.specs.Chart.{ChartView};
ghost use Rattle.rule_order.specs.Order.{IsSettled};
ghost use Rattle.snapshots.specs.Parts.{chart_in};
ghost use Rattle.snapshots.specs.SoundParts.{IsValid};
ghost use Rattle.chart_parts.specs.Cut.{IsCut, IsCutOf, AreLogs, AreLogsOf};
ghost use Rattle.chart_parts.specs.PartsOf.{compressed_parts_of, parts_of};
ghost use Rattle.chart_parts.specs.PeriodWith.{chart_blocks};

use crate::header::frame_of;
use crate::objects::objects_of;
use crate::periods::periods_of;
use movement_log::{HeadList, JoinedLogs, cut_joined};
use parts_order::settled;
use repair_grammar::{JoinedBlocks, JoinedGrammar, compress_joined};
use std::alloc::Global;
use track_types::{Chart, Frame, List32, List64, Memory, PairList, Parts, PeriodList};

/// The parts that a chart is written as: header, objects, alphabet, Re-Pair's rules over the logs of all
/// blocks, the parts of each period, and the logs that the rules leave, with the rules in order.
///
/// They are those of an index, and hold the very chart that they were made from.
///
/// Beside what `compress_joined` and `settled` take, it takes memory for the parts and for the raw logs,
/// which are dropped before rules are made. It takes time for the rows, the terminals, one sort of
/// each period's anchors and one of the rules. A period without a block costs what its presence bits
/// take.
pub fn parts_of(alloc: Global, chart: &Chart) -> Result<Parts, Memory>
    ensures ok { IfOk result (λ parts. parts ≡ parts_of chart.now) }
    ensures valid { IfOk result (λ parts. IsValid parts) }
    ensures reads_back { IfOk result (λ parts. chart_in parts ≡ chart.now) }
    ensures order { IfOk result (λ parts. IsSettled (length parts.alphabet) parts.rules) }
{
    let cut = cut_chart(alloc, chart)?;
    parts_of_cut(alloc, cut)
}

/// The parts that a chart is written as, as `parts_of` gives them. The chart is dropped after it is cut
/// into blocks, so that its rows take no memory while rules are made.
pub fn into_parts(alloc: Global, chart: Chart) -> Result<Parts, Memory>
    ensures ok { IfOk result (λ parts. parts ≡ parts_of chart) }
    ensures valid { IfOk result (λ parts. IsValid parts) }
    ensures reads_back { IfOk result (λ parts. chart_in parts ≡ chart) }
    ensures order { IfOk result (λ parts. IsSettled (length parts.alphabet) parts.rules) }
{
    let cut = cut_chart(alloc, &chart)?;
    drop(chart);
    parts_of_cut(alloc, cut)
}

// All that is written of a chart, before there are rules.
#[derive(Drop)]
pub(crate) struct CutChart {
    pub(crate) frame: Frame,
    pub(crate) objects: Vec<u32>,
    pub(crate) logs: JoinedLogs,
}

// Takes from a chart what is written of it.
fn cut_chart(alloc: Global, chart: &Chart) -> Result<CutChart, Memory>
    ensures { IfOk result (λ cut. IsCutOf chart.now cut) }
{
    Ok(CutChart {
        frame: frame_of(chart),
        objects: objects_of(alloc, chart.rows())?,
        logs: cut_joined(alloc, chart)?,
    })
}

// The parts of what was cut from a chart.
fn parts_of_cut(alloc: Global, chart: CutChart) -> Result<Parts, Memory>
    requires { IsCut chart }
    ensures { (whole : ChartView) → IsCutOf whole chart
        → IfOk result (λ parts. parts ≡ parts_of whole) }
{
    let parts = compressed_parts(alloc, chart)?;
    settled(alloc, parts)
}

// The parts of what was cut from a chart, with the rules as they were made.
fn compressed_parts(alloc: Global, chart: CutChart) -> Result<Parts, Memory>
    requires { IsCut chart }
    ensures { (whole : ChartView) → IsCutOf whole chart
        → IfOk result (λ parts. parts ≡ compressed_parts_of whole) }
{
    let CutChart {
        frame,
        objects,
        logs,
    } = chart;
    let Blocks {
        alphabet,
        heads,
        rules,
        logs,
    } = blocks_of(alloc, logs)?;
    let count = objects.len() as u32;
    let periods = periods_of(
        alloc,
        frame,
        count,
        heads.as_slice(),
        logs.lengths.as_slice(),
    )?;
    Ok(Parts {
        frame,
        objects: List32::new(objects),
        alphabet,
        rules,
        periods: PeriodList::new(periods),
        symbols: logs.symbols,
    })
}

// The blocks of a chart, whose logs are shortened by rules.
#[derive(Drop)]
pub(crate) struct Blocks {
    pub(crate) alphabet: List64,
    pub(crate) heads: HeadList,
    pub(crate) rules: PairList,
    pub(crate) logs: JoinedBlocks,
}

// The blocks with these raw logs. The terminals are dropped before rules are made.
fn blocks_of(alloc: Global, raw: JoinedLogs) -> Result<Blocks, Memory>
    requires { AreLogs raw }
    ensures { (chart : ChartView) → AreLogsOf chart raw
        → IfOk result (λ blocks. blocks ≡ chart_blocks chart) }
{
    let JoinedLogs {
        alphabet,
        heads,
        terminals,
        lengths,
    } = raw;
    let size = alphabet.as_slice().len() as u32;
    let raw = JoinedBlocks {
        symbols: terminals,
        lengths,
    };
    let JoinedGrammar { rules, blocks } = compress_joined(alloc, size, raw)?;
    Ok(Blocks {
        alphabet,
        heads,
        rules,
        logs: blocks,
    })
}
