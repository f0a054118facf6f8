ghost use Rattle.std.specs.Prelude.{◌≡◌, ◌+◌, ◌==◌, ◌<◌, ◌≤◌, length, None, Ok, Option, sum, IfErr, IfOk, IfSome, OnOk};
ghost use Rattle.step_count.specs.Reads.{AllMay};
ghost use Rattle.std.specs.Prelude.{MatchOption};
ghost use Rattle.std.specs.List.{sum_by};
ghost use Rattle.track_types.specs.Flaws.{IsFormatFaultFor};
ghost use Rattle.track_types.specs.Frame.{IsFrame};
ghost use Rattle.track_types.specs.PartsForm.{IsShaped};
ghost use Rattle.snapshots.specs.IndexCost.{open_cost};
ghost use Rattle.snapshots.specs.Parts.{chart_in, rules_in, symbols_of};
ghost use Rattle.snapshots.specs.SoundParts.{IsValid};
ghost use Rattle.chart_parts.specs.PartsOf.{parts_of};
ghost use Rattle.index_format.specs.Answers.{Gives};
ghost use Rattle.rule_store.specs.Table.{IsWholeTable};
ghost use Rattle.index_file.specs.File.{IsFoundOf};
ghost use Rattle.track_types.specs.declared.limit.TheConstants.{MAX_INDEX, MAX_SYMBOLS};
ghost use Rattle.track_types.specs.declared.parts.Parts.{Parts as WholeParts};
ghost use Rattle.track_index.specs.Opening.{bytes_cost, first_flaw, IsFile};
ghost use Rattle.track_index.specs.CheckFlaws.{check_flaw, lengths_flaw, snapshots_flaw, snapshots_with, AreShapedPeriods};
ghost use Rattle.track_index.specs.Judged.{AreJudged};

use crate::index::Index;
use chart_parts::parts_of;
use index_file::{FileParts, Found, decode_found};
use rule_store::{EntryTable, RuleStore};
use snapshots::{SharedHeader, Snapshot, Stores};
use std::alloc::Global;
use std::rc::Rc;
use step_count::{Reads, Steps};
use track_types::{
    Chart, Flaw, FormatFault, Frame, Kind, List32, Memory, Parts, PeriodList, PeriodParts, Section,
};

impl Index {
    /// Takes parts, which have the form of an index, as an index.
    ///
    /// It judges in this order: the alphabet, the rules and the stored symbols, as
    /// `RuleStore::check` does (`Code`, `Rule`, `Symbol`); whether the lengths of all logs add up to
    /// the number of stored symbols (`Total`, in the last period at 0); each period in order, as
    /// `Snapshot::check` does; and the logs of all blocks, by period, then object, as `Stores::join`
    /// does.
    ///
    /// `Flaw` is the first flaw in this order. Outside the sections of periods its period is 0, but
    /// for `OffGrid`, which has the period of its block. The parts of an index have no flaw, so they
    /// are refused only for `Memory`. Any parts may be refused for `Memory`.
    ///
    /// The lists of the parts become those of the index. It takes time linear in their lengths, and
    /// at most `open_cost` reads.
    #[tactic(auto, using(crate::proofs::CheckLemmas::check_flaw_valid))]
    pub fn check<L: Reads>(
        alloc: Global,
        parts: Parts,
        steps: &mut Steps<L>,
    ) -> Result<Index, FormatFault>
        requires shaped { IsShaped parts }
        requires may { AllMay L.may }
        ensures ok { IfOk result (λ index. index ≡ parts) }
        ensures exact { OnOk result (check_flaw parts ≡ None) }
        ensures valid { OnOk result (IsValid parts) }
        ensures flawless { IsValid parts → check_flaw parts ≡ None }
        ensures flaw { IfErr result (λ fault. IsFormatFaultFor (check_flaw parts) fault) }
        ensures cost { steps.new ≤ steps.old + open_cost parts }
    {
        let JudgedParts {
            frame,
            objects,
            rules,
            snaps,
        } = judged(alloc, parts)?;
        let stores = Stores::join(alloc, frame, objects, rules, snaps, steps)?;
        Ok(Index { stores })
    }

    // The index of what a file holds. Parts of which anything was found are those of an index, and
    // nothing of them is judged again.
    fn of_file<L: Reads>(
        alloc: Global,
        read: FileParts,
        steps: &mut Steps<L>,
    ) -> Result<Index, FormatFault>
        requires shaped { IsShaped read.parts }
        requires found { IfSome read.found (IsFoundOf read.parts) }
        requires may { AllMay L.may }
        ensures ok { IfOk result (λ index. index ≡ read.parts) }
        ensures exact { OnOk result (check_flaw read.parts ≡ None) }
        ensures valid { OnOk result (IsValid read.parts) }
        ensures flaw { IfErr result (λ fault. IsFormatFaultFor (check_flaw read.parts) fault) }
        ensures cost { steps.new ≤ steps.old + open_cost read.parts }
    {
        let FileParts { parts, found } = read;
        match found {
            Some(found) => Ok(Index::of_found(alloc, parts, found, steps)?),
            None => Index::check(alloc, parts, steps),
        }
    }

    // The index of these parts, which are those of an index, by what was found of them. `Memory` is its only refusal.
    fn of_found<L: Reads>(
        alloc: Global,
        parts: Parts,
        found: Found,
        steps: &mut Steps<L>,
    ) -> Result<Index, Memory>
        requires found { IsFoundOf parts found }
        requires may { AllMay L.may }
        ensures ok { IfOk result (λ index. index ≡ parts) }
        ensures cost { steps.new ≤ steps.old + open_cost parts }
    {
        let Found { bounds, table } = found;
        let JudgedParts {
            frame,
            objects,
            rules,
            snaps,
        } = judged_valid(alloc, parts, table)?;
        let stores = Stores::join_bounded(alloc, frame, objects, rules, snaps, bounds, steps)?;
        Ok(Index { stores })
    }

    /// The index of a chart, made from the parts that the chart is written as. These hold the same
    /// chart. It makes at most `open_cost` of these parts in reads, and `Memory` is its only refusal.
    pub fn build<L: Reads>(
        alloc: Global,
        chart: &Chart,
        steps: &mut Steps<L>,
    ) -> Result<Index, Memory>
        requires may { AllMay L.may }
        ensures ok { IfOk result (λ index. index ≡ parts_of chart.now) }
        ensures valid { IfOk result (λ index. IsValid index) }
        ensures reads_back { IfOk result (λ index. chart_in index ≡ chart.now) }
        ensures cost { steps.new ≤ steps.old + open_cost (parts_of chart.now) }
    {
        let parts = parts_of(alloc, chart)?;
        match Index::check(alloc, parts, steps) {
            Ok(index) => Ok(index),
            Err(FormatFault::Memory) => Err(Memory),
            Err(FormatFault::Flaw(_)) => unreachable!(), // the parts of a chart have no flaw
        }
    }
}

/// Opens the bytes of an index file. There are at most `MAX_INDEX` bytes.
///
/// `Flaw` is the first flaw of the bytes, as `decode` reads them from the front, or else that of the
/// parts that they hold, in the order of `Index::check`. So an index is opened only from the bytes of
/// an index file, and these are refused only for `Memory`. If the bytes hold no parts, it makes no
/// read.
pub fn open<L: Reads>(
    alloc: Global,
    bytes: &[u8],
    steps: &mut Steps<L>,
) -> Result<Index, FormatFault>
    requires few { length bytes.now ≤ MAX_INDEX }
    requires may { AllMay L.may }
    ensures ok { IfOk result (λ index. IsFile bytes.now index) }
    ensures exact { OnOk result (first_flaw bytes.now ≡ None) }
    ensures decides { (parts : WholeParts) → IsFile bytes.now parts
        → Gives (λ index. index) result (Ok parts) }
    ensures flawless { (parts : WholeParts) → IsFile bytes.now parts
        → first_flaw bytes.now ≡ None }
    ensures flaw { IfErr result (λ fault. IsFormatFaultFor (first_flaw bytes.now) fault) }
    ensures cost { steps.new ≤ steps.old + bytes_cost bytes.now }
    ensures cost_opened { IfOk result (λ index. bytes_cost bytes.now ≡ open_cost index) }
{
    let read = decode_found(alloc, bytes)?;
    Index::of_file(alloc, read, steps)
}

/// Opens the bytes of an index file as `open` does. The bytes are dropped after they are decoded, before
/// it takes memory for the tables that searches use.
pub fn open_bytes<L: Reads>(
    alloc: Global,
    bytes: Vec<u8>,
    steps: &mut Steps<L>,
) -> Result<Index, FormatFault>
    requires few { length bytes.items ≤ MAX_INDEX }
    requires may { AllMay L.may }
    ensures ok { IfOk result (λ index. IsFile bytes.items index) }
    ensures exact { OnOk result (first_flaw bytes.items ≡ None) }
    ensures decides { (parts : WholeParts) → IsFile bytes.items parts
        → Gives (λ index. index) result (Ok parts) }
    ensures flawless { (parts : WholeParts) → IsFile bytes.items parts
        → first_flaw bytes.items ≡ None }
    ensures flaw { IfErr result (λ fault. IsFormatFaultFor (first_flaw bytes.items) fault) }
    ensures cost { steps.new ≤ steps.old + bytes_cost bytes.items }
    ensures cost_opened { IfOk result (λ index. bytes_cost bytes.items ≡ open_cost index) }
{
    let read = decode_found(alloc, bytes.as_slice())?;
    drop(bytes);
    Index::of_file(alloc, read, steps)
}

/// What is judged of parts before their logs.
#[derive(Drop)]
pub(crate) struct JudgedParts {
    /// The header.
    pub(crate) frame: Frame,
    /// The objects.
    pub(crate) objects: List32,
    /// The rules, with the symbols of all logs.
    pub(crate) rules: RuleStore,
    /// The snapshot of each period.
    pub(crate) snaps: Vec<Snapshot>,
}

// Judges parts but for their logs: the rules, then the total of all lengths, then each period.
fn judged(alloc: Global, parts: Parts) -> Result<JudgedParts, FormatFault>
    requires { IsShaped parts }
    ensures judged { IfOk result (AreJudged parts) }
    ensures flaw { IfErr result (λ fault. IsFormatFaultFor (check_flaw parts) fault) }
{
    let Parts {
        frame,
        objects,
        alphabet,
        rules,
        periods,
        symbols,
    } = parts;
    let rules = RuleStore::check(alloc, alphabet, rules, symbols, frame.height, frame.period)?;
    check_total(&frame, periods.as_slice(), rules.sizes().2)?;
    let count = objects.as_slice().len() as u32;
    let snaps = check_periods(alloc, &frame, count, periods)?;
    Ok(JudgedParts {
        frame,
        objects,
        rules,
        snaps,
    })
}

// The same of the parts of an index, which have no flaw, by a table of the entries of its symbols. `Memory` is its only refusal.
fn judged_valid(alloc: Global, parts: Parts, table: EntryTable) -> Result<JudgedParts, Memory>
    requires valid { IsValid parts }
    requires table { IsWholeTable (rules_in parts) table }
    ensures { IfOk result (AreJudged parts) }
{
    let Parts {
        frame,
        objects,
        alphabet,
        rules,
        periods,
        symbols,
    } = parts;
    let count = objects.as_slice().len() as u32;
    let header = SharedHeader::new(alloc, &frame)?;
    let snaps = flawless_snaps(alloc, &header, count, periods)?;
    Ok(JudgedParts {
        frame,
        objects,
        rules: RuleStore::of_table(alphabet, rules, symbols, table),
        snaps,
    })
}

// Whether the lengths of all logs add up to the number of symbols.
#[tactic(auto, unfolding(crate::specs::CheckFlaws::lengths_flaw))]
fn check_total(frame: &Frame, periods: &[PeriodParts], symbols: u32) -> Result<(), FormatFault>
    requires { IsFrame frame.now }
    ensures exact { OnOk result (lengths_flaw frame.now periods.now symbols ≡ None) }
    ensures flaw { IfErr result (λ fault.
        IsFormatFaultFor (lengths_flaw frame.now periods.now symbols) fault) }
{
    if add_up(periods, symbols) {
        return Ok(());
    }
    Err(FormatFault::Flaw(Flaw {
        section: Section::Lengths,
        period: frame.timeline().periods() - 1,
        index: 0,
        kind: Kind::Total,
    }))
}

// Whether the lengths of all logs add up to a number.
fn add_up(periods: &[PeriodParts], number: u32) -> bool
    ensures { result ≡ (sum_by symbols_of periods.now == number) }
{
    let mut left = number;
    for period in periods {
        let Some(rest) = taken_off(left, period.lengths.as_slice()) else {
            return false;
        };
        left = rest;
    }
    left == 0
}

// What is left of a number after all of these are taken off it; `None` if they are more.
fn taken_off(number: u32, lengths: &[u32]) -> Option<u32>
    ensures { MatchOption result (number < sum lengths.now)
        (λ rest. rest + sum lengths.now ≡ number) }
{
    let mut left = number;
    for length in lengths {
        left = left.checked_sub(*length)?;
    }
    Some(left)
}

// Takes the parts of all periods as their snapshots, which keep one header together.
fn check_periods(
    alloc: Global,
    frame: &Frame,
    objects: u32,
    periods: PeriodList,
) -> Result<Vec<Snapshot>, FormatFault>
    requires { AreShapedPeriods frame.now objects periods }
    ensures ok { IfOk result (λ snaps. snaps.items ≡ snapshots_with frame.now objects periods) }
    ensures exact { OnOk result (snapshots_flaw (snapshots_with frame.now objects periods) ≡ None) }
    ensures flaw { IfErr result (λ fault.
        IsFormatFaultFor (snapshots_flaw (snapshots_with frame.now objects periods)) fault) }
{
    let header = SharedHeader::new(alloc, frame)?;
    check_each(alloc, &header, objects, periods)
}

// Takes the parts of all periods as their snapshots under a header.
fn check_each(
    alloc: Global,
    header: &Rc<SharedHeader>,
    objects: u32,
    periods: PeriodList,
) -> Result<Vec<Snapshot>, FormatFault>
    requires { AreShapedPeriods header.now.value objects periods }
    ensures ok { IfOk result (λ snaps.
        snaps.items ≡ snapshots_with header.now.value objects periods) }
    ensures exact { OnOk result
        (snapshots_flaw (snapshots_with header.now.value objects periods) ≡ None) }
    ensures flaw { IfErr result (λ fault.
        IsFormatFaultFor (snapshots_flaw (snapshots_with header.now.value objects periods)) fault) }
{
    let mut snaps = Vec::with_capacity(alloc, periods.as_slice().len())?;
    let mut start = 0;
    for period in periods.into_vec() {
        let number = snaps.len() as u32;
        let symbols = symbols_of(period.lengths.as_slice());
        snaps.push(Snapshot::check_under(alloc, header, number, objects, start, period)?)?;
        start += symbols;
    }
    Ok(snaps)
}

// Takes the parts of all periods, which have no flaw, as their snapshots under a header.
fn flawless_snaps(
    alloc: Global,
    header: &Rc<SharedHeader>,
    objects: u32,
    periods: PeriodList,
) -> Result<Vec<Snapshot>, Memory>
    requires shaped { AreShapedPeriods header.now.value objects periods }
    requires flawless { snapshots_flaw (snapshots_with header.now.value objects periods) ≡ None }
    ensures { IfOk result (λ snaps.
        snaps.items ≡ snapshots_with header.now.value objects periods) }
{
    let mut snaps = Vec::with_capacity(alloc, periods.as_slice().len())?;
    let mut start = 0;
    for parts in periods.into_vec() {
        let number = snaps.len() as u32;
        let symbols = symbols_of(parts.lengths.as_slice());
        snaps.push(Snapshot::of_flawless(alloc, header, number, objects, start, parts)?)?;
        start += symbols;
    }
    Ok(snaps)
}

// How many symbols the logs of a period have.
fn symbols_of(lengths: &[u32]) -> u32
    requires { sum lengths.now ≤ MAX_SYMBOLS }
    ensures { result ≡ sum lengths.now }
{
    lengths.iter().sum()
}
