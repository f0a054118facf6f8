ghost use Rattle.std.specs.Prelude.{◌≡◌, ◌+◌, ◌≤◌, ◌<◌, ◌⊎◌, None, IfOk, IfErr, IfSome, OnOk};
ghost use Rattle.step_count.specs.Reads.{AllMay};
ghost use Rattle.host_ports.specs.Meanings.{files_at};
ghost use Rattle.index_merge.specs.Extension.{extension_cost, extension_fault, IsAsBuilt};
ghost use Rattle.path_union.specs.Union.{rows_of_tail};
ghost use Rattle.gract_top.specs.Beginning.{SavesNothing, progress};
ghost use Rattle.gract_top.specs.Ends.{EndsExtend, SavesExtension};
ghost use Rattle.gract_top.specs.Extending.{NotExtended, extension_bytes};
ghost use Rattle.gract_top.specs.Faults.{chart_outcome, ended, save_outcome};
ghost use Rattle.gract_top.specs.Saving.{SavesOnly};

use crate::building::save_as;
use crate::chart_writing::index_bytes;
use crate::fault::{ChartFault, SaveFault};
use crate::index_opening::open_file;
use crate::tail_opening::{load_tail, settings_of};
use host_ports::Files;
use index_merge::extended;
use std::alloc::Global;
use step_count::{Reads, Steps};
use track_index::Index;
use track_types::Chart;

// Saves what the index file of one name holds and the rows of the CSV file of another as one index under a third name.
// Where both have a row of an object and an instant, the CSV file's counts. The CSV file is begun once the index is
// open.
pub(crate) fn extend<F: Files, L: Reads>(
    alloc: Global,
    index: &str,
    tail: &str,
    out: &str,
    files: &mut F,
    steps: &mut Steps<L>,
) -> Result<(), SaveFault>
    requires may { AllMay L.may }
    ensures ends { EndsExtend (ended save_outcome result) index.now tail.now out.now
        (progress (files_at F.Files files.old) steps.old)
        (progress (files_at F.Files files.new) steps.new) }
    ensures given { F.given files.new ≡ F.given files.old }
{
    let index = open_file(alloc, index, files, steps)?;
    let tail = load_tail(alloc, tail, settings_of(&index), files)?;
    save_extension(alloc, index, tail, out, files, steps)
}

// Saves the index of what an index holds and its tail under a name.
fn save_extension<F: Files, L: Reads>(
    alloc: Global,
    index: Index,
    tail: Option<Chart>,
    out: &str,
    files: &mut F,
    steps: &mut Steps<L>,
) -> Result<(), SaveFault>
    requires may { AllMay L.may }
    ensures ended { (NotExtended (ended save_outcome result) index tail × SavesNothing
        (files_at F.Files files.old) (files_at F.Files files.new))
        ⊎ SavesExtension (ended save_outcome result) index tail out.now
        (files_at F.Files files.old) (files_at F.Files files.new) }
    ensures as_built { IsAsBuilt index (rows_of_tail tail) }
    ensures cost { steps.new ≤ steps.old + extension_cost index (rows_of_tail tail) }
    ensures only { SavesOnly (ended save_outcome result) (files_at F.Files files.old) (files_at F.Files files.new) }
    ensures given { F.given files.new ≡ F.given files.old }
{
    let bytes = index_of_extension(alloc, index, tail, steps)?;
    save_as(files, out, &bytes)
}

// The bytes of the index file of what an index holds and its tail. The index is let go once there is a chart.
fn index_of_extension<L: Reads>(
    alloc: Global,
    index: Index,
    tail: Option<Chart>,
    steps: &mut Steps<L>,
) -> Result<Vec<u8>, ChartFault>
    requires may { AllMay L.may }
    ensures ok { IfOk result (λ bytes. bytes.items ≡ extension_bytes index tail) }
    ensures exact { OnOk result (extension_fault index (rows_of_tail tail) ≡ None) }
    ensures fault { IfErr result (λ fault. NotExtended (chart_outcome fault) index tail) }
    ensures as_built { IsAsBuilt index (rows_of_tail tail) }
    ensures cost { steps.new ≤ steps.old + extension_cost index (rows_of_tail tail) }
{
    let chart = extended(alloc, &index, tail, steps)?;
    drop(index);
    Ok(index_bytes(alloc, chart)?)
}
