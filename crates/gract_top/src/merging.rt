ghost use Rattle.std.specs.Prelude.{◌≡◌, ◌+◌, ◌≤◌, ◌<◌, ◌⊎◌, None, IfOk, IfErr, OnOk};
ghost use Rattle.step_count.specs.Reads.{AllMay};
ghost use Rattle.host_ports.specs.Meanings.{files_at};
ghost use Rattle.index_merge.specs.Cost.{union_cost};
ghost use Rattle.index_merge.specs.Extension.{IsAsBuilt};
ghost use Rattle.index_merge.specs.MergeFault.{IsMergeFaultFor, merge_fault};
ghost use Rattle.snapshots.specs.Parts.{chart_in};
ghost use Rattle.gract_top.specs.Beginning.{SavesNothing, progress};
ghost use Rattle.gract_top.specs.Ends.{EndsMerge, SavesUnion};
ghost use Rattle.gract_top.specs.Faults.{ended, save_outcome};
ghost use Rattle.gract_top.specs.Merging.{NotMerged, union_bytes};
ghost use Rattle.gract_top.specs.Saving.{SavesOnly};

use crate::building::save_as;
use crate::chart_writing::index_bytes;
use crate::fault::SaveFault;
use crate::index_opening::open_file;
use host_ports::Files;
use index_merge::{MergeFault, union};
use std::alloc::Global;
use step_count::{Reads, Steps};
use track_index::Index;

// Saves the union of the index files of two names under a third. The second file is begun where the first one was opened.
pub(crate) fn merge<F: Files, L: Reads>(
    alloc: Global,
    left: &str,
    right: &str,
    out: &str,
    files: &mut F,
    steps: &mut Steps<L>,
) -> Result<(), SaveFault>
    requires may { AllMay L.may }
    ensures ends { EndsMerge (ended save_outcome result) left.now right.now out.now
        (progress (files_at F.Files files.old) steps.old)
        (progress (files_at F.Files files.new) steps.new) }
    ensures given { F.given files.new ≡ F.given files.old }
{
    let first = open_file(alloc, left, files, steps)?;
    let second = open_file(alloc, right, files, steps)?;
    save_union(alloc, first, second, out, files, steps)
}

// Saves the index of the union of what two indexes hold under a name.
fn save_union<F: Files, L: Reads>(
    alloc: Global,
    left: Index,
    right: Index,
    out: &str,
    files: &mut F,
    steps: &mut Steps<L>,
) -> Result<(), SaveFault>
    requires may { AllMay L.may }
    ensures ended { (NotMerged (ended save_outcome result) left right × SavesNothing
        (files_at F.Files files.old) (files_at F.Files files.new))
        ⊎ SavesUnion (ended save_outcome result) left right out.now
        (files_at F.Files files.old) (files_at F.Files files.new) }
    ensures as_built { IsAsBuilt left (chart_in right).rows }
    ensures cost { steps.new ≤ steps.old + union_cost left right }
    ensures only { SavesOnly (ended save_outcome result) (files_at F.Files files.old) (files_at F.Files files.new) }
    ensures given { F.given files.new ≡ F.given files.old }
{
    let bytes = index_of_union(alloc, left, right, steps)?;
    save_as(files, out, &bytes)
}

// The bytes of the index file of the union of what two indexes hold, which are let go once there is a chart.
fn index_of_union<L: Reads>(
    alloc: Global,
    left: Index,
    right: Index,
    steps: &mut Steps<L>,
) -> Result<Vec<u8>, MergeFault>
    requires may { AllMay L.may }
    ensures ok { IfOk result (λ bytes. bytes.items ≡ union_bytes left right) }
    ensures exact { OnOk result (merge_fault left right ≡ None) }
    ensures fault { IfErr result (IsMergeFaultFor (merge_fault left right)) }
    ensures as_built { IsAsBuilt left (chart_in right).rows }
    ensures cost { steps.new ≤ steps.old + union_cost left right }
{
    let chart = union(alloc, &left, &right, steps)?;
    drop(left);
    drop(right);
    Ok(index_bytes(alloc, chart)?)
}
