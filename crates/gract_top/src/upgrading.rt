ghost use Rattle.std.specs.Prelude.{◌≡◌, ◌+◌, ◌*◌, ◌≤◌, ◌⊎◌, length, IfOk, IfErr};
ghost use Rattle.step_count.specs.Reads.{AllMay};
ghost use Rattle.host_ports.specs.Meanings.{files_at};
ghost use Rattle.index_file.specs.File.{IsNewest};
ghost use Rattle.track_index.specs.Opening.{bytes_cost, first_flaw, IsFile};
ghost use Rattle.track_index.specs.Newest.{newest_of};
ghost use Rattle.track_types.specs.Flaws.{IsFormatFaultFor};
ghost use Rattle.track_types.specs.Limits.{limit_of};
ghost use Rattle.track_types.specs.declared.limit.LimitKind.TheVariants as limit;
ghost use Rattle.track_types.specs.declared.limit.TheConstants.{MAX_INDEX};
ghost use Rattle.track_types.specs.declared.parts.Parts.{Parts as WholeParts};
ghost use Rattle.gract_top.specs.Beginning.{SavesNothing};
ghost use Rattle.gract_top.specs.Ends.{EndsUpgrade, SavesUpgrade};
ghost use Rattle.gract_top.specs.Faults.{ended, index_outcome, save_outcome};
ghost use Rattle.gract_top.specs.Saving.{SavesOnly};
ghost use Rattle.gract_top.specs.Upgrading.{IsUpgrade, NotUpgraded};

use crate::building::save_as;
use crate::fault::{IndexFault, SaveFault};
use crate::index_opening::load_index;
use host_ports::Files;
use index_file::{decode, encode};
use index_format::FormatFault;
use std::alloc::Global;
use step_count::{Reads, Steps};
use track_index::upgraded;
use track_types::Parts;

// Saves the index file of one name in the newest version of the format, under another.
pub(crate) fn upgrade<F: Files, L: Reads>(
    alloc: Global,
    old: &str,
    new: &str,
    files: &mut F,
    steps: &mut Steps<L>,
) -> Result<(), SaveFault>
    requires may { AllMay L.may }
    ensures ends { EndsUpgrade (ended save_outcome result) old.now new.now
        (files_at F.Files files.old) (files_at F.Files files.new) steps.old steps.new }
    ensures given { F.given files.new ≡ F.given files.old }
{
    let bytes = load_index(alloc, old, files)?;
    save_upgraded(alloc, bytes, new, files, steps)
}

// Saves the upgrade of an index file's bytes under a name.
fn save_upgraded<F: Files, L: Reads>(
    alloc: Global,
    bytes: Vec<u8>,
    new: &str,
    files: &mut F,
    steps: &mut Steps<L>,
) -> Result<(), SaveFault>
    requires known { length bytes.items ≤ MAX_INDEX }
    requires may { AllMay L.may }
    ensures ended { (NotUpgraded (ended save_outcome result) bytes.items × SavesNothing
        (files_at F.Files files.old) (files_at F.Files files.new))
        ⊎ SavesUpgrade (ended save_outcome result) bytes.items new.now
        (files_at F.Files files.old) (files_at F.Files files.new) }
    ensures cost { steps.new ≤ steps.old + 2 * bytes_cost bytes.items }
    ensures only { SavesOnly (ended save_outcome result) (files_at F.Files files.old) (files_at F.Files files.new) }
    ensures given { F.given files.new ≡ F.given files.old }
{
    let newest = upgraded_bytes(alloc, bytes, steps)?;
    save_as(files, new, &newest)
}

// The bytes of the upgrade of an index file.
fn upgraded_bytes<L: Reads>(
    alloc: Global,
    bytes: Vec<u8>,
    steps: &mut Steps<L>,
) -> Result<Vec<u8>, IndexFault>
    requires known { length bytes.items ≤ MAX_INDEX }
    requires may { AllMay L.may }
    ensures ok { IfOk result (λ newest. IsUpgrade bytes.items newest.items) }
    ensures short { IfOk result (λ newest. length newest.items ≤ limit_of limit.Index) }
    ensures err { IfErr result (λ fault. NotUpgraded (index_outcome fault) bytes.items) }
    ensures cost { steps.new ≤ steps.old + 2 * bytes_cost bytes.items }
{
    let parts = upgraded_parts(alloc, bytes, steps)?;
    Ok(encode(alloc, parts)?)
}

// The parts of the upgrade of an index file, whose bytes are let go once they are read.
fn upgraded_parts<L: Reads>(
    alloc: Global,
    bytes: Vec<u8>,
    steps: &mut Steps<L>,
) -> Result<Parts, FormatFault>
    requires known { length bytes.items ≤ MAX_INDEX }
    requires may { AllMay L.may }
    ensures ok { IfOk result (λ newest.
        (parts : WholeParts) × IsFile bytes.items parts × (newest ≡ newest_of parts)) }
    ensures newest { IfOk result IsNewest }
    ensures flaw { IfErr result (λ fault. IsFormatFaultFor (first_flaw bytes.items) fault) }
    ensures cost { steps.new ≤ steps.old + 2 * bytes_cost bytes.items }
{
    let parts = decode(alloc, &bytes)?;
    drop(bytes);
    upgraded(alloc, parts, steps)
}
