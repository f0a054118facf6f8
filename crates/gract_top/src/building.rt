ghost use Rattle.std.specs.Prelude.{◌≡◌, false};
ghost use Rattle.host_ports.specs.Meanings.{files_at};
ghost use Rattle.gract_top.specs.Ends.{EndsBuild, Saved};
ghost use Rattle.gract_top.specs.Faults.{ended, save_outcome};
ghost use Rattle.gract_top.specs.Refusal.{is_early};
ghost use Rattle.gract_top.specs.Request.{AreSettings};
ghost use Rattle.gract_top.specs.Saving.{SavesOnly};

use crate::chart_writing::chart_bytes;
use crate::fault::SaveFault;
use crate::request::Settings;
use host_ports::Files;
use std::alloc::Global;

// Saves the index of the CSV file of one name under another.
pub(crate) fn build<F: Files>(
    alloc: Global,
    csv: &str,
    index: &str,
    settings: Settings,
    files: &mut F,
) -> Result<(), SaveFault>
    requires { AreSettings settings }
    ensures ends { EndsBuild (ended save_outcome result) csv.now index.now settings
        (files_at F.Files files.old) (files_at F.Files files.new) }
    ensures given { F.given files.new ≡ F.given files.old }
{
    let bytes = chart_bytes(alloc, csv, settings, files)?;
    save_as(files, index, &bytes)
}

// Saves bytes under a name, once.
pub(crate) fn save_as<F: Files>(files: &mut F, index: &str, bytes: &[u8]) -> Result<(), SaveFault>
    ensures saved { Saved (ended save_outcome result) index.now bytes.now
        (files_at F.Files files.old) (files_at F.Files files.new) }
    ensures late { is_early (ended save_outcome result) ≡ false }
    ensures only { SavesOnly (ended save_outcome result) (files_at F.Files files.old) (files_at F.Files files.new) }
    ensures given { F.given files.new ≡ F.given files.old }
{
    Ok(files.save(index, bytes)?)
}
