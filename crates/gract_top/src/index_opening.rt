ghost use Rattle.std.specs.Prelude.{◌≡◌, IfOk, IfErr};
ghost use Rattle.step_count.specs.Reads.{AllMay};
ghost use Rattle.host_ports.specs.Meanings.{files_at};
ghost use Rattle.gract_top.specs.Beginning.{OpensFile, StopsAtIndex, progress};
ghost use Rattle.gract_top.specs.Counting.{CountsFiles};
ghost use Rattle.gract_top.specs.Faults.{index_outcome};
ghost use Rattle.gract_top.specs.Stopping.{LoadsIndex, StopsLoading};

use crate::fault::IndexFault;
use crate::loading::load;
use host_ports::Files;
use std::alloc::Global;
use step_count::{Reads, Steps};
use track_index::{Index, open_bytes};
use track_types::LimitKind;

// The index of the index file of that name. It begins that file and no other. The file's bytes are let go once they are
// read.
pub(crate) fn open_file<F: Files, L: Reads>(
    alloc: Global,
    name: &str,
    files: &mut F,
    steps: &mut Steps<L>,
) -> Result<Index, IndexFault>
    requires may { AllMay L.may }
    ensures ok { IfOk result (λ index. OpensFile name.now index
        (progress (files_at F.Files files.old) steps.old)
        (progress (files_at F.Files files.new) steps.new)) }
    ensures err { IfErr result (λ fault. StopsAtIndex (index_outcome fault) name.now
        (progress (files_at F.Files files.old) steps.old)
        (progress (files_at F.Files files.new) steps.new)) }
    ensures counts { IfErr result (λ fault. CountsFiles (index_outcome fault)
        (files_at F.Files files.old) (files_at F.Files files.new)) }
    ensures given { F.given files.new ≡ F.given files.old }
{
    let bytes = load_index(alloc, name, files)?;
    Ok(open_bytes(alloc, bytes, steps)?)
}

// The bytes of the index file of that name.
pub(crate) fn load_index<F: Files>(
    alloc: Global,
    name: &str,
    files: &mut F,
) -> Result<Vec<u8>, IndexFault>
    ensures ok { IfOk result (λ bytes. LoadsIndex name.now bytes.items
        (files_at F.Files files.old) (files_at F.Files files.new)) }
    ensures err { IfErr result (λ fault. StopsLoading (index_outcome fault) name.now
        (files_at F.Files files.old) (files_at F.Files files.new)) }
    ensures given { F.given files.new ≡ F.given files.old }
{
    let mut bytes = Vec::new(alloc);
    load(files, name, LimitKind::Index, &mut bytes)?;
    Ok(bytes)
}
