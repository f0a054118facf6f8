ghost use Rattle.std.specs.Prelude.{◌≡◌, ◌+◌, ◌*◌, ◌≤◌, None, IfErr, IfOk, OnOk};
ghost use Rattle.step_count.specs.Reads.{AllMay};
ghost use Rattle.track_types.specs.Flaws.{IsFormatFaultFor};
ghost use Rattle.track_types.specs.PartsForm.{IsShaped};
ghost use Rattle.snapshots.specs.IndexCost.{open_cost};
ghost use Rattle.snapshots.specs.Parts.{chart_in};
ghost use Rattle.index_file.specs.File.{IsNewest};
ghost use Rattle.track_index.specs.Newest.{newest_of};
ghost use Rattle.track_index.specs.CheckFlaws.{check_flaw};
ghost use Rattle.track_index.specs.Facts.{facts_of};

use crate::index::Index;
use parts_order::settled;
use std::alloc::Global;
use step_count::{Reads, Steps};
use track_types::{FormatFault, Parts};

/// The same index in the newest version of the format, from parts which have the form of an index.
///
/// The header has that version, the trees of the periods are made anew from their cells, and the rules
/// are brought into the order of the format. All else stays: the parts are those of an index, and have
/// the same chart and the same facts. Parts in the newest version, with their rules in order, come back
/// as they are.
///
/// `Flaw` is the first flaw of the parts, as `Index::check` finds it. `Memory` may be answered to any
/// parts.
///
/// The lists of the parts become those of the answer. It takes time linear in their lengths, and at
/// most twice the reads of opening.
pub fn upgraded<L: Reads>(
    alloc: Global,
    parts: Parts,
    steps: &mut Steps<L>,
) -> Result<Parts, FormatFault>
    requires shaped { IsShaped parts }
    requires may { AllMay L.may }
    ensures ok { IfOk result (λ newest. newest ≡ newest_of parts) }
    ensures exact { OnOk result (check_flaw parts ≡ None) }
    ensures newest { IfOk result IsNewest }
    ensures same { IfOk result (λ newest. IsNewest parts → newest ≡ parts) }
    ensures chart { IfOk result (λ newest. chart_in newest ≡ chart_in parts) }
    ensures facts { IfOk result (λ newest. facts_of newest ≡ facts_of parts) }
    ensures flaw { IfErr result (λ fault. IsFormatFaultFor (check_flaw parts) fault) }
    ensures cost { steps.new ≤ steps.old + 2 * open_cost parts }
{
    let Index { stores } = Index::check(alloc, parts, steps)?;
    let newest = stores.into_upgraded(alloc, steps)?;
    Ok(settled(alloc, newest)?)
}
