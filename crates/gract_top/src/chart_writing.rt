ghost use Rattle.std.specs.Prelude.{◌≡◌, ◌<◌, length, IfOk, IfErr};
ghost use Rattle.chart_parts.specs.PartsOf.{parts_of};
ghost use Rattle.host_ports.specs.Meanings.{files_at};
ghost use Rattle.track_types.specs.declared.limit.TheConstants.{MAX_INDEX};
ghost use Rattle.track_index.specs.Opening.{IsFile};
ghost use Rattle.gract_top.specs.Faults.{chart_outcome};
ghost use Rattle.gract_top.specs.Request.{AreSettings};
ghost use Rattle.gract_top.specs.Stopping.{StopsAtChart, WritesChart};

use crate::chart_loading::load_chart;
use crate::fault::ChartFault;
use crate::request::Settings;
use chart_parts::into_parts;
use host_ports::Files;
use index_file::encode;
use std::alloc::Global;
use track_types::{Chart, Memory};

// The bytes of the index file of the CSV file of that name.
pub(crate) fn chart_bytes<F: Files>(
    alloc: Global,
    csv: &str,
    settings: Settings,
    files: &mut F,
) -> Result<Vec<u8>, ChartFault>
    requires { AreSettings settings }
    ensures ok { IfOk result (λ bytes. WritesChart csv.now settings bytes.items
        (files_at F.Files files.old) (files_at F.Files files.new)) }
    ensures err { IfErr result (λ fault. StopsAtChart (chart_outcome fault) csv.now settings
        (files_at F.Files files.old) (files_at F.Files files.new)) }
    ensures given { F.given files.new ≡ F.given files.old }
{
    let chart = load_chart(alloc, csv, settings, files)?;
    Ok(index_bytes(alloc, chart)?)
}

// The bytes of the index file of a chart. The chart is let go before rules are made.
pub(crate) fn index_bytes(alloc: Global, chart: Chart) -> Result<Vec<u8>, Memory>
    ensures file { IfOk result (λ bytes. IsFile bytes.items (parts_of chart)) }
    ensures short { IfOk result (λ bytes. length bytes.items < MAX_INDEX) }
{
    let parts = into_parts(alloc, chart)?;
    encode(alloc, parts)
}
