ghost use Rattle.std.specs.Prelude.{◌≡◌, ◌≤◌, ◌+◌, OnOk, IfOk, IfErr};
ghost use Rattle.host_ports.specs.Meanings.{files_at};
ghost use Rattle.track_types.specs.Limits.{IsResolution, limit_of};
ghost use Rattle.gract_top.specs.Faults.{chart_outcome};
ghost use Rattle.gract_top.specs.Receiving.{HasGriddedRows};
ghost use Rattle.gract_top.specs.Request.{AreSettings};
ghost use Rattle.gract_top.specs.Stopping.{LoadsChart, LoadsFile, StopsAtChart};
ghost use Rattle.gract_top.specs.declared.request.Settings.{Settings};

use crate::fault::ChartFault;
use crate::loading::load;
use crate::request::Settings;
use crate::rows_receiver::RowsReceiver;
use gridding::GriddedRows;
use host_ports::Files;
use std::alloc::Global;
use track_types::{Chart, LimitKind};

// The chart of the CSV file of that name.
pub(crate) fn load_chart<F: Files>(
    alloc: Global,
    csv: &str,
    settings: Settings,
    files: &mut F,
) -> Result<Chart, ChartFault>
    requires { AreSettings settings }
    ensures ok { IfOk result (λ chart. LoadsChart csv.now settings chart
        (files_at F.Files files.old) (files_at F.Files files.new)) }
    ensures err { IfErr result (λ fault. StopsAtChart (chart_outcome fault) csv.now settings
        (files_at F.Files files.old) (files_at F.Files files.new)) }
    ensures given { F.given files.new ≡ F.given files.old }
{
    let rows = load_rows(alloc, csv, settings, files)?;
    Ok(rows.chart(alloc, settings.period)?)
}

// The rows of the CSV file of that name, gridded.
fn load_rows<F: Files>(
    alloc: Global,
    csv: &str,
    settings: Settings,
    files: &mut F,
) -> Result<GriddedRows, ChartFault>
    requires cell { IsResolution settings.cell }
    requires tick { IsResolution settings.tick }
    ensures rows { IfOk result
        (HasGriddedRows (F.map files.old) (F.loads files.new) (F.taken files.new) csv.now settings) }
    ensures file { OnOk result (LoadsFile csv.now LimitKind.Csv
        (files_at F.Files files.old) (files_at F.Files files.new)) }
    ensures err { IfErr result (λ fault. StopsAtChart (chart_outcome fault) csv.now settings
        (files_at F.Files files.old) (files_at F.Files files.new)) }
    ensures given { F.given files.new ≡ F.given files.old }
{
    let mut receiver = RowsReceiver::new(alloc, settings.cell, settings.tick);
    load(files, csv, LimitKind::Csv, &mut receiver)?;
    Ok(receiver.finish()?)
}
