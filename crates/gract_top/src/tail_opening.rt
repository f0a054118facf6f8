ghost use Rattle.std.specs.Prelude.{◌≡◌, IfOk, IfErr};
ghost use Rattle.host_ports.specs.Meanings.{files_at};
ghost use Rattle.gract_top.specs.Faults.{chart_outcome};
ghost use Rattle.gract_top.specs.Request.{AreSettings};
ghost use Rattle.gract_top.specs.Stopping.{LoadsTail, StopsWithoutTail};
ghost use Rattle.gract_top.specs.TailOpening.{settings_in};

use crate::chart_loading::load_chart;
use crate::fault::ChartFault;
use crate::request::Settings;
use host_ports::Files;
use std::alloc::Global;
use track_index::Index;
use track_types::Chart;

// The settings by which the rows of an index were gridded.
pub(crate) fn settings_of(index: &Index) -> Settings
    ensures value { result ≡ settings_in index.now }
    ensures ranges { AreSettings result }
{
    let frame = index.stores().frame();
    Settings {
        cell: frame.cell,
        tick: frame.tick,
        period: frame.period,
    }
}

// The chart of the CSV file of that name, or none where it has no data row.
pub(crate) fn load_tail<F: Files>(
    alloc: Global,
    csv: &str,
    settings: Settings,
    files: &mut F,
) -> Result<Option<Chart>, ChartFault>
    requires { AreSettings settings }
    ensures ok { IfOk result (λ tail. LoadsTail csv.now settings tail
        (files_at F.Files files.old) (files_at F.Files files.new)) }
    ensures err { IfErr result (λ fault. StopsWithoutTail (chart_outcome fault) csv.now settings
        (files_at F.Files files.old) (files_at F.Files files.new)) }
    ensures given { F.given files.new ≡ F.given files.old }
{
    match load_chart(alloc, csv, settings, files) {
        Ok(chart) => Ok(Some(chart)),
        Err(ChartFault::Empty) => Ok(None),
        Err(fault) => Err(fault),
    }
}
