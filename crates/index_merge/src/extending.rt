ghost use Rattle.std.specs.Prelude.{◌≡◌, ◌+◌, ◌≤◌, None, IfErr, IfOk, OnOk};
ghost use Rattle.step_count.specs.Reads.{AllMay};
ghost use Rattle.gridding.specs.GridLimit.{IsGridFaultFor};
ghost use Rattle.index_merge.specs.Extension.{IsAsBuilt, extension_cost, extension_fault, extension_of};
ghost use Rattle.path_union.specs.Paths.{AreTimely};
ghost use Rattle.path_union.specs.Union.{rows_of_tail};
ghost use Rattle.snapshots.specs.Parts.{chart_in};

use crate::index_paths::IndexPaths;
use gridding::GridFault;
use path_union::{RowsPaths, chart_of_both};
use std::alloc::Global;
use step_count::{Reads, Steps};
use track_index::Index;
use track_types::{Chart, Row};

/// The chart of an index and of later rows, which count where both have one of an object and an instant.
///
/// It refuses, in this order:
/// - more than 2^24 rows, by the value 2^24 + 1 (`Limit`);
/// - an index without a row where there is no later one (`Empty`);
/// - the first quantity of the rows that passes its limit, as `gridding::chart` judges them (`Limit`).
///
/// `Memory` may be answered to any index and rows.
///
/// The paths of all objects are drawn one after another, and no row is drawn after one too many: an
/// index that stands for billions of rows is refused without being expanded. Memory is taken for the
/// rows of the chart, and for the walk of one path.
#[tactic(auto, using(crate::proofs::AsBuiltLemmas::is_as_built))]
pub fn extended<L: Reads>(
    alloc: Global,
    index: &Index,
    later: Option<Chart>,
    steps: &mut Steps<L>,
) -> Result<Chart, GridFault>
    requires may { AllMay L.may }
    ensures ok { IfOk result (λ chart. chart ≡ extension_of (chart_in index.now) (rows_of_tail later)) }
    ensures exact { OnOk result (extension_fault index.now (rows_of_tail later) ≡ None) }
    ensures fault { IfErr result (IsGridFaultFor (extension_fault index.now (rows_of_tail later))) }
    ensures as_built { IsAsBuilt index.now (rows_of_tail later) }
    ensures cost { steps.new ≤ steps.old + extension_cost index.now (rows_of_tail later) }
{
    let stores = index.stores();
    let rows = RowsPaths::of(rows_of_tail(&later));
    chart_of_both(alloc, IndexPaths::of(index), rows, stores.frame(), steps)
}

// The rows of a chart of later rows, if there is one.
fn rows_of_tail(later: &Option<Chart>) -> &[Row]
    ensures value { result.now ≡ rows_of_tail later.now }
    ensures timely { AreTimely result.now }
{
    match later {
        Some(chart) => chart.rows(),
        None => &[],
    }
}
