ghost use Rattle.std.specs.Prelude.{◌≡◌, ◌+◌, ◌≤◌, None, IfErr, IfOk, OnOk};
ghost use Rattle.step_count.specs.Reads.{AllMay};
ghost use Rattle.index_merge.specs.Cost.{union_cost};
ghost use Rattle.index_merge.specs.Extension.{IsAsBuilt};
ghost use Rattle.index_merge.specs.MergeFault.{merge_fault, IsMergeFaultFor};
ghost use Rattle.index_merge.specs.Union.{union_of};
ghost use Rattle.snapshots.specs.Parts.{chart_in};

use crate::comparing::{check_common, check_settings};
use crate::fault::MergeFault;
use crate::index_paths::IndexPaths;
use path_union::chart_of_both;
use std::alloc::Global;
use step_count::{Reads, Steps};
use track_index::Index;
use track_types::Chart;

/// The chart of two indexes together: the rows of both, with the settings of the first.
///
/// It refuses, in this order:
/// - the first setting of cell, tick and period in which they differ (`Settings`);
/// - the least object that is listed in both (`Common`), whether it has a row or not;
/// - more than 2^24 rows, by the value 2^24 + 1 (`Limit`);
/// - two indexes without a row (`Empty`);
/// - the first quantity of the rows that passes its limit, as `gridding::chart` judges them (`Limit`).
///
/// `Memory` may be answered to any indexes.
///
/// The paths of all objects are drawn one after another, and no row is drawn after one too many: an
/// index that stands for billions of rows is refused without being expanded. Memory is taken for the
/// rows of the chart, and for the walk of one path.
#[tactic(auto, using(crate::proofs::AsBuiltLemmas::is_as_built))]
pub fn union<L: Reads>(
    alloc: Global,
    left: &Index,
    right: &Index,
    steps: &mut Steps<L>,
) -> Result<Chart, MergeFault>
    requires may { AllMay L.may }
    ensures ok { IfOk result (λ chart. chart ≡ union_of (chart_in left.now) (chart_in right.now)) }
    ensures exact { OnOk result (merge_fault left.now right.now ≡ None) }
    ensures fault { IfErr result (IsMergeFaultFor (merge_fault left.now right.now)) }
    ensures as_built { IsAsBuilt left.now (chart_in right.now).rows }
    ensures cost { steps.new ≤ steps.old + union_cost left.now right.now }
{
    let (one, other) = (left.stores(), right.stores());
    let frame = one.frame();
    check_settings(frame, other.frame())?;
    check_common(one, other)?;
    let (paths, others) = (IndexPaths::of(left), IndexPaths::of(right));
    Ok(chart_of_both(alloc, paths, others, frame, steps)?)
}
