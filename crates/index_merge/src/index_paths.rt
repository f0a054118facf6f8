ghost use Rattle.std.specs.Prelude.{◌≡◌, ◌+◌, ◌≤◌, IfOk, Some, length};
ghost use Rattle.snapshots.specs.Parts.{chart_in};
ghost use Rattle.path_union.specs.Paths.{AreTimely, IsFirstPath};
ghost use Rattle.track_index.specs.Path.{path_reads_past};
ghost use Rattle.track_types.specs.declared.row.Row.{Row as RowView};
ghost use Rattle.path_union.specs.Reads.{IsTaken};
ghost use Rattle.index_merge.specs.Cost.{paths_cost, paths_cost_past};
ghost use Rattle.index_merge.specs.Paths.{cost_from, cost_past_from, object_at, rows_from};

use path_union::Paths;
use std::alloc::Global;
use track_index::{Index, PathWalk};
use track_types::{Answerer, Memory};

/// The paths of an index's objects from a place on, each from the index's first instant to the last.
#[derive(Drop)]
pub struct IndexPaths<'a> {
    index: &'a Index,
    // The place of the next object.
    place: u32,
}

impl<'a> IndexPaths<'a> {
    /// The paths of all objects of an index. It takes no memory and makes no read.
    pub fn of(index: &'a Index) -> IndexPaths<'a>
        ensures rows { rows_from result.index.now result.place ≡ (chart_in index.now).rows }
        ensures timely { AreTimely (chart_in index.now).rows }
        ensures budget { cost_from result.index.now result.place ≡ paths_cost index.now }
        ensures reads_past { (row : RowView) →
            cost_past_from result.index.now result.place row ≡ paths_cost_past index.now row }
    {
        let _ = index.stores(); // says that the parts are valid
        IndexPaths { index, place: 0 }
    }
}

impl<'a> Paths for IndexPaths<'a> {
    ghost use Rattle.index_merge.specs.Paths.{count_from, cost_from, cost_past_from, object_at, rows_from};

    type Walk = PathWalk<'a>;

    ghost rows = { λ p. rows_from p.index.now p.place };

    ghost next = { λ p. object_at p.index.now p.place };

    ghost budget = { λ p. cost_from p.index.now p.place };

    ghost reads_past = { λ p. cost_past_from p.index.now p.place };

    ghost count = { λ p. count_from p.index.now p.place };

    fn object(&self) -> Option<u32> {
        let stores = self.index.stores();
        if self.place < stores.objects() {
            Some(stores.object_at(self.place))
        } else {
            None
        }
    }

    fn take_path(&mut self, alloc: Global, object: u32) -> Result<PathWalk<'a>, Memory> {
        let walk = whole_path(alloc, self.index, self.place, object)?;
        let _ = self.index.stores().objects(); // says that there is a number for the next place
        self.place += 1;
        Ok(walk)
    }
}

// The path of the object at a place.
fn whole_path<'a>(
    alloc: Global,
    index: &'a Index,
    place: u32,
    object: u32,
) -> Result<PathWalk<'a>, Memory>
    requires { object_at index.now place ≡ Some object }
    ensures within { place + 1 ≤ length index.now.objects }
    ensures path { IfOk result (λ walk. IsFirstPath object walk.stops
        (rows_from index.now place) (rows_from index.now (place + 1))) }
    ensures cost { IfOk result (λ walk. walk.reads + cost_from index.now (place + 1)
        ≤ cost_from index.now place) }
    ensures in_time { IfOk result (λ walk. IsTaken object walk.reads
        (path_reads_past walk)
        (cost_past_from index.now place) (cost_past_from index.now (place + 1))) }
{
    let _ = index.stores(); // says that the parts are valid
    let view = index.view();
    let facts = view.facts();
    view.walk(alloc, object, facts.first, facts.last)
}
