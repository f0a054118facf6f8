ghost use Rattle.std.specs.Prelude.{◌≡◌, ◌<◌};
ghost use Rattle.step_count.specs.Reads.{AllMay};

use crate::charts::{Place, chart_of};
use std::marker::Brand;
use std::sync::ledger::Blank;
use std::test::Fail;
use step_count::{Reads, Steps};
use track_index::{Index, IndexRef};
use track_types::{Answerer, Cell, Chart, Memory};

// The cell of object 7 at instant 2, asked of the index of a chart, which was taken apart before.
fn cell_of_remade<L: Reads>(
    rt: &HostRuntime,
    chart: &Chart,
    blank: Blank,
) -> Result<Option<Cell>, Memory>
    requires name { blank.name ≡ L.name }
    requires parts { blank.parts ≡ L.parts }
    requires some { 0 < L.parts }
    requires may { AllMay L.may }
{
    let mut steps = Steps::<L>::new(rt, blank);
    let index = Index::build(rt.alloc(), chart, &mut steps)?;
    let Index { stores } = index;
    let index = Index { stores };
    let view = IndexRef { index: &index };
    Ok(view.position(7, 2, &mut steps))
}

// The same with a counter of its own.
fn remade(rt: &HostRuntime, chart: &Chart) -> Result<Option<Cell>, Memory> {
    cell_of_remade::<Brand>(rt, chart, Blank::new(1))
}

const PATH: [Place; 3] = [(7, 0, 10, 10), (7, 1, 11, 10), (7, 2, 12, 11)];

#[test]
fn an_index_is_built_and_taken_apart(rt: HostRuntime) -> Result<(), Fail> {
    let chart = chart_of(rt.alloc(), &PATH, 4)?;
    let found = remade(&rt, &chart)?;
    assert!(rt; found == Some(Cell { x: 12, y: 11 }));
    Ok(())
}
