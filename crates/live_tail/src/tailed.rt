ghost use Rattle.std.specs.Prelude.{◌≡◌, IfOk, IfSome};
ghost use Rattle.snapshots.specs.Parts.{chart_in};
ghost use Rattle.snapshots.specs.SoundParts.{IsValid};
ghost use Rattle.live_tail.specs.Facts.{IsCount};
ghost use Rattle.live_tail.specs.Join.{IsAsBuiltTogether};
ghost use Rattle.live_tail.specs.View.{IsOfFrame};

use crate::objects::objects_in;
use crate::tail::Tail;
use std::alloc::Global;
use std::marker::Model;
use track_index::Index;
use track_types::{Answerer, Chart, Memory};

/// An index and the chart of the rows that came after it, if there are any.
///
/// Contracts see the parts of the index, and that chart.
#[derive(Drop)]
pub struct Tailed<'a> {
    index: &'a Index,
    tail: Tail,
    // How many different objects are listed or have a row in the tail.
    objects: u32,
}

impl<'a> Model for Tailed<'a> {
    ghost use Rattle.live_tail.specs.Facts.{IsCount};
    ghost use Rattle.live_tail.specs.View.{TailedView};

    ghost Value = { TailedView };

    ghost view = { λ t. record { parts = t.index.now; tail = t.tail } };

    ghost invariant = { λ t. IsCount t.index.now t.tail t.objects };
}

impl<'a> Tailed<'a> {
    /// An index with a tail, or with none. The tail was gridded by the index's cell, tick and period.
    ///
    /// Memory is taken for the tail's rows once more, by instant, for bounds of each 16 of them, and for
    /// its objects. It makes no read.
    #[tactic(auto, using(crate::proofs::TogetherLemmas::together))]
    pub fn join(alloc: Global, index: &'a Index, tail: Option<Chart>) -> Result<Tailed<'a>, Memory>
        requires { IfSome tail (IsOfFrame index.now.frame) }
        ensures ok { IfOk result (λ tailed. tailed ≡ record { parts = index.now; tail = tail }) }
        ensures together { IsAsBuiltTogether (chart_in index.now) tail }
    {
        let _ = index.stores(); // says that the parts are valid
        let tail = Tail::new(alloc, tail)?;
        let objects = object_count(alloc, index, &tail)?;
        Ok(Tailed {
            index,
            tail,
            objects,
        })
    }

    /// The index and the tail as what answers questions. It takes no memory.
    pub fn view(&self) -> TailRef<'_>
        ensures { result.tailed.now ≡ self.now }
    {
        TailRef { tailed: self }
    }

    // The index.
    pub(crate) fn index(&self) -> &'a Index
        ensures value { result.now ≡ self.now.parts }
        ensures valid { IsValid self.now.parts }
    {
        let _ = self.index.stores(); // says that its parts are valid
        self.index
    }

    // The tail.
    pub(crate) fn tail(&self) -> &Tail
        ensures { result.now ≡ self.now.tail }
    {
        &self.tail
    }

    // How many different objects are listed or have a row in the tail.
    pub(crate) fn objects(&self) -> u32
        ensures { IsCount self.now.parts self.now.tail result }
    {
        self.objects
    }
}

/// An index with a tail that is asked.
#[derive(Clone, Copy)]
pub struct TailRef<'a> {
    pub tailed: &'a Tailed<'a>,
}

// How many different objects are listed or have a row in the tail.
fn object_count(alloc: Global, index: &Index, tail: &Tail) -> Result<u32, Memory>
    ensures { IfOk result (λ count. IsCount index.now tail.now count) }
{
    let _ = index.stores(); // says how many objects an index may have
    let view = index.view();
    let mut objects = objects_in(alloc, tail.rows())?;
    objects.retain(|object| !view.lists(*object));
    Ok(view.facts().objects + objects.len() as u32)
}
