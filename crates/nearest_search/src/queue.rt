ghost use Rattle.std.specs.Prelude.{◌≡◌, ◌≤◌, [], ◌∷◌, IfNone, IfOk, IfSome, OnOk, All};
ghost use Rattle.std.specs.List.Sorted.{IsPermutation};
ghost use Rattle.std.specs.BinaryHeap.{IsHeap, heap_items};
ghost use Rattle.std.proofs.Props.{props};
ghost use Rattle.nearest_search.specs.Waiting.{element_cmp};

use crate::waiting::Element;
use std::alloc::Global;
use std::collections::BinaryHeap;
use track_types::Memory;

/// What waits in a search. The element with the least key is taken first.
#[derive(Drop)]
pub(crate) struct Queue {
    heap: BinaryHeap<Element>,
    ghost ordered: { IsHeap element_cmp (heap_items heap) } by { Prim.hlevel props },
}

impl Queue {
    /// Nothing yet. It takes no memory.
    pub(crate) fn new(alloc: Global) -> Queue
        ensures { heap_items result.heap ≡ [] }
    {
        Queue {
            heap: BinaryHeap::new(alloc),
        }
    }

    /// Puts an element among those that wait.
    pub(crate) fn push(&mut self, element: Element) -> Result<(), Memory>
        ensures { OnOk result
            (IsPermutation (element ∷ heap_items self.old.heap) (heap_items self.new.heap)) }
    {
        self.heap.push(element)?;
        Ok(())
    }

    /// Takes an element out whose key is the least.
    pub(crate) fn take(&mut self) -> Option<Element>
        ensures moved { IfSome result (λ element.
            IsPermutation (heap_items self.old.heap) (element ∷ heap_items self.new.heap)) }
        ensures least { IfSome result (λ element.
            All (λ other. element.key ≤ other.key) (heap_items self.new.heap)) }
        ensures none { IfNone result (heap_items self.old.heap ≡ []) }
    {
        self.heap.pop()
    }
}
