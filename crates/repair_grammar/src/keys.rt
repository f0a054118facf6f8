ghost use Rattle.std.specs.Prelude.{◌≡◌, ℕ, ◌+◌, ◌<◌, ◌≤◌, false, nat_lt, if◌then◌else◌, [], ◌∷◌};
ghost use Rattle.std.specs.Prelude.{OnOk, IfSome, IfNone};
ghost use Rattle.std.specs.List.{sum_by, AllByRecursion, Contains};
ghost use Rattle.std.specs.List.Sorted.{IsPermutation};
ghost use Rattle.std.specs.Ordering.{is_lt};
ghost use Rattle.std.specs.BinaryHeap.{IsHeap, heap_items};
ghost use Rattle.std.proofs.Props.{props};
ghost use Rattle.repair_grammar.specs.declared.key.Key.{Key};
ghost use Rattle.repair_grammar.specs.RePair.{key_cmp};

use crate::key::Key;
use std::alloc::Global;
use std::collections::BinaryHeap;
use track_types::Memory;

/// Keys of pairs, from which the one that a round takes first is taken.
#[derive(Drop)]
pub struct Keys {
    heap: BinaryHeap<Key>,
    ghost ordered: { IsHeap key_cmp (heap_items heap) } by { Prim.hlevel props },
}

impl Keys {
    /// No keys.
    pub fn new(alloc: Global) -> Keys
        ensures { heap_items result.heap ≡ [] }
    {
        Keys {
            heap: BinaryHeap::new(alloc),
        }
    }

    /// Puts a key that counts two among the keys.
    pub fn add(&mut self, key: Key) -> Result<(), Memory>
        ensures kept { OnOk result ((other : Key) →
            Contains (heap_items self.old.heap) other → Contains (heap_items self.new.heap) other) }
        ensures added { OnOk result (1 < key.count → Contains (heap_items self.new.heap) key) }
        ensures sum { OnOk result (sum_by (λ other. other.count + 1) (heap_items self.new.heap)
            ≤ sum_by (λ other. other.count + 1) (heap_items self.old.heap)
            + (if nat_lt 1 key.count then key.count + 1 else 0)) }
    {
        if key.count > 1 {
            self.heap.push(key)?;
        }
        Ok(())
    }

    /// Takes a key out before which none is taken.
    pub fn take(&mut self) -> Option<Key>
        ensures moved { IfSome result (λ key.
            IsPermutation (heap_items self.old.heap) (key ∷ heap_items self.new.heap)) }
        ensures first { IfSome result (λ key.
            AllByRecursion (λ other. is_lt (key_cmp key other) ≡ false) (heap_items self.new.heap)) }
        ensures none { IfNone result
            ((heap_items self.old.heap ≡ []) × (heap_items self.new.heap ≡ [])) }
    {
        self.heap.pop()
    }
}
