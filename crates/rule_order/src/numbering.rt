ghost use Rattle.std.specs.Prelude.{◌≡◌, ℕ, ◌^◌, ◌<◌, IfOk, length, map, slice_index_or};
ghost use Rattle.std.specs.List.{range_with_len};
ghost use Rattle.rule_order.specs.Layers.{AreBelow, symbol_count};
ghost use Rattle.rule_order.specs.Order.{new_symbol};
ghost use Rattle.rule_order.specs.Queue.{ArePlaced, AreQueued, IsParted, IsTold, key_of};

use crate::grammar::Grammar;
use crate::placing::{layer_end, place};
use std::alloc::{AllocError, Global};

impl Grammar<'_> {
    /// The new number of each symbol.
    pub(crate) fn new_symbols(&self, alloc: Global) -> Result<Vec<u32>, AllocError>
        requires below { AreBelow self.now.alphabet self.now.rules.now }
        ensures { IfOk result (λ places. places.items
            ≡ map (new_symbol self.now.alphabet self.now.rules.now)
            (range_with_len 0 (symbol_count self.now.alphabet self.now.rules.now))) }
    {
        let queue = self.by_layer(alloc)?;
        let mut places = numbers(alloc, self.alphabet as usize + self.rules.len())?;
        let mut from = 0;
        while from < queue.len() {
            from = self.number_layer(alloc, queue.as_slice(), from, &mut places)?;
        }
        Ok(places)
    }

    // Numbers the layer that begins at a place of the queue, and answers the place after it.
    fn number_layer(
        &self,
        alloc: Global,
        queue: &[(u32, u32)],
        from: usize,
        places: &mut Vec<u32>,
    ) -> Result<usize, AllocError>
        requires below { AreBelow self.now.alphabet self.now.rules.now }
        requires queued { AreQueued self.now.alphabet self.now.rules.now queue.now }
        requires some { from < length queue.now }
        requires parted { IsParted queue.now from }
        requires done { ArePlaced self.now.alphabet self.now.rules.now queue.now from places.old.items }
        ensures above { IfOk result (λ to. from < to) }
        ensures parted { IfOk result (λ to. IsParted queue.now to) }
        ensures done { IfOk result (λ to. ArePlaced self.now.alphabet self.now.rules.now queue.now to places.new.items) }
    {
        let to = layer_end(queue, from);
        let mut keys = self.keys(alloc, &queue[from..to], places.as_slice())?;
        keys.sort_unstable();
        place(keys.as_slice(), self.alphabet + from as u32, places);
        Ok(to)
    }

    // The symbols of rules, each after the new numbers of its parts, which are known.
    fn keys(
        &self,
        alloc: Global,
        pairs: &[(u32, u32)],
        places: &[u32],
    ) -> Result<Vec<(u32, u32, u32)>, AllocError>
        requires told { (i : ℕ) → i < length pairs.now → IsTold self.now.alphabet self.now.rules.now places.now (slice_index_or pairs.now i (0, 0)) }
        ensures { IfOk result (λ keys. keys.items ≡ map (key_of self.now.alphabet self.now.rules.now) pairs.now) }
    {
        let mut keys = Vec::with_capacity(alloc, pairs.len())?;
        for &(_, symbol) in pairs {
            let (left, right) = self.rules[(symbol - self.alphabet) as usize];
            keys.push((places[left as usize], places[right as usize], symbol))?;
        }
        Ok(keys)
    }
}

// So many numbers, from 0 on.
fn numbers(alloc: Global, count: usize) -> Result<Vec<u32>, AllocError>
    requires { count < 2 ^ 32 }
    ensures { IfOk result (λ numbers. numbers.items ≡ range_with_len 0 count) }
{
    let mut numbers = Vec::with_capacity(alloc, count)?;
    for number in 0..count {
        numbers.push(number as u32)?;
    }
    Ok(numbers)
}
