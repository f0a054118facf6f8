ghost use Rattle.std.specs.Prelude.{◌≡◌, ℕ, ◌+◌, ◌^◌, ◌<◌, ◌≤◌, length, slice_index, slice_index_or};
ghost use Rattle.rule_order.specs.Queue.{AreNumbered, symbol_at};

/// Gives the symbols of keys the numbers from a first one on.
pub(crate) fn place(keys: &[(u32, u32, u32)], first: u32, places: &mut Vec<u32>)
    requires within { (i : ℕ) → i < length keys.now → symbol_at keys.now i < length places.old.items }
    requires fits { first + length keys.now < 2 ^ 32 }
    ensures len { length places.new.items ≡ length places.old.items }
    ensures kept { (number : ℕ → ℕ) → AreNumbered number first keys.now →
        (symbol : ℕ) → slice_index places.old.items symbol ≡ number symbol → slice_index places.new.items symbol ≡ number symbol }
    ensures placed { (number : ℕ → ℕ) → AreNumbered number first keys.now →
        (i : ℕ) → i < length keys.now → slice_index places.new.items (symbol_at keys.now i) ≡ number (symbol_at keys.now i) }
{
    let mut next = first;
    for key in keys {
        places[key.2 as usize] = next;
        next += 1;
    }
}

/// The place after the pairs that begin as the one at a place does.
pub(crate) fn layer_end(queue: &[(u32, u32)], from: usize) -> usize
    requires { from < length queue.now }
    ensures above { from < result }
    ensures within { result ≤ length queue.now }
    ensures alike { (i : ℕ) → from ≤ i → i < result → (slice_index_or queue.now i (0, 0)).0 ≡ (slice_index_or queue.now from (0, 0)).0 }
    ensures other { result < length queue.now → (slice_index_or queue.now result (0, 0)).0 ≡ (slice_index_or queue.now from (0, 0)).0 → ⊥ }
{
    let layer = queue[from].0;
    let mut end = from + 1;
    while end < queue.len() && queue[end].0 == layer {
        end += 1;
    }
    end
}
