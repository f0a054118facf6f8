ghost use Rattle.std.specs.Prelude.{◌≡◌, ℕ, ◌^◌, ◌<◌, length, IfOk};
ghost use Rattle.std.specs.List.{Contains};
ghost use Rattle.repair_grammar.specs.Pairs.{count_of, places_of};
ghost use Rattle.repair_grammar.specs.Threads.{at, HasEnds, IsCounted};
ghost use Rattle.repair_grammar.specs.declared.symbol_row.TheConstants.{GAP};

use crate::joining::{note_some, plain_pair};
use crate::pairs::Pairs;
use std::alloc::Global;
use track_types::Memory;

/// Counts each pair of a row without gaps, and notes its places.
pub fn count_row(alloc: Global, row: &[u32]) -> Result<Pairs, Memory>
    requires few { length row.now < 2 ^ 32 }
    requires words { (k : ℕ) → k < length row.now → at row.now k < GAP }
    requires ends { HasEnds row.now }
    ensures counted { IfOk result (λ pairs. IsCounted row.now (count_of pairs) (places_of pairs)) }
    ensures fresh { IfOk result (λ pairs. (pair : ℕ × ℕ) → 0 < count_of pairs pair →
        Contains pairs.fresh.items pair) }
{
    let mut pairs = Pairs::new(alloc);
    let Some((first, rest)) = row.split_first() else {
        return Ok(pairs);
    };
    let mut left = *first;
    let mut taken = false;
    'symbols: for place in 0..rest.len() {
        let right = rest[place];
        // In a run of one symbol every second pair overlaps the one that was taken before it.
        let overlaps = taken & (left == right);
        note_some(
            alloc,
            &mut pairs,
            plain_pair(left, right),
            place as u32,
            !overlaps,
        )?;
        taken = !overlaps & (left == right);
        left = right;
    }
    Ok(pairs)
}
