ghost use Rattle.std.specs.Prelude.{◌≡◌, ℕ, ◌<◌, ◌==◌, true, false, length, slice_index_or, OnOk};
ghost use Rattle.std.specs.List.{Contains};
ghost use Rattle.std.specs.List.Sorted.{IsNonDecreasing};
ghost use Rattle.repair_grammar.specs.RePair.{block_after_pass};
ghost use Rattle.repair_grammar.specs.Pairs.{count_of, places_of, HasCome};
ghost use Rattle.repair_grammar.specs.Threads.{at, live, stands_at, IsCounted, IsUnmarked};
ghost use Rattle.repair_grammar.specs.Joins.{IsSymbolRow};
ghost use Rattle.repair_grammar.specs.declared.symbol_row.TheConstants.{END};

use crate::joining::join_at;
use crate::pairs::Pairs;
use crate::symbol_row::SymbolRow;
use std::alloc::Global;
use track_types::Memory;

/// Puts the symbol in place of the pair wherever it stands. The places are in order.
pub fn replace_all(
    alloc: Global,
    row: &mut SymbolRow,
    pairs: &mut Pairs,
    places: &[u32],
    pair: (u32, u32),
    symbol: u32,
) -> Result<(), Memory>
    requires row { IsSymbolRow row.old }
    requires counted { IsCounted row.old.symbols.items (count_of pairs.old) (places_of pairs.old) }
    requires plain { IsUnmarked pair }
    requires fits { symbol < END }
    requires new { (k : ℕ) → (symbol == at row.old.symbols.items k) ≡ false }
    requires other { (symbol == pair.1) ≡ false }
    requires order { IsNonDecreasing places.now }
    requires noted { (k : ℕ) → stands_at row.old.symbols.items pair k ≡ true → Contains places.now k }
    ensures row { OnOk result (IsSymbolRow row.new) }
    ensures counted { OnOk result
        (IsCounted row.new.symbols.items (count_of pairs.new) (places_of pairs.new)) }
    ensures come { OnOk result (HasCome pairs.old pairs.new) }
    ensures all { OnOk result
        (live row.new.symbols.items ≡ block_after_pass pair symbol (live row.old.symbols.items)) }
{
    let mut odd = false;
    'places: for place in places {
        if !stands(row, *place as usize, pair) {
            continue;
        }
        odd = join_at(alloc, row, pairs, *place as usize, pair, symbol, odd)?;
    }
    Ok(())
}

// Whether the pair stands at a place.
fn stands(row: &SymbolRow, place: usize, pair: (u32, u32)) -> bool
    requires row { IsSymbolRow row.now }
    requires plain { IsUnmarked pair }
    ensures yes { result ≡ true → (place < length row.now.symbols.items)
        × (at row.now.symbols.items place ≡ pair.0)
        × (at row.now.symbols.items (slice_index_or row.now.next.items place 0) ≡ pair.1) }
    ensures no { result ≡ false → stands_at row.now.symbols.items pair place ≡ false }
{
    if place >= row.symbols.len() {
        return false;
    }
    if row.symbols[place] != pair.0 {
        return false;
    }
    row.symbols[row.next[place] as usize] == pair.1
}
