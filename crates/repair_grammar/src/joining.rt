ghost use Rattle.std.specs.Prelude.{◌≡◌, ℕ, ◌+◌, ◌^◌, ◌<◌, ◌≤◌, ◌==◌, true, false, List, ◌∷◌, ◌++◌};
ghost use Rattle.std.specs.Prelude.{length, take, drop, slice_index_or, IfOk, OnOk, IfSome};
ghost use Rattle.std.specs.List.{Contains};
ghost use Rattle.repair_grammar.specs.Kept.{noted_at, times_of};
ghost use Rattle.repair_grammar.specs.Pairs.{count_of, places_of, HasCome};
ghost use Rattle.repair_grammar.specs.Runs.{begins_odd, ends_odd};
ghost use Rattle.repair_grammar.specs.Threads.{at, live, IsCounted, IsPassing, IsUnmarked};
ghost use Rattle.repair_grammar.specs.Joins.{IsSymbolRow, plain_of, gone_left, gone_right, only_if};
ghost use Rattle.repair_grammar.specs.Joins.{counts_left};
ghost use Rattle.repair_grammar.specs.declared.symbol_row.TheConstants.{END, GAP};

use crate::pairs::Pairs;
use crate::symbol_row::{END, SymbolRow};
use std::alloc::Global;
use track_types::Memory;

/// The pair of two symbols, if neither is a mark.
#[tactic(auto, unfolding(crate::specs::Joins::plain_of))]
pub fn plain_pair(left: u32, right: u32) -> Option<(u32, u32)>
    ensures { result ≡ plain_of left right }
{
    if left < END && right < END {
        Some((left, right))
    } else {
        None
    }
}

// The pair on the left that counts once less where the pair at a place goes.
#[tactic(auto, unfolding(crate::specs::Joins::gone_left))]
fn left_gone(row: &SymbolRow, place: usize, left: u32, pair: (u32, u32)) -> Option<(u32, u32)>
    requires row { IsSymbolRow row.now }
    requires stands { at row.now.symbols.items place ≡ pair.0 }
    requires inside { place < length row.now.symbols.items }
    requires plain { pair.0 < END }
    ensures { result ≡ gone_left (ends_odd pair.0 false (live (take place row.now.symbols.items)))
        left pair.0 pair.1 }
{
    if left != pair.0 {
        return plain_pair(left, pair.0);
    }
    if pair.0 != pair.1 && row.is_odd_before(place, pair.0) {
        Some((pair.0, pair.0))
    } else {
        None
    }
}

// The pair on the right that counts once less, where the symbol at a place stands after the pair.
#[tactic(auto, unfolding(crate::specs::Joins::gone_right))]
fn right_gone(row: &SymbolRow, place: usize, right: u32, pair: (u32, u32)) -> Option<(u32, u32)>
    requires row { IsSymbolRow row.now }
    requires stands { at row.now.symbols.items place < GAP }
    requires inside { place < length row.now.symbols.items }
    requires plain { pair.1 < END }
    ensures { result ≡ gone_right (begins_odd pair.1 (live (drop place row.now.symbols.items)))
        pair.0 pair.1 right }
{
    if right != pair.1 {
        return plain_pair(pair.1, right);
    }
    if pair.0 != pair.1 && row.is_odd_from(place, pair.1) {
        Some((pair.1, pair.1))
    } else {
        None
    }
}

/// Notes a place of a pair, if there is one, and counts the pair once more if this place counts.
pub fn note_some(
    alloc: Global,
    pairs: &mut Pairs,
    pair: Option<(u32, u32)>,
    place: u32,
    counts: bool,
) -> Result<(), Memory>
    requires room { IfSome pair (λ own. count_of pairs.old own + 1 < 2 ^ 32) }
    ensures counts { OnOk result ((other : ℕ × ℕ) → count_of pairs.new other
        ≡ count_of pairs.old other + times_of (only_if counts pair) other) }
    ensures places { OnOk result ((other : ℕ × ℕ) → places_of pairs.new other
        ≡ places_of pairs.old other ++ noted_at pair place other) }
    ensures kept { OnOk result ((other : ℕ × ℕ) (k : ℕ) →
        Contains (places_of pairs.old other) k → Contains (places_of pairs.new other) k) }
    ensures noted { OnOk result (IfSome pair (λ own. Contains (places_of pairs.new own) place)) }
    ensures come { OnOk result (HasCome pairs.old pairs.new) }
{
    if let Some(pair) = pair {
        pairs.note(alloc, pair, place, counts)?;
    }
    Ok(())
}

// Counts a pair once less, if there is one.
fn lower_some(pairs: &mut Pairs, pair: Option<(u32, u32)>)
    requires some { IfSome pair (λ own. 0 < count_of pairs.old own) }
    ensures counts { (other : ℕ × ℕ) → count_of pairs.new other + times_of pair other
        ≡ count_of pairs.old other }
    ensures places { (other : ℕ × ℕ) → 0 < count_of pairs.new other →
        places_of pairs.new other ≡ places_of pairs.old other }
    ensures few { (other : ℕ × ℕ) →
        length (places_of pairs.new other) ≤ length (places_of pairs.old other) }
    ensures fresh { pairs.new.fresh ≡ pairs.old.fresh }
{
    if let Some(pair) = pair {
        pairs.lower(pair);
    }
}

// Whether the pair of the symbol before a place and the new one counts. `odd` says whether the new
// symbol's run there is odd: in a run every second pair overlaps the one before it.
fn counts_next(before: u32, symbol: u32, odd: bool) -> bool
    ensures { result ≡ counts_left odd before symbol }
{
    if before == symbol { odd } else { true }
}

/// Puts the symbol in place of the pair at a place, and counts what that changes. Where the symbol
/// stands before the place, `odd` says whether its run there is odd. It answers whether the run that
/// ends at the place now is odd. For each pair at most one place is noted.
pub fn join_at(
    alloc: Global,
    row: &mut SymbolRow,
    pairs: &mut Pairs,
    place: usize,
    pair: (u32, u32),
    symbol: u32,
    odd: bool,
) -> Result<bool, Memory>
    requires row { IsSymbolRow row.old }
    requires counted { IsCounted row.old.symbols.items (count_of pairs.old) (places_of pairs.old) }
    requires inside { place < length row.old.symbols.items }
    requires left { at row.old.symbols.items place ≡ pair.0 }
    requires right { at row.old.symbols.items (slice_index_or row.old.next.items place 0) ≡ pair.1 }
    requires plain { IsUnmarked pair }
    requires fits { symbol < END }
    requires begins { (pair.0 == pair.1) ≡ true → (at row.old.symbols.items
        (slice_index_or row.old.previous.items place 0) == pair.0) ≡ false }
    requires new { (k : ℕ) → place ≤ k → (symbol == at row.old.symbols.items k) ≡ false }
    requires other { (symbol == pair.1) ≡ false }
    requires run { (at row.old.symbols.items
        (slice_index_or row.old.previous.items place 0) == symbol) ≡ true →
        odd ≡ ends_odd symbol false (live (take place row.old.symbols.items)) }
    ensures row { OnOk result (IsSymbolRow row.new) }
    ensures counted { OnOk result
        (IsCounted row.new.symbols.items (count_of pairs.new) (places_of pairs.new)) }
    ensures few { OnOk result ((other : ℕ × ℕ) →
        length (places_of pairs.new other) ≤ length (places_of pairs.old other) + 1) }
    ensures come { OnOk result (HasCome pairs.old pairs.new) }
    ensures place { OnOk result (at row.new.symbols.items place ≡ symbol) }
    ensures run { IfOk result (λ odd.
        odd ≡ ends_odd symbol false (live (take (place + 1) row.new.symbols.items))) }
    ensures passing { OnOk result ((first places : List ℕ) (q : ℕ) →
        IsPassing first row.old.symbols.items pair symbol (place ∷ places) q →
        ((k : ℕ) → Contains places k → place ≤ k) →
        IsPassing first row.new.symbols.items pair symbol places (place + 1)) }
{
    let around = row.around(place);
    let counts = counts_next(around.before, symbol, odd);
    note_some(
        alloc,
        pairs,
        plain_pair(around.before, symbol),
        around.left as u32,
        counts,
    )?;
    note_some(
        alloc,
        pairs,
        plain_pair(symbol, around.after),
        place as u32,
        true,
    )?;
    pairs.lower(pair);
    lower_some(pairs, left_gone(row, place, around.before, pair));
    lower_some(pairs, right_gone(row, around.right, around.after, pair));
    row.join_around(place, around, symbol);
    Ok(counts_next(around.before, symbol, !odd))
}
