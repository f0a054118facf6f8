ghost use Rattle.std.specs.Prelude.{◌≡◌, ℕ, ◌+◌, ◌^◌, ◌<◌, length, IfOk, slice_index_or};
ghost use Rattle.std.specs.Prelude.{false, take, drop, slice_set};
ghost use Rattle.std.specs.List.{AllByRecursion};
ghost use Rattle.repair_grammar.specs.Threads.{at, live, AreThreads, HasEnds, IsAround};
ghost use Rattle.repair_grammar.specs.Joins.{IsSymbolRow};
ghost use Rattle.repair_grammar.specs.Runs.{begins_odd, ends_odd};
ghost use Rattle.repair_grammar.specs.declared.symbol_row.TheConstants.{END, GAP};

use std::alloc::Global;
use track_types::Memory;

/// What stands before each block, and after the last.
pub const END: u32 = u32::MAX - 1;

/// What stands at a place from which the symbol was taken.
pub const GAP: u32 = u32::MAX;

/// The places and symbols on both sides of a place and its right neighbour, which is to go.
#[derive(Clone, Copy)]
pub struct Around {
    pub left: usize,
    pub gone: usize,
    pub right: usize,
    pub before: u32,
    pub after: u32,
}

/// The symbols of all blocks in one row. A place from which the symbol was taken stays as a gap, and
/// each symbol knows the places of its neighbours.
#[derive(Drop)]
pub struct SymbolRow {
    pub symbols: Vec<u32>,
    pub next: Vec<u32>,
    pub previous: Vec<u32>,
}

impl SymbolRow {
    /// A row without gaps, threaded from each place to the next.
    pub fn new(alloc: Global, symbols: Vec<u32>) -> Result<SymbolRow, Memory>
        requires few { length symbols.items + 1 < 2 ^ 32 }
        requires plain { AllByRecursion (λ symbol. symbol < GAP) symbols.items }
        requires ends { HasEnds symbols.items }
        ensures row { IfOk result IsSymbolRow }
        ensures symbols { IfOk result (λ row. row.symbols.items ≡ symbols.items) }
    {
        let mut next = Vec::with_capacity(alloc, symbols.len())?;
        let mut previous = Vec::with_capacity(alloc, symbols.len())?;
        'places: for place in 0..symbols.len() {
            next.push(place as u32 + 1)?;
            previous.push(place.saturating_sub(1) as u32)?;
        }
        Ok(SymbolRow {
            symbols,
            next,
            previous,
        })
    }

    /// Whether the symbol stands oddly often in a row right before the place.
    pub fn is_odd_before(&self, place: usize, symbol: u32) -> bool
        requires row { IsSymbolRow self.now }
        requires stands { at self.now.symbols.items place < GAP }
        requires inside { (0 < place) × (place < length self.now.symbols.items) }
        requires plain { symbol < END }
        ensures { result ≡ ends_odd symbol false (live (take place self.now.symbols.items)) }
    {
        let mut odd = false;
        let mut before = self.previous[place] as usize;
        'run: while self.symbols[before] == symbol {
            odd = !odd;
            before = self.previous[before] as usize;
        }
        odd
    }

    /// Whether the symbol stands oddly often in a row from the place on.
    pub fn is_odd_from(&self, place: usize, symbol: u32) -> bool
        requires row { IsSymbolRow self.now }
        requires stands { at self.now.symbols.items place < GAP }
        requires inside { place < length self.now.symbols.items }
        requires plain { symbol < END }
        ensures { result ≡ begins_odd symbol (live (drop place self.now.symbols.items)) }
    {
        let mut odd = false;
        let mut here = place;
        'run: while self.symbols[here] == symbol {
            odd = !odd;
            here = self.next[here] as usize;
        }
        odd
    }

    /// What stands around a place and its right neighbour.
    pub fn around(&self, place: usize) -> Around
        requires row { IsSymbolRow self.now }
        requires inside { place < length self.now.symbols.items }
        requires stands { at self.now.symbols.items place < END }
        requires gone { at self.now.symbols.items (slice_index_or self.now.next.items place 0) < END }
        ensures { IsAround self.now.symbols.items place
            result.left result.gone result.right result.before result.after }
    {
        let left = self.previous[place] as usize;
        let gone = self.next[place] as usize;
        let right = self.next[gone] as usize;
        Around {
            left,
            gone,
            right,
            before: self.symbols[left],
            after: self.symbols[right],
        }
    }

    /// Puts a symbol at a place, and takes its right neighbour out. `around` is what stands around them.
    pub fn join_around(&mut self, place: usize, around: Around, symbol: u32)
        requires threads { AreThreads self.old.symbols.items self.old.next.items self.old.previous.items }
        requires around { IsAround self.old.symbols.items place
            around.left around.gone around.right around.before around.after }
        requires fits { symbol < GAP }
        ensures threads { AreThreads self.new.symbols.items self.new.next.items self.new.previous.items }
        ensures symbols { self.new.symbols.items
            ≡ slice_set (slice_set self.old.symbols.items place symbol) around.gone GAP }
    {
        self.symbols[place] = symbol;
        self.symbols[around.gone] = GAP;
        self.next[place] = around.right as u32;
        self.previous[around.right] = place as u32;
    }

    /// The row, with its gaps.
    pub fn into_symbols(self) -> Vec<u32>
        ensures { result.items ≡ self.symbols.items }
    {
        self.symbols
    }
}
