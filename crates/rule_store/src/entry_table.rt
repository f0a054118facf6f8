ghost use Rattle.std.specs.Prelude.{◌≡◌, ℕ, ◌+◌, ◌^◌, ◌<◌, ◌≤◌, true, false, not, length, slice_index, IfOk, IfSome, MatchOption};
ghost use Rattle.std.proofs.Props.{props};
ghost use Rattle.spiral_code.specs.Spiral.{ring_of};
ghost use Rattle.track_types.specs.declared.limit.TheConstants.{MAX_HEIGHT, MAX_PERIOD};
ghost use Rattle.rule_store.specs.View.{RulesView};
ghost use Rattle.rule_store.specs.Entry.{entry_of, IsEntryWithin};
ghost use Rattle.rule_store.specs.Flaws.{is_far, is_rule_flawed, leads_out, reach_limit};
ghost use Rattle.rule_store.specs.Stored.{entries_of, AreShallow, IsEntryOf};

use crate::entry::Entry;
use crate::joining::{join, terminal_entry};
use crate::packed_entries::PackedEntries;
use crate::packed_entry::PackedEntry;
use std::alloc::Global;
use track_types::Memory;

/// The entries of a grammar's symbols, made and judged as its values and rules come.
///
/// First come the values of the alphabet, each a terminal, and then the rules. What is refused is not
/// added, and nothing that came before changes. Contracts speak of any rules whose first symbols
/// these are.
#[derive(Drop)]
pub struct EntryTable {
    entries: PackedEntries,
    pub(crate) height: u32,
    pub(crate) period: u32,
    ghost height_fits: { height ≤ MAX_HEIGHT },
    ghost some: { 0 < period },
    ghost period_fits: { period ≤ MAX_PERIOD },
    ghost shallow: { AreShallow (entries_of entries) } by { Prim.hlevel props },
}

impl EntryTable {
    ghost use Rattle.rule_store.specs.Table.{IsNextRule, IsTableOf, symbols_of};

    /// The table of no symbols, for a grid of this height and periods of this length. `height` is at
    /// most `MAX_HEIGHT`, and `period` 1 to `MAX_PERIOD`.
    pub fn new(alloc: Global, height: u32, period: u32) -> EntryTable
        requires height_fits { height ≤ MAX_HEIGHT }
        requires some { 0 < period }
        requires period_fits { period ≤ MAX_PERIOD }
        ensures none { symbols_of result ≡ 0 }
        ensures entries { (view : RulesView) → height ≡ view.height → period ≡ view.period → IsTableOf view result }
    {
        EntryTable {
            entries: PackedEntries::new(alloc, height, period),
            height,
            period,
        }
    }

    /// The same, with room for so many symbols.
    pub(crate) fn with_room(
        alloc: Global,
        height: u32,
        period: u32,
        count: usize,
    ) -> Result<EntryTable, Memory>
        requires height_fits { height ≤ MAX_HEIGHT }
        requires some { 0 < period }
        requires period_fits { period ≤ MAX_PERIOD }
        ensures none { IfOk result (λ table. symbols_of table ≡ 0) }
        ensures entries { IfOk result (λ table. (view : RulesView) → height ≡ view.height → period ≡ view.period
            → IsTableOf view table) }
    {
        Ok(EntryTable {
            entries: PackedEntries::with_room(alloc, height, period, count)?,
            height,
            period,
        })
    }

    /// The entries, symbol by symbol.
    pub(crate) fn into_entries(self) -> PackedEntries
        ensures { result ≡ self.entries }
    {
        self.entries
    }

    /// Adds a value of the alphabet, and answers whether it was taken: it is refused where it is a
    /// movement whose ring is above `2^height - 1`. Fewer than 2^26 values came before.
    pub fn push_value(&mut self, value: u64) -> Result<bool, Memory>
        requires { symbols_of self.old < 2 ^ 26 }
        ensures judged { IfOk result (λ taken. taken ≡ not (leads_out self.old.height value)) }
        ensures more { IfOk result (λ taken. taken ≡ true → symbols_of self.new ≡ symbols_of self.old + 1) }
        ensures entries { IfOk result (λ taken. taken ≡ true → (view : RulesView) → IsTableOf view self.old
            → symbols_of self.old < length view.alphabet → slice_index view.alphabet (symbols_of self.old) ≡ value
            → IsTableOf view self.new) }
    {
        let side = 2 * self.reach_limit() + 1;
        // The codes up to ring r are those below the square of 2r + 1.
        if value > side * side {
            return Ok(false);
        }
        let entry = terminal_entry(self.entries.len() as u32, value);
        self.entries.push(PackedEntry::pack(entry, 0))?;
        Ok(true)
    }

    /// Adds a rule of these parts, and answers whether it was taken. It is refused where a part is
    /// not below its own symbol, where it lasts longer than `period - 1`, or where its displacement or
    /// its box passes `2^height - 1`. Fewer than 2^26 symbols came before.
    pub fn push_rule(&mut self, left: u32, right: u32) -> Result<bool, Memory>
        requires { symbols_of self.old < 2 ^ 26 }
        ensures judged { IfOk result (λ taken. (view : RulesView) (j : ℕ) → IsNextRule view self.old j (left, right)
            → taken ≡ not (is_rule_flawed view j)) }
        ensures more { IfOk result (λ taken. taken ≡ true → symbols_of self.new ≡ symbols_of self.old + 1) }
        ensures entries { IfOk result (λ taken. taken ≡ true → (view : RulesView) (j : ℕ)
            → IsNextRule view self.old j (left, right) → IsTableOf view self.new) }
    {
        let Some(entry) = self.rule_entry(left, right) else {
            return Ok(false);
        };
        self.entries.push(entry)?;
        Ok(true)
    }

    /// The summary of a symbol of the table.
    pub fn entry(&self, symbol: u32) -> Entry
        requires { symbol < symbols_of self.now }
        ensures value { (view : RulesView) → IsTableOf view self.now → result ≡ entry_of view symbol }
        ensures within { IsEntryWithin result }
    {
        self.entries.at(symbol as usize).unpack(symbol)
    }

    // The entry of the next rule, from those of its parts; none where the rule is flawed.
    fn rule_entry(&self, left: u32, right: u32) -> Option<PackedEntry>
        requires { symbols_of self.now < 2 ^ 26 }
        ensures judged { MatchOption result
            ((view : RulesView) (j : ℕ) → IsNextRule view self.now j (left, right) → is_rule_flawed view j ≡ true)
            (λ entry. (view : RulesView) (j : ℕ) → IsNextRule view self.now j (left, right)
            → (is_rule_flawed view j ≡ false) × IsEntryOf view (length view.alphabet + j) entry) }
        ensures shallow { IfSome result (λ entry. entry.depth ≤ symbols_of self.now) }
    {
        let (left, right) = (left as usize, right as usize);
        if left >= self.entries.len() || right >= self.entries.len() {
            return None;
        }
        let (left, right) = (self.entries.at(left), self.entries.at(right));
        let entry = join(self.entries.len() as u32, left, right);
        if self.is_far(&entry) {
            return None;
        }
        Some(PackedEntry::pack(entry, 1 + left.depth.max(right.depth)))
    }

    // Whether an entry lasts longer than a period does after its first instant, or goes too far.
    fn is_far(&self, entry: &Entry) -> bool
        ensures { result ≡ is_far self.now.height self.now.period entry.now }
    {
        let limit = self.reach_limit();
        if entry.duration > self.period - 1 || ring_of(entry.dx, entry.dy) > limit {
            return true;
        }
        match &entry.hull {
            Some(hull) => { ring_of(hull.x1, hull.y1) > limit || ring_of(hull.x2, hull.y2) > limit }
            None => false,
        }
    }

    // How far apart two cells of the grid may be in each axis.
    fn reach_limit(&self) -> u64
        ensures value { result ≡ reach_limit self.now.height }
        ensures within { result < 2 ^ MAX_HEIGHT }
    {
        (1 << self.height) - 1
    }
}

// The greater of two distances.
fn ring_of(dx: i64, dy: i64) -> u64
    ensures { result ≡ ring_of dx dy }
{
    dx.unsigned_abs().max(dy.unsigned_abs())
}
