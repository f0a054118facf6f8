ghost use Rattle.std.specs.Prelude.{◌≡◌, ◌+◌, ◌<◌, ◌≤◌, ◌^◌, None, Some, length, max, fold, slice_get};
ghost use Rattle.std.specs.Prelude.{nat_le, IfErr, IfOk, IsTrue, OnOk};
ghost use Rattle.step_count.specs.Reads.{ofRule, ofSymbol};
ghost use Rattle.rule_store.specs.View.{rules_with, symbols_in, AreShapedRules};
ghost use Rattle.rule_store.specs.Expansion.{depth_in, depth_of};
ghost use Rattle.rule_store.specs.Entry.{entry_of, IsEntryWithin};
ghost use Rattle.rule_store.specs.Flaws.{rules_flaw, AreRules, IsRuleFaultFor, left_of, right_of};
ghost use Rattle.rule_store.specs.Stored.{entries_of, IsEntryOf, IsReadRule};
ghost use Rattle.rule_store.specs.Table.{IsWholeTable};
ghost use Rattle.rule_store.specs.Cost.{parts_reads};

use crate::entry::Entry;
use crate::entry_table::EntryTable;
use crate::fault::RuleFault;
use crate::log_view::LogView;
use crate::packed_entries::PackedEntries;
use crate::packed_entry::PackedEntry;
use crate::raw_rules::RawRules;
use std::alloc::Global;
use std::marker::Model;
use step_count::{CountedList, Reads, Steps};
use track_types::{List32, List64, PairList};

/// A grammar over movements, with an entry for each of its symbols, and the symbols of all logs.
///
/// A symbol below the size of the alphabet is a terminal, and the others are the rules in order.
/// Contracts see the lists that the store was checked from, with the height of the grid and the
/// length of a period.
#[derive(Drop)]
pub struct RuleStore {
    alphabet: CountedList<u64>,
    rules: CountedList<(u32, u32)>,
    symbols: CountedList<u32>,
    entries: PackedEntries,
    depth: u32,
    height: u32,
    period: u32,
}

impl Model for RuleStore {
    ghost use Rattle.rule_store.specs.View.{RulesView, rules_with};
    ghost use Rattle.rule_store.specs.Stored.{entries_of, AreStoredRules};

    ghost Value = { RulesView };

    ghost view = { λ s. rules_with s.alphabet s.rules s.symbols s.height s.period };

    ghost invariant = { λ s. AreStoredRules (rules_with s.alphabet s.rules s.symbols s.height s.period)
        (entries_of s.entries) s.depth };
}

impl RuleStore {
    /// Takes lists as the rules of an index, in time linear in their lengths.
    ///
    /// It judges in this order:
    /// - no value of the alphabet is a movement whose ring is above `2^height - 1`;
    /// - of each rule the parts are below its own symbol, the duration is at most `period - 1`, and
    ///   the displacement and the box stay within `2^height - 1` of the start;
    /// - each stored symbol is a terminal or a rule.
    ///
    /// The fault is the first place that fails. Each rule is judged before a later one sums it, so
    /// that no sum leaves its type.
    ///
    /// The alphabet ascends; it, the rules and the symbols have at most `MAX_SYMBOLS` members each;
    /// `height` is 1 to `MAX_HEIGHT` and `period` 1 to `MAX_PERIOD`. Memory is taken for the entries,
    /// 16 bytes for each symbol of the grammar where `height` is at most 15 and `period` at most 65,535,
    /// else 32.
    pub fn check(
        alloc: Global,
        alphabet: List64,
        rules: PairList,
        symbols: List32,
        height: u32,
        period: u32,
    ) -> Result<RuleStore, RuleFault>
        requires { AreShapedRules (rules_with alphabet rules symbols height period) }
        ensures ok { IfOk result (λ store.
            store ≡ rules_with alphabet rules symbols height period) }
        ensures exact { OnOk result
            (rules_flaw (rules_with alphabet rules symbols height period) ≡ None) }
        ensures flaw { IfErr result (λ fault.
            IsRuleFaultFor (rules_flaw (rules_with alphabet rules symbols height period)) fault) }
    {
        let raw = RawRules {
            alphabet: alphabet.as_slice(),
            rules: rules.as_slice(),
            symbols: symbols.as_slice(),
            height,
            period,
        };
        let mut table = EntryTable::with_room(
            alloc,
            height,
            period,
            raw.alphabet.len() + raw.rules.len(),
        )?;
        if let Some(index) = raw.add_values(&mut table)? {
            return Err(RuleFault::Code { index });
        }
        if let Some(rule) = raw.add_rules(&mut table)? {
            return Err(RuleFault::Rule { rule });
        }
        if let Some(index) = raw.find_unknown() {
            return Err(RuleFault::Symbol { index });
        }
        let entries = table.into_entries();
        let depth = greatest_depth(&entries);
        Ok(RuleStore {
            alphabet: CountedList::new(alphabet.into_vec()),
            rules: CountedList::new(rules.into_vec()),
            symbols: CountedList::new(symbols.into_vec()),
            entries,
            depth,
            height,
            period,
        })
    }

    /// The rules of an index that are known to have no flaw, by a table of the entries of all their symbols. The table says the
    /// height of the grid and the length of a period.
    ///
    /// It judges nothing again, so it does not go over the stored symbols. It takes no memory.
    pub fn of_table(
        alphabet: List64,
        rules: PairList,
        symbols: List32,
        table: EntryTable,
    ) -> RuleStore
        requires rules { AreRules (rules_with alphabet rules symbols table.height table.period) }
        requires table { IsWholeTable (rules_with alphabet rules symbols table.height table.period) table }
        ensures { result ≡ rules_with alphabet rules symbols table.height table.period }
    {
        let (height, period) = (table.height, table.period);
        let entries = table.into_entries();
        let depth = greatest_depth(&entries);
        RuleStore {
            alphabet: CountedList::new(alphabet.into_vec()),
            rules: CountedList::new(rules.into_vec()),
            symbols: CountedList::new(symbols.into_vec()),
            entries,
            depth,
            height,
            period,
        }
    }

    /// The summary of a symbol, which is below the number of terminals and rules. It reads nothing
    /// that is counted.
    pub fn entry(&self, symbol: u32) -> Entry
        requires { symbol < symbols_in self.now }
        ensures value { result ≡ entry_of self.now symbol }
        ensures within { IsEntryWithin result }
        ensures rules { AreRules self.now }
    {
        self.packed(symbol).unpack(symbol)
    }

    /// Whether a symbol, which is in range, is a rule. The others are terminals.
    pub fn is_rule(&self, symbol: u32) -> bool
        requires { symbol < symbols_in self.now }
        ensures { result ≡ nat_le (length self.now.alphabet) symbol }
    {
        symbol as usize >= self.alphabet.len()
    }

    /// The depth of a symbol, which is in range: 0 for a terminal, else one more than the greater
    /// depth of its parts.
    pub fn depth_of(&self, symbol: u32) -> u32
        requires { symbol < symbols_in self.now }
        ensures { result ≡ depth_of self.now symbol }
    {
        self.packed(symbol).depth
    }

    /// The depth of the deepest symbol, which is the height of the grammar; 0 without rules.
    pub fn depth(&self) -> u32
        ensures value { result ≡ depth_in self.now }
        ensures within { result ≤ 2 ^ 26 }
    {
        self.depth
    }

    /// How many terminals, rules and stored symbols there are.
    pub fn sizes(&self) -> (u32, u32, u32)
        ensures alphabet { result.0 ≡ length self.now.alphabet }
        ensures rules { result.1 ≡ length self.now.rules }
        ensures symbols { result.2 ≡ length self.now.symbols }
        ensures sound { AreRules self.now }
    {
        (
            self.alphabet.len() as u32,
            self.rules.len() as u32,
            self.symbols.len() as u32,
        )
    }

    /// The entries of the two parts of a rule, left and right, by one read. The symbol is a rule's.
    pub fn parts<L: Reads>(&self, symbol: u32, steps: &mut Steps<L>) -> (Entry, Entry)
        requires rule { length self.now.alphabet ≤ symbol }
        requires within { symbol < symbols_in self.now }
        requires may { IsTrue (L.may (ofRule symbol)) }
        ensures left { result.0 ≡ entry_of self.now (left_of self.now symbol) }
        ensures right { result.1 ≡ entry_of self.now (right_of self.now symbol) }
        ensures left_below { left_of self.now symbol < symbol }
        ensures right_below { right_of self.now symbol < symbol }
        ensures cost { steps.new ≡ steps.old + parts_reads }
    {
        let (left, right) = self.read_rule(symbol, steps);
        (self.entry(left), self.entry(right))
    }

    /// The log of a block: so many stored symbols from a place on, which are among them.
    pub fn block(&self, from: u32, len: u32) -> LogView<'_>
        requires { from + len ≤ length self.now.symbols }
        ensures rules { result.rules.now ≡ self.now }
        ensures from { result.from ≡ from }
        ensures len { result.len ≡ len }
    {
        let _ = &self.symbols; // opens the invariant, which bounds their number
        LogView::new(self, from, len)
    }

    /// Gives back the alphabet, the rules and the stored symbols that the store was checked from, and
    /// the store is gone. It takes no memory.
    pub fn into_lists(self) -> (List64, PairList, List32)
        ensures alphabet { result.0 ≡ self.alphabet }
        ensures rules { result.1 ≡ self.rules }
        ensures symbols { result.2 ≡ self.symbols }
    {
        let alphabet = List64::new(self.alphabet.into_vec());
        let rules = PairList::new(self.rules.into_vec());
        let symbols = List32::new(self.symbols.into_vec());
        (alphabet, rules, symbols)
    }

    // The stored symbol at a place, by one read.
    pub(crate) fn symbol_at<L: Reads>(&self, place: u32, steps: &mut Steps<L>) -> u32
        requires within { place < length self.now.symbols }
        requires may { IsTrue (L.may (ofSymbol place)) }
        ensures value { slice_get self.now.symbols place ≡ Some result }
        ensures within { result < symbols_in self.now }
        ensures cost { steps.new ≡ steps.old + 1 }
    {
        self.symbols.at(place as usize, steps)
    }

    // The two parts of a rule, by one read.
    fn read_rule<L: Reads>(&self, symbol: u32, steps: &mut Steps<L>) -> (u32, u32)
        requires rule { length self.now.alphabet ≤ symbol }
        requires within { symbol < symbols_in self.now }
        requires may { IsTrue (L.may (ofRule symbol)) }
        ensures parts { IsReadRule self.now symbol result }
        ensures cost { steps.new ≡ steps.old + 1 }
    {
        let rule = symbol as usize - self.alphabet.len();
        self.rules.at(rule, steps)
    }

    // What is kept of a symbol.
    fn packed(&self, symbol: u32) -> PackedEntry
        requires { symbol < symbols_in self.now }
        ensures entry { IsEntryOf self.now symbol result }
        ensures rules { AreRules self.now }
    {
        self.entries.at(symbol as usize)
    }
}

// The depth of the deepest symbol.
fn greatest_depth(entries: &PackedEntries) -> u32
    ensures value { result ≡ fold (λ deepest entry. max deepest entry.depth) 0 (entries_of entries.now) }
    ensures within { result ≤ 2 ^ 26 }
{
    let mut depth = 0;
    for place in 0..entries.len() {
        depth = depth.max(entries.at(place).depth);
    }
    depth
}
