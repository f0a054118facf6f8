ghost use Rattle.std.specs.Prelude.{◌≡◌, ◌+◌, ◌^◌, ◌<◌, ◌≤◌, length, slice_index, IsTrue};
ghost use Rattle.step_count.specs.Reads.{ofSymbol};

use crate::entry::Entry;
use crate::store::RuleStore;
use step_count::{Reads, Steps};

/// The log of a block: a range of a store's symbols, with the store's rules.
#[derive(Clone, Copy)]
pub struct LogView<'a> {
    rules: &'a RuleStore,
    from: u32,
    len: u32,
    ghost within: { from + len ≤ length rules.now.symbols },
    ghost room: { from + len < 2 ^ 32 },
}

impl<'a> LogView<'a> {
    ghost use Rattle.rule_store.specs.Entry.{entry_of, IsEntryWithin};
    ghost use Rattle.rule_store.specs.View.{symbols_in};
    ghost use Rattle.rule_store.specs.Log.{log_of};
    ghost use Rattle.rule_store.specs.Cost.{entry_reads};

    pub(crate) fn new(rules: &'a RuleStore, from: u32, len: u32) -> LogView<'a>
        requires within { from + len ≤ length rules.now.symbols }
        requires room { from + len < 2 ^ 32 }
        ensures rules { result.rules.now ≡ rules.now }
        ensures from { result.from ≡ from }
        ensures len { result.len ≡ len }
    {
        LogView { rules, from, len }
    }

    /// How many symbols the log has.
    pub fn len(&self) -> u32
        ensures { result ≡ length (log_of self.now) }
    {
        self.len
    }

    /// The rules of the symbols.
    pub fn rules(&self) -> &'a RuleStore
        ensures { result.now ≡ self.now.rules.now }
    {
        self.rules
    }

    /// The entry of the log's symbol at a place below its length, by one read.
    pub fn entry<L: Reads>(&self, i: u32, steps: &mut Steps<L>) -> Entry
        requires within { i < length (log_of self.now) }
        requires may { IsTrue (L.may (ofSymbol (self.now.from + i))) }
        ensures value { result ≡ entry_of self.now.rules.now (slice_index (log_of self.now) i) }
        ensures within { slice_index (log_of self.now) i < symbols_in self.now.rules.now }
        ensures reach { IsEntryWithin result }
        ensures cost { steps.new ≡ steps.old + entry_reads }
    {
        let rules = self.rules;
        let symbol = rules.symbol_at(self.from + i, steps);
        rules.entry(symbol)
    }
}
