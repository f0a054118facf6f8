ghost use Rattle.std.specs.Prelude.{◌≡◌, ◌+◌, ◌<◌, ◌≤◌, length};
ghost use Rattle.step_count.specs.Reads.{ReadsWithin};
ghost use Rattle.rule_store.specs.Entry.{IsEntryWithin};
ghost use Rattle.rule_store.specs.Needs.{log_needs};
ghost use Rattle.snapshots.specs.Ahead.{stored_entry, AreStored};

use rule_store::{Entry, RuleStore};
use std::marker::Model;
use step_count::{Reads, Steps};

// How many entries are read before the first of them is used.
const AHEAD: usize = 16;

/// The entries of stored symbols, one after another.
///
/// Up to sixteen are read before they are asked for: the table of entries is larger than a cache, and loads that do
/// not wait for one another take the time of one.
///
/// Contracts see the rules, the place of the next symbol, the place behind those that were read, and the end.
#[derive(Drop)]
pub struct Ahead<'a> {
    rules: &'a RuleStore,
    entries: [Entry; AHEAD],
    // The place of the symbol that the first of them is for.
    first: u32,
    place: u32,
    read: u32,
    end: u32,
}

impl<'a> Model for Ahead<'a> {
    ghost use Rattle.snapshots.specs.Ahead.{AheadView, ahead_view, IsAhead};

    ghost Value = { AheadView };

    ghost view = { λ a. ahead_view a.rules.now a.place a.read a.end };

    ghost invariant = { λ a. IsAhead a.rules.now a.entries a.first a.place a.read a.end };
}

impl<'a> Ahead<'a> {
    /// The entries of so many symbols from a place on. None is read yet.
    pub fn new(rules: &'a RuleStore, from: u32, len: u32) -> Ahead<'a>
        requires { from + len ≤ length rules.now.symbols }
        ensures rules { result.rules ≡ rules.now }
        ensures place { result.place ≡ from }
        ensures read { result.read ≡ from }
        ensures end { result.end ≡ from + len }
    {
        let _ = rules.sizes(); // says that there are few symbols
        let none = Entry {
            symbol: 0,
            duration: 0,
            dx: 0,
            dy: 0,
            hull: None,
        };
        Ahead {
            rules,
            entries: [none; AHEAD],
            first: from,
            place: from,
            read: from,
            end: from + len,
        }
    }

    /// The entry of the next symbol, which comes before the end.
    pub fn next<L: Reads>(&mut self, steps: &mut Steps<L>) -> Entry
        requires within { self.old.place < self.old.end }
        requires may { ReadsWithin (log_needs (self.old.read, self.old.end)) L.may }
        ensures value { result ≡ stored_entry self.old.rules self.old.place }
        ensures reach { IsEntryWithin result }
        ensures rules { self.new.rules ≡ self.old.rules }
        ensures place { self.new.place ≡ self.old.place + 1 }
        ensures end { self.new.end ≡ self.old.end }
        ensures within { self.new.read ≤ self.new.end }
        ensures later { self.old.read ≤ self.new.read }
        ensures cost { steps.new + self.old.read ≡ steps.old + self.new.read }
    {
        self.read_on(steps);
        let entry = self.entries[(self.place - self.first) as usize];
        self.place += 1;
        entry
    }

    // Reads the next entries, if all that were read are used.
    fn read_on<L: Reads>(&mut self, steps: &mut Steps<L>)
        requires within { self.old.place < self.old.end }
        requires may { ReadsWithin (log_needs (self.old.read, self.old.end)) L.may }
        ensures rules { self.new.rules ≡ self.old.rules }
        ensures place { self.new.place ≡ self.old.place }
        ensures some { self.new.place < self.new.read }
        ensures end { self.new.end ≡ self.old.end }
        ensures within { self.new.read ≤ self.new.end }
        ensures later { self.old.read ≤ self.new.read }
        ensures cost { steps.new + self.old.read ≡ steps.old + self.new.read }
    {
        if self.place < self.read {
            return;
        }
        let count = (self.end - self.read).min(AHEAD as u32);
        read_entries(self.rules, self.read, count, &mut self.entries, steps);
        self.first = self.read;
        self.read += count;
    }
}

// Reads the entries of so many stored symbols from a place on into the first places of a table.
fn read_entries<L: Reads>(
    rules: &RuleStore,
    from: u32,
    count: u32,
    entries: &mut [Entry; AHEAD],
    steps: &mut Steps<L>,
)
    requires within { from + count ≤ length rules.now.symbols }
    requires few { count ≤ 16 }
    requires may { ReadsWithin (log_needs (from, from + count)) L.may }
    ensures stored { AreStored rules.now entries.new from count }
    ensures cost { steps.new ≡ steps.old + count }
{
    let log = rules.block(from, count);
    for i in 0..count {
        entries[i as usize] = log.entry(i, steps);
    }
}
