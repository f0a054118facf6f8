ghost use Rattle.std.specs.Prelude.{◌≡◌, ℕ, ◌+◌, ◌<◌, ◌≤◌, [], ◌∷◌, length, nat_le};
ghost use Rattle.std.specs.Prelude.{IfNone, IfOk, IfSome, IsTrue};
ghost use Rattle.step_count.specs.Reads.{ofRule, ofSymbol};
ghost use Rattle.rule_store.specs.Flaws.{AreRules, left_of, right_of};
ghost use Rattle.rule_store.specs.Log.{log_of};
ghost use Rattle.rule_store.specs.Cost.{parts_reads};
ghost use Rattle.rule_store.specs.Needs.{is_among, places_of};
ghost use Rattle.log_cursor.specs.Pending.{IsRoomy, IsTaken};
ghost use Rattle.rule_store.specs.View.{symbols_in};

use rule_store::{Entry, LogView, RuleStore};
use smallvec::SmallVec;
use std::alloc::Global;
use std::marker::Model;
use step_count::{Reads, Steps};
use track_types::Memory;

// How many parts of opened rules are kept in the value itself.
const INLINE: usize = 24;

/// The symbols of a log that are still to be walked over. One that is taken off may be opened: then
/// its two parts come next.
///
/// The parts that wait are kept on a stack, which has room for those of the deepest symbol from the
/// start. Contracts see the rules, where the symbols of the log stand, the symbols, the next one
/// first, how many of them are still to be read, and how many parts wait.
#[derive(Drop)]
pub struct Pending<'a> {
    view: LogView<'a>,
    next: u32,
    stack: SmallVec<u32, INLINE>,
}

impl<'a> Model for Pending<'a> {
    ghost use Rattle.log_cursor.specs.Pending.{PendingView, IsPending, pending_of};

    ghost Value = { PendingView };

    ghost view = { λ p. pending_of p.view p.next p.stack.items };

    ghost invariant = { λ p. IsPending p.view p.next p.stack.items p.stack.capacity };
}

impl<'a> Pending<'a> {
    /// No symbols of these rules, and room for the parts of the deepest.
    pub fn new(alloc: Global, rules: &'a RuleStore) -> Result<Pending<'a>, Memory>
        ensures rules { IfOk result (λ pending. pending.rules ≡ rules.now) }
        ensures places { IfOk result (λ pending. pending.places ≡ (0, 0)) }
        ensures symbols { IfOk result (λ pending. pending.symbols ≡ []) }
        ensures unread { IfOk result (λ pending. pending.unread ≡ 0) }
    {
        let mut stack = SmallVec::new(alloc);
        stack.reserve(rules.depth() as usize + 1)?;
        let (_, _, _) = rules.sizes(); // says that the rules are sound
        Ok(Pending {
            view: rules.block(0, 0),
            next: 0,
            stack,
        })
    }

    /// Takes the symbols of a log of the same rules in place of those that were left.
    pub fn begin(&mut self, view: LogView<'a>)
        requires { view.rules.now ≡ self.old.rules }
        ensures rules { self.new.rules ≡ self.old.rules }
        ensures places { self.new.places ≡ places_of view.entry }
        ensures symbols { self.new.symbols ≡ log_of view.entry }
        ensures unread { self.new.unread ≡ length (log_of view.entry) }
        ensures sound { AreRules self.new.rules }
    {
        self.view = view;
        self.next = 0;
        self.stack.clear();
    }

    /// Drops all symbols that were left.
    pub fn end(&mut self)
        ensures rules { self.new.rules ≡ self.old.rules }
        ensures places { self.new.places ≡ self.old.places }
        ensures symbols { self.new.symbols ≡ [] }
        ensures unread { self.new.unread ≡ 0 }
    {
        self.next = self.view.len();
        self.stack.clear();
    }

    /// Takes the next symbol off and answers its entry. A symbol of the log is read.
    pub fn next<L: Reads>(&mut self, steps: &mut Steps<L>) -> Option<Entry>
        requires may { (place : ℕ) → IsTrue (is_among self.old.places place)
            → IsTrue (L.may (ofSymbol place)) }
        ensures rules { self.new.rules ≡ self.old.rules }
        ensures places { self.new.places ≡ self.old.places }
        ensures none { IfNone result (self.old.symbols ≡ []) }
        ensures end { IfNone result (self.new.symbols ≡ []) }
        ensures found { IfSome result (λ entry. IsTaken self.old self.new entry) }
        ensures sound { AreRules self.new.rules }
        ensures cost { steps.new + self.new.unread ≤ steps.old + self.old.unread }
    {
        let rules = self.view.rules();
        if let Some(symbol) = self.stack.pop() {
            return Some(rules.entry(symbol));
        }
        if self.next >= self.view.len() {
            return None;
        }
        let entry = self.view.entry(self.next, steps);
        self.next += 1;
        Some(entry)
    }

    /// Whether a symbol is a rule.
    pub fn is_rule(&self, symbol: u32) -> bool
        requires { symbol < symbols_in self.now.rules }
        ensures { result ≡ nat_le (length self.now.rules.alphabet) symbol }
    {
        self.view.rules().is_rule(symbol)
    }

    /// Puts the two parts of the rule that was taken off last before all others, by one read.
    pub fn open<L: Reads>(&mut self, rule: u32, steps: &mut Steps<L>)
        requires rule { length self.old.rules.alphabet ≤ rule }
        requires roomy { IsRoomy self.old.rules self.old.depth rule }
        requires may { IsTrue (L.may (ofRule rule)) }
        ensures rules { self.new.rules ≡ self.old.rules }
        ensures places { self.new.places ≡ self.old.places }
        ensures symbols { self.new.symbols
            ≡ left_of self.old.rules rule ∷ right_of self.old.rules rule ∷ self.old.symbols }
        ensures unread { self.new.unread ≡ self.old.unread }
        ensures cost { steps.new ≡ steps.old + parts_reads }
    {
        let (left, right) = self.view.rules().parts(rule, steps);
        self.stack.push_reserved(right.symbol);
        self.stack.push_reserved(left.symbol);
    }
}
