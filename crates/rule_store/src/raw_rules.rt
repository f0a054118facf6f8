ghost use Rattle.std.specs.Prelude.{◌≡◌, ◌<◌, ◌≤◌, None, length, IfOk};
ghost use Rattle.track_types.specs.declared.limit.TheConstants.{MAX_HEIGHT, MAX_PERIOD, MAX_SYMBOLS};

use crate::entry_table::EntryTable;
use track_types::Memory;

/// Lists that are to be judged as the rules of an index, whose numbers are in range.
#[derive(Clone, Copy)]
pub(crate) struct RawRules<'a> {
    pub(crate) alphabet: &'a [u64],
    pub(crate) rules: &'a [(u32, u32)],
    pub(crate) symbols: &'a [u32],
    pub(crate) height: u32,
    pub(crate) period: u32,
    ghost alphabet_fits: { length alphabet.now ≤ MAX_SYMBOLS },
    ghost rules_fit: { length rules.now ≤ MAX_SYMBOLS },
    ghost symbols_fit: { length symbols.now ≤ MAX_SYMBOLS },
    ghost height_fits: { height ≤ MAX_HEIGHT },
    ghost some: { 0 < period },
    ghost period_fits: { period ≤ MAX_PERIOD },
}

impl RawRules<'_> {
    ghost use Rattle.rule_store.specs.Flaws.{code_flaw, rule_flaw, symbol_flaw};
    ghost use Rattle.rule_store.specs.View.{symbols_in};
    ghost use Rattle.rule_store.specs.Stored.{rules_view};
    ghost use Rattle.rule_store.specs.Table.{IsTableOf, symbols_of};

    /// Adds all values to a table of no symbols, or answers the place of the first that is refused: a
    /// movement above the limit.
    pub(crate) fn add_values(&self, table: &mut EntryTable) -> Result<Option<u32>, Memory>
        requires none { symbols_of table.old ≡ 0 }
        requires table { IsTableOf (rules_view self.now) table.old }
        ensures flaw { IfOk result (λ flaw. flaw ≡ code_flaw self.now.height self.now.alphabet.now) }
        ensures many { IfOk result (λ flaw. flaw ≡ None
            → symbols_of table.new ≡ length self.now.alphabet.now) }
        ensures ok { IfOk result (λ flaw. flaw ≡ None → IsTableOf (rules_view self.now) table.new) }
    {
        for (index, value) in self.alphabet.iter().enumerate() {
            if !table.push_value(*value)? {
                return Ok(Some(index as u32));
            }
        }
        Ok(None)
    }

    /// Adds all rules to a table of the terminals, or answers the first that is refused: one that does
    /// not stay within its limits.
    pub(crate) fn add_rules(&self, table: &mut EntryTable) -> Result<Option<u32>, Memory>
        requires many { symbols_of table.old ≡ length self.now.alphabet.now }
        requires table { IsTableOf (rules_view self.now) table.old }
        ensures flaw { IfOk result (λ flaw. flaw ≡ rule_flaw (rules_view self.now)) }
        ensures many { IfOk result (λ flaw. flaw ≡ None
            → symbols_of table.new ≡ symbols_in (rules_view self.now)) }
        ensures ok { IfOk result (λ flaw. flaw ≡ None → IsTableOf (rules_view self.now) table.new) }
    {
        for rule in 0..self.rules.len() {
            let (left, right) = self.rules[rule];
            if !table.push_rule(left, right)? {
                return Ok(Some(rule as u32));
            }
        }
        Ok(None)
    }

    /// The place of the first stored symbol that is neither a terminal nor a rule.
    pub(crate) fn find_unknown(&self) -> Option<u32>
        ensures { result ≡ symbol_flaw (symbols_in (rules_view self.now)) self.now.symbols.now }
    {
        let known = self.alphabet.len() + self.rules.len();
        for (index, symbol) in self.symbols.iter().enumerate() {
            if *symbol as usize >= known {
                return Some(index as u32);
            }
        }
        None
    }
}
