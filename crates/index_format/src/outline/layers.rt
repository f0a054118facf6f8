ghost use Rattle.std.specs.Prelude.{◌≡◌, ℕ, ◌++◌, ◌+◌, ◌^◌, ◌<◌, ◌≤◌, [], ◌∷◌, true, not, List, length, IfOk, OnOk};
ghost use Rattle.rule_store.specs.View.{RulesView};
ghost use Rattle.rule_store.specs.Table.{symbols_of};
ghost use Rattle.index_format.specs.Answers.{GivesElement};
ghost use Rattle.index_format.specs.Fields.{items_at};
ghost use Rattle.index_format.specs.OutlineRules.{is_flawed_under, layer_floor, layer_rule_in, least_left, least_right, rule_before, rules_in};
ghost use Rattle.index_format.specs.RuleReading.{IsRuleTable};

use crate::outline::told::told;
use crate::place::Place;
use bit_stream::BitReader;
use rule_store::EntryTable;
use std::alloc::Global;
use track_types::{FormatFault, Kind, Memory, PairList, Section};

/// So many rules by layers, over so many values. The table has the entries of these values. Each rule that is read joins the table,
/// and memory is taken as they are read.
///
/// It refuses a number that is missing or too large. A layer of more rules than are left to read is refused as `Field`. A rule is
/// refused as `Rule` if a part is no symbol of the layers below, or if the table refuses it.
pub fn rules_in(
    alloc: Global,
    table: &mut EntryTable,
    values: u32,
    count: u32,
    reader: &mut BitReader<'_>,
) -> Result<PairList, FormatFault>
    requires many { symbols_of table.old ≡ values }
    requires room { values + count ≤ 2 ^ 26 }
    ensures exact { (view : RulesView) → IsRuleTable view [] table.old
        → GivesElement (λ list. list) result reader.new (rules_in view count reader.old) }
    ensures table { IfOk result (λ rules. (view : RulesView) → IsRuleTable view [] table.old
        → IsRuleTable view rules table.new) }
{
    let place = Place::of(Section::Layers, 0);
    let count = count as usize;
    let mut rules = Vec::new(alloc);
    let mut base = 0;
    let mut layer = 0;
    while rules.len() < count {
        let more = told(reader, place, layer)?;
        if more >= (count - rules.len()) as u64 {
            return Err(FormatFault::Flaw(place.flaw(layer, Kind::Field)));
        }
        let top = values + rules.len() as u32;
        layer_in(&mut rules, table, base, top, more as usize + 1, reader)?;
        base = top;
        layer += 1;
    }
    Ok(PairList::new(rules))
}

// So many rules of one layer, after those of the layers below it.
fn layer_in(
    rules: &mut Vec<(u32, u32)>,
    table: &mut EntryTable,
    base: u32,
    top: u32,
    count: usize,
    reader: &mut BitReader<'_>,
) -> Result<(), FormatFault>
    requires room { symbols_of table.old + count ≤ 2 ^ 26 }
    requires few { length rules.old.items ≤ 2 ^ 26 }
    ensures exact { (view : RulesView) → IsRuleTable view rules.old.items table.old
        → GivesElement (λ done. rules.new.items) result reader.new
        (items_at (layer_rule_in view base top (length rules.old.items)) count rules.old.items reader.old) }
    ensures table { OnOk result ((view : RulesView) → IsRuleTable view rules.old.items table.old
        → IsRuleTable view rules.new.items table.new) }
    ensures many { OnOk result (length rules.new.items ≡ length rules.old.items + count) }
    ensures symbols { OnOk result (symbols_of table.new ≡ symbols_of table.old + count) }
{
    let mut before = None;
    for _ in 0..count {
        let rule = rule_in(table, base, top, before, rules.len(), reader)?;
        rules.push(rule)?;
        before = Some(rule);
    }
    Ok(())
}

// A rule of a layer, after the one before it in the layer, if there is one.
fn rule_in(
    table: &mut EntryTable,
    base: u32,
    top: u32,
    before: Option<(u32, u32)>,
    index: usize,
    reader: &mut BitReader<'_>,
) -> Result<(u32, u32), FormatFault>
    requires room { symbols_of table.old < 2 ^ 26 }
    ensures exact { (view : RulesView) (start : ℕ) (seen : List (ℕ × ℕ)) → IsRuleTable view seen table.old
        → length seen ≡ index → rule_before start seen ≡ before
        → GivesElement (λ rule. rule) result reader.new (layer_rule_in view base top start seen reader.old) }
    ensures table { IfOk result (λ rule. (view : RulesView) (seen : List (ℕ × ℕ)) → IsRuleTable view seen table.old
        → IsRuleTable view (seen ++ rule ∷ []) table.new) }
    ensures more { IfOk result (λ rule. symbols_of table.new ≡ symbols_of table.old + 1) }
{
    let place = Place::of(Section::Rules, 0);
    let more = told(reader, place, index)?;
    let right = told(reader, place, index)?;
    let left = least_left(before) + more;
    let right = least_right(base, before, left) + right;
    if !take_rule(table, top, left, right)? {
        return Err(FormatFault::Flaw(place.flaw(index, Kind::Rule)));
    }
    Ok((left as u32, right as u32))
}

// Adds a rule of a layer to the table, and answers whether it was taken. It is taken if its parts are symbols of the
// layers below, and the table does not refuse it.
fn take_rule(table: &mut EntryTable, top: u32, left: u64, right: u64) -> Result<bool, Memory>
    requires room { symbols_of table.old < 2 ^ 26 }
    ensures judged { IfOk result (λ taken. (view : RulesView) (seen : List (ℕ × ℕ)) → IsRuleTable view seen table.old
        → taken ≡ not (is_flawed_under view top seen (left, right))) }
    ensures under { IfOk result (λ taken. taken ≡ true → (left < top) × (right < top)) }
    ensures table { IfOk result (λ taken. taken ≡ true → (view : RulesView) (seen : List (ℕ × ℕ))
        → IsRuleTable view seen table.old → IsRuleTable view (seen ++ (left, right) ∷ []) table.new) }
    ensures more { IfOk result (λ taken. taken ≡ true → symbols_of table.new ≡ symbols_of table.old + 1) }
{
    if left >= u64::from(top) || right >= u64::from(top) {
        return Ok(false);
    }
    let taken = table.push_rule(left as u32, right as u32)?;
    Ok(taken)
}

/// The least left part that a rule may have after the one before it.
pub fn least_left(before: Option<(u32, u32)>) -> u64
    ensures exact { result ≡ least_left before }
    ensures within { result < 2 ^ 32 }
{
    match before {
        Some((left, _)) => u64::from(left),
        None => 0,
    }
}

/// The least right part that it may have.
pub fn least_right(base: u32, before: Option<(u32, u32)>, left: u64) -> u64
    ensures exact { result ≡ least_right base before left }
    ensures within { result < 2 ^ 32 }
{
    match before {
        Some((same, right)) if u64::from(same) == left => u64::from(right),
        _ => layer_floor(base, left),
    }
}

// The least right part under which a rule with this left part is in its layer.
fn layer_floor(base: u32, left: u64) -> u64
    ensures exact { result ≡ layer_floor base left }
    ensures within { result < 2 ^ 32 }
{
    if left < u64::from(base) {
        u64::from(base)
    } else {
        0
    }
}
