ghost use Rattle.std.specs.Prelude.{◌≡◌, ◌+◌, ◌^◌, ◌<◌, ◌≤◌, None, length, IfOk, OnOk};
ghost use Rattle.track_types.specs.declared.limit.TheConstants.{MAX_HEIGHT, MAX_PERIOD};
ghost use Rattle.rule_store.specs.Flaws.{code_flaw};
ghost use Rattle.rule_store.specs.View.{RulesView};
ghost use Rattle.rule_store.specs.Table.{IsTableOf, symbols_of};
ghost use Rattle.index_format.specs.RuleReading.{AreNextRules};

use rule_store::EntryTable;
use std::alloc::Global;
use track_types::Memory;

/// The table of these values. There are at most 2^26, and none leads out of a grid of this height. `height` is at most `MAX_HEIGHT`,
/// and `period` 1 to `MAX_PERIOD`.
pub fn values_table(
    alloc: Global,
    height: u32,
    period: u32,
    values: &[u64],
) -> Result<EntryTable, Memory>
    requires height_fits { height ≤ MAX_HEIGHT }
    requires some { 0 < period }
    requires period_fits { period ≤ MAX_PERIOD }
    requires few { length values.now ≤ 2 ^ 26 }
    requires near { code_flaw height values.now ≡ None }
    ensures many { IfOk result (λ table. symbols_of table ≡ length values.now) }
    ensures entries { IfOk result (λ table. (view : RulesView) → view.alphabet ≡ values.now → height ≡ view.height
        → period ≡ view.period → IsTableOf view table) }
{
    let mut table = EntryTable::new(alloc, height, period);
    for &value in values {
        // It is taken, since it does not lead out of the grid.
        table.push_value(value)?;
    }
    Ok(table)
}

/// Adds rules without a flaw to the table of their values. There are at most 2^26 values and rules together.
pub fn push_rules(table: &mut EntryTable, rules: &[(u32, u32)]) -> Result<(), Memory>
    requires few { symbols_of table.old + length rules.now ≤ 2 ^ 26 }
    requires view { (view : RulesView) × AreNextRules view table.old rules.now }
    ensures many { OnOk result (symbols_of table.new ≡ symbols_of table.old + length rules.now) }
    ensures entries { OnOk result ((view : RulesView) → AreNextRules view table.old rules.now → IsTableOf view table.new) }
{
    for &(left, right) in rules {
        // It is taken, since it is not flawed.
        table.push_rule(left, right)?;
    }
    Ok(())
}
