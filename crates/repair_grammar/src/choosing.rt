ghost use Rattle.std.specs.Prelude.{◌≡◌, [], IfOk, OnOk, MatchOption};
ghost use Rattle.repair_grammar.specs.Counts.{AllBelowTwo, IsFirst};
ghost use Rattle.repair_grammar.specs.Kept.{Covers, CoversBut, keys_in};
ghost use Rattle.repair_grammar.specs.Pairs.{count_of};

use crate::key::Key;
use crate::keys::Keys;
use crate::pairs::Pairs;
use track_types::Memory;

/// Gives each fresh pair that counts two its key.
pub fn settle(pairs: &mut Pairs, keys: &mut Keys) -> Result<(), Memory>
    requires keys { CoversBut pairs.old.fresh.items (count_of pairs.old) (keys_in keys.old) }
    ensures table { pairs.new.table ≡ pairs.old.table }
    ensures keys { OnOk result (Covers (count_of pairs.old) (keys_in keys.new)) }
{
    while let Some(pair) = pairs.fresh.pop() {
        let count = pairs.count(pair);
        keys.add(Key { count, pair })?;
    }
    Ok(())
}

/// The pair that a round takes, if one counts two. A key that says more than its pair still counts
/// makes way for one that says its count.
pub fn first_pair(pairs: &Pairs, keys: &mut Keys) -> Result<Option<(u32, u32)>, Memory>
    requires keys { Covers (count_of pairs.now) (keys_in keys.old) }
    ensures first { IfOk result (λ pair. MatchOption pair (AllBelowTwo (count_of pairs.now))
        (IsFirst (count_of pairs.now))) }
    ensures keys { OnOk result (Covers (count_of pairs.now) (keys_in keys.new)) }
{
    while let Some(key) = keys.take() {
        let pair = key.pair;
        let count = pairs.count(pair);
        if count > key.count {
            continue;
        }
        keys.add(Key { count, pair })?;
        if count == key.count && count > 1 {
            return Ok(Some(pair));
        }
    }
    Ok(None)
}
