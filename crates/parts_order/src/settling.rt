ghost use Rattle.std.specs.Prelude.{◌≡◌, IfOk, length};
ghost use Rattle.rule_order.specs.Order.{IsSettled};
ghost use Rattle.snapshots.specs.Parts.{chart_in};
ghost use Rattle.snapshots.specs.SoundParts.{IsValid};
ghost use Rattle.parts_order.specs.SettledParts.{settled_parts};

use rule_order::settle;
use std::alloc::Global;
use track_types::{Memory, Parts};

/// The parts with their rules in order, and with the new number of each symbol in the logs.
///
/// The order is that of `settle`: by layer, then by left part, then by right part. Equal rules stay
/// as they stood. All else is left as it is, and so are parts that are in order already.
///
/// The time is linear in rules, values and entries, but for sorting the rules. It takes 28 bytes of
/// memory for each rule and 4 for each value, and keeps 8 of them for each rule.
pub fn settled(alloc: Global, parts: Parts) -> Result<Parts, Memory>
    requires { IsValid parts }
    ensures ok { IfOk result (λ settled. settled ≡ settled_parts parts) }
    ensures valid { IfOk result IsValid }
    ensures chart { IfOk result (λ settled. chart_in settled ≡ chart_in parts) }
    ensures order { IfOk result (λ settled. IsSettled (length settled.alphabet) settled.rules) }
{
    let alphabet = parts.alphabet.as_slice().len() as u32;
    let order = settle(alloc, alphabet, parts.rules, parts.symbols)?;
    Ok(Parts {
        rules: order.rules,
        symbols: order.symbols,
        ..parts
    })
}
