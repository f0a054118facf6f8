ghost use Rattle.std.specs.Prelude.{◌≡◌, ℕ, ◌++◌, ◌+◌, ◌^◌, ◌<◌, ◌≤◌, None, length, OnOk};
ghost use Rattle.std.specs.List.{prefix_len};
ghost use Rattle.index_format.specs.IsOutline.{AreInOrder};
ghost use Rattle.index_format.specs.OutlineRules.{are_under, rules_bits};
ghost use Rattle.index_format.specs.LayerLists.{IsLayer, one_layer_bits};

use crate::outline::layers::{least_left, least_right};
use bit_stream::BitWriter;
use track_types::Memory;

/// Puts rules over so many terminals, by layer, then left part, then right part. There are at most 2^26 of both.
pub fn put_rules(writer: &mut BitWriter, terminals: u32, rules: &[(u32, u32)]) -> Result<(), Memory>
    requires order { AreInOrder terminals rules.now }
    requires few { terminals + length rules.now ≤ 2 ^ 26 }
    ensures { OnOk result (writer.new ≡ writer.old ++ rules_bits terminals rules.now) }
{
    let mut rest = rules;
    let mut base = 0;
    let mut top = terminals;
    while !rest.is_empty() {
        let (layer, above) = rest.split_at(layer_len(rest, top));
        put_layer(writer, base, layer)?;
        base = top;
        top += layer.len() as u32;
        rest = above;
    }
    Ok(())
}

// How many rules from the first on have both parts below `top`.
fn layer_len(rules: &[(u32, u32)], top: u32) -> usize
    ensures exact { result ≡ prefix_len (are_under top) rules.now }
    ensures within { result ≤ length rules.now }
{
    for (index, &(left, right)) in rules.iter().enumerate() {
        if left >= top || right >= top {
            return index;
        }
    }
    rules.len()
}

// Puts the rules of one layer.
fn put_layer(writer: &mut BitWriter, base: u32, layer: &[(u32, u32)]) -> Result<(), Memory>
    requires some { 0 < length layer.now }
    requires few { length layer.now ≤ 2 ^ 26 }
    requires layer { (top : ℕ) × IsLayer base top None layer.now }
    ensures { OnOk result (writer.new ≡ writer.old ++ one_layer_bits base layer.now) }
{
    writer.put_number((layer.len() - 1) as u64)?;
    let mut before = None;
    for &(left, right) in layer {
        writer.put_number(u64::from(left) - least_left(before))?;
        writer.put_number(u64::from(right) - least_right(base, before, left.into()))?;
        before = Some((left, right));
    }
    Ok(())
}
