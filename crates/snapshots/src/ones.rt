ghost use Rattle.std.specs.Prelude.{◌≡◌, ◌+◌, ◌*◌, ◌≤◌, length, IfOk};
ghost use Rattle.packed_bits.specs.Bits.{ones_of};
ghost use Rattle.bit_rank.specs.Cost.{select_reads};
ghost use Rattle.snapshots.specs.Ones.{places_of_ones};

use bit_rank::Bits;
use std::alloc::Global;
use std::sync::ledger::Ledger;
use step_count::Steps;
use track_types::Memory;

/// The places of all ones, ascending. Where ones are rare each is looked for by itself, so that no more is read than
/// `select_reads` for each.
pub fn places_of_ones<L: Ledger>(
    alloc: Global,
    bits: &Bits,
    steps: &mut Steps<L>,
) -> Result<Vec<u32>, Memory>
    ensures ok { IfOk result (λ places. places.items ≡ places_of_ones bits.now) }
    ensures cost { steps.new ≤ steps.old + select_reads * ones_of bits.now }
{
    if bits.len() / 32 < bits.ones() {
        tested(alloc, bits, steps)
    } else {
        selected(alloc, bits, steps)
    }
}

// They are found by a test of each bit.
fn tested<L: Ledger>(alloc: Global, bits: &Bits, steps: &mut Steps<L>) -> Result<Vec<u32>, Memory>
    ensures ok { IfOk result (λ places. places.items ≡ places_of_ones bits.now) }
    ensures cost { steps.new ≤ steps.old + length bits.now }
{
    let mut places = Vec::with_capacity(alloc, bits.ones() as usize)?;
    for place in 0..bits.len() {
        if bits.get(place, steps) {
            places.push(place)?;
        }
    }
    Ok(places)
}

// Each is selected.
fn selected<L: Ledger>(alloc: Global, bits: &Bits, steps: &mut Steps<L>) -> Result<Vec<u32>, Memory>
    ensures ok { IfOk result (λ places. places.items ≡ places_of_ones bits.now) }
    ensures cost { steps.new ≤ steps.old + select_reads * ones_of bits.now }
{
    let mut places = Vec::with_capacity(alloc, bits.ones() as usize)?;
    for rank in 0..bits.ones() {
        places.push(bits.select1(rank + 1, steps))?;
    }
    Ok(places)
}
