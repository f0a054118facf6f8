ghost use Rattle.std.specs.Prelude.{◌≡◌, ◌+◌, ◌-◌, ◌*◌, ◌^◌, ◌<◌, ◌≤◌, true, false, length, MatchOption, Some, slice_get, slice_index_or};
ghost use Rattle.bit_rank.specs.Bits.{rank_of};
ghost use Rattle.k2_tree.specs.Widths.{fan, widths_of};
ghost use Rattle.k2_tree.specs.TreeBits.{is_in};
ghost use Rattle.k2_tree.specs.Groups.{upper_squares};
ghost use Rattle.k2_tree.specs.Tree.{codes_in, AreTreeBits};
ghost use Rattle.k2_tree.specs.Cost.{child_reads, descent_reads};
ghost use Rattle.track_types.specs.declared.limit.TheConstants.{MAX_HEIGHT, MAX_TREE};

use crate::groups::{fan_of, group_start, square_at, width_below};
use bit_rank::Bits;
use std::sync::ledger::Ledger;
use step_count::Steps;

/// The place of a Morton number among those that the bits stand for, if it is one of them. It goes
/// from the top to the leaf, by the rank of one bit at each level. `upper` squares are split in
/// sixteen.
pub fn find_leaf<L: Ledger>(
    bits: &Bits,
    height: u32,
    wide: u32,
    upper: u32,
    code: u64,
    steps: &mut Steps<L>,
) -> Option<u32>
    requires tree { AreTreeBits height wide bits.now }
    requires upper { upper ≡ upper_squares height wide (codes_in (widths_of height wide) bits.now) }
    requires low { height ≤ MAX_HEIGHT }
    requires fits { 2 * wide ≤ height }
    requires small { code < fan ^ height }
    requires some { 0 < length bits.now }
    ensures value { MatchOption result (is_in (codes_in (widths_of height wide) bits.now) code ≡ false)
        (λ leaf. slice_get (codes_in (widths_of height wide) bits.now) leaf ≡ Some code) }
    ensures cost { steps.new ≤ steps.old + descent_reads height }
{
    let low = height - 2 * wide;
    let mut square = 0;
    let mut level = height;
    'levels: while level > 0 {
        let width = width_below(low, level);
        level -= width;
        let digit = (code >> (2 * level)) % u64::from(fan_of(width));
        let Some(child) = child_at(bits, group_start(upper, square) + digit as u32, steps) else {
            return None;
        };
        square = child;
    }
    Some(square - square_at(upper, bits.len()))
}

/// The number of the square whose bit stands at a place, if that bit is 1: it is the rank of the bit.
pub fn child_at<L: Ledger>(bits: &Bits, place: u32, steps: &mut Steps<L>) -> Option<u32>
    requires inside { place < length bits.now }
    requires few { length bits.now ≤ MAX_TREE }
    ensures value { MatchOption result (slice_index_or bits.now place false ≡ false)
        (λ child. (slice_index_or bits.now place false ≡ true) × (child ≡ rank_of bits.now place + 1)) }
    ensures cost { steps.new ≤ steps.old + child_reads }
{
    if bits.get(place, steps) {
        Some(bits.rank1(place, steps) + 1)
    } else {
        None
    }
}
