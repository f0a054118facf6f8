ghost use Rattle.std.specs.Prelude.{◌≡◌, ◌+◌, ◌*◌, ◌<◌, ◌≤◌, Some, length, slice_get};
ghost use Rattle.k2_tree.specs.Widths.{widths_of};
ghost use Rattle.k2_tree.specs.Groups.{upper_squares};
ghost use Rattle.k2_tree.specs.Tree.{codes_in, AreTreeBits};
ghost use Rattle.k2_tree.specs.Cost.{climb_reads};
ghost use Rattle.track_types.specs.declared.limit.TheConstants.{MAX_HEIGHT};

use crate::groups::{digit_at, square_at, width_at};
use bit_rank::Bits;
use std::sync::ledger::Ledger;
use step_count::Steps;

/// The Morton number of a leaf: from the leaf to the top, by the place of one bit at each level.
/// The bit of a square stands in its parent's group, at the place of the square's last digit.
/// `upper` squares are split in sixteen.
pub fn code_of_leaf<L: Ledger>(
    bits: &Bits,
    height: u32,
    wide: u32,
    upper: u32,
    leaf: u32,
    steps: &mut Steps<L>,
) -> u64
    requires tree { AreTreeBits height wide bits.now }
    requires upper { upper ≡ upper_squares height wide (codes_in (widths_of height wide) bits.now) }
    requires low { height ≤ MAX_HEIGHT }
    requires fits { 2 * wide ≤ height }
    requires within { leaf < length (codes_in (widths_of height wide) bits.now) }
    ensures value { slice_get (codes_in (widths_of height wide) bits.now) leaf ≡ Some result }
    ensures cost { steps.new ≤ steps.old + climb_reads height }
{
    let mut square = square_at(upper, bits.len()) + leaf;
    let mut code = 0;
    let mut level = 0;
    'levels: while level < height {
        let place = bits.select1(square, steps);
        square = square_at(upper, place);
        code += u64::from(digit_at(upper, place)) << (2 * level);
        level += width_at(upper, square);
    }
    code
}
