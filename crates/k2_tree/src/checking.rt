ghost use Rattle.std.specs.Prelude.{◌≡◌, ◌*◌, ◌≤◌, Some, length, drop, IfErr, IfOk};
ghost use Rattle.k2_tree.specs.Widths.{widths_of};
ghost use Rattle.k2_tree.specs.Flaws.{group_flaw, tree_flaw};
ghost use Rattle.k2_tree.specs.Checking.{flaw_from, group_ones, IsLevel};
ghost use Rattle.track_types.specs.declared.limit.TheConstants.{MAX_HEIGHT, MAX_TREE};

use crate::counting::ones_within;
use crate::groups::{fan_of, width_below};
use track_types::BitList;

/// The place of the first flaw of bits that are no tree's of this height, and `None` if and only if
/// they are a tree's. It goes over each bit up to the flaw once.
///
/// Each level has as many groups as the level above it has ones, and the first has one. A group of
/// the `wide` upper levels has sixteen bits, and one of the others four. No memory is taken.
pub fn find_flaw(bits: &BitList, height: u32, wide: u32) -> Option<u32>
    requires few { length bits.now ≤ MAX_TREE }
    requires low { height ≤ MAX_HEIGHT }
    requires fits { 2 * wide ≤ height }
    ensures { result ≡ tree_flaw (widths_of height wide) bits.now }
{
    if bits.len() == 0 {
        return None;
    }
    let low = height - 2 * wide;
    let mut level = height;
    let mut start = 0;
    let mut groups = 1;
    'levels: while level > 0 {
        let width = width_below(low, level);
        let fan = fan_of(width);
        match ones_of_level(bits, start, groups, fan) {
            Ok(ones) => {
                start += fan * groups;
                groups = ones;
                level -= width;
            }
            Err(place) => return Some(place),
        }
    }
    if start < bits.len() {
        Some(start)
    } else {
        None
    }
}

// How many ones a level of so many groups has from a place on, or the place of the first group that
// is not whole or holds no one.
fn ones_of_level(bits: &BitList, start: u32, groups: u32, fan: u32) -> Result<u32, u32>
    requires within { start ≤ length bits.now }
    requires few { length bits.now ≤ MAX_TREE }
    requires some { 1 ≤ fan }
    requires narrow { fan ≤ 16 }
    ensures whole { IfOk result (λ ones. IsLevel fan bits.now start groups ones) }
    ensures flaw { IfErr result (λ place.
        flaw_from start (group_flaw fan groups (drop start bits.now)) ≡ Some place) }
{
    let mut place = start;
    let mut ones = 0;
    for _ in 0..groups {
        let found = ones_of_group(bits, place, fan);
        if found == 0 {
            return Err(place);
        }
        ones += found;
        place += fan;
    }
    Ok(ones)
}

// How many ones the group of so many bits from a place on has, and 0 where it is not whole.
fn ones_of_group(bits: &BitList, place: u32, fan: u32) -> u32
    requires within { place ≤ length bits.now }
    requires few { length bits.now ≤ MAX_TREE }
    requires some { 1 ≤ fan }
    requires narrow { fan ≤ 16 }
    ensures { result ≡ group_ones fan (drop place bits.now) }
{
    if bits.len() - place < fan {
        return 0;
    }
    ones_within(bits, place, place + fan)
}
