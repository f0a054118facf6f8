ghost use Rattle.std.specs.Prelude.{◌≡◌, ◌+◌, ◌-◌, ◌*◌, ◌/◌, ◌%◌, ◌^◌, ◌<◌, ◌≤◌, ◌++◌, length, IfOk, OnOk};
ghost use Rattle.k2_tree.specs.Widths.{fan_of, levels_with, widths_of};
ghost use Rattle.k2_tree.specs.TreeBits.{Rises, level_bits, morton_bits};
ghost use Rattle.k2_tree.specs.Groups.{upper_squares};
ghost use Rattle.k2_tree.specs.Building.{levels_bits};
ghost use Rattle.track_types.specs.declared.limit.TheConstants.{MAX_HEIGHT, MAX_OBJECTS};

use crate::group_bits::GroupBits;
use crate::groups::fan_of;
use std::alloc::Global;
use track_types::{BitList, Memory};

/// The tree bits of ascending Morton numbers of `height` digits, for a tree that is only to be
/// written. They go level by level from the top, and the `wide` upper levels take two digits each.
/// There are at most 2^16 numbers, and the height is at most `MAX_HEIGHT`. Each level takes one
/// pass over the numbers.
pub fn bits_of_codes(
    alloc: Global,
    codes: &[u64],
    height: u32,
    wide: u32,
) -> Result<BitList, Memory>
    requires ascending { Rises 0 codes.now }
    requires few { length codes.now ≤ MAX_OBJECTS }
    requires low { height ≤ MAX_HEIGHT }
    requires fits { 2 * wide ≤ height }
    ensures ok { IfOk result (λ bits. bits ≡ morton_bits (widths_of height wide) codes.now) }
{
    let (bits, _upper) = split_by_codes(alloc, codes, height, wide)?;
    Ok(bits)
}

/// These bits, and how many squares the wide levels split.
pub fn split_by_codes(
    alloc: Global,
    codes: &[u64],
    height: u32,
    wide: u32,
) -> Result<(BitList, u32), Memory>
    requires ascending { Rises 0 codes.now }
    requires few { length codes.now ≤ MAX_OBJECTS }
    requires low { height ≤ MAX_HEIGHT }
    requires fits { 2 * wide ≤ height }
    ensures bits { IfOk result (λ made. made.0 ≡ morton_bits (widths_of height wide) codes.now) }
    ensures upper { IfOk result (λ made. made.1 ≡ upper_squares height wide codes.now) }
{
    let low = height - 2 * wide;
    let mut bits = GroupBits::new(alloc);
    push_levels(&mut bits, codes, 2, wide, low)?;
    let upper = bits.len() / 16;
    push_levels(&mut bits, codes, 1, low, 0)?;
    Ok((bits.into_list()?, upper))
}

// Pushes so many levels of one width. The squares of the last have `below` digits below them.
fn push_levels(
    bits: &mut GroupBits,
    codes: &[u64],
    width: u32,
    levels: u32,
    below: u32,
) -> Result<(), Memory>
    requires ascending { Rises 0 codes.now }
    requires low { width * levels + below ≤ MAX_HEIGHT }
    requires some { 1 ≤ width }
    requires narrow { width ≤ 2 }
    requires whole { length bits.old % fan_of width ≡ 0 }
    ensures ok { OnOk result (bits.new
        ≡ bits.old ++ levels_bits (levels_with width levels) below codes.now) }
{
    for level in (0..levels).rev() {
        push_level(bits, codes, width, width * level + below)?;
    }
    Ok(())
}

// Pushes the level of this width whose squares have `level` digits below them: a group for each
// longer prefix, which is ready where the next one begins.
fn push_level(bits: &mut GroupBits, codes: &[u64], width: u32, level: u32) -> Result<(), Memory>
    requires ascending { Rises 0 codes.now }
    requires low { width + level ≤ MAX_HEIGHT }
    requires narrow { width ≤ 2 }
    requires whole { length bits.old % fan_of width ≡ 0 }
    ensures ok { OnOk result (bits.new ≡ bits.old ++ level_bits width level codes.now) }
{
    if codes.is_empty() {
        return Ok(());
    }
    let fan = fan_of(width);
    let above = 2 * (width + level);
    let mut group = child_bit(codes[0], level, fan);
    for i in 1..codes.len() {
        if codes[i - 1] >> above != codes[i] >> above {
            bits.push(group, fan)?;
            group = 0;
        }
        group |= child_bit(codes[i], level, fan);
    }
    bits.push(group, fan)?;
    Ok(())
}

// The bit of the child in which a number is, in the group of its square.
fn child_bit(code: u64, level: u32, fan: u32) -> u64
    requires low { level ≤ MAX_HEIGHT }
    requires some { 1 ≤ fan }
    requires few { fan ≤ 16 }
    ensures { result ≡ 2 ^ (code / 4 ^ level % fan) }
{
    1 << ((code >> (2 * level)) % u64::from(fan))
}
