ghost use Rattle.std.specs.Prelude.{◌≡◌, ℕ, ◌+◌, ◌*◌, ◌^◌, ◌<◌, ◌≤◌, ◌++◌, ◌∷◌, [], min, List, drop, length, IfOk, OnOk};
ghost use Rattle.std.specs.List.{range_with_len};
ghost use Rattle.k2_tree.specs.Tree.{codes_below, codes_in, where_set};
ghost use Rattle.k2_tree.specs.Widths.{fan, fan_of, levels_with, widths_of};
ghost use Rattle.track_types.specs.declared.limit.TheConstants.{MAX_HEIGHT};
ghost use Rattle.outline_parts.specs.Level.{IsLevel};

use std::alloc::{AllocError, Global};
use track_types::BitList;

/// The Morton numbers of the cells that a tree's bits tell, ascending, in one pass over the bits. It takes
/// memory for the numbers of two levels at a time.
pub(crate) fn codes_of_bits(
    alloc: Global,
    bits: &BitList,
    height: u32,
    wide: u32,
) -> Result<Vec<u64>, AllocError>
    requires fits { 2 * wide ≤ height }
    requires low { height ≤ MAX_HEIGHT }
    ensures { IfOk result (λ codes. codes.items ≡ codes_in (widths_of height wide) bits.now) }
{
    let mut codes = Vec::new(alloc);
    if bits.len() == 0 {
        return Ok(codes);
    }
    codes.push(0)?;
    let top = Level {
        codes,
        digits: 0,
        start: 0,
    };
    let upper = go_down(alloc, bits, 2, wide, top)?;
    let lowest = go_down(alloc, bits, 1, height - 2 * wide, upper)?;
    Ok(lowest.codes)
}

/// The squares of a level that hold cells.
#[derive(Drop)]
pub(crate) struct Level {
    /// The Morton numbers of the squares, ascending.
    pub(crate) codes: Vec<u64>,
    /// How many digits to base 4 these have.
    pub(crate) digits: u32,
    /// Where the bits of their children begin.
    pub(crate) start: u32,
}

// The level that is so many levels of one width below.
fn go_down(
    alloc: Global,
    bits: &BitList,
    width: u32,
    count: u32,
    from: Level,
) -> Result<Level, AllocError>
    requires level { IsLevel bits.now from }
    requires some { 1 ≤ width }
    requires narrow { width ≤ 2 }
    requires low { from.digits + width * count ≤ MAX_HEIGHT }
    ensures level { IfOk result (λ to. IsLevel bits.now to) }
    ensures digits { IfOk result (λ to. to.digits ≡ from.digits + width * count) }
    ensures below { (rest : List ℕ) → IfOk result (λ to. codes_below rest to.codes.items (drop to.start bits.now)
        ≡ codes_below (levels_with width count ++ rest) from.codes.items (drop from.start bits.now)) }
{
    let mut level = from;
    for _ in 0..count {
        level = next_level(alloc, bits, width, level)?;
    }
    Ok(level)
}

// The level below, of this width.
fn next_level(alloc: Global, bits: &BitList, width: u32, from: Level) -> Result<Level, AllocError>
    requires level { IsLevel bits.now from }
    requires some { 1 ≤ width }
    requires narrow { width ≤ 2 }
    requires low { from.digits + width ≤ MAX_HEIGHT }
    ensures level { IfOk result (λ to. IsLevel bits.now to) }
    ensures digits { IfOk result (λ to. to.digits ≡ from.digits + width) }
    ensures below { (rest : List ℕ) → IfOk result (λ to. codes_below rest to.codes.items (drop to.start bits.now)
        ≡ codes_below (width ∷ rest) from.codes.items (drop from.start bits.now)) }
{
    let fan = fan_of(width);
    let mut codes = Vec::new(alloc);
    let mut start = from.start;
    for prefix in from.codes.as_slice() {
        start = push_children(bits, start, fan, *prefix, &mut codes)?;
    }
    Ok(Level {
        codes,
        digits: from.digits + width,
        start,
    })
}

// In how many squares a level of a width splits each square.
fn fan_of(width: u32) -> u32
    requires some { 1 ≤ width }
    requires narrow { width ≤ 2 }
    ensures value { result ≡ fan_of width }
    ensures few { result ≤ 16 }
{
    if width == 2 { 16 } else { 4 }
}

// Pushes the numbers of a square's children that hold cells. The bits of the children begin at a place, and
// the answer is the place behind them.
fn push_children(
    bits: &BitList,
    start: u32,
    fan: u32,
    prefix: u64,
    codes: &mut Vec<u64>,
) -> Result<u32, AllocError>
    requires within { start ≤ length bits.now }
    requires few { fan ≤ 16 }
    requires small { prefix < 2 ^ 48 }
    ensures ok { IfOk result (λ end. codes.new.items
        ≡ codes.old.items ++ where_set (drop start bits.now) (range_with_len (fan * prefix) fan)) }
    ensures end { IfOk result (λ end. end ≡ min (start + fan) (length bits.now)) }
{
    let end = end_of(start, fan, bits.len());
    let mut code = fan as u64 * prefix;
    for place in start..end {
        push_if(codes, bits.get(place), code)?;
        code += 1;
    }
    Ok(end)
}

// The place that is so far behind another one, or the end.
fn end_of(start: u32, far: u32, end: u32) -> u32
    requires { start ≤ end }
    ensures { result ≡ min (start + far) end }
{
    if end - start < far { end } else { start + far }
}

// Pushes a number if its bit is one.
fn push_if(codes: &mut Vec<u64>, bit: bool, code: u64) -> Result<(), AllocError>
    ensures { OnOk result (codes.new.items ≡ codes.old.items ++ where_set (bit ∷ []) (code ∷ [])) }
{
    if bit {
        codes.push(code)?;
    }
    Ok(())
}
