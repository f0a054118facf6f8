ghost use Rattle.std.specs.Prelude.{◌≡◌, ◌+◌, ◌-◌, ◌*◌, ◌^◌, ◌<◌, ◌≤◌, ◌++◌, pos, neg_ℤ, ◌≤ℤ◌, length, map, IfOk, OnOk};
ghost use Rattle.track_types.specs.declared.limit.TheConstants.{MAX_ASKED, MAX_HEIGHT};
ghost use Rattle.bit_rank.specs.Cost.{window_reads};
ghost use Rattle.k2_tree.specs.Digits.{digits_of};
ghost use Rattle.k2_tree.specs.Listing.{child_spot, quarter_of, spot_cell, spot_code, spot_of, IsLevelOf};
ghost use Rattle.k2_tree.specs.Squares.{squares_above};
ghost use Rattle.k2_tree.specs.Tree.{codes_in, AreTreeBits};
ghost use Rattle.k2_tree.specs.Widths.{fan_of, width_below, widths_of};

use crate::groups::{fan_of, width_below};
use bit_rank::Bits;
use std::alloc::Global;
use std::sync::ledger::Ledger;
use step_count::Steps;
use track_types::{Cell, Memory};

/// The cells of a tree with their Morton numbers, in Morton order.
#[derive(Drop)]
pub struct Listing {
    /// The Morton numbers.
    pub codes: Vec<u64>,
    /// The cells.
    pub cells: Vec<Cell>,
}

/// A square by its Morton number, and where it stands among the squares of its size.
#[derive(Clone, Copy)]
pub struct Spot {
    /// The Morton number.
    pub code: u64,
    /// How many squares stand to the left of it.
    pub column: u32,
    /// How many stand below it.
    pub row: u32,
}

/// The squares of a level that hold a cell, in Morton order.
#[derive(Drop)]
pub struct Level {
    /// The squares.
    pub spots: Vec<Spot>,
    /// Where the bits of their children begin.
    pub start: u32,
    /// How many digits are below them.
    pub below: u32,
}

/// The cells that the bits of a tree tell, in Morton order. It goes down level by level, and takes memory for the
/// squares of two levels at a time.
pub fn spots_in<L: Ledger>(
    alloc: Global,
    bits: &Bits,
    height: u32,
    wide: u32,
    steps: &mut Steps<L>,
) -> Result<Vec<Spot>, Memory>
    requires tree { AreTreeBits height wide bits.now }
    requires low { height ≤ MAX_HEIGHT }
    ensures ok { IfOk result (λ spots.
        spots.items ≡ map (spot_of height) (codes_in (widths_of height wide) bits.now)) }
    ensures cost { steps.new ≤ steps.old
        + window_reads * squares_above (widths_of height wide) 0 (codes_in (widths_of height wide) bits.now) }
{
    let mut spots = Vec::new(alloc);
    if bits.len() == 0 {
        return Ok(spots);
    }
    spots.push(Spot {
        code: 0,
        column: 0,
        row: 0,
    })?;
    let mut level = Level {
        spots,
        start: 0,
        below: height,
    };
    while level.below > 0 {
        level = next_level(alloc, bits, height, wide, level, steps)?;
    }
    Ok(level.spots)
}

// The level below another, by one window of the bits for each of its squares.
fn next_level<L: Ledger>(
    alloc: Global,
    bits: &Bits,
    height: u32,
    wide: u32,
    from: Level,
    steps: &mut Steps<L>,
) -> Result<Level, Memory>
    requires tree { AreTreeBits height wide bits.now }
    requires low { height ≤ MAX_HEIGHT }
    requires level { IsLevelOf height wide bits.now from.spots.items from.start from.below }
    requires inner { 0 < from.below }
    ensures level { IfOk result (λ to. IsLevelOf height wide bits.now to.spots.items to.start to.below) }
    ensures below { IfOk result (λ to. to.below + width_below (height - 2 * wide) from.below ≡ from.below) }
    ensures cost { steps.new ≤ steps.old + window_reads * length from.spots.items }
{
    let width = width_below(height - 2 * wide, from.below);
    let fan = fan_of(width);
    let mut spots = Vec::new(alloc);
    let mut start = from.start;
    for spot in from.spots.as_slice() {
        let digits = bits.window(start, fan, steps);
        push_children(&mut spots, *spot, width, digits)?;
        start += fan;
    }
    Ok(Level {
        spots,
        start,
        below: from.below - width,
    })
}

// Pushes the children of a square by a level of this width: those whose bits are set, the first child's lowest.
fn push_children(spots: &mut Vec<Spot>, spot: Spot, width: u32, digits: u32) -> Result<(), Memory>
    requires some { 1 ≤ width }
    requires narrow { width ≤ 2 }
    requires few { digits < 2 ^ fan_of width }
    requires code { spot.code < 2 ^ 58 }
    requires column { spot.column < 2 ^ 29 }
    requires row { spot.row < 2 ^ 29 }
    ensures ok { OnOk result (spots.new.items
        ≡ spots.old.items ++ map (child_spot width spot) (digits_of (fan_of width) digits)) }
{
    let mut left = digits;
    while left != 0 {
        spots.push(spot.child(width, left.trailing_zeros()))?;
        left &= left - 1;
    }
    Ok(())
}

/// The Morton numbers of squares.
pub fn codes_of_spots(alloc: Global, spots: &[Spot]) -> Result<Vec<u64>, Memory>
    ensures ok { IfOk result (λ codes. codes.items ≡ map spot_code spots.now) }
{
    let mut codes = Vec::with_capacity(alloc, spots.len())?;
    for spot in spots {
        codes.push(spot.code)?;
    }
    Ok(codes)
}

/// The cells that squares are, which have no digit below them.
pub fn cells_of_spots(alloc: Global, spots: &[Spot], base: Cell) -> Result<Vec<Cell>, Memory>
    requires west { neg_ℤ (pos MAX_ASKED) ≤ℤ base.x }
    requires east { base.x ≤ℤ pos MAX_ASKED }
    requires south { neg_ℤ (pos MAX_ASKED) ≤ℤ base.y }
    requires north { base.y ≤ℤ pos MAX_ASKED }
    ensures ok { IfOk result (λ cells. cells.items ≡ map (spot_cell base) spots.now) }
{
    let mut cells = Vec::with_capacity(alloc, spots.len())?;
    for spot in spots {
        cells.push(spot_cell(*spot, base))?;
    }
    Ok(cells)
}

// The cell that a square is.
fn spot_cell(spot: Spot, base: Cell) -> Cell
    requires west { neg_ℤ (pos MAX_ASKED) ≤ℤ base.x }
    requires east { base.x ≤ℤ pos MAX_ASKED }
    requires south { neg_ℤ (pos MAX_ASKED) ≤ℤ base.y }
    requires north { base.y ≤ℤ pos MAX_ASKED }
    ensures { result ≡ spot_cell base spot }
{
    Cell {
        x: base.x + i64::from(spot.column),
        y: base.y + i64::from(spot.row),
    }
}

impl Spot {
    // The child with a digit by a level of this width.
    fn child(self, width: u32, digit: u32) -> Spot
        requires some { 1 ≤ width }
        requires narrow { width ≤ 2 }
        requires small { digit < fan_of width }
        requires code { self.code < 2 ^ 58 }
        requires column { self.column < 2 ^ 29 }
        requires row { self.row < 2 ^ 29 }
        ensures { result ≡ child_spot width self digit }
    {
        if width == 1 {
            return self.quarter(digit);
        }
        self.quarter(digit / 4).quarter(digit % 4)
    }

    // The quarter with a digit to base 4.
    fn quarter(self, digit: u32) -> Spot
        requires small { digit < 4 }
        requires code { self.code < 2 ^ 60 }
        requires column { self.column < 2 ^ 30 }
        requires row { self.row < 2 ^ 30 }
        ensures { result ≡ quarter_of self digit }
    {
        Spot {
            code: 4 * self.code + u64::from(digit),
            column: 2 * self.column + digit % 2,
            row: 2 * self.row + digit / 2,
        }
    }
}
