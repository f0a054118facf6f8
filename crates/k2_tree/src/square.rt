ghost use Rattle.std.specs.Prelude.{◌≡◌, ◌+◌, ◌-◌, ◌*◌, ◌/◌, ◌%◌, ◌^◌, ◌<◌, ◌≤◌, ◌↔◌, pos, neg_ℤ, ◌+ℤ◌, ◌≤ℤ◌, IsTrue};
ghost use Rattle.k2_tree.specs.Areas.{area_at};
ghost use Rattle.k2_tree.specs.Morton.{interleaved, morton_column, morton_row, IsBase, IsGrid};
ghost use Rattle.k2_tree.specs.Squares.{node};
ghost use Rattle.track_types.specs.Near.{IsBoxWithin, IsWithin};
ghost use Rattle.track_types.specs.declared.limit.TheConstants.{MAX_ASKED, MAX_HEIGHT};

use track_types::{Cell, CellBox};

/// A square of a tree that holds a cell. It is the whole grid, or one of the four or sixteen
/// squares that another square of the tree is split in, down to a cell.
///
/// It is a node of the k2-tree. It knows its place in the grid and its number among the squares
/// that hold a cell, level by level from the top.
#[derive(Clone, Copy, Debug)]
pub struct Square {
    base: Cell,
    // How many more digits the Morton numbers of its cells have: its side is 2^level.
    level: u32,
    // How many squares of its size stand to the left of it and below it in the grid.
    column: u32,
    row: u32,
    number: u32,
    ghost low: { level ≤ MAX_HEIGHT },
    ghost right: { (column + 1) * 2 ^ level ≤ 2 ^ MAX_HEIGHT },
    ghost upper: { (row + 1) * 2 ^ level ≤ 2 ^ MAX_HEIGHT },
    ghost near: { IsBase base },
}

impl Default for Square {
    ghost use Rattle.k2_tree.specs.TreeSquares.{level_of};

    // The whole of the least grid, which stands in the unused places of a list.
    fn default() -> Self
        ensures { level_of result ≡ 1 }
    {
        Square::whole(Cell { x: 0, y: 0 }, 1)
    }
}

impl Square {
    ghost use Rattle.k2_tree.specs.Widths.{fan_of};
    ghost use Rattle.k2_tree.specs.Areas.{IsBoxInside};
    ghost use Rattle.k2_tree.specs.TreeSquares.{area_of, child_at, least_cell_of, level_of, node_of, square_number};

    /// The cells of the square, whether the tree has them or not. All of its bounds are within
    /// `MAX_REACH` of 0. It takes no memory.
    pub fn area(&self) -> CellBox
        ensures value { result ≡ area_of self.now }
        ensures within { IsBoxWithin result }
    {
        square_area(self.base, self.level, self.column, self.row)
    }

    /// Whether the square is a cell.
    pub fn is_leaf(&self) -> bool
        ensures { IsTrue result ↔ (level_of self.now ≡ 0) }
    {
        self.level == 0
    }

    // The square of the whole grid.
    pub(crate) fn whole(base: Cell, height: u32) -> Square
        requires { IsGrid height base }
        ensures base { result.base ≡ base }
        ensures node { node_of result ≡ node height 0 }
        ensures number { square_number result ≡ 0 }
    {
        Square {
            base,
            level: height,
            column: 0,
            row: 0,
            number: 0,
        }
    }

    // The child with a digit by a level of this width, which has this number. A wide level's digit
    // is two to base 4, the upper one first.
    pub(crate) fn child(&self, width: u32, digit: u32, number: u32) -> Square
        requires some { 1 ≤ width }
        requires narrow { width ≤ 2 }
        requires inner { width ≤ level_of self.now }
        requires small { digit < fan_of width }
        ensures base { result.base ≡ self.now.base }
        ensures node { node_of result ≡ child_at width (node_of self.now) digit }
        ensures number { square_number result ≡ number }
        ensures inside { IsBoxInside (area_of result) (area_of self.now) }
    {
        Square {
            base: self.base,
            level: self.level - width,
            column: child_column(self.column, width, digit),
            row: child_row(self.row, width, digit),
            number,
        }
    }

    // The least cell.
    pub(crate) fn corner(&self) -> Cell
        ensures { result ≡ least_cell_of self.now }
    {
        let area = self.area();
        Cell {
            x: area.x1,
            y: area.y1,
        }
    }

    // How many more digits the Morton numbers of its cells have.
    pub(crate) fn level(&self) -> u32
        ensures value { result ≡ level_of self.now }
        ensures within { result ≤ MAX_HEIGHT }
    {
        self.level
    }

    // The square's number.
    pub(crate) fn number(&self) -> u32
        ensures { result ≡ square_number self.now }
    {
        self.number
    }
}

/// The cells of a square of the grid from a base: its side is `2^level`, and so many squares of its
/// size stand to the left of it and below it. It lies in the greatest grid.
pub fn square_area(base: Cell, level: u32, column: u32, row: u32) -> CellBox
    requires base { IsBase base }
    requires low { level ≤ MAX_HEIGHT }
    requires right { (column + 1) * 2 ^ level ≤ 2 ^ MAX_HEIGHT }
    requires upper { (row + 1) * 2 ^ level ≤ 2 ^ MAX_HEIGHT }
    ensures value { result ≡ area_at base (node level (interleaved MAX_HEIGHT row column)) }
    ensures within { IsBoxWithin result }
{
    CellBox {
        x1: first(base.x, column, level),
        y1: first(base.y, row, level),
        x2: last(base.x, column, level),
        y2: last(base.y, row, level),
    }
}

// The first coordinate of a square, where so many squares of its size stand before it.
fn first(base: i64, before: u32, level: u32) -> i64
    requires west { neg_ℤ (pos MAX_ASKED) ≤ℤ base }
    requires east { base ≤ℤ pos MAX_ASKED }
    requires low { level ≤ MAX_HEIGHT }
    requires inside { (before + 1) * 2 ^ level ≤ 2 ^ MAX_HEIGHT }
    ensures value { result ≡ base +ℤ pos (before * 2 ^ level) }
    ensures within { IsWithin result }
{
    base + (u64::from(before) << level) as i64
}

// Its last coordinate.
fn last(base: i64, before: u32, level: u32) -> i64
    requires west { neg_ℤ (pos MAX_ASKED) ≤ℤ base }
    requires east { base ≤ℤ pos MAX_ASKED }
    requires low { level ≤ MAX_HEIGHT }
    requires inside { (before + 1) * 2 ^ level ≤ 2 ^ MAX_HEIGHT }
    ensures value { result ≡ base +ℤ pos (before * 2 ^ level) +ℤ pos (2 ^ level - 1) }
    ensures within { IsWithin result }
{
    first(base, before, level) + (1 << level) - 1
}

/// The column of a child of a square among the squares of its size. The square has so many squares of its
/// own size to the left of it, and a level of this width splits it.
pub fn child_column(column: u32, width: u32, digit: u32) -> u32
    requires some { 1 ≤ width }
    requires narrow { width ≤ 2 }
    requires small { digit < 4 ^ width }
    requires right { (column + 1) * 2 ^ width ≤ 2 ^ MAX_HEIGHT }
    ensures { result ≡ 2 ^ width * column + morton_column width digit }
{
    (column << width) + digit_column(digit, width)
}

/// Its row, of a square with so many squares of its own size below it.
pub fn child_row(row: u32, width: u32, digit: u32) -> u32
    requires some { 1 ≤ width }
    requires narrow { width ≤ 2 }
    requires small { digit < 4 ^ width }
    requires upper { (row + 1) * 2 ^ width ≤ 2 ^ MAX_HEIGHT }
    ensures { result ≡ 2 ^ width * row + morton_row width digit }
{
    (row << width) + digit_row(digit, width)
}

// The column of the child with a digit among those of its square, where the level takes so many
// digits.
fn digit_column(digit: u32, width: u32) -> u32
    requires some { 1 ≤ width }
    requires few { width ≤ 2 }
    requires small { digit < 4 ^ width }
    ensures value { result ≡ morton_column width digit }
    ensures small { result < 2 ^ width }
{
    digit % 2 + digit / 4 % 2 * 2
}

// Its row.
fn digit_row(digit: u32, width: u32) -> u32
    requires some { 1 ≤ width }
    requires few { width ≤ 2 }
    requires small { digit < 4 ^ width }
    ensures value { result ≡ morton_row width digit }
    ensures small { result < 2 ^ width }
{
    digit / 2 % 2 + digit / 8 * 2
}
