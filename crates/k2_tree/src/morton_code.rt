ghost use Rattle.std.specs.Prelude.{◌≡◌, ◌^◌, ◌<◌, ◌≤◌, pos, neg_ℤ, ◌+ℤ◌, ◌-ℤ◌, ◌≤ℤ◌, ◌↔◌, map, All, IfOk, IsTrue};
ghost use Rattle.std.specs.Int.RustNames.{unsigned_abs};
ghost use Rattle.track_types.specs.declared.limit.TheConstants.{MAX_ASKED};
ghost use Rattle.k2_tree.specs.Morton.{cell_of, morton_column, interleaved, morton_of, morton_row, IsGrid, IsInGrid};

use std::alloc::Global;
use track_types::{Cell, MAX_HEIGHT, Memory};

/// The Morton number of a cell in the grid of side `2^height` from the base cell: `height` digits
/// to base 4, the highest first. Each digit is twice a bit of the row and the same bit of the
/// column, both counted from the base (G. M. Morton, "A computer oriented geodetic data base",
/// 1966).
pub fn morton(cell: Cell, height: u32, base: Cell) -> u64
    requires grid { IsGrid height base }
    requires inside { IsInGrid height base cell }
    ensures { result ≡ morton_of height base cell }
{
    interleave(offset(cell.y, base.y), offset(cell.x, base.x), height)
}

/// The Morton numbers of the cells, in their order.
pub fn codes_of_cells(
    alloc: Global,
    cells: &[Cell],
    height: u32,
    base: Cell,
) -> Result<Vec<u64>, Memory>
    requires grid { IsGrid height base }
    requires inside { All (IsInGrid height base) cells.now }
    ensures ok { IfOk result (λ codes. codes.items ≡ map (morton_of height base) cells.now) }
{
    let mut codes = Vec::with_capacity(alloc, cells.len())?;
    for cell in cells {
        codes.push(morton(*cell, height, base))?;
    }
    Ok(codes)
}

/// Whether the cell is in the grid.
pub fn is_in_grid(cell: Cell, height: u32, base: Cell) -> bool
    requires { IsGrid height base }
    ensures { IsTrue result ↔ IsInGrid height base cell }
{
    if cell.x < base.x || cell.y < base.y {
        return false;
    }
    let side = 1 << height;
    cell.x.abs_diff(base.x) < side && cell.y.abs_diff(base.y) < side
}

// How far a coordinate of the grid is from the base's.
fn offset(place: i64, base: i64) -> u64
    requires low { neg_ℤ (pos MAX_ASKED) ≤ℤ base }
    requires from_base { base ≤ℤ place }
    ensures { result ≡ unsigned_abs (place -ℤ base) }
{
    place.abs_diff(base)
}

// The number whose digits to base 4 are made of the bits of a row and a column, the row's above. It is
// made sixteen digits at a time.
fn interleave(row: u64, column: u64, height: u32) -> u64
    requires low { height ≤ MAX_HEIGHT }
    requires row { row < 2 ^ height }
    requires column { column < 2 ^ height }
    ensures { result ≡ interleaved height row column }
{
    let mut code = 0;
    for half in (0..height.div_ceil(16)).rev() {
        let digits = 2 * spread(row >> (16 * half)) + spread(column >> (16 * half));
        code = (1 << 32) * code + digits;
    }
    code
}

// The number whose digits to base 4 are the sixteen lowest bits.
fn spread(number: u64) -> u64
    ensures value { result ≡ interleaved 16 0 number }
    ensures small { result < 2 ^ 32 }
{
    spread_half(number % 65536)
}

// The same of sixteen bits: they go apart by eight, by four, by two and by one (H. S. Warren, "Hacker's Delight").
fn spread_half(half: u64) -> u64
    requires { half < 65536 }
    ensures { result ≡ interleaved 16 0 half }
{
    let bytes = (half | half << 8) & 0x00ff00ff;
    let nibbles = (bytes | bytes << 4) & 0x0f0f0f0f;
    let pairs = (nibbles | nibbles << 2) & 0x33333333;
    (pairs | pairs << 1) & 0x55555555
}

/// The cell that has the Morton number.
pub fn cell_at(code: u64, height: u32, base: Cell) -> Cell
    requires grid { IsGrid height base }
    ensures { result ≡ cell_of height base code }
{
    let digits = code % (1 << (2 * height));
    Cell {
        x: moved(base.x, column_of(digits)),
        y: moved(base.y, row_of(digits)),
    }
}

// The coordinate so far from the base's.
fn moved(base: i64, by: u32) -> i64
    requires low { neg_ℤ (pos MAX_ASKED) ≤ℤ base }
    requires high { base ≤ℤ pos MAX_ASKED }
    ensures { result ≡ base +ℤ pos by }
{
    base + i64::from(by)
}

/// The column of a Morton number in the greatest grid: the lower bit of each digit, taken eight digits at a time.
pub fn column_of(code: u64) -> u32
    ensures value { result ≡ morton_column MAX_HEIGHT code }
    ensures small { result < 2 ^ MAX_HEIGHT }
{
    let mut column = 0;
    for part in (0..MAX_HEIGHT / 8).rev() {
        column = 256 * column + part_column((code >> (16 * part)) % 65536);
    }
    column
}

// The same of a number of eight digits: its bits close up by one, by two and by four (H. S. Warren, "Hacker's Delight").
fn part_column(part: u64) -> u32
    requires { part < 65536 }
    ensures value { result ≡ morton_column 8 part }
    ensures small { result < 256 }
{
    let bits = part & 0x5555;
    let pairs = (bits | bits >> 1) & 0x3333;
    let nibbles = (pairs | pairs >> 2) & 0x0f0f;
    ((nibbles | nibbles >> 4) & 0x00ff) as u32
}

/// The row of a Morton number in the greatest grid: its bits stand above those of the column.
pub fn row_of(code: u64) -> u32
    ensures value { result ≡ morton_row MAX_HEIGHT code }
    ensures small { result < 2 ^ MAX_HEIGHT }
{
    column_of(code / 2)
}
