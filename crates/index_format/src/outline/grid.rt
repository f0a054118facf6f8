ghost use Rattle.std.specs.Prelude.{◌≡◌, ◌-◌, ◌^◌, ◌≤◌, pos, ◌&&◌, true, IfSome};
ghost use Rattle.std.specs.Int.Signed.{le_z};
ghost use Rattle.rule_store.specs.Cells.{moved};
ghost use Rattle.rule_store.specs.Entry.{IsEntryWithin};
ghost use Rattle.track_types.specs.Near.{IsWithin, IsBoxWithin};
ghost use Rattle.track_types.specs.declared.limit.TheConstants.{MAX_HEIGHT};
ghost use Rattle.index_format.specs.OutlineBlocks.{is_in_grid, stays_in};

use rule_store::Entry;
use track_types::{Cell, CellBox};

/// Whether a cell, counted from the base, is one of a grid of this height.
pub fn is_in_grid(height: u32, cell: Cell) -> bool
    requires { height ≤ MAX_HEIGHT }
    ensures { result ≡ is_in_grid height cell }
{
    let far = greatest(height);
    is_along(cell.x, far) && is_along(cell.y, far)
}

// The greatest coordinate of a grid of this height.
fn greatest(height: u32) -> i64
    requires { height ≤ MAX_HEIGHT }
    ensures { result ≡ pos (2 ^ height - 1) }
{
    (1 << height) - 1
}

// Whether a number is one from 0 to another.
fn is_along(number: i64, last: i64) -> bool
    ensures { result ≡ (le_z (pos 0) number && le_z number last) }
{
    0 <= number && number <= last
}

/// Whether a box, moved to a cell of the grid, is in the grid; so is one of no cells.
pub fn stays_in(height: u32, cell: Cell, hull: &Option<CellBox>) -> bool
    requires height { height ≤ MAX_HEIGHT }
    requires cell { is_in_grid height cell ≡ true }
    requires hull { IfSome hull.now IsBoxWithin }
    ensures { result ≡ stays_in height cell hull.now }
{
    match hull {
        None => true,
        Some(hull) => {
            is_in_grid(height, moved(height, cell, hull.x1, hull.y1))
                && is_in_grid(height, moved(height, cell, hull.x2, hull.y2))
        }
    }
}

/// A cell of the grid, moved so many columns to the right, and so many lines up.
pub fn moved(height: u32, cell: Cell, dx: i64, dy: i64) -> Cell
    requires height { height ≤ MAX_HEIGHT }
    requires cell { is_in_grid height cell ≡ true }
    requires dx { IsWithin dx }
    requires dy { IsWithin dy }
    ensures { result ≡ moved cell (dx, dy) }
{
    Cell {
        x: cell.x + dx,
        y: cell.y + dy,
    }
}

/// The cell to which an entry leads from a cell of the grid.
pub fn cell_past(height: u32, cell: Cell, entry: &Entry) -> Cell
    requires height { height ≤ MAX_HEIGHT }
    requires cell { is_in_grid height cell ≡ true }
    requires entry { IsEntryWithin entry.now }
    ensures { result ≡ moved cell (entry.now.dx, entry.now.dy) }
{
    Cell {
        x: cell.x + entry.dx,
        y: cell.y + entry.dy,
    }
}
