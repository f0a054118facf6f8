ghost use Rattle.std.specs.Prelude.{◌≡◌};
ghost use Rattle.log_bounds.specs.Bounds.{IsWord};

use std::marker::Model;
use track_types::Cell;

/// A cell of a grid in 8 bytes, where a `Cell` takes 16: its column and its line, counted from the
/// base of the grid, each below 2^32. A block of an outline has one, and a file has many blocks.
///
/// Contracts see the cell.
#[derive(Clone, Copy, Debug)]
pub struct GridCell {
    column: u32,
    line: u32,
}

impl Model for GridCell {
    ghost use Rattle.std.specs.Prelude.{pos, unsigned_abs};
    ghost use Rattle.rule_store.specs.Cells.{cell_with};
    ghost use Rattle.track_types.specs.declared.cell.Cell.{Cell};

    ghost Value = { Cell };

    ghost view = { λ it. cell_with (pos it.column) (pos it.line) };

    ghost inverse = { λ cell. record {
      column = unsigned_abs cell.x;
      line = unsigned_abs cell.y;
    } };
}

impl GridCell {
    /// Packs a cell of a grid: its column and its line are not negative, and below 2^32.
    pub fn pack(cell: Cell) -> GridCell
        requires column { IsWord cell.x }
        requires line { IsWord cell.y }
        ensures { result ≡ cell }
    {
        GridCell {
            column: cell.x as u32,
            line: cell.y as u32,
        }
    }

    /// The cell.
    pub fn unpack(self) -> Cell
        ensures value { result ≡ self }
        ensures column { IsWord result.x }
        ensures line { IsWord result.y }
    {
        Cell {
            x: i64::from(self.column),
            y: i64::from(self.line),
        }
    }
}
