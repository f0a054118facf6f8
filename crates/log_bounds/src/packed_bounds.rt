ghost use Rattle.std.specs.Prelude.{◌≡◌};
ghost use Rattle.log_bounds.specs.Bounds.{IsPackable};

use crate::bounds::LogBounds;
use std::marker::Model;
use track_types::{Cell, CellBox};

/// The bounds of a log in 28 bytes. The cells are those of a grid, counted from its base.
///
/// Contracts see the bounds.
#[derive(Clone, Copy, Debug)]
pub struct PackedBounds {
    // The cell of the anchor.
    column: u32,
    line: u32,
    speed: u32,
    // The least corner of the box, and how many columns and lines more there are.
    x: u32,
    y: u32,
    columns: u32,
    lines: u32,
}

impl Model for PackedBounds {
    ghost use Rattle.std.specs.Prelude.{pos, unsigned_abs};
    ghost use Rattle.rule_store.specs.Cells.{cell_with};
    ghost use Rattle.log_bounds.specs.declared.bounds.LogBounds.{LogBounds};
    ghost use Rattle.log_bounds.specs.Packed.{far_to, packed-inside, reaching_box, IsShort};

    ghost Value = { LogBounds };

    ghost view = { λ p. record {
      from = cell_with (pos p.column) (pos p.line);
      speed = p.speed;
      area = reaching_box p.x p.y p.columns p.lines;
    } };

    ghost invariant = { λ p. IsShort p.x p.y p.columns p.lines };

    ghost inverse = { λ bounds. record {
      column = unsigned_abs bounds.from.x;
      line = unsigned_abs bounds.from.y;
      speed = bounds.speed;
      x = unsigned_abs bounds.area.x1;
      y = unsigned_abs bounds.area.y1;
      columns = far_to bounds.area.x1 bounds.area.x2;
      lines = far_to bounds.area.y1 bounds.area.y2;
    } };

    ghost inverse_ok = { packed-inside };
}

impl PackedBounds {
    /// Packs bounds in a grid: the speed and the coordinates are below 2^32, and none is negative.
    pub fn pack(bounds: LogBounds) -> PackedBounds
        requires { IsPackable bounds }
        ensures { result ≡ bounds }
    {
        let LogBounds { from, area, .. } = bounds;
        PackedBounds {
            column: from.x as u32,
            line: from.y as u32,
            speed: bounds.speed as u32,
            x: area.x1 as u32,
            y: area.y1 as u32,
            columns: (area.x2 - area.x1) as u32,
            lines: (area.y2 - area.y1) as u32,
        }
    }

    /// The bounds.
    pub fn unpack(self) -> LogBounds
        ensures value { result ≡ self }
        ensures within { IsPackable result }
    {
        let x = i64::from(self.x);
        let y = i64::from(self.y);
        LogBounds {
            from: Cell {
                x: i64::from(self.column),
                y: i64::from(self.line),
            },
            speed: u64::from(self.speed),
            area: CellBox {
                x1: x,
                y1: y,
                x2: x + i64::from(self.columns),
                y2: y + i64::from(self.lines),
            },
        }
    }
}
