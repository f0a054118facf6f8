ghost use Rattle.std.specs.Prelude.{◌≡◌, Bool};
ghost use Rattle.track_types.specs.Near.{IsBoxWithin};
ghost use Rattle.track_types.specs.declared.cell_box.CellBox.{CellBox};
ghost use Rattle.box_tree.specs.Tests.{AreMonotone};

use track_types::CellBox;

/// What a walk asks of squares and of boxes.
///
/// A square is given as the box of its cells. Both tests are true of a box where they are true of one
/// within it, so that what fails them may be skipped with all that lies in it.
pub trait Search {
    ghost squares: { Self → CellBox → Bool };

    ghost boxes: { Self → CellBox → Bool };

    /// Whether a square may hold the cell of a place that is sought. It takes no memory.
    fn meets_square(&self, area: &CellBox) -> bool
        requires { IsBoxWithin area.now }
        ensures { result ≡ squares self.now area.now };

    /// Whether the box of a place that is sought may lie in a box. It takes no memory.
    fn meets_box(&self, area: &CellBox) -> bool
        requires { IsBoxWithin area.now }
        ensures { result ≡ boxes self.now area.now };

    ghost monotone: { (search : Self) → AreMonotone (squares search) (boxes search) };
}
