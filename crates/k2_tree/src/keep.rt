ghost use Rattle.std.specs.Prelude.{◌≡◌, Bool};
ghost use Rattle.track_types.specs.Near.{IsBoxWithin};
ghost use Rattle.track_types.specs.declared.cell_box.CellBox.{CellBox};

use track_types::CellBox;

/// A test of boxes, by which a walk over a tree skips squares.
///
/// Its meaning, `keeps`, says of each box whether it is kept. The value and the box determine it.
pub trait Keep {
    ghost keeps: { Self → CellBox → Bool };

    /// Whether a box is kept. All of its bounds are at most `MAX_REACH` away from 0. It takes no
    /// memory.
    fn keep(&self, area: &CellBox) -> bool
        requires { IsBoxWithin area.now }
        ensures { result ≡ keeps self.now area.now };
}
