use crate::cell::Cell;
use crate::cell_box::CellBox;
use crate::spelling::Spelling;
use crate::timeline::Timeline;

/// The header of an index: where its instants and its cells begin, how far they reach, and how they
/// were made.
///
/// It promises nothing by itself. `IsFrame` in specs/ states the ranges of its fields; how many
/// blocks an index may have, objects times periods, is no part of them.
#[derive(Clone, Copy, Debug, PartialEq, Eq)]
pub struct Frame {
    /// The version of the format that the index is written in: 1 to `MAX_VERSION`.
    pub version: u32,
    /// The first instant: at most `MAX_PLACE` away from 0, and so is the last one.
    pub first: i64,
    /// Instants from the first to the last, both counted: 1 to `MAX_SPAN`.
    pub span: u32,
    /// Instants of a period: 1 to `MAX_PERIOD`. The last period ends with the span.
    pub period: u32,
    /// The grid of cells has the side 2^height: 1 to the greatest height of its spelling.
    pub height: u32,
    /// The least cell of the grid. Its coordinates are at most `MAX_PLACE` away from 0.
    pub base: Cell,
    /// Units of a cell: 1 to `MAX_RESOLUTION`.
    pub cell: u64,
    /// Units of an instant: 1 to `MAX_RESOLUTION`.
    pub tick: u64,
}

impl Frame {
    ghost use Rattle.std.specs.Prelude.{◌≡◌};
    ghost use Rattle.track_types.specs.Frame.{grid_of, wide_of, IsFrame};
    ghost use Rattle.track_types.specs.Near.{IsBoxWithin};
    ghost use Rattle.track_types.specs.Spelling.{spelling_of};

    /// How its version writes an index file.
    pub fn spelling(&self) -> Spelling
        ensures { result ≡ spelling_of self.now.version }
    {
        Spelling::of(self.version)
    }

    /// How many levels of a period's tree, from the top, split a square in sixteen. The others split
    /// it in four. It takes no memory.
    pub fn wide_levels(&self) -> u32
        ensures { result ≡ wide_of self.now }
    {
        self.spelling().wide_levels(self.height)
    }

    /// Its instants and periods.
    pub fn timeline(&self) -> Timeline
        requires { IsFrame self.now }
        ensures first { result.first ≡ self.now.first }
        ensures span { result.span ≡ self.now.span }
        ensures period { result.period ≡ self.now.period }
    {
        Timeline {
            first: self.first,
            span: self.span,
            period: self.period,
        }
    }

    /// All cells of its grid.
    pub fn grid(&self) -> CellBox
        requires { IsFrame self.now }
        ensures value { result ≡ grid_of self.now }
        ensures within { IsBoxWithin result }
    {
        let far = (1 << self.height) - 1;
        CellBox {
            x1: self.base.x,
            y1: self.base.y,
            x2: self.base.x + far,
            y2: self.base.y + far,
        }
    }
}
