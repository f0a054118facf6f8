ghost use Rattle.std.specs.Prelude.{◌≡◌, ◌≤◌, All};
ghost use Rattle.gract_top.specs.Summary.{IsSlotless, counted_questions};

use track_types::{Cell, Question, Region};

/// The lower left quarter of a sample's grid, whose side is 1,024.
const LOWER_QUARTER: Region = Region::Rect {
    x1: 0,
    y1: 0,
    x2: 511,
    y2: 511,
};

/// The cells about the middle of the grid.
const MIDDLE: Region = Region::Disc {
    x: 512,
    y: 512,
    r: 100,
};

// The questions whose replies are counted, of a sample of so many instants.
pub(crate) fn counted_questions(instants: u32) -> [Question; 5]
    requires { 1 ≤ instants }
    ensures value { result ≡ counted_questions instants }
    ensures counted { All IsSlotless result }
{
    let last = instants - 1;
    let middle = i64::from((instants / 2).min(last));
    let last = i64::from(last);
    [
        Question::Position {
            object: 0,
            instant: middle,
        },
        Question::Path {
            object: 0,
            from: 0,
            to: last,
        },
        Question::Slice {
            instant: middle,
            region: LOWER_QUARTER,
        },
        Question::Interval {
            from: 0,
            to: last,
            region: MIDDLE,
        },
        Question::Nearest {
            count: 5,
            instant: last,
            cell: Cell { x: 512, y: 512 },
        },
    ]
}
