ghost use Rattle.std.specs.Prelude.{◌≡◌, ◌≤◌, ◌≤ℤ◌, ◌+ℤ◌, All, drop, length, pos, sum_by};
ghost use Rattle.std.specs.List.{prefix_len};
ghost use Rattle.gridding.specs.BlockRange.{BeginsBlock, IsInSpan, block_of_row, is_of_block};
ghost use Rattle.track_types.specs.Limits.{limit_of};
ghost use Rattle.track_types.specs.Quantities.{anchors_of, log_length};
ghost use Rattle.track_types.specs.Row.{IsAscending};

use track_types::{LimitKind, Row, Timeline};

/// Which rows a block has: those of an object in one period.
#[derive(Clone, Copy)]
pub struct BlockRange {
    pub object: u32,
    /// The first instant after the period.
    pub end: i64,
}

impl BlockRange {
    fn contains(self, row: &Row) -> bool
        ensures { result ≡ is_of_block self row.now }
    {
        self.object == row.object && row.instant < self.end
    }
}

/// How many terminals the logs of all blocks have, for rows in order: one for each instant of a block's
/// period after the block's first row.
///
/// Rows ascend, so that a block's rows stand together. Only its first row takes divisions, and a search finds
/// where they end.
pub fn symbol_count(rows: &[Row], timeline: Timeline) -> u64
    requires ascending { IsAscending rows.now }
    requires few { length rows.now ≤ limit_of LimitKind.Rows }
    requires in_span { All (IsInSpan timeline.first timeline.span) rows.now }
    ensures { result ≡ sum_by (log_length timeline.first timeline.span timeline.period)
        (anchors_of timeline.first timeline.period rows.now) }
{
    let mut count = 0;
    let mut left = rows;
    while let [anchor, ..] = left {
        count += u64::from(timeline.log_length(anchor.instant));
        left = after_block(left, block_of(anchor, timeline), timeline.period);
    }
    count
}

// The rows after the first block of rows in order. An object has at most one row in an instant, so that the block
// has no more rows than a period has instants.
fn after_block<'a>(rows: &'a [Row], block: BlockRange, period: u32) -> &'a [Row]
    requires ascending { IsAscending rows.now }
    requires begins { BeginsBlock block period rows.now }
    ensures { result.now ≡ drop (prefix_len (is_of_block block) rows.now) rows.now }
{
    let most = rows.len().min(period as usize);
    let length = rows[..most].partition_point(|row| block.contains(row));
    &rows[length..]
}

// The block of an anchor.
fn block_of(anchor: &Row, timeline: Timeline) -> BlockRange
    requires { IsInSpan timeline.first timeline.span anchor.now }
    ensures exact { result ≡ block_of_row timeline.first timeline.period anchor.now }
    ensures begins { result.end ≤ℤ (anchor.now.instant +ℤ pos timeline.period) }
{
    let period = timeline.period_at(anchor.instant);
    BlockRange {
        object: anchor.object,
        end: timeline.first_of(period) + i64::from(timeline.period),
    }
}
