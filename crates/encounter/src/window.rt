ghost use Rattle.std.specs.Prelude.{◌≡◌, ◌≤◌, IfSome, ◌+ℤ◌, pos};
ghost use Rattle.std.specs.Int.{int_max, int_min};
ghost use Rattle.std.specs.Int.Signed.{le_z};
ghost use Rattle.track_types.specs.Near.{IsBoxWithin};
ghost use Rattle.track_types.specs.declared.limit.TheConstants.{MAX_REACH};
ghost use Rattle.encounter.specs.Span.{is_close};

use crate::block_node::BlockNode;
use crate::nearness::are_near;

/// A window of instants, whose ends count, and a distance in cells.
#[derive(Clone, Copy)]
pub struct Window {
    pub from: i64,
    pub to: i64,
    pub reach: u64,
}

impl Window {
    ghost use Rattle.encounter.specs.NodeSpan.{span_of_node};

    /// Whether two nodes may have a meeting: an instant of the window in common, and boxes within the
    /// distance.
    pub fn may_meet(&self, left: &BlockNode, right: &BlockNode) -> bool
        requires reach { self.now.reach ≤ MAX_REACH }
        requires left { IfSome left.now.area IsBoxWithin }
        requires right { IfSome right.now.area IsBoxWithin }
        ensures { result ≡ is_close self.now.from self.now.to self.now.reach
            (span_of_node left.now) (span_of_node right.now) }
    {
        let later = left.begin.max(right.begin);
        let sooner = left.end.min(right.end);
        are_common(self.from, self.to, later, sooner) && are_near(self.reach, left.area, right.area)
    }
}

// Whether some instant of a window is after one and not after another. A window may be empty.
fn are_common(from: i64, to: i64, later: i64, sooner: i64) -> bool
    ensures { result ≡ le_z (int_max from (later +ℤ pos 1)) (int_min to sooner) }
{
    from <= to && from <= sooner && later < to && later < sooner
}
