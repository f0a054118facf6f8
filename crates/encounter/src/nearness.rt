ghost use Rattle.std.specs.Prelude.{◌≡◌, ◌≤◌, ◌^◌, IfSome, ◌≤ℤ◌};
ghost use Rattle.track_types.specs.Near.{IsBoxWithin, IsWithin};
ghost use Rattle.track_types.specs.declared.limit.TheConstants.{MAX_REACH};
ghost use Rattle.encounter.specs.Span.{are_near, box_distance, gap_of};

use track_types::CellBox;

/// Whether there are two boxes, within a distance of each other.
pub fn are_near(reach: u64, left: Option<CellBox>, right: Option<CellBox>) -> bool
    requires reach { reach ≤ MAX_REACH }
    requires left { IfSome left IsBoxWithin }
    requires right { IfSome right IsBoxWithin }
    ensures { result ≡ are_near reach left right }
{
    match (left, right) {
        (Some(area), Some(other)) => {
            box_distance(&area, &other) <= u128::from(reach) * u128::from(reach)
        }
        _ => false,
    }
}

// The least squared distance of a cell of one box and a cell of another (MINDIST).
fn box_distance(area: &CellBox, other: &CellBox) -> u128
    requires one { IsBoxWithin area.now }
    requires other { IsBoxWithin other.now }
    ensures { result ≡ box_distance area.now other.now }
{
    let x = gap(area.x1, area.x2, other.x1, other.x2);
    let y = gap(area.y1, area.y2, other.y1, other.y2);
    u128::from(x) * u128::from(x) + u128::from(y) * u128::from(y)
}

// How far two ranges of numbers are apart.
fn gap(low: i64, high: i64, first: i64, last: i64) -> u64
    requires low { IsWithin low }
    requires high { IsWithin high }
    requires first { IsWithin first }
    requires last { IsWithin last }
    requires wide { low ≤ℤ high }
    requires long { first ≤ℤ last }
    ensures value { result ≡ gap_of low high first last }
    ensures within { result ≤ 2 ^ 43 }
{
    if high < first {
        first.abs_diff(high)
    } else if last < low {
        low.abs_diff(last)
    } else {
        0
    }
}
