ghost use Rattle.std.specs.Prelude.{◌≡◌, ℕ, List, ◌++◌, ◌∷◌, [], ◌+◌, ◌*◌, ◌≤◌, map, IfSome};
ghost use Rattle.spiral_code.specs.Spiral.{square};
ghost use Rattle.track_types.specs.Near.{IsBoxWithin, IsWithin};
ghost use Rattle.track_types.specs.declared.cell.Cell.{Cell};
ghost use Rattle.track_types.specs.declared.limit.TheConstants.{MAX_HEIGHT};
ghost use Rattle.rule_store.specs.Cells.{moved};
ghost use Rattle.rule_store.specs.Boxes.{box_round};
ghost use Rattle.rule_store.specs.Entry.{entry_with};
ghost use Rattle.rule_store.specs.Flaws.{reach_limit};
ghost use Rattle.rule_store.specs.Stored.{IsPackedEntry};

use crate::entry::Entry;
use crate::packed_entry::PackedEntry;
use spiral_code::decode_move;
use track_types::{Cell, CellBox};

/// The entry of a terminal: an absence, or the movement of a code.
pub(crate) fn terminal_entry(symbol: u32, value: u64) -> Entry
    requires { value ≤ square (2 * reach_limit MAX_HEIGHT + 1) }
    ensures { result ≡ entry_with symbol (value ∷ []) }
{
    if value == 0 {
        return Entry {
            symbol,
            duration: 1,
            dx: 0,
            dy: 0,
            hull: None,
        };
    }
    let (dx, dy) = decode_move(value - 1);
    let hull = CellBox::of(Cell { x: dx, y: dy });
    Entry {
        symbol,
        duration: 1,
        dx,
        dy,
        hull: Some(hull),
    }
}

/// The entry of a rule, from those of its parts.
///
/// The right part begins where the left one leads, so its box is moved by the left displacement.
pub(crate) fn join(symbol: u32, left: PackedEntry, right: PackedEntry) -> Entry
    ensures { (lefts rights : List ℕ) → IsPackedEntry lefts left → IsPackedEntry rights right
        → result ≡ entry_with symbol (lefts ++ rights) }
{
    let (x, y) = left.displacement();
    let (dx, dy) = right.displacement();
    Entry {
        symbol,
        duration: left.duration + right.duration,
        dx: x + dx,
        dy: y + dy,
        hull: join_boxes(left.hull.unpack(), shift(right.hull.unpack(), x, y)),
    }
}

// A box moved by a displacement.
fn shift(hull: Option<CellBox>, dx: i64, dy: i64) -> Option<CellBox>
    requires within { IfSome hull IsBoxWithin }
    requires right { IsWithin dx }
    requires up { IsWithin dy }
    ensures { (cells : List Cell) → hull ≡ box_round cells
        → result ≡ box_round (map (λ cell. moved cell (dx, dy)) cells) }
{
    match hull {
        Some(hull) => Some(hull.moved(Cell { x: dx, y: dy })),
        None => None,
    }
}

// The least box round two boxes.
fn join_boxes(left: Option<CellBox>, right: Option<CellBox>) -> Option<CellBox>
    ensures { (lefts rights : List Cell) → left ≡ box_round lefts → right ≡ box_round rights
        → result ≡ box_round (lefts ++ rights) }
{
    match (left, right) {
        (Some(a), Some(b)) => Some(a.joined(&b)),
        (Some(_), None) => left,
        (None, _) => right,
    }
}
