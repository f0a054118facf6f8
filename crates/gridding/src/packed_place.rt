ghost use Rattle.std.specs.Prelude.{◌≡◌, ◌<◌, ◌+ℤ◌, pos, IfNone, IfSome};
ghost use Rattle.gridding.specs.Origin.{IsOneOf, IsOrigin};
ghost use Rattle.gridding.specs.declared.packed_place.TheConstants.{INSTANTS};
ghost use Rattle.track_types.specs.Near.{IsNear, IsRowInRange, IsWithin};

use track_types::{Cell, MAX_SPAN, Row};

/// How many instants a place has room for: as many as a chart may have.
pub const INSTANTS: u64 = MAX_SPAN;

/// How many of these come before the first row's. Most files begin with an early row.
const INSTANTS_BEFORE: i64 = INSTANTS as i64 / 32;

/// How many cells a place has room for along each axis, 2^21: what 64 bits leave beside the instants. A chart may have
/// more of them.
const CELLS: u64 = 2_097_152;

/// How many of these come before the first row's.
const CELLS_BEFORE: i64 = CELLS as i64 / 2;

/// An instant and a cell in 8 bytes, counted from an origin.
#[derive(Clone, Copy, Default)]
pub struct PackedPlace {
    bits: u64,
}

impl PackedPlace {
    ghost use Rattle.gridding.specs.PackedPlace.{elapsed_of};

    /// How many instants it is after its origin's.
    #[inline]
    pub fn elapsed(self) -> u64
        ensures exact { result ≡ elapsed_of self }
        ensures within { result < INSTANTS }
    {
        self.bits / (CELLS * CELLS)
    }
}

/// The instant and the cell from which those of places are counted.
#[derive(Clone, Copy)]
pub struct Origin {
    instant: i64,
    cell: Cell,
    ghost instant_near: { IsOrigin instant },
    ghost x_near: { IsOrigin cell.x },
    ghost y_near: { IsOrigin cell.y },
}

impl Origin {
    ghost use Rattle.gridding.specs.PackedPlace.{HasPlace, packed_row};

    /// The origin of places around that of a first row.
    pub fn around(first: Row) -> Self
        requires { IsRowInRange first }
        ensures { HasPlace result first }
    {
        Origin {
            instant: first.instant - INSTANTS_BEFORE,
            cell: Cell {
                x: first.cell.x - CELLS_BEFORE,
                y: first.cell.y - CELLS_BEFORE,
            },
        }
    }

    /// The origin of the same cells, with so many instants before one.
    pub fn reaching(self, instant: i64, before: u64) -> Self
        requires instant { IsNear instant }
        requires before { before < INSTANTS }
        ensures exact { (result.instant +ℤ pos before) ≡ instant }
        ensures counted { IsOneOf result.instant INSTANTS instant }
        ensures cell { result.cell ≡ self.cell }
    {
        Origin {
            instant: instant - before as i64,
            cell: self.cell,
        }
    }

    /// The place of a row, or none where it is too far away.
    #[inline]
    pub fn place(self, row: Row) -> Option<PackedPlace>
        requires instant { IsWithin row.instant }
        requires x { IsWithin row.cell.x }
        requires y { IsWithin row.cell.y }
        ensures some { IfSome result (λ place. packed_row self row.object place ≡ row) }
        ensures near { IfSome result (λ _. HasPlace self row) }
        ensures none { IfNone result (HasPlace self row → ⊥) }
    {
        let instant = offset(self.instant, INSTANTS, row.instant)?;
        let x = offset(self.cell.x, CELLS, row.cell.x)?;
        let y = offset(self.cell.y, CELLS, row.cell.y)?;
        Some(PackedPlace {
            bits: (instant * CELLS + x) * CELLS + y,
        })
    }

    /// The row of an object at a place.
    #[inline]
    pub fn row(self, object: u32, place: PackedPlace) -> Row
        ensures row { result ≡ packed_row self object place }
        ensures instant { IsWithin result.instant }
        ensures x { IsWithin result.cell.x }
        ensures y { IsWithin result.cell.y }
    {
        Row {
            object,
            instant: self.instant + place.elapsed() as i64,
            cell: Cell {
                x: self.cell.x + (place.bits / CELLS % CELLS) as i64,
                y: self.cell.y + (place.bits % CELLS) as i64,
            },
        }
    }
}

// How far a number is past the least of so many, if it is one of them.
#[inline]
fn offset(least: i64, count: u64, number: i64) -> Option<u64>
    requires least { IsOrigin least }
    requires number { IsWithin number }
    ensures some { IfSome result (λ offset. (offset < count) × (least +ℤ pos offset ≡ number)) }
    ensures none { IfNone result (IsOneOf least count number → ⊥) }
{
    let offset = number - least;
    if offset < 0 || offset as u64 >= count {
        return None;
    }
    Some(offset as u64)
}
