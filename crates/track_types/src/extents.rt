ghost use Rattle.std.specs.Prelude.{◌≡◌, ◌+◌, ◌∷◌, ◌++◌, ◌-ℤ◌, List, [], unsigned_abs};
ghost use Rattle.track_types.specs.Near.{IsNear};
ghost use Rattle.track_types.specs.Quantities.{extent_of, span_of};
ghost use Rattle.track_types.specs.declared.row.Row.{Row};

use crate::row::Row;

/// The least and the greatest of some numbers.
#[derive(Clone, Copy, Debug, PartialEq, Eq)]
pub struct Extent {
    pub least: i64,
    pub greatest: i64,
}

impl Extent {
    ghost use Rattle.track_types.specs.Extents.{no_extent, widened};

    /// The extent of no numbers.
    pub fn empty() -> Self
        ensures { result ≡ no_extent }
    {
        Extent {
            least: i64::MAX,
            greatest: i64::MIN,
        }
    }

    /// The extent, widened so that a number is in it.
    pub fn widened(self, number: i64) -> Self
        ensures { result ≡ widened self number }
    {
        Extent {
            least: self.least.min(number),
            greatest: self.greatest.max(number),
        }
    }

    /// How many whole numbers it has, both ends counted. These are at most 2^40 away from 0.
    pub fn width(self) -> u64
        requires least { IsNear self.least }
        requires greatest { IsNear self.greatest }
        ensures { result ≡ unsigned_abs (self.greatest -ℤ self.least) + 1 }
    {
        self.greatest.abs_diff(self.least) + 1
    }
}

/// The extents of rows: of their instants, and of the columns and the lines of their cells.
#[derive(Clone, Copy, Debug, PartialEq, Eq)]
pub struct Extents {
    pub time: Extent,
    pub columns: Extent,
    pub lines: Extent,
}

impl Extents {
    ghost use Rattle.track_types.specs.Extents.{AreExtentsOf, extents_over};

    /// The extents of no rows.
    pub fn empty() -> Self
        ensures { result ≡ extents_over [] }
    {
        Extents {
            time: Extent::empty(),
            columns: Extent::empty(),
            lines: Extent::empty(),
        }
    }

    /// The extents of the same rows and one more after them.
    pub fn with(self, row: &Row) -> Self
        ensures { (rows : List Row) → self ≡ extents_over rows → result ≡ extents_over (rows ++ (row.now ∷ [])) }
    {
        Extents {
            time: self.time.widened(row.instant),
            columns: self.columns.widened(row.cell.x),
            lines: self.lines.widened(row.cell.y),
        }
    }

    /// The extents of all these rows.
    pub fn of(rows: &[Row]) -> Self
        ensures { result ≡ extents_over rows.now }
    {
        let mut extents = Extents::empty();
        for row in rows {
            extents = extents.with(row);
        }
        extents
    }

    /// How many instants there are from the first to the last of some rows in range, both counted.
    pub fn span(self) -> u64
        requires { (rows : List Row) × AreExtentsOf rows self }
        ensures { (rows : List Row) → AreExtentsOf rows self → result ≡ span_of rows }
    {
        self.time.width()
    }

    /// How many cells there are from the least to the greatest along an axis of some rows in range, both
    /// counted: the greater of the two axes.
    pub fn width(self) -> u64
        requires { (rows : List Row) × AreExtentsOf rows self }
        ensures { (rows : List Row) → AreExtentsOf rows self → result ≡ extent_of rows }
    {
        let columns = self.columns.width();
        let lines = self.lines.width();
        columns.max(lines)
    }
}
