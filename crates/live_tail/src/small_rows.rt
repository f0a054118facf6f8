ghost use Rattle.std.specs.Prelude.{◌≡◌, ◌==◌, ◌∷◌, ◌+ℤ◌, pos, [], IfNone, IfSome, drop, filter, length, take};
ghost use Rattle.std.specs.List.{list_any};
ghost use Rattle.std.specs.List.Sorted.{IsSorted};
ghost use Rattle.track_types.specs.ByFilter.{cell_at};
ghost use Rattle.track_types.specs.Row.{IsAscending};
ghost use Rattle.track_types.specs.declared.row.Row.{Row as RowView};

use crate::small_row::{Origin, SmallRow};
use track_types::{Cell, Row};

/// Rows that stand together, as small ones.
#[derive(Clone, Copy)]
pub struct SmallRows<'a> {
    pub origin: Origin,
    pub rows: &'a [SmallRow],
}

impl<'a> SmallRows<'a> {
    ghost use Rattle.live_tail.specs.ByInstant.{instant_order};
    ghost use Rattle.live_tail.specs.Cost.{rows_between};
    ghost use Rattle.live_tail.specs.SmallRows.{rows_from, rows_in};

    /// How many rows there are.
    pub fn len(self) -> usize
        ensures { result ≡ length (rows_in self.entry) }
    {
        self.rows.len()
    }

    /// Takes the first row off, if there is one.
    pub fn take_first(&mut self) -> Option<Row>
        ensures some { IfSome result (λ row. rows_in self.old ≡ row ∷ rows_in self.new) }
        ensures none { IfNone result (rows_in self.old ≡ []) }
        ensures left { IfNone result (rows_in self.new ≡ []) }
    {
        let (first, behind) = self.rows.split_first()?;
        self.rows = behind;
        Some(self.origin.row(first))
    }

    /// The first of the rows, as many as there are but at most `count`, and those behind.
    pub fn cut(self, count: usize) -> (SmallRows<'a>, SmallRows<'a>)
        ensures front { rows_in result.0 ≡ take count (rows_in self.entry) }
        ensures back { rows_in result.1 ≡ drop count (rows_in self.entry) }
    {
        let (front, behind) = self.rows.split_at(self.rows.len().min(count));
        (self.part(front), self.part(behind))
    }

    /// The rows from one instant to another, both counted, among rows by instant.
    pub fn between(self, from: i64, to: i64) -> SmallRows<'a>
        requires { IsSorted instant_order (rows_in self) }
        ensures { rows_in result ≡ rows_between (rows_in self.entry) from to }
    {
        let origin = self.origin;
        let behind = self
            .rows
            .partition_point(|small| origin.instant_of(small) <= to);
        let before = &self.rows[..behind];
        let begin = before.partition_point(|small| origin.instant_of(small) < from);
        self.part(&before[begin..])
    }

    /// The rows of an object.
    pub fn of_object(self, object: u32) -> SmallRows<'a>
        requires { IsAscending (rows_in self) }
        ensures { rows_in result ≡ filter (λ (row : RowView). object == row.object) (rows_in self.entry) }
    {
        let behind = self.rows.partition_point(|small| small.object <= object);
        let before = &self.rows[..behind];
        let begin = before.partition_point(|small| small.object < object);
        self.part(&before[begin..])
    }

    /// Whether one of the rows is of an object.
    pub fn has_object(self, object: u32) -> bool
        requires { IsAscending (rows_in self) }
        ensures { result ≡ list_any (λ (row : RowView). object == row.object) (rows_in self.entry) }
    {
        self.rows
            .binary_search_by_key(&object, |small| small.object)
            .is_ok()
    }

    /// The cell of the row of an object and of the instant that is so far behind the origin's. There is none if and
    /// only if there is no such row.
    pub fn cell_at(self, object: u32, distance: u32) -> Option<Cell>
        requires { IsAscending (rows_in self) }
        ensures { result ≡ cell_at (rows_in self.entry) object (self.entry.origin.instant +ℤ pos distance) }
    {
        let found = self
            .rows
            .binary_search_by_key(&(object, distance), |small| {
                (small.object, small.instant)
            });
        match found {
            Ok(place) => {
                let small = self.rows[place];
                Some(self.origin.row(&small).cell)
            }
            Err(_place) => None,
        }
    }

    // A part of the rows.
    fn part(self, rows: &'a [SmallRow]) -> SmallRows<'a>
        ensures { rows_in result ≡ rows_from self.entry.origin rows.now }
    {
        SmallRows {
            origin: self.origin,
            rows,
        }
    }
}
