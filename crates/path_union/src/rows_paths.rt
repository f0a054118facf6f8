ghost use Rattle.std.specs.Prelude.{◌≡◌, ◌≤◌, nat_le, true, false, length};
ghost use Rattle.std.specs.List.Sorted.{IsPartitionPoint};
ghost use Rattle.track_types.specs.Row.{IsAscending};
ghost use Rattle.track_types.specs.declared.row.Row.{Row as RowView};
ghost use Rattle.path_union.specs.Paths.{first_object};

use crate::paths::Paths;
use crate::rows_walk::RowsWalk;
use std::alloc::Global;
use std::marker::Model;
use track_types::{Memory, Row};

/// The paths of rows, which are at hand. Contracts see the rows that are still to come.
#[derive(Drop)]
pub struct RowsPaths<'a> {
    rows: &'a [Row],
}

impl<'a> Model for RowsPaths<'a> {
    ghost use Rattle.std.specs.Prelude.{List};
    ghost use Rattle.track_types.specs.Row.{IsAscending};
    ghost use Rattle.track_types.specs.declared.row.Row.{Row};

    ghost Value = { List Row };

    ghost view = { λ p. p.rows.now };

    ghost invariant = { λ p. IsAscending p.rows.now };
}

impl<'a> RowsPaths<'a> {
    /// The paths of these rows. It takes no memory.
    pub fn of(rows: &'a [Row]) -> RowsPaths<'a>
        requires { IsAscending rows.now }
        ensures { result ≡ rows.now }
    {
        RowsPaths { rows }
    }
}

impl<'a> Paths for RowsPaths<'a> {
    ghost use Rattle.std.specs.Prelude.{length};
    ghost use Rattle.path_union.specs.Paths.{first_object};

    type Walk = RowsWalk<'a>;

    ghost rows = { λ p. p };

    ghost next = { λ p. first_object p };

    ghost budget = { λ p. 0 };

    ghost reads_past = { λ p _. 0 };

    ghost count = { λ p. length p };

    fn object(&self) -> Option<u32> {
        first_object(self.rows)
    }

    fn take_path(&mut self, _alloc: Global, object: u32) -> Result<RowsWalk<'a>, Memory> {
        let (path, rest) = self.rows.split_at(path_end(self.rows, object));
        self.rows = rest;
        Ok(RowsWalk::over(path))
    }
}

// The object of the first row, if there is one.
fn first_object(rows: &[Row]) -> Option<u32>
    ensures { result ≡ first_object rows.now }
{
    match rows.first() {
        Some(row) => Some(row.object),
        None => None,
    }
}

// Where the rows of greater objects begin.
fn path_end(rows: &[Row], object: u32) -> usize
    requires { IsAscending rows.now }
    ensures bound { result ≤ length rows.now }
    ensures parted { IsPartitionPoint (λ (row : RowView). nat_le row.object object ≡ true)
        (λ (row : RowView). nat_le row.object object ≡ false) rows.now result }
{
    rows.partition_point(|row| row.object <= object)
}
