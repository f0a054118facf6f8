use crate::cell::Cell;

/// A point of a track: the cell in which an object was at an instant.
#[derive(Clone, Copy, Debug, PartialEq, Eq)]
pub struct Stop {
    pub instant: i64,
    pub cell: Cell,
}
