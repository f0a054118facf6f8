use crate::cell::Cell;

/// A row of a chart: the cell in which an object was at an instant.
#[derive(Clone, Copy, Debug, PartialEq, Eq)]
pub struct Row {
    /// The object's number, 0 to 2^32 - 1.
    pub object: u32,
    pub instant: i64,
    pub cell: Cell,
}
