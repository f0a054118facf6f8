use crate::cell::Cell;

/// An object that is among the nearest to a cell at an instant.
#[derive(Clone, Copy, Debug, PartialEq, Eq)]
pub struct Near {
    /// The object's number, 0 to 2^32 - 1.
    pub object: u32,
    pub cell: Cell,
    /// The square of the Euclidean distance of the two cells.
    pub dist2: u128,
}
