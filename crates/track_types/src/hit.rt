use crate::cell::Cell;

/// The first instant of a window at which an object was in a region, and its cell there.
#[derive(Clone, Copy, Debug, PartialEq, Eq)]
pub struct Hit {
    /// The object's number, 0 to 2^32 - 1.
    pub object: u32,
    pub instant: i64,
    pub cell: Cell,
}
