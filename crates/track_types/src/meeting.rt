use crate::cell::Cell;

/// The first instant of a window at which two objects are within a distance of each other, and the
/// cell of each at that instant.
#[derive(Clone, Copy, Debug, PartialEq, Eq)]
pub struct Meeting {
    pub instant: i64,
    pub left: Cell,
    pub right: Cell,
}
