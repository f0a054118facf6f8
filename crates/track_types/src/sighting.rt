use crate::cell::Cell;

/// An object that was in a region at an instant, and its cell there.
#[derive(Clone, Copy, Debug, PartialEq, Eq)]
pub struct Sighting {
    /// The object's number, 0 to 2^32 - 1.
    pub object: u32,
    pub cell: Cell,
}
