use track_types::CellBox;

/// The summary of a symbol: what is known of its expansion without expanding it.
#[derive(Clone, Copy, Debug, PartialEq, Eq)]
pub struct Entry {
    pub symbol: u32,
    /// How many instants it stands for.
    pub duration: u32,
    /// How many cells it moves to the right in all.
    pub dx: i64,
    /// How many cells it moves up in all.
    pub dy: i64,
    /// The least box round the cells in which the object is present (its minimum bounding
    /// rectangle), from a start at (0, 0) that is not itself counted. `None` if and only if all of
    /// its instants are absences.
    pub hull: Option<CellBox>,
}
