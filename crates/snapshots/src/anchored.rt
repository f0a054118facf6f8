use track_types::Cell;

/// The block of an object in a period: where it stands first, and where its log is.
#[derive(Clone, Copy, Debug, PartialEq, Eq)]
pub struct Anchored {
    /// The object's place among all objects of the index, from 0.
    pub index: u32,
    /// How many instants its anchor, which is its first row in the period, is after the period's
    /// first.
    pub offset: u32,
    /// The cell of the anchor.
    pub cell: Cell,
    /// Where its log begins among all symbols.
    pub from: u32,
    /// How many symbols its log has.
    pub len: u32,
}
