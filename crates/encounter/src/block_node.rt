use track_types::{Cell, CellBox};

/// A node of a block's parse trees, or its anchor: a rule, a terminal, or the anchor's one stop.
#[derive(Clone, Copy)]
pub struct BlockNode {
    /// The instant before its first.
    pub begin: i64,
    /// Its last instant.
    pub end: i64,
    /// The cell to which it leads.
    pub cell: Cell,
    /// The least box round its cells; none where the object is absent at all of its instants.
    pub area: Option<CellBox>,
    /// Whether it is a rule, which has two parts.
    pub opens: bool,
}
