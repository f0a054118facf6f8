/// What a chart and its index are, in eleven numbers.
#[derive(Clone, Copy, Debug, PartialEq, Eq)]
pub struct Facts {
    /// How many objects are listed.
    pub objects: u32,
    /// The first instant.
    pub first: i64,
    /// The last instant.
    pub last: i64,
    /// Instants of a period.
    pub period: u32,
    /// Units of a cell.
    pub cell: u64,
    /// Units of an instant.
    pub tick: u64,
    /// The height of the trees.
    pub height: u32,
    /// How many values the alphabet has.
    pub alphabet: u32,
    /// How many rules the grammar has.
    pub rules: u32,
    /// The length of all stored logs together.
    pub entries: u32,
    /// The height of the grammar, 0 without rules.
    pub depth: u32,
}
