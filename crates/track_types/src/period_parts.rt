use crate::lists::List32;
use packed_bits::BitList;

/// What an index holds of one period, but for the logs. The lists promise nothing by themselves.
#[derive(Debug, Drop)]
pub struct PeriodParts {
    /// A bit for each object: whether it has a block, and so is present in the period.
    pub present: BitList,
    /// How many instants each present object's anchor is after the period's first, by object.
    pub offsets: List32,
    /// The bits of the k2-tree of the anchors' cells.
    pub tree: BitList,
    /// A bit for each present object in leaf order: 1 at the last object of each cell.
    pub lasts: BitList,
    /// For each place in leaf order the place of its object among the present ones.
    pub perm: List32,
    /// How many symbols each present object's log has, by object.
    pub lengths: List32,
}
