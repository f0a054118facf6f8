use crate::stored::Stored;
use log_bounds::PackedBounds;
use rule_store::EntryTable;

/// What an index file stores, and what was found of it on the way.
///
/// `decode` says what the bounds and the entries are.
#[derive(Drop)]
pub struct Decoded {
    /// What the file stores.
    pub stored: Stored,
    /// Of an outline, the bounds of the log of each block, in the order of the blocks. They begin at the cell of the block's
    /// anchor, and are counted from the base as it is. Parts have none.
    pub bounds: Vec<PackedBounds>,
    /// The entries of an outline's symbols. For parts there are none.
    pub table: EntryTable,
}
