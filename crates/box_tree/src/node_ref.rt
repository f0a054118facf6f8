/// How many nodes the stack of a walk has room for.
pub const SLOTS: usize = 128;

/// A node of a tree, and its square.
#[derive(Clone, Copy, Debug, Default)]
pub struct NodeRef {
    pub(crate) node: u32,
    // How many levels stand below it, and how many digits these take: its side is 2^level.
    pub(crate) below: u32,
    pub(crate) level: u32,
    // How many squares of its size stand to the left of it and below it in the grid.
    pub(crate) column: u32,
    pub(crate) row: u32,
}
