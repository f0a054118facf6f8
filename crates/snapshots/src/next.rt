/// Where a walk over the blocks of a leaf's cell goes on.
#[derive(Clone, Copy)]
pub enum Next {
    /// At the first block, whose place is not yet looked for.
    First,
    /// At a place in leaf order.
    Place(u32),
    /// Nowhere: the last block was given.
    End,
}
