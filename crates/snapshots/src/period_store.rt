use crate::blocks::Blocks;
use crate::shared_header::SharedHeader;
use std::rc::Rc;

/// What is stored of a period, in 16 bytes: an index may have 2^22 periods, most of them without a block.
#[derive(Drop)]
pub enum PeriodStore {
    /// No object has a block.
    Empty {
        /// How many objects the index has.
        objects: u32,
        /// Its header, which has the tree of no cell.
        header: Rc<SharedHeader>,
    },
    /// Some object has one.
    Filled {
        /// How many objects the index has.
        objects: u32,
        /// What is stored of the blocks, the header among it.
        blocks: Box<Blocks>,
    },
}
