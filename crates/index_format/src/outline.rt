mod anchors;
mod ascending;
mod block_putting;
mod blocks;
mod bounded_log;
mod ending;
mod entries;
mod gaps;
mod grid;
mod ground;
mod layering;
mod layers;
mod reading;
mod table;
mod told;
mod writing;

use log_bounds::GridCell;
pub use reading::{ReadOutline, outline_after};
use std::marker::Model;
use track_types::{Frame, List32, List64, PairList};
pub use writing::encode_outline;

/// What a file stores that holds no parts: nothing in it follows from the rest.
///
/// It promises nothing by itself. `IsOutline` in specs/ says when it is the outline of an index.
#[derive(Debug, Drop)]
pub struct Outline {
    /// The frame, of a version whose files hold outlines.
    pub frame: Frame,
    /// The objects' numbers, ascending.
    pub objects: List32,
    /// The values that the logs have, ascending: 0 for an absence, else a movement's code and one.
    pub alphabet: List64,
    /// The two symbols of each grammar rule, by layer, then left part, then right part. Rule j is the symbol
    /// `alphabet size + j`.
    pub rules: PairList,
    /// The blocks, by object, then period.
    pub blocks: BlockList,
    /// The symbols of all logs, in the order of the blocks.
    pub symbols: List32,
}

/// A block of an outline: what the file tells of an object in a period.
#[derive(Clone, Copy, Debug)]
pub struct OutlineBlock {
    /// The period, from 0.
    pub period: u32,
    /// The object's place among all objects, from 0.
    pub index: u32,
    /// How many instants the anchor is after the period's first.
    pub offset: u32,
    /// How many symbols the log has.
    pub length: u32,
    /// The anchor's cell, counted from the base: from 0 to `2^height - 1` along each axis.
    pub cell: GridCell,
}

/// A list of blocks, in order.
///
/// It is made from a `Vec` and gives it back, and takes no memory. Contracts see the blocks in order.
#[derive(Debug, Drop)]
pub struct BlockList {
    blocks: Vec<OutlineBlock>,
}

impl Model for BlockList {
    ghost use Rattle.std.specs.Prelude.{List};
    ghost use Rattle.index_format.specs.declared.outline.OutlineBlock as declared;

    ghost Value = { List declared.OutlineBlock };

    ghost view = { λ list. list.blocks.items };
}

impl BlockList {
    ghost use Rattle.std.specs.Prelude.{◌≡◌};

    /// The list of these blocks.
    pub fn new(blocks: Vec<OutlineBlock>) -> BlockList
        ensures { result ≡ blocks.items }
    {
        BlockList { blocks }
    }

    /// The blocks in order.
    pub fn as_slice(&self) -> &[OutlineBlock]
        ensures { result.now ≡ self.now }
    {
        self.blocks.as_slice()
    }

    /// The `Vec` that the list was made from.
    pub fn into_vec(self) -> Vec<OutlineBlock>
        ensures { result.items ≡ self }
    {
        self.blocks
    }
}
