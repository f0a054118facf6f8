ghost use Rattle.std.specs.Prelude.{◌≡◌, ◌^◌, ◌<◌, All, IfOk, length};
ghost use Rattle.std.specs.List.{sum};
ghost use Rattle.repair_grammar.specs.Blocks.{blocks_in, joined_blocks};

use std::alloc::{AllocError, Global};
use track_types::List32;

/// Blocks of symbols in one list, one after the other. So a block takes no memory of its own.
#[derive(Debug, Drop)]
pub struct JoinedBlocks {
    /// The symbols of all blocks.
    pub symbols: List32,
    /// How many symbols each block has.
    pub lengths: List32,
}

/// The blocks, one after the other.
pub fn joined_blocks(alloc: Global, blocks: &[List32]) -> Result<JoinedBlocks, AllocError>
    requires { All (λ block. length block < 2 ^ 32) blocks.now }
    ensures { IfOk result (λ joined. joined ≡ joined_blocks blocks.now) }
{
    let mut symbols = Vec::new(alloc);
    let mut lengths = Vec::with_capacity(alloc, blocks.len())?;
    for block in blocks {
        symbols.extend_from_slice(block.as_slice())?;
        lengths.push(block.as_slice().len() as u32)?;
    }
    Ok(JoinedBlocks {
        symbols: List32::new(symbols),
        lengths: List32::new(lengths),
    })
}

/// The blocks, each in a list of its own.
pub fn blocks_in(alloc: Global, joined: &JoinedBlocks) -> Result<Vec<List32>, AllocError>
    requires { sum joined.now.lengths ≡ length joined.now.symbols }
    ensures { IfOk result (λ blocks. blocks.items ≡ blocks_in joined.now) }
{
    let mut rest = joined.symbols.as_slice();
    let lengths = joined.lengths.as_slice();
    let mut blocks = Vec::with_capacity(alloc, lengths.len())?;
    'each: for len in lengths {
        let (block, behind) = rest.split_at(*len as usize);
        blocks.push(List32::new(block.to_vec(alloc)?))?;
        rest = behind;
    }
    Ok(blocks)
}
