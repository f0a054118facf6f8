ghost use Rattle.std.specs.Prelude.{◌≡◌, ◌^◌, ◌<◌, ℕ, List, IfOk, length, map};
ghost use Rattle.std.specs.List.{sum};
ghost use Rattle.repair_grammar.specs.Blocks.{blocks_in, joined_blocks};
ghost use Rattle.repair_grammar.specs.RePair.{AreBelow};
ghost use Rattle.repair_grammar.specs.Threads.{live, marked_row, HasEnds};
ghost use Rattle.repair_grammar.specs.declared.symbol_row.TheConstants.{END};

use crate::blocks::JoinedBlocks;
use crate::symbol_row::{END, GAP};
use std::alloc::Global;
use track_types::{List32, Memory};

/// The blocks in one row, with a mark before each and after the last.
pub fn row(alloc: Global, blocks: &JoinedBlocks) -> Result<Vec<u32>, Memory>
    requires { sum blocks.now.lengths ≡ length blocks.now.symbols }
    ensures { IfOk result (λ row. row.items ≡ marked_row (blocks_in blocks.now)) }
{
    let mut rest = blocks.symbols.as_slice();
    let lengths = blocks.lengths.as_slice();
    let mut row = Vec::with_capacity(alloc, rest.len() + lengths.len() + 1)?;
    'each: for len in lengths {
        let (block, behind) = rest.split_at(*len as usize);
        row.push(END)?;
        row.extend_from_slice(block)?;
        rest = behind;
    }
    row.push(END)?;
    Ok(row)
}

/// The blocks of such a row, which may have gaps. They stay in the row's own memory.
pub fn blocks_from(alloc: Global, mut row: Vec<u32>) -> Result<JoinedBlocks, Memory>
    requires ends { HasEnds row.items }
    requires few { length row.items < 2 ^ 32 }
    ensures { IfOk result (λ joined. (blocks : List (List ℕ)) →
        AreBelow END blocks → live row.items ≡ marked_row blocks → joined ≡ joined_blocks blocks) }
{
    let lengths = lengths_in(alloc, row.as_slice())?;
    row.retain(|symbol| *symbol < END);
    row.shrink_to_fit();
    Ok(JoinedBlocks {
        symbols: List32::new(row),
        lengths: List32::new(lengths),
    })
}

// How many symbols each block of such a row has.
fn lengths_in(alloc: Global, row: &[u32]) -> Result<Vec<u32>, Memory>
    requires ends { HasEnds row.now }
    requires few { length row.now < 2 ^ 32 }
    ensures { IfOk result (λ lengths. (blocks : List (List ℕ)) →
        AreBelow END blocks → live row.now ≡ marked_row blocks → lengths.items ≡ map length blocks) }
{
    let mut lengths = Vec::new(alloc);
    let mut len = 0;
    let Some((_, rest)) = row.split_first() else {
        return Ok(lengths);
    };
    'symbols: for symbol in rest {
        if *symbol == END {
            lengths.push(len)?;
            len = 0;
            continue;
        }
        if *symbol == GAP {
            continue;
        }
        len += 1;
    }
    Ok(lengths)
}
