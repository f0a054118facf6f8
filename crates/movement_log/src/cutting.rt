ghost use Rattle.std.specs.Prelude.{◌≡◌, ◌^◌, ◌<◌, IfOk, map};
ghost use Rattle.std.specs.List.{sum};
ghost use Rattle.movement_log.specs.Logs.{joined_logs, logs_of};

use crate::alphabet::{alphabet_of, terminals_of};
use crate::blocks::{Block, blocks_of};
use crate::head::{Head, HeadList};
use crate::logs::{lengths_of, values_of};
use crate::raw_logs::{JoinedLogs, RawLogs};
use std::alloc::{AllocError, Global};
use track_types::{Chart, List32, List64, Lists32, Memory};

/// Cuts the tracks of a chart into blocks, one for each object and period in which it has a row.
///
/// A block's log says, for each later instant of its period, that the object is absent, or how it
/// moved from the last cell in which it was present. A period has the chart's number of instants,
/// and the last one ends at the chart's last instant. Beside what `cut_joined` takes, it takes
/// memory for a list for each block.
pub fn cut(alloc: Global, chart: &Chart) -> Result<RawLogs, Memory>
    ensures ok { IfOk result (λ logs. logs ≡ logs_of chart.now) }
{
    let joined = cut_joined(alloc, chart)?;
    let mut logs = Vec::with_capacity(alloc, joined.lengths.as_slice().len())?;
    let mut rest = joined.terminals.as_slice();
    for len in joined.lengths.as_slice() {
        let (log, behind) = rest.split_at(*len as usize);
        logs.push(List32::new(log.to_vec(alloc)?))?;
        rest = behind;
    }
    Ok(RawLogs {
        alphabet: joined.alphabet,
        heads: joined.heads,
        terminals: Lists32::new(logs),
    })
}

/// Cuts the tracks of a chart into the blocks that `cut` gives, with the logs one after the other.
///
/// The time is that of one pass over the rows and terminals, one sort of the values, and one search
/// of the alphabet for each. The memory is a small multiple of the rows and terminals.
pub fn cut_joined(alloc: Global, chart: &Chart) -> Result<JoinedLogs, Memory>
    ensures ok { IfOk result (λ logs. logs ≡ joined_logs (logs_of chart.now)) }
{
    let blocks = blocks_of(alloc, chart)?;
    let lengths = lengths_of(alloc, chart, &blocks)?;
    let values = values_of(alloc, chart, &blocks, total(&lengths) as usize)?;
    let alphabet = alphabet_of(alloc, &values)?;
    let terminals = terminals_of(alloc, &alphabet, &values)?;
    drop(values);
    Ok(JoinedLogs {
        alphabet: List64::new(alphabet),
        heads: HeadList::new(heads_of(alloc, &blocks)?),
        terminals: List32::new(terminals),
        lengths: List32::new(lengths),
    })
}

// The sum of numbers, which fits 32 bits.
fn total(numbers: &[u32]) -> u32
    requires { sum numbers.now < 2 ^ 32 }
    ensures { result ≡ sum numbers.now }
{
    numbers.iter().sum()
}

// The headers of blocks.
fn heads_of(alloc: Global, blocks: &[Block]) -> Result<Vec<Head>, AllocError>
    ensures { IfOk result (λ heads. heads.items ≡ map (λ block. block.head) blocks.now) }
{
    blocks.iter().map(|block| block.head).collect(alloc)
}
