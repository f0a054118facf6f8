ghost use Rattle.std.specs.Prelude.{◌≡◌, IfOk};
ghost use Rattle.index_format.specs.Answers.{Gives};
ghost use Rattle.index_format.specs.Headers.{IsHeader};
ghost use Rattle.rule_store.specs.Table.{IsWholeTable};
ghost use Rattle.index_format.specs.OutlineBounds.{bounds_in, rules_read};
ghost use Rattle.index_format.specs.OutlineFile.{outline_after};

use crate::header::Header;
use crate::outline::Outline;
use crate::outline::ascending::{objects_in, values_in};
use crate::outline::blocks::blocks_in;
use crate::outline::ending::ended;
use crate::outline::layers::rules_in;
use crate::outline::table::values_table;
use bit_stream::BitReader;
use log_bounds::PackedBounds;
use rule_store::EntryTable;
use std::alloc::Global;
use track_types::FormatFault;

/// An outline, and what was found as it was read.
#[derive(Drop)]
pub struct ReadOutline {
    /// The outline.
    pub outline: Outline,
    /// The bounds of the logs of its blocks, in their order.
    pub bounds: Vec<PackedBounds>,
    /// The entries of its symbols.
    pub table: EntryTable,
}

/// The outline that all bytes after the header hold, with the bounds of the logs of its blocks and the entries of its symbols.
/// Memory is taken as its lists are read.
#[tactic(auto, unfolding(crate::specs::OutlineFile::outline_after))]
pub fn outline_after(
    alloc: Global,
    header: Header,
    bytes: &[u8],
) -> Result<ReadOutline, FormatFault>
    requires { IsHeader header }
    ensures exact { Gives (λ read. read.outline) result (outline_after header bytes.now) }
    ensures bounds { IfOk result (λ read. read.bounds.items ≡ bounds_in read.outline) }
    ensures table { IfOk result (λ read. IsWholeTable (rules_read read.outline) read.table) }
{
    let Header {
        frame,
        objects,
        alphabet,
        rules,
        ..
    } = header;
    let mut reader = BitReader::new(bytes);
    let symbols = alphabet + rules;
    let numbers = objects_in(alloc, objects, &mut reader)?;
    let values = values_in(alloc, frame.height, alphabet, &mut reader)?;
    let mut table = values_table(alloc, frame.height, frame.period, values.as_slice())?;
    let rules = rules_in(alloc, &mut table, alphabet, rules, &mut reader)?;
    let read = blocks_in(alloc, &frame, &table, symbols, objects, &mut reader)?;
    ended(&reader)?;
    let outline = Outline {
        frame,
        objects: numbers,
        alphabet: values,
        rules,
        blocks: read.blocks,
        symbols: read.symbols,
    };
    Ok(ReadOutline {
        outline,
        bounds: read.bounds,
        table,
    })
}
