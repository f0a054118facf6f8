ghost use Rattle.std.specs.Prelude.{◌≡◌, ◌++◌, ◌<◌, IfOk, OnOk, length};
ghost use Rattle.track_types.specs.declared.limit.TheConstants.{MAX_INDEX};
ghost use Rattle.index_format.specs.IsOutline.{IsOutline};
ghost use Rattle.index_format.specs.OutlineFile.{frame_rules, outline_bits, outline_bytes, outline_header};
ghost use Rattle.rule_store.specs.Table.{IsWholeTable};

use crate::encoding::put_header;
use crate::header::Header;
use crate::outline::Outline;
use crate::outline::block_putting::put_blocks;
use crate::outline::gaps::{put_objects, put_values};
use crate::outline::layering::put_rules;
use crate::outline::table::{push_rules, values_table};
use bit_stream::BitWriter;
use rule_store::EntryTable;
use std::alloc::Global;
use track_types::Memory;

/// The bytes of the file that stores this outline. There are fewer than `MAX_INDEX`.
pub fn encode_outline(alloc: Global, outline: &Outline) -> Result<Vec<u8>, Memory>
    requires { IsOutline outline.now }
    ensures ok { IfOk result (λ bytes. bytes.items ≡ outline_bytes outline.now) }
    ensures short { IfOk result (λ bytes. length bytes.items < MAX_INDEX) }
{
    let table = whole_table(alloc, outline)?;
    let mut out = Vec::new(alloc);
    put_header(&mut out, &outline_header(outline))?;
    let mut writer = BitWriter::after(out);
    put_lists(&mut writer, outline, &table)?;
    Ok(writer.into_bytes()?)
}

// The header: the frame, and how long the lists are.
fn outline_header(outline: &Outline) -> Header
    requires { IsOutline outline.now }
    ensures { result ≡ outline_header outline.now }
{
    Header {
        frame: outline.frame,
        objects: outline.objects.as_slice().len() as u32,
        alphabet: outline.alphabet.as_slice().len() as u32,
        rules: outline.rules.as_slice().len() as u32,
        symbols: 0,
    }
}

// The entries of all values and rules.
fn whole_table(alloc: Global, outline: &Outline) -> Result<EntryTable, Memory>
    requires { IsOutline outline.now }
    ensures { IfOk result (IsWholeTable (frame_rules outline.now.frame outline.now.alphabet outline.now.rules)) }
{
    let frame = outline.frame;
    let values = outline.alphabet.as_slice();
    let mut table = values_table(alloc, frame.height, frame.period, values)?;
    push_rules(&mut table, outline.rules.as_slice())?;
    Ok(table)
}

// Puts what follows the header.
#[tactic(auto, unfolding(crate::specs::OutlineFile::outline_bits))]
fn put_lists(writer: &mut BitWriter, outline: &Outline, table: &EntryTable) -> Result<(), Memory>
    requires outline { IsOutline outline.now }
    requires table { IsWholeTable (frame_rules outline.now.frame outline.now.alphabet outline.now.rules) table.now }
    ensures { OnOk result (writer.new ≡ writer.old ++ outline_bits outline.now) }
{
    let values = outline.alphabet.as_slice();
    let rules = outline.rules.as_slice();
    let objects = outline.objects.as_slice();
    put_objects(writer, objects)?;
    put_values(writer, values)?;
    put_rules(writer, values.len() as u32, rules)?;
    let symbols = (values.len() + rules.len()) as u32;
    put_blocks(
        writer,
        &outline.frame,
        table,
        symbols,
        objects.len() as u32,
        outline.blocks.as_slice(),
        outline.symbols.as_slice(),
    )
}
