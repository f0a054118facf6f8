ghost use Rattle.std.specs.Prelude.{IfOk};
ghost use Rattle.index_format.specs.Stored.{IsStored};

use crate::files::{
    FILE, NEW_FILE, PACKED_FILE, PAIR_FILE, four_billion_rows, four_billion_rows_packed,
};
use index_format::{Decoded, FormatFault, OutlineBlock, Stored, decode, encode, encode_outline};
use std::alloc::Global;
use std::test::Fail;
use track_types::{Memory, Parts, PeriodParts};

// What bytes store that are few enough.
fn read(alloc: Global, bytes: &[u8]) -> Result<Stored, FormatFault>
    ensures { IfOk result (λ stored. IsStored stored) }
{
    if bytes.len() > 1 << 30 {
        return Err(FormatFault::Memory);
    }
    let Decoded { stored, .. } = decode(alloc, bytes)?;
    Ok(stored)
}

// The bytes of what is stored.
fn written(alloc: Global, stored: &Stored) -> Result<Vec<u8>, Memory>
    requires { IsStored stored.now }
{
    match stored {
        Stored::Parts(parts) => encode(alloc, parts),
        Stored::Outline(outline) => encode_outline(alloc, outline),
    }
}

// Whether parts are those of the path of object 7.
fn are_of_path(parts: &Parts) -> bool {
    let frame = &parts.frame;
    let spans = (frame.first, frame.span, frame.period) == (0, 3, 4);
    let grid = (frame.height, frame.base.x, frame.base.y) == (2, 10, 10);
    let lists = parts.objects.as_slice() == [7].as_slice()
        && parts.alphabet.as_slice() == [2, 3].as_slice()
        && parts.symbols.as_slice() == [0, 1].as_slice();
    spans
        && grid
        && lists
        && parts
            .periods
            .as_slice()
            .iter()
            .all(|period| is_of_path(period))
}

fn is_of_path(period: &PeriodParts) -> bool {
    let sizes = (period.present.len(), period.tree.len(), period.lasts.len());
    sizes == (1, 8, 1) && period.lengths.as_slice() == [2].as_slice()
}

// Whether the parts of that path are stored.
fn stores_path(stored: &Stored) -> bool {
    match stored {
        Stored::Parts(parts) => are_of_path(parts),
        Stored::Outline(_) => false,
    }
}

// A block's period, object, offset, cell and length.
type Told = (u32, u32, u32, (i64, i64), u32);

const BLOCKS: [Told; 4] = [
    (0, 0, 0, (0, 0), 1),
    (1, 0, 0, (4, 0), 1),
    (0, 1, 1, (0, 2), 2),
    (1, 1, 2, (0, 3), 1),
];

fn are_blocks(blocks: &[OutlineBlock], told: &[Told]) -> bool {
    blocks.len() == told.len()
        && blocks.iter().zip(told).all(|(block, told)| {
            let cell = block.cell.unpack();
            let cell = (cell.x, cell.y);
            (block.period, block.index, block.offset, cell, block.length) == *told
        })
}

// Whether the outline of the two objects is stored.
fn stores_pair(stored: &Stored) -> bool {
    match stored {
        Stored::Parts(_) => false,
        Stored::Outline(outline) => {
            outline.objects.as_slice() == [7, 9].as_slice()
                && outline.alphabet.as_slice() == [0, 2].as_slice()
                && outline.rules.as_slice() == [(1, 1), (2, 1)].as_slice()
                && are_blocks(outline.blocks.as_slice(), &BLOCKS)
                && outline.symbols.as_slice() == [3, 3, 0, 0, 0].as_slice()
        }
    }
}

// Whether symbols are those from 0 to 21, over and over.
fn are_in_turns(symbols: &[u32]) -> bool {
    symbols
        .iter()
        .enumerate()
        .all(|(place, symbol)| *symbol as usize == place % 22)
}

// Whether parts with such symbols are stored.
fn stores_turns(stored: &Stored) -> bool {
    match stored {
        Stored::Parts(parts) => are_in_turns(parts.symbols.as_slice()),
        Stored::Outline(_) => false,
    }
}

// What a file stores: the parts of the path, the outline of the two objects, parts with symbols in turns, or any outline.
#[derive(Clone, Copy)]
enum Held {
    Path,
    Pair,
    Turns,
    Outline,
}

fn holds(stored: &Stored, held: Held) -> bool {
    match held {
        Held::Path => stores_path(stored),
        Held::Pair => stores_pair(stored),
        Held::Turns => stores_turns(stored),
        Held::Outline => match stored {
            Stored::Outline(_) => true,
            Stored::Parts(_) => false,
        },
    }
}

// Whether bytes store this, and are those that are written of it.
fn is_read_and_written(alloc: Global, bytes: &[u8], held: Held) -> Result<bool, FormatFault> {
    let stored = read(alloc, bytes)?;
    match written(alloc, &stored) {
        Ok(again) => Ok(holds(&stored, held) && again.as_slice() == bytes),
        Err(Memory) => Err(FormatFault::Memory),
    }
}

const FILES: [(&str, &[u8], Held); 4] = [
    ("version 1", &FILE, Held::Path),
    ("version 2", &PACKED_FILE, Held::Path),
    ("version 3", &NEW_FILE, Held::Outline),
    ("two rules", &PAIR_FILE, Held::Pair),
];

#[test]
fn each_version_is_read_and_written_again(rt: HostRuntime) -> Result<(), Fail> {
    for (name, bytes, held) in FILES {
        assert!(rt; is_read_and_written(rt.alloc(), bytes, held)?, "{name}");
    }
    Ok(())
}

#[test]
fn four_billion_rows_take_a_hundred_thousand_bytes(rt: HostRuntime) -> Result<(), Fail> {
    let bytes = four_billion_rows(rt.alloc())?;
    assert!(rt; bytes.len() == 104_507, "version 1");
    assert!(rt; is_read_and_written(rt.alloc(), &bytes, Held::Turns)?);
    let packed = four_billion_rows_packed(rt.alloc())?;
    assert!(rt; packed.len() == 30_257, "version 2");
    assert!(rt; is_read_and_written(rt.alloc(), &packed, Held::Turns)?);
    Ok(())
}
