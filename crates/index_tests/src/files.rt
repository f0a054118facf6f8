use std::alloc::{AllocError, Global};

// The index file of object 7 at (10, 10), (11, 10) and (12, 11), in periods of four instants.
pub const FILE: [u8; 123] = [
    71, 82, 65, 67, 84, 48, 48, 49, 4, 0, 0, 0, 2, 0, 0, 0, 1, 0, 0, 0, 3, 0, 0, 0, 2, 0, 0, 0, 0,
    0, 0, 0, 2, 0, 0, 0, 0, 0, 0, 0, 0, 0, 0, 0, 10, 0, 0, 0, 0, 0, 0, 0, 10, 0, 0, 0, 0, 0, 0, 0,
    1, 0, 0, 0, 0, 0, 0, 0, 1, 0, 0, 0, 0, 0, 0, 0, 7, 0, 0, 0, 2, 0, 0, 0, 0, 0, 0, 0, 3, 0, 0, 0,
    0, 0, 0, 0, 1, 0, 0, 0, 0, 8, 0, 0, 0, 17, 1, 0, 0, 0, 0, 2, 0, 0, 0, 0, 0, 0, 0, 1, 0, 0, 0,
];

// The same index in a file of version 2: one byte has both symbols.
pub const PACKED_FILE: [u8; 116] = [
    71, 82, 65, 67, 84, 48, 48, 50, 4, 0, 0, 0, 2, 0, 0, 0, 1, 0, 0, 0, 3, 0, 0, 0, 2, 0, 0, 0, 0,
    0, 0, 0, 2, 0, 0, 0, 0, 0, 0, 0, 0, 0, 0, 0, 10, 0, 0, 0, 0, 0, 0, 0, 10, 0, 0, 0, 0, 0, 0, 0,
    1, 0, 0, 0, 0, 0, 0, 0, 1, 0, 0, 0, 0, 0, 0, 0, 7, 0, 0, 0, 2, 0, 0, 0, 0, 0, 0, 0, 3, 0, 0, 0,
    0, 0, 0, 0, 1, 0, 0, 0, 0, 8, 0, 0, 0, 17, 1, 0, 0, 0, 0, 2, 0, 0, 0, 2,
];

// And in one of version 3.
pub const NEW_FILE: [u8; 75] = [
    71, 82, 65, 67, 84, 48, 48, 51, 4, 0, 0, 0, 2, 0, 0, 0, 1, 0, 0, 0, 3, 0, 0, 0, 2, 0, 0, 0, 0,
    0, 0, 0, 0, 0, 0, 0, 0, 0, 0, 0, 10, 0, 0, 0, 0, 0, 0, 0, 10, 0, 0, 0, 0, 0, 0, 0, 1, 0, 0, 0,
    0, 0, 0, 0, 1, 0, 0, 0, 0, 0, 0, 0, 4, 58, 8,
];

// The index file, in version 3, of object 7 at (10 + t, 10) for t from 0 to 7, and of object 9 at (10, 12) at instant 1
// and at (10, 13) at 6, in periods of four instants. It has two rules, one in each of two layers.
pub const PAIR_FILE: [u8; 82] = [
    71, 82, 65, 67, 84, 48, 48, 51, 4, 0, 0, 0, 3, 0, 0, 0, 2, 0, 0, 0, 8, 0, 0, 0, 2, 0, 0, 0, 2,
    0, 0, 0, 0, 0, 0, 0, 0, 0, 0, 0, 10, 0, 0, 0, 0, 0, 0, 0, 10, 0, 0, 0, 0, 0, 0, 0, 1, 0, 0, 0,
    0, 0, 0, 0, 1, 0, 0, 0, 0, 0, 0, 0, 4, 82, 138, 84, 9, 92, 22, 8, 140, 1,
];

// A text, how often it stands one after another, and how often its number, from 0 on, comes after it in four bytes.
type Piece = (&'static [u8], u32, u32);

// The counts of a file of a thousand objects, of one period, one value, 21 rules and 22,000 symbols, and its settings.
const COUNTS: [u8; 28] = [
    0, 0, 64, 0, 1, 0, 0, 0, 232, 3, 0, 0, 0, 0, 64, 0, 1, 0, 0, 0, 21, 0, 0, 0, 240, 85, 0, 0,
];

const SETTINGS: [u8; 40] = [
    0, 0, 0, 0, 0, 0, 0, 0, 0, 0, 0, 0, 0, 0, 0, 0, 0, 0, 0, 0, 0, 0, 0, 0, 1, 0, 0, 0, 0, 0, 0, 0,
    1, 0, 0, 0, 0, 0, 0, 0,
];

// What stands in that file between its magic and its log: also the objects, the alphabet, the rules, presence, offsets,
// the tree of one cell, the last object of the cell, the objects in leaf order, and how long the logs are.
const BEFORE_LOG: [Piece; 12] = [
    (&COUNTS, 1, 0),
    (&SETTINGS, 1, 0),
    (&[], 1000, 1),
    (&[1, 0, 0, 0, 0, 0, 0, 0], 1, 0),
    (&[], 21, 2),
    (&[255], 125, 0),
    (&[0], 4000, 0),
    (&[4, 0, 0, 0, 1], 1, 0),
    (&[0], 124, 0),
    (&[128], 1, 0),
    (&[], 1000, 1),
    (&[22, 0, 0, 0], 1000, 0),
];

// The symbols from 0 to 21, of four bytes each.
const LOG: [u8; 88] = [
    0, 0, 0, 0, 1, 0, 0, 0, 2, 0, 0, 0, 3, 0, 0, 0, 4, 0, 0, 0, 5, 0, 0, 0, 6, 0, 0, 0, 7, 0, 0, 0,
    8, 0, 0, 0, 9, 0, 0, 0, 10, 0, 0, 0, 11, 0, 0, 0, 12, 0, 0, 0, 13, 0, 0, 0, 14, 0, 0, 0, 15, 0,
    0, 0, 16, 0, 0, 0, 17, 0, 0, 0, 18, 0, 0, 0, 19, 0, 0, 0, 20, 0, 0, 0, 21, 0, 0, 0,
];

// 88 symbols of five bits each: those from 0 to 21, four times.
const PACKED: [u8; 55] = [
    32, 136, 65, 138, 57, 40, 169, 197, 154, 123, 48, 202, 73, 43, 8, 98, 144, 98, 14, 74, 106,
    177, 230, 30, 140, 114, 210, 10, 130, 24, 164, 152, 131, 146, 90, 172, 185, 7, 163, 156, 180,
    130, 32, 6, 41, 230, 160, 164, 22, 107, 238, 193, 40, 39, 173,
];

// Pushes a number so often.
fn push_number(bytes: &mut Vec<u8>, number: u32, often: u32) -> Result<(), AllocError> {
    for _ in 0..often {
        bytes.extend_from_slice(&number.to_le_bytes())?;
    }
    Ok(())
}

fn push_piece(bytes: &mut Vec<u8>, piece: Piece) -> Result<(), AllocError> {
    let (text, times, numbers) = piece;
    for number in 0..times {
        bytes.extend_from_slice(text)?;
        push_number(bytes, number, numbers)?;
    }
    Ok(())
}

// That file with this magic and this log.
fn with_log(alloc: Global, magic: &[u8], log: Piece) -> Result<Vec<u8>, AllocError> {
    let mut bytes = Vec::from_slice(alloc, magic)?;
    for piece in BEFORE_LOG {
        push_piece(&mut bytes, piece)?;
    }
    push_piece(&mut bytes, log)?;
    Ok(bytes)
}

// The index file of a thousand objects that stand still at (0, 0) from instant 0 to 2^22 - 1. Each rule lasts twice as
// long as the one before it.
pub fn four_billion_rows(alloc: Global) -> Result<Vec<u8>, AllocError> {
    with_log(alloc, b"GRACT001", (&LOG, 1000, 0))
}

// The same in version 2: 22 symbols are told apart in five bits.
pub fn four_billion_rows_packed(alloc: Global) -> Result<Vec<u8>, AllocError> {
    with_log(alloc, b"GRACT002", (&PACKED, 250, 0))
}
