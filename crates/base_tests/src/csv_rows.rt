use row_reader::{RowParser, RowsFault, read_rows};
use std::alloc::{AllocError, Global};
use std::test::Fail;
use track_types::{RawRow, RowFault};

const FAR: i64 = 1_099_511_627_776;

// More bytes than any file here has.
const MANY: usize = 10_000_000;

fn fault(nth: u64, field: u32, fault: RowFault) -> RowsFault {
    RowsFault::Row { nth, field, fault }
}

// Gives a parser bytes in pieces of a size. The last one may be shorter.
fn take_in_pieces(
    parser: &mut RowParser,
    bytes: &[u8],
    size: usize,
    rows: &mut Vec<RawRow>,
) -> Result<(), RowsFault> {
    for piece in bytes.chunks(size.max(1)) {
        if parser.kept_length() > MANY || piece.len() > MANY {
            return Err(RowsFault::Memory);
        }
        if parser.take(piece, rows).is_err() {
            return Err(RowsFault::Memory);
        }
    }
    Ok(())
}

// The rows of a file that comes in pieces.
fn rows_by_pieces(
    alloc: Global,
    mut parser: RowParser,
    file: &[u8],
    size: usize,
) -> Result<Vec<RawRow>, RowsFault> {
    let mut rows = Vec::new(alloc);
    take_in_pieces(&mut parser, file, size, &mut rows)?;
    if parser.kept_length() > MANY {
        return Err(RowsFault::Memory);
    }
    parser.finish(&mut rows)?;
    Ok(rows)
}

// The rows of a file.
fn rows_of(alloc: Global, file: &[u8]) -> Result<Vec<RawRow>, RowsFault> {
    if file.len() > MANY {
        return Err(RowsFault::Memory);
    }
    read_rows(alloc, file)
}

// What a short file has, and whether its pieces have the same rows or the same fault. Each piece in which a line ends
// is read.
fn read_both(alloc: Global, file: &str) -> (Result<Vec<RawRow>, RowsFault>, bool) {
    let bytes = file.as_bytes();
    let whole = rows_of(alloc, bytes);
    let mut are_alike = true;
    for size in [1, 2, 3, 5, 7] {
        let parser = RowParser::with_least(alloc, 0);
        are_alike &= rows_by_pieces(alloc, parser, bytes, size) == whole;
    }
    (whole, are_alike)
}

// An object, a time, and coordinates.
type Place = (u32, i64, i64, i64);

const SHIPS: &str =
    "265547250,1467327600,312455,6401239\r\n\"265547250\", 1467327662,312561,\"6401250\"\r\n";

const LEAST: &str = "0,-1099511627776,-1099511627776,-1099511627776";

const GREATEST: &str = "4294967295,1099511627776,1099511627776,1099511627776";

// In the order of the file.
const TRACK: [Place; 2] = [
    (265547250, 1467327600, 312455, 6401239),
    (265547250, 1467327662, 312561, 6401250),
];

const ONE: [Place; 1] = [(7, 0, 1, 2)];

const TWO: [Place; 2] = [(7, 0, 1, 2), (8, 0, 1, 2)];

const FILES: [(&str, &[Place]); 15] = [
    (SHIPS, &TRACK),
    ("", &[]),
    ("\u{feff}", &[]),
    ("\n\r\n\r\r", &[]),
    ("object,instant,x,y\n", &[]),
    ("\u{feff}\nobject,\"instant\",x,y", &[]),
    ("object,instant,x,y\n7,0,1,2\n8,0,1,2\n", &TWO),
    ("7,0,1,2\r", &ONE), // a lone CR ends a record
    ("7,0,1,2\r8,0,1,2\r\r", &TWO),
    ("\n\r\n7,0,1,2\n\n\r\r", &ONE), // blank lines are no records
    ("\u{feff}7,0,1,2", &ONE), // a byte order mark is dropped
    ("\"7\",\"0\",\"1\",\"2\"", &ONE), // quotes are no part of a field
    (" +007,\t-00 , -5\t,+1 ", &[(7, 0, -5, 1)]), // signs, zeros and blanks
    (LEAST, &[(0, -FAR, -FAR, -FAR)]),
    (GREATEST, &[(4294967295, FAR, FAR, FAR)]),
];

// Whether a file, read whole and in pieces, has these rows.
fn has_rows(alloc: Global, file: &str, places: &[Place]) -> Result<bool, RowsFault> {
    let (rows, are_alike) = read_both(alloc, file);
    let rows = rows?;
    let has = rows.len() == places.len()
        && rows.iter().zip(places).all(|(row, place)| (row.object, row.time, row.x, row.y)
            == *place);
    Ok(has && are_alike)
}

#[test]
fn a_file_has_its_rows(rt: HostRuntime) -> Result<(), Fail> {
    for (file, places) in FILES {
        assert!(rt; has_rows(rt.alloc(), file, places)?, "{file:?}");
    }
    Ok(())
}

const NOT_NUMBERS: [(&str, u64, u32); 8] = [
    ("7,0,x,1", 1, 3),
    ("\u{feff}\u{feff}7,0,1,2", 1, 1), // a second byte order mark
    ("7,0,1,2\n\n\n7,0,1,z", 2, 4), // blank lines have no number
    ("7,0,1,2\n7,0,z,\n7\n", 2, 3), // the first record at fault
    ("7,0,1,2\n\u{feff}7,0,1,2\n", 2, 1), // a byte order mark after a line
    ("7,0,1,\"2\n\"\n", 1, 4), // a line feed in quotes
    ("object,instant,x,\"y\n\"\n7,0,1,2", 1, 1), // and in a heading
    ("7,0,1,\"2\n7,0,1,2\n", 1, 4), // quotes that do not end
];

const OUT_OF_RANGE: [(&str, u64, u32); 6] = [
    ("-1,0,y,0", 1, 1), // the leftmost field at fault
    ("4294967296,0,0,0", 1, 1),
    ("7,1099511627777,0,0", 1, 2),
    ("7,0,1099511627777,0", 1, 3),
    ("7,0,0,-1099511627777", 1, 4),
    ("7,0,0,99999999999999999999", 1, 4), // a value that no word holds
];

const OTHER_COUNTS: [(&str, u64, u32); 5] = [
    ("7,0,1\n", 1, 3),
    ("x,y,z,u,v", 1, 5), // five fields, whatever they are
    ("\"\"\n", 1, 1), // a quoted nothing
    ("7,0,1,2\n  \n", 2, 1), // a line of spaces
    ("7,0,1,2\n\"7\n\",0,1\n", 2, 3), // a line feed in quotes, in a record of three fields
];

// Whether a file, read whole and in pieces, is refused so.
fn is_refused(alloc: Global, file: &str, want: RowsFault) -> bool {
    let (rows, are_alike) = read_both(alloc, file);
    rows.err() == Some(want) && are_alike
}

// Whether files are refused for a record of this kind.
fn are_refused(alloc: Global, kind: RowFault, cases: &[(&str, u64, u32)]) -> bool {
    for &(file, nth, field) in cases {
        if !is_refused(alloc, file, fault(nth, field, kind)) {
            return false;
        }
    }
    true
}

#[test]
fn the_first_refusal_is_told(rt: HostRuntime) {
    let alloc = rt.alloc();
    assert!(rt;
        are_refused(alloc, RowFault::NotNumber, &NOT_NUMBERS),
        "no number"
    );
    assert!(rt;
        are_refused(alloc, RowFault::Range, &OUT_OF_RANGE),
        "out of range"
    );
    assert!(rt;
        are_refused(alloc, RowFault::Count, &OTHER_COUNTS),
        "other counts"
    );
}

// So many lines, each of another object.
fn long_file(alloc: Global, first: &[u8], many: u32) -> Result<Vec<u8>, AllocError> {
    let mut file = Vec::new(alloc);
    file.extend_from_slice(first)?;
    for object in 0..many {
        let line = format!(in alloc; "{object},-5,{object},6401239\n")?;
        file.extend_from_slice(line.as_bytes())?;
    }
    Ok(file)
}

// The first text ends in the thirty-second piece. Its refused record has all kept from there on.
#[test]
fn a_refusal_in_the_first_piece_is_told_after_the_last(rt: HostRuntime) -> Result<(), Fail> {
    let file = long_file(rt.alloc(), b"7,0,1\n", 70_000)?;
    let mut parser = RowParser::new(rt.alloc());
    let mut rows = Vec::new(rt.alloc());
    take_in_pieces(&mut parser, file.as_slice(), 1_024, &mut rows)?;
    let kept = parser.kept_length();
    assert!(rt; rows.is_empty() && kept == file.len(), "all is kept");
    assert!(rt; kept <= MANY);
    let refused = parser.finish(&mut rows).err();
    assert!(rt;
        refused == Some(fault(1, 3, RowFault::Count)),
        "the first row"
    );
    Ok(())
}

// How many rows half of the file has, and how many bytes are kept after it.
//
// Half of the file has 793,890 bytes: 48 pieces and one of 7,458 bytes. Two pieces have 32,768 bytes and are read
// together, so 786,432 bytes were read. The lines of the objects below 10,000 have 207,780 bytes, 25,158 others have 23
// bytes each, and 18 bytes are left. Kept are a line feed, these and the last piece.
fn half_read(alloc: Global, file: &[u8]) -> Result<(usize, usize), RowsFault> {
    let (half, _others) = file.split_at(file.len() / 2);
    let mut parser = RowParser::new(alloc);
    let mut early = Vec::new(alloc);
    take_in_pieces(&mut parser, half, 16_384, &mut early)?;
    Ok((early.len(), parser.kept_length()))
}

// Whether a file has so many rows, and in pieces the same, of which this is the one after 65,537 others.
fn are_seventy_thousand(alloc: Global, file: &[u8]) -> Result<bool, RowsFault> {
    let rows = rows_of(alloc, file)?;
    let place = rows
        .get(65_537)
        .map(|row| (row.object, row.time, row.x, row.y));
    let pieces = rows_by_pieces(alloc, RowParser::new(alloc), file, 16_384)?;
    let last = Some((65_537, -5, 65_537, 6_401_239));
    Ok(rows.len() == 70_000 && place == last && pieces == rows)
}

#[test]
fn seventy_thousand_rows_and_the_one_after(rt: HostRuntime) -> Result<(), Fail> {
    let alloc = rt.alloc();
    let mut file = long_file(alloc, b"", 70_000)?;
    assert!(rt; are_seventy_thousand(alloc, file.as_slice())?, "all rows");
    assert!(rt;
        half_read(alloc, file.as_slice())? == (35_158, 7_477),
        "half of them"
    );
    file.extend_from_slice(b"7,0,1\n")?;
    let refused = rows_of(alloc, file.as_slice()).err();
    assert!(rt;
        refused == Some(fault(70_001, 3, RowFault::Count)),
        "and one more"
    );
    Ok(())
}
