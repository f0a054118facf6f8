ghost use Rattle.std.specs.Prelude.{◌≡◌, ◌+◌, ◌≤◌, ℕ, List, [], ◌++◌, length, IfErr, OnOk};
ghost use Rattle.track_types.specs.Limits.{limit_of};
ghost use Rattle.track_types.specs.declared.raw_row.RawRow.{RawRow};
ghost use Rattle.row_reader.specs.Pieces.{Adds, AreRowsOf, EndsLine, HasTaken, kept_length};
ghost use Rattle.row_reader.specs.Rows.{IsRowsFault};
ghost use Rattle.row_reader.specs.declared.parser.TheConstants.{LEAST};

use crate::fault::RowsFault;
use crate::reading::{Progress, read_on};
use memchr::memrchr;
use std::alloc::{AllocError, Global};
use std::io::Read;
use track_types::{LimitKind, RawRow};

/// How many bytes must be there, kept and in a piece, before lines are read. Each reading makes a
/// reader of csv, whose tables cost some 10 µs. A pipe that gives line by line would pay that for
/// each line.
const LEAST: usize = 0x8000;

/// Reads the rows of a CSV file whose bytes come piece by piece, as `read_rows` reads those of a
/// whole file.
///
/// What it keeps is the line that has not ended, and before it fewer than 32,768 bytes. Only a line
/// feed ends a line, so a file whose lines end with CR alone is kept whole. Once a text has a refused
/// record, all from that text on is kept up to `finish`.
#[derive(Drop)]
pub struct RowParser {
    // Bytes whose records were not given yet.
    rest: Vec<u8>,
    progress: Progress,
    // Whether a record was refused, so that `rest` is read when all of the file is there.
    is_waiting: bool,
    // How many bytes must be there, kept and in a piece, before lines are read.
    least: usize,
}

impl RowParser {
    /// A parser of a file before any of it came.
    pub fn new(alloc: Global) -> Self
        ensures { HasTaken [] [] result }
    {
        RowParser::with_least(alloc, LEAST)
    }

    /// One that reads lines where so many bytes are there. A short file is read in pieces only where these are few.
    pub fn with_least(alloc: Global, least: usize) -> Self
        requires { least ≤ LEAST }
        ensures { HasTaken [] [] result }
    {
        RowParser {
            rest: Vec::new(alloc),
            progress: Progress::start(),
            is_waiting: false,
            least,
        }
    }

    /// How many bytes are kept, whose rows were not given yet.
    pub fn kept_length(&self) -> usize
        ensures { result ≡ kept_length self.now }
    {
        self.rest.len()
    }

    /// Takes the next piece of the file, and puts the rows that it then reads after those of `rows`.
    /// Small pieces are read together, and no refusal is told before `finish`. After an `Err` the
    /// parser must not be used any more.
    pub fn take(&mut self, piece: &[u8], rows: &mut Vec<RawRow>) -> Result<(), AllocError>
        requires { kept_length self.now + length piece.now ≤ limit_of LimitKind.Csv }
        ensures { OnOk result (
            (bytes : List ℕ) (raws : List RawRow) → HasTaken bytes raws self.old →
            Adds rows.old.items rows.new.items
            (λ more. HasTaken (bytes ++ piece.now) (raws ++ more) self.new)) }
    {
        if self.is_waiting || self.rest.len() + piece.len() < self.least {
            return self.rest.extend_from_slice(piece);
        }
        let Some(last) = memrchr(b'\n', piece) else {
            return self.rest.extend_from_slice(piece);
        };
        let (lines, others) = piece.split_at(last + 1);
        self.read_lines(lines, rows)?;
        self.rest.extend_from_slice(others)
    }

    // Reads what is kept and the lines after it, which end with a line feed.
    fn read_lines(&mut self, lines: &[u8], rows: &mut Vec<RawRow>) -> Result<(), AllocError>
        requires few { kept_length self.now + length lines.now ≤ limit_of LimitKind.Csv }
        requires ended { EndsLine lines.now }
        ensures { OnOk result (
            (bytes : List ℕ) (raws : List RawRow) → HasTaken bytes raws self.old →
            Adds rows.old.items rows.new.items
            (λ more. HasTaken (bytes ++ lines.now) (raws ++ more) self.new)) }
    {
        let count = rows.len();
        let text = self.rest.as_slice().chain(lines);
        match read_on(*self.rest.allocator(), text, self.progress, rows) {
            Ok(progress) => {
                self.progress = progress;
                self.rest.clear();
                // The line feed stays before what follows, where csv passes over it: a byte order
                // mark is dropped at a text's front alone.
                self.rest.extend_from_slice(b"\n")
            }
            Err(fault) => {
                if !fault.is_refusal() {
                    return Err(AllocError);
                }
                // Where the text was cut within quotes, its last record goes on, and may be refused
                // for another reason. So the refusal is told when all of the file is there.
                rows.truncate(count);
                self.is_waiting = true;
                self.rest.extend_from_slice(lines)
            }
        }
    }

    /// Ends the file, and puts the rows that were not given yet after those of `rows`, or tells the
    /// first refusal, as `read_rows` does.
    pub fn finish(self, rows: &mut Vec<RawRow>) -> Result<(), RowsFault>
        requires { kept_length self ≤ limit_of LimitKind.Csv }
        ensures ok { OnOk result (
            (bytes : List ℕ) (raws : List RawRow) → HasTaken bytes raws self →
            Adds rows.old.items rows.new.items (λ more. AreRowsOf bytes (raws ++ more))) }
        ensures fault { IfErr result (λ fault.
            (bytes : List ℕ) (raws : List RawRow) → HasTaken bytes raws self →
            IsRowsFault bytes fault) }
    {
        let text = self.rest.as_slice();
        read_on(*self.rest.allocator(), text, self.progress, rows)?;
        Ok(())
    }
}
