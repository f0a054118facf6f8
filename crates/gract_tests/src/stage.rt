ghost use Rattle.std.specs.Prelude.{◌≡◌, ◌<◌};
ghost use Rattle.step_count.specs.Reads.{AllMay};

use gract_top::{Outcome, gract};
use host_ports::{Files, MemFiles, MemSink, MemSource, Sink, Source};
use std::alloc::{AllocError, Global};
use std::marker::Brand;
use std::mem::replace;
use std::sync::ledger::Blank;
use step_count::{Reads, Steps};
use track_types::{MAX_INDEX, Memory};

/// Rows of one object.
const ROWS: &[u8] = b"7,0,10,10\n7,1,11,10\n7,2,12,10\n7,2,12,11\n";

/// Cursors in two slots over its path, drawn from in turns.
const TURNS: &[u8] =
    b"hold 0 7 0 2\nhold 1 7 1 2\nmore 0 1\nmore 1 5\nmore 0 5\nmore 0 1\nhold 1 7 0 0\nfree 3\n\
free 1\nmore 1 1\n";

/// The index of `ROWS` under CELL 1, TICK 1 and PERIOD 4.
const INDEX: &[u8] = b"GRACT003\x04\0\0\0\x02\0\0\0\x01\0\0\0\x03\0\0\0\x02\0\0\0\0\0\0\0\
\0\0\0\0\0\0\0\0\x0a\0\0\0\0\0\0\0\x0a\0\0\0\0\0\0\0\x01\0\0\0\0\0\0\0\x01\0\0\0\0\0\0\0\x04\x3a\x08";

/// The same index in version 2 of the format.
const PACKED_INDEX: &[u8] =
    b"GRACT002\x04\0\0\0\x02\0\0\0\x01\0\0\0\x03\0\0\0\x02\0\0\0\0\0\0\0\x02\0\0\0\
\0\0\0\0\0\0\0\0\x0a\0\0\0\0\0\0\0\x0a\0\0\0\0\0\0\0\x01\0\0\0\0\0\0\0\x01\0\0\0\0\0\0\0\
\x07\0\0\0\x02\0\0\0\0\0\0\0\x03\0\0\0\0\0\0\0\x01\0\0\0\0\x08\0\0\0\x11\x01\0\0\0\0\x02\0\0\0\x02";

/// The same index in version 1 of the format.
const OLD_INDEX: &[u8] =
    b"GRACT001\x04\0\0\0\x02\0\0\0\x01\0\0\0\x03\0\0\0\x02\0\0\0\0\0\0\0\x02\0\0\0\
\0\0\0\0\0\0\0\0\x0a\0\0\0\0\0\0\0\x0a\0\0\0\0\0\0\0\x01\0\0\0\0\0\0\0\x01\0\0\0\0\0\0\0\
\x07\0\0\0\x02\0\0\0\0\0\0\0\x03\0\0\0\0\0\0\0\x01\0\0\0\0\x08\0\0\0\x11\x01\0\0\0\0\x02\0\0\0\
\0\0\0\0\x01\0\0\0";

/// The index, with two rules, of object 7 at (10 + t, 10) for t from 0 to 7, and of object 9 at (10, 12) at instant 1 and
/// at (10, 13) at 6, under the same.
const PAIR_INDEX: &[u8] = b"GRACT003\x04\0\0\0\x03\0\0\0\x02\0\0\0\x08\0\0\0\x02\0\0\0\x02\0\0\0\
\0\0\0\0\0\0\0\0\x0a\0\0\0\0\0\0\0\x0a\0\0\0\0\0\0\0\x01\0\0\0\0\0\0\0\x01\0\0\0\0\0\0\0\x04\x52\x8a\x54\x09\x5c\x16\x08\x8c\x01";

/// What is handed to a call, what a script builds it from, and how the last call ended.
#[derive(Drop)]
pub struct Stage {
    files: MemFiles,
    source: MemSource,
    sink: MemSink,
    // The numbers of the calls that fail of the device that is made next.
    fails: Vec<u64>,
    bytes: Vec<u8>,
    ended: Outcome,
}

impl Stage {
    /// No files and no lines, a sink with room for any reply of the scripts, and no bytes.
    pub fn new(alloc: Global) -> Result<Self, Memory> {
        Ok(Stage {
            files: MemFiles::new(alloc, 4096, Vec::new(alloc))?,
            source: MemSource::new(Vec::new(alloc), 1, Vec::new(alloc)),
            sink: MemSink::new(alloc, 32768, Vec::new(alloc))?,
            fails: Vec::new(alloc),
            bytes: Vec::new(alloc),
            ended: Outcome::Done,
        })
    }

    // Does what a line says, and answers whether all is as it says.
    //
    // `new` begins anew, and `run WORDS` makes the call.
    pub fn is_done(&mut self, rt: &HostRuntime, line: &str) -> Result<bool, Memory> {
        let (command, words) = first_word(line);
        match command {
            "new" => *self = Stage::new(rt.alloc())?,
            "run" => self.ended = self.run(rt, words)?,
            "files" | "sink" | "asks" => self.equip(rt.alloc(), command, words)?,
            "fail" | "file" | "lay" => self.supply(rt.alloc(), command, words)?,
            "text" | "put" | "cut" | "byte" | "read" => self.build(rt.alloc(), command, words)?,
            _ => return Ok(self.is_so(rt.alloc(), command, words)?),
        }
        Ok(true)
    }

    // `files ROOM`, `sink ROOM` and `asks PIECE TEXT` make a device. It fails at the calls that `fail` has listed.
    fn equip(&mut self, alloc: Global, command: &str, words: &str) -> Result<(), Memory> {
        let (word, text) = first_word(words);
        let size = number(word) as usize;
        let lines = self.bytes_of(alloc, text)?;
        let fails = replace(&mut self.fails, Vec::new(alloc));
        match command {
            "files" => self.files = MemFiles::new(alloc, size, fails)?,
            "sink" => self.sink = MemSink::new(alloc, size, fails)?,
            _ => self.source = MemSource::new(lines, size.max(1), fails),
        }
        Ok(())
    }

    // `fail NTH COUNT` lists so many calls from the nth on, `file NAME TEXT` puts a file, and `lay TEXT` lays bytes.
    fn supply(&mut self, alloc: Global, command: &str, words: &str) -> Result<(), Memory> {
        let (word, text) = first_word(words);
        let bytes = self.bytes_of(alloc, if command == "lay" { words } else { text })?;
        match command {
            "fail" => push_numbers(&mut self.fails, number(word), number(text))?,
            "file" => self.files.put(word, &bytes)?,
            _ => self.lay(bytes),
        }
        Ok(())
    }

    fn lay(&mut self, bytes: Vec<u8>) {
        if bytes.len() as u64 <= MAX_INDEX {
            self.files.lay(bytes);
        }
    }

    // `text TEXT` and `put WIDTH NUMBER..` add bytes, `cut COUNT` keeps so many, `byte PLACE NUMBER` changes one,
    // and `read NAME` takes those of a file.
    fn build(&mut self, alloc: Global, command: &str, words: &str) -> Result<(), AllocError> {
        let (word, rest) = first_word(words);
        match command {
            "text" => {
                let text = self.bytes_of(alloc, words)?;
                self.bytes.extend_from_slice(&text)?;
            }
            "put" => put_numbers(&mut self.bytes, number(word) as usize, rest)?,
            "cut" => self.bytes.truncate(number(word) as usize),
            "byte" => change(&mut self.bytes, number(word) as usize, number(rest)),
            _ => self.bytes = pulled(&mut self.files, alloc, word)?,
        }
        Ok(())
    }

    // `ends STATUS TEXT`, `said TEXT` and `holds NAME TEXT` are the outcome, what was said, and a file; `front TEXT`
    // begins with what was said. `heard COUNT`, `loaded COUNT` and `long COUNT` count the bytes that came from the
    // source and of the file, and those that are built. `missing NAME` is no file, `free COUNT` are the places for
    // saves that were free, and are then used up, and `deaf` is a sink whose next call fails.
    fn is_so(&mut self, alloc: Global, command: &str, words: &str) -> Result<bool, AllocError> {
        let (word, rest) = first_word(words);
        let text = self.bytes_of(alloc, if command == "holds" { rest } else { words })?;
        Ok(match command {
            "ends" => self.ends(number(word), rest),
            "said" => self.sink.as_slice() == text.as_slice(),
            "front" => text.starts_with(self.sink.as_slice()),
            "holds" => pulled(&mut self.files, alloc, word)?.as_slice() == text.as_slice(),
            "heard" => self.source.taken() == number(word),
            "loaded" => self.files.taken() == number(word),
            "long" => self.bytes.len() as u64 == number(word),
            "missing" => self.files.begin(word).is_err(),
            "free" => free_places(&mut self.files) == number(word),
            "deaf" => self.sink.say(b"").is_err(),
            _ => false,
        })
    }

    fn ends(&self, status: u64, line: &str) -> bool {
        self.ended.status() as u64 == status && self.ended.text().as_str() == line
    }

    // A text, with a line feed for each `|`. `@` is the bytes that were built, and the other names are those above.
    fn bytes_of(&self, alloc: Global, text: &str) -> Result<Vec<u8>, AllocError> {
        let bytes = match text {
            "@" => self.bytes.as_slice(),
            "@rows" => ROWS,
            "@turns" => TURNS,
            "@index" => INDEX,
            "@packed" => PACKED_INDEX,
            "@old" => OLD_INDEX,
            "@pair" => PAIR_INDEX,
            _ => return Vec::from_slice(alloc, text.replace(alloc, "|", "\n")?.as_bytes()),
        };
        Vec::from_slice(alloc, bytes)
    }

    fn run(&mut self, rt: &HostRuntime, command: &str) -> Result<Outcome, AllocError> {
        let mut words = Vec::new(rt.alloc());
        for word in command.split_whitespace() {
            words.push(String::from_str(rt.alloc(), word)?)?;
        }
        self.call::<Brand>(rt, &words, Blank::new(1))
    }

    fn call<L: Reads>(
        &mut self,
        rt: &HostRuntime,
        words: &Vec<String>,
        blank: Blank,
    ) -> Result<Outcome, AllocError>
        requires name { blank.name ≡ L.name }
        requires parts { blank.parts ≡ L.parts }
        requires some { 0 < L.parts }
        requires may { AllMay L.may }
    {
        let mut slices = Vec::new(rt.alloc());
        for word in words {
            slices.push(word.as_str())?;
        }
        let mut steps = Steps::<L>::new(rt, blank);
        Ok(gract(
            rt.alloc(),
            slices.as_slice(),
            &mut self.files,
            &mut self.source,
            &mut self.sink,
            &mut steps,
        ))
    }
}

// The first word of a line, and what comes after the space that ends it.
fn first_word(line: &str) -> (&str, &str) {
    line.split_once(' ').unwrap_or((line, ""))
}

pub fn number(word: &str) -> u64 {
    word.parse().unwrap_or(0)
}

fn push_numbers(numbers: &mut Vec<u64>, first: u64, count: u64) -> Result<(), AllocError> {
    for number in first..first.saturating_add(count) {
        numbers.push(number)?;
    }
    Ok(())
}

// Adds the first `width` bytes of each number, the least first.
fn put_numbers(bytes: &mut Vec<u8>, width: usize, numbers: &str) -> Result<(), AllocError> {
    for word in numbers.split(' ') {
        let number = number(word).to_le_bytes();
        bytes.extend_from_slice(&number[..width.min(8)])?;
    }
    Ok(())
}

fn change(bytes: &mut Vec<u8>, place: usize, number: u64) {
    if let Some(byte) = bytes.get_mut(place) {
        *byte = u8::try_from(number).unwrap_or(0);
    }
}

// The first 512 bytes of a file; none where it cannot be read.
fn pulled(files: &mut MemFiles, alloc: Global, name: &str) -> Result<Vec<u8>, AllocError> {
    let mut held = [0; 512];
    let mut count = 0;
    if files.begin(name).is_ok() {
        count = files.pull(&mut held).unwrap_or(0);
    }
    Vec::from_slice(alloc, held.get(..count).unwrap_or(&[]))
}

// How many of the places for saves were free. They are used up.
fn free_places(files: &mut MemFiles) -> u64 {
    let mut free = 0;
    for nth in 1..=17 {
        if files.save("", b"").is_ok() {
            free = nth;
        }
    }
    free
}
