use host_ports::{
    CalmSource, Cut, Failed, InputSource, MemSink, MemSource, NullSink, OutputSink, Sink, Source,
};
use std::alloc::Global;
use std::io;
use std::io::{Error, ErrorKind, Read, Write};
use std::test::Fail;
use track_types::Memory;

/// What a device does at one call.
#[derive(Clone, Copy)]
enum Step {
    Move(usize),
    Interrupt,
    Break,
}

/// A reader of a text that moves by steps, and then is at its end.
#[derive(Drop)]
struct StepReader<'a> {
    steps: &'a [Step],
    text: &'a [u8],
}

impl<'a> Read for StepReader<'a> {
    fn read(&mut self, buf: &mut [u8]) -> io::Result<usize> {
        let most = next_step(&mut self.steps)?.min(buf.len());
        self.text.read(&mut buf[..most])
    }
}

/// A writer that moves by steps, and then takes nothing.
#[derive(Drop)]
struct StepWriter<'a> {
    steps: &'a [Step],
    got: Vec<u8>,
    flushed: usize,
}

impl<'a> Write for StepWriter<'a> {
    fn write(&mut self, buf: &[u8]) -> io::Result<usize> {
        let count = next_step(&mut self.steps)?.min(buf.len());
        self.got.extend_from_slice(&buf[..count])?;
        Ok(count)
    }

    fn flush(&mut self) -> io::Result<()> {
        self.flushed = self.got.len();
        Ok(())
    }
}

fn next_step(steps: &mut &[Step]) -> io::Result<usize> {
    let Some((step, later)) = steps.split_first() else {
        return Ok(0);
    };
    *steps = later;
    match step {
        Step::Move(most) => Ok(*most),
        Step::Interrupt => Err(Error::from(ErrorKind::Interrupted)),
        Step::Break => Err(Error::from(ErrorKind::BrokenPipe)),
    }
}

/// What a call of a source answers, and what the buffer of five bytes holds then.
type Listened = (Result<usize, Failed>, &'static [u8; 5]);

/// The pieces of a source in memory whose second call fails.
const PIECES: [Listened; 5] = [
    (Ok(3), b"abc--"),
    (Err(Failed), b"abc--"),
    (Ok(3), b"def--"),
    (Ok(1), b"gef--"),
    (Ok(0), b"gef--"),
];

/// A calm source fills the buffer.
const FILLED: [Listened; 2] = [(Ok(5), b"abcde"), (Ok(2), b"fgcde")];

/// An input whose reader is interrupted, gives two bytes, breaks, and then gives the others.
const BROKEN: [Listened; 4] = [
    (Ok(2), b"ab---"),
    (Err(Failed), b"ab---"),
    (Ok(3), b"cde--"),
    (Ok(0), b"cde--"),
];

const READS: [Step; 4] = [Step::Interrupt, Step::Move(2), Step::Break, Step::Move(9)];

// Whether a source that is listened to into one buffer answers so, and so many bytes came in all.
fn is_heard<S: Source>(source: &mut S, wants: &[Listened], taken: u64) -> bool {
    let mut buf = [b'-'; 5];
    let mut is_so = true;
    for &(want, held) in wants {
        let found = source.listen(&mut buf);
        is_so = is_so && found == want && buf == *held;
    }
    is_so && source.taken() == taken
}

fn is_heard_in_pieces(alloc: Global) -> Result<bool, Memory> {
    let bytes = Vec::from_slice(alloc, b"abcdefg")?;
    let mut source = MemSource::new(bytes, 3, vec![in alloc; 2]?);
    Ok(is_heard(&mut source, &PIECES, 7))
}

fn is_heard_calmly(alloc: Global) -> Result<bool, Memory> {
    let mut source = CalmSource::new(Vec::from_slice(alloc, b"abcdefg")?);
    Ok(is_heard(&mut source, &FILLED, 7))
}

fn is_heard_through_faults() -> bool {
    let reader = StepReader {
        steps: &READS,
        text: b"abcde",
    };
    is_heard(&mut InputSource::new(reader), &BROKEN, 5)
}

#[test]
fn sources_give_pieces_and_fail_where_they_are_told(rt: HostRuntime) -> Result<(), Fail> {
    assert!(rt; is_heard_in_pieces(rt.alloc())?, "pieces in memory");
    assert!(rt; is_heard_calmly(rt.alloc())?, "a calm source");
    assert!(rt; is_heard_through_faults(), "an input that fails once");
    Ok(())
}

/// What a writer does, a piece that is said to it, what that call answers, and how many bytes the writer has then.
type Written = (&'static [Step], &'static [u8], Result<(), Cut>, usize);

/// The writer would take more after it breaks, but a fault ends the piece.
const BREAKS: [Step; 5] = [
    Step::Move(3),
    Step::Interrupt,
    Step::Move(3),
    Step::Break,
    Step::Move(9),
];

const STOPS: [Step; 3] = [Step::Move(5), Step::Move(0), Step::Move(9)];

const TAKES_ALL: [Step; 2] = [Step::Move(4), Step::Move(9)];

const WRITES: [Written; 4] = [
    (&BREAKS, b"12345678", Err(Cut { sent: 6 }), 6),
    (&STOPS, b"12345678", Err(Cut { sent: 5 }), 5),
    (&TAKES_ALL, b"12345678", Ok(()), 8),
    (&TAKES_ALL, b"1", Ok(()), 1),
];

// Whether an output says what its writer takes, and flushes what was said in whole.
fn is_written(alloc: Global, written: &Written) -> bool {
    let &(steps, piece, want, held) = written;
    let mut writer = StepWriter {
        steps,
        got: Vec::new(alloc),
        flushed: 0,
    };
    let said = OutputSink::new(&mut writer).say(piece);
    let flushed = if want.is_ok() { held } else { 0 };
    said == want && Some(writer.got.as_slice()) == piece.get(..held) && writer.flushed == flushed
}

/// The pieces that are said to a sink in memory with room for eight bytes, whose second call fails.
const SAID: [(&[u8], Result<(), Cut>); 3] = [
    (b"12345", Ok(())),
    (b"silent", Err(Cut { sent: 0 })),
    (b"6789", Err(Cut { sent: 3 })),
];

fn is_said(alloc: Global) -> Result<bool, Memory> {
    let mut sink = MemSink::new(alloc, 8, vec![in alloc; 2]?)?;
    let mut is_so = true;
    for (piece, want) in SAID {
        let said = sink.say(piece);
        is_so = is_so && said == want;
    }
    Ok(is_so && sink.as_slice() == b"12345678".as_slice())
}

#[test]
fn sinks_say_what_they_take(rt: HostRuntime) -> Result<(), Fail> {
    assert!(rt; is_said(rt.alloc())?, "a sink in memory");
    assert!(rt; NullSink::new().say(b"dropped") == Ok(()), "no sink");
    for written in &WRITES {
        assert!(rt; is_written(rt.alloc(), written), "an output");
    }
    Ok(())
}
