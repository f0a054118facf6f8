ghost use Rattle.std.specs.Prelude.{◌≤◌, take, length};
ghost use Rattle.std.specs.Io.{ReadsAtMost};
ghost use Rattle.std.specs.Io.KnownBytes.{Appends, Keeps, ReadConsumes};

use std::io;
use std::io::{Error, ErrorKind, Read, Write};

/// Reads once, and again where a signal interrupts it.
pub(crate) fn read_piece<R: Read>(reader: &mut R, buf: &mut [u8]) -> io::Result<usize>
    ensures within { ReadsAtMost result buf.new }
    ensures read { ReadConsumes (R.remaining reader.old) (R.remaining reader.new) result buf.new }
{
    for _ in 0..u64::MAX {
        match reader.read(buf) {
            Err(error) if error.kind() == ErrorKind::Interrupted => {}
            outcome => return outcome,
        }
    }
    Err(Error::from(ErrorKind::Interrupted))
}

/// Writes as much of the piece as the writer takes before it fails, and answers how much.
///
/// A writer that takes nothing has failed.
pub(crate) fn write_piece<W: Write>(writer: &mut W, piece: &[u8]) -> usize
    ensures within { result ≤ length piece.now }
    ensures written { let sent = take result piece.now in
        Appends (W.contents writer.old) (W.contents writer.new) sent }
{
    let mut sent = 0;
    for _ in 0..u64::MAX {
        if sent == piece.len() {
            break;
        }
        match writer.write(&piece[sent..]) {
            Ok(0) => break,
            Ok(count) => sent += count,
            Err(error) if error.kind() == ErrorKind::Interrupted => {}
            Err(_) => break,
        }
    }
    sent
}

/// Flushes the writer, and again where a signal interrupts it.
pub(crate) fn flush_all<W: Write>(writer: &mut W) -> io::Result<()>
    ensures { Keeps (W.contents writer.old) (W.contents writer.new) }
{
    for _ in 0..u64::MAX {
        match writer.flush() {
            Err(error) if error.kind() == ErrorKind::Interrupted => {}
            outcome => return outcome,
        }
    }
    Err(Error::from(ErrorKind::Interrupted))
}
