ghost use Rattle.std.specs.Prelude.{OnOk};
ghost use Rattle.std.specs.Io.KnownBytes.{Appends};

use crate::Failed;
use crate::retrying::{flush_all, write_piece};
use std::fs::OpenFile;
use std::io::Write;
use std::os::unix::fs::FileTypeExt;

/// Writes all of the bytes, and waits until the device has them, if it is one that keeps bytes.
pub(crate) fn write_through<F: Write + OpenFile>(file: &mut F, bytes: &[u8]) -> Result<(), Failed>
    ensures written { OnOk result (Appends (F.contents file.old) (F.contents file.new) bytes.now) }
{
    if write_piece(file, bytes) < bytes.len() || flush_all(file).is_err() {
        return Err(Failed);
    }
    settle(file)
}

/// Waits until the device has the file's bytes. A pipe and a terminal keep none, and there is nothing to wait for.
fn settle<F: OpenFile>(file: &F) -> Result<(), Failed> {
    let Ok(metadata) = file.metadata() else {
        return Err(Failed);
    };
    let kind = metadata.file_type();
    if (kind.is_file() || kind.is_block_device()) && file.sync_all().is_err() {
        return Err(Failed);
    }
    Ok(())
}
