use crate::Failed;
use crate::filling::write_through;
use arrayvec::ArrayString;
use std::fmt::Write as _;
use std::fs::{self, File, OpenFile, Permissions};
use std::io::{ErrorKind, Write};
use std::os::unix::fs::{OpenOptionsExt, PermissionsExt};
use std::rt;

/// A path. Systems take none that is longer.
type PathText = ArrayString<4096>;

/// How many names beside the file are tried before a save gives up.
const MOST_TRIES: u32 = 100;

/// The permissions of a new file, before the process's mask takes some off.
const NEW_MODE: u32 = 0o666;

/// Writes the bytes to a new file beside the one of that name, and puts it in that one's place once
/// it is on the device. After a failure the new file is removed.
///
/// Where there is an old file, the new one has its permissions before it has any bytes.
pub(crate) fn replace_file<R: rt::Files>(
    rt: &R,
    name: &str,
    old: Option<Permissions>,
    bytes: &[u8],
) -> Result<(), Failed> {
    let mode = match &old {
        Some(permissions) => permissions.mode(),
        None => NEW_MODE,
    };
    let (path, mut file) = create_beside(rt, name, mode)?;
    if fill(&mut file, old, bytes).is_err() || fs::rename(rt, path.as_str(), name).is_err() {
        // The file of that name stands, whether or not the new one is removed.
        let _ = fs::remove_file(rt, path.as_str());
        return Err(Failed);
    }
    Ok(())
}

/// Creates a file beside the one of that name, under a name that no file has.
fn create_beside<R: rt::Files>(
    rt: &R,
    name: &str,
    mode: u32,
) -> Result<(PathText, R::File), Failed> {
    let mut how = File::options();
    how.write(true).create_new(true).mode(mode);
    for number in 0..MOST_TRIES {
        let mut path = PathText::new();
        if write!(path, "{name}.{number}.new").is_err() {
            break;
        }
        match how.open(rt, path.as_str()) {
            Ok(file) => return Ok((path, file)),
            Err(error) if error.kind() == ErrorKind::AlreadyExists => {}
            Err(_) => break,
        }
    }
    Err(Failed)
}

/// Gives the new file the permissions of the old one, if there is one, and then the bytes.
fn fill<F: Write + OpenFile>(
    file: &mut F,
    old: Option<Permissions>,
    bytes: &[u8],
) -> Result<(), Failed> {
    if let Some(permissions) = old {
        if file.set_permissions(permissions).is_err() {
            return Err(Failed);
        }
    }
    write_through(file, bytes)
}
