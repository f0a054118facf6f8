use crate::Failed;
use crate::filling::write_through;
use crate::replacing::replace_file;
use std::fs::{self, File};
use std::io::ErrorKind;
use std::rt;

/// Saves the bytes under that name. A file that may be written is replaced by a new one with its
/// permissions. A link, a device or a pipe stays, and what it leads to is written.
pub(crate) fn save_file<R: rt::Files>(rt: &R, name: &str, bytes: &[u8]) -> Result<(), Failed> {
    match fs::symlink_metadata(rt, name) {
        Ok(old) if old.is_file() => {
            check_writable(rt, name)?;
            replace_file(rt, name, Some(old.permissions()), bytes)
        }
        Ok(_) => write_in_place(rt, name, bytes),
        Err(error) if error.kind() == ErrorKind::NotFound => replace_file(rt, name, None, bytes),
        Err(_) => Err(Failed),
    }
}

/// Refuses a file that may not be written, and changes none.
fn check_writable<R: rt::Files>(rt: &R, name: &str) -> Result<(), Failed> {
    if File::options().write(true).open(rt, name).is_err() {
        return Err(Failed);
    }
    Ok(())
}

/// Writes the bytes to what has that name, in the place of what it holds. A folder is refused.
fn write_in_place<R: rt::Files>(rt: &R, name: &str, bytes: &[u8]) -> Result<(), Failed> {
    let Ok(mut file) = File::create(rt, name) else {
        return Err(Failed);
    };
    write_through(&mut file, bytes)
}
