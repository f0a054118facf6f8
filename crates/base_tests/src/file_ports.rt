use host_ports::{DiskFiles, Failed, Files, MemFiles};
use std::alloc::Global;
use std::fs;
use std::fs::Permissions;
use std::os::unix::fs::{PermissionsExt, symlink};
use std::test::Fail;
use track_types::Memory;

// Three files of two names, in files with so much room whose calls of these numbers fail.
fn make_files(alloc: Global, room: usize, fails: &[u64]) -> Result<MemFiles, Memory> {
    let mut files = MemFiles::new(alloc, room, Vec::from_slice(alloc, fails)?)?;
    for (name, bytes) in [("a", b"first."), ("b", b"other."), ("a", b"second")] {
        files.put(name, bytes)?;
    }
    Ok(files)
}

/// What a call for a piece answers, and what the buffer of four bytes holds then.
type Pulled = (Result<usize, Failed>, &'static [u8; 4]);

/// No piece of a file that is not there.
const NOTHING: [Pulled; 1] = [(Ok(0), b"----")];

/// The pieces of a file in memory, where the second and the fourth call of the files fail.
const SECOND: [Pulled; 5] = [
    (Err(Failed), b"----"),
    (Ok(4), b"seco"),
    (Err(Failed), b"seco"),
    (Ok(2), b"ndco"),
    (Ok(0), b"ndco"),
];

const DIGITS: [Pulled; 4] = [
    (Ok(4), b"0123"),
    (Ok(4), b"4567"),
    (Ok(2), b"8967"),
    (Ok(0), b"8967"),
];

// Whether the file that was begun gives these pieces into one buffer, and so many bytes of it came.
fn is_pulled<F: Files>(files: &mut F, wants: &[Pulled], taken: u64) -> bool {
    let mut buf = [b'-'; 4];
    let mut is_so = true;
    for &(want, held) in wants {
        let found = files.pull(&mut buf);
        is_so = is_so && found == want && buf == *held;
    }
    is_so && files.taken() == taken
}

fn is_begun<F: Files>(files: &mut F, name: &str) -> bool {
    files.begin(name) == Ok(())
}

fn fails_by_number(alloc: Global) -> Result<bool, Memory> {
    let mut files = make_files(alloc, 0, &[2, 4])?;
    let last = is_begun(&mut files, "a") && is_pulled(&mut files, &SECOND, 6);
    Ok(last && !is_begun(&mut files, "c") && is_pulled(&mut files, &NOTHING, 0))
}

/// What is saved, where there is room for 40 bytes and the second call fails, and what the save answers.
const SAVED: [(&[u8], Result<(), Failed>); 3] = [
    (b"by number", Err(Failed)),
    (b"new", Ok(())),
    (b"longer than all of the room that is left", Err(Failed)),
];

fn saves_in_its_room(alloc: Global) -> Result<bool, Memory> {
    let mut files = make_files(alloc, 40, &[2])?;
    let mut is_so = is_begun(&mut files, "a");
    for (bytes, want) in SAVED {
        let saved = files.save("a", bytes);
        is_so = is_so && saved == want;
    }
    // The file that was begun before stays as it was.
    is_so = is_so && is_pulled(&mut files, &[(Ok(4), b"seco")], 4);
    Ok(is_so && has_sixteen_saves(&mut files))
}

// After three saves there is a place for thirteen more, and what was saved is read.
fn has_sixteen_saves(files: &mut MemFiles) -> bool {
    let mut is_so = true;
    for nth in 4..=17u32 {
        let saved = files.save("b", b"2");
        is_so = is_so && saved.is_ok() == (nth <= 16);
    }
    is_so && is_begun(files, "a") && is_pulled(files, &[(Ok(3), b"new-")], 3)
}

// Whether bytes that are passed come out as these.
fn is_passed(alloc: Global, files: &mut MemFiles, want: &[u8]) -> Result<bool, Memory> {
    let passed = files.pass(Vec::from_slice(alloc, b"here")?);
    Ok(passed.as_slice() == want)
}

fn passes_once_what_was_laid(alloc: Global) -> Result<bool, Memory> {
    let mut files = MemFiles::new(alloc, 0, Vec::new(alloc))?;
    files.lay(Vec::from_slice(alloc, b"laid")?);
    let is_first = is_passed(alloc, &mut files, b"laid")?;
    Ok(is_first && is_passed(alloc, &mut files, b"here")?)
}

#[test]
fn files_in_memory_fail_save_and_pass_as_they_are_told(rt: HostRuntime) -> Result<(), Fail> {
    assert!(rt; fails_by_number(rt.alloc())?, "by number");
    assert!(rt; saves_in_its_room(rt.alloc())?, "in the room");
    assert!(rt; passes_once_what_was_laid(rt.alloc())?, "what was laid");
    Ok(())
}

// A file and a link to it are saved: the link stays a link, and the file keeps its permissions.
fn is_saved_on_disk(
    host: &HostRuntime,
    files: &mut impl Files,
    path: &str,
    link: &str,
) -> Result<bool, Fail> {
    fs::write(host, path, "old and longer")?;
    fs::set_permissions(host, path, Permissions::from_mode(0o600))?;
    symlink(host, path, link)?;
    let mut is_so = true;
    for (name, bytes) in [(path, b"all of these".as_slice()), (link, b"0123456789")] {
        let saved = files.save(name, bytes);
        is_so = is_so && saved.is_ok() && is_linked(host, path, link)?;
    }
    fs::remove_file(host, link)?;
    Ok(is_so)
}

// Whether the link is one, and the file has its permissions.
fn is_linked(host: &HostRuntime, path: &str, link: &str) -> Result<bool, Fail> {
    let is_link = fs::symlink_metadata(host, link)?.is_symlink();
    let mode = fs::metadata(host, path)?.permissions().mode();
    Ok(is_link && mode & 0o777 == 0o600)
}

// A file that was saved is read to its end, and then missed.
fn is_read_and_missed(
    host: &HostRuntime,
    files: &mut impl Files,
    path: &str,
) -> Result<bool, Fail> {
    let is_read = is_begun(files, path) && is_pulled(files, &DIGITS, 10);
    fs::remove_file(host, path)?;
    Ok(is_read && !is_begun(files, path) && is_pulled(files, &NOTHING, 0))
}

#[test]
fn files_on_disk_are_saved_read_and_missed(rt: HostRuntime) -> Result<(), Fail> {
    let name = format!(in rt.alloc(); "file_ports-{}", std::process::id(rt.process()))?;
    let path = std::env::temp_dir(&rt)?.join(rt.alloc(), name.as_str())?;
    let link = path.with_extension(rt.alloc(), "link")?;
    let mut files = DiskFiles::new(&rt);
    let is_saved = is_saved_on_disk(&rt, &mut files, path.as_str(), link.as_str())?;
    assert!(rt; is_saved, "saved");
    assert!(rt;
        is_read_and_missed(&rt, &mut files, path.as_str())?,
        "read and missed"
    );
    Ok(())
}
