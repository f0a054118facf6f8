use history::{FileHistory, History, LoadHistory};
use std::mem::size_of;
use std::test::Fail;

#[test]
fn a_history_takes_no_bytes(rt: HostRuntime) -> Result<(), Fail> {
    let mut history = History::new();
    history.append(b"some");
    let mut files = FileHistory::new();
    files.put(b"name", b"bytes");
    let mut loads = LoadHistory::new();
    loads.open(b"name", true);
    loads.grow(b"bytes");
    assert!(rt; size_of::<History>() == 0, "of bytes");
    assert!(rt; size_of::<FileHistory>() == 0, "of files");
    assert!(rt; size_of::<LoadHistory>() == 0, "of loads");
    Ok(())
}
