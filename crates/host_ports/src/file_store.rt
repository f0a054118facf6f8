ghost use Rattle.std.specs.Prelude.{◌≡◌, ◌+◌, ◌-◌, ◌≤◌, ◌++◌, ◌∷◌, [], Some, None, OnOk, MatchOption, length, slice_range, vec_len, vec_capacity};
ghost use Rattle.std.specs.List.{All};
ghost use Rattle.host_ports.specs.FileMap.{file_named};
ghost use Rattle.host_ports.specs.FileStore.{bytes_left, file_map, IsBegun, IsInStore};

use std::alloc::Global;
use std::marker::Model;
use track_types::Memory;

/// Where a file lies in what is stored: its name from `start`, its bytes from `middle` up to `end`.
#[derive(Clone, Copy)]
pub(crate) struct HeldFile {
    pub(crate) start: usize,
    pub(crate) middle: usize,
    pub(crate) end: usize,
}

/// The file that was begun, and how many of its bytes came.
#[derive(Clone, Copy)]
pub(crate) struct Begun {
    pub(crate) file: HeldFile,
    pub(crate) taken: usize,
}

/// Names and bytes of files, one after another. None is let go, since it may have been begun.
#[derive(Drop)]
pub(crate) struct FileStore {
    stored: Vec<u8>,
    files: Vec<HeldFile>,
}

impl Model for FileStore {
    ghost use Rattle.std.specs.Prelude.{◌-◌, length, vec_capacity};
    ghost use Rattle.std.specs.List.{All};
    ghost use Rattle.host_ports.specs.FileStore.{file_map, FileStoreView, IsInStore};

    ghost Value = { FileStoreView };

    ghost view = { λ s. record {
      stored = s.stored.items;
      files = file_map s.stored.items s.files.items;
      room = vec_capacity s.stored - length s.stored.items;
      places = vec_capacity s.files - length s.files.items;
    } };

    ghost invariant = { λ s. All (IsInStore s.stored.items) s.files.items };
}

impl FileStore {
    pub(crate) fn new(alloc: Global) -> Self
        ensures files { result.files ≡ [] }
        ensures stored { result.stored ≡ [] }
    {
        FileStore {
            stored: Vec::new(alloc),
            files: Vec::new(alloc),
        }
    }

    /// Reserves room for so many bytes and files more.
    pub(crate) fn reserve(&mut self, room: usize, places: usize) -> Result<(), Memory>
        ensures files { self.new.files ≡ self.old.files }
        ensures stored { self.new.stored ≡ self.old.stored }
        ensures room { OnOk result (room ≤ self.new.room) }
        ensures places { OnOk result (places ≤ self.new.places) }
        ensures room_stays { self.old.room ≤ self.new.room }
        ensures places_stay { self.old.places ≤ self.new.places }
    {
        self.stored.reserve(room)?;
        self.files.reserve(places)?;
        Ok(())
    }

    /// Stores a file, which is then found before all others of its name. It takes no memory.
    pub(crate) fn push(&mut self, name: &str, bytes: &[u8])
        requires room { length name.now + length bytes.now ≤ self.old.room }
        requires places { 1 ≤ self.old.places }
        ensures files { self.new.files ≡ (name.now, bytes.now) ∷ self.old.files }
        ensures stored { self.new.stored ≡ self.old.stored ++ (name.now ++ bytes.now) }
        ensures room { self.old.room ≤ self.new.room + (length name.now + length bytes.now) }
        ensures places { self.old.places ≤ self.new.places + 1 }
    {
        let start = self.stored.len();
        append(&mut self.stored, name.as_bytes());
        let middle = self.stored.len();
        append(&mut self.stored, bytes);
        let end = self.stored.len();
        self.files.push_reserved(HeldFile { start, middle, end });
    }

    /// The newest file of that name.
    pub(crate) fn newest(&self, name: &str) -> Option<HeldFile>
        ensures { MatchOption result
            (file_named self.now.files name.now ≡ None)
            (λ file. IsInStore self.now.stored file
            × (file_named self.now.files name.now ≡ Some (slice_range self.now.stored file.middle file.end))) }
    {
        newest_file(&self.stored, &self.files, name.as_bytes())
    }

    /// The bytes that are still to come of the file that was begun.
    pub(crate) fn bytes_to_come(&self, begun: Option<Begun>) -> &[u8]
        requires { IsBegun self.now.stored begun }
        ensures { result.now ≡ bytes_left self.now.stored begun }
    {
        match begun {
            Some(begun) => &self.stored[begun.file.middle..begun.file.end][begun.taken..],
            None => &[],
        }
    }
}

/// The last of the files that has that name.
fn newest_file(stored: &[u8], files: &[HeldFile], name: &[u8]) -> Option<HeldFile>
    requires { All (IsInStore stored.now) files.now }
    ensures { MatchOption result
        (file_named (file_map stored.now files.now) name.now ≡ None)
        (λ file. IsInStore stored.now file
        × (file_named (file_map stored.now files.now) name.now
        ≡ Some (slice_range stored.now file.middle file.end))) }
{
    let mut found = None;
    for (place, file) in files.iter().enumerate() {
        if &stored[file.start..file.middle] == name {
            found = Some(*file);
        }
    }
    found
}

/// Appends bytes for which there is room.
fn append(stored: &mut Vec<u8>, bytes: &[u8])
    requires { vec_len stored.old + length bytes.now ≤ vec_capacity stored.old }
    ensures items { stored.new.items ≡ stored.old.items ++ bytes.now }
    ensures capacity { vec_capacity stored.old ≤ vec_capacity stored.new }
{
    let Ok(()) = stored.extend_from_slice(bytes) else {
        unreachable!();
    };
}
