ghost use Rattle.std.specs.Prelude.{◌≡◌, ◌↔◌, ◌⊎◌, ◌<◌, ◌≤◌, Some, None, IsTrue, IsErr, OnOk, OnErr, IfOk, length, take, drop, ◌++◌};
ghost use Rattle.std.specs.Io.KnownBytes.{ReadConsumes};
ghost use Rattle.track_types.specs.declared.limit.TheConstants.{MAX_INDEX};
ghost use Rattle.host_ports.specs.NumberedCalls.{fails_next};
ghost use Rattle.host_ports.specs.FileMap.{file_named};
ghost use Rattle.host_ports.specs.MemFiles.{new_files, after_put, after_begin, next_pull, after_pull, is_refused, after_save, given_by};

use crate::copying::copy_front;
use crate::file_store::{Begun, FileStore};
use crate::numbered_calls::NumberedCalls;
use crate::{Failed, Files};
use history::{FileHistory, LoadHistory};
use std::alloc::Global;
use std::marker::Model;
use track_types::Memory;

/// For how many saves places are reserved.
const MOST_SAVES: usize = 16;

/// Files in memory, which fail at the calls that they are given.
#[derive(Drop)]
pub struct MemFiles {
    store: FileStore,
    begun: Option<Begun>,
    loads: LoadHistory,
    calls: NumberedCalls,
    room: usize,
    begins: u64,
    saves: u64,
    save_faults: u64,
    laid: Option<Vec<u8>>,
    saved: FileHistory,
}

impl Model for MemFiles {
    ghost use Rattle.std.specs.Prelude.{◌≤◌, ◌+◌, length};
    ghost use Rattle.track_types.specs.declared.limit.TheConstants.{MAX_INDEX};
    ghost use Rattle.std.specs.Option.{option_map, IfSome};
    ghost use Rattle.host_ports.specs.MemFiles.{MemFilesView};
    ghost use Rattle.host_ports.specs.FileStore.{bytes_left, taken_count, IsBegun};

    ghost Value = { MemFilesView };

    ghost view = { λ f. record {
      files = f.store.files;
      rest = bytes_left f.store.stored f.begun;
      loads = f.loads;
      taken = taken_count f.begun;
      calls = f.calls;
      room = f.room;
      begins = f.begins;
      saves = f.saves;
      save_faults = f.save_faults;
      laid = option_map (λ bytes. bytes.items) f.laid;
      saved = f.saved;
    } };

    // Room and places for the saves are reserved, so that saving takes no memory.
    ghost invariant = { λ f. IsBegun f.store.stored f.begun
        × (f.room ≤ f.store.room)
        × (16 ≤ f.saves + f.store.places)
        × IfSome f.laid (λ bytes. length bytes.items ≤ MAX_INDEX) };
}

impl MemFiles {
    /// No files. It reserves `room` bytes for the names and the bytes of all saves, and places for 16
    /// saves.
    ///
    /// The calls of `begin`, `pull` and `save` are numbered together from 1, and those whose numbers
    /// are in `fails` fail and are counted as faults.
    pub fn new(alloc: Global, room: usize, fails: Vec<u64>) -> Result<Self, Memory>
        ensures { IfOk result (λ files. files ≡ new_files room fails.items) }
    {
        let mut store = FileStore::new(alloc);
        store.reserve(room, MOST_SAVES)?;
        Ok(MemFiles {
            store,
            begun: None,
            loads: LoadHistory::new(),
            calls: NumberedCalls::new(fails),
            room,
            begins: 0,
            saves: 0,
            save_faults: 0,
            laid: None,
            saved: FileHistory::new(),
        })
    }

    /// Puts bytes under a name, in place of what it held.
    ///
    /// A file that was begun stays as it was, so what a name held before is kept until the files
    /// are dropped.
    pub fn put(&mut self, name: &str, bytes: &[u8]) -> Result<(), Memory>
        ensures ok { OnOk result (self.new ≡ after_put self.old name.now bytes.now) }
        ensures err { OnErr result (self.new ≡ self.old) }
    {
        let Some(room) = self.room.checked_add(name.len() + bytes.len()) else {
            return Err(Memory);
        };
        self.store.reserve(room, MOST_SAVES + 1)?;
        self.store.push(name, bytes);
        Ok(())
    }

    /// Lays at most 2^30 bytes, which the next `pass` gives in place of what it is handed.
    pub fn lay(&mut self, bytes: Vec<u8>)
        requires { length bytes.items ≤ MAX_INDEX }
        ensures { self.new ≡ record self.old { laid = Some bytes.items } }
    {
        self.laid = Some(bytes);
    }
}

impl Files for MemFiles {
    ghost map = { λ f. Some f.files };

    ghost rest = { λ f. Some f.rest };

    ghost loads = { λ f. f.loads };

    ghost saved = { λ f. f.saved };

    ghost taken = { λ f. f.taken };

    ghost load_faults = { λ f. f.calls.faults };

    ghost save_faults = { λ f. f.save_faults };

    ghost saves = { λ f. f.saves };

    ghost begins = { λ f. f.begins };

    ghost given = { λ f. given_by f.laid };

    /// Begins the file of that name. A name that is not held is no fault of the device.
    fn begin(&mut self, name: &str) -> Result<(), Failed>
        ensures fails { IsErr result ↔
            (IsTrue (fails_next self.old.calls) ⊎ (file_named self.old.files name.now ≡ None)) }
        ensures after { self.new ≡ after_begin self.old name.now }
        ensures faults { self.old.calls.faults ≤ self.new.calls.faults }
    {
        self.begins = self.begins.saturating_add(1);
        self.begun = None;
        let found = match self.calls.make() {
            Ok(()) => self.store.newest(name),
            Err(Failed) => None,
        };
        self.loads.open(name.as_bytes(), found.is_some());
        let file = found.ok_or(Failed)?;
        self.begun = Some(Begun { file, taken: 0 });
        Ok(())
    }

    /// Gives as many bytes as are left of the file and have room.
    fn pull(&mut self, buf: &mut [u8]) -> Result<usize, Failed>
        requires { 0 < length buf.old }
        ensures fails { IsErr result ↔ IsTrue (fails_next self.old.calls) }
        ensures count { IfOk result (λ count. count ≡ next_pull self.old (length buf.old)) }
        ensures filled { let count = next_pull self.old (length buf.old) in
            buf.new ≡ take count self.old.rest ++ drop count buf.old }
        ensures after { self.new ≡ after_pull self.old (length buf.old) }
        ensures read { ReadConsumes (Some self.old.rest) (Some self.new.rest) result buf.new }
        ensures faults { self.old.calls.faults ≤ self.new.calls.faults }
    {
        self.calls.make()?;
        let count = copy_front(self.store.bytes_to_come(self.begun), buf);
        if let Some(begun) = &mut self.begun {
            begun.taken += count;
        }
        self.loads.grow(&buf[..count]);
        Ok(count)
    }

    /// Saves in the room that is left. It fails by its number, for want of room, and from the
    /// seventeenth call on, and each failure is counted. It takes no memory.
    fn save(&mut self, name: &str, bytes: &[u8]) -> Result<(), Failed>
        ensures fails { IsErr result ↔ IsTrue (is_refused self.old name.now bytes.now) }
        ensures after { self.new ≡ after_save self.old name.now bytes.now }
        ensures faults { self.old.save_faults ≤ self.new.save_faults }
    {
        let is_late = self.saves >= MOST_SAVES as u64;
        self.saves = self.saves.saturating_add(1);
        let length = name.len() + bytes.len();
        if self.calls.number() || is_late || self.room < length {
            self.save_faults = self.save_faults.saturating_add(1);
            return Err(Failed);
        }
        self.room -= length;
        self.store.push(name, bytes);
        self.saved.put(name.as_bytes(), bytes);
        Ok(())
    }

    fn taken(&self) -> u64 {
        self.begun.map_or(0, |begun| begun.taken as u64)
    }

    /// Gives the bytes that were laid, once, and else those that it is handed.
    fn pass(&mut self, bytes: Vec<u8>) -> Vec<u8>
        requires { length bytes.items ≤ MAX_INDEX }
        ensures given { result.items ≡ given_by self.old.laid bytes.items }
        ensures within { length result.items ≤ MAX_INDEX }
        ensures after { self.new ≡ record self.old { laid = None } }
    {
        match self.laid.take() {
            Some(laid) => laid,
            None => bytes,
        }
    }
}
