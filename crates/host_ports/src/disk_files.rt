ghost use Rattle.std.specs.Prelude.{◌≡◌, ◌<◌, ◌≤◌, ◌∷◌, Some, None, OnOk, OnErr, is_err, is_ok, length};
ghost use Rattle.std.specs.Io.{ReadsAtMost};
ghost use Rattle.std.specs.Io.KnownBytes.{IsAtEnd, ReadConsumes};
ghost use Rattle.track_types.specs.declared.limit.TheConstants.{MAX_INDEX};
ghost use Rattle.host_ports.specs.Device.{new_disk, after_read, after_disk_save};
ghost use Rattle.history.specs.Loads.{new_load};
ghost use Rattle.host_ports.specs.Histories.{loads_after};
ghost use Rattle.host_ports.specs.NumberedCalls.{one_more, one_more_if};

use crate::meter::Meter;
use crate::retrying::read_piece;
use crate::saving::save_file;
use crate::{Failed, Files};
use history::{FileHistory, LoadHistory};
use std::marker::Model;
use std::{fs, rt};

/// The files of a runtime. Contracts see what was loaded and what was saved, and nothing else of what the files
/// hold. A `pass` always gives what it is handed.
///
/// A file that was read to its end is closed, so that nothing later can meet it by its descriptor.
#[derive(Drop)]
pub struct DiskFiles<'a, R: rt::Files> {
    rt: &'a R,
    begun: Option<R::File>,
    loads: LoadHistory,
    meter: Meter,
    begins: u64,
    saves: u64,
    save_faults: u64,
    saved: FileHistory,
}

impl<'a, R: rt::Files> Model for DiskFiles<'a, R> {
    ghost use Rattle.std.specs.Prelude.{Some, []};
    ghost use Rattle.std.specs.Option.{option_map_or};
    ghost use Rattle.host_ports.specs.Device.{DiskView};

    ghost Value = { DiskView };

    // Where no file was begun, nothing is left of it.
    ghost view = { λ f. record {
      left = option_map_or (λ file. R.File.remaining file) f.begun (Some []);
      loads = f.loads;
      counts = f.meter;
      begins = f.begins;
      saves = f.saves;
      save_faults = f.save_faults;
      saved = f.saved;
    } };
}

impl<'a, R: rt::Files> DiskFiles<'a, R> {
    /// The files of that runtime, before any was begun.
    pub fn new(rt: &'a R) -> Self
        ensures { result ≡ new_disk }
    {
        DiskFiles {
            rt,
            begun: None,
            loads: LoadHistory::new(),
            meter: Meter::new(),
            begins: 0,
            saves: 0,
            save_faults: 0,
            saved: FileHistory::new(),
        }
    }
}

impl<'a, R: rt::Files> Files for DiskFiles<'a, R> {
    ghost map = { λ _. None };

    ghost rest = { λ _. None };

    ghost loads = { λ f. f.loads };

    ghost saved = { λ f. f.saved };

    ghost taken = { λ f. f.counts.taken };

    ghost load_faults = { λ f. f.counts.faults };

    ghost save_faults = { λ f. f.save_faults };

    ghost saves = { λ f. f.saves };

    ghost begins = { λ f. f.begins };

    ghost given = { λ _ bytes. bytes };

    /// Opens the file of that name. A missing file is a fault too.
    fn begin(&mut self, name: &str) -> Result<(), Failed>
        ensures err { OnErr result (IsAtEnd self.new.left) }
        ensures fresh { self.new.counts.taken ≡ 0 }
        ensures loads { self.new.loads ≡ new_load name.now (is_ok result) ∷ self.old.loads }
        ensures saved { self.new.saved ≡ self.old.saved }
        ensures counted { let before = self.old.counts.faults in
            self.new.counts.faults ≡ one_more_if (is_err result) before }
        ensures faults { self.old.counts.faults ≤ self.new.counts.faults }
        ensures begins { self.new.begins ≡ one_more self.old.begins }
        ensures saves { self.new.saves ≡ self.old.saves }
        ensures save_faults { self.new.save_faults ≡ self.old.save_faults }
    {
        self.begins = self.begins.saturating_add(1);
        self.begun = None;
        self.meter.forget_taken();
        let Ok(file) = fs::open(self.rt, name) else {
            self.loads.open(name.as_bytes(), false);
            self.meter.count_fault();
            return Err(Failed);
        };
        self.loads.open(name.as_bytes(), true);
        self.begun = Some(file);
        Ok(())
    }

    /// Reads once, and again where a signal interrupts it. Any other error is a fault. At its end the file is
    /// closed, and stays at its end even where more bytes are added to it.
    fn pull(&mut self, buf: &mut [u8]) -> Result<usize, Failed>
        requires { 0 < length buf.old }
        ensures within { ReadsAtMost result buf.new }
        ensures read { OnOk result (ReadConsumes self.old.left self.new.left result buf.new) }
        ensures loads { self.new.loads ≡ loads_after result buf.new self.old.loads }
        ensures saved { self.new.saved ≡ self.old.saved }
        ensures counts { self.new.counts ≡ after_read self.old.counts result }
        ensures faults { self.old.counts.faults ≤ self.new.counts.faults }
        ensures begins { self.new.begins ≡ self.old.begins }
        ensures saves { self.new.saves ≡ self.old.saves }
        ensures save_faults { self.new.save_faults ≡ self.old.save_faults }
    {
        let Some(file) = &mut self.begun else {
            self.loads.grow(&[]);
            return Ok(0);
        };
        let count = self.meter.count_read(read_piece(file, buf))?;
        self.loads.grow(&buf[..count]);
        if count == 0 {
            self.begun = None;
        }
        Ok(count)
    }

    /// Writes a new file beside the one of that name, waits until the device has it, and renames it. The
    /// new file has the permissions of the old one. A link, a device or a pipe stays, and what it leads
    /// to is written. A file that may not be written is a fault, as is any error.
    fn save(&mut self, name: &str, bytes: &[u8]) -> Result<(), Failed>
        ensures after { self.new ≡ after_disk_save self.old name.now bytes.now (is_err result) }
        ensures faults { self.old.save_faults ≤ self.new.save_faults }
    {
        let outcome = save_file(self.rt, name, bytes);
        self.saves = self.saves.saturating_add(1);
        if outcome.is_err() {
            self.save_faults = self.save_faults.saturating_add(1);
        } else {
            self.saved.put(name.as_bytes(), bytes);
        }
        outcome
    }

    fn taken(&self) -> u64 {
        self.meter.taken()
    }

    fn pass(&mut self, bytes: Vec<u8>) -> Vec<u8>
        requires { length bytes.items ≤ MAX_INDEX }
        ensures given { result.items ≡ bytes.items }
        ensures after { self.new ≡ self.old }
    {
        bytes
    }
}
