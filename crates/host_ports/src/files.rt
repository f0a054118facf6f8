ghost use Rattle.std.specs.Prelude.{◌≡◌, ℕ, ◌+◌, ◌<◌, ◌≤◌, ◌⊎◌, List, ◌∷◌, Option, length, is_err, is_ok, OnOk, OnErr};
ghost use Rattle.std.specs.Io.{ReadsAtMost};
ghost use Rattle.std.specs.Io.KnownBytes.{ReadConsumes};
ghost use Rattle.track_types.specs.declared.limit.TheConstants.{MAX_INDEX};
ghost use Rattle.history.specs.Loads.{Load, new_load};
ghost use Rattle.host_ports.specs.Faults.{Rose, read_count};
ghost use Rattle.host_ports.specs.FileMap.{FileMap, IsMissing, IsOpened, IsSaved, KeepsOthers, LeavesNothing, with_file};
ghost use Rattle.host_ports.specs.FilesState.{state_of};
ghost use Rattle.host_ports.specs.Histories.{loads_after};
ghost use Rattle.host_ports.specs.NumberedCalls.{one_more};

use crate::Failed;

/// Files that are read by name, one at a time, from front to end, and saved by name at once.
///
/// Files are told where an implementation says what they hold: those in memory do so, and those on
/// disk do not. Counts of faults never fall, and all counts stop at 2^64 - 1. A call that does not
/// fail leaves the counts of faults as they were.
pub trait Files {
    /// The files by name, where they are told.
    ghost map: { Self → Option FileMap };

    /// The bytes of the begun file that are still to come, where they are told.
    ghost rest: { Self → Option (List ℕ) };

    /// What was loaded: the name of each call of `begin`, whether it could be begun, the bytes that came of it, and
    /// whether it ended, newest first. All files tell it.
    ghost loads: { Self → List Load };

    /// How many bytes of the begun file came.
    ghost taken: { Self → ℕ };

    /// What was saved: the name and the bytes of each save that did not fail, newest first. All files tell it.
    ghost saved: { Self → FileMap };

    /// How often loading a file failed.
    ghost load_faults: { Self → ℕ };

    /// How often saving a file failed.
    ghost save_faults: { Self → ℕ };

    /// How many calls of `save` were made.
    ghost saves: { Self → ℕ };

    /// How many calls of `begin` were made.
    ghost begins: { Self → ℕ };

    /// What the next `pass` gives for at most 2^30 bytes.
    ghost given: { Self → List ℕ → List ℕ };

    /// Begins the file of that name, from its first byte.
    ///
    /// It fails where the device does, or where there is no such file, and then nothing is left to come.
    fn begin(&mut self, name: &str) -> Result<(), Failed>
        ensures opened { OnOk result (IsOpened (map self.old) name.now (rest self.new)) }
        ensures cause { OnErr result
            (Rose (load_faults self.old) (load_faults self.new) ⊎ IsMissing (map self.old) name.now) }
        ensures err { OnErr result (LeavesNothing (rest self.old) (rest self.new)) }
        ensures fresh { taken self.new ≡ 0 }
        ensures loads { loads self.new ≡ new_load name.now (is_ok result) ∷ loads self.old }
        ensures saved { saved self.new ≡ saved self.old }
        ensures begins { begins self.new ≡ one_more (begins self.old) }
        ensures map { map self.new ≡ map self.old }
        ensures untouched { OnOk result (load_faults self.new ≡ load_faults self.old) }
        ensures faults { load_faults self.old ≤ load_faults self.new }
        ensures saves { saves self.new ≡ saves self.old }
        ensures save_faults { save_faults self.new ≡ save_faults self.old }
        ensures given { given self.new ≡ given self.old };

    /// Takes the next bytes of the begun file into the front of the buffer, and answers how many: 0
    /// exactly at the file's end.
    ///
    /// It fails where the device does, and then nothing was taken.
    fn pull(&mut self, buf: &mut [u8]) -> Result<usize, Failed>
        requires { 0 < length buf.old }
        ensures within { ReadsAtMost result buf.new }
        ensures read { ReadConsumes (rest self.old) (rest self.new) result buf.new }
        ensures loads { loads self.new ≡ loads_after result buf.new (loads self.old) }
        ensures saved { saved self.new ≡ saved self.old }
        ensures taken { taken self.new ≡ taken self.old + read_count result }
        ensures cause { OnErr result (Rose (load_faults self.old) (load_faults self.new)) }
        ensures map { map self.new ≡ map self.old }
        ensures untouched { OnOk result (load_faults self.new ≡ load_faults self.old) }
        ensures faults { load_faults self.old ≤ load_faults self.new }
        ensures begins { begins self.new ≡ begins self.old }
        ensures saves { saves self.new ≡ saves self.old }
        ensures save_faults { save_faults self.new ≡ save_faults self.old }
        ensures given { given self.new ≡ given self.old };

    /// Saves bytes under a name, in place of what it held.
    ///
    /// It fails where the device does, and then that name may hold anything. Every other name holds
    /// what it held, and the file that was begun stays as it was.
    fn save(&mut self, name: &str, bytes: &[u8]) -> Result<(), Failed>
        ensures ok { OnOk result (IsSaved (map self.new) name.now bytes.now) }
        ensures saved { saved self.new ≡ with_file (is_err result) name.now bytes.now (saved self.old) }
        ensures others { KeepsOthers (map self.old) (map self.new) name.now }
        ensures cause { OnErr result (Rose (save_faults self.old) (save_faults self.new)) }
        ensures saves { saves self.new ≡ one_more (saves self.old) }
        ensures untouched { OnOk result (save_faults self.new ≡ save_faults self.old) }
        ensures faults { save_faults self.old ≤ save_faults self.new }
        ensures rest { rest self.new ≡ rest self.old }
        ensures loads { loads self.new ≡ loads self.old }
        ensures taken { taken self.new ≡ taken self.old }
        ensures load_faults { load_faults self.new ≡ load_faults self.old }
        ensures begins { begins self.new ≡ begins self.old }
        ensures given { given self.new ≡ given self.old };

    /// How many bytes of the begun file came.
    fn taken(&self) -> u64
        ensures { result ≡ taken self.now };

    /// Passes at most 2^30 bytes through, so that bytes which were written come back to be read. It
    /// answers at most 2^30 bytes, which the files determine before the call. It takes no memory and
    /// does not fail.
    fn pass(&mut self, bytes: Vec<u8>) -> Vec<u8>
        requires { length bytes.items ≤ MAX_INDEX }
        ensures given { result.items ≡ given self.old bytes.items }
        ensures within { length result.items ≤ MAX_INDEX }
        ensures kept { state_of (map self.new) (rest self.new) (loads self.new) (taken self.new) (load_faults self.new)
            (save_faults self.new) (saves self.new) (begins self.new) (saved self.new)
            ≡ state_of (map self.old) (rest self.old) (loads self.old) (taken self.old) (load_faults self.old)
            (save_faults self.old) (saves self.old) (begins self.old) (saved self.old) };
}
