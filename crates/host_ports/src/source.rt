ghost use Rattle.std.specs.Prelude.{◌≡◌, ℕ, ◌+◌, ◌<◌, ◌≤◌, Bool, List, Option, take, length, OnOk, OnErr};
ghost use Rattle.std.specs.Io.{ReadsAtMost};
ghost use Rattle.std.specs.Io.KnownBytes.{ReadConsumes};
ghost use Rattle.host_ports.specs.Faults.{Rose, read_count};
ghost use Rattle.host_ports.specs.Histories.{Gains, ended_after};

use crate::Failed;

/// Where question lines come from, in pieces of any length.
pub trait Source {
    /// The bytes that are still to come, where the source tells them, as one in memory does.
    ghost rest: { Self → Option (List ℕ) };

    /// The bytes that came, oldest first. Every source tells them.
    ghost came: { Self → List ℕ };

    /// Whether the last answer was 0 bytes: all of the source came. Every source tells it.
    ghost ended: { Self → Bool };

    /// How many bytes came.
    ghost taken: { Self → ℕ };

    /// How often listening failed. The count never falls and stops at 2^64 - 1.
    ghost faults: { Self → ℕ };

    /// Takes the next bytes into the front of the buffer, and answers how many: 0 exactly at the end.
    ///
    /// It fails where the device does, and then nothing was taken; else the count of faults stays.
    fn listen(&mut self, buf: &mut [u8]) -> Result<usize, Failed>
        requires { 0 < length buf.old }
        ensures within { ReadsAtMost result buf.new }
        ensures read { ReadConsumes (rest self.old) (rest self.new) result buf.new }
        ensures came { Gains (came self.old) (came self.new) (take (read_count result) buf.new) }
        ensures ended { ended self.new ≡ ended_after result buf.new (ended self.old) }
        ensures taken { taken self.new ≡ taken self.old + read_count result }
        ensures cause { OnErr result (Rose (faults self.old) (faults self.new)) }
        ensures untouched { OnOk result (faults self.new ≡ faults self.old) }
        ensures faults { faults self.old ≤ faults self.new };

    /// How many bytes came.
    fn taken(&self) -> u64
        ensures { result ≡ taken self.now };
}
