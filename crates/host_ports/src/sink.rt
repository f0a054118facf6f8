ghost use Rattle.std.specs.Prelude.{◌≡◌, ℕ, ◌≤◌, List, take, length, OnOk, IfErr, OnErr};
ghost use Rattle.host_ports.specs.Histories.{Gains};
ghost use Rattle.host_ports.specs.Faults.{Rose};

use crate::Cut;

/// Where replies go.
pub trait Sink {
    /// The bytes that were said, oldest first. Every sink tells them.
    ghost said: { Self → List ℕ };

    /// How often saying failed. The count never falls and stops at 2^64 - 1.
    ghost faults: { Self → ℕ };

    /// Says a piece, so that it follows what was said before.
    ///
    /// It is cut where the device fails, and then the first `sent` bytes of the piece were said; else the
    /// count of faults stays.
    fn say(&mut self, piece: &[u8]) -> Result<(), Cut>
        ensures said { OnOk result (Gains (said self.old) (said self.new) piece.now) }
        ensures within { IfErr result (λ cut. cut.sent ≤ length piece.now) }
        ensures cut { IfErr result (λ cut.
            Gains (said self.old) (said self.new) (take cut.sent piece.now)) }
        ensures cause { OnErr result (Rose (faults self.old) (faults self.new)) }
        ensures untouched { OnOk result (faults self.new ≡ faults self.old) }
        ensures faults { faults self.old ≤ faults self.new };
}
