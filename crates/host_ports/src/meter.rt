ghost use Rattle.std.specs.Prelude.{◌≡◌, ◌+◌, ◌^◌, ◌≤◌, ◌↔◌, Ok, IsErr, IfOk, MatchResult};
ghost use Rattle.host_ports.specs.Device.{no_counts, after_read};
ghost use Rattle.host_ports.specs.NumberedCalls.{one_more};

use crate::Failed;
use std::io;
use std::marker::Model;

/// Counts the bytes that come from a device, and its faults.
#[derive(Drop)]
pub(crate) struct Meter {
    taken: u64,
    faults: u64,
}

impl Model for Meter {
    ghost use Rattle.host_ports.specs.Device.{Counts};

    ghost Value = { Counts };

    ghost view = { λ m. record { taken = m.taken; faults = m.faults } };
}

impl Meter {
    pub(crate) fn new() -> Self
        ensures { result ≡ no_counts }
    {
        Meter {
            taken: 0,
            faults: 0,
        }
    }

    /// Counts what a read gave. Bytes past the greatest count of them are a fault.
    pub(crate) fn count_read(&mut self, read: io::Result<usize>) -> Result<usize, Failed>
        ensures after { self.new ≡ after_read self.old result }
        ensures ok { IfOk result (λ count. read ≡ Ok count) }
        ensures fails { MatchResult read
            (λ count. IsErr result ↔ (2 ^ 64 ≤ self.old.taken + count))
            (λ _. IsErr result) }
        ensures faults { self.old.faults ≤ self.new.faults }
    {
        if let Ok(count) = read
            && let Some(taken) = self.taken.checked_add(count as u64)
        {
            self.taken = taken;
            return Ok(count);
        }
        self.count_fault();
        Err(Failed)
    }

    pub(crate) fn count_fault(&mut self)
        ensures after { self.new ≡ record self.old { faults = one_more self.old.faults } }
        ensures faults { self.old.faults ≤ self.new.faults }
    {
        self.faults = self.faults.saturating_add(1);
    }

    /// Counts bytes from 0 again.
    pub(crate) fn forget_taken(&mut self)
        ensures { self.new ≡ record self.old { taken = 0 } }
    {
        self.taken = 0;
    }

    pub(crate) fn taken(&self) -> u64
        ensures { result ≡ self.now.taken }
    {
        self.taken
    }
}
