ghost use Rattle.std.specs.Prelude.{◌≡◌, ◌↔◌, ◌≤◌, IsTrue, IsErr};
ghost use Rattle.host_ports.specs.NumberedCalls.{no_calls, fails_next, counted, numbered, one_more};

use crate::Failed;
use std::marker::Model;

/// Numbers the calls of a device in memory, and counts its faults.
#[derive(Drop)]
pub(crate) struct NumberedCalls {
    made: u64,
    fails: Vec<u64>,
    faults: u64,
}

impl Model for NumberedCalls {
    ghost use Rattle.host_ports.specs.NumberedCalls.{Calls};

    ghost Value = { Calls };

    ghost view = { λ c. record { made = c.made; fails = c.fails.items; faults = c.faults } };
}

impl NumberedCalls {
    pub(crate) fn new(fails: Vec<u64>) -> Self
        ensures { result ≡ no_calls fails.items }
    {
        NumberedCalls {
            made: 0,
            fails,
            faults: 0,
        }
    }

    /// Makes the next call, which fails if its number is among those that fail.
    pub(crate) fn make(&mut self) -> Result<(), Failed>
        ensures after { self.new ≡ counted self.old (fails_next self.old) }
        ensures fails { IsErr result ↔ IsTrue (fails_next self.old) }
        ensures faults { self.old.faults ≤ self.new.faults }
    {
        if self.number() {
            self.count_fault();
            return Err(Failed);
        }
        Ok(())
    }

    /// Numbers the next call, and answers whether that number is among those that fail.
    pub(crate) fn number(&mut self) -> bool
        ensures after { self.new ≡ numbered self.old }
        ensures exact { result ≡ fails_next self.old }
    {
        self.made = self.made.saturating_add(1);
        self.fails.as_slice().contains(&self.made)
    }

    pub(crate) fn count_fault(&mut self)
        ensures after { self.new ≡ record self.old { faults = one_more self.old.faults } }
        ensures faults { self.old.faults ≤ self.new.faults }
    {
        self.faults = self.faults.saturating_add(1);
    }
}
