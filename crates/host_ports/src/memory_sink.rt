ghost use Rattle.std.specs.Prelude.{◌≡◌, ◌↔◌, ◌≤◌, IsTrue, IsOk, IsErr, IfOk, IfErr, length};
ghost use Rattle.host_ports.specs.Histories.{Gains};
ghost use Rattle.host_ports.specs.MemSink.{new_sink, is_cut, sent_count, after_say};

use crate::numbered_calls::NumberedCalls;
use crate::{Cut, Sink};
use history::History;
use std::alloc::Global;
use std::marker::Model;
use track_types::Memory;

/// A sink in memory with room for so many bytes, which fails at the calls that it is given.
#[derive(Drop)]
pub struct MemSink {
    said: Vec<u8>,
    room: usize,
    calls: NumberedCalls,
}

impl Model for MemSink {
    ghost use Rattle.std.specs.Prelude.{length, ◌≤◌, vec_capacity};
    ghost use Rattle.host_ports.specs.MemSink.{MemSinkView};

    ghost Value = { MemSinkView };

    ghost view = { λ s. record { said = s.said.items; room = s.room; calls = s.calls } };

    // The room is reserved, so that saying takes no memory.
    ghost invariant = { λ s. (length s.said.items ≤ s.room) × (s.room ≤ vec_capacity s.said) };
}

impl MemSink {
    /// A sink that takes `room` bytes in all, for which it reserves the memory now.
    ///
    /// Its calls of `say` are numbered from 1, and those whose numbers are in `fails` fail and say
    /// nothing.
    pub fn new(alloc: Global, room: usize, fails: Vec<u64>) -> Result<Self, Memory>
        ensures { IfOk result (λ sink. sink ≡ new_sink room fails.items) }
    {
        Ok(MemSink {
            said: Vec::with_capacity(alloc, room)?,
            room,
            calls: NumberedCalls::new(fails),
        })
    }

    /// The bytes that were said.
    pub fn as_slice(&self) -> &[u8]
        ensures { result.now ≡ self.now.said }
    {
        &self.said
    }
}

impl Sink for MemSink {
    ghost said = { λ s. s.said };

    ghost faults = { λ s. s.calls.faults };

    /// Says as much of the piece as has room. A piece with more is cut there.
    fn say(&mut self, piece: &[u8]) -> Result<(), Cut>
        ensures cut { IsErr result ↔ IsTrue (is_cut self.old piece.now) }
        ensures sent { IfErr result (λ cut. cut.sent ≡ sent_count self.old piece.now) }
        ensures after { self.new ≡ after_say self.old piece.now }
        ensures faults { self.old.calls.faults ≤ self.new.calls.faults }
    {
        if self.calls.make().is_err() {
            return Err(Cut { sent: 0 });
        }
        let sent = piece.len().min(self.room - self.said.len());
        let Ok(()) = self.said.extend_from_slice(&piece[..sent]) else {
            unreachable!();
        };
        if sent < piece.len() {
            self.calls.count_fault();
            return Err(Cut { sent });
        }
        Ok(())
    }
}

/// A sink that drops what is said to it, and never fails.
#[derive(Drop)]
pub struct NullSink {
    history: History,
}

impl NullSink {
    pub fn new() -> Self {
        NullSink {
            history: History::new(),
        }
    }
}

impl Sink for NullSink {
    ghost said = { λ s. s.history.bytes };

    ghost faults = { λ _. 0 };

    fn say(&mut self, piece: &[u8]) -> Result<(), Cut>
        ensures ok { IsOk result }
        ensures said { Gains self.old.history.bytes self.new.history.bytes piece.now }
    {
        self.history.append(piece);
        Ok(())
    }
}
