ghost use Rattle.std.specs.Prelude.{◌≡◌, ◌↔◌, ◌<◌, ◌≤◌, min, Some, Ok, [], false, IsTrue, IsErr, IfOk, length, take, drop, ◌++◌};
ghost use Rattle.std.specs.Io.KnownBytes.{ReadConsumes};
ghost use Rattle.host_ports.specs.NumberedCalls.{fails_next};
ghost use Rattle.host_ports.specs.MemSource.{new_source, next_count, after_listen, after_bytes};

use crate::copying::copy_front;
use crate::numbered_calls::NumberedCalls;
use crate::{Failed, Source};
use history::History;
use std::marker::Model;

/// A source in memory that never fails.
#[derive(Drop)]
pub struct CalmSource {
    bytes: Vec<u8>,
    at: usize,
    history: History,
}

impl Model for CalmSource {
    ghost use Rattle.std.specs.Prelude.{drop, length, ◌≤◌};
    ghost use Rattle.host_ports.specs.MemSource.{CalmSourceView};

    ghost Value = { CalmSourceView };

    ghost view = { λ s. record { rest = drop s.at s.bytes.items; came = s.history.bytes; ended = s.history.ended; taken = s.at } };

    ghost invariant = { λ s. s.at ≤ length s.bytes.items };
}

impl CalmSource {
    /// A source of those bytes, from the first on.
    pub fn new(bytes: Vec<u8>) -> Self
        ensures { result ≡ record { rest = bytes.items; came = []; ended = false; taken = 0 } }
    {
        CalmSource {
            bytes,
            at: 0,
            history: History::new(),
        }
    }
}

impl Source for CalmSource {
    ghost rest = { λ s. Some s.rest };

    ghost came = { λ s. s.came };

    ghost ended = { λ s. s.ended };

    ghost taken = { λ s. s.taken };

    ghost faults = { λ _. 0 };

    /// Gives as many bytes as are left and have room.
    fn listen(&mut self, buf: &mut [u8]) -> Result<usize, Failed>
        requires { 0 < length buf.old }
        ensures ok { result ≡ Ok (min (length buf.old) (length self.old.rest)) }
        ensures filled { let count = min (length buf.old) (length self.old.rest) in
            buf.new ≡ take count self.old.rest ++ drop count buf.old }
        ensures after { let count = min (length buf.old) (length self.old.rest) in
            self.new ≡ after_bytes self.old count }
    {
        let count = copy_front(&self.bytes[self.at..], buf);
        self.at += count;
        self.history.append(&buf[..count]);
        Ok(count)
    }

    fn taken(&self) -> u64 {
        self.at as u64
    }
}

/// A source in memory that gives its bytes in small pieces, and fails at the calls that it is given.
#[derive(Drop)]
pub struct MemSource {
    bytes: CalmSource,
    piece: usize,
    calls: NumberedCalls,
}

impl Model for MemSource {
    ghost use Rattle.std.specs.Prelude.{◌<◌};
    ghost use Rattle.host_ports.specs.MemSource.{MemSourceView};

    ghost Value = { MemSourceView };

    ghost view = { λ s. record {
      rest = s.bytes.rest;
      came = s.bytes.came;
      ended = s.bytes.ended;
      taken = s.bytes.taken;
      piece = s.piece;
      calls = s.calls;
    } };

    ghost invariant = { λ s. 0 < s.piece };
}

impl MemSource {
    /// A source of those bytes that gives at most `piece` of them a call.
    ///
    /// Its calls of `listen` are numbered from 1, and those whose numbers are in `fails` fail.
    pub fn new(bytes: Vec<u8>, piece: usize, fails: Vec<u64>) -> Self
        requires { 0 < piece }
        ensures { result ≡ new_source bytes.items piece fails.items }
    {
        MemSource {
            bytes: CalmSource::new(bytes),
            piece,
            calls: NumberedCalls::new(fails),
        }
    }
}

impl Source for MemSource {
    ghost rest = { λ s. Some s.rest };

    ghost came = { λ s. s.came };

    ghost ended = { λ s. s.ended };

    ghost taken = { λ s. s.taken };

    ghost faults = { λ s. s.calls.faults };

    /// Gives as many bytes as are left, have room and make a piece.
    fn listen(&mut self, buf: &mut [u8]) -> Result<usize, Failed>
        requires { 0 < length buf.old }
        ensures fails { IsErr result ↔ IsTrue (fails_next self.old.calls) }
        ensures count { IfOk result (λ count. count ≡ next_count self.old (length buf.old)) }
        ensures filled { let count = next_count self.old (length buf.old) in
            buf.new ≡ take count self.old.rest ++ drop count buf.old }
        ensures after { self.new ≡ after_listen self.old (length buf.old) }
        ensures read { ReadConsumes (Some self.old.rest) (Some self.new.rest) result buf.new }
        ensures faults { self.old.calls.faults ≤ self.new.calls.faults }
    {
        self.calls.make()?;
        let most = self.piece.min(buf.len());
        self.bytes.listen(&mut buf[..most])
    }

    fn taken(&self) -> u64 {
        self.bytes.taken()
    }
}
