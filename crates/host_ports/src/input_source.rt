ghost use Rattle.std.specs.Prelude.{◌≡◌, ◌<◌, ◌≤◌, None, [], false, OnOk, take, length};
ghost use Rattle.std.specs.Io.{ReadsAtMost};
ghost use Rattle.std.specs.Io.KnownBytes.{ReadConsumes};
ghost use Rattle.host_ports.specs.Device.{no_counts, after_read};
ghost use Rattle.host_ports.specs.Faults.{read_count};
ghost use Rattle.host_ports.specs.Histories.{Gains, ended_after};

use crate::meter::Meter;
use crate::retrying::read_piece;
use crate::{Failed, Source};
use history::History;
use std::io::Read;
use std::marker::Model;

/// A source over std's reading. Contracts see the bytes that came and whether all did, but not those to come.
#[derive(Drop)]
pub struct InputSource<R: Read> {
    reader: R,
    meter: Meter,
    history: History,
}

impl<R: Read> Model for InputSource<R> {
    ghost use Rattle.host_ports.specs.Device.{ReaderView};

    ghost Value = { ReaderView };

    ghost view = { λ s. record { left = R.remaining s.reader; came = s.history.bytes; ended = s.history.ended; counts = s.meter } };
}

impl<R: Read> InputSource<R> {
    /// A source of what the reader will give.
    pub fn new(reader: R) -> Self
        ensures { result ≡ record { left = R.remaining reader; came = []; ended = false; counts = no_counts } }
    {
        InputSource {
            reader,
            meter: Meter::new(),
            history: History::new(),
        }
    }
}

impl<R: Read> Source for InputSource<R> {
    ghost rest = { λ _. None };

    ghost came = { λ s. s.came };

    ghost ended = { λ s. s.ended };

    ghost taken = { λ s. s.counts.taken };

    ghost faults = { λ s. s.counts.faults };

    /// Reads once, and again where a signal interrupts it. Any other error is a fault.
    fn listen(&mut self, buf: &mut [u8]) -> Result<usize, Failed>
        requires { 0 < length buf.old }
        ensures within { ReadsAtMost result buf.new }
        ensures read { OnOk result (ReadConsumes self.old.left self.new.left result buf.new) }
        ensures came { Gains self.old.came self.new.came (take (read_count result) buf.new) }
        ensures ended { self.new.ended ≡ ended_after result buf.new self.old.ended }
        ensures counts { self.new.counts ≡ after_read self.old.counts result }
        ensures faults { self.old.counts.faults ≤ self.new.counts.faults }
    {
        let count = self.meter.count_read(read_piece(&mut self.reader, buf))?;
        self.history.append(&buf[..count]);
        Ok(count)
    }

    fn taken(&self) -> u64 {
        self.meter.taken()
    }
}
