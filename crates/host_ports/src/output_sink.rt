ghost use Rattle.std.specs.Prelude.{◌≡◌, ◌≤◌, [], OnOk, IfErr, is_err, length, take};
ghost use Rattle.std.specs.Io.KnownBytes.{Appends};
ghost use Rattle.host_ports.specs.Histories.{Gains};
ghost use Rattle.host_ports.specs.NumberedCalls.{one_more_if};

use crate::retrying::{flush_all, write_piece};
use crate::{Cut, Sink};
use history::History;
use std::io::Write;
use std::marker::Model;

/// A sink over std's writing. Contracts see the bytes that the writer took.
#[derive(Drop)]
pub struct OutputSink<W: Write> {
    writer: W,
    history: History,
    faults: u64,
}

impl<W: Write> Model for OutputSink<W> {
    ghost use Rattle.host_ports.specs.Device.{WriterView};

    ghost Value = { WriterView };

    ghost view = { λ s. record { contents = W.contents s.writer; said = s.history.bytes; faults = s.faults } };
}

impl<W: Write> OutputSink<W> {
    /// A sink that says all to the writer.
    pub fn new(writer: W) -> Self
        ensures { result ≡ record { contents = W.contents writer; said = []; faults = 0 } }
    {
        OutputSink {
            writer,
            history: History::new(),
            faults: 0,
        }
    }
}

impl<W: Write> Sink for OutputSink<W> {
    ghost said = { λ s. s.said };

    ghost faults = { λ s. s.faults };

    /// Writes the piece and flushes. What a signal interrupts is tried again; any other error is a
    /// fault, and so is a writer that takes nothing.
    fn say(&mut self, piece: &[u8]) -> Result<(), Cut>
        ensures written { OnOk result (Appends self.old.contents self.new.contents piece.now) }
        ensures said { OnOk result (Gains self.old.said self.new.said piece.now) }
        ensures within { IfErr result (λ cut. cut.sent ≤ length piece.now) }
        ensures cut { IfErr result (λ cut.
            Appends self.old.contents self.new.contents (take cut.sent piece.now)) }
        ensures said_cut { IfErr result (λ cut.
            Gains self.old.said self.new.said (take cut.sent piece.now)) }
        ensures counted { self.new.faults ≡ one_more_if (is_err result) self.old.faults }
        ensures faults { self.old.faults ≤ self.new.faults }
    {
        let sent = write_piece(&mut self.writer, piece);
        self.history.append(&piece[..sent]);
        if sent < piece.len() || flush_all(&mut self.writer).is_err() {
            self.faults = self.faults.saturating_add(1);
            return Err(Cut { sent });
        }
        Ok(())
    }
}
