ghost use Rattle.std.specs.Prelude.{true, is_err, ◌≡◌, ◌+◌, ◌≤◌, ◌++◌, [], OnOk, length};
ghost use Rattle.host_ports.specs.Counting.{SinkCounts};
ghost use Rattle.question_shell.specs.Items.{line_of};
ghost use Rattle.question_shell.specs.Says.{Puts, voice};

use crate::item::Item;
use crate::reply_line::{LONGEST_REPLY, ReplyLine};
use crate::room::Room;
use host_ports::{Cut, Sink};
use std::marker::Model;

/// Text of replies that is held back until there is more of it, so that one `say` takes many lines.
#[derive(Drop)]
pub(crate) struct HeldText {
    room: Room,
    // Each item's line is put together here, since a new place would first be filled.
    line: ReplyLine,
}

impl Model for HeldText {
    ghost use Rattle.std.specs.Prelude.{ℕ, List};

    ghost Value = { List ℕ };

    ghost view = { λ text. text.room };
}

impl HeldText {
    pub(crate) fn new() -> Self
        ensures { result ≡ [] }
    {
        HeldText {
            room: Room::new(),
            line: ReplyLine::new(),
        }
    }

    // Holds a line back; what was held before is said first where there is no room.
    pub(crate) fn put<K: Sink>(&mut self, line: &ReplyLine, sink: &mut K) -> Result<(), Cut>
        ensures told { Puts (voice (K.said sink.old) self.old)
            (voice (K.said sink.new) self.new) line.now result }
        ensures faults { SinkCounts K.Sink sink.old sink.new (is_err result ≡ true) }
    {
        let line = line.as_bytes();
        if self.room.left() < line.len() {
            self.say(sink)?;
        }
        self.room.push(line);
        Ok(())
    }

    // The same for the line of an item.
    #[inline(always)]
    pub(crate) fn put_item<K: Sink>(&mut self, item: &Item, sink: &mut K) -> Result<(), Cut>
        ensures told { Puts (voice (K.said sink.old) self.old)
            (voice (K.said sink.new) self.new) (line_of item.now) result }
        ensures faults { SinkCounts K.Sink sink.old sink.new (is_err result ≡ true) }
    {
        if self.room.left() < LONGEST_REPLY {
            self.say(sink)?;
        }
        item.write(&mut self.line);
        self.room.push(self.line.as_bytes());
        Ok(())
    }

    // Says what is held back; where that is nothing, the sink is left alone.
    pub(crate) fn say<K: Sink>(&mut self, sink: &mut K) -> Result<(), Cut>
        ensures empty { OnOk result (self.new ≡ []) }
        ensures told { Puts (voice (K.said sink.old) self.old)
            (voice (K.said sink.new) []) [] result }
        ensures faults { SinkCounts K.Sink sink.old sink.new (is_err result ≡ true) }
    {
        if self.room.is_empty() {
            return Ok(());
        }
        sink.say(self.room.as_bytes())?;
        self.room.clear();
        Ok(())
    }
}
