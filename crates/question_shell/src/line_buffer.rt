ghost use Rattle.std.specs.Prelude.{◌≡◌, ℕ, ◌∷◌, [], ◌++◌, List, Ok, true};
ghost use Rattle.question_shell.specs.Grammar.{line_told, question_of};
ghost use Rattle.question_shell.specs.Kinds.{AreAsked};
ghost use Rattle.question_shell.specs.LineKept.{kept_of};

use crate::bad::Bad;
use crate::grammar::{LONGEST_LINE, read_line};
use crate::words::is_gap_byte;
use arrayvec::ArrayVec;
use std::marker::Model;
use track_types::Question;

/// A line of questions whose bytes are still coming, of any length in bounded room.
///
/// What is kept of it, at most a byte more than a line may have, asks what the line asks.
#[derive(Drop)]
pub(crate) struct LineBuffer {
    kept: ArrayVec<u8, 1025>,
}

impl Model for LineBuffer {
    ghost use Rattle.std.specs.Prelude.{List, ℕ};

    ghost Value = { List ℕ };

    ghost view = { λ b. b.kept.items };
}

impl LineBuffer {
    pub(crate) fn new() -> Self
        ensures { result ≡ kept_of [] }
    {
        LineBuffer {
            kept: ArrayVec::new(),
        }
    }

    // Takes more bytes of the line.
    pub(crate) fn extend(&mut self, bytes: &[u8])
        ensures { (line : List ℕ) → self.old ≡ kept_of line →
            self.new ≡ kept_of (line ++ bytes.now) }
    {
        if LONGEST_LINE < self.kept.len() + bytes.len() {
            for byte in bytes {
                self.push(*byte);
            }
            return;
        }
        // All that there is of a line is kept while it is short.
        let Ok(()) = self.kept.try_extend_from_slice(bytes) else {
            unreachable!();
        };
    }

    fn push(&mut self, byte: u8)
        ensures { (line : List ℕ) → self.old ≡ kept_of line →
            self.new ≡ kept_of (line ++ byte ∷ []) }
    {
        match self.kept.get_mut(LONGEST_LINE) {
            // The line is too long already, so all that this byte can add is that it has a word.
            Some(last) => {
                if is_gap_byte(*last) {
                    *last = byte;
                }
            }
            None => self.kept.push(byte),
        }
    }

    pub(crate) fn clear(&mut self)
        ensures { self.new ≡ kept_of [] }
    {
        self.kept.clear();
    }

    // Reads what the line asks into the place of a question. Whether it asks anything.
    pub(crate) fn read(&self, question: &mut Question) -> Result<bool, Bad>
        ensures value { (line : List ℕ) → self.now ≡ kept_of line →
            line_told result question.new ≡ question_of line }
        ensures asked { result ≡ Ok true → AreAsked question.new }
        ensures kept { kept_of self.now ≡ self.now }
    {
        read_line(self.kept.as_slice(), question)
    }
}
