ghost use Rattle.std.specs.Prelude.{◌≡◌, ◌≤◌, ◌<◌, ◌+◌, ◌∷◌, [], ◌++◌, length};
ghost use Rattle.std.specs.Fmt.{decimal, signed_decimal};
ghost use Rattle.question_shell.specs.Items.{cell_line};

use itoa::write_digits;
use std::marker::Model;
use track_types::Cell;

/// No line of a reply is longer; that of `meet` has up to 105 bytes.
pub(crate) const LONGEST_REPLY: usize = 112;

/// How many digits a number of 64 bits has at most.
const LONGEST_COUNT: usize = 20;

/// How many bytes one has at most that may be below zero.
const LONGEST_NUMBER: usize = LONGEST_COUNT + 1;

/// How many bytes X Y has at most.
const LONGEST_CELL: usize = 2 * LONGEST_NUMBER + 1;

/// A line of a reply, with its line feed.
///
/// It is put together from its end, since a number's digits come from the last to the first: so a
/// number of 64 bits is written in its place at once.
#[derive(Drop)]
pub(crate) struct ReplyLine {
    bytes: [u8; LONGEST_REPLY],
    start: usize,
}

impl Model for ReplyLine {
    ghost use Rattle.std.specs.Prelude.{◌≡◌, ◌≤◌, ℕ, List, drop, length};
    ghost use Rattle.question_shell.specs.declared.reply_line.TheConstants.{LONGEST_REPLY};

    ghost Value = { List ℕ };

    ghost view = { λ line. drop line.start line.bytes };

    ghost invariant = { λ line. (line.start ≤ LONGEST_REPLY) × (length line.bytes ≡ LONGEST_REPLY) };
}

impl ReplyLine {
    // No more than a line feed.
    pub(crate) fn new() -> Self
        ensures { result ≡ 10 ∷ [] }
    {
        let mut line = ReplyLine {
            bytes: [0; LONGEST_REPLY],
            start: LONGEST_REPLY,
        };
        line.begin();
        line
    }

    // Begins another line in its place, as no more than a line feed. What stood there before is not read again.
    #[inline(always)]
    pub(crate) fn begin(&mut self)
        ensures { self.new ≡ 10 ∷ [] }
    {
        self.bytes[LONGEST_REPLY - 1] = b'\n';
        self.start = LONGEST_REPLY - 1;
    }

    // Puts a space before it.
    #[inline(always)]
    pub(crate) fn put_space(&mut self)
        requires { length self.old < LONGEST_REPLY }
        ensures { self.new ≡ 32 ∷ self.old }
    {
        self.put_byte(b' ');
    }

    #[inline(always)]
    fn put_byte(&mut self, byte: u8)
        requires { length self.old < LONGEST_REPLY }
        ensures { self.new ≡ byte ∷ self.old }
    {
        self.start -= 1;
        self.bytes[self.start] = byte;
    }

    // Puts a number before it.
    #[inline(always)]
    pub(crate) fn put_count(&mut self, count: u64)
        requires { length self.old + LONGEST_COUNT ≤ LONGEST_REPLY }
        ensures text { self.new ≡ decimal count ++ self.old }
        ensures short { length self.new ≤ length self.old + LONGEST_COUNT }
    {
        self.start = write_digits(count, &mut self.bytes, self.start);
    }

    // The same for one that may be below zero.
    #[inline(always)]
    pub(crate) fn put_number(&mut self, number: i64)
        requires { length self.old + LONGEST_NUMBER ≤ LONGEST_REPLY }
        ensures text { self.new ≡ signed_decimal number ++ self.old }
        ensures short { length self.new ≤ length self.old + LONGEST_NUMBER }
    {
        self.put_count(number.unsigned_abs());
        if number < 0 {
            self.put_byte(b'-');
        }
    }

    // Puts a text before it.
    #[inline(always)]
    pub(crate) fn put_text(&mut self, text: &str)
        requires { length text.now + length self.old ≤ LONGEST_REPLY }
        ensures { self.new ≡ text.now ++ self.old }
    {
        let start = self.start - text.len();
        self.bytes[start..self.start].copy_from_slice(text.as_bytes());
        self.start = start;
    }

    // Puts X Y before it.
    #[inline(always)]
    pub(crate) fn put_cell(&mut self, cell: Cell)
        requires { length self.old + LONGEST_CELL ≤ LONGEST_REPLY }
        ensures text { self.new
            ≡ signed_decimal cell.x ++ 32 ∷ (signed_decimal cell.y ++ self.old) }
        ensures short { length self.new ≤ length self.old + LONGEST_CELL }
    {
        self.put_number(cell.y);
        self.put_space();
        self.put_number(cell.x);
    }

    // X Y
    #[inline(always)]
    pub(crate) fn begin_cell(&mut self, cell: Cell)
        ensures line { self.new ≡ cell_line cell }
        ensures short { length self.new ≤ LONGEST_CELL + 1 }
    {
        self.begin();
        self.put_cell(cell);
    }

    #[inline(always)]
    pub(crate) fn as_bytes(&self) -> &[u8]
        ensures bytes { result.now ≡ self.now }
        ensures short { length result.now ≤ LONGEST_REPLY }
    {
        &self.bytes[self.start..]
    }
}
