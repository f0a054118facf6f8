ghost use Rattle.std.specs.Prelude.{◌≡◌, ◌+◌, ◌≤◌, ◌==◌, ◌++◌, [], length};

use std::marker::Model;

/// How many bytes of replies are held back at most.
const ROOM: usize = 4096;

/// A fixed room for bytes, to which more are added at the end. It is cleared without touching them.
#[derive(Drop)]
pub(crate) struct Room {
    bytes: [u8; ROOM],
    len: usize,
}

impl Model for Room {
    ghost use Rattle.std.specs.Prelude.{◌≡◌, ◌≤◌, ℕ, List, take, length};
    ghost use Rattle.question_shell.specs.declared.room.TheConstants.{ROOM};

    ghost Value = { List ℕ };

    ghost view = { λ room. take room.len room.bytes };

    ghost invariant = { λ room. (room.len ≤ ROOM) × (length room.bytes ≡ ROOM) };
}

impl Room {
    // A room without a byte.
    pub(crate) fn new() -> Self
        ensures { result ≡ [] }
    {
        Room {
            bytes: [0; ROOM],
            len: 0,
        }
    }

    // How many more bytes fit; a caller asks before it pushes.
    #[inline(always)]
    pub(crate) fn left(&self) -> usize
        ensures { result + length self.now ≡ ROOM }
    {
        ROOM - self.len
    }

    pub(crate) fn is_empty(&self) -> bool
        ensures { result ≡ (length self.now == 0) }
    {
        self.len == 0
    }

    // Adds more bytes.
    #[inline(always)]
    pub(crate) fn push(&mut self, more: &[u8])
        requires { length self.old + length more.now ≤ ROOM }
        ensures { self.new ≡ self.old ++ more.now }
    {
        let end = self.len + more.len();
        self.bytes[self.len..end].copy_from_slice(more);
        self.len = end;
    }

    // Lets go of all bytes. Their places are not written.
    pub(crate) fn clear(&mut self)
        ensures { self.new ≡ [] }
    {
        self.len = 0;
    }

    pub(crate) fn as_bytes(&self) -> &[u8]
        ensures { result.now ≡ self.now }
    {
        &self.bytes[..self.len]
    }
}
