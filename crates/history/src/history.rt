ghost use Rattle.std.specs.Prelude.{◌≡◌, [], ◌++◌, false};
ghost use Rattle.history.specs.Loads.{Stream, is_end};

use crate::ghost_loads::GhostLoads;
use std::marker::Model;

/// The bytes that went through a device, oldest first, and whether the last piece was empty.
#[derive(Drop)]
pub struct History {
    ghosts: GhostLoads,
}

impl Model for History {
    ghost use Rattle.history.specs.Loads.{Stream, newest_stream};

    ghost Value = { Stream };

    ghost view = { λ h. newest_stream h.ghosts.loads };
}

impl History {
    /// The history of nothing.
    pub fn new() -> History
        ensures { result ≡ record { bytes = []; ended = false } }
    {
        History {
            ghosts: GhostLoads::new(),
        }
    }

    /// Adds a piece at the end.
    pub fn append(&mut self, piece: &[u8])
        ensures { self.new ≡ record { bytes = self.old.bytes ++ piece.now; ended = is_end piece.now } }
    {
        self.ghosts.grow(piece);
    }
}
