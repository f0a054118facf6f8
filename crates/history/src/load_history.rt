ghost use Rattle.std.specs.Prelude.{◌≡◌, [], ◌∷◌};
ghost use Rattle.history.specs.Loads.{new_load, with_piece};

use crate::ghost_loads::GhostLoads;
use std::marker::Model;

/// The files that were loaded from a device, newest first. Contracts see it as their list.
#[derive(Drop)]
pub struct LoadHistory {
    ghosts: GhostLoads,
}

impl Model for LoadHistory {
    ghost use Rattle.std.specs.Prelude.{List};
    ghost use Rattle.history.specs.Loads.{Load};

    ghost Value = { List Load };

    ghost view = { λ h. h.ghosts.loads };
}

impl LoadHistory {
    /// The history of nothing.
    pub fn new() -> LoadHistory
        ensures { result ≡ [] }
    {
        LoadHistory {
            ghosts: GhostLoads::new(),
        }
    }

    /// Adds a file, which is then the newest and has no bytes yet. `begun` says whether it could be begun.
    pub fn open(&mut self, name: &[u8], begun: bool)
        ensures { self.new ≡ new_load name.now begun ∷ self.old }
    {
        self.ghosts.open(name, begun);
    }

    /// Adds a piece of the newest file. An empty piece is its end.
    pub fn grow(&mut self, piece: &[u8])
        ensures { self.new ≡ with_piece self.old piece.now }
    {
        self.ghosts.grow(piece);
    }
}
