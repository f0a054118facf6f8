ghost use Rattle.std.specs.Prelude.{◌≡◌, [], ◌∷◌};

use crate::ghost_loads::GhostLoads;
use std::marker::Model;

/// The files that were handed to a device, each a name with its bytes, newest first. Contracts see it as their list.
#[derive(Drop)]
pub struct FileHistory {
    ghosts: GhostLoads,
}

impl Model for FileHistory {
    ghost use Rattle.std.specs.Prelude.{ℕ, List, map};
    ghost use Rattle.history.specs.Loads.{file_of};

    ghost Value = { List (List ℕ × List ℕ) };

    ghost view = { λ h. map file_of h.ghosts.loads };
}

impl FileHistory {
    /// The history of nothing.
    pub fn new() -> FileHistory
        ensures { result ≡ [] }
    {
        FileHistory {
            ghosts: GhostLoads::new(),
        }
    }

    /// Adds a file, which is then the newest.
    pub fn put(&mut self, name: &[u8], bytes: &[u8])
        ensures { self.new ≡ (name.now, bytes.now) ∷ self.old }
    {
        self.ghosts.open(name, true);
        self.ghosts.grow(bytes);
    }
}
