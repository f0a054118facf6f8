ghost use Rattle.std.specs.Prelude.{◌≡◌, List, [], ◌∷◌};
ghost use Rattle.std.specs.Borrow.{ftrue};
ghost use Rattle.history.specs.Loads.{Load, new_load, with_piece};

use std::marker::{Model, PhantomData};

/// Loads that only clauses read, newest first. Its three functions are proved by hand, since they set data that no
/// memory holds; all other histories are built of them.
#[derive(Drop)]
pub(crate) struct GhostLoads {
    marker: PhantomData<u8>,
    pub(crate) ghost loads: { List Load },
}

impl Model for GhostLoads {
    ghost also_owns = { λ _. ftrue };
}

impl GhostLoads {
    pub(crate) fn new() -> GhostLoads
        ensures { result.loads ≡ [] }
    {
        GhostLoads {
            marker: PhantomData,
        }
    }

    pub(crate) fn open(&mut self, _name: &[u8], _begun: bool)
        ensures { self.new.loads ≡ new_load _name.now _begun ∷ self.old.loads }
    {}

    pub(crate) fn grow(&mut self, _piece: &[u8])
        ensures { self.new.loads ≡ with_piece self.old.loads _piece.now }
    {}
}
