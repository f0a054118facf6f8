ghost use Rattle.std.specs.Prelude.{◌≡◌, ◌+◌, ◌≤◌, ℕ, List, ◌++◌, length, OnOk};

use std::alloc::AllocError;

/// What takes a file's bytes piece by piece, from the front to the end.
///
/// Its meaning, `has_taken`, says what a value has become since it was the first one, after these bytes were taken.
pub(crate) trait Receiver {
    ghost has_taken: { Self → List ℕ → Self → Type 0 };

    /// The greatest count of bytes that are taken.
    ghost most: { ℕ };

    /// Takes the next piece. It fails where memory is refused.
    fn take(&mut self, piece: &[u8]) -> Result<(), AllocError>
        requires { (start : Self) × (bytes : List ℕ) × has_taken start bytes self.old
            × (length bytes + length piece.now ≤ most) }
        ensures { OnOk result ((start : Self) (bytes : List ℕ) → has_taken start bytes self.old →
            has_taken start (bytes ++ piece.now) self.new) };
}

impl Receiver for Vec<u8> {
    ghost use Rattle.track_types.specs.declared.limit.TheConstants.{MAX_INDEX};

    ghost has_taken = { λ start bytes it. it.items ≡ bytes };

    ghost most = { MAX_INDEX };

    fn take(&mut self, piece: &[u8]) -> Result<(), AllocError> {
        self.extend_from_slice(piece)
    }
}
