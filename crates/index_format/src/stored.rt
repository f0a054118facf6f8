use crate::outline::Outline;
use track_types::Parts;

/// What an index file stores.
///
/// It promises nothing by itself. `IsStored` in specs/ says when it has the form of an index.
#[derive(Debug, Drop)]
pub enum Stored {
    /// The parts of an index.
    Parts(Parts),
    /// The outline of an index, from which its parts follow.
    Outline(Outline),
}
