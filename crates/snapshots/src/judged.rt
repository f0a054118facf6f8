use crate::track_tree::TrackTree;

/// What is found of a period by the logs of its blocks, where all of these stay in the grid to its end.
#[derive(Drop)]
pub struct Judged {
    /// The greatest speed of a block, in cells an instant.
    pub speed: u64,
    /// What is kept of the blocks for searches, where there is one.
    pub tracks: Option<Box<TrackTree>>,
}
