//! Snapshots: where each object stands first in a period, by object and by square.
//!
//! A `Snapshot` is checked from the parts of a period. `find` leads from an object to its block in
//! a bounded number of reads. `objects_in` gives the blocks whose anchors lie in squares that pass
//! a test.
//!
//! `Stores` join the snapshots of an index with its rules. Their `tracks` finds the blocks of a
//! period that a search may want, by the boxes of their tracks.
#![tactic(auto)]

mod ahead;
mod anchored;
mod blocks;
mod bounded;
mod checking;
mod fault;
mod finding;
mod judged;
mod keeping;
mod kept_walk;
mod leaf_order;
mod logs;
mod members;
mod next;
mod objects_in;
mod ones;
mod period_store;
mod shared_header;
mod snapshot;
mod stores;
mod track_tree;
mod tracks;
mod upgrading;

pub use anchored::Anchored;
pub use fault::SnapFault;
pub use members::Members;
pub use objects_in::ObjectsIn;
pub use shared_header::SharedHeader;
pub use snapshot::Snapshot;
pub use stores::Stores;
pub use track_tree::TrackTree;
pub use tracks::Tracks;
