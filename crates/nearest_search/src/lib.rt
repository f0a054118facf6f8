//! The objects that were nearest to a cell at an instant.
//!
//! `nearest` answers what filtering the rows of the stores' chart does, within the reads of
//! `specs/Cost.antt`. The search is best first (Hjaltason and Samet). Nodes of the tree of a
//! period's tracks, and blocks, wait in a queue by how near what they have may be. The nearest is
//! taken until none that waits can be among the answers.
#![tactic(auto)]

mod closest;
mod near_search;
mod queue;
mod search;
mod vantage;
mod waiting;

pub use search::nearest;
