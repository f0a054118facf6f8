//! The track of one object in the stores of an index: its cell at an instant, and its blocks in the
//! periods that a window meets.
//!
//! What they give is what filtering the rows of the stores' chart does (`proofs/ChartLemmas.antt`),
//! within the reads of `position_cost` and `path_cost` of snapshots. `Placed` makes a block of a
//! period ready for a cursor.
#![tactic(auto)]

mod periods;
mod placing;
mod position;

pub use periods::{Periods, last_of};
pub use placing::Placed;
pub use position::cell_in;
