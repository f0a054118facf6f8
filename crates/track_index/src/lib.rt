//! The index of a chart: built from the chart, checked from parts or opened from bytes, and asked.
//!
//! An `Index` keeps the stores of its parts and no rows. `IndexRef` answers questions as filtering
//! the rows of the parts' chart does, within the reads that `specs/Cost.antt` counts. `upgraded`
//! brings parts to the newest version of the format.
#![tactic(auto)]

mod answering;
mod index;
mod opening;
mod path_walk;
mod searching;
mod upgrading;

pub use index::{Index, IndexRef};
pub use opening::{open, open_bytes};
pub use path_walk::PathWalk;
pub use upgrading::upgraded;
