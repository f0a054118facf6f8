//! What bounds a log: the speed that its object never passes, and the box that it never leaves.
//!
//! Both are found in one pass over the entries of the log's symbols, of which nothing is expanded. Searches open a log only
//! where its bounds say that it may hold what is sought. Bounds, and cells of a grid, have a type that takes fewer bytes.
#![tactic(auto)]

mod bounds;
mod grid_cell;
mod packed_bounds;

pub use bounds::LogBounds;
pub use grid_cell::GridCell;
pub use packed_bounds::PackedBounds;
