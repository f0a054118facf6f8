//! Time slices: which objects were in a region at an instant.
//!
//! `slice` answers what filtering the rows of the stores' chart does, within the reads of
//! `specs/Cost.antt`. `Sought` is the search of one period, for slices and for windows of many
//! instants. It skips the squares from which no object gets into the region in time, and the blocks
//! whose tracks lie beside it. Of the other blocks' logs it opens the rules that touch the region.
#![tactic(auto)]

mod reach;
mod search;
mod seekers;
mod sightings;
mod sought;

pub use reach::{Reach, meets_grid};
pub use search::slice;
pub use sought::Sought;
