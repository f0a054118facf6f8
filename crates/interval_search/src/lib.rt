//! Time intervals: which objects were in a region at some instant of a window, and where first.
//!
//! `interval` answers what filtering the rows of the stores' chart does, within the reads of
//! `specs/Cost.antt`. It goes through the periods that the window meets, and opens each block that
//! may have a hit once. Objects that were hit in an earlier period are skipped.
#![tactic(auto)]

mod first_hits;
mod search;

pub use search::interval;
