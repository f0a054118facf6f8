//! Cursors over compressed logs: the cell at an instant, the stops of a window, and the first of
//! them in a region.
//!
//! A log is asked without expanding it. Each answer is that of the expanded log (`specs/Seek.antt`,
//! `specs/Walk.antt`, `specs/Touching.antt`), and only the rules on the way are opened.
#![tactic(auto)]

mod descent;
mod opened;
mod pending;
mod searching;
mod seeking;
mod start;
mod walk;

pub use descent::{Descent, Stage};
pub use pending::Pending;
pub use searching::{first_hit, first_hit_with, placed};
pub use seeking::seek;
pub use start::Start;
pub use walk::BlockWalk;
