//! The way between an outline, which the newest files store, and the parts of an index.
//!
//! An outline has its blocks by object, and nothing in it follows from the rest. Parts have the same
//! blocks by period, with all that follows from them. `parts_of_outline` gives the parts of an outline,
//! which are those of an index, and hands on what bounds their logs. `outline_of` gives the outline of parts.
#![tactic(auto)]

mod descending;
mod opening;
mod outlining;
mod telling;

pub use opening::{BoundedParts, parts_of_outline};
pub use outlining::outline_of;
