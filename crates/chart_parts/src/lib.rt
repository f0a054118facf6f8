//! The parts that a chart is written as: header, objects, alphabet, rules, periods and logs.
//!
//! This is the builder of an index. `parts_of` and `into_parts` give exactly the parts of
//! `specs/PartsOf.antt`. They are the parts of an index, and hold the very chart that they were made
//! from. `period_with` makes the parts of a period from any blocks, as `specs/PeriodWith.antt` says.
#![tactic(auto)]

mod digit_sort;
mod header;
mod leaf;
mod leaves;
mod objects;
mod periods;
mod presence;
mod writing;

pub use periods::{period_with, periods_of};
pub use writing::{into_parts, parts_of};
