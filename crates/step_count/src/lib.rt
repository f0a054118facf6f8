//! Counted reads.
//!
//! A structure that promises how few reads a query makes keeps what it reads in a `CountedList`.
//! Each read there is one step of the caller's `Steps`, and contracts bound the steps. A counter
//! takes no bytes, and its calls do nothing when the program runs.
#![tactic(auto)]

mod counted_list;
mod one_read;
mod reads;
mod steps;

pub use counted_list::CountedList;
pub use one_read::OneRead;
pub use reads::Reads;
pub use steps::Steps;
