//! What went through a device, as contracts see it.
//!
//! With a history a contract can speak of all bytes that were read or written, though the program
//! keeps none of them. A history takes no bytes of memory, and its calls do nothing when the
//! program runs.
#![tactic(auto)]

mod file_history;
mod ghost_loads;
mod history;
mod load_history;

pub use file_history::FileHistory;
pub use history::History;
pub use load_history::LoadHistory;
