//! The parts of an index with their rules in order.
//!
//! A file of version 3 stores rules in one order only. `settled` brings the rules of valid parts into
//! this order, and gives each symbol of the logs its new number. Each symbol stands for what it stood
//! for. So the parts stay valid and hold the same chart.
#![tactic(auto)]

mod settling;

pub use settling::settled;
