//! The whole program as one call: command words in, an outcome out.
//!
//! `gract` makes indexes of CSV files, opens and asks them, upgrades, merges and extends them, and
//! makes samples. For each line of its source it says the reply that filtering the chart gives.
//! Files, source and sink are handed in, so that the call's contract can speak of all that came,
//! was saved and was said.
#![tactic(auto)]

mod answering;
mod asking;
mod building;
mod chart_loading;
mod chart_writing;
mod command_words;
mod commands;
mod counting;
mod extending;
mod fault;
mod fault_outcomes;
mod index_opening;
mod loading;
mod merging;
mod outcome;
mod outcome_text;
mod receiver;
mod request;
mod rows_receiver;
mod sampling;
mod summarizing;
mod tail_asking;
mod tail_opening;
mod upgrading;

pub use commands::gract;
pub use outcome::Outcome;
