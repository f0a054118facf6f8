//! Grammar rules over movements: what each symbol stands for, summed up without expanding it.
//!
//! `RuleStore::check` takes exactly the alphabets, rules and symbols whose sums stay within a grid
//! and a period. `RuleStore::entry` is the summary of a symbol's expansion (`specs/Entry.antt`).
//! Reads of rules and of stored symbols are counted.
#![tactic(auto)]

mod entry;
mod entry_table;
mod fault;
mod joining;
mod log_view;
mod narrow_entry;
mod packed_box;
mod packed_entries;
mod packed_entry;
mod raw_rules;
mod store;

pub use entry::Entry;
pub use entry_table::EntryTable;
pub use fault::RuleFault;
pub use log_view::LogView;
pub use store::RuleStore;
