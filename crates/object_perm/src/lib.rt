//! Permutations of fewer than 2^32 places, which tell where a value stands in at most 33 reads.
//!
//! `Perm::check` accepts exactly the permutations. Contracts see a `Perm` as the list that it was
//! made from.
#![tactic(auto)]

mod cycles;
mod fault;
mod flaws;
mod group;
mod perm;
mod shortcuts;

pub use fault::PermFault;
pub use perm::Perm;
