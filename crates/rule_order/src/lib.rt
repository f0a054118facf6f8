//! A fixed order for a grammar's rules, by layer and then by parts.
//!
//! In this order a rule itself tells where it stands, so that a file need not. `settle` brings the
//! rules of any grammar into it, and gives the stored symbols their new numbers.
#![tactic(auto)]

mod grammar;
mod numbering;
mod placing;
mod settling;

pub use settling::{Settled, settle};
