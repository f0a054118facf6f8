//! Laws of plain lists that std does not have.
//!
//! There is no code: the definitions stand in `specs/`, the laws in `proofs/`. They are about
//! joined lists, filters, sums, numbers that ascend, and places in joined lists.
#![tactic(auto)]
