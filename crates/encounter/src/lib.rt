//! When two objects first came near each other.
//!
//! Both types here answer questions and tell meetings (`Meets` of track_types). `IndexMeets` finds
//! a meeting in an index: it goes through both objects' logs of a period together, and opens only
//! the rules that may hold one. `Walked` finds it for any answerer, by drawing two paths side by
//! side.
#![tactic(auto)]

mod answering;
mod block_node;
mod index_meets;
mod nearness;
mod pairing;
mod party;
mod search;
mod side_by_side;
mod walked;
mod window;

pub use index_meets::IndexMeets;
pub use walked::Walked;
