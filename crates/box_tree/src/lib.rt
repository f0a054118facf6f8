//! Places with boxes, and a tree of squares over them that finds those which a search wants.
//!
//! A `BoxTree` is a list of places in Morton order, each with a cell of a grid and a box. A
//! `BoxWalk` finds the places whose cell and whose box pass two tests. It skips a square that fails
//! the first, and a node whose box fails the second. Its reads are bounded by the squares and the
//! cells that pass the first.
#![tactic(auto)]

mod boxes;
mod building;
mod node_kind;
mod node_ref;
mod node_walk;
mod search;
mod task;
mod tree;
mod walk;

pub use node_kind::NodeKind;
pub use node_ref::{NodeRef, SLOTS};
pub use search::Search;
pub use tree::BoxTree;
pub use walk::BoxWalk;
