//! k2-trees: sets of grid cells as bits that answer rank and select.
//!
//! A `K2Tree` is a set of cells of a square grid, numbered in Morton order. `leaf_of` and
//! `leaf_cell` go from a cell to its number and back in a bounded number of reads, and `pruned`
//! walks over the cells whose squares pass a test. `bits_of_codes` makes only the bits, for a tree
//! that is written and not asked.
#![tactic(auto)]

mod building;
mod checking;
mod climb;
mod counting;
mod descent;
mod fault;
mod group_bits;
mod groups;
mod keep;
mod listing;
mod morton_code;
mod pending_children;
mod pruned;
mod square;
mod square_walk;
mod tree;

pub use building::bits_of_codes;
pub use fault::TreeFault;
pub use groups::fan_of;
pub use keep::Keep;
pub use listing::Listing;
pub use morton_code::{cell_at, codes_of_cells, column_of, morton, row_of};
pub use pruned::Pruned;
pub use square::{Square, child_column, child_row, square_area};
pub use tree::K2Tree;
