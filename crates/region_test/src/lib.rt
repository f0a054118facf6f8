//! A region beside two closures that answer for it: one for cells, one for boxes of cells.
//!
//! Searches are handed a `RegionTest` and ask its closures. What these answer is kept in the type:
//! `holds` is "the region contains the cell", and `may` is "the region touches the box".
#![tactic(auto)]

mod region_test;

pub use region_test::{Contains, MayTouch, RegionTest};
