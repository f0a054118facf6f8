//! The paths of two indexes, or of an index and later rows, as those of one chart.
//!
//! `Paths` are the sorted paths of an index or of a chart. `UnionWalk` walks over the stops of an
//! object in two of them. `chart_of_both` makes the chart of all their rows: where both have a row
//! of an object and an instant, the later counts (`specs/Union.antt`). So the chart is the one that
//! all raw rows have together.
#![tactic(auto)]

mod chart_union;
mod front;
mod paths;
mod row_drawing;
mod rows_paths;
mod rows_walk;
mod union_walk;

pub use chart_union::chart_of_both;
pub use paths::Paths;
pub use rows_paths::RowsPaths;
pub use rows_walk::RowsWalk;
pub use track_types::StopWalk;
pub use union_walk::UnionWalk;
