//! Raw rows to a chart: each row's cell and instant by floor division, and of an object's rows in
//! one instant the last.
//!
//! `grid` answers exactly the chart of the rows, or that there is no row, or the first quantity
//! above its limit. `GriddedRows` take rows piece by piece and answer the same. `chart` takes rows
//! that are gridded already, and judges them by the same limits.
#![tactic(auto)]

mod chart_making;
mod counts;
mod divisor;
mod fault;
mod gridded_rows;
mod limits;
mod merging;
mod packed_place;
mod row_gridding;
mod row_sorting;
mod survey;
mod track_blocks;

pub use chart_making::{chart, grid};
pub use fault::GridFault;
pub use gridded_rows::GriddedRows;
