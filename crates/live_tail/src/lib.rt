//! An index and the rows that came after it, asked as if they had been built together.
//!
//! New rows can be asked at once, before they are built into an index. `Tailed` keeps an index and a
//! tail, which is the chart of later rows. `TailRef` answers for the chart of both
//! (`specs/Join.antt`). If both have a row of an object at an instant, the tail's row counts. The
//! tail's rows are at hand, and reading them is not counted.
#![tactic(auto)]

mod answering;
mod chunk;
mod interval;
mod nearest;
mod objects;
mod outline;
mod packing;
mod row_search;
mod slice;
mod small_row;
mod small_rows;
mod tail;
mod tail_walk;
mod tailed;

pub use tail_walk::{TailWalk, TrackWalk};
pub use tailed::{TailRef, Tailed};
