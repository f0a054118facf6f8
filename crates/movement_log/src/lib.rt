//! The logs of a chart: for each object and period in which it has a row, the first one and what
//! follows it, instant by instant.
//!
//! `cut` gives the block headers, the logs and the alphabet of the values that the logs use, and
//! `cut_joined` gives the logs in one list. What these are is said of the chart's rows, in
//! `specs/Logs.antt`.
#![tactic(auto)]

mod alphabet;
mod blocks;
mod cutting;
mod head;
mod logs;
mod raw_logs;

pub use cutting::{cut, cut_joined};
pub use head::{Head, HeadList};
pub use raw_logs::{JoinedLogs, RawLogs};
