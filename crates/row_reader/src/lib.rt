//! The rows of a CSV file, or the first place at which it is at fault.
//!
//! `read_rows` reads a whole file. A `RowParser` reads one that comes piece by piece, and need not
//! keep it. Both are exact: the bytes alone settle the answer, but for `Memory`, which may be
//! answered to any file.
#![tactic(auto)]

mod fault;
mod field;
mod heading;
mod parser;
mod reading;
mod row;
mod rows;

pub use fault::RowsFault;
pub use parser::RowParser;
pub use rows::read_rows;
