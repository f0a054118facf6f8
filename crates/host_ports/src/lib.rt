//! The outside of the program: files to load and save, a source of questions, and a sink of
//! replies.
//!
//! Each is a trait. Its ghost members say what is known of its contents, and how many faults its
//! device has counted. A call fails only where that count rises, so a caller can hold the device to
//! it. `Files::begin` also fails where the files are known and none has the name.
//!
//! The objects in memory know all that they hold, and fail at the calls that they are given. The
//! real ones stand over std.
#![tactic(auto)]

mod copying;
mod disk_files;
mod fault;
mod file_store;
mod files;
mod filling;
mod input_source;
mod memory_files;
mod memory_sink;
mod memory_source;
mod meter;
mod numbered_calls;
mod output_sink;
mod replacing;
mod retrying;
mod saving;
mod sink;
mod source;

pub use disk_files::DiskFiles;
pub use fault::{Cut, Failed};
pub use files::Files;
pub use input_source::InputSource;
pub use memory_files::MemFiles;
pub use memory_sink::{MemSink, NullSink};
pub use memory_source::{CalmSource, MemSource};
pub use output_sink::OutputSink;
pub use sink::Sink;
pub use source::Source;
