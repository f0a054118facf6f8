//! The bytes of an index file, in each version of the format.
//!
//! Whoever opens or saves an index names no version. `decode` reads each and gives the parts that the bytes hold, or
//! the first flaw. `encode` writes parts in the newest version. Parts have one file in their version.
#![tactic(auto)]

mod file;

pub use file::{FileParts, Found, decode, decode_found, encode};
