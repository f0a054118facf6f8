//! The bytes of an index file, in each version of the format. `decode` reads what a file stores, or
//! names the first flaw. Of an outline it also answers what bounds the logs.
//!
//! A file stores the parts of an index, and `encode` writes them, or an outline, from which the parts
//! follow, and `encode_outline` writes it: its version's `Spelling` tells which. All that has the form
//! of an index has one file, and bytes are read if and only if they are such a file.
//!
//! A flaw is named by its section, period, index and kind.
#![tactic(auto)]

mod decoded;
mod decoding;
mod encoding;
mod fields;
mod header;
mod lengths;
mod lists;
mod log;
mod outline;
mod packed;
mod packing;
mod periods;
mod place;
mod putting;
mod room;
mod stored;
mod unpacking;
mod width;

pub use decoded::Decoded;
pub use decoding::decode;
pub use encoding::encode;
pub use outline::{BlockList, Outline, OutlineBlock, encode_outline};
pub use stored::Stored;
pub use track_types::FormatFault;
