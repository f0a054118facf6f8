//! Strings of bits, the lowest bit of each byte first, which are read from the front and written at
//! the end.
//!
//! They hold numbers of a known width, and numbers in Elias's delta code, which says itself how
//! long it is. What is written is read again, and no other bits are read as it.
#![tactic(auto)]

mod fault;
mod reader;
mod word;
mod writer;

pub use fault::BitFault;
pub use reader::BitReader;
pub use word::first_word;
pub use writer::BitWriter;
