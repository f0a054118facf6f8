//! Re-Pair: blocks of symbols made shorter by rules, each of which stands for two symbols side by
//! side.
//!
//! `compress` gives exactly the rules and blocks of `re_pair` in `specs/RePair.antt`, and
//! `compress_joined` the same with the blocks in one list. The method is
//! Larsson and Moffat's (Off-Line Dictionary-Based Compression, Proceedings of the IEEE 88, 2000).
//! How ties and overlaps are settled is this project's own.
#![tactic(auto)]

mod blocks;
mod choosing;
mod compressing;
mod grammar;
mod joining;
mod key;
mod keys;
mod pairs;
mod passing;
mod rows;
mod symbol_row;
mod tallying;

pub use blocks::JoinedBlocks;
pub use grammar::{Grammar, JoinedGrammar, compress, compress_joined};
