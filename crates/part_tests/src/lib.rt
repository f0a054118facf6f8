//! The tests of the parts that an index is made of: lists of bits, permutations, trees, rules and
//! snapshots.
#![tactic(auto)]

#[cfg(test)]
mod bit_lists;
#[cfg(test)]
mod boxes;
#[cfg(test)]
mod period_blocks;
#[cfg(test)]
mod perms;
#[cfg(test)]
mod random;
#[cfg(test)]
mod ranks;
#[cfg(test)]
mod rules;
#[cfg(test)]
mod stores;
#[cfg(test)]
mod touching;
#[cfg(test)]
mod trees;
#[cfg(test)]
mod words;
