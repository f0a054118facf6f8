//! The tests of what makes a chart and its index: gridding, parts, and the bytes of files.
#![tactic(auto)]

#[cfg(test)]
mod building;
#[cfg(test)]
mod charts;
#[cfg(test)]
mod file_bytes;
#[cfg(test)]
mod files;
#[cfg(test)]
mod grids;
#[cfg(test)]
mod parts;
