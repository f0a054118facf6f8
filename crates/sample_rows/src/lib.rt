//! The rows of a sample, made from a number: objects that wander over a grid of 1,024 by 1,024
//! cells.
//!
//! The same numbers make the same rows on every machine: those of the definition in
//! `specs/Sample.antt`.
#![tactic(auto)]

mod generator;
mod sampling;
mod spot;

pub use sampling::sample_rows;
